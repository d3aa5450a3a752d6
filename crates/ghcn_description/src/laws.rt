//! What the numbers of a description are to each other, as a law over their definitions.

ghost use Rattle.ghcn_description.specs.Laws as laws;

/// Each line of files without an error is counted once: as one of an element of a listed station, of
/// another code, of a station that isn't listed, or of blanks. So the numbers of lines in a description
/// add up to that of all lines.
pub fn lines_add_up()
    ensures lines { laws.LinesAddUp }
    ensures described { laws.DescriptionsAddUp }
{}
