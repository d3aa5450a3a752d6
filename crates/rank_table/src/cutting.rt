//! Cutting reports that follow one another in a text. The last line of a report begins with `end `, and no other line
//! of it does.

ghost use Rattle.std.specs.Prelude.{◌≡◌, ◌∷◌, ◌++◌, codes, nat_eq};
ghost use Rattle.std.specs.List.{starts_with};
ghost use Rattle.rank_papers.specs.Lines.{paper_lines};
ghost use Rattle.rank_table.specs.Reading as reading;

use rank_papers::first_line;

/// The first report of a text, up to the first line that begins with `end `, and what follows it. If no line does, that
/// is the whole text, and nothing.
pub(crate) fn first_report(text: &[u8]) -> (&[u8], &[u8])
    ensures parts { text.now ≡ result.0.now ++ result.1.now }
    ensures lines { reading.reports_of_lines (paper_lines text.now)
        ≡ paper_lines result.0.now ∷ reading.cut_lines (paper_lines result.1.now) }
{
    let rest = after_report(text);
    text.split_at(text.len() - rest.len())
}

/// What follows the first report of a text.
fn after_report(text: &[u8]) -> &[u8]
    ensures { reading.IsAfterReport text.now result.now }
{
    let mut rest = text;
    while let Some((line, behind)) = first_line(rest) {
        if is_last(line) {
            return behind;
        }
        rest = behind;
    }
    rest
}

/// Whether a line is the last of a report, if it is a line of one.
fn is_last(line: &[u8]) -> bool
    ensures { result ≡ reading.is_last line.now }
{
    line.starts_with(b"end ")
}
