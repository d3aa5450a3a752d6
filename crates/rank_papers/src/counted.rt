//! A line of a certificate with its count: how many rows of the report belong to its station.

ghost use Rattle.std.specs.Prelude.{◌≡◌};
ghost use Rattle.rank_papers.specs.Meaning.Certificate as certificate;

use rank_sched::Line;

/// The line of a series, and how many rows of the report belong to its station: 0 if it was
/// skipped, and in version 1.
#[derive(Clone, Copy, Debug)]
pub(crate) struct Counted {
    pub(crate) entry: Line,
    pub(crate) count: u64,
}

/// Whether a line ends by a count: in version 2, if the series wasn't skipped.
pub(crate) fn has_count(version: u64, line: &Line) -> bool
    ensures { result ≡ certificate.has_count version line.now }
{
    version == 2 && !line.skipped
}
