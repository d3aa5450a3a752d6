//! A report, and where it is.

ghost use Rattle.std.specs.Prelude.{◌<◌, ◌+◌, ◌^◌, length};

use rank_papers::Report;

/// What a report says, and where it is: in the file of this number, from 1, after this many lines.
#[derive(Debug, Drop)]
pub struct PlacedReport {
    pub(crate) file: u64,
    pub(crate) before: u64,
    pub(crate) report: Report,
    // The number of each of its lines fits.
    ghost fits: { before + length report.rows.items + 3 < 2 ^ 64 },
}
