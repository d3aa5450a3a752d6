//! The refusal of a line of a report or a certificate.

ghost use Rattle.std.specs.Prelude.{◌≡◌};
ghost use Rattle.rank_check.specs.Tests as tests;

use crate::verdict::Why;
use rank_papers::Paper;

/// A line of the report or the certificate, counted from 1, and why it is refused.
#[derive(Clone, Copy, Debug, PartialEq, Eq)]
pub struct Refusal {
    pub paper: Paper,
    pub line: u64,
    pub why: Why,
}

impl Refusal {
    /// The refusal of this line for this reason.
    pub fn new(paper: Paper, line: u64, why: Why) -> Refusal
        ensures { result ≡ tests.refusal paper line why }
    {
        Refusal { paper, line, why }
    }
}
