//! Why a text isn't a report or a certificate.

use ghcn_fields::Memory;
use std::fmt;

/// The first line that doesn't match the format there, counted from 1, or out of memory.
#[derive(Clone, Copy, Debug, PartialEq, Eq)]
pub enum PaperFault {
    BadReport { line: u64 },
    BadCertificate { line: u64 },
    /// Out of memory. It can come at any allocation.
    Memory(Memory),
}

/// Which of a report and its certificate.
#[derive(Clone, Copy, Debug, PartialEq, Eq)]
pub enum Paper {
    Report,
    Certificate,
}

impl fmt::Display for Paper {
    ghost use Rattle.std.specs.Prelude.{Some};
    ghost use Rattle.rank_papers.specs.Papers.{paper_text};

    ghost output = { λ paper. Some (paper_text paper) };

    fn fmt<W: fmt::Write>(&self, f: &mut fmt::Formatter<W>) -> fmt::Result {
        f.write_str(match self {
            Paper::Report => "report",
            Paper::Certificate => "certificate",
        })
    }
}
