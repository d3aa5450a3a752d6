//! The verdict of a part on a report and a certificate.

use rank_check::Refusal;

/// The verdict of the files of some stations on a report and a certificate of a whole archive.
#[derive(Clone, Copy, Debug, PartialEq, Eq)]
pub enum PartVerdict {
    /// No test fails: these files have this many series of the query, and the certificate has this many lines.
    Accepted { series: u64, lines: u64 },
    /// The first test that fails is one of this line.
    Refused(Refusal),
}
