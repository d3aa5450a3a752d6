//! The verdict on a report and a certificate.

use rank_papers::Paper;

/// Why a line of the report or the certificate is refused.
#[derive(Clone, Copy, Debug, PartialEq, Eq)]
pub enum Why {
    /// It doesn't match the format there.
    Form,
    /// It has another query than the one that the caller passes.
    OtherQuery,
    /// No candidate has this ID, these days, this score and this name.
    NotACandidate,
    /// The row before it doesn't precede it.
    OutOfOrder,
    /// Fewer or more candidates precede it than its rank says.
    NotBest,
    /// There are more candidates than rows, and fewer rows than were asked for.
    TooFew,
    /// The morsel at its place has another ID, or there is no morsel at its place.
    OtherSeries,
    /// A candidate of the series scores above the bound.
    NoBound,
    /// The series is skipped, and its bound isn't strictly below the k-th score.
    NotBelow,
    /// Its count isn't the number of the report's rows of its station.
    NotCounted,
    /// Its k-th score isn't that of the candidates.
    OtherFloor,
}

/// The verdict on a report and a certificate.
#[derive(Clone, Copy, Debug, PartialEq, Eq)]
pub enum Verdict {
    /// No test fails: the report is the right one, and the certificate a right one.
    Accepted,
    /// The first test that fails is one of this line. Lines are counted from 1.
    Refused { paper: Paper, line: u64, why: Why },
}
