//! What reports and certificates say.

use rank_query::Query;
use rank_sched::Line;
use rank_scores::Candidate;

/// What a report says: a query, and a row for each of the best candidates.
#[derive(Debug, Drop)]
pub struct Report {
    pub query: Query,
    /// In the order of the text; the first row has the rank 1.
    pub rows: Vec<Row>,
    /// Whether these are all candidates, since there are fewer than were asked for.
    pub all: bool,
}

/// A row of a report: a candidate, and its station's name without the blanks at its end.
#[derive(Debug, Drop)]
pub struct Row {
    pub candidate: Candidate,
    /// A name that is read has at most thirty bytes, from 32 to 126.
    pub name: Vec<u8>,
}

/// What a certificate says: a query, the k-th score if there is one, and a line for each series.
#[derive(Debug, Drop)]
pub struct Certificate {
    /// 1 or 2.
    pub version: u64,
    pub query: Query,
    /// In the raw unit of the score, or nothing if the certificate has none.
    pub kth: Option<i64>,
    /// In the order of the text.
    pub lines: Vec<Line>,
    /// In version 2, for each line how many rows of the report belong to its station: 0 if the
    /// series was skipped. In version 1 none at all.
    pub counts: Vec<u64>,
}
