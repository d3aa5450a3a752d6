//! What a ranking or a merge returns.

/// What a ranking or a merge returns: a report, its certificate, and how many lines were skipped
/// because their stations aren't listed.
#[derive(Debug, Drop)]
pub struct Papers {
    /// The k best records as a text.
    pub report: Vec<u8>,
    /// As a text, the k-th score, and for each series of the query a bound, and how many rows
    /// belong to the series or that it was skipped.
    pub certificate: Vec<u8>,
    /// How many lines of unlisted stations were skipped; 0 after a merge, since reports and
    /// certificates don't hold it.
    pub unlisted: u64,
}
