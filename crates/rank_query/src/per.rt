//! How a query groups what it ranks.

/// How a query groups contenders, which are days of a station with their score. Of each group only
/// the best is a candidate.
#[derive(Clone, Copy, Debug, PartialEq, Eq)]
pub enum Per {
    /// Not at all: each contender is a candidate.
    Each,
    /// By station.
    Station,
    /// By station, and by the year of the first day.
    Year,
}
