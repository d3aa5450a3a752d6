//! What an answer says of one morsel.

use ghcn_files::StationId;

/// A series of the query: its station, a number that no candidate's score exceeds, and whether it
/// was skipped.
#[derive(Clone, Copy, Debug, PartialEq, Eq)]
pub struct Line {
    pub id: StationId,
    /// In the raw unit of the score.
    pub bound: i64,
    pub skipped: bool,
}
