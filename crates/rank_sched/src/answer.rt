//! The answer of a run.

use crate::{Line, Record};
use rank_scores::Candidate;

/// What a run found: the best candidates, a line for each morsel by increasing ID, what the workers
/// wrote down, worker after worker, and how many skips were undone.
#[derive(Drop)]
pub struct Answer {
    pub best: Vec<Candidate>,
    pub lines: Vec<Line>,
    pub records: Vec<Record>,
    pub taken_back: u64,
}
