//! Pools: the best of all candidates that were offered.
//!
//! Each worker of a run keeps a pool, and the run's answer merges these. A pool holds the first k of all
//! candidates that it was offered, in whatever order they were offered.
#![tactic(auto)]

mod laws;
mod pool;

pub use laws::{first_are_the_same, pools_hold_the_first, scores_tell_places};
pub use pool::Pool;
