//! Bounds: for a series and a query a number that no candidate's score exceeds, found without
//! looking at the series again.
//!
//! `rank_sched` takes series by falling bound, and skips those whose bound is too low.
#![tactic(auto)]

mod blocks;
mod range;
mod reached;
mod runs;
mod summary;
mod values;
mod window;

pub use blocks::Blocks;
