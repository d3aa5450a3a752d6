//! Candidates for a record, their order, and the scan of a series for them.
//!
//! The crates that bound, keep, rank and print candidates use this one. It says what a candidate
//! is, and which are the best of some candidates.
#![tactic(auto)]

mod admitted;
mod best;
mod candidate;
mod extreme;
mod floor;
mod laws;
mod leading;
mod morsel;
mod scans;
mod sink;
mod spell;
mod window;

pub use admitted::has_admitted_day;
pub use best::best_first;
pub use candidate::{Candidate, bound_is_below, precedes};
pub use floor::FloorSink;
pub use laws::{
    candidates_of_queries, candidates_of_series, files_in_parts, one_element_is_enough,
    own_element_among_others,
};
pub use morsel::{morsel_at, series_at};
pub use scans::{scan, scan_to_floor};
pub use sink::Sink;
pub use spell::Spell;
