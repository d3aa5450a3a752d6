//! Reports and certificates of parts, merged into those of the whole. No data is read again.
//!
//! A caller that ranked an archive in parts merges their reports and certificates by it. The crate promises that
//! what it returns is right for all files if the report and the certificate of each part are right for the part's
//! files, with one station list, and neither this list nor all files together have an error.
#![tactic(auto)]

mod fault;
mod gathering;
mod laws;
mod lines;
mod merging;
mod part;
mod rows;

pub use fault::MergeFault;
pub use laws::merged_are_right;
pub use merging::{Merged, merge};
