//! The checker of reports and certificates. It goes through the data again, and uses no block, pool, plan or crew.
//!
//! Users check a report and a certificate by it, whatever program made them. The crate promises that these are
//! accepted if and only if both are right.
#![tactic(auto)]

mod judge;
mod laws;
mod lines;
mod papers;
mod pieces;
mod refusal;
mod rows;
mod survey;
mod tally;
mod text;
mod verdict;

pub use laws::{accepted_where_right, verdict_of_one_element};
pub use papers::{check, check_by};
pub use pieces::{check_absent, check_line};
pub use rank_papers::Paper;
pub use refusal::Refusal;
pub use verdict::{Verdict, Why};
