//! What daily files hold: how many lines, series and usable days of each element, and what else is
//! in them.
//!
//! It uses the lines that are cut from files, and the reader that notes which months were seen.
#![tactic(auto)]

mod counts;
mod describer;
mod elements;
mod laws;
mod others;
#[cfg(test)]
mod tests;
mod text;

pub use counts::{CodeCount, Description, ElementCounts, Span};
pub use describer::RowDescriber;
pub use laws::lines_add_up;
