//! How far a run has come, shown on a terminal as its files are read.
//!
//! A [`Watch`] counts what is read. An archive that it watches is [`Watched`]: its files have the same bytes, and are
//! opened as before. `extremes` shows the line of [`Reached`] for `--progress`.
#![tactic(auto)]

mod reached;
#[cfg(test)]
mod tests;
mod watch;
mod watched;

pub use reached::Reached;
pub use watch::Watch;
pub use watched::{Watched, WatchedFile};
