//! Numbers that threads draw, each once, and the floor: the greatest score that any of them raised.
//!
//! Each thread holds a seat. `rank_crew` hands seats to its workers, and closes the board of a whole seat.
#![tactic(auto)]

mod board;
mod rule;
mod seat;
mod steps;
mod word;

pub use board::{Board, Closed};
pub use seat::Seat;
