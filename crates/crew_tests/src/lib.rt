//! The tests of the crates that threads share: the board, and the crew.
//!
//! They know these crates as their callers do, by what they show.
#![tactic(auto)]

#[cfg(test)]
mod boards;
#[cfg(test)]
mod calls;
#[cfg(test)]
mod crews;
#[cfg(test)]
mod data;
#[cfg(test)]
mod gates;
#[cfg(test)]
mod growths;
#[cfg(test)]
mod surveys;
