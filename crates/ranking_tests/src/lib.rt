//! The tests of the crates that rank: scores, bounds, pools, runs, and what runs are given. A module
//! has those of a crate; `days` makes their data.
//!
//! They use these crates as callers do, by what is public.
#![tactic(auto)]

#[cfg(test)]
mod blocks;
#[cfg(test)]
mod days;
#[cfg(test)]
mod input;
#[cfg(test)]
mod names;
#[cfg(test)]
mod pool;
#[cfg(test)]
mod queries;
#[cfg(test)]
mod runs;
#[cfg(test)]
mod sched;
#[cfg(test)]
mod scores;
#[cfg(test)]
mod shares;
#[cfg(test)]
mod stretches;
