//! The tests of the crates of reports and certificates: what is written and read back, the checker
//! of a whole archive and of a part, and merges.
//!
//! They use these crates as callers do, by what is public.
#![tactic(auto)]

#[cfg(test)]
mod checks;
#[cfg(test)]
mod data;
#[cfg(test)]
mod many_parts;
#[cfg(test)]
mod merges;
#[cfg(test)]
mod papers;
#[cfg(test)]
mod parts;
