//! The tests of the crates that read: fields, files, series and queries. A module has those of a crate.
//!
//! They know these crates as their callers do, by what they show.
#![tactic(auto)]

#[cfg(test)]
mod fields;
#[cfg(test)]
mod files;
#[cfg(test)]
mod growths;
#[cfg(test)]
mod lines;
#[cfg(test)]
mod query;
#[cfg(test)]
mod series;
#[cfg(test)]
mod texts;
