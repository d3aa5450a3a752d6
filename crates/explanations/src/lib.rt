//! What an error or a warning means, in words for people: where it is, what is there, and what is asked for.
//!
//! The program prints them on a terminal, after the lines that scripts read.
#![tactic(auto)]

mod again;
mod daily;
mod explanation;
mod input;
mod merge;
mod notice;
mod people;
mod place;
mod query;
mod shown;
mod station;
mod table;
#[cfg(test)]
mod tests;

pub use explanation::{Explanation, Found};
pub use input::Given;
pub use people::ForPeople;
pub use query::{MoreWords, Wanted, WrongWord};
pub use shown::ShownText;
