//! A report and a certificate of a whole archive, checked in parts: each part by the files of some stations alone.
//!
//! A caller that holds an archive in parts checks a report and a certificate by it, each part by itself and in any
//! order. The crate promises that the two are right for all files if and only if each part accepts them, and the
//! numbers of the parts' series add up to the number of the lines.
#![tactic(auto)]

mod judge;
mod laws;
mod lines;
mod part;
mod rows;
mod series;
mod text;
mod verdict;

pub use laws::{part_verdict_of_one_element, parts_make_the_whole, right_in_pieces};
pub use part::check_part;
pub use verdict::PartVerdict;
