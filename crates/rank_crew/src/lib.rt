//! The workers of a query in threads: they measure its stations, and then each draws morsels from a
//! board and returns a haul.
//!
//! `extremes` runs them. The crate makes the plan of a query, and a crew's answer.
#![tactic(auto)]

mod both;
mod crewed;
mod cut;
mod gate;
mod job;
mod part;
mod places;
mod surveyed;
mod worker;

pub use crewed::crew;
pub use gate::{Gate, Open};
pub use surveyed::survey;
pub use worker::work;
