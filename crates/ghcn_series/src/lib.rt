//! Series of usable values, by station and element.
//!
//! The crate of scores uses it, for the series: the map from the usable days
//! of one station and element to their values.
#![tactic(auto)]

mod beginning;
mod block;
mod by_place;
mod columns;
mod counts;
mod cutter;
mod data;
mod days;
mod extremes;
mod fault;
mod form;
mod gathering;
mod gatherings;
mod laws;
mod months;
mod parts;
mod reader;
mod rows;
mod series;
mod station;

pub use block::Block;
pub use counts::{Foreign, LineCounts, LineKind, LinePlace, OddLines, Warnings};
pub use cutter::{Cutter, JoinLines, LineReader};
pub use data::Data;
pub use days::{BlockDays, Days};
pub use fault::{DailyWhy, DataFault};
pub use laws::{data_are_right, data_are_said, unlisted_add_up};
pub use reader::Reader;
pub use rows::RowReader;
pub use series::Series;
