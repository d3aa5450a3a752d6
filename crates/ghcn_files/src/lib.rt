//! The lines of GHCN-Daily's two files: listed stations, and months of daily values.
//!
//! The crate of series and the query language use it, for the station and the month.
#![tactic(auto)]

mod columns;
mod element;
mod fault;
mod flags;
mod heads;
mod kept;
mod keys;
mod listing;
mod missing;
mod month;
mod reader;
mod row;
mod station;
mod stations;

pub use element::{Element, Keep};
pub use fault::{LineWhy, StationWhy, StationsFault};
pub use flags::flagged_values;
pub use heads::MonthReader;
pub use month::{Month, Reading, read_month};
pub use reader::StationsReader;
pub use row::{MonthRow, read_days};
pub use station::{Station, StationId, are_visible};
pub use stations::Stations;
