//! What the fixed-width files of GHCN-Daily are made of: lines, number fields and days.
//!
//! Every crate above uses it, for the line, the field and the day.
#![tactic(auto)]

mod date;
mod day;
mod decimal;
mod field;
mod lanes;
mod laws;
mod line;
mod memory;
mod text;
mod value;
mod visible;

pub use date::{read_date, write_date};
pub use day::{Day, days_in_month};
pub use decimal::{four_places_field, tenths_field};
pub use field::{Field, after_blanks, int_field, scaled_field};
pub use lanes::{are_clear, are_set, bad_columns, four_numbers, good_columns, has_bad_field};
pub use laws::{days_have_dates, fields_have_numbers};
pub use line::{Lines, is_blank, split_line, without_return};
pub use memory::Memory;
pub use text::lines;
pub use value::{value_field, value_or};
pub use visible::eleven_are_visible;
