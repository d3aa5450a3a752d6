//! Reports as a table: one record of comma-separated values for each row.
//!
//! The program reads reports of `rank` or `merge` by it, and prints their table. The crate promises that the table,
//! read back, has the query, the fields and the station's place of each row, in the order of the reports, that a text
//! which doesn't hold reports is refused at its first bad line, and rows at the first whose station isn't listed.
#![tactic(auto)]

mod cutting;
mod fault;
mod laws;
mod numbers;
mod placed;
mod reading;
mod records;
mod tabling;
#[cfg(test)]
mod tests;

pub use fault::TableFault;
pub use laws::{tables_are_read_back, texts_of_reports_are_read, unlisted_rows_are_refused};
pub use placed::PlacedReport;
pub use reading::read_reports;
pub use tabling::table;
