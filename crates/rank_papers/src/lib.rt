//! The report and the certificate of a ranking, as texts: the report of a query's best candidates,
//! and the certificate that accounts for each of its series.
//!
//! The program writes them, and the crate of tables reads reports again. It is proved that the report
//! of the best candidates of a query is the right one, that the certificate of a plan's answer is a
//! right one, and that a text is read as a report or a certificate if and only if it is one.
#![tactic(auto)]

mod both;
mod certificate_lines;
mod certificate_text;
mod counted;
mod fault;
mod laws;
mod lines;
mod measure;
mod number;
mod paper;
mod query_line;
mod report_lines;
mod report_text;
mod row;
mod rows;
mod spelling;
mod station_rows;

pub use both::read_papers;
pub use certificate_lines::read_certificate;
pub use certificate_text::{certificate, certificate_of_best};
pub use fault::{Paper, PaperFault};
pub use laws::{
    certificates_are_read, papers_are_found, papers_are_said, papers_of_one_element,
    reports_are_read,
};
pub use lines::first_line;
pub use measure::unit_of;
pub use number::{push_number, push_tenths, push_value};
pub use paper::{Certificate, Report, Row};
pub use query_line::is_same_query;
pub use rank_sched::Line;
pub use report_lines::read_report;
pub use report_text::{report, report_of_best, report_of_rows};
pub use row::trimmed;
pub use rows::{candidates_of, kth_score};
pub use station_rows::row_counts;
