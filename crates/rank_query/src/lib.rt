//! The query language: what is ranked, where and when.
//!
//! The crates of scores, bounds, plans, reports and certificates and the program use it, for the
//! query and for the stations and days that it admits.
#![tactic(auto)]

mod fault;
mod laws;
mod parse;
mod per;
mod query;
mod region;
mod score;
mod season;
mod text;
mod values;
mod words;

pub use fault::QueryFault;
pub use laws::queries_have_texts;
pub use per::Per;
pub use query::Query;
pub use region::Region;
pub use score::Score;
pub use season::Season;
