//! What a run is asked, and the files that it is given, taken piece by piece.
//!
//! The crate reads the query and the data of what was given, or finds the first error in it.
#![tactic(auto)]

mod archive;
mod claimed;
mod fault;
mod intake;
mod limits;
mod list;
mod named;
mod queries;
mod question;
mod shares;
mod stretches;

pub use archive::{Archive, Place, System, feed, feed_files, piece_room, read_whole};
pub use fault::Fault;
pub use intake::Intake;
pub use limits::{check_words, workers_for};
pub use list::{StationList, read_station_list};
pub use named::{NotNamed, below, list_path, name_files};
pub use queries::{QueriesFault, needed_by, read_queries};
pub use question::{Question, TakenInput};
pub use shares::{Daily, take_files};
