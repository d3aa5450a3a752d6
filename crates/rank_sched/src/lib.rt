//! The plan of a query, the machine that runs it in any order of events, and the end of a run.
//!
//! `extremes` ranks with this crate. It makes the plan, and an answer that has the best
//! candidates and the right lines, in whatever order the workers took their steps.
#![tactic(auto)]

mod alone;
mod answer;
mod ended;
mod event;
mod haul;
mod laws;
mod line;
mod machine;
mod measured;
mod plan;
mod record;
mod replayed;
mod turn;

pub use alone::run_alone;
pub use answer::Answer;
pub use ended::finish;
pub use event::{Event, ReplayFault, StepFault};
pub use haul::Haul;
pub use laws::{
    ends_are_sound, hauls_are_right, hauls_grow, plans_have_the_best, runs_are_sound, workers_join,
};
pub use line::Line;
pub use machine::Machine;
pub use measured::measure;
pub use plan::{Morsel, Plan};
pub use record::{Record, record_of};
pub use replayed::replay;
pub use turn::Turn;
