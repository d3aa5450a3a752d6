//! The events of a run, and why one is refused.

use ghcn_fields::Memory;

/// One atomic step of the worker of this number.
#[derive(Clone, Copy, Debug, PartialEq, Eq)]
pub enum Event {
    /// It draws the next number.
    Claim(u64),
    /// It looks at the floor.
    Look(u64),
    /// It scans its morsel or skips it, and may raise the floor.
    Settle(u64),
}

/// Why an event is refused: first that there is no such worker, then that it isn't that worker's
/// next event. Workers count from 0.
#[derive(Clone, Copy, Debug, PartialEq, Eq)]
pub enum StepFault {
    /// There is no worker of this number.
    NoWorker(u64),
    /// It isn't this worker's next event.
    NotNow(u64),
    /// Out of memory. The machine then has failed.
    Memory(Memory),
}

/// Why a list of events isn't replayed, and how many of them were accepted.
#[derive(Clone, Copy, Debug, PartialEq, Eq)]
pub struct ReplayFault {
    /// How many events were accepted.
    pub accepted: u64,
    /// Why the next one was refused.
    pub why: StepFault,
}
