//! What a worker writes down about a morsel.

ghost use Rattle.std.specs.Prelude.{◌≡◌};
ghost use Rattle.rank_sched.specs.Machine as machine;
ghost use Rattle.rank_sched.specs.Task.{task_of};

use crate::Plan;
use rank_scores::bound_is_below;

/// What one worker did with one morsel: the floor that it saw, and whether it skipped the morsel.
#[derive(Clone, Copy, Debug, PartialEq, Eq)]
pub struct Record {
    /// The number of the morsel in the plan, from 0.
    pub morsel: u64,
    /// The number of the worker, from 0.
    pub worker: u64,
    /// The floor: a score in its raw unit, or none.
    pub seen: Option<i64>,
    pub skipped: bool,
}

/// What a worker writes down about a morsel, after it saw this floor.
pub fn record_of(plan: &Plan<'_>, worker: u64, morsel: u64, seen: Option<i64>) -> Record
    ensures { result ≡ machine.record_of (task_of plan.now) worker morsel seen }
{
    Record {
        morsel,
        worker,
        seen,
        skipped: bound_is_below(seen, plan.bound(morsel).unwrap_or(0)),
    }
}
