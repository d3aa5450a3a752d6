//! What the workers of a crew share.

use crate::{Gate, work};
use ghcn_fields::Memory;
use rank_board::{Board, Seat};
use rank_sched::{Haul, Plan};
use std::alloc::Global;
use std::sync::Wait;

/// Work that any number of workers may share, each with a seat of one board.
pub(crate) trait Job {
    ghost use Rattle.std.specs.Prelude.{◌≡◌, ◌+◌, ◌≤◌, IfOk, IfErr};
    ghost use Rattle.rank_board.specs.Seats.{rights_of, IsSeatOf};
    ghost use Rattle.rank_sched.specs.Task.{Task, IsFair};
    ghost use Rattle.rank_crew.specs.Workers as crew;

    /// What is asked of the workers.
    ghost task: { Self → Task };

    /// How many morsels there are.
    fn len(&self) -> u64
        ensures len { result ≡ (task self.now).len }
        ensures fair { IsFair (task self.now) };

    /// One worker, until its claim is past the last morsel.
    fn work_of<R: Wait>(
        &self,
        rt: &R,
        alloc: Global,
        board: &Board,
        seat: Seat,
        worker: u64,
    ) -> Result<(Seat, Haul), (Seat, Memory)>
        requires seat { IsSeatOf board.now seat }
        requires rights { (task self.now).len + 1 ≤ rights_of seat }
        ensures kept { IfOk result (λ home. crew.IsKept board.now seat home.0) }
        ensures works { IfOk result (λ home. crew.Works board.now (task self.now) worker seat home.0 home.1) }
        ensures err { IfErr result (λ home. crew.IsKept board.now seat home.0) };
}

/// A plan whose morsels are drawn, and a gate.
#[derive(Drop)]
pub(crate) struct PlanJob<'p, G> {
    pub(crate) plan: &'p Plan<'p>,
    pub(crate) gate: &'p G,
}

impl<'p, G: Gate> Job for PlanJob<'p, G> {
    ghost use Rattle.rank_sched.specs.Task.{task_of};

    ghost task = { λ job. task_of job.plan.now };

    fn len(&self) -> u64 {
        self.plan.len()
    }

    fn work_of<R: Wait>(
        &self,
        rt: &R,
        alloc: Global,
        board: &Board,
        seat: Seat,
        worker: u64,
    ) -> Result<(Seat, Haul), (Seat, Memory)> {
        work(rt, alloc, self.plan, board, seat, worker, self.gate)
    }
}
