//! A whole crew: a board is opened, the workers run to their end, the board is closed, and an
//! answer is made of their hauls.

ghost use Rattle.std.specs.Prelude.{◌<◌, ◌≤◌, IfOk, IfSome};
ghost use Rattle.ghcn_fields.specs.Floor.{IsScore};
ghost use Rattle.rank_sched.specs.Answers.{IsAnswerOfCrew, AreBestOfQuery};
ghost use Rattle.rank_sched.specs.Task.{task_of};
ghost use Rattle.rank_crew.specs.Workers.{IsEnd};

use crate::Gate;
use crate::job::PlanJob;
use crate::part::part;
use ghcn_fields::Memory;
use rank_board::Board;
use rank_sched::{Answer, Haul, Plan, finish};
use std::alloc::Global;
use std::sync::Wait;
use std::thread::Threads;

/// The answer of 1 to 64 workers in threads, under a guess from -2^31 to 2^31 or none.
///
/// Which morsels are skipped may differ from run to run. If one worker finds no memory, the
/// others run to their end.
pub fn crew<R: Threads + Wait + Sync, G: Gate + Sync>(
    rt: &R,
    alloc: Global,
    plan: &Plan<'_>,
    workers: u64,
    guess: Option<i64>,
    gate: &G,
) -> Result<Answer, Memory>
    requires some { 0 < workers }
    requires few { workers ≤ 64 }
    requires guess { IfSome guess IsScore }
    ensures answer { IfOk result (IsAnswerOfCrew plan.now guess workers) }
    ensures best { IfOk result (λ answer. AreBestOfQuery plan.now answer.best.items) }
{
    let hauls = run_crew(rt, alloc, plan, workers, guess, gate)?;
    finish(alloc, plan, hauls)
}

/// The hauls of the workers, in the order of their numbers.
fn run_crew<R: Threads + Wait + Sync, G: Gate + Sync>(
    rt: &R,
    alloc: Global,
    plan: &Plan<'_>,
    workers: u64,
    guess: Option<i64>,
    gate: &G,
) -> Result<Vec<Haul>, Memory>
    requires some { 0 < workers }
    requires few { workers ≤ 64 }
    requires guess { IfSome guess IsScore }
    ensures { IfOk result (λ hauls. IsEnd (task_of plan.now) guess workers hauls.items) }
{
    let (board, seat) = Board::open(alloc, workers * (plan.len() + 1), guess)?;
    let job = PlanJob { plan, gate };
    let (seat, hauls) = part(rt, alloc, &job, &board, seat, workers);
    // The seat is whole again: closing the board accounts for all that was claimed and raised.
    board.close(seat);
    hauls
}
