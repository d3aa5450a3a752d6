//! One worker: it draws morsels from a board until none is left.

ghost use Rattle.std.specs.Prelude.{◌+◌, ◌<◌, ◌≤◌, length, IfOk, IfErr, OnOk, OnErr};
ghost use Rattle.rank_board.specs.Seats.{rights_of, IsSeatOf};
ghost use Rattle.rank_sched.specs.Task.{task_of};
ghost use Rattle.rank_crew.specs.Workers as crew;

use crate::Gate;
use ghcn_fields::Memory;
use rank_board::{Board, Seat};
use rank_sched::{Haul, Plan, record_of};
use std::alloc::Global;
use std::sync::Wait;

/// One worker of a plan, until its claim is past the last morsel.
///
/// The seat has a right for each morsel and one more. It comes back with all claims and raises that
/// were made, also if memory runs out, and with no others.
pub fn work<R: Wait, G: Gate>(
    rt: &R,
    alloc: Global,
    plan: &Plan<'_>,
    board: &Board,
    mut seat: Seat,
    worker: u64,
    gate: &G,
) -> Result<(Seat, Haul), (Seat, Memory)>
    requires seat { IsSeatOf board.now seat }
    requires rights { length plan.now.morsels + 1 ≤ rights_of seat }
    ensures kept { IfOk result (λ home. crew.IsKept board.now seat home.0) }
    ensures works { IfOk result (λ home. crew.Works board.now (task_of plan.now) worker seat home.0 home.1) }
    ensures err { IfErr result (λ home. crew.IsKept board.now seat home.0) }
    ensures breaks { IfErr result (λ home. crew.BreaksOff (task_of plan.now) worker seat home.0) }
{
    let mut haul = match Haul::new(alloc, plan.query().k()) {
        Ok(haul) => haul,
        Err(memory) => return Err((seat, memory)),
    };
    loop {
        let morsel = board.claim(&mut seat);
        if morsel >= plan.len() {
            return Ok((seat, haul));
        }
        gate.claimed(rt, worker, morsel);
        if let Err(memory) = take_turn(plan, board, &mut seat, &mut haul, worker, morsel) {
            return Err((seat, memory));
        }
    }
}

/// A worker's turn after its claim: it looks at the floor, writes its record, and raises the score
/// that it reached.
fn take_turn(
    plan: &Plan<'_>,
    board: &Board,
    seat: &mut Seat,
    haul: &mut Haul,
    worker: u64,
    morsel: u64,
) -> Result<(), Memory>
    requires { crew.MaySettle board.now (task_of plan.now) seat.old haul.old }
    ensures kept { crew.KeepsClaims board.now seat.old seat.new }
    ensures settles { OnOk result
        (crew.Settles board.now (task_of plan.now) worker morsel seat.old seat.new haul.old haul.new) }
    ensures err { OnErr result (crew.OnlyLooks seat.old seat.new) }
{
    let seen = board.look(seat);
    let record = record_of(plan, worker, morsel, seen);
    if let Some(score) = haul.settle(plan, record)? {
        board.raise(seat, score);
    }
    Ok(())
}
