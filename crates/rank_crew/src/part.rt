//! Some workers at once, each but the first in a thread of its own.

ghost use Rattle.std.specs.Prelude.{◌≡◌, ◌∷◌, [], ◌+◌, ◌≤◌, IfOk};
ghost use denote.Param.Send.{IsSync};
ghost use Rattle.rank_board.specs.Seats.{rights_of, IsSeatOf};
ghost use Rattle.rank_crew.specs.Workers as crew;

use crate::both::both;
use crate::job::Job;
use ghcn_fields::Memory;
use rank_board::{Board, Seat};
use rank_sched::Haul;
use std::alloc::Global;
use std::sync::Wait;
use std::thread::{Threads, join};

/// The first that many workers of a job. The last of them has a thread; the caller starts the others in
/// the same way, and is the first. If a thread can't be started, the caller does its work too.
pub(crate) fn part<R: Threads + Wait + Sync, J: Job + Sync>(
    rt: &R,
    alloc: Global,
    job: &J,
    board: &Board,
    mut seat: Seat,
    workers: u64,
) -> (Seat, Result<Vec<Haul>, Memory>)
    requires { crew.HasShare board.now (J.task job.now) workers seat }
    ensures kept { crew.IsKept board.now seat result.0 }
    ensures gathers { IfOk result.1
        (λ hauls. crew.BringHome board.now (J.task job.now) 0 workers seat result.0 hauls.items) }
{
    let last = workers - 1;
    if last == 0 {
        return alone(rt, alloc, job, board, seat, 0);
    }
    let other = board.split(&mut seat, job.len() + 1);
    let ((other, second), (mut seat, first)) = join(
        rt,
        move ||
            requires { IsSync R.row × IsSync J.row
                × crew.HasShare board.now (J.task job.now) 1 other }
            ensures { crew.IsKept board.entry.now other result.0 × IfOk result.1
                (λ hauls. crew.BringHome board.entry.now (J.task job.entry.now) last 1 other result.0 hauls.items) }
        { alone(rt, alloc, job, board, other, last) },
        move ||
            requires { IsSync R.row × IsSync J.row
                × crew.HasShare board.now (J.task job.now) last seat }
            ensures { crew.IsKept board.entry.now seat result.0 × IfOk result.1
                (λ hauls. crew.BringHome board.entry.now (J.task job.entry.now) 0 last seat result.0 hauls.items) }
        { part(rt, alloc, job, board, seat, last) },
    );
    board.join(&mut seat, other);
    (seat, both(first, second))
}

/// One worker, and its haul as a list.
fn alone<R: Wait, J: Job>(
    rt: &R,
    alloc: Global,
    job: &J,
    board: &Board,
    seat: Seat,
    worker: u64,
) -> (Seat, Result<Vec<Haul>, Memory>)
    requires seat { IsSeatOf board.now seat }
    requires rights { (J.task job.now).len + 1 ≤ rights_of seat }
    ensures kept { crew.IsKept board.now seat result.0 }
    ensures gathers { IfOk result.1
        (λ hauls. crew.BringHome board.now (J.task job.now) worker 1 seat result.0 hauls.items) }
{
    match job.work_of(rt, alloc, board, seat, worker) {
        Ok((seat, haul)) => (seat, list_of(alloc, haul)),
        Err((seat, memory)) => (seat, Err(memory)),
    }
}

/// A list of one haul.
fn list_of(alloc: Global, haul: Haul) -> Result<Vec<Haul>, Memory>
    ensures { IfOk result (λ hauls. hauls.items ≡ haul ∷ []) }
{
    let mut hauls = Vec::new(alloc);
    hauls.push(haul)?;
    Ok(hauls)
}
