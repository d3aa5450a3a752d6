//! Boards and crews of which `tests/grow` refuses one allocation after the other.
//!
//! A test prints `memory` if the call that it is about met the refusal, and `answered` if it
//! returned what it has to. It prints nothing if what is made beforehand met it.

ghost use Rattle.std.specs.Prelude.{◌+◌, ◌≤◌, length};
ghost use Rattle.rank_board.specs.Seats.{rights_of, IsSeatOf};
ghost use Rattle.rank_crew.specs.Workers.{IsKept};

use crate::data::{USUAL, data_of, plan_of};
use ghcn_fields::Memory;
use rank_board::{Board, Seat};
use rank_crew::{Open, crew, survey, work};
use rank_query::Query;
use rank_sched::Plan;
use std::alloc::Global;
use std::process::Abort;
use std::sync::Wait;
use std::test::Fail;
use std::thread::Threads;

#[test]
fn a_board_for_eight_claims(rt: HostRuntime) -> Result<(), Fail> {
    match Board::open(rt.alloc(), 8, None) {
        Ok((board, mut seat)) => {
            assert_eq!(rt; board.claim(&mut seat), 0);
            assert_eq!(rt; seat.rights(), 7);
            println!(rt; "answered")?;
        }
        Err(Memory) => println!(rt; "memory")?,
    }
    Ok(())
}

/// Prints whether a call returned, and then it has to have returned what it has to.
fn tell<R: Abort + Print>(rt: &R, found: Option<Result<bool, Memory>>) -> Result<(), Fail> {
    match found {
        None => {}
        Some(Err(Memory)) => println!(rt; "memory")?,
        Some(Ok(right)) => {
            assert!(rt; right);
            println!(rt; "answered")?;
        }
    }
    Ok(())
}

/// Whether four workers make the plan of the usual values.
fn surveyed<R: Threads + Wait + Sync>(rt: &R, alloc: Global) -> Option<Result<bool, Memory>> {
    let data = data_of(alloc, &USUAL)?;
    let query = Query::parse("top 1 highest TMAX").ok()?;
    let plan = survey(rt, alloc, &data, &query, 4, &Open);
    Some(plan.map(|it| it.len() == 3 && it.bound(2) == Some(250)))
}

#[test]
fn a_survey_of_four_workers(rt: HostRuntime) -> Result<(), Fail> {
    tell(&rt, surveyed(&rt, rt.alloc()))
}

/// Whether four workers return the best of the usual values.
fn answered<R: Threads + Wait + Sync>(rt: &R, alloc: Global) -> Option<Result<bool, Memory>> {
    let data = data_of(alloc, &USUAL)?;
    let plan = plan_of(alloc, &data)?;
    let answer = crew(rt, alloc, &plan, 4, None, &Open);
    Some(answer.map(|it| it.best.len() == 1 && it.records.len() == 3))
}

#[test]
fn a_crew_of_four_workers(rt: HostRuntime) -> Result<(), Fail> {
    tell(&rt, answered(&rt, rt.alloc()))
}

/// One worker of a plan: its seat, and how many records it has, if it found memory.
fn home_of<R: Wait>(
    rt: &R,
    alloc: Global,
    plan: &Plan<'_>,
    board: &Board,
    seat: Seat,
    worker: u64,
) -> (Seat, Option<usize>)
    requires seat { IsSeatOf board.now seat }
    requires rights { length plan.now.morsels + 1 ≤ rights_of seat }
    ensures { IsKept board.now seat result.0 }
{
    match work(rt, alloc, plan, board, seat, worker, &Open) {
        Ok((seat, haul)) => (seat, Some(haul.records.len())),
        Err((seat, Memory)) => (seat, None),
    }
}

/// What two workers of one board leave of a plan of three morsels.
#[derive(Drop)]
struct Left {
    /// The number of the next claim.
    next: u64,
    /// How many rights to a claim aren't used.
    rights: u64,
    /// Of each worker how many records it has, if it found memory.
    records: (Option<usize>, Option<usize>),
}

/// What two workers leave, if the second starts after the first has ended.
fn left_by_two<R: Wait>(rt: &R, alloc: Global, plan: &Plan<'_>) -> Option<Left> {
    if plan.len() != 3 {
        return None;
    }
    let (board, mut one) = Board::open(alloc, 8, None).ok()?;
    let two = board.split(&mut one, 4);
    let (mut one, first) = home_of(rt, alloc, plan, &board, one, 0);
    let (two, second) = home_of(rt, alloc, plan, &board, two, 1);
    board.join(&mut one, two);
    let rights = one.rights();
    Some(Left {
        next: board.close(one).next,
        rights,
        records: (first, second),
    })
}

/// The same over the usual values.
fn left_of_usual<R: Wait>(rt: &R, alloc: Global) -> Option<Left> {
    let data = data_of(alloc, &USUAL)?;
    left_by_two(rt, alloc, &plan_of(alloc, &data)?)
}

#[test]
fn two_workers_of_one_board(rt: HostRuntime) -> Result<(), Fail> {
    let Some(left) = left_of_usual(&rt, rt.alloc()) else {
        return Ok(());
    };
    let used_up = left.next.checked_add(left.rights);
    assert_eq!(rt; used_up, Some(8), "each claim took one right");
    match left.records {
        (Some(3), Some(0)) => {
            assert_eq!(rt; left.next, 5, "each worker claimed past the last morsel");
            println!(rt; "answered")?;
        }
        (None, Some(_)) | (Some(_), None) => {
            assert!(rt; left.next >= 4, "the other claimed past the last morsel");
            println!(rt; "memory")?;
        }
        records => {
            assert!(rt; false, "{records:?}");
        }
    }
    Ok(())
}
