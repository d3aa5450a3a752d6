//! Worked crews: each number of workers from 1 to 64, guesses, and one worker by itself.

ghost use Rattle.std.specs.Prelude.{IfSome};
ghost use Rattle.ghcn_fields.specs.Floor.{IsScore};

use crate::data::{Lines, USUAL, answer_of, data_of, lines_of, plan_of};
use ghcn_fields::Memory;
use ghcn_series::Data;
use rank_board::Board;
use rank_crew::{Open, work};
use rank_query::Query;
use rank_sched::{Plan, run_alone};
use std::alloc::Global;
use std::sync::Wait;
use std::thread::Threads;

/// The first number of workers, from 1 to 64, that don't return what one returns alone.
fn first_to_differ<R: Threads + Wait + Sync>(
    rt: &R,
    alloc: Global,
    data: &Data,
    query: &Query,
) -> Result<Option<u64>, Memory> {
    let alone = run_alone(alloc, &Plan::new(alloc, data, query)?, None)?;
    for workers in 1..65 {
        let answer = answer_of(rt, alloc, data, query, workers, None, &Open)?;
        let same = answer.best.as_slice() == alone.best.as_slice();
        if !same || answer.records.len() != 3 || answer.taken_back != 0 {
            return Ok(Some(workers));
        }
    }
    Ok(None)
}

/// The same over the usual values.
fn first_of_usual<R: Threads + Wait + Sync>(
    rt: &R,
    alloc: Global,
    text: &str,
) -> Option<Option<u64>> {
    let data = data_of(alloc, &USUAL)?;
    let query = Query::parse(text).ok()?;
    first_to_differ(rt, alloc, &data, &query).ok()
}

#[test]
fn one_to_sixty_four_workers(rt: HostRuntime) {
    for text in [
        "top 1 highest TMAX",
        "top 3 lowest TMAX",
        "top 9 highest TMAX",
    ] {
        let found = first_of_usual(&rt, rt.alloc(), text);
        assert_eq!(rt; found, Some(None), "{text}");
    }
}

/// The lines of one worker's answer over the usual values, and how many skips are undone.
fn guessed<R: Threads + Wait + Sync>(
    rt: &R,
    alloc: Global,
    text: &str,
    guess: Option<i64>,
) -> Option<(Lines, u64)>
    requires { IfSome guess IsScore }
{
    let data = data_of(alloc, &USUAL)?;
    let query = Query::parse(text).ok()?;
    let answer = answer_of(rt, alloc, &data, &query, 1, guess, &Open).ok()?;
    Some((lines_of(&answer)?, answer.taken_back))
}

#[test]
fn one_worker_under_guesses(rt: HostRuntime) {
    let skipped = [(311, false), (311, false), (250, true)];
    let scanned = [(311, false), (311, false), (250, false)];
    let best = "top 1 highest TMAX";
    assert_eq!(rt; guessed(&rt, rt.alloc(), best, None), Some((skipped, 0)));
    let found = guessed(&rt, rt.alloc(), best, Some(1000));
    assert_eq!(rt; found, Some((skipped, 2)));
    let found = guessed(&rt, rt.alloc(), "top 10 highest TMAX", Some(300));
    assert_eq!(rt; found, Some((scanned, 1)));
}

/// What one worker with four rights leaves of a plan of three morsels: how many records, how many
/// rights, and the number of the next claim.
fn work_of<R: Wait>(rt: &R, alloc: Global, plan: &Plan<'_>) -> Option<(usize, u64, u64)> {
    if plan.len() != 3 {
        return None;
    }
    let (board, seat) = Board::open(alloc, 4, None).ok()?;
    let (seat, haul) = work(rt, alloc, plan, &board, seat, 0, &Open).ok()?;
    let rights = seat.rights();
    Some((haul.records.len(), rights, board.close(seat).next))
}

/// The same over the usual values.
fn work_of_usual<R: Wait>(rt: &R, alloc: Global) -> Option<(usize, u64, u64)> {
    let data = data_of(alloc, &USUAL)?;
    work_of(rt, alloc, &plan_of(alloc, &data)?)
}

#[test]
fn work_on_four_rights(rt: HostRuntime) {
    assert_eq!(rt; work_of_usual(&rt, rt.alloc()), Some((3, 0, 4)));
}
