//! Workers that step in no order find what one worker finds alone.

ghost use Rattle.std.specs.Prelude.{◌<◌, ◌≤◌, IfSome};
ghost use Rattle.ghcn_fields.specs.Floor.{IsScore};

use super::{answer_of, push_month, read};
use ghcn_series::Data;
use rank_query::Query;
use rank_sched::{Event, Machine, Plan, run_alone};
use rank_scores::Candidate;
use std::alloc::{AllocError, Global};
use std::fmt::Write;

/// Numbers that look random: Knuth's linear congruence of 64 bits.
#[derive(Drop)]
struct Numbers(u64);

impl Numbers {
    fn below(&mut self, limit: u64) -> u64
        requires { 0 < limit }
        ensures { result < limit }
    {
        self.0 = self
            .0
            .wrapping_mul(6_364_136_223_846_793_005)
            .wrapping_add(1_442_695_040_888_963_407);
        (self.0 >> 33) % limit
    }
}

const MANY: [&str; 6] = [
    "ZZA00000001",
    "ZZA00000002",
    "ZZA00000003",
    "ZZA00000004",
    "ZZA00000005",
    "ZZA00000006",
];

/// Writes a list of six stations, and a file of some days, among which equal values are frequent.
fn push_random(
    list: &mut String,
    text: &mut String,
    numbers: &mut Numbers,
) -> Result<(), AllocError> {
    for id in MANY {
        writeln!(list, "{id}  10.0000   20.0000  100.0    NAME")?;
        let mut values = [0; 5];
        for day in 0..values.len() {
            values[day] = numbers.below(30) as i32;
        }
        push_month(text, id, &values)?;
    }
    Ok(())
}

/// Some days of six stations.
fn random_data(alloc: Global, numbers: &mut Numbers) -> Option<Data> {
    let mut list = String::new(alloc);
    let mut text = String::new(alloc);
    push_random(&mut list, &mut text, numbers).ok()?;
    read(alloc, list.as_bytes(), text.as_bytes())
}

/// No guess, one that is too low, one that may be right, or one that is too high.
fn guess_of(choice: u64) -> Option<i64>
    ensures { IfSome result IsScore }
{
    match choice {
        0 => None,
        1 => Some(-5),
        2 => Some(27),
        _ => Some(1000),
    }
}

/// Something that a worker may do.
fn random_event(workers: u64, numbers: &mut Numbers) -> Event
    requires { 0 < workers }
{
    let worker = numbers.below(workers);
    match numbers.below(3) {
        0 => Event::Claim(worker),
        1 => Event::Look(worker),
        _ => Event::Settle(worker),
    }
}

/// The events of workers that step in no order, until all have stopped.
fn random_events(
    alloc: Global,
    plan: &Plan<'_>,
    workers: u64,
    guess: Option<i64>,
    numbers: &mut Numbers,
) -> Option<Vec<Event>>
    requires some { 0 < workers }
    requires few { workers ≤ 64 }
    requires guess { IfSome guess IsScore }
{
    let mut machine = Machine::new(alloc, plan, workers, guess).ok()?;
    let mut events = Vec::new(alloc);
    for _ in 0..10_000 {
        if machine.stopped() {
            return Some(events);
        }
        let event = random_event(workers, numbers);
        if machine.step(event).is_ok() {
            events.push(event).ok()?;
        }
    }
    None
}

/// Whether a run of workers in no order, under some guess, finds these best.
fn finds(
    alloc: Global,
    plan: &Plan<'_>,
    workers: u64,
    numbers: &mut Numbers,
    best: &[Candidate],
) -> Option<bool>
    requires some { 0 < workers }
    requires few { workers ≤ 64 }
{
    let guess = guess_of(numbers.below(4));
    let events = random_events(alloc, plan, workers, guess, numbers)?;
    let answer = answer_of(alloc, plan, workers, guess, events.as_slice())?;
    Some(answer.best.as_slice() == best)
}

/// The first number of workers, of 1 to 4, that don't find what one worker finds alone.
fn first_other(
    alloc: Global,
    data: &Data,
    query: &str,
    numbers: &mut Numbers,
) -> Option<Option<u64>> {
    let query = Query::parse(query).ok()?;
    let plan = Plan::new(alloc, data, &query).ok()?;
    let answer = run_alone(alloc, &plan, None).ok()?;
    for workers in 1..5 {
        if !finds(alloc, &plan, workers, numbers, answer.best.as_slice())? {
            return Some(Some(workers));
        }
    }
    Some(None)
}

/// Of three queries of some days, the first number of workers that find something else.
fn others(alloc: Global, numbers: &mut Numbers) -> Option<[Option<u64>; 3]> {
    let data = random_data(alloc, numbers)?;
    let one = first_other(alloc, &data, "top 1 highest TMAX", numbers)?;
    let four = first_other(alloc, &data, "top 4 highest TMAX", numbers)?;
    let hundred = first_other(alloc, &data, "top 100 highest TMAX", numbers)?;
    Some([one, four, hundred])
}

#[test]
fn random_schedules(rt: HostRuntime) {
    let mut numbers = Numbers(2026);
    for round in 0..300 {
        let others = others(rt.alloc(), &mut numbers);
        assert_eq!(rt; others, Some([None; 3]), "round {round}");
    }
}
