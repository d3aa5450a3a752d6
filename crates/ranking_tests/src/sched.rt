//! Worked plans, runs and answers.
//!
//! Data, plans and answers live in helpers that return plain facts, and nothing if memory is
//! refused: a test that holds them takes long to prove.

ghost use Rattle.std.specs.Prelude.{◌<◌, ◌≤◌, IfSome};
ghost use Rattle.ghcn_fields.specs.Floor.{IsScore};

mod growths;
mod random;

use crate::days::{A, B, C};
use ghcn_files::{StationId, Stations};
use ghcn_series::Data;
use rank_query::Query;
use rank_sched::{Answer, Event, Plan, ReplayFault, StepFault, finish, replay, run_alone};
use std::alloc::{AllocError, Global};
use std::fmt::Write;

const STATIONS: &[u8] = b"\
ZZA00000001  10.0000   20.0000  100.0    ALPHA
ZZA00000002  11.0000   21.0000  100.0    BRAVO
ZZA00000003  12.0000   22.0000  100.0    CHARLIE
";

/// The highest temperatures of each station on the first days of July 2020, in tenths of a degree.
type Values = [&'static [i32]; 3];

const USUAL: Values = [&[311, 305], &[311], &[250]];

/// The second station has two hot days.
const TWO_HOT_DAYS: Values = [&[311], &[320, 318], &[250]];

/// Writes the line of a station's month, if it has a day.
fn push_month(text: &mut String, id: &str, values: &[i32]) -> Result<(), AllocError> {
    if values.is_empty() {
        return Ok(());
    }
    write!(text, "{id}202007TMAX")?;
    for day in 0..31 {
        let value = values.get(day).copied().unwrap_or(-9999);
        write!(text, "{value:>5}   ")?;
    }
    text.push_str("\n")
}

/// What a file says of the stations of a list.
fn read(alloc: Global, list: &[u8], text: &[u8]) -> Option<Data> {
    let stations = Stations::read(alloc, list).ok()?;
    Data::read(alloc, stations, &[text]).ok()
}

/// The data of these values, if memory is there.
fn data_of(alloc: Global, values: &Values) -> Option<Data> {
    let mut text = String::new(alloc);
    push_month(&mut text, "ZZA00000001", values[0]).ok()?;
    push_month(&mut text, "ZZA00000002", values[1]).ok()?;
    push_month(&mut text, "ZZA00000003", values[2]).ok()?;
    read(alloc, STATIONS, text.as_bytes())
}

/// The plan of the best one.
fn plan_of_one(alloc: Global, data: &Data) -> Option<Plan<'_>> {
    let query = Query::parse("top 1 highest TMAX").ok()?;
    Plan::new(alloc, data, &query).ok()
}

// What three workers may do.

const C0: Event = Event::Claim(0);

const C1: Event = Event::Claim(1);

const C2: Event = Event::Claim(2);

const L0: Event = Event::Look(0);

const L1: Event = Event::Look(1);

const L2: Event = Event::Look(2);

const S0: Event = Event::Settle(0);

const S1: Event = Event::Settle(1);

const S2: Event = Event::Settle(2);

/// The bounds of the lines of three morsels, and which of them are skips.
type Lines = [(i64, bool); 3];

const SKIPPED: Lines = [(311, false), (311, false), (250, true)];

const SCANNED: Lines = [(311, false), (311, false), (250, false)];

/// The lines of an answer, if they are three.
fn lines_of(answer: &Answer) -> Option<Lines> {
    match answer.lines.as_slice() {
        [one, two, three] => Some([
            (one.bound, one.skipped),
            (two.bound, two.skipped),
            (three.bound, three.skipped),
        ]),
        _ => None,
    }
}

/// The answer of a run by these events.
fn answer_of(
    alloc: Global,
    plan: &Plan<'_>,
    workers: u64,
    guess: Option<i64>,
    events: &[Event],
) -> Option<Answer>
    requires some { 0 < workers }
    requires few { workers ≤ 64 }
    requires guess { IfSome guess IsScore }
{
    let machine = match replay(alloc, plan, workers, guess, events) {
        Ok(machine) => machine,
        Err(_) => return None,
    };
    if !machine.stopped() {
        return None;
    }
    finish(alloc, plan, machine.hauls()).ok()
}

/// The usual values ranked for the best one by these events: the lines, how many skips are undone,
/// and how many are the best.
fn replayed(alloc: Global, workers: u64, events: &[Event]) -> Option<(Lines, u64, usize)>
    requires some { 0 < workers }
    requires few { workers ≤ 64 }
{
    let data = data_of(alloc, &USUAL)?;
    let plan = plan_of_one(alloc, &data)?;
    let answer = answer_of(alloc, &plan, workers, None, events)?;
    Some((lines_of(&answer)?, answer.taken_back, answer.best.len()))
}

#[test]
fn interleaved_runs(rt: HostRuntime) {
    let alone = [C0, L0, S0, C0, L0, S0, C0, L0, S0, C0];
    let found = replayed(rt.alloc(), 1, &alone);
    assert_eq!(rt; found, Some((SKIPPED, 0, 1)), "one worker");
    let crossed = [C0, L0, C1, L1, S1, S0, C0, L0, S0, C0, C1];
    let found = replayed(rt.alloc(), 2, &crossed);
    assert_eq!(rt; found, Some((SKIPPED, 0, 1)), "the second settles first");
    let in_turn = [C0, L0, S0, C1, L1, S1, C1, L1, S1, C0, C1];
    let found = replayed(rt.alloc(), 2, &in_turn);
    assert_eq!(rt; found, Some((SKIPPED, 0, 1)), "one after the other");
    let at_once = [C0, C1, C2, L0, L1, L2, S2, S1, S0, C0, C1, C2];
    let found = replayed(rt.alloc(), 3, &at_once);
    assert_eq!(rt; found, Some((SCANNED, 0, 1)), "three at once");
}

/// The morsel and the worker of each record, if they are three.
fn records_of(answer: &Answer) -> Option<[(u64, u64); 3]> {
    match answer.records.as_slice() {
        [one, two, three] => Some([
            (one.morsel, one.worker),
            (two.morsel, two.worker),
            (three.morsel, three.worker),
        ]),
        _ => None,
    }
}

/// The records of two workers' run over the usual values by these events.
fn records_after(alloc: Global, events: &[Event]) -> Option<[(u64, u64); 3]> {
    let data = data_of(alloc, &USUAL)?;
    let plan = plan_of_one(alloc, &data)?;
    let answer = answer_of(alloc, &plan, 2, None, events)?;
    records_of(&answer)
}

#[test]
fn records_come_haul_after_haul(rt: HostRuntime) {
    let crossed = [C0, L0, C1, L1, S1, S0, C0, L0, S0, C0, C1];
    let found = records_after(rt.alloc(), &crossed);
    assert_eq!(rt; found, Some([(0, 0), (2, 0), (1, 1)]));
}

/// One worker over these values under a guess: the lines, how many skips are undone, and how many
/// records are skips.
fn guessed(alloc: Global, values: &Values, query: &str, guess: i64) -> Option<(Lines, u64, usize)>
    requires { IsScore guess }
{
    let data = data_of(alloc, values)?;
    let query = Query::parse(query).ok()?;
    let plan = Plan::new(alloc, &data, &query).ok()?;
    let answer = run_alone(alloc, &plan, Some(guess)).ok()?;
    let skips = answer.records.iter().filter(|it| it.skipped).count();
    Some((lines_of(&answer)?, answer.taken_back, skips))
}

#[test]
fn guesses(rt: HostRuntime) {
    let right = guessed(rt.alloc(), &USUAL, "top 1 highest TMAX", 311);
    assert_eq!(rt; right, Some((SKIPPED, 0, 1)), "311");
    let high = guessed(rt.alloc(), &USUAL, "top 1 highest TMAX", 1000);
    assert_eq!(rt; high, Some((SKIPPED, 2, 3)), "1000");
    let of_ten = guessed(rt.alloc(), &USUAL, "top 10 highest TMAX", 300);
    assert_eq!(rt; of_ten, Some((SCANNED, 1, 1)), "300");
    // The second day of BRAVO is warmer than all of ALPHA, but BRAVO has one candidate, so ALPHA's skip is undone.
    let of_stations = guessed(
        rt.alloc(),
        &TWO_HOT_DAYS,
        "top 2 highest TMAX per station",
        320,
    );
    let lines = [(311, false), (320, false), (250, true)];
    assert_eq!(rt;
        of_stations,
        Some((lines, 1, 2)),
        "of each station the best day"
    );
}

/// Why two workers' events are refused, if they are.
fn fault_of(alloc: Global, plan: &Plan<'_>, events: &[Event]) -> Option<ReplayFault> {
    replay(alloc, plan, 2, None, events).err()
}

/// Why two workers' events over the usual values are refused, if they are.
fn refusal(alloc: Global, events: &[Event]) -> Option<Option<ReplayFault>> {
    let data = data_of(alloc, &USUAL)?;
    let plan = plan_of_one(alloc, &data)?;
    Some(fault_of(alloc, &plan, events))
}

/// Two workers' events, why they are refused, and how many before them are accepted.
type Refusal = (&'static [Event], u64, StepFault);

#[test]
fn refused_events(rt: HostRuntime) {
    const ROWS: [Refusal; 4] = [
        (&[L0], 0, StepFault::NotNow(0)),
        (&[C2], 0, StepFault::NoWorker(2)),
        (&[C0, C0], 1, StepFault::NotNow(0)),
        (&[C0, S0], 1, StepFault::NotNow(0)),
    ];
    for (events, accepted, why) in ROWS {
        let fault = refusal(rt.alloc(), events);
        assert_eq!(rt;
            fault,
            Some(Some(ReplayFault { accepted, why })),
            "{accepted} accepted"
        );
    }
}

/// The station and the bound of a plan's morsel.
fn morsel(plan: &Plan<'_>, number: u64) -> Option<(StationId, i64)> {
    Some((plan.id(number)?, plan.bound(number)?))
}

/// How many morsels the best one of these values has, and those of the numbers 0 to 3.
fn planned(alloc: Global, values: &Values) -> Option<(u64, [Option<(StationId, i64)>; 4])> {
    let data = data_of(alloc, values)?;
    let plan = plan_of_one(alloc, &data)?;
    let morsels = [
        morsel(&plan, 0),
        morsel(&plan, 1),
        morsel(&plan, 2),
        morsel(&plan, 3),
    ];
    Some((plan.len(), morsels))
}

#[test]
fn plans(rt: HostRuntime) {
    let usual = [Some((A, 311)), Some((B, 311)), Some((C, 250)), None];
    let found = planned(rt.alloc(), &USUAL);
    assert_eq!(rt; found, Some((3, usual)));
    let other = [Some((B, 311)), Some((C, 300)), Some((A, 250)), None];
    let found = planned(rt.alloc(), &[&[250], &[311], &[300]]);
    assert_eq!(rt; found, Some((3, other)));
    let found = planned(rt.alloc(), &[&[], &[], &[]]);
    assert_eq!(rt; found, Some((0, [None; 4])));
}

/// How many are the best of no values, and how many lines an answer has.
fn counts_of_none(alloc: Global) -> Option<(usize, usize)> {
    let data = data_of(alloc, &[&[], &[], &[]])?;
    let plan = plan_of_one(alloc, &data)?;
    let answer = run_alone(alloc, &plan, None).ok()?;
    Some((answer.best.len(), answer.lines.len()))
}

#[test]
fn a_run_of_no_morsels(rt: HostRuntime) {
    assert_eq!(rt; counts_of_none(rt.alloc()), Some((0, 0)));
}
