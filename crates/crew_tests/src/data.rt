//! Plans over three stations, which tests rank by many workers.
//!
//! Data, plans and answers live in helpers that return plain facts, and nothing if memory is
//! refused: a test that holds them takes long to prove.

ghost use Rattle.std.specs.Prelude.{◌<◌, ◌≤◌, IfSome};
ghost use Rattle.ghcn_fields.specs.Floor.{IsScore};

use ghcn_fields::Memory;
use ghcn_files::Stations;
use ghcn_series::Data;
use rank_crew::{Gate, crew, survey};
use rank_query::Query;
use rank_sched::{Answer, Plan};
use std::alloc::{AllocError, Global};
use std::fmt::Write;
use std::sync::Wait;
use std::thread::Threads;

const STATIONS: &[u8] = b"\
ZZA00000001  10.0000   20.0000  100.0    ALPHA
ZZA00000002  11.0000   21.0000  100.0    BRAVO
ZZA00000003  12.0000   22.0000  100.0    CHARLIE
";

/// The highest temperatures of the first days of July 2020, in tenths of a degree, of each station.
pub(crate) type Values = [&'static [i32]; 3];

pub(crate) const USUAL: Values = [&[311, 305], &[311], &[250]];

pub(crate) const FALLING: Values = [&[311], &[300], &[250]];

/// Writes the line of a station's July of a year.
pub(crate) fn push_july(
    text: &mut String,
    id: &str,
    year: u16,
    values: &[i32],
) -> Result<(), AllocError> {
    write!(text, "{id}{year}07TMAX")?;
    for day in 0..31 {
        let value = values.get(day).copied().unwrap_or(-9999);
        write!(text, "{value:>5}   ")?;
    }
    text.push_str("\n")
}

/// What a list and a file say.
pub(crate) fn read(alloc: Global, list: &[u8], text: &[u8]) -> Option<Data> {
    let stations = Stations::read(alloc, list).ok()?;
    Data::read(alloc, stations, &[text]).ok()
}

/// The data of these values, if memory is there.
pub(crate) fn data_of(alloc: Global, values: &Values) -> Option<Data> {
    let mut text = String::new(alloc);
    push_july(&mut text, "ZZA00000001", 2020, values[0]).ok()?;
    push_july(&mut text, "ZZA00000002", 2020, values[1]).ok()?;
    push_july(&mut text, "ZZA00000003", 2020, values[2]).ok()?;
    read(alloc, STATIONS, text.as_bytes())
}

/// The bounds of the lines of three morsels, and which of them are skips.
pub(crate) type Lines = [(i64, bool); 3];

/// The lines of an answer, if they are three.
pub(crate) fn lines_of(answer: &Answer) -> Option<Lines> {
    match answer.lines.as_slice() {
        [one, two, three] => Some([
            (one.bound, one.skipped),
            (two.bound, two.skipped),
            (three.bound, three.skipped),
        ]),
        _ => None,
    }
}

/// The answer of that many workers, which measured the plan too.
pub(crate) fn answer_of<R: Threads + Wait + Sync, G: Gate + Sync>(
    rt: &R,
    alloc: Global,
    data: &Data,
    query: &Query,
    workers: u64,
    guess: Option<i64>,
    gate: &G,
) -> Result<Answer, Memory>
    requires some { 0 < workers }
    requires few { workers ≤ 64 }
    requires guess { IfSome guess IsScore }
{
    let plan = survey(rt, alloc, data, query, workers, gate)?;
    crew(rt, alloc, &plan, workers, guess, gate)
}

/// The plan of the best usual value.
pub(crate) fn plan_of(alloc: Global, data: &Data) -> Option<Plan<'_>> {
    let query = Query::parse("top 1 highest TMAX").ok()?;
    Plan::new(alloc, data, &query).ok()
}
