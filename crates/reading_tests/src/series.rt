//! Worked examples of daily files and the series that they hold.
//!
//! Data and readers live in helpers that return plain facts: a test that holds them takes long to prove.

mod blocks;
mod cutters;
mod elements;
mod faults;
mod joins;
mod months;
mod orders;
mod pieces;

use crate::lines::line_of;
use ghcn_fields::Memory;
use ghcn_files::{Element, StationId, Stations};
use ghcn_series::{DailyWhy, Data, DataFault, Series};
use std::alloc::Global;

const STATIONS: &[u8] = b"ZZA00000001  10.0000   20.0000  100.0    ALPHA
ZZA00000002  11.0000   21.0000  100.0    BRAVO
";

const A: StationId = StationId(*b"ZZA00000001");

const B: StationId = StationId(*b"ZZA00000002");

/// 2020-07-01.
const JULY: i32 = 18_444;

/// What the files say of the two stations.
fn read(alloc: Global, files: &[&[u8]]) -> Result<Data, DataFault> {
    match Stations::read(alloc, STATIONS) {
        Ok(stations) => Data::read(alloc, stations, files),
        Err(_) => Err(DataFault::Memory(Memory)),
    }
}

/// Whether these are the days of a series, with their values.
fn has_days(series: &Series, days: &[(i32, i32)]) -> bool {
    let mut at = 0;
    for (day, value) in series.days() {
        if days.get(at) != Some(&(day.number(), value)) || series.value(day) != Some(value) {
            return false;
        }
        at = at.saturating_add(1);
    }
    at == days.len()
}

/// Whether the data give a station and an element these days alone, and no series if there are none.
fn has_series(data: &Data, id: &StationId, element: Element, days: &[(i32, i32)]) -> bool {
    match data.series(id, element) {
        Some(series) => !days.is_empty() && has_days(series, days),
        None => days.is_empty(),
    }
}

/// The same of files.
fn gives(
    alloc: Global,
    files: &[&[u8]],
    id: &StationId,
    element: Element,
    days: &[(i32, i32)],
) -> Result<bool, DataFault> {
    Ok(has_series(&read(alloc, files)?, id, element, days))
}

/// How many lines of these files were skipped, or their error.
fn unlisted(alloc: Global, files: &[&[u8]]) -> Result<u64, DataFault> {
    Ok(read(alloc, files)?.unlisted())
}

/// The error of a line.
fn refused(file: u64, line: u64, why: DailyWhy) -> Result<u64, DataFault> {
    Err(DataFault::DailyLine { file, line, why })
}

#[test]
fn usable_values(rt: HostRuntime) {
    let cases: [(&[u8; 4], Element, &[u8; 8], &[(i32, i32)]); 12] = [
        (b"TMAX", Element::Tmax, b"  311   ", &[(JULY, 311)]),
        (b"TMAX", Element::Tmax, b"  311D W", &[(JULY, 311)]),
        (b"TMAX", Element::Tmax, b"  311 X ", &[]),
        (b"TMAX", Element::Tmax, b"-9999   ", &[]),
        (b"TMAX", Element::Tmax, b"        ", &[]),
        (b"TMAX", Element::Tmax, b"   -1   ", &[(JULY, -1)]),
        (b"TMIN", Element::Tmin, b"-9998   ", &[(JULY, -9998)]),
        (b"PRCP", Element::Prcp, b"   -1   ", &[]),
        (b"PRCP", Element::Prcp, b"    0   ", &[(JULY, 0)]),
        (b"SNOW", Element::Snow, b"   -1   ", &[]),
        (b"SNWD", Element::Snwd, b"   -1   ", &[]),
        (b"SNWD", Element::Snwd, b"  250   ", &[(JULY, 250)]),
    ];
    for (code, element, group, days) in cases {
        let mut head = *b"ZZA00000001202007....";
        head[17..].copy_from_slice(code);
        let line = line_of(&head, &[(1, group)]);
        let found = gives(rt.alloc(), &[&line], &A, element, days);
        assert_eq!(rt; found, Ok(true), "at {code:?} {group:?}");
    }
}

/// A series: its ID, its element, and the numbers of its first and its last usable day.
type Span = (StationId, Element, i32, i32);

/// What a series says of itself.
fn span_of(series: &Series) -> Span {
    let (first, last) = series.span();
    (series.id(), series.element(), first.number(), last.number())
}

/// The first station's series of highest temperatures, found by its place, and the numbers of
/// stations and of unlisted lines.
type Counts = (Span, u64, u64);

fn counts_of(data: &Data) -> Option<Counts> {
    let series = data.series_at(0, Element::Tmax)?;
    Some((span_of(series), data.stations().len(), data.unlisted()))
}

/// The same of files.
fn counts_in(alloc: Global, files: &[&[u8]]) -> Result<Option<Counts>, DataFault> {
    Ok(counts_of(&read(alloc, files)?))
}

#[test]
fn series_of_months_in_any_order(rt: HostRuntime) {
    let july = line_of(
        b"ZZA00000001202007TMAX",
        &[(1, b"  311   "), (31, b"  305   ")],
    );
    let other = line_of(b"ZZA00000002202007TMAX", &[(1, b"  250   ")]);
    let june = line_of(
        b"ZZA00000001202006TMAX",
        &[(30, b"  299   "), (31, b"  999   ")],
    );
    let files: [&[u8]; 3] = [&july, &other, &june];
    let series = (A, Element::Tmax, JULY - 1, JULY + 30);
    assert_eq!(rt; counts_in(rt.alloc(), &files), Ok(Some((series, 2, 0))));
    let cases: [(StationId, Element, &[(i32, i32)]); 3] = [
        (
            A,
            Element::Tmax,
            &[(JULY - 1, 299), (JULY, 311), (JULY + 30, 305)],
        ),
        (A, Element::Tmin, &[]),
        (B, Element::Tmax, &[(JULY, 250)]),
    ];
    for (id, element, days) in cases {
        let found = gives(rt.alloc(), &files, &id, element, days);
        assert_eq!(rt; found, Ok(true), "{id:?} {element:?}");
    }
}
