//! Which workers measure which stations.

use crate::data::{push_july, read};
use ghcn_series::Data;
use rank_crew::{Gate, survey};
use rank_query::Query;
use std::alloc::{AllocError, Global};
use std::fmt::Write;
use std::sync::Wait;
use std::sync::atomic::{AtomicU64, Ordering};
use std::thread::Threads;

/// The number that means no worker, if there is no place.
const NOBODY: u64 = 64;

/// A gate that notes which worker measures each of up to four places.
#[derive(Drop)]
struct Measurers([AtomicU64; 4]);

impl Gate for Measurers {
    fn measuring<R: Wait>(&self, _rt: &R, worker: u64, place: u64) {
        if let Some(measurer) = self.0.get(place as usize) {
            measurer.store(worker, Ordering::SeqCst);
        }
    }

    fn claimed<R: Wait>(&self, _rt: &R, _worker: u64, _morsel: u64) {}
}

/// Writes a station's July of 2020, and that of an earlier year if one is named.
fn push_since(text: &mut String, id: &str, year: Option<u16>) -> Result<(), AllocError> {
    if let Some(year) = year {
        push_july(text, id, year, &[250])?;
    }
    push_july(text, id, 2020, &[250])
}

const IDS: [&str; 4] = ["ZZA00000001", "ZZA00000002", "ZZA00000003", "ZZA00000004"];

/// The data of as many stations as there are earlier years, up to four. The first lies at 10 degrees
/// of latitude, and each further one a degree farther north.
fn data_since(alloc: Global, years: &[Option<u16>]) -> Option<Data> {
    let mut list = String::new(alloc);
    let mut text = String::new(alloc);
    for ((number, id), year) in IDS.iter().enumerate().zip(years) {
        write!(list, "{id}  1{number}.0000   20.0000\n").ok()?;
        push_since(&mut text, id, *year).ok()?;
    }
    read(alloc, list.as_bytes(), text.as_bytes())
}

/// How many workers there are.
#[derive(Clone, Copy)]
enum Workers {
    Two,
    Three,
    Four,
}

/// Which workers measure the stations. There are two to four workers.
fn measurers_of<R: Threads + Wait + Sync>(
    rt: &R,
    alloc: Global,
    text: &str,
    years: &[Option<u16>],
    workers: Workers,
) -> Option<[u64; 4]> {
    let gate = Measurers([
        AtomicU64::new(NOBODY),
        AtomicU64::new(NOBODY),
        AtomicU64::new(NOBODY),
        AtomicU64::new(NOBODY),
    ]);
    let data = data_since(alloc, years)?;
    let query = Query::parse(text).ok()?;
    let workers = match workers {
        Workers::Two => 2,
        Workers::Three => 3,
        Workers::Four => 4,
    };
    survey(rt, alloc, &data, &query, workers, &gate).ok()?;
    Some([
        gate.0[0].load(Ordering::SeqCst),
        gate.0[1].load(Ordering::SeqCst),
        gate.0[2].load(Ordering::SeqCst),
        gate.0[3].load(Ordering::SeqCst),
    ])
}

/// The earlier years of some stations, how many workers measure the stations, and which of them each.
type Cut = (&'static [Option<u16>], Workers, [u64; 4]);

#[test]
fn stations_are_cut_by_their_blocks(rt: HostRuntime) {
    const ROWS: [Cut; 7] = [
        (&[None, None, None], Workers::Two, [0, 0, 1, NOBODY]),
        (&[Some(1990), None, None], Workers::Two, [0, 1, 1, NOBODY]),
        (&[None, None, Some(1990)], Workers::Two, [0, 0, 1, NOBODY]),
        (
            &[Some(2000), Some(2000), Some(1980)],
            Workers::Two,
            [0, 0, 1, NOBODY],
        ),
        (
            &[Some(2000), Some(2000), Some(2000)],
            Workers::Three,
            [0, 1, 2, NOBODY],
        ),
        (
            &[Some(2000), Some(2000), Some(2000), Some(2000)],
            Workers::Two,
            [0, 0, 1, 1],
        ),
        (
            &[Some(2000), Some(2000), Some(2000), Some(2000)],
            Workers::Four,
            [0, 1, 2, 3],
        ),
    ];
    for (years, workers, expected) in ROWS {
        let found = measurers_of(&rt, rt.alloc(), "top 1 highest TMAX", years, workers);
        assert_eq!(rt; found, Some(expected), "{years:?}");
    }
    let years = [Some(1990), None, None];
    let text = "top 1 highest TMAX box 10.5 0 90 90";
    let found = measurers_of(&rt, rt.alloc(), text, &years, Workers::Two);
    assert_eq!(rt; found, Some([0, 0, 1, NOBODY]), "{text}");
}
