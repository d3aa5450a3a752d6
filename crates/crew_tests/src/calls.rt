//! How often workers call a gate.

ghost use Rattle.std.specs.Prelude.{◌<◌, ◌≤◌};

use crate::data::{answer_of, push_july, read};
use ghcn_series::Data;
use rank_crew::Gate;
use rank_query::Query;
use std::alloc::Global;
use std::fmt::Write;
use std::sync::Wait;
use std::sync::atomic::{AtomicU64, Ordering};
use std::thread::Threads;

/// The numbers that were noted, as bits, and those that were noted more than once. A number that has no bit is
/// noted as all numbers.
#[derive(Drop)]
struct Notes {
    noted: AtomicU64,
    again: AtomicU64,
}

impl Notes {
    fn new() -> Notes {
        Notes {
            noted: AtomicU64::new(0),
            again: AtomicU64::new(0),
        }
    }

    fn note(&self, number: u64) {
        let bit = if number < 64 { 1 << number } else { u64::MAX };
        let before = self.noted.fetch_or(bit, Ordering::SeqCst);
        self.again.fetch_or(before & bit, Ordering::SeqCst);
    }

    fn found(&self) -> (u64, u64) {
        (
            self.noted.load(Ordering::SeqCst),
            self.again.load(Ordering::SeqCst),
        )
    }
}

/// A gate that notes the places that are measured and the morsels that are claimed.
#[derive(Drop)]
struct Calls {
    measured: Notes,
    claimed: Notes,
}

impl Gate for Calls {
    fn measuring<R: Wait>(&self, _rt: &R, _worker: u64, place: u64) {
        self.measured.note(place);
    }

    fn claimed<R: Wait>(&self, _rt: &R, _worker: u64, morsel: u64) {
        self.claimed.note(morsel);
    }
}

/// The data of forty stations, each with a value.
fn data_of_forty(alloc: Global) -> Option<Data> {
    let mut list = String::new(alloc);
    let mut text = String::new(alloc);
    for number in 0..40 {
        let id = format!(in alloc; "ZZA000000{number:02}").ok()?;
        write!(list, "{id}  10.0000   20.0000\n").ok()?;
        push_july(&mut text, &id, 2020, &[250]).ok()?;
    }
    read(alloc, list.as_bytes(), text.as_bytes())
}

/// The places that some workers measure and the morsels that they claim, and those of both that they do again. No
/// morsel can be skipped before forty values are found.
fn calls_of<R: Threads + Wait + Sync>(
    rt: &R,
    alloc: Global,
    workers: u64,
) -> Option<[(u64, u64); 2]>
    requires some { 0 < workers }
    requires few { workers ≤ 64 }
{
    let gate = Calls {
        measured: Notes::new(),
        claimed: Notes::new(),
    };
    let data = data_of_forty(alloc)?;
    let query = Query::parse("top 40 highest TMAX").ok()?;
    answer_of(rt, alloc, &data, &query, workers, None, &gate).ok()?;
    Some([gate.measured.found(), gate.claimed.found()])
}

#[test]
fn gate_is_called_once_for_each_of_forty(rt: HostRuntime) {
    const ALL: (u64, u64) = ((1 << 40) - 1, 0);
    for workers in [1, 2, 4] {
        let found = calls_of(&rt, rt.alloc(), workers);
        assert_eq!(rt; found, Some([ALL, ALL]), "{workers} workers");
    }
}
