//! Runs of two and three workers that are held at a gate until the others have come as far.

use crate::data::{FALLING, Lines, USUAL, answer_of, data_of, lines_of};
use rank_crew::Gate;
use rank_query::Query;
use rank_sched::Answer;
use std::alloc::Global;
use std::sync::Wait;
use std::sync::atomic::{AtomicBool, AtomicU64, Ordering};
use std::thread::{Threads, yield_now};

/// How often a worker that is held looks again. Each time it yields.
const TURNS: u32 = 1_000_000;

/// A gate of two workers over three morsels. The first worker to measure is held until the other
/// measures too, the first to claim until the other has claimed, and the worker that claims morsel
/// 1 until morsel 2 is claimed.
#[derive(Drop)]
struct Meeting {
    measuring: [AtomicBool; 2],
    claiming: [AtomicBool; 2],
    /// Of each morsel, how often it was claimed, and the last worker that claimed it.
    claims: [(AtomicU64, AtomicU64); 3],
    /// Some worker was held, and the others didn't come as far.
    missed: AtomicBool,
}

impl Meeting {
    fn new() -> Meeting {
        Meeting {
            measuring: [AtomicBool::new(false), AtomicBool::new(false)],
            claiming: [AtomicBool::new(false), AtomicBool::new(false)],
            claims: [
                (AtomicU64::new(0), AtomicU64::new(0)),
                (AtomicU64::new(0), AtomicU64::new(0)),
                (AtomicU64::new(0), AtomicU64::new(0)),
            ],
            missed: AtomicBool::new(false),
        }
    }

    /// Notes that a worker has come here, and holds it until both have.
    fn meet(&self, here: &[AtomicBool; 2], worker: u64) {
        if let Some(flag) = here.get(worker as usize) {
            flag.store(true, Ordering::SeqCst);
        }
        for _ in 0..TURNS {
            if here[0].load(Ordering::SeqCst) && here[1].load(Ordering::SeqCst) {
                return;
            }
            yield_now();
        }
        self.missed.store(true, Ordering::SeqCst);
    }

    /// Holds the caller until morsel 2 is claimed.
    fn wait_for_last(&self) {
        for _ in 0..TURNS {
            if self.claims[2].0.load(Ordering::SeqCst) > 0 {
                return;
            }
            yield_now();
        }
        self.missed.store(true, Ordering::SeqCst);
    }
}

impl Gate for Meeting {
    fn measuring<R: Wait>(&self, _rt: &R, worker: u64, _place: u64) {
        self.meet(&self.measuring, worker);
    }

    fn claimed<R: Wait>(&self, _rt: &R, worker: u64, morsel: u64) {
        if let Some((times, last)) = self.claims.get(morsel as usize) {
            last.store(worker, Ordering::SeqCst);
            times.fetch_add(1, Ordering::SeqCst);
        }
        self.meet(&self.claiming, worker);
        if morsel == 1 {
            self.wait_for_last();
        }
    }
}

/// Whether each record belongs to a morsel that was claimed once, by the record's worker, and the
/// best score was seen at each but the first.
fn has_claims_of(gate: &Meeting, answer: &Answer) -> bool {
    for record in &answer.records {
        let Some((times, last)) = gate.claims.get(record.morsel as usize) else {
            return false;
        };
        let seen = if record.morsel == 0 { None } else { Some(311) };
        if times.load(Ordering::SeqCst) != 1
            || last.load(Ordering::SeqCst) != record.worker
            || record.seen != seen
        {
            return false;
        }
    }
    answer.records.len() == 3
}

/// The lines of two workers' answer, and whether its records are those of the claims at the gate.
fn gated_run<R: Threads + Wait + Sync>(
    rt: &R,
    alloc: Global,
    gate: &Meeting,
) -> Option<(Lines, bool)> {
    let data = data_of(alloc, &FALLING)?;
    let query = Query::parse("top 1 highest TMAX").ok()?;
    let answer = answer_of(rt, alloc, &data, &query, 2, None, gate).ok()?;
    Some((lines_of(&answer)?, has_claims_of(gate, &answer)))
}

#[test]
fn gated_run_of_two_workers(rt: HostRuntime) {
    let gate = Meeting::new();
    let lines = [(311, false), (300, true), (250, true)];
    assert_eq!(rt; gated_run(&rt, rt.alloc(), &gate), Some((lines, true)));
    assert!(rt;
        !gate.missed.load(Ordering::SeqCst),
        "each worker met the other"
    );
}

/// A gate of three workers, each of which is held until all have claimed.
#[derive(Drop)]
struct Three {
    claiming: [AtomicBool; 3],
    /// Some worker was held, and the others didn't come as far.
    missed: AtomicBool,
}

impl Three {
    fn have_claimed(&self) -> bool {
        self.claiming[0].load(Ordering::SeqCst)
            && self.claiming[1].load(Ordering::SeqCst)
            && self.claiming[2].load(Ordering::SeqCst)
    }
}

impl Gate for Three {
    fn measuring<R: Wait>(&self, _rt: &R, _worker: u64, _place: u64) {}

    fn claimed<R: Wait>(&self, _rt: &R, worker: u64, _morsel: u64) {
        if let Some(flag) = self.claiming.get(worker as usize) {
            flag.store(true, Ordering::SeqCst);
        }
        for _ in 0..TURNS {
            if self.have_claimed() {
                return;
            }
            yield_now();
        }
        self.missed.store(true, Ordering::SeqCst);
    }
}

/// How many records three workers leave over the usual values.
fn records_of_three<R: Threads + Wait + Sync>(
    rt: &R,
    alloc: Global,
    gate: &Three,
) -> Option<usize> {
    let data = data_of(alloc, &USUAL)?;
    let query = Query::parse("top 1 highest TMAX").ok()?;
    let answer = answer_of(rt, alloc, &data, &query, 3, None, gate).ok()?;
    Some(answer.records.len())
}

#[test]
fn three_workers_at_once(rt: HostRuntime) {
    let gate = Three {
        claiming: [
            AtomicBool::new(false),
            AtomicBool::new(false),
            AtomicBool::new(false),
        ],
        missed: AtomicBool::new(false),
    };
    assert_eq!(rt; records_of_three(&rt, rt.alloc(), &gate), Some(3));
    assert!(rt;
        !gate.missed.load(Ordering::SeqCst),
        "each worker met the others"
    );
}

/// A gate that holds the worker that claims morsel 0 until morsel 2 is claimed.
#[derive(Drop)]
struct FirstLast {
    last_claimed: AtomicBool,
    /// The worker was held, and the other didn't come as far.
    missed: AtomicBool,
}

impl Gate for FirstLast {
    fn measuring<R: Wait>(&self, _rt: &R, _worker: u64, _place: u64) {}

    fn claimed<R: Wait>(&self, _rt: &R, _worker: u64, morsel: u64) {
        if morsel == 2 {
            self.last_claimed.store(true, Ordering::SeqCst);
        }
        if morsel != 0 {
            return;
        }
        for _ in 0..TURNS {
            if self.last_claimed.load(Ordering::SeqCst) {
                return;
            }
            yield_now();
        }
        self.missed.store(true, Ordering::SeqCst);
    }
}

/// The floor that the record of a morsel saw, if there is such a record.
fn seen_at(answer: &Answer, morsel: u64) -> Option<Option<i64>> {
    for record in &answer.records {
        if record.morsel == morsel {
            return Some(record.seen);
        }
    }
    None
}

/// The lines of two workers' answer, and what the records of the first two morsels saw.
fn first_last_run<R: Threads + Wait + Sync>(
    rt: &R,
    alloc: Global,
    gate: &FirstLast,
) -> Option<(Lines, [Option<i64>; 2])> {
    let data = data_of(alloc, &FALLING)?;
    let query = Query::parse("top 1 highest TMAX").ok()?;
    let answer = answer_of(rt, alloc, &data, &query, 2, None, gate).ok()?;
    let seen = [seen_at(&answer, 0)?, seen_at(&answer, 1)?];
    Some((lines_of(&answer)?, seen))
}

#[test]
fn first_morsel_is_looked_at_last(rt: HostRuntime) {
    let gate = FirstLast {
        last_claimed: AtomicBool::new(false),
        missed: AtomicBool::new(false),
    };
    let lines = [(311, false), (300, false), (250, true)];
    let found = first_last_run(&rt, rt.alloc(), &gate);
    assert_eq!(rt; found, Some((lines, [Some(300), None])));
    assert!(rt;
        !gate.missed.load(Ordering::SeqCst),
        "the other worker went on"
    );
}
