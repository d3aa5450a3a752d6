//! A ranking by two workers, each of which is held until the other has come as far.

use super::*;
use rank_crew::Gate;
use std::sync::Wait;
use std::sync::atomic::{AtomicBool, AtomicU64, Ordering};
use std::test::Fail;
use std::thread::yield_now;

/// How often a worker that is held looks again. Each time it yields.
const TURNS: u32 = 1_000_000;

/// A gate of two workers over three morsels. Each is held until the other measures too, and until the
/// other has claimed too, and the worker that claims morsel 1 until morsel 2 is claimed.
#[derive(Drop)]
struct Meeting {
    measuring: [AtomicBool; 2],
    claiming: [AtomicBool; 2],
    last_claimed: [AtomicBool; 1],
    /// How many places were measured, and how many morsels were claimed.
    measured: AtomicU64,
    claimed: AtomicU64,
    /// Some worker was held, and the other didn't come as far.
    missed: AtomicBool,
}

impl Meeting {
    fn new() -> Meeting {
        Meeting {
            measuring: [AtomicBool::new(false), AtomicBool::new(false)],
            claiming: [AtomicBool::new(false), AtomicBool::new(false)],
            last_claimed: [AtomicBool::new(false)],
            measured: AtomicU64::new(0),
            claimed: AtomicU64::new(0),
            missed: AtomicBool::new(false),
        }
    }

    /// Holds the caller until all of these have come.
    fn wait_for(&self, flags: &[AtomicBool]) {
        for _ in 0..TURNS {
            if have_come(flags) {
                return;
            }
            yield_now();
        }
        self.missed.store(true, Ordering::SeqCst);
    }
}

fn have_come(flags: &[AtomicBool]) -> bool {
    for flag in flags {
        if !flag.load(Ordering::SeqCst) {
            return false;
        }
    }
    true
}

/// Notes that a worker has come.
fn come(flags: &[AtomicBool], worker: u64) {
    if let Some(flag) = flags.get(worker as usize) {
        flag.store(true, Ordering::SeqCst);
    }
}

impl Gate for Meeting {
    fn measuring<R: Wait>(&self, _rt: &R, worker: u64, _place: u64) {
        self.measured.fetch_add(1, Ordering::SeqCst);
        come(&self.measuring, worker);
        self.wait_for(&self.measuring);
    }

    fn claimed<R: Wait>(&self, _rt: &R, worker: u64, morsel: u64) {
        self.claimed.fetch_add(1, Ordering::SeqCst);
        come(&self.claiming, worker);
        if morsel == 2 {
            come(&self.last_claimed, 0);
        }
        self.wait_for(&self.claiming);
        if morsel == 1 {
            self.wait_for(&self.last_claimed);
        }
    }
}

const CERTIFICATE: &[u8] = b"extremes certificate 2
query top 1 highest TMAX
kth 311
scan ZZA00000001 311 1
skip ZZA00000002 300
skip ZZA00000003 250
end 3
";

#[test]
fn gated_ranking_by_two_workers(rt: HostRuntime) -> Result<(), Fail> {
    let mut daily = Vec::from_slice(rt.alloc(), DAILY)?;
    // BRAVO's value, in the second line.
    for (place, byte) in (291..296).zip(b"  300") {
        if let Some(slot) = daily.get_mut(place) {
            *slot = *byte;
        }
    }
    let gate = Meeting::new();
    let query = "top 1 highest TMAX";
    let Ok(papers) = rank(&rt, STATIONS, &[&daily], query, 2, None, &gate) else {
        return Err(Fail::from("no papers"));
    };
    assert!(rt;
        !gate.missed.load(Ordering::SeqCst),
        "each worker met the other"
    );
    assert_eq!(rt; gate.measured.load(Ordering::SeqCst), 3);
    assert_eq!(rt; gate.claimed.load(Ordering::SeqCst), 3);
    assert_eq!(rt; papers.report.as_slice(), BEST);
    assert_eq!(rt; papers.certificate.as_slice(), CERTIFICATE);
    Ok(())
}
