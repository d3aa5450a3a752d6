//! The result of one worker.

ghost use Rattle.std.specs.Prelude.{◌≡◌, ◌<◌, ◌≤◌, if◌then◌else◌, None, IfOk, OnOk, OnErr};
ghost use Rattle.rank_pool.specs.Pools.{last_score};
ghost use Rattle.rank_sched.specs.Run as run;
ghost use Rattle.rank_sched.specs.Task.{task_of};

use crate::{Plan, Record};
use ghcn_fields::Memory;
use rank_pool::Pool;
use std::alloc::Global;

/// One worker's records, in the order of their morsels, and the best of what it scanned.
#[derive(Drop)]
pub struct Haul {
    pub records: Vec<Record>,
    pub pool: Pool,
}

impl Haul {
    /// Nothing yet, with places for the k best, k from 1 to 1000.
    pub fn new(alloc: Global, k: u64) -> Result<Self, Memory>
        requires some { 0 < k }
        requires few { k ≤ 1000 }
        ensures { IfOk result (run.IsEmptyHaul k) }
    {
        let pool = Pool::new(alloc, k)?;
        Ok(Haul {
            records: Vec::new(alloc),
            pool,
        })
    }

    /// Writes a record, scans its morsel unless it was skipped, and returns the score to raise, if
    /// there is one. If memory runs out, nothing changes.
    pub fn settle(&mut self, plan: &Plan<'_>, written: Record) -> Result<Option<i64>, Memory>
        ensures settled { OnOk result (run.HasSettled (task_of plan.now) self.old written self.new) }
        ensures raised { IfOk result (λ raised.
            raised ≡ (if written.skipped then None else last_score self.new.pool)) }
        ensures err { OnErr result (run.IsSameHaul self.old self.new) }
    {
        // The allocation comes first, so that out of memory changes nothing.
        self.records.push(written)?;
        if written.skipped {
            return Ok(None);
        }
        plan.scan_morsel(written.morsel, &mut self.pool);
        Ok(self.pool.kth())
    }
}
