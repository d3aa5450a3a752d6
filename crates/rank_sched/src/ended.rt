//! The end of a run: the pools are merged, and the skips that aren't justified are undone.

ghost use Rattle.std.specs.Prelude.{◌≡◌, ◌<◌, length, IfOk, OnOk};
ghost use Rattle.ghcn_fields.specs.Counting.{HasEachBelow};
ghost use Rattle.rank_pool.specs.Pools.{last_score};
ghost use Rattle.rank_scores.specs.Order as order;
ghost use Rattle.rank_sched.specs.Answers.{best_of_plan, IsAnswer};
ghost use Rattle.rank_sched.specs.Exchanges.{morsels_of, pool_of};
ghost use Rattle.rank_sched.specs.Finish as ending;
ghost use Rattle.rank_sched.specs.Hauls.{all_records, AreSound};
ghost use Rattle.rank_sched.specs.TakingBack.{stays, was_skipped};
ghost use Rattle.rank_sched.specs.Task.{task_of};

use crate::{Answer, Haul, Line, Plan, Record};
use ghcn_fields::Memory;
use rank_pool::Pool;
use rank_scores::bound_is_below;
use std::alloc::Global;

/// The answer of a run whose workers have these hauls.
///
/// A skip stays if its bound is strictly below the k-th score of all that was scanned in the run
/// and of all skipped morsels before it. The others are undone.
pub fn finish(alloc: Global, plan: &Plan<'_>, hauls: Vec<Haul>) -> Result<Answer, Memory>
    requires { AreSound (task_of plan.now) hauls.items }
    ensures { IfOk result (IsAnswer plan.now (all_records hauls.items)) }
{
    let (records, mut pool) = join_hauls(alloc, plan, hauls)?;
    let skips = take_back(alloc, plan, records.as_slice(), &mut pool)?;
    let lines = lines_of(alloc, plan, skips.as_slice())?;
    let taken_back = count_back(records.as_slice(), skips.as_slice());
    Ok(Answer {
        best: pool.into_sorted(),
        lines,
        records,
        taken_back,
    })
}

/// All records, haul after haul, and the best of all that was scanned.
fn join_hauls(
    alloc: Global,
    plan: &Plan<'_>,
    hauls: Vec<Haul>,
) -> Result<(Vec<Record>, Pool), Memory>
    requires { AreSound (task_of plan.now) hauls.items }
    ensures records { IfOk result (λ r. r.0.items ≡ all_records hauls.items) }
    ensures pool { IfOk result (λ r. r.1 ≡ pool_of (task_of plan.now) (all_records hauls.items)) }
{
    let mut all = Vec::new(alloc);
    let mut best = Pool::new(alloc, plan.query().k())?;
    for haul in hauls {
        let Haul { mut records, pool } = haul;
        all.append(&mut records)?;
        best.merge(pool);
    }
    Ok((all, best))
}

/// Scans each morsel whose skip isn't justified, in the plan's order, and marks the other skips.
fn take_back(
    alloc: Global,
    plan: &Plan<'_>,
    records: &[Record],
    pool: &mut Pool,
) -> Result<Vec<bool>, Memory>
    requires once { HasEachBelow (length plan.now.morsels) (morsels_of records.now) }
    requires pool { pool.old ≡ pool_of (task_of plan.now) records.now }
    ensures skips { IfOk result (λ skips. ending.AreMarks
        (stays (task_of plan.now) records.now) (length plan.now.morsels) skips.items) }
    ensures best { OnOk result (pool.new.held ≡ best_of_plan plan.now) }
{
    let mut skips = skips_of(alloc, plan.len(), records)?;
    for morsel in 0..plan.len() {
        if skips[morsel as usize] && !is_justified(plan, pool, morsel) {
            plan.scan_morsel(morsel, pool);
            skips[morsel as usize] = false;
        }
    }
    Ok(skips)
}

/// Whether the bound of a morsel is strictly below the k-th score of a pool.
fn is_justified(plan: &Plan<'_>, pool: &Pool, morsel: u64) -> bool
    ensures { result ≡ order.bound_is_below (last_score pool.now) ((task_of plan.now).bound morsel) }
{
    bound_is_below(pool.kth(), plan.bound(morsel).unwrap_or(0))
}

/// A mark for each of that many morsels: whether a record skips it.
fn skips_of(alloc: Global, len: u64, records: &[Record]) -> Result<Vec<bool>, Memory>
    requires { ending.AreWithin len records.now }
    ensures { IfOk result (λ skips. ending.AreMarks (was_skipped records.now) len skips.items) }
{
    let mut skips = vec![in alloc; false; len as usize]?;
    for record in records {
        if record.skipped {
            skips[record.morsel as usize] = true;
        }
    }
    Ok(skips)
}

/// How many of the run's skips aren't marked.
fn count_back(records: &[Record], skips: &[bool]) -> u64
    requires { ending.AreWithin (length skips.now) records.now }
    ensures { result ≡ ending.unmarked skips.now records.now }
{
    let mut back = 0;
    for record in records {
        if record.skipped && !skips[record.morsel as usize] {
            back += 1;
        }
    }
    back
}

/// A line for each morsel, by increasing ID.
fn lines_of(alloc: Global, plan: &Plan<'_>, skips: &[bool]) -> Result<Vec<Line>, Memory>
    requires { length skips.now ≡ length plan.now.morsels }
    ensures { IfOk result (λ lines. lines.items ≡ ending.marked_lines skips.now plan.now.morsels) }
{
    let mut lines = Vec::new(alloc);
    for morsel in 0..plan.len() {
        lines.push(plan.line(morsel, skips[morsel as usize]))?;
    }
    lines.sort_unstable_by(|a, b| a.id.cmp(&b.id));
    Ok(lines)
}
