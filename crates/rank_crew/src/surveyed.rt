//! The plan of a query, whose bounds are measured in threads.

ghost use Rattle.std.specs.Prelude.{◌≡◌, ◌<◌, ◌≤◌, IfOk};
ghost use Rattle.rank_sched.specs.Plan.{planned};

use crate::Gate;
use crate::cut::weight_of;
use crate::places::{StationPlaces, measure_places};
use ghcn_fields::Memory;
use ghcn_series::Data;
use rank_query::{Query, Region};
use rank_sched::Plan;
use std::alloc::Global;
use std::sync::Wait;
use std::thread::Threads;

/// The plan of a query over some data, whose stations 1 to 64 workers measure in threads. For a query
/// about one station no thread is started.
///
/// If one worker finds no memory, the others run to their end.
pub fn survey<'d, R: Threads + Wait + Sync, G: Gate + Sync>(
    rt: &R,
    alloc: Global,
    dataset: &'d Data,
    query: &Query,
    workers: u64,
    gate: &G,
) -> Result<Plan<'d>, Memory>
    requires some { 0 < workers }
    requires few { workers ≤ 64 }
    ensures { IfOk result (λ plan. plan ≡ planned query.now dataset.now) }
{
    if let Region::Only(_) = query.region() {
        return Plan::new(alloc, dataset, query);
    }
    let places = StationPlaces {
        dataset,
        query,
        gate,
    };
    let all = dataset.stations().len();
    let weight = weight_of(&places, all);
    let morsels = measure_places(rt, alloc, &places, workers, all, weight)?;
    Ok(Plan::of_morsels(dataset, query, morsels))
}
