//! The morsels of a query with their bounds, station by station.

ghost use Rattle.std.specs.Prelude.{◌≡◌, ◌<◌, Some, length, slice_get, IfOk};
ghost use Rattle.std.specs.Option.{option_map};
ghost use Rattle.rank_scores.specs.Morsels.{IsAskedOf};
ghost use Rattle.rank_blocks.specs.Bounds.{bound};
ghost use Rattle.rank_sched.specs.Plan as plan;

use crate::plan::Morsel;
use ghcn_fields::Memory;
use ghcn_series::{Data, Series};
use rank_blocks::Blocks;
use rank_query::Query;
use rank_scores::morsel_at;
use std::alloc::Global;

/// The morsel of the station at a place in the list, from 0, with its bound in the raw unit of the
/// score, or `None` if the station has none.
#[tactic(auto, using(crate::proofs::Measures::measured_there))]
pub fn measure<'a>(
    alloc: Global,
    dataset: &'a Data,
    query: &Query,
    place: u64,
) -> Result<Option<Morsel<'a>>, Memory>
    requires { place < length dataset.now.stations }
    ensures { IfOk result (λ morsel. slice_get (plan.measures query.now dataset.now) place
        ≡ Some (option_map plan.planned_morsel morsel)) }
{
    match morsel_at(dataset, query, place) {
        Some(series) => {
            let bound = bound_of(alloc, series, query)?;
            Ok(Some(Morsel { series, bound }))
        }
        None => Ok(None),
    }
}

/// The bound of a series that the query asks about.
fn bound_of(alloc: Global, series: &Series, query: &Query) -> Result<i64, Memory>
    requires { IsAskedOf query.now series.now }
    ensures { IfOk result (λ found. found ≡ bound query.now series.now) }
{
    let blocks = Blocks::build(alloc, series, query)?;
    Ok(blocks.bound(query))
}
