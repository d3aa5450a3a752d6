//! Places of listed stations, which some workers measure at once.

ghost use Rattle.std.specs.Prelude.{◌≡◌, ◌+◌, ◌<◌, ◌≤◌, IfOk, map};
ghost use denote.Param.Send.{IsSync};
ghost use Rattle.rank_sched.specs.Plan.{found_among};
ghost use Rattle.rank_crew.specs.Places as crew;

use crate::Gate;
use crate::both::both;
use crate::cut::{LastPart, cut};
use ghcn_fields::{Day, Memory};
use ghcn_series::Data;
use rank_query::Query;
use rank_sched::{Morsel, measure};
use rank_scores::series_at;
use std::alloc::Global;
use std::sync::Wait;
use std::thread::{Threads, join};

/// Places with a morsel or none each, which any number of workers may measure.
pub(crate) trait Places {
    ghost use Rattle.std.specs.Prelude.{◌≡◌, ◌<◌, List, Option, Some, IfOk, length, slice_get};
    ghost use Rattle.std.specs.Option.{option_map};
    ghost use Rattle.rank_sched.specs.Plan.{Morsel};

    /// A morsel with its bound.
    type Found: Drop;

    /// The morsels of all places.
    ghost morsels: { Self → List (Option Morsel) };

    /// Which morsel it is.
    ghost seen: { Self.Found → Morsel };

    /// The morsel of a place, with its bound.
    fn morsel<R: Wait>(
        &self,
        rt: &R,
        alloc: Global,
        worker: u64,
        place: u64,
    ) -> Result<Option<Self::Found>, Memory>
        requires { place < length (morsels self.now) }
        ensures { IfOk result (λ morsel. slice_get (morsels self.now) place ≡ Some (option_map seen morsel)) };

    /// How long a place takes to measure, beside other places. No bound depends on it.
    fn weight(&self, place: u64) -> u64;
}

/// The places of all listed stations.
#[derive(Drop)]
pub(crate) struct StationPlaces<'d, 'p, G> {
    pub(crate) dataset: &'d Data,
    pub(crate) query: &'p Query,
    pub(crate) gate: &'p G,
}

impl<'d, 'p, G: Gate> Places for StationPlaces<'d, 'p, G> {
    ghost use Rattle.rank_sched.specs.Plan.{measures, planned_morsel};

    type Found = Morsel<'d>;

    ghost morsels = { λ places. measures places.query.now places.dataset.now };

    ghost seen = { planned_morsel };

    fn morsel<R: Wait>(
        &self,
        rt: &R,
        alloc: Global,
        worker: u64,
        place: u64,
    ) -> Result<Option<Morsel<'d>>, Memory> {
        self.gate.measuring(rt, worker, place);
        measure(alloc, self.dataset, self.query, place)
    }

    /// One for the place, and one for each block of 32 days from the first day of its series to the
    /// last.
    fn weight(&self, place: u64) -> u64 {
        match series_at(self.dataset, self.query, place) {
            Some(series) => 2 + blocks_between(series.span()) as u64,
            None => 1,
        }
    }
}

/// How many blocks lie between two days, with that of one of them.
fn blocks_between((first, last): (Day, Day)) -> u32 {
    last.block().abs_diff(first.block())
}

/// The morsels of the places before one, which have this weight, by that many workers. The last worker
/// has a thread, and its share of the weight; the caller starts the others in the same way, and is the
/// first. If a thread can't be started, the caller measures its places too.
pub(crate) fn measure_places<R: Threads + Wait + Sync, P: Places<Found: Send> + Sync>(
    rt: &R,
    alloc: Global,
    places: &P,
    workers: u64,
    to: u64,
    weight: u64,
) -> Result<Vec<P::Found>, Memory>
    requires some { 0 < workers }
    requires within { crew.IsPart 0 to (P.morsels places.now) }
    ensures { IfOk result (λ found. map P.seen found.items
        ≡ found_among (crew.elements_between 0 to (P.morsels places.now))) }
{
    let last = workers - 1;
    if last == 0 {
        return measure_alone(rt, alloc, places, 0, 0, to);
    }
    let LastPart {
        from,
        weight: share,
    } = cut(places, to, weight / workers);
    let rest = weight.saturating_sub(share);
    let (second, first) = join(
        rt,
        move ||
            requires { IsSync R.row × IsSync P.row × crew.IsPart from to (P.morsels places.now) }
            ensures { IfOk result (λ found. map P.seen found.items
                ≡ found_among (crew.elements_between from to (P.morsels places.entry.now))) }
        { measure_alone(rt, alloc, places, last, from, to) },
        move ||
            requires { IsSync R.row × IsSync P.row × (0 < last) × crew.IsPart 0 from (P.morsels places.now) }
            ensures { IfOk result (λ found. map P.seen found.items
                ≡ found_among (crew.elements_between 0 from (P.morsels places.entry.now))) }
        { measure_places(rt, alloc, places, last, from, rest) },
    );
    both(first, second)
}

/// The morsels of the places from one up to another, one after the other.
fn measure_alone<R: Wait, P: Places>(
    rt: &R,
    alloc: Global,
    places: &P,
    worker: u64,
    from: u64,
    to: u64,
) -> Result<Vec<P::Found>, Memory>
    requires { crew.IsPart from to (P.morsels places.now) }
    ensures { IfOk result (λ found. map P.seen found.items
        ≡ found_among (crew.elements_between from to (P.morsels places.now))) }
{
    let mut found = Vec::new(alloc);
    for place in from..to {
        if let Some(morsel) = places.morsel(rt, alloc, worker, place)? {
            found.push(morsel)?;
        }
    }
    Ok(found)
}
