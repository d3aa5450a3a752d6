//! The plan of a query: its morsels with their bounds.

ghost use Rattle.std.specs.Prelude.{◌≡◌, ◌<◌, Some, length, map, fold, slice_get, IfOk};
ghost use Rattle.rank_pool.specs.Pools.{taken};
ghost use Rattle.std.specs.List.{filter_map};
ghost use Rattle.std.specs.Option.{option_map, option_copied, option_to_list};
ghost use Rattle.ghcn_series.specs.Held.{IsContents};
ghost use Rattle.rank_query.specs.Meaning.Asked.{IsAsked};
ghost use Rattle.rank_sched.specs.Plan as plan;
ghost use Rattle.rank_sched.specs.Task.{task_of, IsFair};

use crate::Line;
use crate::measured::measure;
use ghcn_fields::Memory;
use ghcn_files::{StationId, Stations};
use ghcn_series::{Data, Series};
use rank_pool::Pool;
use rank_query::{Query, Region};
use rank_scores::scan_to_floor;
use std::alloc::Global;
use std::cmp::Ordering;
use std::marker::Model;

/// A series of the query, and a number that no candidate's score exceeds.
#[derive(Clone, Copy)]
pub struct Morsel<'a> {
    pub(crate) series: &'a Series,
    pub(crate) bound: i64,
}

/// The morsels of a query, the greatest bound first, and then by increasing ID. They are numbered
/// from 0 in this order.
#[derive(Drop)]
pub struct Plan<'a> {
    data: &'a Data,
    query: Query,
    morsels: Vec<Morsel<'a>>,
}

impl<'a> Model for Plan<'a> {
    ghost use Rattle.std.specs.Prelude.{map};
    ghost use Rattle.rank_sched.specs.Plan.{Plan, IsPlan, planned_morsel};

    ghost Value = { Plan };

    ghost view = { λ p. record {
      query = p.query;
      stations = p.data.now.stations;
      morsels = map planned_morsel p.morsels.items;
    } };

    ghost invariant = { λ p. IsPlan (record {
      query = p.query;
      stations = p.data.now.stations;
      morsels = map planned_morsel p.morsels.items;
    }) };
}

impl<'a> Plan<'a> {
    /// The plan of a query over some data. If the query is about one station, only that one is looked
    /// up in the list.
    pub fn new(alloc: Global, dataset: &'a Data, query: &Query) -> Result<Self, Memory>
        ensures { IfOk result (λ made. made ≡ plan.planned query.now dataset.now) }
    {
        if let Region::Only(id) = query.region() {
            return Plan::of_station(alloc, dataset, query, &id);
        }
        let morsels = morsels_of(alloc, dataset, query)?;
        Ok(Plan::of_morsels(dataset, query, morsels))
    }

    /// The same plan, from the morsels that `measure` returns for the places in turn.
    pub fn of_morsels(dataset: &'a Data, query: &Query, morsels: Vec<Morsel<'a>>) -> Self
        requires { map plan.planned_morsel morsels.items
            ≡ plan.found_among (plan.measures query.now dataset.now) }
        ensures { result ≡ plan.planned query.now dataset.now }
    {
        // What is true of all queries and of all data.
        query.element();
        dataset.stations();
        Plan::in_turn(dataset, query, morsels)
    }

    /// The same plan, if the query is about the station with this ID.
    fn of_station(
        alloc: Global,
        dataset: &'a Data,
        query: &Query,
        id: &StationId,
    ) -> Result<Self, Memory>
        requires { query.now.region ≡ Region.Only id.now }
        ensures { IfOk result (λ made. made ≡ plan.planned query.now dataset.now) }
    {
        let mut morsels = Vec::new(alloc);
        if let Some(morsel) = morsel_of_station(alloc, dataset, query, id)? {
            morsels.push(morsel)?;
        }
        Ok(Plan::in_turn(dataset, query, morsels))
    }

    /// The same plan, from its morsels in the order of their stations.
    fn in_turn(dataset: &'a Data, query: &Query, mut morsels: Vec<Morsel<'a>>) -> Self
        requires asked { IsAsked query.now }
        requires contents { IsContents dataset.now }
        requires morsels { map plan.planned_morsel morsels.items
            ≡ filter_map (plan.measured_at query.now dataset.now) dataset.now.stations }
        ensures { result ≡ plan.planned query.now dataset.now }
    {
        morsels.sort_unstable_by(|a, b| drawn_cmp(a, b));
        Plan {
            data: dataset,
            query: *query,
            morsels,
        }
    }

    /// How many morsels there are.
    pub fn len(&self) -> u64
        ensures morsels { result ≡ length self.now.morsels }
        ensures planned { plan.IsPlan self.now }
        ensures fair { IsFair (task_of self.now) }
    {
        self.morsels.len() as u64
    }

    /// The ID of a morsel's station, or `None` past the last.
    pub fn id(&self, morsel: u64) -> Option<StationId>
        ensures { result ≡ option_map (λ m. m.series.id) (slice_get self.now.morsels morsel) }
    {
        let found = self.morsels.as_slice().get(morsel as usize)?;
        Some(found.series.id())
    }

    /// The bound of a morsel, in the raw unit of the score, or `None` past the last.
    pub fn bound(&self, morsel: u64) -> Option<i64>
        ensures { result ≡ option_map (λ m. m.bound) (slice_get self.now.morsels morsel) }
    {
        let found = self.morsels.as_slice().get(morsel as usize)?;
        Some(found.bound)
    }

    /// The series of a morsel, or `None` past the last.
    pub fn series(&self, morsel: u64) -> Option<&Series>
        ensures { option_copied result
            ≡ option_map (λ m. m.series) (slice_get self.now.morsels morsel) }
    {
        let found = self.morsels.as_slice().get(morsel as usize)?;
        Some(found.series)
    }

    /// Offers the candidates of a morsel; past the last there are none.
    pub(crate) fn scan_morsel(&self, morsel: u64, pool: &mut Pool)
        ensures { pool.new ≡ fold taken pool.old ((task_of self.now).candidates morsel) }
    {
        if let Some(series) = self.series(morsel) {
            scan_to_floor(series, &self.query, pool);
        }
    }

    /// The line of a morsel, by whether it was skipped.
    pub(crate) fn line(&self, morsel: u64, skipped: bool) -> Line
        requires { morsel < length self.now.morsels }
        ensures { option_map (λ m. record { id = m.series.id; bound = m.bound; skipped = skipped })
            (slice_get self.now.morsels morsel) ≡ Some result }
    {
        let found = self.morsels[morsel as usize];
        Line {
            id: found.series.id(),
            bound: found.bound,
            skipped,
        }
    }

    /// What is asked.
    pub fn query(&self) -> &Query
        ensures query { result.now ≡ self.now.query }
        ensures planned { plan.IsPlan self.now }
    {
        &self.query
    }

    /// The listed stations of the data.
    pub fn stations(&self) -> &Stations
        ensures { result.now ≡ self.now.stations }
    {
        self.data.stations()
    }
}

/// The morsels of all listed stations, in their order.
fn morsels_of<'a>(
    alloc: Global,
    dataset: &'a Data,
    query: &Query,
) -> Result<Vec<Morsel<'a>>, Memory>
    ensures { IfOk result (λ morsels. map plan.planned_morsel morsels.items
        ≡ plan.found_among (plan.measures query.now dataset.now)) }
{
    let mut morsels = Vec::new(alloc);
    for place in 0..dataset.stations().len() {
        if let Some(morsel) = measure(alloc, dataset, query, place)? {
            morsels.push(morsel)?;
        }
    }
    Ok(morsels)
}

/// The morsel of a query that is about the station with this ID, if there is one.
fn morsel_of_station<'a>(
    alloc: Global,
    dataset: &'a Data,
    query: &Query,
    id: &StationId,
) -> Result<Option<Morsel<'a>>, Memory>
    requires { query.now.region ≡ Region.Only id.now }
    ensures morsel { IfOk result (λ morsel. option_to_list (option_map plan.planned_morsel morsel)
        ≡ filter_map (plan.measured_at query.now dataset.now) dataset.now.stations) }
    ensures asked { IsAsked query.now }
    ensures contents { IsContents dataset.now }
{
    query.element();
    let Some(place) = dataset.stations().place(id) else {
        return Ok(None);
    };
    measure(alloc, dataset, query, place)
}

/// Which of two morsels is drawn first.
fn drawn_cmp(a: &Morsel<'_>, b: &Morsel<'_>) -> Ordering
    ensures { result ≡ plan.drawn_cmp (plan.planned_morsel a.now) (plan.planned_morsel b.now) }
{
    b.bound
        .cmp(&a.bound)
        .then(a.series.id().cmp(&b.series.id()))
}
