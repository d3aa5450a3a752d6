//! What the lines say of all listed stations. A reader of a part of the files has lines of few of them.

ghost use Rattle.std.specs.Prelude.{◌≡◌, ◌<◌, ◌==◌, [], map, not, length, get_or, set, slice_get, IfOk, OnOk, IfSome};
ghost use Rattle.std.specs.Bool.{OnTrue, OnFalse};
ghost use Rattle.std.specs.List.{AllByRecursion};
ghost use Rattle.ghcn_files.specs.Elements.{is_kept};
ghost use Rattle.ghcn_files.specs.Listed.{AreListed};
ghost use Rattle.ghcn_series.specs.Gathered.{IsReady, station_series, series_by_place};
ghost use Rattle.ghcn_series.specs.Steps.{GatherSome, AddsAt, TurnsTo, KeepStations, IsForMonth, ForMonth};
ghost use Rattle.ghcn_series.specs.Steps.{JoinStations, OneHasBoth};

use crate::Series;
use crate::by_place::SeriesByPlace;
use crate::parts::Parts;
use crate::station::StationGathering;
use ghcn_fields::Memory;
use ghcn_files::{Keep, MonthRow, Stations};
use std::alloc::Global;
use std::marker::Model;

/// What was read of each listed station. A station without a month takes the memory of a number.
#[derive(Drop)]
pub(crate) struct Gatherings {
    /// Of each listed station, in their order, its number among those that are held, from 1, or 0 if it isn't held.
    numbers: Vec<u32>,
    /// The stations that have a month, in the order in which they came.
    held: Vec<StationGathering>,
    /// The place in the list of the station of the line before, since the lines of a station mostly come together;
    /// the number of stations, if there is none.
    last: usize,
    /// The place of that station among those that are held, from 0.
    at: usize,
    /// Memory without days, in which the days of the next station grow.
    spare: Vec<Parts>,
}

impl Model for Gatherings {
    ghost use Rattle.ghcn_series.specs.ByPlace.{GatheredByPlace, AreGatherings, by_place};

    ghost Value = { GatheredByPlace };

    ghost view = { λ g. record { stations = by_place g.held.items g.numbers.items; last = g.last } };

    ghost invariant = { λ g. AreGatherings g.numbers.items g.held.items g.last g.at g.spare.items };
}

impl Gatherings {
    /// Nothing of these stations yet.
    pub(crate) fn new(alloc: Global, stations: &Stations) -> Result<Self, Memory>
        ensures nothing { IfOk result (λ gathered. gathered.stations ≡ map (λ s. []) stations.now) }
        ensures listed { AreListed stations.now }
    {
        let number = stations.len() as usize;
        Ok(Gatherings {
            numbers: vec![in alloc; 0; number]?,
            held: Vec::new(alloc),
            last: number,
            at: 0,
            spare: Vec::new(alloc),
        })
    }

    /// The place of the station of the line before.
    #[inline(always)]
    pub(crate) fn last(&self) -> usize
        ensures { result ≡ self.now.last }
    {
        self.last
    }

    /// Adds a month of the station at a place in the list, or returns false if that month was added before.
    #[inline(always)]
    pub(crate) fn add(
        &mut self,
        alloc: Global,
        place: usize,
        row: &MonthRow,
        asked: Keep,
    ) -> Result<bool, Memory>
        requires within { place < length self.old.stations }
        requires right { IsForMonth (is_kept asked row.now.element) row.now }
        requires gathered { GatherSome asked row.now.id (get_or self.old.stations place []) }
        ensures { IfOk result (λ added. ForMonth (is_kept asked row.now.element) row.now
            (λ m. AddsAt asked place self.old.stations self.new.stations m added)) }
    {
        self.turn_to(alloc, place)?;
        self.held[self.at].add(alloc, row, asked)
    }

    /// Notes whose lines come now.
    #[inline(always)]
    fn turn_to(&mut self, alloc: Global, place: usize) -> Result<(), Memory>
        requires { place < length self.old.stations }
        ensures last { OnOk result (self.new.last ≡ place) }
        ensures turns { OnOk result (TurnsTo place self.old.stations self.new.stations) }
    {
        let is_here = place == self.last;
        if is_here {
            return Ok(());
        }
        self.turn_to_another(alloc, place)
    }

    /// The same. Few lines belong to a station other than that of the line before, so it isn't built into its caller.
    #[inline(never)]
    fn turn_to_another(&mut self, alloc: Global, place: usize) -> Result<(), Memory>
        requires { place < length self.old.stations }
        ensures last { OnOk result (self.new.last ≡ place) }
        ensures turns { OnOk result (TurnsTo place self.old.stations self.new.stations) }
    {
        self.settle(alloc)?;
        self.open(alloc, place)?;
        self.go_to(place);
        Ok(())
    }

    /// Leaves the days of the station of the line before in memory of exactly their size.
    fn settle(&mut self, alloc: Global) -> Result<(), Memory>
        ensures { OnOk result (KeepStations self.old.stations self.new.stations) }
    {
        match self.held.get_mut(self.at) {
            Some(station) => station.shrink_to_fit(alloc, &mut self.spare),
            None => Ok(()),
        }
    }

    /// Makes the gatherings of the station at a place if there are none yet.
    fn open(&mut self, alloc: Global, place: usize) -> Result<(), Memory>
        requires { place < length self.old.stations }
        ensures number { OnOk result (length (get_or self.new.stations place []) ≡ 5) }
        ensures opens { OnOk result (TurnsTo place self.old.stations self.new.stations) }
    {
        if self.holds(place) {
            return Ok(());
        }
        let station = StationGathering::new(alloc, place as u32, &mut self.spare)?;
        self.hold(station)
    }

    /// Notes that the lines of a station that is held come now.
    fn go_to(&mut self, place: usize)
        requires { length (get_or self.old.stations place []) ≡ 5 }
        ensures last { self.new.last ≡ place }
        ensures same { self.new.stations ≡ self.old.stations }
    {
        self.at = self.numbers[place] as usize - 1;
        self.last = place;
    }

    /// Whether the station at a place is held.
    fn holds(&self, place: usize) -> bool
        requires { place < length self.now.stations }
        ensures { result ≡ not (length (get_or self.now.stations place []) == 0) }
    {
        self.numbers[place] != 0
    }

    /// Holds a station that isn't held yet.
    fn hold(&mut self, station: StationGathering) -> Result<(), Memory>
        requires within { station.place < length self.old.stations }
        requires none { get_or self.old.stations station.place [] ≡ [] }
        requires number { length station.by_element.items ≡ 5 }
        ensures { OnOk result (self.new.stations
            ≡ set self.old.stations station.place station.by_element.items) }
    {
        let place = station.place();
        self.held.push(station)?;
        self.numbers[place] = self.held.len() as u32;
        Ok(())
    }

    /// Takes over the months of other gatherings of the same stations, or returns false if a station has months in both.
    pub(crate) fn join(&mut self, next: Self) -> Result<bool, Memory>
        requires { length next.stations ≡ length self.old.stations }
        ensures joined { IfOk result (λ joined. OnTrue joined
            (JoinStations self.old.stations next.stations self.new.stations)) }
        ensures apart { IfOk result (λ joined. OnFalse joined (OneHasBoth self.old.stations next.stations)) }
    {
        let Gatherings { held, .. } = next;
        for station in held {
            if self.holds(station.place()) {
                return Ok(false);
            }
            self.hold(station)?;
        }
        Ok(true)
    }

    /// The series of each of these stations, by element.
    pub(crate) fn into_series(
        self,
        alloc: Global,
        stations: &Stations,
    ) -> Result<SeriesByPlace, Memory>
        requires number { length self.stations ≡ length stations.now }
        requires ready { AllByRecursion (λ gs. AllByRecursion IsReady gs) self.stations }
        ensures { IfOk result (λ series. series ≡ series_by_place stations.now self.stations) }
    {
        let Gatherings { numbers, held, .. } = self;
        let mut lists = Vec::with_capacity(alloc, held.len())?;
        for gathered in held {
            lists.push(series_of(alloc, stations, gathered)?)?;
        }
        Ok(SeriesByPlace::of(numbers, lists))
    }
}

/// The series of a station of the list, by element.
fn series_of(
    alloc: Global,
    stations: &Stations,
    gathered: StationGathering,
) -> Result<Vec<Series>, Memory>
    requires listed { gathered.place < length stations.now }
    requires ready { AllByRecursion IsReady gathered.by_element.items }
    ensures { IfOk result (λ series. IfSome (slice_get stations.now gathered.place)
        (λ s. series.items ≡ station_series s.id gathered.by_element.items)) }
{
    match stations.at(gathered.place() as u64) {
        Some(station) => gathered.into_series(alloc, station.id),
        None => unreachable!(),
    }
}
