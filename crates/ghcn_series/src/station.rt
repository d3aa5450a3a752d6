//! What the lines of one station say, by element.

ghost use Rattle.std.specs.Prelude.{◌≡◌, length, map, IfOk, OnOk};
ghost use Rattle.std.specs.List.{AllByRecursion};
ghost use Rattle.ghcn_files.specs.Meaning.Elements.{elements};
ghost use Rattle.ghcn_files.specs.Elements.{element_index, is_kept};
ghost use Rattle.ghcn_series.specs.Gathered as gathered;
ghost use Rattle.ghcn_series.specs.Parts.{AreEmpty};
ghost use Rattle.ghcn_series.specs.Steps.{GathersNothing, FiveGatherSome, FiveGather, IsForMonth, ForMonth};
ghost use Rattle.ghcn_series.specs.Steps.{FiveOfNothing, KeepsStation};

use crate::Series;
use crate::gathering::Gathering;
use crate::parts::Parts;
use ghcn_fields::Memory;
use ghcn_files::{Element, Keep, MonthRow, StationId};
use std::alloc::Global;

/// The elements in the order in which a station's series are kept.
const ELEMENTS: [Element; 5] = [
    Element::Prcp,
    Element::Snow,
    Element::Snwd,
    Element::Tmax,
    Element::Tmin,
];

/// The months of one station that were read: five gatherings in the order of the elements.
#[derive(Drop)]
pub(crate) struct StationGathering {
    /// The station's place in the list, from 0.
    place: u32,
    /// Whether its days are in memory of their own, since lines of another station came after.
    is_fitted: bool,
    by_element: Vec<Gathering>,
}

impl StationGathering {
    /// Nothing of a station yet. Its days will grow in spare memory if there is some.
    pub(crate) fn new(alloc: Global, place: u32, spare: &mut Vec<Parts>) -> Result<Self, Memory>
        requires { AllByRecursion AreEmpty spare.old.items }
        ensures place { IfOk result (λ station. station.place ≡ place) }
        ensures number { IfOk result (λ station. length station.by_element.items ≡ 5) }
        ensures nothing { IfOk result (λ station. FiveOfNothing station.by_element.items) }
        ensures spare { AllByRecursion AreEmpty spare.new.items }
    {
        Ok(StationGathering {
            place,
            is_fitted: false,
            by_element: nothing_by_element(alloc, spare)?,
        })
    }

    /// The station's place in the list, from 0.
    pub(crate) fn place(&self) -> usize
        ensures { result ≡ self.now.place }
    {
        self.place as usize
    }

    /// Adds a month of the station, or returns false if that month was added before.
    #[inline(always)]
    pub(crate) fn add(&mut self, alloc: Global, row: &MonthRow, asked: Keep) -> Result<bool, Memory>
        requires right { IsForMonth (is_kept asked row.now.element) row.now }
        requires gathered { FiveGatherSome asked row.now.id self.old.by_element.items }
        ensures place { self.new.place ≡ self.old.place }
        ensures number { length self.new.by_element.items ≡ length self.old.by_element.items }
        ensures added { IfOk result (λ added. ForMonth (is_kept asked row.now.element) row.now
            (λ m. FiveGather asked self.old.by_element.items self.new.by_element.items m added)) }
    {
        let gathering = &mut self.by_element[place_of(row.element)];
        if row.element.is_kept(asked) {
            gathering.add(alloc, row)
        } else {
            gathering.note(alloc, row)
        }
    }

    /// Moves what was read to memory of exactly its size, the first time that it is called: the memory in which it
    /// grew is spare for another station.
    pub(crate) fn shrink_to_fit(
        &mut self,
        alloc: Global,
        spare: &mut Vec<Parts>,
    ) -> Result<(), Memory>
        requires spare { AllByRecursion AreEmpty spare.old.items }
        ensures place { self.new.place ≡ self.old.place }
        ensures number { length self.new.by_element.items ≡ length self.old.by_element.items }
        ensures same { OnOk result (KeepsStation self.old.by_element.items self.new.by_element.items) }
        ensures spare { AllByRecursion AreEmpty spare.new.items }
    {
        if self.is_fitted {
            return Ok(());
        }
        self.is_fitted = true;
        for place in 0..self.by_element.len() {
            spare.push(self.by_element[place].shrink_to_fit(alloc)?)?;
        }
        Ok(())
    }

    /// The series of the station that have a usable day, by element.
    pub(crate) fn into_series(self, alloc: Global, id: StationId) -> Result<Vec<Series>, Memory>
        requires { AllByRecursion gathered.IsReady self.by_element.items }
        ensures { IfOk result (λ series. series.items ≡ gathered.station_series id self.by_element.items) }
    {
        let StationGathering { by_element, .. } = self;
        let mut series = Vec::new(alloc);
        for gathering in by_element {
            if gathering.is_empty() {
                continue;
            }
            let element = gathering.element();
            let days = gathering.into_columns(alloc)?;
            series.push(Series::of(id, element, days))?;
        }
        Ok(series)
    }
}

/// Five gatherings of nothing, in the order of the elements.
fn nothing_by_element(alloc: Global, spare: &mut Vec<Parts>) -> Result<Vec<Gathering>, Memory>
    requires { AllByRecursion AreEmpty spare.old.items }
    ensures spare { AllByRecursion AreEmpty spare.new.items }
    ensures number { IfOk result (λ five. length five.items ≡ 5) }
    ensures elements { IfOk result (λ five. map (λ g. g.element) five.items ≡ elements) }
    ensures empty { IfOk result (λ five. AllByRecursion GathersNothing five.items) }
{
    let mut five = Vec::with_capacity(alloc, ELEMENTS.len())?;
    for element in ELEMENTS {
        five.push(Gathering::new(alloc, element, without_days(alloc, spare)))?;
    }
    Ok(five)
}

/// Parts without days, in spare memory if there is some.
fn without_days(alloc: Global, spare: &mut Vec<Parts>) -> Parts
    requires { AllByRecursion AreEmpty spare.old.items }
    ensures empty { AreEmpty result }
    ensures spare { AllByRecursion AreEmpty spare.new.items }
{
    match spare.pop() {
        Some(parts) => parts,
        None => Parts::new(alloc),
    }
}

/// An element's place among the five.
fn place_of(element: Element) -> usize
    ensures { result ≡ element_index element }
{
    match element {
        Element::Prcp => 0,
        Element::Snow => 1,
        Element::Snwd => 2,
        Element::Tmax => 3,
        Element::Tmin => 4,
    }
}
