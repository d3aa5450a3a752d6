//! The series of all listed stations. Files often have days of few of these.

ghost use Rattle.std.specs.Prelude.{◌≡◌, map, slice_get};
ghost use Rattle.std.specs.List.{find};
ghost use Rattle.std.specs.Option.{option_and_then, option_copied};
ghost use Rattle.ghcn_series.specs.Held.{is_of_element, lists_by_number};

use crate::Series;
use ghcn_fields::Memory;
use ghcn_files::Element;
use std::alloc::Global;
use std::marker::Model;

/// The series of each listed station, by element. A station that has none takes the memory of a number.
#[derive(Drop)]
pub(crate) struct SeriesByPlace {
    /// Of each listed station, in their order, the number of its list, from 1, or 0 if it has none.
    numbers: Vec<u32>,
    lists: Vec<Vec<Series>>,
}

impl Model for SeriesByPlace {
    ghost use Rattle.std.specs.Prelude.{List, map};
    ghost use Rattle.ghcn_series.specs.Meaning.Series.{Series};
    ghost use Rattle.ghcn_series.specs.Held.{lists_by_number};

    ghost Value = { List (List Series) };

    ghost view = { λ s. lists_by_number (map (λ v. v.items) s.lists.items) s.numbers.items };
}

impl SeriesByPlace {
    /// These lists of series, at the places that have their numbers, from 1.
    pub(crate) fn of(numbers: Vec<u32>, lists: Vec<Vec<Series>>) -> Self
        ensures { result ≡ lists_by_number (map (λ v. v.items) lists.items) numbers.items }
    {
        SeriesByPlace { numbers, lists }
    }

    /// The series of an element and of the station at a place in the list, from 0.
    pub(crate) fn at(&self, place: u64, element: Element) -> Option<&Series>
        ensures { option_copied result
            ≡ option_and_then (find (is_of_element element)) (slice_get self.now place) }
    {
        let number = self.numbers.get(place as usize)?;
        let series = self.lists.get(number.checked_sub(1)? as usize)?;
        of_element(series, element)
    }

    /// Holds the extremes of all series. No series changes.
    pub(crate) fn hold_extremes(&mut self, alloc: Global) -> Result<(), Memory>
        ensures { self.new ≡ self.old }
    {
        hold_in_lists(alloc, &mut self.lists)
    }
}

/// The series of an element, among those of a station.
fn of_element(series: &[Series], element: Element) -> Option<&Series>
    ensures { option_copied result ≡ find (is_of_element element) series.now }
{
    series.iter().find(|series| series.element() == element)
}

/// Holds the extremes of the series of some lists.
fn hold_in_lists(alloc: Global, lists: &mut Vec<Vec<Series>>) -> Result<(), Memory>
    ensures { map (λ s. s.items) lists.new.items ≡ map (λ s. s.items) lists.old.items }
{
    for place in 0..lists.len() {
        hold_in_list(alloc, &mut lists[place])?;
    }
    Ok(())
}

/// Holds the extremes of some series.
fn hold_in_list(alloc: Global, series: &mut Vec<Series>) -> Result<(), Memory>
    ensures { series.new.items ≡ series.old.items }
{
    for place in 0..series.len() {
        series[place].hold_extremes(alloc)?;
    }
    Ok(())
}
