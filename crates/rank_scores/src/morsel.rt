//! The series that a query is about, and those of them that have an admitted day, its morsels.

ghost use Rattle.std.specs.Prelude.{◌≡◌, slice_get, IfSome};
ghost use Rattle.std.specs.Option.{option_and_then, option_copied};
ghost use Rattle.rank_scores.specs.Morsels as meaning;

use crate::has_admitted_day;
use ghcn_series::{Data, Series};
use rank_query::Query;

/// The series of the query's element and of the station at a place in the list, from 0, if the query
/// admits the station and it has one.
pub fn series_at<'a>(dataset: &'a Data, query: &Query, place: u64) -> Option<&'a Series>
    ensures { option_copied result
        ≡ option_and_then (meaning.series_at query.now dataset.now) (slice_get dataset.now.stations place) }
{
    // Most stations of a long list have no series, and then nothing else is read of them.
    let series = dataset.series_at(place, query.element())?;
    let station = dataset.stations().at(place)?;
    if query.admits_station(station) {
        Some(series)
    } else {
        None
    }
}

/// The morsel of the station at a place in the list, from 0: its series, if the query admits the
/// station and a day of the series.
pub fn morsel_at<'a>(dataset: &'a Data, query: &Query, place: u64) -> Option<&'a Series>
    ensures morsel { option_copied result
        ≡ option_and_then (meaning.morsel_at query.now dataset.now) (slice_get dataset.now.stations place) }
    ensures asked { IfSome result (λ series. meaning.IsAskedOf query.now series.now) }
{
    let series = series_at(dataset, query, place)?;
    if has_admitted_day(series, query) {
        Some(series)
    } else {
        None
    }
}
