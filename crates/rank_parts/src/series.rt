//! The series that the data of a part hold, and whether each has a line.

ghost use Rattle.std.specs.Prelude.{◌≡◌, Some, None, length, if◌then◌else◌};
ghost use Rattle.std.specs.Option.{option_copied};
ghost use Rattle.rank_scores.specs.Morsels.{morsels};
ghost use Rattle.rank_head.specs.HeadTests.{IdsRise};
ghost use Rattle.rank_check.specs.Pieces.{is_morsel};
ghost use Rattle.rank_parts.specs.Parts as parts;

use ghcn_files::{Station, StationId};
use ghcn_series::{Data, Series};
use rank_check::check_absent;
use rank_papers::Line;
use rank_query::Query;

/// How many series of these data have an admitted day, if each of them has a line among these,
/// which rise by ID.
pub(crate) fn series_with_lines(dataset: &Data, query: &Query, lines: &[Line]) -> Option<u64>
    requires { IdsRise lines.now }
    ensures { result ≡ (if parts.have_lines query.now dataset.now lines.now
        then Some (length (morsels query.now dataset.now)) else None) }
{
    let mut series: u64 = 0;
    for place in 0..dataset.stations().len() {
        if let Some(station) = dataset.stations().at(place) {
            if is_own(query, station, dataset.series(&station.id, query.element())) {
                if !has_line(lines, &station.id) {
                    return None;
                }
                series += 1;
            }
        }
    }
    Some(series)
}

/// Whether the query admits a station and a day of its series, if there is one.
pub(crate) fn is_own(query: &Query, station: &Station, series: Option<&Series>) -> bool
    ensures { result ≡ is_morsel query.now station.now (option_copied series.entry) }
{
    !check_absent(query, station, series)
}

/// Whether one of these lines, which rise by ID, belongs to a station.
fn has_line(lines: &[Line], id: &StationId) -> bool
    requires { IdsRise lines.now }
    ensures { result ≡ parts.has_line lines.now id.now }
{
    lines.binary_search_by(|line| line.id.cmp(id)).is_ok()
}
