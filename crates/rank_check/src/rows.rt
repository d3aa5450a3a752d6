//! The tests of the rows of a report, one row after the other.

ghost use Rattle.std.specs.Prelude.{◌≡◌, ◌+◌, ◌<◌, ◌≤◌, Some, length, map, slice_get};
ghost use Rattle.std.specs.Option.{option_map};
ghost use Rattle.rank_papers.specs.ReportLines.{named_in};
ghost use Rattle.rank_check.specs.FoundFaults.{IsFaultOfRow, IsFaultOfRows};
ghost use Rattle.rank_check.specs.Tests as tests;

use crate::refusal::Refusal;
use crate::survey::Findings;
use crate::tally::Met;
use crate::verdict::Why;
use ghcn_files::Stations;
use rank_papers::{Paper, Row, trimmed};
use rank_scores::precedes;

/// The first test that a row fails, after the rows before it.
pub(crate) fn rows_fault(stations: &Stations, rows: &[Row], found: &Findings) -> Option<Refusal>
    requires few { length rows.now ≤ 1000 }
    requires many { length found.now.rows.items ≡ length rows.now }
    ensures { IsFaultOfRows stations.now rows.now found.now result }
{
    for place in 0..rows.len() {
        let fault = row_fault(stations, rows, place, &found.rows[place]);
        if fault.is_some() {
            return fault;
        }
    }
    None
}

/// The first test that the row at a place fails.
fn row_fault(stations: &Stations, rows: &[Row], place: usize, met: &Met) -> Option<Refusal>
    requires few { length rows.now ≤ 1000 }
    requires within { place < length rows.now }
    ensures { IsFaultOfRow stations.now rows.now place met.now result }
{
    let row = &rows[place];
    let line = place as u64 + 3;
    if !(met.present && is_named(stations, row)) {
        return Some(Refusal::new(Paper::Report, line, Why::NotACandidate));
    }
    if !follows(rows, place) {
        return Some(Refusal::new(Paper::Report, line, Why::OutOfOrder));
    }
    if met.ahead != place as u64 {
        return Some(Refusal::new(Paper::Report, line, Why::NotBest));
    }
    None
}

/// Whether the row before the one at a place precedes it, if there is one.
fn follows(rows: &[Row], place: usize) -> bool
    requires { place < length rows.now }
    ensures { option_map (λ row. tests.follows (map named_in rows.now) (place + 1) (named_in row))
        (slice_get rows.now place) ≡ Some result }
{
    place == 0 || precedes(&rows[place - 1].candidate, &rows[place].candidate)
}

/// Whether a row has the name of the listed station with its ID.
fn is_named(stations: &Stations, row: &Row) -> bool
    ensures { result ≡ tests.is_named stations.now (named_in row.now) }
{
    match stations.get(&row.candidate.id) {
        Some(station) => trimmed(&station.name) == row.name.as_slice(),
        None => false,
    }
}
