//! The rows of a report: their order, the k-th score, and the series that they belong to and count with.

ghost use Rattle.std.specs.Prelude.{◌≡◌, ℕ, ◌+◌, ◌^◌, ◌<◌, true, [], ◌∷◌, map, length, replicate, slice_index};
ghost use Rattle.std.specs.Prelude.{None, IfSome};
ghost use Rattle.ghcn_fields.specs.Faults.{first_failing};
ghost use Rattle.rank_scores.specs.Meaning.Order.{precedes};
ghost use Rattle.rank_papers.specs.Certificate.{count_of};
ghost use Rattle.rank_papers.specs.ReportLines.{named_in};
ghost use Rattle.rank_papers.specs.Papers.{of_rows, neighbours};
ghost use Rattle.rank_head.specs.FirstPlaces.{IsFirstPlace};
ghost use Rattle.rank_head.specs.HeadTests as tests;
ghost use Rattle.rank_head.specs.Tallies as tallies;

use crate::HeadFault;
use ghcn_files::StationId;
use rank_papers::{Line, Row, kth_score};
use rank_query::Query;
use rank_scores::precedes;

/// The refusal of the first row that the one before it doesn't precede. The second row is line 4 of the
/// report.
pub(crate) fn order_fault(rows: &[Row]) -> Option<HeadFault>
    ensures { result ≡ first_failing (tests.order_tests (map named_in rows.now)) }
{
    let place = first_out_of_order(rows)?;
    Some(HeadFault::OutOfOrder {
        line: place as u64 + 4,
    })
}

/// The place of the first row that doesn't precede the next.
fn first_out_of_order(rows: &[Row]) -> Option<usize>
    ensures place { IsFirstPlace (λ two. precedes two.0 two.1)
        (neighbours (of_rows (map named_in rows.now))) result }
    ensures within { IfSome result (λ place. place < length rows.now) }
{
    let [_, behind @ ..] = rows else {
        return None;
    };
    let mut pairs = rows.iter().zip(behind.iter());
    pairs.position(|(row, next)| !precedes(&row.candidate, &next.candidate))
}

/// The refusal of a k-th score that isn't that of the k-th row.
pub(crate) fn floor_fault(query: &Query, rows: &[Row], kth: Option<i64>) -> Option<HeadFault>
    ensures { result ≡ first_failing (tests.floor_test query.now (map named_in rows.now) kth ∷ []) }
{
    if kth == kth_score(query, rows) {
        None
    } else {
        Some(HeadFault::OtherFloor)
    }
}

/// The refusal of the first row that belongs to no series that was scanned. The first row is line 3 of the
/// report. If there is none, each row was counted with the line of its station.
pub(crate) fn scanned_fault(lines: &[Line], rows: &[Row], counts: &mut [u64]) -> Option<HeadFault>
    requires rise { tests.IdsRise lines.now }
    requires none { counts.old ≡ replicate (length lines.now) 0 }
    ensures fault { result ≡ first_failing (tests.scanned_tests lines.now (map named_in rows.now)) }
    ensures counts { result ≡ None → counts.new ≡ map (count_of (of_rows (map named_in rows.now))) lines.now }
{
    let place = first_not_scanned(lines, rows, counts)?;
    Some(HeadFault::NotScanned {
        line: place as u64 + 3,
    })
}

/// The place of the first row that belongs to no series that was scanned. Each row before it is counted
/// with the line of its station.
fn first_not_scanned(lines: &[Line], rows: &[Row], counts: &mut [u64]) -> Option<usize>
    requires rise { tests.IdsRise lines.now }
    requires none { counts.old ≡ replicate (length lines.now) 0 }
    ensures place { IsFirstPlace (λ row. tests.is_scanned lines.now row.0.id)
        (map named_in rows.now) result }
    ensures within { IfSome result (λ place. place < length rows.now) }
    ensures counts { result ≡ None → counts.new ≡ map (count_of (of_rows (map named_in rows.now))) lines.now }
{
    for (place, row) in rows.iter().enumerate() {
        if !count_row(lines, &row.candidate.id, counts) {
            return Some(place);
        }
    }
    None
}

/// Whether one of these lines, which rise by ID, belongs to the station and the series wasn't
/// skipped. A row is counted with that line.
fn count_row(lines: &[Line], id: &StationId, counts: &mut [u64]) -> bool
    requires rise { tests.IdsRise lines.now }
    requires all { length counts.old ≡ length lines.now }
    requires few { (k : ℕ) → slice_index counts.old k + 1 < 2 ^ 64 }
    ensures scanned { result ≡ tests.is_scanned lines.now id.now }
    ensures counted { result ≡ true → tallies.IsOneMore id.now lines.now counts.old counts.new }
{
    let Ok(place) = lines.binary_search_by(|line| line.id.cmp(id)) else {
        return false;
    };
    let scanned = !lines[place].skipped;
    if scanned {
        counts[place] += 1;
    }
    scanned
}
