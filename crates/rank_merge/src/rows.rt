//! Rows of reports, in the order of their candidates.

ghost use Rattle.std.specs.Prelude.{◌≡◌, ◌≤◌, ◌-◌, map, drop, length, slice_get, true, OnOk};
ghost use Rattle.std.specs.List.{AllByRecursion};
ghost use Rattle.std.specs.Option.{option_map};
ghost use Rattle.rank_pool.specs.First.{comes_first};
ghost use Rattle.rank_papers.specs.ReportLines.{named_in};
ghost use Rattle.rank_merge.specs.Found as found;
ghost use Rattle.rank_merge.specs.Merged as merged;

use ghcn_fields::Memory;
use rank_papers::Row;
use rank_scores::Candidate;

/// Keeps only the first k of some rows.
pub(crate) fn keep_first(k: u64, rows: &mut Vec<Row>) -> Result<(), Memory>
    ensures { OnOk result (map named_in rows.new.items ≡ merged.first_rows k (map named_in rows.old.items)) }
{
    rows.sort_by(|a, b| a.candidate.cmp(&b.candidate))?;
    rows.truncate(k as usize);
    Ok(())
}

/// The candidate of the last row.
pub(crate) fn last_of(rows: &[Row]) -> Option<Candidate>
    ensures { result ≡ option_map (λ r. r.candidate) (slice_get rows.now (length rows.now - 1)) }
{
    match rows.last() {
        Some(row) => Some(row.candidate),
        None => None,
    }
}

/// Removes the rows at the end that the floor, if there is one, comes before or ties with. If the rows are in
/// order, no such row is left.
pub(crate) fn drop_behind(floor: &Option<Candidate>, rows: &mut Vec<Row>)
    ensures { found.IsCut floor.now (map named_in rows.old.items) (map named_in rows.new.items) }
{
    if let Some(floor) = floor {
        let kept = behind(floor, rows.as_slice());
        rows.truncate(kept);
    }
}

/// The place from which on the floor comes before each row, or ties with it.
fn behind(floor: &Candidate, rows: &[Row]) -> usize
    ensures { AllByRecursion (λ r. comes_first floor.now r.candidate ≡ true) (drop result rows.now) }
{
    let mut kept = rows.len();
    while 0 < kept && floor.cmp(&rows[kept - 1].candidate).is_le() {
        kept -= 1;
    }
    kept
}
