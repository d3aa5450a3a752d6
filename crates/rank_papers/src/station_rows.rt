//! How many rows of a report belong to the station of each line of its certificate.

ghost use Rattle.std.specs.Prelude.{◌≡◌, IfOk, map};
ghost use Rattle.std.specs.List.{count_by};
ghost use Rattle.std.specs.List.Sorted.{IsPermutation};
ghost use Rattle.ghcn_files.specs.Meaning.Ids.{same_id};
ghost use Rattle.rank_papers.specs.Certificate as certificate;
ghost use Rattle.rank_papers.specs.StationRows as counts;

use ghcn_fields::Memory;
use ghcn_files::StationId;
use rank_sched::Line;
use rank_scores::Candidate;
use std::alloc::Global;

/// How many rows belong to the station of each line, in the order of the lines; 0 if it was
/// skipped.
///
/// The rows are sorted by ID once, so a line costs at most the logarithm of their number; one that
/// falls between the same two rows as the line before it costs two comparisons.
pub fn row_counts(alloc: Global, rows: &[Candidate], lines: &[Line]) -> Result<Vec<u64>, Memory>
    ensures { IfOk result (λ found. found.items ≡ map (certificate.count_of rows.now) lines.now) }
{
    let ids = sorted_ids(alloc, rows)?;
    counts_in(alloc, ids.as_slice(), lines)
}

/// The IDs of rows, in order.
fn sorted_ids(alloc: Global, rows: &[Candidate]) -> Result<Vec<StationId>, Memory>
    ensures order { IfOk result (λ ids. counts.AreIdsInOrder ids.items) }
    ensures all { IfOk result (λ ids. IsPermutation (map (λ c. c.id) rows.now) ids.items) }
{
    let mut ids = ids_of(alloc, rows)?;
    ids.sort()?;
    Ok(ids)
}

/// The IDs of rows.
fn ids_of(alloc: Global, rows: &[Candidate]) -> Result<Vec<StationId>, Memory>
    ensures { IfOk result (λ ids. ids.items ≡ map (λ c. c.id) rows.now) }
{
    Ok(rows.iter().map(|row| row.id).collect(alloc)?)
}

/// How many of some IDs are that of each line.
fn counts_in(alloc: Global, ids: &[StationId], lines: &[Line]) -> Result<Vec<u64>, Memory>
    requires { counts.AreIdsInOrder ids.now }
    ensures { IfOk result (λ found. found.items ≡ map (counts.count_in ids.now) lines.now) }
{
    let mut found = Vec::new(alloc);
    let mut place = 0;
    for line in lines {
        let (count, behind) = count_of(ids, line, place);
        found.push(count)?;
        place = behind;
    }
    Ok(found)
}

/// How many of some IDs are that of a line, none if it was skipped, and the place after
/// them.
fn count_of(ids: &[StationId], line: &Line, place: usize) -> (u64, usize)
    requires { counts.AreIdsInOrder ids.now }
    ensures { result.0 ≡ counts.count_in ids.now line.now }
{
    if line.skipped {
        (0, place)
    } else {
        count(ids, &line.id, place)
    }
}

/// How often an ID is among some in order, and the place after it. A place is looked at first, that
/// after the line before: lines rise by ID, and most belong to stations without rows.
fn count(ids: &[StationId], id: &StationId, place: usize) -> (u64, usize)
    requires { counts.AreIdsInOrder ids.now }
    ensures { result.0 ≡ count_by (λ i. same_id i id.now) ids.now }
{
    if is_gap(ids, id, place) {
        return (0, place);
    }
    let before = ids.partition_point(|it| it.cmp(id).is_lt());
    let through = ids.partition_point(|it| it.cmp(id).is_le());
    ((through - before) as u64, through)
}

/// Whether an ID would come at a place among some in order, and is the same as neither neighbour.
fn is_gap(ids: &[StationId], id: &StationId, place: usize) -> bool
    ensures { result ≡ counts.is_gap ids.now id.now place }
{
    let is_before = match ids.get(place) {
        Some(next) => next.cmp(id).is_gt(),
        None => true,
    };
    is_before && is_behind(ids, id, place)
}

/// Whether an ID comes after the one in front of a place, if there is one.
fn is_behind(ids: &[StationId], id: &StationId, place: usize) -> bool
    ensures { result ≡ counts.is_behind ids.now id.now place }
{
    if place == 0 {
        return true;
    }
    match ids.get(place - 1) {
        Some(last) => last.cmp(id).is_lt(),
        None => false,
    }
}
