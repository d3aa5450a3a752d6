//! One pass over all data: what it says of the rows of a report, and the greatest score of each series.

ghost use Rattle.std.specs.Prelude.{◌≡◌, ◌++◌, List, map, filter, length, IfOk};
ghost use denote.Param.Send.{IsSync};
ghost use Rattle.ghcn_series.specs.Meaning.Series as said;
ghost use Rattle.ghcn_series.specs.Series as held;
ghost use Rattle.ghcn_series.specs.Held.{IsContents};
ghost use Rattle.rank_query.specs.Meaning.Asked as asked;
ghost use Rattle.rank_scores.specs.declared.candidate.Candidate as scored;
ghost use Rattle.rank_scores.specs.Morsels.{admitted_series, has_admitted};
ghost use Rattle.rank_papers.specs.Papers.{candidates_of};
ghost use Rattle.rank_check.specs.Survey as survey;

use crate::tally::{Met, Tally};
use ghcn_fields::Memory;
use ghcn_files::StationId;
use ghcn_series::{Data, Series};
use rank_papers::Row;
use rank_query::Query;
use rank_scores::morsel_at;
use std::alloc::Global;
use std::thread::{Threads, join};

/// A series with an admitted day, and the greatest score of its candidates, if it has any.
#[derive(Clone, Copy, Debug)]
pub(crate) struct Top {
    pub(crate) id: StationId,
    pub(crate) highest: Option<i64>,
}

/// What a pass over all data finds.
#[derive(Drop)]
pub(crate) struct Findings {
    /// The rows of the report, each against all candidates.
    pub(crate) rows: Vec<Met>,
    /// How many candidates there are.
    pub(crate) count: u64,
    /// The morsels by increasing ID.
    pub(crate) tops: Vec<Top>,
}

/// Scans each morsel of the query once.
pub(crate) fn survey(
    alloc: Global,
    dataset: &Data,
    query: &Query,
    rows: &[Row],
) -> Result<Findings, Memory>
    ensures { IfOk result (survey.AreFindings query.now dataset.now (candidates_of rows.now)) }
{
    let morsels = morsels_of(alloc, dataset, query)?;
    let found = scan_all(alloc, morsels.as_slice(), query, rows)?;
    by_id(found)
}

/// The same by at most that many workers, each but one in a thread of its own.
pub(crate) fn survey_by<R: Threads + Sync>(
    rt: &R,
    alloc: Global,
    dataset: &Data,
    query: &Query,
    rows: &[Row],
    workers: u64,
) -> Result<Findings, Memory>
    ensures { IfOk result (survey.AreFindings query.now dataset.now (candidates_of rows.now)) }
{
    let morsels = morsels_of(alloc, dataset, query)?;
    let found = scan_parts(rt, alloc, morsels.as_slice(), query, rows, workers)?;
    by_id(found)
}

/// Puts what was found of the series in the order of their IDs.
fn by_id(mut found: Findings) -> Result<Findings, Memory>
    ensures { (q : asked.Query) (c : held.Data) (cs : List scored.Candidate) → IsContents c
        → survey.AreFoundIn q (filter (has_admitted q) (admitted_series q c)) cs found
        → IfOk result (survey.AreFindings q c cs) }
{
    found.tops.sort_by(|a, b| a.id.cmp(&b.id))?;
    Ok(found)
}

/// Scans each of some series once, by that many workers, or by the caller alone if there are fewer series. The last
/// series have a thread of their own; the caller scans the others in the same way. If a thread can't be started, the
/// caller scans its series too.
fn scan_parts<R: Threads + Sync>(
    rt: &R,
    alloc: Global,
    all: &[&Series],
    query: &Query,
    rows: &[Row],
    workers: u64,
) -> Result<Findings, Memory>
    ensures { IfOk result (survey.AreFoundIn query.now (map (λ s. s.now) all.now) (candidates_of rows.now)) }
{
    if workers < 2 || (all.len() as u64) < workers {
        return scan_all(alloc, all, query, rows);
    }
    let (front, back) = all.split_at(all.len() - all.len() / workers as usize);
    let less = workers - 1;
    let (second, first) = join(
        rt,
        move ||
            ensures { IfOk result (survey.AreFoundIn query.entry.now (map (λ s. s.now) back.entry.now)
                (candidates_of rows.entry.now)) }
        { scan_all(alloc, back, query, rows) },
        move ||
            requires { IsSync R.row }
            ensures { IfOk result (survey.AreFoundIn query.entry.now (map (λ s. s.now) front.entry.now)
                (candidates_of rows.entry.now)) }
        { scan_parts(rt, alloc, front, query, rows, less) },
    );
    both(first?, second?)
}

/// Scans each of some series once.
fn scan_all(alloc: Global, all: &[&Series], query: &Query, rows: &[Row]) -> Result<Findings, Memory>
    ensures { IfOk result (survey.AreFoundIn query.now (map (λ s. s.now) all.now) (candidates_of rows.now)) }
{
    let mut tally = Tally::of(alloc, rows)?;
    let mut tops = Vec::new(alloc);
    for series in all {
        let highest = tally.scan(series, query);
        tops.push(Top {
            id: series.id(),
            highest,
        })?;
    }
    Ok(Findings {
        rows: tally.rows(alloc)?,
        count: tally.count(),
        tops,
    })
}

/// What was found of some series and then of others, for the same rows.
fn both(first: Findings, second: Findings) -> Result<Findings, Memory>
    requires { length second.rows.items ≡ length first.rows.items }
    ensures { (q : asked.Query) (ss us : List said.Series) (cs : List scored.Candidate)
        → survey.AreFoundIn q ss cs first → survey.AreFoundIn q us cs second
        → IfOk result (survey.AreFoundIn q (ss ++ us) cs) }
{
    let Findings {
        mut rows,
        count,
        mut tops,
    } = first;
    let Findings {
        rows: others,
        count: more,
        tops: mut last,
    } = second;
    for place in 0..rows.len() {
        rows[place].add(&others[place]);
    }
    tops.append(&mut last)?;
    Ok(Findings {
        rows,
        count: count.saturating_add(more),
        tops,
    })
}

/// The morsels in the order of their stations.
fn morsels_of<'a>(
    alloc: Global,
    dataset: &'a Data,
    query: &Query,
) -> Result<Vec<&'a Series>, Memory>
    ensures morsels { IfOk result (λ all. map (λ s. s.now) all.items
        ≡ filter (has_admitted query.now) (admitted_series query.now dataset.now)) }
    ensures contents { IsContents dataset.now }
{
    let mut all = Vec::new(alloc);
    for place in 0..dataset.stations().len() {
        if let Some(series) = morsel_at(dataset, query, place) {
            all.push(series)?;
        }
    }
    Ok(all)
}
