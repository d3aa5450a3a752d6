//! The report of a query. Each of its lines ends by a line feed:
//!
//! ```text
//! extremes report 1
//! query TEXT                            the query in its one spelling
//! RANK ID FIRST LAST VALUE UNIT NAME    a row for each of the best, ranked from 1
//! end N                                 N rows; if fewer than were asked for, `end N all`
//! ```

ghost use Rattle.std.specs.Prelude.{◌≡◌, ◌++◌, codes, map, OnOk, IfOk};
ghost use Rattle.std.specs.List.{enumerate_from, flat_map};
ghost use Rattle.rank_scores.specs.QueryCandidates.{AreOfListed};
ghost use Rattle.rank_sched.specs.Answers.{IsAnswerOfPlan};
ghost use Rattle.rank_papers.specs.Meaning.Report as report;
ghost use Rattle.rank_papers.specs.PlanPapers.{IsReportOfPlan};
ghost use Rattle.rank_papers.specs.Report.{rows_of_best, text_of_best};
ghost use Rattle.rank_papers.specs.ReportLines.{named_in};

use crate::Row;
use crate::number::push_number;
use crate::row::{push_named, push_row};
use ghcn_fields::Memory;
use ghcn_files::Stations;
use rank_query::Query;
use rank_sched::{Answer, Plan};
use rank_scores::Candidate;
use std::alloc::Global;

/// The report of a plan's query with the best candidates of an answer.
pub fn report(alloc: Global, plan: &Plan<'_>, answer: &Answer) -> Result<Vec<u8>, Memory>
    requires { IsAnswerOfPlan plan.now answer.now }
    ensures { IfOk result (λ paper. IsReportOfPlan plan.now paper.items) }
{
    report_of_best(alloc, plan.query(), plan.stations(), &answer.best)
}

/// The report of a query with these best candidates: a row for each, with its station's name.
pub fn report_of_best(
    alloc: Global,
    query: &Query,
    stations: &Stations,
    best: &[Candidate],
) -> Result<Vec<u8>, Memory>
    requires { AreOfListed stations.now best.now }
    ensures text { IfOk result (λ paper. paper.items ≡ text_of_best query.now stations.now best.now) }
    ensures right { IfOk result (λ paper. report.IsReportOfBest query.now stations.now best.now paper.items) }
{
    let mut paper = begun(alloc, query)?;
    push_rows(&mut paper, query, stations, best)?;
    push_end(&mut paper, query.k(), best.len() as u64)?;
    Ok(paper)
}

/// The report of a query with these rows, in their order.
pub fn report_of_rows(alloc: Global, query: &Query, rows: &[Row]) -> Result<Vec<u8>, Memory>
    ensures { IfOk result (λ paper. paper.items ≡ report.report_text query.now (map named_in rows.now)) }
{
    let mut paper = begun(alloc, query)?;
    push_named_rows(&mut paper, query, rows)?;
    push_end(&mut paper, query.k(), rows.len() as u64)?;
    Ok(paper)
}

/// The title of a report, and the line of its query.
fn begun(alloc: Global, query: &Query) -> Result<Vec<u8>, Memory>
    ensures { IfOk result (λ paper. paper.items
        ≡ codes "extremes report 1\n" ++ report.query_line query.now) }
{
    let mut paper = Vec::from_slice(alloc, b"extremes report 1\n")?;
    push_query(alloc, &mut paper, query)?;
    Ok(paper)
}

/// Adds the line of a query.
pub(crate) fn push_query(alloc: Global, paper: &mut Vec<u8>, query: &Query) -> Result<(), Memory>
    ensures { OnOk result (paper.new.items ≡ paper.old.items ++ report.query_line query.now) }
{
    paper.extend_from_slice(b"query ")?;
    paper.extend_from_slice(query.text(alloc)?.as_bytes())?;
    paper.push(b'\n')?;
    Ok(())
}

/// Adds a row for each candidate, ranked from 1.
fn push_rows(
    paper: &mut Vec<u8>,
    query: &Query,
    stations: &Stations,
    best: &[Candidate],
) -> Result<(), Memory>
    requires { AreOfListed stations.now best.now }
    ensures { OnOk result (paper.new.items ≡ paper.old.items
        ++ flat_map (λ row. report.text_line (report.row_fields query.now row))
        (enumerate_from 1 (rows_of_best stations.now best.now))) }
{
    for (place, candidate) in best.iter().enumerate() {
        let Some(station) = stations.get(&candidate.id) else {
            unreachable!();
        };
        push_row(paper, query, place as u64 + 1, candidate, station)?;
    }
    Ok(())
}

/// Adds each row, ranked from 1.
fn push_named_rows(paper: &mut Vec<u8>, query: &Query, rows: &[Row]) -> Result<(), Memory>
    ensures { OnOk result (paper.new.items ≡ paper.old.items
        ++ flat_map (λ row. report.text_line (report.row_fields query.now row))
        (enumerate_from 1 (map named_in rows.now))) }
{
    for (place, row) in rows.iter().enumerate() {
        push_named(paper, query, place as u64 + 1, &row.candidate, &row.name)?;
    }
    Ok(())
}

/// Adds the last line: how many rows there are, and whether these are all that there could be.
pub(crate) fn push_end(paper: &mut Vec<u8>, k: u64, rows: u64) -> Result<(), Memory>
    ensures { OnOk result (paper.new.items ≡ paper.old.items ++ report.text_line (report.end_fields k rows)) }
{
    paper.extend_from_slice(b"end ")?;
    push_number(paper, rows)?;
    if rows < k {
        paper.extend_from_slice(b" all")?;
    }
    paper.push(b'\n')?;
    Ok(())
}
