//! The verdict on the texts of a report and a certificate.

ghost use Rattle.std.specs.Prelude.{◌≡◌, ◌↔◌, IfOk};
ghost use Rattle.ghcn_series.specs.Held.{IsContents};
ghost use Rattle.rank_query.specs.Meaning.Asked.{IsAsked};
ghost use Rattle.rank_papers.specs.Report.{IsFoundReport};
ghost use Rattle.rank_papers.specs.Certificate.{IsFoundCertificate};
ghost use Rattle.rank_papers.specs.Papers as papers;
ghost use Rattle.rank_check.specs.Tests as tests;

use crate::judge::{judge, judge_by};
use crate::laws::accepted_where_right;
use crate::refusal::Refusal;
use crate::verdict::{Verdict, Why};
use ghcn_fields::Memory;
use ghcn_series::Data;
use rank_papers::{Paper, read_papers};
use rank_query::Query;
use std::alloc::Global;
use std::thread::Threads;

/// Checks a report and a certificate of a query, whatever program made them, over some data: the
/// verdict of the first test that fails, and `Accepted` if and only if the report is the right one
/// and the certificate a right one.
///
/// Each series is scanned once. Besides what both texts say, the call holds two numbers for each row, and an ID and
/// a score for each series.
pub fn check(
    alloc: Global,
    dataset: &Data,
    query: &Query,
    report: &[u8],
    certificate: &[u8],
) -> Result<Verdict, Memory>
    ensures verdict { IfOk result (λ found.
        found ≡ tests.verdict query.now dataset.now report.now certificate.now) }
    ensures accepted { IfOk result (λ found. (found ≡ Verdict.Accepted)
        ↔ (IsFoundReport query.now dataset.now report.now × IsFoundCertificate query.now dataset.now certificate.now)) }
{
    // Clause `accepted` is the law, which asks for a right query and right data.
    accepted_where_right();
    are_right(dataset, query);
    let fault = papers_fault(alloc, dataset, query, report, certificate)?;
    Ok(verdict_of(fault))
}

/// The same by at most that many workers, each but one in a thread of its own. Each of these holds two numbers for
/// each row, too. If one finds no memory, the others run to their end.
pub fn check_by<R: Threads + Sync>(
    rt: &R,
    alloc: Global,
    dataset: &Data,
    query: &Query,
    report: &[u8],
    certificate: &[u8],
    workers: u64,
) -> Result<Verdict, Memory>
    ensures verdict { IfOk result (λ found.
        found ≡ tests.verdict query.now dataset.now report.now certificate.now) }
    ensures accepted { IfOk result (λ found. (found ≡ Verdict.Accepted)
        ↔ (IsFoundReport query.now dataset.now report.now × IsFoundCertificate query.now dataset.now certificate.now)) }
{
    // As in `check`.
    accepted_where_right();
    are_right(dataset, query);
    let fault = papers_fault_by(rt, alloc, dataset, query, report, certificate, workers)?;
    Ok(verdict_of(fault))
}

/// What holds of all queries and of all data.
fn are_right(dataset: &Data, query: &Query)
    ensures asked { IsAsked query.now }
    ensures contents { IsContents dataset.now }
{
    // The contracts of these two say what is asked of each.
    let (_stations, _k) = (dataset.stations(), query.k());
}

/// The verdict of the first test that fails, if one does.
fn verdict_of(fault: Option<Refusal>) -> Verdict
    ensures { result ≡ tests.verdict_of fault }
{
    match fault {
        None => Verdict::Accepted,
        Some(Refusal { paper, line, why }) => Verdict::Refused { paper, line, why },
    }
}

/// The first test that the texts of a report and a certificate fail.
fn papers_fault(
    alloc: Global,
    dataset: &Data,
    query: &Query,
    report: &[u8],
    certificate: &[u8],
) -> Result<Option<Refusal>, Memory>
    ensures { IfOk result (λ fault.
        fault ≡ tests.refused query.now dataset.now (papers.read_papers report.now certificate.now)) }
{
    match read_papers(alloc, report, certificate)? {
        Ok((report, certificate)) => judge(alloc, dataset, query, &report, &certificate),
        Err((paper, line)) => Ok(Some(not_read(paper, line))),
    }
}

/// The same, if at most that many workers go through the data.
fn papers_fault_by<R: Threads + Sync>(
    rt: &R,
    alloc: Global,
    dataset: &Data,
    query: &Query,
    report: &[u8],
    certificate: &[u8],
    workers: u64,
) -> Result<Option<Refusal>, Memory>
    ensures { IfOk result (λ fault.
        fault ≡ tests.refused query.now dataset.now (papers.read_papers report.now certificate.now)) }
{
    match read_papers(alloc, report, certificate)? {
        Ok((report, certificate)) => judge_by(
            rt,
            alloc,
            dataset,
            query,
            &report,
            &certificate,
            workers,
        ),
        Err((paper, line)) => Ok(Some(not_read(paper, line))),
    }
}

/// The refusal of a report or a certificate that has no right form from this line on.
fn not_read(paper: Paper, line: u64) -> Refusal
    ensures { result ≡ record { paper = paper; line = line; why = Why.Form } }
{
    Refusal::new(paper, line, Why::Form)
}
