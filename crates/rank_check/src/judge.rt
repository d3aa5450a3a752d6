//! The first test that a report and a certificate that were read fail.

ghost use Rattle.std.specs.Prelude.{◌≡◌, true, [], ◌∷◌, IfOk, nat_le, length, map};
ghost use Rattle.ghcn_fields.specs.Faults.{first_failing};
ghost use Rattle.rank_papers.specs.ReportLines.{reported_in, IsReported};
ghost use Rattle.rank_papers.specs.Certificate.{count_of};
ghost use Rattle.rank_papers.specs.CertificateLines.{certified_in};
ghost use Rattle.rank_papers.specs.Papers.{same_query};
ghost use Rattle.rank_papers.specs.Papers as read;
ghost use Rattle.rank_check.specs.FoundFaults.{IsFaultOfCertificate};
ghost use Rattle.rank_check.specs.Survey.{AreFindings};
ghost use Rattle.rank_check.specs.Tests as tests;

use crate::lines::lines_fault;
use crate::refusal::Refusal;
use crate::rows::rows_fault;
use crate::survey::{Findings, Top, survey, survey_by};
use crate::verdict::Why;
use ghcn_fields::Memory;
use ghcn_series::Data;
use rank_papers::{
    Certificate, Line, Paper, Report, Row, candidates_of, certificates_are_read, is_same_query,
    kth_score, row_counts,
};
use rank_query::Query;
use rank_scores::candidates_of_queries;
use std::alloc::Global;
use std::thread::Threads;

/// The first test that a report and a certificate fail, after one pass over the data, if the report
/// has this query.
pub(crate) fn judge(
    alloc: Global,
    dataset: &Data,
    query: &Query,
    report: &Report,
    certificate: &Certificate,
) -> Result<Option<Refusal>, Memory>
    requires { IsReported (reported_in report.now) }
    ensures { IfOk result (λ fault. fault ≡ first_failing (tests.all_tests query.now dataset.now
        (reported_in report.now) (certified_in certificate.now))) }
{
    if !is_about(alloc, query, report)? {
        return Ok(Some(Refusal::new(Paper::Report, 2, Why::OtherQuery)));
    }
    let found = survey(alloc, dataset, query, report.rows.as_slice())?;
    judge_by_findings(alloc, dataset, query, report, certificate, &found)
}

/// The same, if at most that many workers go through the data.
pub(crate) fn judge_by<R: Threads + Sync>(
    rt: &R,
    alloc: Global,
    dataset: &Data,
    query: &Query,
    report: &Report,
    certificate: &Certificate,
    workers: u64,
) -> Result<Option<Refusal>, Memory>
    requires { IsReported (reported_in report.now) }
    ensures { IfOk result (λ fault. fault ≡ first_failing (tests.all_tests query.now dataset.now
        (reported_in report.now) (certified_in certificate.now))) }
{
    if !is_about(alloc, query, report)? {
        return Ok(Some(Refusal::new(Paper::Report, 2, Why::OtherQuery)));
    }
    let found = survey_by(rt, alloc, dataset, query, report.rows.as_slice(), workers)?;
    judge_by_findings(alloc, dataset, query, report, certificate, &found)
}

/// Whether a report is about a query.
fn is_about(alloc: Global, query: &Query, report: &Report) -> Result<bool, Memory>
    ensures { IfOk result (λ same. same ≡ same_query report.now.query query.now) }
{
    is_same_query(alloc, &report.query, query)
}

/// The first test that a report of this query and a certificate fail, by what was found in the data.
fn judge_by_findings(
    alloc: Global,
    dataset: &Data,
    query: &Query,
    report: &Report,
    certificate: &Certificate,
    found: &Findings,
) -> Result<Option<Refusal>, Memory>
    requires can_be { IsReported (reported_in report.now) }
    requires same { same_query report.now.query query.now ≡ true }
    requires found { AreFindings query.now dataset.now (read.candidates_of report.now.rows.items) found.now }
    ensures { IfOk result (λ fault. fault ≡ first_failing (tests.all_tests query.now dataset.now
        (reported_in report.now) (certified_in certificate.now))) }
{
    // The k-th row has the k-th score, since no two candidates of right data belong to one station and begin on one
    // day.
    candidates_of_queries();
    certificates_are_read();
    let _stations = dataset.stations();
    let fault = report_fault(dataset, query, report, found);
    if fault.is_some() {
        return Ok(fault);
    }
    let rows = report.rows.as_slice();
    let kth = kth_score(query, rows);
    certificate_fault(alloc, query, kth, rows, certificate, found)
}

/// The first test that a report of this query fails.
fn report_fault(dataset: &Data, query: &Query, report: &Report, found: &Findings) -> Option<Refusal>
    requires can_be { IsReported (reported_in report.now) }
    requires same { same_query report.now.query query.now ≡ true }
    requires found { AreFindings query.now dataset.now (read.candidates_of report.now.rows.items) found.now }
    ensures { result ≡ first_failing (tests.report_tests query.now dataset.now (reported_in report.now)) }
{
    let rows = report.rows.as_slice();
    let few = number_fault(query, rows, found);
    rows_fault(dataset.stations(), rows, found).or(few)
}

/// The refusal of a report with too few rows.
fn number_fault(query: &Query, rows: &[Row], found: &Findings) -> Option<Refusal>
    ensures { result
        ≡ first_failing (tests.number_test query.now.k found.now.count (length rows.now) ∷ []) }
{
    if are_enough(query, rows.len() as u64, found.count) {
        return None;
    }
    let line = rows.len() as u64 + 3;
    Some(Refusal::new(Paper::Report, line, Why::TooFew))
}

/// Whether there are k rows, or a row for each candidate.
fn are_enough(query: &Query, rows: u64, candidates: u64) -> bool
    ensures { result ≡ tests.are_enough query.now.k candidates rows }
{
    query.k() <= rows || candidates <= rows
}

/// The first test that a certificate fails beside a report with these rows, if this is the k-th
/// score.
fn certificate_fault(
    alloc: Global,
    query: &Query,
    kth: Option<i64>,
    rows: &[Row],
    certificate: &Certificate,
    found: &Findings,
) -> Result<Option<Refusal>, Memory>
    ensures { IfOk result (IsFaultOfCertificate query.now kth (read.candidates_of rows.now)
        (certified_in certificate.now) found.now.tops.items) }
{
    if !is_same_query(alloc, &certificate.query, query)? {
        return Ok(Some(Refusal::new(Paper::Certificate, 2, Why::OtherQuery)));
    }
    if certificate.kth != kth {
        return Ok(Some(Refusal::new(Paper::Certificate, 3, Why::OtherFloor)));
    }
    let (lines, counts) = (certificate.lines.as_slice(), certificate.counts.as_slice());
    let wanted = wanted_counts(alloc, rows, lines)?;
    let tops = found.tops.as_slice();
    let few = length_fault(tops, lines);
    Ok(lines_fault(certificate.kth, wanted.as_slice(), counts, lines, tops).or(few))
}

/// How many rows of a report belong to the station of each line.
fn wanted_counts(alloc: Global, rows: &[Row], lines: &[Line]) -> Result<Vec<u64>, Memory>
    ensures { IfOk result (λ wanted. wanted.items ≡ map (count_of (read.candidates_of rows.now)) lines.now) }
{
    let candidates = candidates_of(alloc, rows)?;
    row_counts(alloc, candidates.as_slice(), lines)
}

/// The refusal of a certificate with fewer lines than morsels.
fn length_fault(tops: &[Top], lines: &[Line]) -> Option<Refusal>
    ensures { result ≡ first_failing (tests.length_test (length tops.now) (length lines.now) ∷ []) }
{
    if are_all(tops, lines) {
        return None;
    }
    let line = lines.len() as u64 + 4;
    Some(Refusal::new(Paper::Certificate, line, Why::OtherSeries))
}

/// Whether there are at least as many lines as morsels.
fn are_all(tops: &[Top], lines: &[Line]) -> bool
    ensures { result ≡ nat_le (length tops.now) (length lines.now) }
{
    tops.len() <= lines.len()
}
