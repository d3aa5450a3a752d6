//! The head of a report and a certificate: query, order of rows, k-th score, order of lines, and
//! that each row belongs to a series that was scanned and counted.

ghost use Rattle.std.specs.Prelude.{◌≡◌, ◌++◌, ◌∷◌, None, IfOk, map};
ghost use Rattle.ghcn_fields.specs.Faults.{first_failing};
ghost use Rattle.rank_papers.specs.ReportLines.{named_in, reported_in};
ghost use Rattle.rank_papers.specs.CertificateLines.{certified_in};
ghost use Rattle.rank_head.specs.HeadTests as tests;
ghost use Rattle.rank_head.specs.RightHead as right;

use crate::HeadFault;
use crate::laws::heads_are_right;
use crate::lines::{count_fault, rise_fault};
use crate::rows::{floor_fault, order_fault};
use ghcn_fields::Memory;
use rank_papers::{Certificate, Line, Report, Row, is_same_query};
use rank_query::Query;
use std::alloc::Global;

/// The first error of the head of this report and this certificate, for this query.
///
/// If the two were read from texts, there is no error if and only if their head is right.
pub fn check_head(
    alloc: Global,
    query: &Query,
    report: &Report,
    certificate: &Certificate,
) -> Result<Option<HeadFault>, Memory>
    ensures first { IfOk result (λ fault.
        fault ≡ tests.head_fault query.now (reported_in report.now) (certified_in certificate.now)) }
    ensures right { IfOk result
        (right.IsNoneWhereRight query.now (reported_in report.now) (certified_in certificate.now)) }
{
    // Clause `right` is the law, for a query that can be asked. `k` shows that this one can.
    heads_are_right();
    let _k = query.k();
    head_fault(alloc, query, report, certificate)
}

/// The first error of the head of this report and this certificate.
fn head_fault(
    alloc: Global,
    query: &Query,
    report: &Report,
    certificate: &Certificate,
) -> Result<Option<HeadFault>, Memory>
    ensures { IfOk result (λ fault.
        fault ≡ tests.head_fault query.now (reported_in report.now) (certified_in certificate.now)) }
{
    if !is_same_query(alloc, &report.query, query)? {
        return Ok(Some(HeadFault::OtherReportQuery));
    }
    if !is_same_query(alloc, &certificate.query, query)? {
        return Ok(Some(HeadFault::OtherCertificateQuery));
    }
    let (rows, lines) = (report.rows.as_slice(), certificate.lines.as_slice());
    let seen = place_fault(query, rows, certificate.kth, lines);
    if seen.is_some() {
        return Ok(seen);
    }
    count_fault(alloc, rows, lines, certificate.counts.as_slice())
}

/// The first error of the order of rows, of the k-th score and of the order of lines.
fn place_fault(query: &Query, rows: &[Row], kth: Option<i64>, lines: &[Line]) -> Option<HeadFault>
    ensures first { result ≡ first_failing (tests.order_tests (map named_in rows.now)
        ++ tests.floor_test query.now (map named_in rows.now) kth ∷ tests.rising_tests lines.now) }
    ensures rise { result ≡ None → tests.IdsRise lines.now }
{
    let rise = rise_fault(lines);
    order_fault(rows).or(floor_fault(query, rows, kth)).or(rise)
}
