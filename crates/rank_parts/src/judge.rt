//! The verdict of one part on a report and a certificate that were read.

ghost use Rattle.std.specs.Prelude.{◌≡◌, Ok, IfOk};
ghost use Rattle.rank_papers.specs.ReportLines.{reported_in, IsReported};
ghost use Rattle.rank_papers.specs.CertificateLines.{certified_in};
ghost use Rattle.rank_papers.specs.Certificate.{IsCertified};
ghost use Rattle.rank_parts.specs.Parts as parts;
ghost use Rattle.rank_parts.specs.Seen.{AreSeen};

use crate::lines::lines_fault;
use crate::series::series_with_lines;
use crate::verdict::PartVerdict;
use ghcn_fields::Memory;
use ghcn_series::Data;
use rank_check::{Paper, Refusal, Why};
use rank_head::{HeadFault, check_head};
use rank_papers::{Certificate, Report};
use rank_query::Query;
use std::alloc::Global;

/// The verdict of the first test that fails: of the head, of the lines of these data's series, and of
/// their series without a line.
pub(crate) fn judge(
    alloc: Global,
    dataset: &Data,
    query: &Query,
    report: &Report,
    certificate: &Certificate,
) -> Result<PartVerdict, Memory>
    requires report { IsReported (reported_in report.now) }
    requires certificate { IsCertified (certified_in certificate.now) }
    ensures { IfOk result (λ verdict. verdict ≡ parts.part_judged query.now dataset.now
        (Ok (reported_in report.now, certified_in certificate.now))) }
{
    if let Some(fault) = check_head(alloc, query, report, certificate)? {
        return Ok(PartVerdict::Refused(refusal_of(fault)));
    }
    let (rows, lines) = (report.rows.as_slice(), certificate.lines.as_slice());
    if let Some(refusal) = lines_fault(alloc, dataset, query, rows, lines)? {
        return Ok(PartVerdict::Refused(refusal));
    }
    let count = lines.len() as u64;
    Ok(match series_with_lines(dataset, query, lines) {
        Some(series) => PartVerdict::Accepted {
            series,
            lines: count,
        },
        None => PartVerdict::Refused(Refusal::new(Paper::Certificate, count + 4, Why::OtherSeries)),
    })
}

/// The refusal for an error of the head.
fn refusal_of(fault: HeadFault) -> Refusal
    ensures { result ≡ parts.refusal_of fault }
{
    match fault {
        HeadFault::OtherReportQuery => Refusal::new(Paper::Report, 2, Why::OtherQuery),
        HeadFault::OtherCertificateQuery => Refusal::new(Paper::Certificate, 2, Why::OtherQuery),
        HeadFault::OutOfOrder { line } => Refusal::new(Paper::Report, line, Why::OutOfOrder),
        HeadFault::OtherFloor => Refusal::new(Paper::Certificate, 3, Why::OtherFloor),
        HeadFault::NotRising { line } => Refusal::new(Paper::Certificate, line, Why::OtherSeries),
        HeadFault::NotScanned { line } => Refusal::new(Paper::Report, line, Why::NotACandidate),
        HeadFault::NotCounted { line } => Refusal::new(Paper::Certificate, line, Why::NotCounted),
    }
}
