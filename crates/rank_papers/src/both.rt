//! A report and its certificate, read together.

ghost use Rattle.std.specs.Prelude.{◌≡◌, Ok, Err, IfOk, IfErr};
ghost use Rattle.rank_papers.specs.Certificate.{IsCertified};
ghost use Rattle.rank_papers.specs.CertificateLines.{certified_in};
ghost use Rattle.rank_papers.specs.Papers as papers;
ghost use Rattle.rank_papers.specs.ReportLines.{IsReported, reported_in};

use crate::certificate_lines::read_certificate;
use crate::report_lines::read_report;
use crate::{Certificate, Paper, PaperFault, Report};
use ghcn_fields::Memory;
use std::alloc::Global;

/// What a report and its certificate say, or the first line, counted from 1, that doesn't match the format
/// there: of the report, or otherwise of the certificate.
pub fn read_papers(
    alloc: Global,
    report: &[u8],
    certificate: &[u8],
) -> Result<Result<(Report, Certificate), (Paper, u64)>, Memory>
    ensures ok { IfOk result (λ read. IfOk read (λ both. papers.read_papers report.now certificate.now
        ≡ Ok (reported_in both.0, certified_in both.1))) }
    ensures reported { IfOk result (λ read. IfOk read (λ both. IsReported (reported_in both.0))) }
    ensures certified { IfOk result (λ read. IfOk read (λ both. IsCertified (certified_in both.1))) }
    ensures err { IfOk result (λ read. IfErr read (λ bad.
        papers.read_papers report.now certificate.now ≡ Err bad)) }
{
    let report = match read_report(alloc, report) {
        Ok(report) => report,
        Err(PaperFault::BadReport { line } | PaperFault::BadCertificate { line }) => {
            return Ok(Err((Paper::Report, line)));
        }
        Err(PaperFault::Memory(memory)) => return Err(memory),
    };
    match read_certificate(alloc, certificate) {
        Ok(certificate) => Ok(Ok((report, certificate))),
        Err(PaperFault::BadReport { line } | PaperFault::BadCertificate { line }) => {
            Ok(Err((Paper::Certificate, line)))
        }
        Err(PaperFault::Memory(memory)) => Err(memory),
    }
}
