//! The report and the certificate of one part.

ghost use Rattle.std.specs.Prelude.{◌≡◌, Ok, IfOk, IfErr};
ghost use Rattle.ghcn_fields.specs.Refusals.{IsRefusal};
ghost use Rattle.rank_merge.specs.Found as found;
ghost use Rattle.rank_merge.specs.Merging as merging;

use crate::MergeFault;
use rank_head::{HeadFault, check_head};
use rank_papers::{Certificate, Paper, Report, read_papers};
use rank_query::Query;
use std::alloc::Global;

/// What the report and the certificate of one part say.
#[derive(Debug, Drop)]
pub(crate) struct Papers {
    pub(crate) report: Report,
    pub(crate) certificate: Certificate,
}

/// Reads the report and the certificate of the part of this number, and tests what they show without data.
pub(crate) fn read_part(
    alloc: Global,
    query: &Query,
    part: u64,
    report: &[u8],
    certificate: &[u8],
) -> Result<Papers, MergeFault>
    ensures ok { IfOk result (λ papers.
        merging.part_of query.now part (report.now, certificate.now) ≡ Ok (found.part_in papers)) }
    ensures err { IfErr result (λ why. IsRefusal merging.is_memory why
        (merging.part_of query.now part (report.now, certificate.now))) }
{
    let (report, certificate) = match read_papers(alloc, report, certificate)? {
        Ok(both) => both,
        Err((Paper::Report, line)) => return Err(MergeFault::BadReport { part, line }),
        Err((Paper::Certificate, line)) => return Err(MergeFault::BadCertificate { part, line }),
    };
    match check_head(alloc, query, &report, &certificate)? {
        None => Ok(Papers {
            report,
            certificate,
        }),
        Some(fault) => Err(of_head(part, fault)),
    }
}

/// The refusal of a part whose head has this error.
fn of_head(part: u64, fault: HeadFault) -> MergeFault
    ensures { result ≡ merging.of_head part fault }
{
    match fault {
        HeadFault::OtherReportQuery | HeadFault::OtherCertificateQuery => {
            MergeFault::OtherQuery { part }
        }
        HeadFault::OutOfOrder { line } => MergeFault::OutOfOrder { part, line },
        HeadFault::OtherFloor => MergeFault::OtherFloor { part },
        HeadFault::NotRising { line } => MergeFault::NotRising { part, line },
        HeadFault::NotScanned { line } => MergeFault::NotScanned { part, line },
        HeadFault::NotCounted { line } => MergeFault::NotCounted { part, line },
    }
}
