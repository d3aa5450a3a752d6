//! The verdict of one part on the texts of a report and a certificate.

ghost use Rattle.std.specs.Prelude.{◌≡◌, IfOk};
ghost use Rattle.rank_parts.specs.Parts as parts;
ghost use Rattle.rank_parts.specs.Laws as laws;

use crate::judge::judge;
use crate::laws::parts_make_the_whole;
use crate::verdict::PartVerdict;
use ghcn_fields::Memory;
use ghcn_series::Data;
use rank_check::{Refusal, Why};
use rank_papers::read_papers;
use rank_query::Query;
use std::alloc::Global;

/// Checks a report and a certificate of a query over a whole archive, whatever program made them, as
/// far as the data of some of its stations show: the head of both, the lines of the series that these data
/// hold, and that none of these series is without a line.
///
/// Each series of these data is scanned once, and once more for each row of its station. The two are
/// right for the whole if and only if all parts accept them, and the numbers of the parts' series add up to
/// the number of the lines.
pub fn check_part(
    alloc: Global,
    dataset: &Data,
    query: &Query,
    report: &[u8],
    certificate: &[u8],
) -> Result<PartVerdict, Memory>
    ensures verdict { IfOk result (λ found.
        found ≡ parts.part_verdict query.now dataset.now report.now certificate.now) }
    ensures whole { laws.PartsMakeTheWhole }
    ensures files { laws.FilesMakeTheWhole }
{
    // Clauses `whole` and `files` are the law.
    parts_make_the_whole();
    judge_texts(alloc, dataset, query, report, certificate)
}

/// The verdict of the first test that fails.
fn judge_texts(
    alloc: Global,
    dataset: &Data,
    query: &Query,
    report: &[u8],
    certificate: &[u8],
) -> Result<PartVerdict, Memory>
    ensures { IfOk result (λ found.
        found ≡ parts.part_verdict query.now dataset.now report.now certificate.now) }
{
    match read_papers(alloc, report, certificate)? {
        Ok((report, certificate)) => judge(alloc, dataset, query, &report, &certificate),
        Err((paper, line)) => Ok(PartVerdict::Refused(Refusal::new(paper, line, Why::Form))),
    }
}
