//! The report and the certificate of all files, from those of their parts.

ghost use Rattle.std.specs.Prelude.{◌≡◌, Ok, Err, map, IfOk, IfErr};
ghost use Rattle.ghcn_fields.specs.Refusals.{IsRefusal, OrMemory};
ghost use Rattle.rank_papers.specs.Certificate.{certificate_of_best};
ghost use Rattle.rank_papers.specs.Meaning.Report.{report_text};
ghost use Rattle.rank_papers.specs.ReportLines.{named_in};
ghost use Rattle.rank_papers.specs.Papers.{of_rows};
ghost use Rattle.rank_merge.specs.Found as found;
ghost use Rattle.rank_merge.specs.Laws as laws;
ghost use Rattle.rank_merge.specs.Merging as merging;

use crate::MergeFault;
use crate::gathering::read_parts;
use crate::laws::merged_are_right;
use crate::lines::{by_id, twice};
use crate::rows::keep_first;
use ghcn_fields::Memory;
use rank_papers::{Line, Row, candidates_of, certificate_of_best, report_of_rows};
use rank_query::Query;
use std::alloc::Global;

/// The report and the certificate of all files, as texts.
#[derive(Debug, Drop)]
pub struct Merged {
    pub report: Vec<u8>,
    pub certificate: Vec<u8>,
}

/// Merges the report and the certificate of each part into the report and the certificate of the whole.
///
/// The rows of all parts are put in order, and the first k are kept. All lines are kept, by
/// increasing ID, each with its own bound, and a skip stays a skip. The merged certificate is of
/// version 2; those of the parts may be of version 1 or 2. If there are no parts, the result is the
/// report and the certificate of no data.
pub fn merge(alloc: Global, query: &Query, parts: &[(&[u8], &[u8])]) -> Result<Merged, MergeFault>
    ensures ok { IfOk result (λ merged.
        merging.merge query.now (found.texts_in parts.now) ≡ Ok (found.papers_in merged)) }
    ensures err { IfErr result (λ why.
        IsRefusal merging.is_memory why (merging.merge query.now (found.texts_in parts.now))) }
    ensures right { IfOk result (λ merged.
        laws.AreRightForAll query.now (found.texts_in parts.now) (found.papers_in merged)) }
    ensures measured { IfOk result (λ merged.
        laws.AreMeasuredForAll query.now (found.texts_in parts.now) (found.papers_in merged)) }
    ensures apart { IfOk result (λ merged.
        laws.IsOutcomeWhereRight query.now (found.texts_in parts.now) (Ok (found.papers_in merged))) }
    ensures twice { IfErr result (OrMemory merging.is_memory (λ why.
        laws.IsOutcomeWhereRight query.now (found.texts_in parts.now) (Err why))) }
{
    // Clauses `right` to `twice` are the law, for a query that can be asked. `k` shows that this one can.
    merged_are_right();
    let _k = query.k();
    merge_texts(alloc, query, parts)
}

/// Merges the reports and the certificates of parts.
fn merge_texts(alloc: Global, query: &Query, parts: &[(&[u8], &[u8])]) -> Result<Merged, MergeFault>
    ensures ok { IfOk result (λ merged.
        merging.merge query.now (found.texts_in parts.now) ≡ Ok (found.papers_in merged)) }
    ensures err { IfErr result (λ why.
        IsRefusal merging.is_memory why (merging.merge query.now (found.texts_in parts.now))) }
{
    let all = read_parts(alloc, query, parts)?;
    let lines = by_id(all.lines)?;
    if let Some(id) = twice(lines.as_slice()) {
        return Err(MergeFault::Twice { id });
    }
    let mut rows = all.rows;
    keep_first(query.k(), &mut rows)?;
    Ok(papers(alloc, query, rows.as_slice(), lines.as_slice())?)
}

/// The report and the certificate with these rows and these lines.
fn papers(alloc: Global, query: &Query, rows: &[Row], lines: &[Line]) -> Result<Merged, Memory>
    ensures report { IfOk result (λ merged.
        merged.report.items ≡ report_text query.now (map named_in rows.now)) }
    ensures certificate { IfOk result (λ merged. merged.certificate.items
        ≡ certificate_of_best query.now (of_rows (map named_in rows.now)) lines.now) }
{
    let best = candidates_of(alloc, rows)?;
    Ok(Merged {
        report: report_of_rows(alloc, query, rows)?,
        certificate: certificate_of_best(alloc, query, best.as_slice(), lines)?,
    })
}
