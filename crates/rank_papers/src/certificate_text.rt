//! The certificate of a query. Each of its lines ends by a line feed:
//!
//! ```text
//! extremes certificate 2
//! query TEXT                the query in its one spelling
//! kth S                     the score of the last row if there are k; otherwise `kth none`
//! scan ID B C               a line for each series of the query, by increasing ID, with a bound on
//!                           its candidates' scores and the number of the report's rows of its
//!                           station; `skip ID B` if it was skipped
//! end M                     M lines of series
//! ```
//!
//! In version 1, which is only read, no line has a number of rows.

ghost use Rattle.std.specs.Prelude.{◌≡◌, ◌<◌, ◌++◌, [], ◌∷◌, decimal, if◌then◌else◌, FitsSigned, length, OnOk, IfOk};
ghost use Rattle.std.specs.Int.{w64};
ghost use Rattle.std.specs.List.{flat_map};
ghost use Rattle.std.specs.Fmt.{signed_decimal};
ghost use Rattle.rank_sched.specs.Answers.{IsAnswerOfPlan};
ghost use Rattle.rank_papers.specs.Meaning.Certificate.{end_line, entry_line, kth_line, title_line};
ghost use Rattle.rank_papers.specs.Certificate as certificate;
ghost use Rattle.rank_papers.specs.PlanPapers.{IsCertificateOfPlan};

use crate::counted::{Counted, has_count};
use crate::number::{push_number, push_whole};
use crate::report_text::push_query;
use crate::row::push_field;
use crate::station_rows::row_counts;
use ghcn_fields::Memory;
use rank_query::Query;
use rank_sched::{Answer, Line, Plan};
use rank_scores::Candidate;
use std::alloc::Global;

/// The version that is written.
const VERSION: u64 = 2;

/// The certificate of a plan's query with the lines of an answer, in version 2.
pub fn certificate(alloc: Global, plan: &Plan<'_>, answer: &Answer) -> Result<Vec<u8>, Memory>
    requires { IsAnswerOfPlan plan.now answer.now }
    ensures text { IfOk result (λ paper. paper.items
        ≡ certificate.certificate_of_best plan.now.query answer.now.best.items answer.now.lines.items) }
    ensures right { IfOk result (λ paper. IsCertificateOfPlan plan.now paper.items) }
{
    certificate_of_best(alloc, plan.query(), &answer.best, &answer.lines)
}

/// The certificate of a query with these best candidates and these lines, in version 2: its k-th score
/// and its counts are those of the candidates.
pub fn certificate_of_best(
    alloc: Global,
    query: &Query,
    best: &[Candidate],
    lines: &[Line],
) -> Result<Vec<u8>, Memory>
    ensures text { IfOk result (λ paper.
        paper.items ≡ certificate.certificate_of_best query.now best.now lines.now) }
    ensures fits { OnOk result (certificate.AreInRange lines.now) }
{
    let mut paper = Vec::from_slice(alloc, title(VERSION))?;
    push_query(alloc, &mut paper, query)?;
    push_kth(&mut paper, kth_score(query.k(), best))?;
    let counts = row_counts(alloc, best, lines)?;
    push_lines(&mut paper, lines, counts.as_slice())?;
    push_end(&mut paper, lines.len() as u64)?;
    Ok(paper)
}

/// The first line of a version.
pub(crate) fn title(version: u64) -> &'static [u8]
    ensures { result.now ≡ title_line version }
{
    if version == 1 {
        b"extremes certificate 1\n"
    } else {
        b"extremes certificate 2\n"
    }
}

/// The score of the k-th of some candidates, if there are k.
fn kth_score(k: u64, best: &[Candidate]) -> Option<i64>
    requires { 0 < k }
    ensures { result ≡ certificate.kth_of_best k best.now }
{
    let last = best.get(k as usize - 1)?;
    Some(last.score)
}

/// Adds the line of a k-th score, or of none.
pub(crate) fn push_kth(paper: &mut Vec<u8>, kth: Option<i64>) -> Result<(), Memory>
    ensures { OnOk result (paper.new.items ≡ paper.old.items ++ kth_line kth) }
{
    paper.extend_from_slice(b"kth ")?;
    match kth {
        None => paper.extend_from_slice(b"none")?,
        Some(score) => push_whole(paper, score)?,
    }
    paper.push(b'\n')?;
    Ok(())
}

/// Adds the line of each series, with its count.
fn push_lines(paper: &mut Vec<u8>, lines: &[Line], counts: &[u64]) -> Result<(), Memory>
    requires { length counts.now ≡ length lines.now }
    ensures text { OnOk result (paper.new.items ≡ paper.old.items
        ++ flat_map (entry_line 2) (certificate.counted lines.now counts.now)) }
    ensures fits { OnOk result (certificate.AreInRange lines.now) }
{
    for place in 0..lines.len() {
        let line = Counted {
            entry: lines[place],
            count: counts[place],
        };
        push_line(paper, VERSION, &line)?;
    }
    Ok(())
}

/// Adds the line of a series, with its count if the version has one.
pub(crate) fn push_line(paper: &mut Vec<u8>, version: u64, line: &Counted) -> Result<(), Memory>
    ensures text { OnOk result (paper.new.items ≡ paper.old.items ++ entry_line version line.now) }
    ensures fits { OnOk result (FitsSigned w64 line.now.entry.bound) }
{
    paper.extend_from_slice(if line.entry.skipped { b"skip" } else { b"scan" })?;
    push_field(paper, &line.entry.id.0)?;
    paper.push(b' ')?;
    push_bound(
        paper,
        line.entry.bound,
        has_count(version, &line.entry),
        line.count,
    )?;
    paper.push(b'\n')?;
    Ok(())
}

/// Adds a bound, and a count after it if there is one.
fn push_bound(paper: &mut Vec<u8>, bound: i64, has: bool, count: u64) -> Result<(), Memory>
    ensures text { OnOk result (paper.new.items
        ≡ paper.old.items ++ (signed_decimal bound ++ (if has then 32 ∷ decimal count else []))) }
    ensures fits { OnOk result (FitsSigned w64 bound) }
{
    push_whole(paper, bound)?;
    push_count(paper, has, count)
}

/// Adds a blank and a count, if there is one.
fn push_count(paper: &mut Vec<u8>, has: bool, count: u64) -> Result<(), Memory>
    ensures { OnOk result (paper.new.items ≡ paper.old.items ++ (if has then 32 ∷ decimal count else [])) }
{
    if has {
        paper.push(b' ')?;
        push_number(paper, count)?;
    }
    Ok(())
}

/// Adds the last line, of that many lines of series.
pub(crate) fn push_end(paper: &mut Vec<u8>, lines: u64) -> Result<(), Memory>
    ensures { OnOk result (paper.new.items ≡ paper.old.items ++ end_line lines) }
{
    paper.extend_from_slice(b"end ")?;
    push_number(paper, lines)?;
    paper.push(b'\n')?;
    Ok(())
}
