//! The check of a report and a certificate, from the bytes of the files to a verdict.

ghost use Rattle.std.specs.Prelude.{◌≡◌, ◌↔◌, ℕ, IfOk, IfErr, map};
ghost use Rattle.ghcn_fields.specs.Refusals.{IsRefusal};
ghost use Rattle.rank_check.specs.Tests as tests;
ghost use Rattle.rank_papers.specs.RightLaws.{IsRightReportFor, IsRightCertificateFor};
ghost use Rattle.rank_input.specs.Input.{read_input, is_memory};
ghost use Rattle.extremes.specs.Judged.{IsJudged, IsJudgedByPart};
ghost use Rattle.extremes.specs.JudgedInParts.{PartsJudgeTheWhole};
ghost use Rattle.rank_input.specs.Taken.{HasTakenSome, AreWarningsOf, RefusesInput};
ghost use Rattle.extremes.specs.Runs.{JudgesInput, JudgesPart, JudgesInputAs};

use crate::judgement::Judgement;
use crate::laws::parts_judge_the_whole;
use ghcn_fields::Memory;
use ghcn_series::{Data, Warnings};
use rank_check::{Verdict, check, check_by, verdict_of_one_element};
use rank_input::{Fault, Question, workers_for};
use rank_papers::{papers_are_found, papers_are_said, papers_of_one_element};
use rank_parts::{PartVerdict, check_part, part_verdict_of_one_element};
use rank_query::Query;
use std::alloc::Global;
use std::thread::Threads;

/// Checks a report and a certificate of a query, whatever program made them, over a station list and
/// daily files: accepted if and only if the report is the right one and the certificate a right one.
///
/// The files are the texts of `ghcnd-stations.txt` and of `.dly` files, uncompressed. An error is the
/// first in the order: query, stations, number of files, files and lines in order.
pub fn judge(
    alloc: Global,
    stations: &[u8],
    files: &[&[u8]],
    query: &str,
    report: &[u8],
    certificate: &[u8],
) -> Result<Verdict, Fault>
    ensures ok { IfOk result (IsJudged
        query.now stations.now (map (λ file. file.now) files.now) report.now certificate.now) }
    ensures err { IfErr result (λ fault.
        IsRefusal is_memory fault (read_input query.now stations.now (map (λ file. file.now) files.now))) }
{
    let question = Question::of_files(alloc, query, stations, files);
    let (verdict, _warnings) = judge_intake(alloc, question, report, certificate)?;
    Ok(verdict)
}

/// Checks a report and a certificate of a whole archive against the station list and the daily files of
/// some of its stations, as far as these show.
///
/// Both are right for the whole if each part accepts them, the numbers of the parts' series
/// add up to that of the certificate's lines, no station is in two parts and the files together have
/// no error. Files and errors are those of `judge`.
pub fn judge_part(
    alloc: Global,
    stations: &[u8],
    files: &[&[u8]],
    query: &str,
    report: &[u8],
    certificate: &[u8],
) -> Result<PartVerdict, Fault>
    ensures ok { IfOk result (IsJudgedByPart
        query.now stations.now (map (λ file. file.now) files.now) report.now certificate.now) }
    ensures err { IfErr result (λ fault.
        IsRefusal is_memory fault (read_input query.now stations.now (map (λ file. file.now) files.now))) }
    ensures whole { PartsJudgeTheWhole }
{
    // Clause `whole` is the law.
    parts_judge_the_whole();
    let question = Question::of_files(alloc, query, stations, files);
    let (verdict, _warnings) = judge_part_intake(alloc, question, report, certificate)?;
    Ok(verdict)
}

/// Checks a report and a certificate against what was given: as `judge_part` does if that is a part of
/// their files, and otherwise as `judge` does, by at most that many workers. Returns the foreign files and the odd
/// lines too.
pub fn judge_as<R: Threads + Sync>(
    rt: &R,
    alloc: Global,
    question: Question,
    part: bool,
    report: &[u8],
    certificate: &[u8],
    workers: u64,
) -> Result<(Judgement, Warnings), Fault>
    requires { HasTakenSome question }
    ensures ok { IfOk result (λ judged. JudgesInputAs part question report.now certificate.now judged.0) }
    ensures warnings { IfOk result (λ judged. AreWarningsOf question judged.1) }
    ensures err { IfErr result (RefusesInput question) }
{
    if part {
        let (verdict, warnings) = judge_part_intake(alloc, question, report, certificate)?;
        return Ok((Judgement::Part(verdict), warnings));
    }
    let (verdict, warnings) = judge_intake_by(rt, alloc, question, report, certificate, workers)?;
    Ok((Judgement::Whole(verdict), warnings))
}

/// The same as `judge_intake`, by at most that many workers, or by fewer if little was given.
fn judge_intake_by<R: Threads + Sync>(
    rt: &R,
    alloc: Global,
    question: Question,
    report: &[u8],
    certificate: &[u8],
    workers: u64,
) -> Result<(Verdict, Warnings), Fault>
    requires { HasTakenSome question }
    ensures ok { IfOk result (λ judged. JudgesInput question report.now certificate.now judged.0) }
    ensures warnings { IfOk result (λ judged. AreWarningsOf question judged.1) }
    ensures err { IfErr result (RefusesInput question) }
{
    let started = workers_for(workers.clamp(1, 64), question.files.bytes);
    let taken = question.finish()?;
    // As in `judge_intake`.
    papers_of_one_element();
    papers_are_said();
    verdict_of_one_element();
    let verdict = judge_dataset_by(
        rt,
        alloc,
        &taken.dataset,
        &taken.query,
        report,
        certificate,
        started,
    )?;
    Ok((verdict, taken.warnings))
}

/// Checks a report and a certificate against what was given, as `judge` does. Returns the foreign files and
/// the odd lines too.
pub fn judge_intake(
    alloc: Global,
    question: Question,
    report: &[u8],
    certificate: &[u8],
) -> Result<(Verdict, Warnings), Fault>
    requires { HasTakenSome question }
    ensures ok { IfOk result (λ judged. JudgesInput question report.now certificate.now judged.0) }
    ensures warnings { IfOk result (λ judged. AreWarningsOf question judged.1) }
    ensures err { IfErr result (RefusesInput question) }
{
    let taken = question.finish()?;
    // The data hold the query's element alone: a verdict on them is one on all lines.
    papers_of_one_element();
    papers_are_said();
    verdict_of_one_element();
    let verdict = judge_dataset(alloc, &taken.dataset, &taken.query, report, certificate)?;
    Ok((verdict, taken.warnings))
}

/// Checks a report and a certificate of a query against some data.
fn judge_dataset(
    alloc: Global,
    dataset: &Data,
    query: &Query,
    report: &[u8],
    certificate: &[u8],
) -> Result<Verdict, Memory>
    ensures verdict { IfOk result (λ found.
        found ≡ tests.verdict query.now dataset.now report.now certificate.now) }
    ensures accepted { IfOk result (λ found. (found ≡ Verdict.Accepted)
        ↔ (IsRightReportFor query.now dataset.now report.now
        × (version : ℕ) × IsRightCertificateFor version query.now dataset.now certificate.now)) }
{
    // `check` says what a report and a certificate are over the data, and the law what they are by what is
    // best.
    papers_are_found();
    let (_stations, _k) = (dataset.stations(), query.k());
    check(alloc, dataset, query, report, certificate)
}

/// The same by at most that many workers.
pub(crate) fn judge_dataset_by<R: Threads + Sync>(
    rt: &R,
    alloc: Global,
    dataset: &Data,
    query: &Query,
    report: &[u8],
    certificate: &[u8],
    workers: u64,
) -> Result<Verdict, Memory>
    ensures verdict { IfOk result (λ found.
        found ≡ tests.verdict query.now dataset.now report.now certificate.now) }
    ensures accepted { IfOk result (λ found. (found ≡ Verdict.Accepted)
        ↔ (IsRightReportFor query.now dataset.now report.now
        × (version : ℕ) × IsRightCertificateFor version query.now dataset.now certificate.now)) }
{
    // As in `judge_dataset`.
    papers_are_found();
    let (_stations, _k) = (dataset.stations(), query.k());
    check_by(rt, alloc, dataset, query, report, certificate, workers)
}

/// Checks a report and a certificate against what was given, as `judge_part` does. Returns the foreign files
/// and the odd lines too.
pub fn judge_part_intake(
    alloc: Global,
    question: Question,
    report: &[u8],
    certificate: &[u8],
) -> Result<(PartVerdict, Warnings), Fault>
    requires { HasTakenSome question }
    ensures ok { IfOk result (λ judged. JudgesPart question report.now certificate.now judged.0) }
    ensures warnings { IfOk result (λ judged. AreWarningsOf question judged.1) }
    ensures err { IfErr result (RefusesInput question) }
{
    let taken = question.finish()?;
    // The data hold the query's element alone: a verdict on them is one on all lines.
    part_verdict_of_one_element();
    let verdict = check_part(alloc, &taken.dataset, &taken.query, report, certificate)?;
    Ok((verdict, taken.warnings))
}
