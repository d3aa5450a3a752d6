//! The ranking, from the bytes of the files to the bytes of the report and the certificate, in threads
//! or on one.

ghost use Rattle.std.specs.Prelude.{◌≡◌, ◌<◌, true, Err, IfOk, IfErr, map};
ghost use Rattle.ghcn_series.specs.Held.{IsContents};
ghost use Rattle.extremes.specs.Meaning.Answer.{Answers};
ghost use Rattle.extremes.specs.Answer.{ArePapersOfPlan, AreRightFor, IsCrewed, IsFaultless};
ghost use Rattle.extremes.specs.Answer.{IsOfCrew, IsOfOneWorker, IsSerial, SerialPapersAreOne};
ghost use Rattle.rank_papers.specs.Certificate.{certificate_of_best};
ghost use Rattle.rank_papers.specs.PlanPapers.{IsMeasuredCertificate};
ghost use Rattle.ghcn_fields.specs.Refusals.{IsRefusal};
ghost use Rattle.rank_input.specs.Input.{is_crew, is_guess, read_run, is_memory};
ghost use Rattle.rank_input.specs.Taken.{HasTakenSome, AreWarningsOf, RefusesInput};
ghost use Rattle.extremes.specs.Runs.{AnswersInput, CrewsInput, FaultlessInput};
ghost use Rattle.rank_sched.specs.Answers.{IsAnswerOfPlan};
ghost use Rattle.rank_sched.specs.Plan.{planned};

use crate::papers::Papers;
use ghcn_fields::Memory;
use ghcn_series::{Data, Warnings};
use rank_crew::{Gate, crew, survey};
use rank_input::{Fault, Question, TakenInput, check_words};
use rank_papers::{certificate, papers_are_found, papers_are_said, papers_of_one_element, report};
use rank_query::Query;
use rank_sched::{Answer, Plan, ends_are_sound, run_alone, runs_are_sound};
use rank_scores::one_element_is_enough;
use std::alloc::Global;
use std::sync::Wait;
use std::thread::Threads;

/// Ranks the candidates of a query over a station list and daily files by 1 to 64 workers in
/// threads: a report of the k best, and a certificate that accounts for each series.
///
/// The files are the texts of `ghcnd-stations.txt` and of `.dly` files, uncompressed. The guess is
/// a score, in the raw unit of the data, that the k-th best is supposed to reach: a good one saves
/// work, and a wrong one changes nothing in the report. The report is that of `rank_serial`,
/// whatever the number of workers and the order of their steps; which series are skipped
/// depends on both. The workers call the gate. An error is the first in the order: number of
/// workers, guess, query, stations, number of files, files and lines in order.
pub fn rank<R: Threads + Wait + AllocGlobal + Sync, G: Gate + Sync>(
    rt: &R,
    stations: &[u8],
    files: &[&[u8]],
    query: &str,
    workers: u64,
    guess: Option<i64>,
    gate: &G,
) -> Result<Papers, Fault>
    ensures ok { IfOk result (Answers query.now stations.now (map (λ file. file.now) files.now)) }
    ensures faultless { IfOk result (λ papers.
        IsFaultless query.now stations.now (map (λ file. file.now) files.now)) }
    ensures workers { IfOk result (λ papers. is_crew workers ≡ true) }
    ensures guess { IfOk result (λ papers. is_guess guess ≡ true) }
    ensures crew { IfOk result (IsCrewed workers guess query.now stations.now (map (λ file. file.now) files.now)) }
    ensures err { IfErr result (λ fault.
        IsRefusal is_memory fault (read_run workers guess query.now stations.now (map (λ file. file.now) files.now))) }
{
    check_words(workers, guess)?;
    let question = Question::of_files(rt.alloc(), query, stations, files);
    rank_intake(rt, question, workers, guess, gate).answer
}

/// What a ranking returns, and the data that it ranked.
#[derive(Drop)]
pub struct Ranked {
    /// The report and the certificate, or the first error.
    pub answer: Result<Papers, Fault>,
    /// The foreign files and the odd lines: none if there was an error.
    pub warnings: Warnings,
    /// Nothing if there was an error in what was given. To free many series takes a while, so a
    /// caller may use the answer first.
    pub dataset: Option<Data>,
}

/// Ranks the candidates of a query over what was given, as `rank` does.
pub fn rank_intake<R: Threads + Wait + AllocGlobal + Sync, G: Gate + Sync>(
    rt: &R,
    question: Question,
    workers: u64,
    guess: Option<i64>,
    gate: &G,
) -> Ranked
    requires taken { HasTakenSome question }
    requires workers { is_crew workers ≡ true }
    requires guess { is_guess guess ≡ true }
    ensures ok { IfOk result.answer (AnswersInput question) }
    ensures faultless { IfOk result.answer (λ papers. FaultlessInput question) }
    ensures crew { IfOk result.answer (CrewsInput question workers guess) }
    ensures warnings { IfOk result.answer (λ papers. AreWarningsOf question result.warnings) }
    ensures err { IfErr result.answer (RefusesInput question) }
{
    match question.finish() {
        Ok(
            TakenInput {
                query,
                dataset,
                warnings,
            },
        ) => {
            // The data hold the query's element alone: what is right for them is so for all lines.
            papers_of_one_element();
            papers_are_said();
            one_element_is_enough();
            let answer = ranked_by_crew(rt, &dataset, &query, workers, guess, gate);
            Ranked {
                answer,
                warnings,
                dataset: Some(dataset),
            }
        }
        Err(fault) => without_data(fault),
    }
}

/// What a ranking returns that has no data.
pub(crate) fn without_data(fault: Fault) -> Ranked
    ensures { result.answer ≡ Err fault }
{
    Ranked {
        answer: Err(fault),
        warnings: Warnings::none(),
        dataset: None,
    }
}

/// Ranks the candidates of a query over a station list and daily files: a report of the k best, and
/// a certificate that accounts for each series.
///
/// The files are the texts of `ghcnd-stations.txt` and of `.dly` files, uncompressed. The guess is
/// a score, in the raw unit of the data, that the k-th best is supposed to reach: a good one saves
/// work, and a wrong one changes nothing in the report. An error is the first in the order: guess,
/// query, stations, number of files, files and lines in order.
pub fn rank_serial(
    alloc: Global,
    stations: &[u8],
    files: &[&[u8]],
    query: &str,
    guess: Option<i64>,
) -> Result<Papers, Fault>
    ensures ok { IfOk result (Answers query.now stations.now (map (λ file. file.now) files.now)) }
    ensures faultless { IfOk result (λ papers.
        IsFaultless query.now stations.now (map (λ file. file.now) files.now)) }
    ensures guess { IfOk result (λ papers. is_guess guess ≡ true) }
    ensures serial { IfOk result (IsSerial guess query.now stations.now (map (λ file. file.now) files.now)) }
    ensures err { IfErr result (λ fault.
        IsRefusal is_memory fault (read_run 1 guess query.now stations.now (map (λ file. file.now) files.now))) }
{
    check_words(1, guess)?;
    let question = Question::of_files(alloc, query, stations, files);
    let taken = question.finish()?;
    // The data hold the query's element alone: what is right for them is right for all lines.
    papers_of_one_element();
    papers_are_said();
    one_element_is_enough();
    Ok(ranked_alone(alloc, &taken.dataset, &taken.query, guess)?)
}

/// What `rank_serial` returns is an exact function of the input: two reports, two certificates and
/// two numbers of lines of unlisted stations are the same.
pub fn serial_papers_are_one()
    ensures { SerialPapersAreOne }
{
    // The report is that of the best, and the one run of one worker fixes the certificate.
    papers_are_found();
    runs_are_sound();
}

/// The report and the certificate of a query, from a run of one worker that begins with a guess or none.
fn ranked_alone(
    alloc: Global,
    dataset: &Data,
    query: &Query,
    guess: Option<i64>,
) -> Result<Papers, Memory>
    requires guess { is_guess guess ≡ true }
    requires contents { IsContents dataset.now }
    ensures right { IfOk result (AreRightFor query.now dataset.now) }
    ensures bounds { IfOk result (λ papers. IsMeasuredCertificate query.now dataset.now papers.certificate.items) }
    ensures alone { IfOk result (λ papers.
        IsOfOneWorker (planned query.now dataset.now) guess papers.certificate.items) }
{
    // A report and a certificate of the best by the plan are right by what is best.
    papers_are_found();
    let plan = Plan::new(alloc, dataset, query)?;
    let answer = run_alone(alloc, &plan, guess)?;
    papers_of(alloc, &plan, &answer, dataset.unlisted())
}

/// The report and the certificate of a query, from a run of some workers in threads.
pub(crate) fn ranked_by_crew<R: Threads + Wait + AllocGlobal + Sync, G: Gate + Sync>(
    rt: &R,
    dataset: &Data,
    query: &Query,
    workers: u64,
    guess: Option<i64>,
    gate: &G,
) -> Result<Papers, Fault>
    requires crew { is_crew workers ≡ true }
    requires guess { is_guess guess ≡ true }
    requires contents { IsContents dataset.now }
    ensures ok { IfOk result (AreRightFor query.now dataset.now) }
    ensures crew { IfOk result (λ papers. IsMeasuredCertificate query.now dataset.now papers.certificate.items
        × IsOfCrew (planned query.now dataset.now) guess workers papers.certificate.items) }
    ensures err { IfErr result (λ fault. is_memory fault ≡ true) }
{
    // Every schedule ends soundly, and a report and a certificate of the best by the plan are right by
    // what is best.
    ends_are_sound();
    papers_are_found();
    let plan = survey(rt, rt.alloc(), dataset, query, workers, gate)?;
    let answer = crew(rt, rt.alloc(), &plan, workers, guess, gate)?;
    Ok(papers_of(rt.alloc(), &plan, &answer, dataset.unlisted())?)
}

/// The report and the certificate of a plan's answer, and how many lines were skipped.
fn papers_of(
    alloc: Global,
    plan: &Plan<'_>,
    answer: &Answer,
    unlisted: u64,
) -> Result<Papers, Memory>
    requires { IsAnswerOfPlan plan.now answer.now }
    ensures plan { IfOk result (ArePapersOfPlan plan.now unlisted) }
    ensures printed { IfOk result (λ papers. papers.certificate.items
        ≡ certificate_of_best plan.now.query answer.now.best.items answer.now.lines.items) }
{
    Ok(Papers {
        report: report(alloc, plan, answer)?,
        certificate: certificate(alloc, plan, answer)?,
        unlisted,
    })
}
