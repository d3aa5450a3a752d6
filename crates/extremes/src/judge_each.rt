//! The checks of the reports and the certificates of some queries over one reading of files.

ghost use Rattle.std.specs.Prelude.{◌≡◌, ◌++◌, length, IfErr, IfOk, OnOk};
ghost use Rattle.ghcn_series.specs.Gathered.{HasReadByRows};
ghost use Rattle.rank_input.specs.Takes.{HasTakenSome};
ghost use Rattle.extremes.specs.Ending.{ending_of};
ghost use Rattle.extremes.specs.JudgeEach.{AddsVerdict, HasVerdictsOf, IsJudgedOver, JudgesOver, JudgesTaken};
ghost use Rattle.extremes.specs.JudgeEach.{StopsJudging, then_ending};
ghost use Rattle.extremes.specs.PaperPaths.{all_paths, both_paths};
ghost use Rattle.extremes.specs.Printed.{judgement_line};

use crate::checked_papers::{JudgingStop, read_papers};
use crate::ending::Ending;
use crate::judge::judge_dataset_by;
use crate::judgement::{Judgement, ending};
use ghcn_fields::Memory;
use ghcn_series::{Data, RowReader, Warnings};
use rank_check::verdict_of_one_element;
use rank_input::{Archive, Intake};
use rank_papers::{papers_are_said, papers_of_one_element};
use rank_parts::{check_part, part_verdict_of_one_element};
use rank_query::Query;
use rank_scores::own_element_among_others;
use std::alloc::{AllocError, Global};
use std::thread::Threads;

/// What is said of the reports and the certificates of some queries.
#[derive(Debug, Drop)]
pub struct Verdicts {
    /// The line of each judgement, in the order of the queries.
    pub lines: Vec<u8>,
    /// How a run ends that returns these: it is done if all are accepted.
    pub ending: Ending,
}

/// The folder of the reports and the certificates that are checked.
#[derive(Clone, Copy)]
pub(crate) struct PapersToCheck<'f> {
    pub(crate) folder: &'f str,
    /// Whether the files are a part of those that the reports and the certificates cover.
    pub(crate) part: bool,
    /// By how many workers at most each query is checked.
    pub(crate) workers: u64,
}

/// Checks the report and the certificate of each query against what was given, as those of a whole if
/// the files are a part of one, and returns the foreign files and the odd lines too. The intake kept
/// the elements of these queries.
pub(crate) fn judge_each<R: Threads + Sync, A: Archive>(
    rt: &R,
    alloc: Global,
    archive: &A,
    intake: Intake<RowReader>,
    queries: &[Query],
    papers: PapersToCheck,
) -> Result<(Verdicts, Warnings), JudgingStop>
    requires { HasTakenSome HasReadByRows intake }
    ensures { JudgesTaken papers.entry.part (A.bytes_of archive.now) (A.opens archive.now) papers.entry.folder.now
        intake queries.now result }
{
    match intake.finish() {
        Ok((dataset, warnings)) => {
            // The data hold the elements of all queries alone: a verdict on them is one on all lines.
            own_element_among_others();
            papers_of_one_element();
            papers_are_said();
            verdict_of_one_element();
            part_verdict_of_one_element();
            let verdicts = verdicts_of_each(rt, alloc, archive, &dataset, queries, papers)?;
            Ok((verdicts, warnings))
        }
        Err(fault) => Err(JudgingStop::Input(fault)),
    }
}

/// The verdicts on the report and the certificate of each query over the data. They are read one pair
/// after the other, and one pair is held at a time.
fn verdicts_of_each<R: Threads + Sync, A: Archive>(
    rt: &R,
    alloc: Global,
    archive: &A,
    dataset: &Data,
    queries: &[Query],
    papers: PapersToCheck,
) -> Result<Verdicts, JudgingStop>
    ensures ok { IfOk result (HasVerdictsOf (JudgesOver papers.entry.part (A.bytes_of archive.now)
        (A.opens archive.now) papers.entry.folder.now dataset.now) queries.now) }
    ensures stopped { IfErr result (StopsJudging (A.opens archive.now)
        (all_paths papers.entry.folder.now 1 (length queries.now))) }
{
    let mut verdicts = Verdicts {
        lines: Vec::new(alloc),
        ending: Ending::Done,
    };
    let mut number: u64 = 0;
    for query in queries {
        number += 1;
        add_verdict(
            rt,
            alloc,
            archive,
            dataset,
            query,
            number,
            papers,
            &mut verdicts,
        )?;
    }
    Ok(verdicts)
}

/// Checks the report and the certificate of the query of this number over the data, and adds the
/// verdict to others.
fn add_verdict<R: Threads + Sync, A: Archive>(
    rt: &R,
    alloc: Global,
    archive: &A,
    dataset: &Data,
    query: &Query,
    number: u64,
    papers: PapersToCheck,
    verdicts: &mut Verdicts,
) -> Result<(), JudgingStop>
    ensures ok { OnOk result (AddsVerdict (JudgesOver papers.entry.part (A.bytes_of archive.now)
        (A.opens archive.now) papers.entry.folder.now dataset.now number query.now) verdicts.old verdicts.new) }
    ensures stopped { IfErr result (StopsJudging (A.opens archive.now)
        (both_paths papers.entry.folder.now number)) }
{
    let PapersToCheck {
        folder,
        part,
        workers,
    } = papers;
    let texts = read_papers(alloc, archive, folder, number)?;
    let judgement = judge_over(
        rt,
        alloc,
        dataset,
        query,
        part,
        &texts.report,
        &texts.certificate,
        workers,
    )?;
    add_judgement(alloc, &judgement, verdicts)?;
    Ok(())
}

/// Checks a report and a certificate of a query over the data, as those of a whole if the data are a
/// part of its.
fn judge_over<R: Threads + Sync>(
    rt: &R,
    alloc: Global,
    dataset: &Data,
    query: &Query,
    part: bool,
    report: &[u8],
    certificate: &[u8],
    workers: u64,
) -> Result<Judgement, Memory>
    ensures { IfOk result (IsJudgedOver part query.now dataset.now (report.now, certificate.now)) }
{
    if part {
        let verdict = check_part(alloc, dataset, query, report, certificate)?;
        return Ok(Judgement::Part(verdict));
    }
    let verdict = judge_dataset_by(rt, alloc, dataset, query, report, certificate, workers)?;
    Ok(Judgement::Whole(verdict))
}

/// Adds the line of a judgement to those of others. The run ends as the first of them that isn't
/// accepted.
fn add_judgement(
    alloc: Global,
    judgement: &Judgement,
    verdicts: &mut Verdicts,
) -> Result<(), AllocError>
    ensures lines { OnOk result (verdicts.new.lines.items
        ≡ verdicts.old.lines.items ++ judgement_line judgement.now) }
    ensures ending { OnOk result (verdicts.new.ending
        ≡ then_ending verdicts.old.ending (ending_of judgement.now)) }
{
    let line = format!(in alloc; "{judgement}\n")?;
    verdicts.lines.extend_from_slice(line.as_bytes())?;
    if verdicts.ending == Ending::Done {
        verdicts.ending = ending(judgement);
    }
    Ok(())
}
