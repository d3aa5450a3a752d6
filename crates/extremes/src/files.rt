//! Ranking, merging, checking and describing what the files of an archive hold, and making tables of it.

ghost use Rattle.std.specs.Prelude.{◌≡◌, ◌≤◌, [], IfOk, IfErr, OnOk, length, map, option_map};
ghost use Rattle.std.specs.List.{AllZip};
ghost use Rattle.std.specs.Vec.{vec_capacity};
ghost use Rattle.rank_input.specs.Feeding.{AreFilesOf, AreOpened, StopsAt};
ghost use Rattle.rank_input.specs.Taken.{HasTakenSome, AreWarningsOf};
ghost use Rattle.extremes.specs.Runs.{RanksFiles, JudgesFiles, RanksInput, ranking_paths, judging_paths};
ghost use Rattle.extremes.specs.Describes.{DescribesFiles, describing_paths};
ghost use Rattle.extremes.specs.Tables.{IsListOf, TablesFiles, known_report, list_paths, report_paths, tabling_paths};
ghost use Rattle.extremes.specs.Merges.{AreBothOf, MergesFiles, known_part, part_paths, parts_paths, texts_of};

use crate::describe::{DescriptionText, describe_intake};
use crate::judge::judge_as;
use crate::judgement::Judgement;
use crate::merge::{MergingFault, PartTexts, merge_texts};
use crate::papers::Papers;
use crate::rank::{self, Ranked, rank_intake};
use crate::table::{TableText, TablingFault, table_texts};
use command_line::{Part, TableArguments};
use ghcn_description::RowDescriber;
use ghcn_fields::Memory;
use ghcn_files::Keep;
use ghcn_series::Warnings;
use rank_crew::Open;
use rank_input::{
    Archive, Daily, Fault, Intake, Question, check_words, list_path, piece_room, read_station_list,
    read_whole, take_files, workers_for,
};
use rank_merge::MergeFault;
use rank_table::TableFault;
use std::alloc::Global;
use std::sync::Wait;
use std::thread::Threads;

/// What is ranked: files, named by their paths, for a query.
#[derive(Drop)]
pub(crate) struct Ranking {
    pub(crate) stations: String,
    pub(crate) files: Vec<String>,
    pub(crate) query: String,
    pub(crate) workers: u64,
    pub(crate) guess: Option<i64>,
}

/// What is checked: a report and a certificate for a query, by files, all named by their paths.
#[derive(Drop)]
pub(crate) struct Judging {
    pub(crate) stations: String,
    pub(crate) files: Vec<String>,
    pub(crate) query: String,
    /// How many threads may read the files.
    pub(crate) workers: u64,
    pub(crate) papers: Part,
    /// Whether the files are a part of those that the report and the certificate cover.
    pub(crate) part: bool,
}

/// What is described: files, named by their paths.
#[derive(Drop)]
pub(crate) struct Describing {
    pub(crate) stations: String,
    pub(crate) files: Vec<String>,
    /// How many threads may read the files.
    pub(crate) workers: u64,
}

/// Reads the station list and then the daily files in order, and ranks them, or returns the path of
/// the first file that can't be read.
pub(crate) fn rank_files<'p, R: Threads + Wait + AllocGlobal + Sync, A: Archive<File: Send> + Sync>(
    rt: &R,
    archive: &A,
    ranking: &'p Ranking,
) -> Result<Ranked, &'p str>
    ensures ranks { IfOk result (λ ranked.
        RanksFiles (A.bytes_of archive.now) (A.opens archive.now) ranking.now ranked.answer ranked.warnings) }
    ensures stopped { IfErr result (λ path. StopsAt (A.opens archive.now) (ranking_paths ranking.now) path.now) }
{
    let alloc = rt.alloc();
    let Ok(stations) = read_station_list(rt, alloc, archive, &ranking.stations, ranking.workers)
    else {
        return Err(&ranking.stations);
    };
    let Ok(mut room) = piece_room(alloc) else {
        return Ok(rank::without_data(Fault::Memory(Memory)));
    };
    let question = Question::of_paths(
        rt,
        archive,
        &ranking.query,
        &stations,
        &ranking.files,
        ranking.workers,
        &mut room,
    )?;
    Ok(rank_fed(rt, question, ranking.workers, ranking.guess))
}

/// Ranks what was fed, by as many of the workers that are asked for as are worth starting.
fn rank_fed<R: Threads + Wait + AllocGlobal + Sync>(
    rt: &R,
    question: Question,
    workers: u64,
    guess: Option<i64>,
) -> Ranked
    requires { HasTakenSome question }
    ensures ranks { RanksInput question workers guess result.answer }
    ensures warnings { IfOk result.answer (λ papers. AreWarningsOf question result.warnings) }
{
    match check_words(workers, guess) {
        Ok(()) => {
            let started = workers_for(workers, question.files.bytes);
            rank_intake(rt, question, started, guess, &Open)
        }
        Err(fault) => rank::without_data(fault),
    }
}

/// Reads the reports and certificates of the parts in order, and merges them, or returns the path of the
/// first one that can't be read.
pub(crate) fn merge_files<'p, A: Archive>(
    alloc: Global,
    archive: &A,
    query: &str,
    parts: &'p [Part],
) -> Result<Result<Papers, MergingFault>, &'p str>
    ensures merges { IfOk result (MergesFiles (A.bytes_of archive.now) (A.opens archive.now) query.now parts.now) }
    ensures stopped { IfErr result (λ path. StopsAt (A.opens archive.now) (parts_paths parts.now) path.now) }
{
    let Ok(mut texts) = Vec::with_capacity(alloc, parts.len()) else {
        return Ok(Err(MergingFault::Parts(MergeFault::Memory(Memory))));
    };
    read_parts(alloc, archive, parts, &mut texts)?;
    Ok(merge_texts(alloc, query, texts.as_slice()))
}

/// Reads the reports and certificates of the parts in order into a list that has room for them, or returns
/// the path of the first one that can't be read.
fn read_parts<'p, A: Archive>(
    alloc: Global,
    archive: &A,
    parts: &'p [Part],
    texts: &mut Vec<PartTexts>,
) -> Result<(), &'p str>
    requires none { texts.old.items ≡ [] }
    requires room { length parts.now ≤ vec_capacity texts.old }
    ensures read { OnOk result (AllZip AreBothOf
        (map (known_part (A.bytes_of archive.now)) parts.now) (texts_of texts.new.items)) }
    ensures opened { OnOk result (AreOpened (A.opens archive.now) (parts_paths parts.now)) }
    ensures stopped { IfErr result (λ path. StopsAt (A.opens archive.now) (parts_paths parts.now) path.now) }
{
    for part in parts {
        let read = read_part(alloc, archive, part)?;
        texts.push_reserved(read);
    }
    Ok(())
}

/// Reads the report and then the certificate of a part, or returns the path of the one that can't be read.
fn read_part<'p, A: Archive>(
    alloc: Global,
    archive: &A,
    part: &'p Part,
) -> Result<PartTexts, &'p str>
    ensures read { IfOk result (λ texts. AreBothOf
        (known_part (A.bytes_of archive.now) part.now) (texts.report.items, texts.certificate.items)) }
    ensures opened { OnOk result (AreOpened (A.opens archive.now) (part_paths part.now)) }
    ensures stopped { IfErr result (λ path. StopsAt (A.opens archive.now) (part_paths part.now) path.now) }
{
    let Ok(report) = read_whole(alloc, archive, &part.report) else {
        return Err(&part.report);
    };
    let Ok(certificate) = read_whole(alloc, archive, &part.certificate) else {
        return Err(&part.certificate);
    };
    Ok(PartTexts {
        report,
        certificate,
    })
}

/// Reads the station list, the report, the certificate and then the daily files in order. Then it checks the
/// report and the certificate, as those of a whole if the files are a part of one, and returns the foreign
/// files and the odd lines too. Or it returns the path of the first file that can't be read.
pub(crate) fn judge_files<'p, R: Threads + AllocGlobal + Sync, A: Archive<File: Send> + Sync>(
    rt: &R,
    archive: &A,
    judging: &'p Judging,
) -> Result<Result<(Judgement, Warnings), Fault>, &'p str>
    ensures judges { IfOk result (JudgesFiles (A.bytes_of archive.now) (A.opens archive.now) judging.now) }
    ensures stopped { IfErr result (λ path. StopsAt (A.opens archive.now) (judging_paths judging.now) path.now) }
{
    let alloc = rt.alloc();
    let Ok(stations) = read_station_list(rt, alloc, archive, &judging.stations, judging.workers)
    else {
        return Err(&judging.stations);
    };
    let papers = read_part(alloc, archive, &judging.papers)?;
    let Ok(mut room) = piece_room(alloc) else {
        return Ok(Err(Fault::Memory(Memory)));
    };
    let question = Question::of_paths(
        rt,
        archive,
        &judging.query,
        &stations,
        &judging.files,
        judging.workers,
        &mut room,
    )?;
    Ok(judge_as(
        rt,
        alloc,
        question,
        judging.part,
        &papers.report,
        &papers.certificate,
        judging.workers,
    ))
}

/// Reads the station list and then the daily files in order, and describes them, or returns the path
/// of the first file that can't be read.
pub(crate) fn describe_files<'p, R: Threads + AllocGlobal + Sync, A: Archive<File: Send> + Sync>(
    rt: &R,
    archive: &A,
    describing: &'p Describing,
) -> Result<Result<DescriptionText, Fault>, &'p str>
    ensures describes { IfOk result (DescribesFiles (A.bytes_of archive.now) (A.opens archive.now) describing.now) }
    ensures stopped { IfErr result (λ path. StopsAt (A.opens archive.now) (describing_paths describing.now) path.now) }
{
    let alloc = rt.alloc();
    let Ok(stations) = read_station_list(
        rt,
        alloc,
        archive,
        &describing.stations,
        describing.workers,
    ) else {
        return Err(&describing.stations);
    };
    let Ok(mut room) = piece_room(alloc) else {
        return Ok(Err(Fault::Memory(Memory)));
    };
    let daily = Daily {
        stations: &stations,
        keep: Keep::nothing(),
        paths: &describing.files,
    };
    let intake: Intake<RowDescriber> = take_files(
        rt,
        alloc,
        archive,
        daily,
        describing.workers,
        &mut room,
    )?;
    Ok(describe_intake(alloc, intake))
}

/// Reads the station list, if one is named, and then the files of reports in order, and makes the table of
/// these reports. Or it returns the path of the first file that can't be read.
pub(crate) fn table_files<'p, A: Archive>(
    alloc: Global,
    archive: &A,
    asked: &'p TableArguments,
) -> Result<Result<TableText, TablingFault>, &'p str>
    ensures tables { IfOk result (TablesFiles (A.bytes_of archive.now) (A.opens archive.now) asked.now) }
    ensures stopped { IfErr result (λ path. StopsAt (A.opens archive.now) (tabling_paths asked.now) path.now) }
{
    let stations = read_list(alloc, archive, &asked.stations)?;
    let Ok(mut texts) = Vec::with_capacity(alloc, asked.reports.len()) else {
        return Ok(Err(TablingFault::Reports(TableFault::Memory(Memory))));
    };
    read_reports(alloc, archive, &asked.reports, &mut texts)?;
    Ok(table_texts(alloc, stations.as_deref(), texts.as_slice()))
}

/// Reads a station list, if one is named, or returns its path if it can't be read.
fn read_list<'p, A: Archive>(
    alloc: Global,
    archive: &A,
    path: &'p Option<String>,
) -> Result<Option<Vec<u8>>, &'p str>
    ensures read { IfOk result (λ text. IsListOf (A.bytes_of archive.now) path.now (option_map (λ t. t.items) text)) }
    ensures opened { OnOk result (AreOpened (A.opens archive.now) (list_paths path.now)) }
    ensures stopped { IfErr result (λ at. StopsAt (A.opens archive.now) (list_paths path.now) at.now) }
{
    let Some(path) = path else {
        return Ok(None);
    };
    match read_whole(alloc, archive, path) {
        Ok(text) => Ok(Some(text)),
        Err(_) => Err(path),
    }
}

/// Reads files of reports in order into a list that has room for them, or returns the path of the first
/// one that can't be read. `-` is standard input.
fn read_reports<'p, A: Archive>(
    alloc: Global,
    archive: &A,
    reports: &'p [String],
    texts: &mut Vec<Vec<u8>>,
) -> Result<(), &'p str>
    requires none { texts.old.items ≡ [] }
    requires room { length reports.now ≤ vec_capacity texts.old }
    ensures read { OnOk result (AreFilesOf (map (known_report (A.bytes_of archive.now)) reports.now)
        (map (λ t. t.items) texts.new.items)) }
    ensures opened { OnOk result (AreOpened (A.opens archive.now) (report_paths reports.now)) }
    ensures stopped { IfErr result (λ path. StopsAt (A.opens archive.now) (report_paths reports.now) path.now) }
{
    for report in reports {
        let path = list_path(report);
        let Ok(text) = read_whole(alloc, archive, path) else {
            return Err(path);
        };
        texts.push_reserved(text);
    }
    Ok(())
}
