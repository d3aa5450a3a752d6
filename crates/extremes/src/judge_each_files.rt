//! The checks of the reports and the certificates of some queries over the files of an archive, which
//! are read once.

ghost use Rattle.std.specs.Prelude.{IfErr, IfOk};
ghost use Rattle.rank_input.specs.Feeding.{StopsAt};
ghost use Rattle.extremes.specs.JudgeEachRuns.{JudgesEachOver, data_paths};

use crate::checked_papers::JudgingStop;
use crate::judge_each::{PapersToCheck, Verdicts, judge_each};
use ghcn_fields::Memory;
use ghcn_series::{RowReader, Warnings};
use progress::{Watch, Watched};
use rank_input::{
    Archive, Daily, Fault, Intake, needed_by, piece_room, read_station_list, take_files,
    workers_for,
};
use rank_query::Query;
use std::thread::Threads;
use std::time::Clock;

/// What is checked for each query of a list: files, named by their paths, and a report and a
/// certificate in a folder.
#[derive(Drop)]
pub(crate) struct EachJudging {
    pub(crate) stations: String,
    /// The list of queries as it was named.
    pub(crate) queries: String,
    /// The folder with the report and the certificate of each query.
    pub(crate) folder: String,
    pub(crate) files: Vec<String>,
    /// How many threads may read the files.
    pub(crate) workers: u64,
    /// Whether the files are a part of those that the reports and the certificates cover.
    pub(crate) part: bool,
}

/// Checks the report and the certificate of each query while a terminal shows how far reading has
/// come, if that is asked for; or returns the path of the first file of the station list and the daily
/// files that can't be read.
pub(crate) fn judge_each_watched<
    'p,
    R: Threads + AllocGlobal + Clock + Eprint + Sync,
    A: Archive<File: Send> + Sync,
>(
    rt: &R,
    archive: &A,
    judging: &'p EachJudging,
    queries: &[Query],
    shows: bool,
) -> Result<Result<(Verdicts, Warnings), JudgingStop>, &'p str>
    ensures judges { IfOk result (JudgesEachOver (A.bytes_of archive.now) (A.opens archive.now) judging.now
        queries.now) }
    ensures stopped { IfErr result (λ path. StopsAt (A.opens archive.now) (data_paths judging.now) path.now) }
{
    let first = [judging.stations.as_str()];
    let watch = Watch::new(rt, shows, archive, &first, &judging.files);
    let watched = Watched {
        archive,
        watch: &watch,
    };
    let judged = judge_each_files(rt, &watched, judging, queries);
    watch.end();
    judged
}

/// Reads the station list and then the daily files in order, and then the report and the certificate
/// of each query, which it checks against them; or returns the path of the first file of the station
/// list and the daily files that can't be read. It reads each file once.
fn judge_each_files<'p, R: Threads + AllocGlobal + Sync, A: Archive<File: Send> + Sync>(
    rt: &R,
    archive: &A,
    judging: &'p EachJudging,
    queries: &[Query],
) -> Result<Result<(Verdicts, Warnings), JudgingStop>, &'p str>
    ensures judges { IfOk result (JudgesEachOver (A.bytes_of archive.now) (A.opens archive.now) judging.now
        queries.now) }
    ensures stopped { IfErr result (λ path. StopsAt (A.opens archive.now) (data_paths judging.now) path.now) }
{
    let alloc = rt.alloc();
    let Ok(stations) = read_station_list(rt, alloc, archive, &judging.stations, judging.workers)
    else {
        return Err(&judging.stations);
    };
    let Ok(mut room) = piece_room(alloc) else {
        return Ok(Err(JudgingStop::Input(Fault::Memory(Memory))));
    };
    let daily = Daily {
        stations: &stations,
        keep: needed_by(queries),
        paths: &judging.files,
    };
    let intake: Intake<RowReader> = take_files(
        rt,
        alloc,
        archive,
        daily,
        judging.workers,
        &mut room,
    )?;
    let papers = PapersToCheck {
        folder: &judging.folder,
        part: judging.part,
        workers: workers_for(judging.workers.clamp(1, 64), intake.bytes),
    };
    Ok(judge_each(rt, alloc, archive, intake, queries, papers))
}
