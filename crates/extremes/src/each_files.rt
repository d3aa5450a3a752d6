//! The rankings of some queries over the files of an archive, which are read once.

ghost use Rattle.std.specs.Prelude.{◌≡◌, true, IfErr, IfOk, OnErr, option_map, string_bytes};
ghost use Rattle.rank_input.specs.Feeding.{StopsAt};
ghost use Rattle.rank_input.specs.Input.{is_crew};
ghost use Rattle.extremes.specs.EachRuns.{RanksEachOver, each_paths};
ghost use Rattle.extremes.specs.Targets.{ArePut};

use crate::each::{RankedEach, none_ranked, rank_each};
use crate::target::Target;
use ghcn_fields::Memory;
use ghcn_series::RowReader;
use progress::{Watch, Watched};
use rank_input::{
    Archive, Daily, Fault, Intake, needed_by, piece_room, read_station_list, take_files,
    workers_for,
};
use rank_query::Query;
use std::sync::Wait;
use std::thread::Threads;
use std::time::Clock;

/// What is ranked for each query of a list: files, named by their paths.
#[derive(Drop)]
pub(crate) struct EachRanking {
    pub(crate) stations: String,
    /// The list of queries as it was named.
    pub(crate) queries: String,
    /// The folder for the certificate and the report of each query, if they are wanted.
    pub(crate) folder: Option<String>,
    pub(crate) files: Vec<String>,
    pub(crate) workers: u64,
}

/// Ranks files for each query while a terminal shows how far reading has come, if that is asked for;
/// or returns the path of the first file that can't be read.
pub(crate) fn rank_each_watched<
    'p,
    R: Threads + Wait + AllocGlobal + Clock + Eprint + Sync,
    A: Archive<File: Send> + Sync,
    T: Target,
>(
    rt: &R,
    archive: &A,
    ranking: &'p EachRanking,
    queries: &[Query],
    shows: bool,
    target: &mut T,
) -> Result<RankedEach, &'p str>
    requires { is_crew ranking.now.workers ≡ true }
    ensures ranks { IfOk result (RanksEachOver (A.bytes_of archive.now) (A.opens archive.now)
        (ArePut T.creates T.abandons T.contents target.old target.new) ranking.now queries.now) }
    ensures stopped { IfErr result (λ path. StopsAt (A.opens archive.now) (each_paths ranking.now) path.now) }
    ensures kept { OnErr result (target.new ≡ target.old) }
{
    let first = [ranking.stations.as_str()];
    let watch = Watch::new(rt, shows, archive, &first, &ranking.files);
    let watched = Watched {
        archive,
        watch: &watch,
    };
    let ranked = rank_each_files(rt, &watched, ranking, queries, target);
    watch.end();
    ranked
}

/// Reads the station list and then the daily files in order, and ranks them for each query; or
/// returns the path of the first file that can't be read. It reads each file once.
fn rank_each_files<
    'p,
    R: Threads + Wait + AllocGlobal + Sync,
    A: Archive<File: Send> + Sync,
    T: Target,
>(
    rt: &R,
    archive: &A,
    ranking: &'p EachRanking,
    queries: &[Query],
    target: &mut T,
) -> Result<RankedEach, &'p str>
    requires { is_crew ranking.now.workers ≡ true }
    ensures ranks { IfOk result (RanksEachOver (A.bytes_of archive.now) (A.opens archive.now)
        (ArePut T.creates T.abandons T.contents target.old target.new) ranking.now queries.now) }
    ensures stopped { IfErr result (λ path. StopsAt (A.opens archive.now) (each_paths ranking.now) path.now) }
    ensures kept { OnErr result (target.new ≡ target.old) }
{
    let alloc = rt.alloc();
    let Ok(stations) = read_station_list(rt, alloc, archive, &ranking.stations, ranking.workers)
    else {
        return Err(&ranking.stations);
    };
    let Ok(mut room) = piece_room(alloc) else {
        return Ok(none_ranked(Fault::Memory(Memory)));
    };
    let daily = Daily {
        stations: &stations,
        keep: needed_by(queries),
        paths: &ranking.files,
    };
    let intake: Intake<RowReader> = take_files(
        rt,
        alloc,
        archive,
        daily,
        ranking.workers,
        &mut room,
    )?;
    let started = workers_for(ranking.workers, intake.bytes);
    let folder = folder_of(&ranking.folder);
    Ok(rank_each(rt, intake, queries, started, folder, target))
}

/// The folder of a run, if one is named.
fn folder_of(named: &Option<String>) -> Option<&str>
    ensures { option_map (λ folder. folder.now) result ≡ option_map string_bytes named.now }
{
    named.as_ref().map(|folder| folder.as_str())
}
