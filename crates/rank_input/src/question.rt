//! What a run is asked, beside the files that it is asked of.

ghost use Rattle.std.specs.Prelude.{◌≡◌, ℕ, List, [], IfOk, IfErr, map, string_bytes};
ghost use Rattle.ghcn_files.specs.Elements.{only};
ghost use Rattle.rank_query.specs.Meaning.Asked.{score_element};
ghost use Rattle.rank_input.specs.Feeding.{StopsAt};
ghost use Rattle.rank_input.specs.Lists.{IsListText};
ghost use Rattle.rank_input.specs.Shares.{AsksWhole};
ghost use Rattle.rank_input.specs.Taken.{given, HasTaken, HasTakenSome};
ghost use Rattle.rank_input.specs.Taken.{AreWarningsOf, HoldsInput, RefusesInput, ReportsQuery};

use crate::archive::{Archive, feed_files};
use crate::fault::Fault;
use crate::intake::Intake;
use crate::list::StationList;
use crate::shares::{Daily, take_files};
use ghcn_files::Keep;
use ghcn_series::{Data, RowReader, Warnings};
use rank_query::Query;
use std::alloc::Global;
use std::thread::Threads;

/// What a run is asked, and what was read of all that it was given.
#[derive(Drop)]
pub struct TakenInput {
    /// What is asked.
    pub query: Query,
    /// What the query needs of the data.
    pub dataset: Data,
    /// The foreign ones among the daily files, and their odd lines.
    pub warnings: Warnings,
}

/// A query, and what was given so far of the files that it is asked of.
#[derive(Drop)]
pub struct Question {
    /// What is asked, or its error, which comes before those of the files.
    query: Result<Query, Fault>,
    /// Keeps the series of the query's element. If the query has an error, it reads nothing.
    pub files: Intake<RowReader>,
}

impl Question {
    /// Takes what is asked, and the whole station list.
    pub fn new(alloc: Global, query: &str, stations: &[u8]) -> Self
        ensures taken { HasTaken result (given query.now stations.now []) }
        ensures going { HasTakenSome result }
    {
        match Query::parse(query) {
            Ok(query) => {
                let files = Intake::new(alloc, stations, needed(&query));
                Question {
                    query: Ok(query),
                    files,
                }
            }
            Err(fault) => Question {
                query: Err(Fault::from(fault)),
                files: Intake::closed(),
            },
        }
    }

    /// Takes what is asked, the station list and all daily files.
    pub fn of_files(alloc: Global, query: &str, stations: &[u8], files: &[&[u8]]) -> Self
        ensures taken { HasTaken result (given query.now stations.now (map (λ file. file.now) files.now)) }
        ensures going { HasTakenSome result }
    {
        let mut question = Question::new(alloc, query, stations);
        for file in files {
            question.files.piece(file);
            question.files.end_of_file();
        }
        question
    }

    /// Takes what is asked, the station list and the daily files of some paths in their order, or returns the path of
    /// the first that can't be read. At most that many readers read them at once.
    pub fn of_paths<'p, R: Threads + AllocGlobal + Sync, A: Archive<File: Send> + Sync>(
        rt: &R,
        archive: &A,
        query: &str,
        stations: &StationList,
        paths: &'p [String],
        readers: u64,
        buffer: &mut [u8],
    ) -> Result<Self, &'p str>
        ensures asked { (text : List ℕ) → IsListText stations.now text
            → IfOk result (AsksWhole (A.bytes_of archive.now) (A.opens archive.now) query.now text paths.now) }
        ensures going { IfOk result HasTakenSome }
        ensures stopped { IfErr result (λ path.
            StopsAt (A.opens archive.now) (map string_bytes paths.now) path.now) }
    {
        match Query::parse(query) {
            Ok(query) => {
                let keep = needed(&query);
                let daily = Daily {
                    stations,
                    keep,
                    paths,
                };
                let files = take_files(rt, rt.alloc(), archive, daily, readers, buffer)?;
                Ok(Question {
                    query: Ok(query),
                    files,
                })
            }
            Err(fault) => {
                let mut files = Intake::closed();
                feed_files(archive, &mut files, paths, buffer)?;
                Ok(Question {
                    query: Err(Fault::from(fault)),
                    files,
                })
            }
        }
    }

    /// The query, what it needs of the data of all that was given, the foreign files and the odd lines; or the first
    /// error in the order: query, stations, number of daily files, files and lines in order. The
    /// current file is ended if it has a byte.
    pub fn finish(self) -> Result<TakenInput, Fault>
        requires { HasTakenSome self }
        ensures ok { IfOk result (λ taken. HoldsInput self taken.query taken.dataset) }
        ensures warnings { IfOk result (λ taken. AreWarningsOf self taken.warnings) }
        ensures err { IfErr result (RefusesInput self) }
        ensures query { ReportsQuery self result }
    {
        let Question { query, files } = self;
        let query = query?;
        let (dataset, warnings) = files.finish()?;
        Ok(TakenInput {
            query,
            dataset,
            warnings,
        })
    }
}

/// The elements whose values a query needs: its own.
fn needed(query: &Query) -> Keep
    ensures { result ≡ only (score_element query.now.score) }
{
    Keep::nothing().with(query.element())
}
