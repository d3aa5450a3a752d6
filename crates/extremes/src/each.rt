//! The rankings of some queries over one reading of files.

ghost use Rattle.std.specs.Prelude.{◌≡◌, ◌∷◌, ◌++◌, [], true, Err, IfErr, IfOk, OnOk, option_map};
ghost use Rattle.ghcn_series.specs.Gathered.{HasReadByRows};
ghost use Rattle.ghcn_series.specs.Held.{IsContents};
ghost use Rattle.rank_input.specs.Input.{is_crew};
ghost use Rattle.rank_input.specs.Takes.{HasTakenSome};
ghost use Rattle.extremes.specs.Each.{EndsTaken, IsRankedOver, RankingStops, RanksAll, RanksOne, WarnsOfTaken};
ghost use Rattle.extremes.specs.Targets.{ArePut};
ghost use Rattle.extremes.specs.declared.papers_folder.Stop.TheVariants as stops;

use crate::papers_folder::{Stop, put_papers};
use crate::rank::ranked_by_crew;
use crate::target::Target;
use ghcn_fields::Memory;
use ghcn_series::{Data, RowReader, Warnings};
use rank_crew::Open;
use rank_input::{Fault, Intake, needed_by};
use rank_papers::{papers_are_said, papers_of_one_element};
use rank_query::{Query, Score};
use rank_scores::{one_element_is_enough, own_element_among_others};
use std::alloc::Global;
use std::sync::Wait;
use std::thread::Threads;

/// If extremes are held, there are at least this many queries that read them for each element that is ranked. To hold
/// those of an element takes as many instructions as eight of its queries save by them.
const WORTH_HOLDING: usize = 10;

/// What the rankings of some queries return, and the data that they rank.
#[derive(Drop)]
pub struct RankedEach {
    /// The reports, one after another, or why the rankings stop.
    pub reports: Result<Vec<u8>, Stop>,
    /// The foreign files and the odd lines: none if there was an error.
    pub warnings: Warnings,
    /// How many lines of unlisted stations were skipped; 0 if there was an error.
    pub unlisted: u64,
    /// Nothing if there was an error in what was given.
    pub dataset: Option<Data>,
}

/// Ranks the candidates of each query over what was given, one query after the other. The intake kept
/// the elements of these queries. The certificate and the report of each query go to new
/// files of a folder, if there is one, before the next query is ranked.
pub(crate) fn rank_each<R: Threads + Wait + AllocGlobal + Sync, T: Target>(
    rt: &R,
    intake: Intake<RowReader>,
    queries: &[Query],
    workers: u64,
    folder: Option<&str>,
    target: &mut T,
) -> RankedEach
    requires taken { HasTakenSome HasReadByRows intake }
    requires workers { is_crew workers ≡ true }
    ensures ends { EndsTaken intake queries.now workers (option_map (λ f. f.now) folder.entry)
        (ArePut T.creates T.abandons T.contents target.old target.new) result.reports }
    ensures warnings { IfOk result.reports (λ text. WarnsOfTaken intake result.warnings result.unlisted) }
{
    match intake.finish() {
        Ok((dataset, warnings)) => {
            let dataset = with_extremes(rt.alloc(), dataset, queries);
            // The data hold the elements of all queries alone: what is right for them is so for all
            // lines.
            own_element_among_others();
            papers_of_one_element();
            papers_are_said();
            one_element_is_enough();
            RankedEach {
                reports: answer_each(rt, &dataset, queries, workers, folder, target),
                warnings,
                unlisted: dataset.unlisted(),
                dataset: Some(dataset),
            }
        }
        Err(fault) => none_ranked(fault),
    }
}

/// The data, which hold the least and the greatest value of each block if there are enough queries to make up
/// for it. Without memory for these, bounds are found by the values.
fn with_extremes(alloc: Global, dataset: Data, queries: &[Query]) -> Data
    ensures { result ≡ dataset }
{
    let mut dataset = dataset;
    let keep = needed_by(queries);
    let ranked = [keep.prcp, keep.snow, keep.snwd, keep.tmax, keep.tmin];
    let elements = ranked.iter().filter(|is_ranked| **is_ranked).count();
    let reading = queries.iter().filter(|query| reads_extremes(query)).count();
    if reading / WORTH_HOLDING >= elements {
        let _ = dataset.hold_extremes(alloc);
    }
    dataset
}

/// Whether the bounds of a query are found by extremes of blocks. Those of dry and wet spells are found by each day.
fn reads_extremes(query: &Query) -> bool {
    !matches!(query.score(), Score::Dry | Score::Wet)
}

/// What is returned if nothing is ranked.
pub(crate) fn none_ranked(fault: Fault) -> RankedEach
    ensures { result.reports ≡ Err (stops.Input fault) }
{
    RankedEach {
        reports: Err(Stop::Input(fault)),
        warnings: Warnings::none(),
        unlisted: 0,
        dataset: None,
    }
}

/// The reports of each query over the data, one after another. The certificate and the report of
/// each go to new files of a folder, if there is one.
fn answer_each<R: Threads + Wait + AllocGlobal + Sync, T: Target>(
    rt: &R,
    dataset: &Data,
    queries: &[Query],
    workers: u64,
    folder: Option<&str>,
    target: &mut T,
) -> Result<Vec<u8>, Stop>
    requires crew { is_crew workers ≡ true }
    requires contents { IsContents dataset.now }
    ensures ok { IfOk result (λ text. RanksAll (IsRankedOver workers dataset.now) queries.now
        (option_map (λ f. f.now) folder.entry) 1
        (ArePut T.creates T.abandons T.contents target.old target.new) text.items) }
    ensures stopped { IfErr result (RankingStops (IsRankedOver workers dataset.now) queries.now
        (option_map (λ f. f.now) folder.entry) 1
        (ArePut T.creates T.abandons T.contents target.old target.new)) }
{
    let mut reports = Vec::new(rt.alloc());
    let mut number: u64 = 0;
    for query in queries {
        number += 1;
        answer_one(
            rt,
            dataset,
            query,
            workers,
            folder,
            number,
            target,
            &mut reports,
        )?;
    }
    Ok(reports)
}

/// Ranks the candidates of a query over the data, and adds the report to a text. The certificate and
/// the report go to the files of this number in a folder, if there is one.
fn answer_one<R: Threads + Wait + AllocGlobal + Sync, T: Target>(
    rt: &R,
    dataset: &Data,
    query: &Query,
    workers: u64,
    folder: Option<&str>,
    number: u64,
    target: &mut T,
    reports: &mut Vec<u8>,
) -> Result<(), Stop>
    requires crew { is_crew workers ≡ true }
    requires contents { IsContents dataset.now }
    ensures ok { OnOk result (RanksOne (IsRankedOver workers dataset.now query.now)
        (option_map (λ f. f.now) folder.entry) number
        (ArePut T.creates T.abandons T.contents target.old target.new) reports.old.items reports.new.items) }
    ensures stopped { IfErr result (RankingStops (IsRankedOver workers dataset.now) (query.now ∷ [])
        (option_map (λ f. f.now) folder.entry) number
        (ArePut T.creates T.abandons T.contents target.old target.new)) }
{
    let papers = ranked_by_crew(rt, dataset, query, workers, None, &Open)?;
    put_papers(rt.alloc(), folder, number, &papers, target)?;
    append(&papers.report, reports)?;
    Ok(())
}

/// Adds a text to another.
fn append(more: &[u8], text: &mut Vec<u8>) -> Result<(), Memory>
    ensures { OnOk result (text.new.items ≡ text.old.items ++ more.now) }
{
    text.extend_from_slice(more)?;
    Ok(())
}
