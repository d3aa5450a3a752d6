//! Questions over whole archives: ranked, and the reports and the certificates checked.
use crate::archive::give_archive;
use crate::digest::Digest;
use crate::places::{Order, station_list};
use crate::random::Random;
use crate::weather::Weather;
use ghcn_fields::Memory;
use ghcn_series::Data;
use rank_check::check;
use rank_crew::{Open, crew, survey};
use rank_input::{Fault, Question, TakenInput};
use rank_papers::{certificate, report};
use rank_query::Query;
use std::alloc::Global;
use std::sync::Wait;
use std::thread::Threads;

/// What is asked of one archive after another.
const QUERIES: [&str; 8] = [
    "top 10 highest TMAX",
    "top 10 highest PRCP",
    "top 10 sum 3 PRCP",
    "top 100 lowest TMIN from 1981-01-01 to 2010-12-31",
    "top 10 wet",
    "top 1000 highest SNWD months 11..4",
    "top 10 dry box 10 -90 60 20",
    "top 10 hot 30",
];

/// A report and a certificate.
#[derive(Drop)]
pub(crate) struct Papers {
    pub(crate) report: Vec<u8>,
    pub(crate) certificate: Vec<u8>,
}

/// Ranks that many archives of that many stations.
pub(crate) fn rank_archives<R: Threads + Wait + AllocGlobal + Sync>(
    rt: &R,
    random: &mut Random,
    rounds: u32,
    stations: u32,
    digest: &mut Digest,
) -> Result<(), Fault> {
    let mut weather = Weather::new(rt.alloc(), random)?;
    for round in 0..rounds {
        let taken = take_archive(rt.alloc(), &mut weather, random, round, stations)?;
        add_counts(digest, &taken);
        let papers = papers_of(rt, rt.alloc(), &taken.dataset, &taken.query)?;
        digest.add(&papers.report);
        digest.add(&papers.certificate);
    }
    Ok(())
}

/// Ranks that many archives of that many stations, and checks the report and the certificate of each.
pub(crate) fn check_archives<R: Threads + Wait + AllocGlobal + Sync>(
    rt: &R,
    random: &mut Random,
    rounds: u32,
    stations: u32,
    digest: &mut Digest,
) -> Result<(), Fault> {
    let alloc = rt.alloc();
    let mut weather = Weather::new(alloc, random)?;
    for round in 0..rounds {
        let taken = take_archive(alloc, &mut weather, random, round, stations)?;
        add_counts(digest, &taken);
        let TakenInput { query, dataset, .. } = taken;
        let papers = papers_of(rt, alloc, &dataset, &query)?;
        let verdict = check(alloc, &dataset, &query, &papers.report, &papers.certificate)?;
        digest.add(&papers.report);
        digest.add(&papers.certificate);
        let text = format!(in alloc; "{verdict}").map_err(|_| Memory)?;
        digest.add(text.as_bytes());
    }
    Ok(())
}

/// What is asked in a round, and the data of its archive.
fn take_archive(
    alloc: Global,
    weather: &mut Weather,
    random: &mut Random,
    round: u32,
    stations: u32,
) -> Result<TakenInput, Fault> {
    let list = station_list(alloc, random, Order::Rising, stations)?;
    let mut question = Question::new(alloc, QUERIES[round as usize % 8], &list);
    give_archive(alloc, &mut question.files, weather, random, stations)?;
    question.finish()
}

/// Adds how many files are foreign and which is the first of them, and how many lines belong to unlisted
/// stations.
pub(crate) fn add_counts(digest: &mut Digest, taken: &TakenInput) {
    digest.add_number(taken.warnings.foreign.count);
    digest.add_number(taken.warnings.foreign.first.unwrap_or(u64::MAX));
    digest.add_number(taken.dataset.unlisted());
}

/// The report and the certificate of a query, ranked by one worker.
pub(crate) fn papers_of<R: Threads + Wait + Sync>(
    rt: &R,
    alloc: Global,
    dataset: &Data,
    query: &Query,
) -> Result<Papers, Memory> {
    let plan = survey(rt, alloc, dataset, query, 1, &Open)?;
    let answer = crew(rt, alloc, &plan, 1, None, &Open)?;
    Ok(Papers {
        report: report(alloc, &plan, &answer)?,
        certificate: certificate(alloc, &plan, &answer)?,
    })
}
