//! Inputs that are right but awkward: lines in no order, values that rise all the time, many small
//! files, files by year, and a station list in no order.

ghost use Rattle.std.specs.Prelude.{◌<◌, ◌≤◌};
ghost use Rattle.rank_input.specs.Taken.{HasTakenSome};

use crate::archive::{fill, give};
use crate::digest::Digest;
use crate::place::ask_about_one;
use crate::places::{Order, id_of, number_at, station_list};
use crate::random::Random;
use crate::ranking::{add_counts, papers_of};
use crate::weather::{LINE, Weather, front_of};
use ghcn_fields::Memory;
use rank_input::{Fault, Question};
use std::alloc::Global;
use std::sync::Wait;
use std::thread::Threads;

/// How many stations have their lines in no order, and how many have files by year.
const STATIONS: u32 = 20;

/// The first year of files by year.
const FIRST_YEAR: u16 = 1961;

/// Asks each awkward question that many times; years, files and stations are by the size.
pub(crate) fn ask_awkward<R: Threads + Wait + AllocGlobal + Sync>(
    rt: &R,
    random: &mut Random,
    rounds: u32,
    size: u32,
    digest: &mut Digest,
) -> Result<(), Fault> {
    let mut weather = Weather::new(rt.alloc(), random)?;
    let years = (size % 8000) as u16 + 1;
    for round in 0..rounds {
        let first_year = 1 + (round % 1000) as u16;
        rank_mixed(rt, &mut weather, random, digest)?;
        rank_rising(
            rt,
            "top 1000 highest TMAX",
            &mut weather,
            random,
            0,
            first_year,
            years,
            digest,
        )?;
        rank_rising(
            rt,
            "top 1000 sum 30 PRCP",
            &mut weather,
            random,
            2,
            first_year,
            years / 2 + 1,
            digest,
        )?;
        rank_small_files(rt, &mut weather, random, size.saturating_mul(40), digest)?;
        rank_years(rt, &mut weather, random, digest)?;
        ask_about_one(
            rt,
            &mut weather,
            random,
            Order::Mixed,
            size.saturating_mul(100),
            digest,
        )?;
    }
    Ok(())
}

/// Ranks what was taken.
fn rank_taken<R: Threads + Wait + AllocGlobal + Sync>(
    rt: &R,
    question: Question,
    digest: &mut Digest,
) -> Result<(), Fault>
    requires { HasTakenSome question }
{
    let taken = question.finish()?;
    add_counts(digest, &taken);
    let papers = papers_of(rt, rt.alloc(), &taken.dataset, &taken.query)?;
    digest.add(&papers.report);
    digest.add(&papers.certificate);
    Ok(())
}

/// Ranks the lines of some stations, which come in no order, in one file.
fn rank_mixed<R: Threads + Wait + AllocGlobal + Sync>(
    rt: &R,
    weather: &mut Weather,
    random: &mut Random,
    digest: &mut Digest,
) -> Result<(), Fault> {
    let alloc = rt.alloc();
    let list = station_list(alloc, random, Order::Rising, STATIONS)?;
    let mut file = Vec::new(alloc);
    for place in 0..STATIONS {
        let number = number_at(Order::Rising, place, STATIONS);
        let bits = random.next();
        fill(&mut file, weather, random, number, bits)?;
    }
    let mixed = mixed(alloc, &file, random)?;
    let mut question = Question::new(alloc, "top 10 highest PRCP", &list);
    give(&mut question.files, &mixed);
    rank_taken(rt, question, digest)
}

/// The lines of a file in no order.
fn mixed(alloc: Global, file: &[u8], random: &mut Random) -> Result<Vec<u8>, Memory> {
    let mut lines: Vec<&[u8]> = Vec::new(alloc);
    let mut left = file;
    while let Some((line, behind)) = left.split_at_checked(LINE) {
        lines.push(line)?;
        left = behind;
    }
    let mut mixed = Vec::with_capacity(alloc, file.len())?;
    for _ in 0..lines.len() {
        let place = (random.next() % (lines.len() as u64).max(1)) as usize;
        if place < lines.len() {
            mixed.extend_from_slice(lines.swap_remove(place))?;
        }
    }
    Ok(mixed)
}

/// Ranks the days of one station, each of which is at least as great as those before, for 1001 years at most. The seed
/// chooses the first value, and each round has another first year, so that no two rounds have the same file.
fn rank_rising<R: Threads + Wait + AllocGlobal + Sync>(
    rt: &R,
    query: &str,
    weather: &mut Weather,
    random: &mut Random,
    element: usize,
    first_year: u16,
    years: u16,
    digest: &mut Digest,
) -> Result<(), Fault>
    requires element { element < 8 }
    requires first_year { first_year ≤ 1000 }
    requires years { years < 9000 }
{
    let alloc = rt.alloc();
    let list = station_list(alloc, random, Order::Rising, 1)?;
    let id = id_of(0);
    let mut question = Question::new(alloc, query, &list);
    let mut file = Vec::new(alloc);
    let mut day = (random.next() % 11_000) as u32;
    for year in first_year..first_year + years {
        for month in 0..12 {
            day = day.saturating_add(31);
            weather.add_rising(
                &mut file,
                element,
                month,
                &front_of(&id, year, month),
                day / 32,
            )?;
        }
    }
    give(&mut question.files, &file);
    rank_taken(rt, question, digest)
}

/// Ranks that many files of one month, each of a station of its own.
fn rank_small_files<R: Threads + Wait + AllocGlobal + Sync>(
    rt: &R,
    weather: &mut Weather,
    random: &mut Random,
    files: u32,
    digest: &mut Digest,
) -> Result<(), Fault> {
    let alloc = rt.alloc();
    let list = station_list(alloc, random, Order::Rising, files)?;
    let mut question = Question::new(alloc, "top 10 highest TMAX", &list);
    let mut file = Vec::new(alloc);
    for place in 0..files {
        let id = id_of(number_at(Order::Rising, place, files));
        file.clear();
        weather.add_line(&mut file, 0, 6, &front_of(&id, 2020, 6), random.next())?;
        give(&mut question.files, &file);
    }
    rank_taken(rt, question, digest)
}

/// Ranks files of a year each, with the lines of all stations.
fn rank_years<R: Threads + Wait + AllocGlobal + Sync>(
    rt: &R,
    weather: &mut Weather,
    random: &mut Random,
    digest: &mut Digest,
) -> Result<(), Fault> {
    let alloc = rt.alloc();
    let list = station_list(alloc, random, Order::Rising, STATIONS)?;
    let mut question = Question::new(alloc, "top 10 sum 5 PRCP", &list);
    let mut file = Vec::new(alloc);
    for year in FIRST_YEAR..2021 {
        file.clear();
        for place in 0..STATIONS {
            let id = id_of(number_at(Order::Rising, place, STATIONS));
            for month in 0..12 {
                weather.add_line(
                    &mut file,
                    2,
                    month,
                    &front_of(&id, year, month),
                    random.next(),
                )?;
            }
        }
        give(&mut question.files, &file);
    }
    rank_taken(rt, question, digest)
}
