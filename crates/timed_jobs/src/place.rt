//! Questions about one place, with the whole station list.

use crate::archive::{fill, give};
use crate::digest::Digest;
use crate::places::{Order, id_of, number_at, station_list};
use crate::random::Random;
use crate::ranking::{add_counts, papers_of};
use crate::weather::Weather;
use ghcn_fields::Memory;
use rank_input::{Fault, Question};
use std::alloc::Global;
use std::sync::Wait;
use std::thread::Threads;

/// How many files a question has, its station's among them.
const FILES: u32 = 3;

/// Asks about that many stations, each of a list of its own of that many.
pub(crate) fn ask_about_stations<R: Threads + Wait + AllocGlobal + Sync>(
    rt: &R,
    random: &mut Random,
    rounds: u32,
    stations: u32,
    digest: &mut Digest,
) -> Result<(), Fault> {
    let mut weather = Weather::new(rt.alloc(), random)?;
    for _ in 0..rounds {
        ask_about_one(rt, &mut weather, random, Order::Rising, stations, digest)?;
    }
    Ok(())
}

/// Asks about one station of a list of that many.
pub(crate) fn ask_about_one<R: Threads + Wait + AllocGlobal + Sync>(
    rt: &R,
    weather: &mut Weather,
    random: &mut Random,
    order: Order,
    stations: u32,
    digest: &mut Digest,
) -> Result<(), Fault> {
    let alloc = rt.alloc();
    let list = station_list(alloc, random, order, stations)?;
    let place = (random.next() % stations.max(1) as u64) as u32;
    let query = query_of(alloc, &id_of(number_at(order, place, stations)))?;
    let mut question = Question::new(alloc, &query, &list);
    let mut file = Vec::new(alloc);
    for behind in 0..FILES {
        let near = place.wrapping_add(behind) % stations.max(1);
        let number = number_at(order, near, stations);
        file.clear();
        fill(&mut file, weather, random, number, random_bits(behind))?;
        give(&mut question.files, &file);
    }
    let taken = question.finish()?;
    add_counts(digest, &taken);
    let papers = papers_of(rt, alloc, &taken.dataset, &taken.query)?;
    digest.add(&papers.report);
    digest.add(&papers.certificate);
    Ok(())
}

/// The bits of a file: forty years of all elements.
fn random_bits(behind: u32) -> u64 {
    35 + 64 * (7 - behind as u64 % 4)
}

/// The hottest days of a station.
fn query_of(alloc: Global, id: &[u8; 11]) -> Result<String, Memory> {
    let mut query = String::from_str(alloc, "top 10 highest TMAX station ").map_err(|_| Memory)?;
    for byte in id {
        query.push(char::from(*byte)).map_err(|_| Memory)?;
    }
    Ok(query)
}
