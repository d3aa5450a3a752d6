//! The jobs that users wait for, over inputs that follow from a seed, to be timed.
//!
//! Its arguments are a job, a seed, how many rounds, and a size. It prints a digest of all results.
#![tactic(auto)]

mod archive;
mod awkward;
mod describing;
mod digest;
mod merging;
mod place;
mod places;
mod random;
mod ranking;
mod weather;

use awkward::ask_awkward;
use describing::describe_archives;
use digest::Digest;
use ghcn_fields::Memory;
use merging::merge_parts;
use place::ask_about_stations;
use random::Random;
use rank_input::Fault;
use ranking::{check_archives, rank_archives};
use std::env;
use std::process::ExitCode;
use std::rt::Env;
use std::sync::Wait;
use std::thread::Threads;

fn main(rt: HostRuntime) -> ExitCode {
    match run(&rt) {
        Ok(digest) => {
            let _ = println!(rt; "digest {}", digest.value());
            ExitCode::SUCCESS
        }
        Err(fault) => {
            let _ = println!(rt; "{fault}");
            ExitCode::FAILURE
        }
    }
}

/// Does the job that the process's arguments name, or each one.
fn run<R: Env + Threads + Wait + AllocGlobal + Sync>(rt: &R) -> Result<Digest, Fault> {
    let words: Vec<String> = match env::args(rt) {
        Ok(words) => words.collect(rt.alloc()).map_err(|_| Memory)?,
        Err(_) => return Err(Fault::QueryEnds),
    };
    let [_, job, seed, rounds, size] = words.as_slice() else {
        return Err(Fault::QueryEnds);
    };
    let mut random = Random::of(number(seed) as u64);
    let mut digest = Digest::new();
    let (rounds, size) = (number(rounds), number(size));
    let is_each = job.as_str() == "each";
    if is_each || job.as_str() == "rank" {
        rank_archives(rt, &mut random, rounds, size, &mut digest)?;
    }
    if is_each || job.as_str() == "check" {
        check_archives(rt, &mut random, rounds, size, &mut digest)?;
    }
    if is_each || job.as_str() == "describe" {
        describe_archives(rt.alloc(), &mut random, rounds, size, &mut digest)?;
    }
    if is_each || job.as_str() == "place" {
        ask_about_stations(rt, &mut random, rounds, size, &mut digest)?;
    }
    if is_each || job.as_str() == "merge" {
        merge_parts(rt.alloc(), &mut random, rounds, size, &mut digest)?;
    }
    if is_each || job.as_str() == "awkward" {
        ask_awkward(rt, &mut random, rounds, size, &mut digest)?;
    }
    Ok(digest)
}

/// The number that an argument writes, or 0.
fn number(word: &str) -> u32 {
    word.parse::<u32>().unwrap_or(0)
}
