//! A run of the program: reads its arguments, and does what they ask for.

ghost use Rattle.extremes.specs.Commands.{IsCommandRun, IsSampleRanked};
ghost use Rattle.extremes.specs.Environments.{environment};
ghost use Rattle.extremes.specs.FaultTexts.{fault_line, merging_line};
ghost use Rattle.extremes.specs.Targets.{ArePut, IsPut};
ghost use Rattle.extremes.specs.Messages.{ArePrintedLines, streams};
ghost use Rattle.extremes.specs.People.{IsForPeople, MayPrint};

use crate::commands::{run_describing, run_judging, run_merging, run_ranking, run_tabling};
use crate::ending::Ending;
use crate::messages::{Messages, SystemMessages};
use crate::papers::Papers;
use crate::print::{print_answer, print_text, refused};
use crate::rank::rank_serial;
use crate::run_each::run_ranking_each;
use crate::run_judge_each::run_judging_each;
use crate::sample;
use crate::system_target::SystemTarget;
use crate::target::Target;
use command_line::{Command, CommandFault, command};
use explanations::ForPeople;
use ghcn_fields::Memory;
use rank_input::{Archive, Fault, System};
use std::alloc::Global;
use std::fs::File;
use std::io::Write;
use std::rt::{Env, Files};
use std::sync::Wait;
use std::thread::Threads;
use std::time::Clock;
use std::{env, io};

/// Runs the command that the process's arguments ask for. If people read standard error, as on a
/// terminal, words for them follow its lines.
pub fn run<
    R: Files<File: Send, Dir: Send>
        + Env
        + Print
        + Eprint
        + Threads
        + Wait
        + AllocGlobal
        + Clock
        + Sync,
>(rt: &R, is_read: bool) -> Ending {
    let (_input, _output, _errors) = (placeholder(rt), placeholder(rt), placeholder(rt));
    let mut messages = SystemMessages(rt);
    let words = match words_after_name(rt) {
        Ok(words) => words,
        Err(error) => return no_words(&mut messages, &error),
    };
    match command(rt.alloc(), words) {
        Ok(asked) => {
            let mut target = SystemTarget::new(rt);
            run_for_people(
                rt,
                &System(rt),
                asked,
                is_read,
                &mut messages,
                &mut target,
                &mut io::writer(rt),
            )
        }
        Err(CommandFault::Words(text)) => {
            let _ = eprint!(rt; "{text}");
            Ending::Words
        }
        Err(CommandFault::Version(text)) => {
            print_text(&mut messages, text.as_bytes(), &mut io::writer(rt))
        }
        Err(CommandFault::Memory) => refused(&mut messages, Fault::Memory(Memory)),
    }
}

/// Runs a command, and then prints words for people, if they read standard error.
fn run_for_people<
    R: Threads + Wait + AllocGlobal + Clock + Eprint + Sync,
    A: Archive<File: Send> + Sync,
    M: Messages,
    T: Target,
    W: Write,
>(
    rt: &R,
    archive: &A,
    asked: Command,
    is_read: bool,
    messages: &mut M,
    target: &mut T,
    out: &mut W,
) -> Ending
    ensures { IsForPeople M.prints is_read messages.new (λ between. IsCommandRun
        (environment (A.bytes_of archive.now) (A.opens archive.now) (A.names_of archive.now)
        (T.one_file target.old) (T.other_text target.old)
        (IsPut T.opens T.abandons T.contents target.old target.new) (T.exists target.old)
        (ArePut T.creates T.abandons T.contents target.old target.new)
        fault_line merging_line
        (streams (ArePrintedLines M.prints messages.old between) (W.contents out.old) (W.contents out.new)))
        asked result) }
{
    let mut words = ForPeople::new(rt.alloc(), is_read);
    let ending = run_command(rt, archive, asked, messages, target, out, &mut words);
    if !is_read {
        return ending;
    }
    print_words(messages, words.lines());
    ending
}

/// Prints words for people as a line, if there are any.
fn print_words<M: Messages>(messages: &mut M, words: &str)
    ensures { MayPrint M.prints messages.old messages.new }
{
    if words.is_empty() {
        return;
    }
    messages.print(words);
}

/// Runs a command over the files of an archive, and prints the report or the verdict. A certificate
/// goes to a target, and the other lines go to standard error.
pub(crate) fn run_command<
    R: Threads + Wait + AllocGlobal + Clock + Eprint + Sync,
    A: Archive<File: Send> + Sync,
    M: Messages,
    T: Target,
    W: Write,
>(
    rt: &R,
    archive: &A,
    asked: Command,
    messages: &mut M,
    target: &mut T,
    out: &mut W,
    words: &mut ForPeople,
) -> Ending
    ensures { IsCommandRun (environment (A.bytes_of archive.now) (A.opens archive.now) (A.names_of archive.now)
        (T.one_file target.old) (T.other_text target.old)
        (IsPut T.opens T.abandons T.contents target.old target.new) (T.exists target.old)
        (ArePut T.creates T.abandons T.contents target.old target.new)
        fault_line merging_line
        (streams (ArePrintedLines M.prints messages.old messages.new) (W.contents out.old) (W.contents out.new)))
        asked result }
{
    let alloc = rt.alloc();
    match asked {
        Command::Sample => print_answer(messages, rank_sample(alloc), None, target, out),
        Command::Rank(asked) => run_ranking(rt, archive, asked, messages, target, out, words),
        Command::RankEach(asked) => {
            run_ranking_each(rt, archive, asked, messages, target, out, words)
        }
        Command::Merge(asked) => {
            run_merging(alloc, archive, &asked, messages, target, out, words)
        }
        Command::Check(asked) => run_judging(rt, archive, asked, messages, out, words),
        Command::CheckEach(asked) => run_judging_each(rt, archive, asked, messages, out, words),
        Command::Describe(asked) => run_describing(rt, archive, asked, messages, out, words),
        Command::Table(asked) => run_tabling(alloc, archive, &asked, messages, out, words),
    }
}

/// A file that can't be written, opened before any other: the root folder, which is always there.
/// Three of them take the places of standard descriptors that were closed before the program began,
/// so that the certificate takes none.
fn placeholder<R: Files>(rt: &R) -> io::Result<R::File> {
    File::open(rt, "/")
}

fn words_after_name<R: Env + AllocGlobal>(rt: &R) -> io::Result<Vec<String>> {
    let words = env::args(rt)?.skip(1).collect(rt.alloc())?;
    Ok(words)
}

/// Prints why there are no arguments: memory was refused, or one of them isn't text.
fn no_words<M: Messages>(messages: &mut M, error: &io::Error) -> Ending {
    if error.kind() == io::ErrorKind::OutOfMemory {
        return refused(messages, Fault::Memory(Memory));
    }
    messages.print("an argument isn't UTF-8 text");
    Ending::Words
}

/// Ranks the texts that are built in.
fn rank_sample(alloc: Global) -> Result<Papers, Fault>
    ensures { IsSampleRanked result }
{
    rank_serial(
        alloc,
        sample::STATIONS,
        &[sample::DAILY],
        sample::QUERY,
        None,
    )
}
