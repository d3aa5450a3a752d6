//! A run over a list of queries: it reads the list and then the files, ranks them for each query, and
//! prints the reports.

ghost use Rattle.std.specs.Prelude.{◌≡◌, true};
ghost use Rattle.rank_input.specs.Input.{is_crew};
ghost use Rattle.extremes.specs.EachRuns.{IsRankEachRun, RunsAsked, RunsAskedApart, RunsAskedInto, RunsEach, RunsListed};
ghost use Rattle.extremes.specs.Environments.{environment};
ghost use Rattle.extremes.specs.FaultTexts.{fault_line, merging_line};
ghost use Rattle.extremes.specs.Messages.{ArePrintedLines, streams};
ghost use Rattle.extremes.specs.Targets.{ArePut, IsPut};

use crate::commands::{daily_files, daily_paths, unnamed};
use crate::each_files::{EachRanking, rank_each_watched};
use crate::ending::Ending;
use crate::explained::explain_unwritten;
use crate::explained_each::{explain_each, explain_list, explain_options};
use crate::messages::Messages;
use crate::papers_folder::{first_paper_there, missing_folder};
use crate::print::{not_read, not_written, refused};
use crate::print_each::{print_each, refused_list};
use crate::target::Target;
use command_line::{NamedFiles, RankEachArguments};
use explanations::ForPeople;
use ghcn_fields::Memory;
use rank_input::{Archive, Fault, check_words, list_path, read_queries, read_whole};
use rank_query::Query;
use std::io::Write;
use std::sync::Wait;
use std::thread::Threads;
use std::time::Clock;

/// Names the files that are asked for, ranks them for each query of a list, and prints the reports in
/// the order of the list.
pub(crate) fn run_ranking_each<
    R: Threads + Wait + AllocGlobal + Clock + Eprint + Sync,
    A: Archive<File: Send> + Sync,
    M: Messages,
    T: Target,
    W: Write,
>(
    rt: &R,
    archive: &A,
    asked: RankEachArguments,
    messages: &mut M,
    target: &mut T,
    out: &mut W,
    words: &mut ForPeople,
) -> Ending
    ensures { IsRankEachRun (environment (A.bytes_of archive.now) (A.opens archive.now) (A.names_of archive.now)
        (T.one_file target.old) (T.other_text target.old)
        (IsPut T.opens T.abandons T.contents target.old target.new) (T.exists target.old)
        (ArePut T.creates T.abandons T.contents target.old target.new)
        fault_line merging_line
        (streams (ArePrintedLines M.prints messages.old messages.new) (W.contents out.old) (W.contents out.new)))
        asked result }
{
    let RankEachArguments {
        stations,
        queries,
        papers: folder,
        workers,
        files: named,
    } = asked;
    let files = match daily_files(rt.alloc(), archive, &named) {
        Ok(files) => files,
        Err(why) => return unnamed(rt.alloc(), archive, &why, &named, messages, words),
    };
    let ranking = EachRanking {
        stations,
        queries,
        folder,
        files,
        workers,
    };
    rank_each_named(rt, archive, &ranking, &named, messages, target, out, words)
}

/// Reads the list of queries, and ranks files that are named for each of them.
fn rank_each_named<
    R: Threads + Wait + AllocGlobal + Clock + Eprint + Sync,
    A: Archive<File: Send> + Sync,
    M: Messages,
    T: Target,
    W: Write,
>(
    rt: &R,
    archive: &A,
    ranking: &EachRanking,
    named: &NamedFiles,
    messages: &mut M,
    target: &mut T,
    out: &mut W,
    words: &mut ForPeople,
) -> Ending
    ensures { RunsEach (environment (A.bytes_of archive.now) (A.opens archive.now) (A.names_of archive.now)
        (T.one_file target.old) (T.other_text target.old)
        (IsPut T.opens T.abandons T.contents target.old target.new) (T.exists target.old)
        (ArePut T.creates T.abandons T.contents target.old target.new)
        fault_line merging_line
        (streams (ArePrintedLines M.prints messages.old messages.new) (W.contents out.old) (W.contents out.new)))
        ranking.now named.now result }
{
    let list = list_path(&ranking.queries);
    match read_whole(rt.alloc(), archive, list) {
        Ok(text) => rank_each_listed(
            rt, archive, ranking, named, &text, messages, target, out, words,
        ),
        Err(_) => {
            words.explain_unread(rt.alloc(), archive, list);
            not_read(messages, list)
        }
    }
}

/// Reads the queries of a list's text, and ranks files that are named for each of them. Nothing of
/// these files is read if the list is refused.
fn rank_each_listed<
    R: Threads + Wait + AllocGlobal + Clock + Eprint + Sync,
    A: Archive<File: Send> + Sync,
    M: Messages,
    T: Target,
    W: Write,
>(
    rt: &R,
    archive: &A,
    ranking: &EachRanking,
    named: &NamedFiles,
    text: &[u8],
    messages: &mut M,
    target: &mut T,
    out: &mut W,
    words: &mut ForPeople,
) -> Ending
    ensures { RunsListed (environment (A.bytes_of archive.now) (A.opens archive.now) (A.names_of archive.now)
        (T.one_file target.old) (T.other_text target.old)
        (IsPut T.opens T.abandons T.contents target.old target.new) (T.exists target.old)
        (ArePut T.creates T.abandons T.contents target.old target.new)
        fault_line merging_line
        (streams (ArePrintedLines M.prints messages.old messages.new) (W.contents out.old) (W.contents out.new)))
        ranking.now named.now text.now result }
{
    let list = list_path(&ranking.queries);
    match check_words(ranking.workers, None) {
        Ok(()) => match read_queries(rt.alloc(), text) {
            Ok(queries) => {
                rank_each_into(
                    rt, archive, ranking, named, &queries, messages, target, out, words,
                )
            }
            Err(fault) => {
                explain_list(rt.alloc(), archive, list, text, fault, words);
                refused_list(messages, fault, list)
            }
        },
        Err(fault) => {
            explain_options(rt.alloc(), archive, ranking, fault, words);
            refused(messages, fault)
        }
    }
}

/// Ranks files that are named for each of some queries, if the folder is there that their files go to.
fn rank_each_into<
    R: Threads + Wait + AllocGlobal + Clock + Eprint + Sync,
    A: Archive<File: Send> + Sync,
    M: Messages,
    T: Target,
    W: Write,
>(
    rt: &R,
    archive: &A,
    ranking: &EachRanking,
    named: &NamedFiles,
    queries: &[Query],
    messages: &mut M,
    target: &mut T,
    out: &mut W,
    words: &mut ForPeople,
) -> Ending
    requires { is_crew ranking.now.workers ≡ true }
    ensures { RunsAskedInto (environment (A.bytes_of archive.now) (A.opens archive.now) (A.names_of archive.now)
        (T.one_file target.old) (T.other_text target.old)
        (IsPut T.opens T.abandons T.contents target.old target.new) (T.exists target.old)
        (ArePut T.creates T.abandons T.contents target.old target.new)
        fault_line merging_line
        (streams (ArePrintedLines M.prints messages.old messages.new) (W.contents out.old) (W.contents out.new)))
        ranking.now named.now queries.now result }
{
    match missing_folder(rt.alloc(), target, &ranking.folder) {
        Ok(None) => rank_each_apart(
            rt, archive, ranking, named, queries, messages, target, out, words,
        ),
        Ok(Some(folder)) => {
            let ending = not_written(messages, folder);
            explain_unwritten(rt.alloc(), ending, words);
            ending
        }
        Err(_) => {
            explain_options(rt.alloc(), archive, ranking, Fault::Memory(Memory), words);
            refused(messages, Fault::Memory(Memory))
        }
    }
}

/// Ranks files that are named for each of some queries, if none of the files is there that these
/// queries are to get.
fn rank_each_apart<
    R: Threads + Wait + AllocGlobal + Clock + Eprint + Sync,
    A: Archive<File: Send> + Sync,
    M: Messages,
    T: Target,
    W: Write,
>(
    rt: &R,
    archive: &A,
    ranking: &EachRanking,
    named: &NamedFiles,
    queries: &[Query],
    messages: &mut M,
    target: &mut T,
    out: &mut W,
    words: &mut ForPeople,
) -> Ending
    requires { is_crew ranking.now.workers ≡ true }
    ensures { RunsAskedApart (environment (A.bytes_of archive.now) (A.opens archive.now) (A.names_of archive.now)
        (T.one_file target.old) (T.other_text target.old)
        (IsPut T.opens T.abandons T.contents target.old target.new) (T.exists target.old)
        (ArePut T.creates T.abandons T.contents target.old target.new)
        fault_line merging_line
        (streams (ArePrintedLines M.prints messages.old messages.new) (W.contents out.old) (W.contents out.new)))
        ranking.now named.now queries.now result }
{
    match first_paper_there(rt.alloc(), target, &ranking.folder, queries.len()) {
        Ok(None) => rank_each_asked(
            rt, archive, ranking, named, queries, messages, target, out, words,
        ),
        Ok(Some(path)) => {
            words.explain_there(rt.alloc(), &path);
            not_written(messages, &path)
        }
        Err(_) => {
            explain_options(rt.alloc(), archive, ranking, Fault::Memory(Memory), words);
            refused(messages, Fault::Memory(Memory))
        }
    }
}

/// Ranks files that are named for each of some queries, and prints the reports.
fn rank_each_asked<
    R: Threads + Wait + AllocGlobal + Clock + Eprint + Sync,
    A: Archive<File: Send> + Sync,
    M: Messages,
    T: Target,
    W: Write,
>(
    rt: &R,
    archive: &A,
    ranking: &EachRanking,
    named: &NamedFiles,
    queries: &[Query],
    messages: &mut M,
    target: &mut T,
    out: &mut W,
    words: &mut ForPeople,
) -> Ending
    requires { is_crew ranking.now.workers ≡ true }
    ensures { RunsAsked (environment (A.bytes_of archive.now) (A.opens archive.now) (A.names_of archive.now)
        (T.one_file target.old) (T.other_text target.old)
        (IsPut T.opens T.abandons T.contents target.old target.new) (T.exists target.old)
        (ArePut T.creates T.abandons T.contents target.old target.new)
        fault_line merging_line
        (streams (ArePrintedLines M.prints messages.old messages.new) (W.contents out.old) (W.contents out.new)))
        ranking.now named.now queries.now result }
{
    let shows = named.progress && words.are_read();
    match rank_each_watched(rt, archive, ranking, queries, shows, target) {
        Ok(ranked) => {
            explain_each(rt.alloc(), archive, ranking, &ranked, words);
            let files = daily_paths(&ranking.files, named);
            let ending = print_each(messages, ranked, files, out);
            explain_unwritten(rt.alloc(), ending, words);
            ending
        }
        Err(path) => {
            words.explain_unread(rt.alloc(), archive, path);
            not_read(messages, path)
        }
    }
}
