//! A check of a list of queries: it reads the list and then the files, checks the report and the
//! certificate of each query against them, and prints the verdicts.

ghost use Rattle.std.specs.Prelude.{ℕ, List};
ghost use Rattle.std.specs.List.{AllZip};
ghost use Rattle.rank_query.specs.Meaning.Asks.{Asks};
ghost use Rattle.extremes.specs.FaultTexts.{fault_line};
ghost use Rattle.extremes.specs.JudgeEachRuns.{IsCheckEachRun, RunsAskedJudging, RunsAskedList, RunsJudgingEach};
ghost use Rattle.extremes.specs.JudgeEachRuns.{RunsNamedJudging};
ghost use Rattle.extremes.specs.Messages.{ArePrintedLines, streams};

use crate::checked_papers::try_papers;
use crate::commands::{daily_files, daily_paths, unnamed};
use crate::ending::Ending;
use crate::explained::explain_unwritten;
use crate::explained_each::explain_list;
use crate::explained_judged_each::{explain_judged_each, explain_stop};
use crate::judge_each_files::{EachJudging, judge_each_watched};
use crate::messages::Messages;
use crate::print::not_read;
use crate::print_each::refused_list;
use crate::print_judged_each::{print_stop, print_verdicts};
use command_line::{CheckEachArguments, NamedFiles};
use explanations::ForPeople;
use rank_input::{Archive, list_path, read_queries, read_whole};
use rank_query::Query;
use std::io::Write;
use std::thread::Threads;
use std::time::Clock;

/// Names the files that a check of a list of queries asks for, checks the report and the certificate
/// of each query against them, and prints the verdicts in the order of the list.
pub(crate) fn run_judging_each<
    R: Threads + AllocGlobal + Clock + Eprint + Sync,
    A: Archive<File: Send> + Sync,
    M: Messages,
    W: Write,
>(
    rt: &R,
    archive: &A,
    asked: CheckEachArguments,
    messages: &mut M,
    out: &mut W,
    words: &mut ForPeople,
) -> Ending
    ensures { IsCheckEachRun (A.bytes_of archive.now) (A.opens archive.now) (A.names_of archive.now) fault_line
        (streams (ArePrintedLines M.prints messages.old messages.new) (W.contents out.old) (W.contents out.new))
        asked result }
{
    let CheckEachArguments {
        stations,
        queries,
        papers: folder,
        part,
        workers,
        files: named,
    } = asked;
    let files = match daily_files(rt.alloc(), archive, &named) {
        Ok(files) => files,
        Err(why) => return unnamed(rt.alloc(), archive, &why, &named, messages, words),
    };
    let judging = EachJudging {
        stations,
        queries,
        folder,
        files,
        workers,
        part,
    };
    judge_each_named(rt, archive, &judging, &named, messages, out, words)
}

/// Reads the list of queries, and checks the report and the certificate of each against files that are
/// named.
fn judge_each_named<
    R: Threads + AllocGlobal + Clock + Eprint + Sync,
    A: Archive<File: Send> + Sync,
    M: Messages,
    W: Write,
>(
    rt: &R,
    archive: &A,
    judging: &EachJudging,
    named: &NamedFiles,
    messages: &mut M,
    out: &mut W,
    words: &mut ForPeople,
) -> Ending
    ensures { RunsNamedJudging (A.bytes_of archive.now) (A.opens archive.now) fault_line
        (streams (ArePrintedLines M.prints messages.old messages.new) (W.contents out.old) (W.contents out.new))
        judging.now named.now result }
{
    let list = list_path(&judging.queries);
    match read_whole(rt.alloc(), archive, list) {
        Ok(text) => judge_each_listed(rt, archive, judging, named, &text, messages, out, words),
        Err(_) => {
            words.explain_unread(rt.alloc(), archive, list);
            not_read(messages, list)
        }
    }
}

/// Reads the queries of a list's text, and checks the report and the certificate of each against files
/// that are named. Nothing of these is read if the list is refused.
fn judge_each_listed<
    R: Threads + AllocGlobal + Clock + Eprint + Sync,
    A: Archive<File: Send> + Sync,
    M: Messages,
    W: Write,
>(
    rt: &R,
    archive: &A,
    judging: &EachJudging,
    named: &NamedFiles,
    text: &[u8],
    messages: &mut M,
    out: &mut W,
    words: &mut ForPeople,
) -> Ending
    ensures { RunsAskedList (A.bytes_of archive.now) (A.opens archive.now) fault_line
        (streams (ArePrintedLines M.prints messages.old messages.new) (W.contents out.old) (W.contents out.new))
        judging.now named.now text.now result }
{
    match read_queries(rt.alloc(), text) {
        Ok(queries) => judge_each_tried(
            rt, archive, judging, named, &queries, messages, out, words,
        ),
        Err(fault) => {
            let list = list_path(&judging.queries);
            explain_list(rt.alloc(), archive, list, text, fault, words);
            refused_list(messages, fault, list)
        }
    }
}

/// Checks the report and the certificate of each of some queries against files that are named, if all
/// of these reports and certificates can be opened. Nothing is read if one can't be.
fn judge_each_tried<
    R: Threads + AllocGlobal + Clock + Eprint + Sync,
    A: Archive<File: Send> + Sync,
    M: Messages,
    W: Write,
>(
    rt: &R,
    archive: &A,
    judging: &EachJudging,
    named: &NamedFiles,
    queries: &[Query],
    messages: &mut M,
    out: &mut W,
    words: &mut ForPeople,
) -> Ending
    ensures { RunsAskedJudging (A.bytes_of archive.now) (A.opens archive.now) fault_line
        (streams (ArePrintedLines M.prints messages.old messages.new) (W.contents out.old) (W.contents out.new))
        judging.now named.now queries.now result }
{
    match try_papers(rt.alloc(), archive, &judging.folder, queries.len()) {
        Ok(()) => judge_each_asked(rt, archive, judging, named, queries, messages, out, words),
        Err(stop) => {
            explain_stop(rt.alloc(), archive, judging, &stop, words);
            print_stop(messages, stop)
        }
    }
}

/// Checks the report and the certificate of each of some queries against files that are named, and
/// prints the verdicts.
fn judge_each_asked<
    R: Threads + AllocGlobal + Clock + Eprint + Sync,
    A: Archive<File: Send> + Sync,
    M: Messages,
    W: Write,
>(
    rt: &R,
    archive: &A,
    judging: &EachJudging,
    named: &NamedFiles,
    queries: &[Query],
    messages: &mut M,
    out: &mut W,
    words: &mut ForPeople,
) -> Ending
    ensures { (lines : List (List ℕ)) → AllZip Asks lines queries.now → RunsJudgingEach (A.bytes_of archive.now)
        (A.opens archive.now) fault_line
        (streams (ArePrintedLines M.prints messages.old messages.new) (W.contents out.old) (W.contents out.new))
        judging.now named.now lines result }
{
    let shows = named.progress && words.are_read();
    match judge_each_watched(rt, archive, judging, queries, shows) {
        Ok(judged) => {
            explain_judged_each(rt.alloc(), archive, judging, &judged, words);
            let files = daily_paths(&judging.files, named);
            let were_judged = judged.is_ok();
            let ending = print_verdicts(messages, judged, files, out);
            if were_judged {
                explain_unwritten(rt.alloc(), ending, words);
            }
            ending
        }
        Err(path) => {
            words.explain_unread(rt.alloc(), archive, path);
            not_read(messages, path)
        }
    }
}
