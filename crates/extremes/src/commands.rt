//! The commands of a run: each names its files, does what is asked of them, and prints what that returns.

ghost use Rattle.std.specs.Prelude.{◌≡◌, ◌∷◌, [], IfErr, IfOk, option_map, string_bytes};
ghost use Rattle.extremes.specs.Commands.{IsDescribingRun, IsJudgingRun, IsMergingRun, IsRankingRun, IsTablingRun};
ghost use Rattle.extremes.specs.Commands.{RunsDescribing, RunsJudging, RunsRanking};
ghost use Rattle.extremes.specs.Environments.{environment};
ghost use Rattle.extremes.specs.FaultTexts.{fault_line, merging_line, tabling_line};
ghost use Rattle.extremes.specs.Messages.{ArePrintedLines, naming_line, streams};
ghost use Rattle.extremes.specs.NamedRuns.{StandForNamed, StopsNamed, naming_ending};
ghost use Rattle.extremes.specs.Targets.{ArePut, IsPut};

use crate::ending::Ending;
use crate::explained::{
    explain_described, explain_judged, explain_merged, explain_ranked, explain_tabled,
    explain_unwritten,
};
use crate::files::{Describing, Judging, Ranking, merge_files, table_files};
use crate::messages::Messages;
use crate::print::{
    DailyPaths, not_named, not_read, not_written, print_answer, print_description, print_judgement,
    print_ranked, print_table,
};
use crate::target::{Target, is_in_use, is_paper_or_output};
use crate::watching::{describe_watched, judge_watched, rank_watched};
use command_line::{
    CheckArguments, DescribeArguments, MergeArguments, NamedFiles, Part, RankArguments,
    TableArguments,
};
use explanations::ForPeople;
use rank_input::{Archive, NotNamed, name_files};
use std::alloc::Global;
use std::io::Write;
use std::sync::Wait;
use std::thread::Threads;
use std::time::Clock;

/// Names the files that a ranking asks for, ranks them, and prints the report. The certificate goes
/// to the file of a path, if one is named.
pub(crate) fn run_ranking<
    R: Threads + Wait + AllocGlobal + Clock + Eprint + Sync,
    A: Archive<File: Send> + Sync,
    M: Messages,
    T: Target,
    W: Write,
>(
    rt: &R,
    archive: &A,
    asked: RankArguments,
    messages: &mut M,
    target: &mut T,
    out: &mut W,
    words: &mut ForPeople,
) -> Ending
    ensures { IsRankingRun (environment (A.bytes_of archive.now) (A.opens archive.now) (A.names_of archive.now)
        (T.one_file target.old) (T.other_text target.old)
        (IsPut T.opens T.abandons T.contents target.old target.new) (T.exists target.old)
        (ArePut T.creates T.abandons T.contents target.old target.new)
        fault_line merging_line
        (streams (ArePrintedLines M.prints messages.old messages.new) (W.contents out.old) (W.contents out.new)))
        asked result }
{
    let RankArguments {
        stations,
        query,
        workers,
        guess,
        certificate,
        files: named,
    } = asked;
    let files = match daily_files(rt.alloc(), archive, &named) {
        Ok(files) => files,
        Err(why) => return unnamed(rt.alloc(), archive, &why, &named, messages, words),
    };
    let ranking = Ranking {
        stations,
        files,
        query,
        workers,
        guess,
    };
    rank_named(
        rt,
        archive,
        &ranking,
        &named,
        &certificate,
        messages,
        target,
        out,
        words,
    )
}

/// Ranks files that are named, and prints the report. The certificate goes to the file of a path,
/// if one is named.
fn rank_named<
    R: Threads + Wait + AllocGlobal + Clock + Eprint + Sync,
    A: Archive<File: Send> + Sync,
    M: Messages,
    T: Target,
    W: Write,
>(
    rt: &R,
    archive: &A,
    ranking: &Ranking,
    named: &NamedFiles,
    certificate: &Option<String>,
    messages: &mut M,
    target: &mut T,
    out: &mut W,
    words: &mut ForPeople,
) -> Ending
    ensures { RunsRanking (environment (A.bytes_of archive.now) (A.opens archive.now) (A.names_of archive.now)
        (T.one_file target.old) (T.other_text target.old)
        (IsPut T.opens T.abandons T.contents target.old target.new) (T.exists target.old)
        (ArePut T.creates T.abandons T.contents target.old target.new)
        fault_line merging_line
        (streams (ArePrintedLines M.prints messages.old messages.new) (W.contents out.old) (W.contents out.new)))
        ranking.now named.now (option_map string_bytes certificate.now) result }
{
    let certificate = path_of(certificate);
    if let Some(path) = certificate {
        let list = path_of(&named.list);
        if is_in_use(target, path, &ranking.stations, list, &ranking.files) {
            words.explain_use(rt.alloc(), path);
            return not_written(messages, path);
        }
    }
    let shows = named.progress && words.are_read();
    match rank_watched(rt, archive, ranking, shows) {
        Ok(ranked) => {
            explain_ranked(rt.alloc(), archive, ranking, &ranked, words);
            let files = daily_paths(&ranking.files, named);
            let ending = print_ranked(messages, ranked, files, certificate, target, out);
            explain_unwritten(rt.alloc(), ending, words);
            ending
        }
        Err(path) => {
            words.explain_unread(rt.alloc(), archive, path);
            not_read(messages, path)
        }
    }
}

/// Merges the reports and certificates of parts that are named, and prints the report. The certificate goes to the
/// file of a path, if one is named.
pub(crate) fn run_merging<A: Archive, M: Messages, T: Target, W: Write>(
    alloc: Global,
    archive: &A,
    asked: &MergeArguments,
    messages: &mut M,
    target: &mut T,
    out: &mut W,
    words: &mut ForPeople,
) -> Ending
    ensures { IsMergingRun (environment (A.bytes_of archive.now) (A.opens archive.now) (A.names_of archive.now)
        (T.one_file target.old) (T.other_text target.old)
        (IsPut T.opens T.abandons T.contents target.old target.new) (T.exists target.old)
        (ArePut T.creates T.abandons T.contents target.old target.new)
        fault_line merging_line
        (streams (ArePrintedLines M.prints messages.old messages.new) (W.contents out.old) (W.contents out.new)))
        asked.now result }
{
    let certificate = path_of(&asked.certificate);
    if let Some(path) = certificate {
        if is_paper_or_output(target, path, &asked.parts) {
            words.explain_use(alloc, path);
            return not_written(messages, path);
        }
    }
    match merge_files(alloc, archive, &asked.query, &asked.parts) {
        Ok(merged) => {
            explain_merged(alloc, &asked.query, &asked.parts, &merged, words);
            let ending = print_answer(messages, merged, certificate, target, out);
            explain_unwritten(alloc, ending, words);
            ending
        }
        Err(path) => {
            words.explain_unread(alloc, archive, path);
            not_read(messages, path)
        }
    }
}

/// Names the files that a check asks for, checks the report and the certificate against them, and
/// prints the verdict.
pub(crate) fn run_judging<
    R: Threads + AllocGlobal + Clock + Eprint + Sync,
    A: Archive<File: Send> + Sync,
    M: Messages,
    W: Write,
>(
    rt: &R,
    archive: &A,
    asked: CheckArguments,
    messages: &mut M,
    out: &mut W,
    words: &mut ForPeople,
) -> Ending
    ensures { IsJudgingRun (A.bytes_of archive.now) (A.opens archive.now) (A.names_of archive.now) fault_line
        (streams (ArePrintedLines M.prints messages.old messages.new) (W.contents out.old) (W.contents out.new))
        asked result }
{
    let CheckArguments {
        stations,
        query,
        report,
        certificate,
        part,
        workers,
        files: named,
    } = asked;
    let files = match daily_files(rt.alloc(), archive, &named) {
        Ok(files) => files,
        Err(why) => return unnamed(rt.alloc(), archive, &why, &named, messages, words),
    };
    let papers = Part {
        report,
        certificate,
    };
    let judging = Judging {
        stations,
        files,
        query,
        workers,
        papers,
        part,
    };
    judge_named(rt, archive, &judging, &named, messages, out, words)
}

/// Checks a report and a certificate against files that are named, and prints the verdict.
fn judge_named<
    R: Threads + AllocGlobal + Clock + Eprint + Sync,
    A: Archive<File: Send> + Sync,
    M: Messages,
    W: Write,
>(
    rt: &R,
    archive: &A,
    judging: &Judging,
    named: &NamedFiles,
    messages: &mut M,
    out: &mut W,
    words: &mut ForPeople,
) -> Ending
    ensures { RunsJudging (A.bytes_of archive.now) (A.opens archive.now) fault_line
        (streams (ArePrintedLines M.prints messages.old messages.new) (W.contents out.old) (W.contents out.new))
        judging.now named.now result }
{
    let shows = named.progress && words.are_read();
    match judge_watched(rt, archive, judging, shows) {
        Ok(judged) => {
            explain_judged(rt.alloc(), archive, judging, &judged, words);
            let files = daily_paths(&judging.files, named);
            let ending = print_judgement(messages, judged, files, out);
            explain_unwritten(rt.alloc(), ending, words);
            ending
        }
        Err(path) => {
            words.explain_unread(rt.alloc(), archive, path);
            not_read(messages, path)
        }
    }
}

/// Names the files that a description asks for, describes them, and prints the description.
pub(crate) fn run_describing<
    R: Threads + AllocGlobal + Clock + Eprint + Sync,
    A: Archive<File: Send> + Sync,
    M: Messages,
    W: Write,
>(
    rt: &R,
    archive: &A,
    asked: DescribeArguments,
    messages: &mut M,
    out: &mut W,
    words: &mut ForPeople,
) -> Ending
    ensures { IsDescribingRun (A.bytes_of archive.now) (A.opens archive.now) (A.names_of archive.now) fault_line
        (streams (ArePrintedLines M.prints messages.old messages.new) (W.contents out.old) (W.contents out.new))
        asked result }
{
    let DescribeArguments {
        stations,
        workers,
        files: named,
    } = asked;
    let files = match daily_files(rt.alloc(), archive, &named) {
        Ok(files) => files,
        Err(why) => return unnamed(rt.alloc(), archive, &why, &named, messages, words),
    };
    let describing = Describing {
        stations,
        files,
        workers,
    };
    describe_named(rt, archive, &describing, &named, messages, out, words)
}

/// Describes files that are named, and prints the description.
fn describe_named<
    R: Threads + AllocGlobal + Clock + Eprint + Sync,
    A: Archive<File: Send> + Sync,
    M: Messages,
    W: Write,
>(
    rt: &R,
    archive: &A,
    describing: &Describing,
    named: &NamedFiles,
    messages: &mut M,
    out: &mut W,
    words: &mut ForPeople,
) -> Ending
    ensures { RunsDescribing (A.bytes_of archive.now) (A.opens archive.now) fault_line
        (streams (ArePrintedLines M.prints messages.old messages.new) (W.contents out.old) (W.contents out.new))
        describing.now named.now result }
{
    let shows = named.progress && words.are_read();
    match describe_watched(rt, archive, describing, shows) {
        Ok(described) => {
            explain_described(rt.alloc(), archive, describing, &described, words);
            let files = daily_paths(&describing.files, named);
            let ending = print_description(messages, described, files, out);
            explain_unwritten(rt.alloc(), ending, words);
            ending
        }
        Err(path) => {
            words.explain_unread(rt.alloc(), archive, path);
            not_read(messages, path)
        }
    }
}

/// Makes a table of the reports that are named, and prints it.
pub(crate) fn run_tabling<A: Archive, M: Messages, W: Write>(
    alloc: Global,
    archive: &A,
    asked: &TableArguments,
    messages: &mut M,
    out: &mut W,
    words: &mut ForPeople,
) -> Ending
    ensures { IsTablingRun (A.bytes_of archive.now) (A.opens archive.now) tabling_line
        (streams (ArePrintedLines M.prints messages.old messages.new) (W.contents out.old) (W.contents out.new))
        asked.now result }
{
    match table_files(alloc, archive, asked) {
        Ok(tabled) => {
            explain_tabled(alloc, archive, asked, &tabled, words);
            let ending = print_table(messages, tabled, out);
            explain_unwritten(alloc, ending, words);
            ending
        }
        Err(path) => {
            words.explain_unread(alloc, archive, path);
            not_read(messages, path)
        }
    }
}

/// The paths of the daily files that a command names.
pub(crate) fn daily_files<A: Archive>(
    alloc: Global,
    archive: &A,
    named: &NamedFiles,
) -> Result<Vec<String>, NotNamed>
    ensures stand { IfOk result (StandForNamed (A.bytes_of archive.now) (A.opens archive.now)
        (A.names_of archive.now) named.now) }
    ensures stopped { IfErr result (StopsNamed (A.bytes_of archive.now) (A.opens archive.now)
        (A.names_of archive.now) named.now) }
{
    let list = path_of(&named.list);
    name_files(alloc, archive, &named.paths, list, named.null)
}

/// The paths of daily files, and the arguments that name them.
pub(crate) fn daily_paths<'p>(files: &'p [String], named: &'p NamedFiles) -> DailyPaths<'p>
    ensures paths { result.paths.now ≡ files.now }
    ensures arguments { result.arguments.now ≡ named.now.paths.items }
{
    DailyPaths {
        paths: files,
        arguments: named.paths.as_slice(),
    }
}

/// The path of a certificate's file or of a list, if one is named.
fn path_of(named: &Option<String>) -> Option<&str>
    ensures { option_map (λ path. path.now) result ≡ option_map string_bytes named.now }
{
    named.as_ref().map(|path| path.as_str())
}

/// Prints why the daily files of a command can't be named, and explains it.
pub(crate) fn unnamed<A: Archive, M: Messages>(
    alloc: Global,
    archive: &A,
    why: &NotNamed,
    named: &NamedFiles,
    messages: &mut M,
    words: &mut ForPeople,
) -> Ending
    ensures ending { result ≡ naming_ending why.now }
    ensures line { ArePrintedLines M.prints messages.old messages.new
        (naming_line fault_line why.now ∷ []) }
{
    words.explain_names(alloc, archive, why, path_of(&named.list));
    not_named(messages, why)
}
