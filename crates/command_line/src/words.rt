//! Reading the arguments of a command line.

ghost use Rattle.std.specs.Prelude.{◌≡◌, ◌≢◌, ◌↔◌, IfOk, IfErr, IfSome, IsSomeAnd, IsSome, IsNone, [], Ok, map, false, length, ◌%◌, codes};
ghost use Rattle.clap.specs.Words.{app_of, first_of, kind_of, found_of, rows_of, rule_of, subcommand_rows_of};
ghost use Rattle.clap.specs.declared.builder.Command.TheViews.{out-Command as fields_of};
ghost use Rattle.command_line.specs.CommandLine.{extremes_app, rank_app, merge_app, check_app, describe_app, table_app};
ghost use Rattle.command_line.specs.CommandLine.{option_of, flag_of, required, parsed, many_of, is_global, and_files, few_readers};
ghost use Rattle.command_line.specs.CommandLine.{all_words, AreRightWords};
ghost use Rattle.command_line.specs.CommandLine.{IsCommandOf, IsName, IsCommand, IsRank, IsMerge, IsCheck, IsDescribe, IsTable};
ghost use Rattle.command_line.specs.CommandLine.{or_input, paths_of};
ghost use Rattle.command_line.specs.CommandLine.{AskVersion, MayAskVersion, TellsVersion, OnVersion};
ghost use Rattle.command_line.specs.Fitting.{FitTogether, FitToRank, FitToCheck, AreInPairs, HasListIfNull};
ghost use Rattle.command_line.specs.declared.asked.Command.TheVariants as commands;
ghost use Rattle.command_line.specs.declared.asked.CommandFault.TheVariants as faults;

use crate::asked::{
    CheckArguments, CheckEachArguments, Command, CommandFault, DescribeArguments, MergeArguments,
    NamedFiles, Part, RankArguments, RankEachArguments, TableArguments,
};
use crate::given::{
    are_both_input, copies, copy, files_of, has_all_of_one_check, has_part_of_one_check,
    has_part_of_one_ranking, has_value, is_given, misfit, text,
};
use crate::help::{
    CERTIFICATE_HELP, CHECK_HELP, CHECK_USAGE, CHECKED_QUERIES_HELP, CHECKED_QUERY_HELP,
    CHECKERS_HELP, DESCRIBE_HELP, FILES_HELP, FOLDER_HELP, FOLDER_TO_CHECK_HELP,
    FOLDER_WITHOUT_QUERIES, GUESS_HELP, HELP, LIST_HELP, MERGE_HELP, MERGE_USAGE,
    MERGED_CERTIFICATE_HELP, NO_FOLDER_TO_CHECK, NO_PAPERS_TO_CHECK, NO_QUERY, NULL_HELP,
    ODD_PAPERS, PAPERS_HELP, PART_HELP, PLACES_HELP, PROGRESS_HELP, QUERIES_AND_A_QUERY,
    QUERIES_AND_PAPERS, QUERIES_HELP, QUERY_HELP, RANK_HELP, RANK_USAGE, READERS_HELP,
    REPORTS_HELP, STATIONS_HELP, TABLE_HELP, TWO_INPUTS, USAGE, VERSION, WORKERS_HELP,
};
use clap::builder::ValueParser;
use clap::error::ErrorKind;
use clap::{Arg, ArgAction, ArgMatches, Error, value_parser};
use std::alloc::{AllocError, Global};

/// How many workers there are if the arguments don't say.
const WORKERS: u64 = 4;

/// The most threads that read.
const MOST_READERS: u64 = 64;

/// The command that the arguments ask for: the sample if there are none. Arguments that aren't
/// valid, or that ask for help or the version, return the text to show.
pub fn command(alloc: Global, words: Vec<String>) -> Result<Command, CommandFault>
    // No arguments ask for the sample.
    ensures none { words.items ≡ [] → result ≡ Ok commands.Sample }
    // Other arguments are a command only if they are valid, and it is the one that they name.
    ensures named { words.items ≢ [] → IfOk result (IsCommandOf (all_words words.items)) }
    // Valid arguments are refused only if memory runs out.
    ensures right { AreRightWords (all_words words.items) → IfErr result (λ f. f ≡ faults.Memory) }
    // Arguments that ask for the version get it, unless memory is refused.
    ensures version { words.items ≢ [] → AskVersion (all_words words.items) → IfErr result TellsVersion }
    // No others do.
    ensures asked { IfErr result (OnVersion (MayAskVersion (all_words words.items))) }
{
    if words.is_empty() {
        return Ok(Command::Sample);
    }
    named_command(alloc, &words)
}

/// What a refused command line leads to: the text to show, or out of memory.
fn fault_of(alloc: Global, error: &Error) -> CommandFault
    ensures memory { kind_of error.now ≡ ErrorKind.OutOfMemory → result ≡ faults.Memory }
    ensures version { kind_of error.now ≡ ErrorKind.DisplayVersion → TellsVersion result }
    ensures asked { OnVersion (kind_of error.now ≡ ErrorKind.DisplayVersion) result }
{
    if error.kind() == ErrorKind::OutOfMemory {
        return CommandFault::Memory;
    }
    let Ok(text) = error.to_string(alloc) else {
        return CommandFault::Memory;
    };
    if error.kind() == ErrorKind::DisplayVersion {
        CommandFault::Version(text)
    } else {
        CommandFault::Words(text)
    }
}

/// The arguments as one of the commands that they can name, `rank`, `merge`, `check`, `describe` and `table`.
fn named_command(alloc: Global, words: &[String]) -> Result<Command, CommandFault>
    ensures ok { IfOk result (IsCommandOf (all_words words.now)) }
    ensures right { AreRightWords (all_words words.now) → IfErr result (λ f. f ≡ faults.Memory) }
    ensures version { AskVersion (all_words words.now) → IfErr result TellsVersion }
    ensures asked { IfErr result (OnVersion (MayAskVersion (all_words words.now))) }
{
    let all = with_name(alloc, words)?;
    match program(alloc)?.try_get_matches_from(all.as_slice()) {
        Ok(matches) => command_of(alloc, &matches),
        Err(error) => Err(fault_of(alloc, &error)),
    }
}

/// The command that the matches of the program name, or the error of options that don't fit together.
fn command_of(alloc: Global, matches: &ArgMatches) -> Result<Command, CommandFault>
    requires { IsSomeAnd (subcommand_rows_of matches.now) (λ met. IsName met.0) }
    ensures ok { IfOk result (λ command.
        IfSome (subcommand_rows_of matches.now) (λ met. IsCommand met.0 met.1 command)) }
    ensures together { IfSome (subcommand_rows_of matches.now) (λ met. FitTogether met.0 met.1)
        → IfErr result (λ f. f ≡ faults.Memory) }
    ensures asked { IfErr result (OnVersion ⊥) }
{
    if let Some(rank) = matches.subcommand_matches("rank") {
        return rank_of(alloc, rank);
    }
    if let Some(merge) = matches.subcommand_matches("merge") {
        return merge_of(alloc, merge);
    }
    if let Some(check) = matches.subcommand_matches("check") {
        return check_of(alloc, check);
    }
    if let Some(describe) = matches.subcommand_matches("describe") {
        return describe_of(alloc, describe);
    }
    let Some(table) = matches.subcommand_matches("table") else {
        unreachable!();
    };
    Ok(Command::Table(table_of(alloc, table)?))
}

/// The program's name, and then all arguments.
fn with_name<'a>(alloc: Global, words: &'a [String]) -> Result<Vec<&'a str>, AllocError>
    ensures { IfOk result (λ all. map (λ s. s.now) all.items ≡ all_words words.now) }
{
    let mut all = Vec::with_capacity(alloc, words.len() + 1)?;
    all.push("extremes")?;
    for word in words {
        all.push(word.as_str())?;
    }
    Ok(all)
}

/// The program's command line, as `clap` reads it.
fn program<'a>(alloc: Global) -> Result<clap::Command<'a>, AllocError>
    ensures app { IfOk result (λ c. app_of c ≡ extremes_app) }
    ensures local { IfOk result (λ c. (fields_of c).has_globals ≡ false) }
{
    clap::Command::new(alloc, "extremes")
        .about("Finds the k best records of GHCN-Daily files; without arguments, of a sample")
        .version(VERSION)
        .override_usage(USAGE)
        .after_help(HELP)
        .subcommand_required(true)
        .disable_help_subcommand(true)
        .subcommand(rank_words(alloc)?)?
        .subcommand(merge_words(alloc)?)?
        .subcommand(check_words(alloc)?)?
        .subcommand(describe_words(alloc)?)?
        .subcommand(table_words(alloc)?)
}

/// The arguments of `rank`.
fn rank_words<'a>(alloc: Global) -> Result<clap::Command<'a>, AllocError>
    ensures app { IfOk result (λ c. app_of c ≡ rank_app) }
    ensures local { IfOk result (λ c. (fields_of c).has_globals ≡ false) }
{
    let workers = option(alloc, "workers", "N", WORKERS_HELP).value_parser(value_parser!(u64));
    let guess = option(alloc, "guess", "SCORE", GUESS_HELP).value_parser(value_parser!(i64));
    let rank = clap::Command::new(alloc, "rank")
        .about("Prints the k best records of a query, or those of each query of a list")
        .override_usage(RANK_USAGE)
        .after_help(RANK_HELP)
        .arg(needed(alloc, "stations", "FILE", STATIONS_HELP))?
        .arg(option(alloc, "query", "QUERY", QUERY_HELP))?
        .arg(option(alloc, "queries", "FILE", QUERIES_HELP))?
        .arg(option(alloc, "papers", "FOLDER", FOLDER_HELP))?
        .arg(workers)?
        .arg(guess)?
        .arg(option(alloc, "certificate", "OUT", CERTIFICATE_HELP))?;
    with_files(alloc, rank)
}

/// The arguments of `merge`.
fn merge_words<'a>(alloc: Global) -> Result<clap::Command<'a>, AllocError>
    ensures app { IfOk result (λ c. app_of c ≡ merge_app) }
    ensures local { IfOk result (λ c. (fields_of c).has_globals ≡ false) }
{
    clap::Command::new(alloc, "merge")
        .about("Makes the report and the certificate of an archive from those of its parts")
        .override_usage(MERGE_USAGE)
        .after_help(MERGE_HELP)
        .arg(needed(alloc, "query", "QUERY", QUERY_HELP))?
        .arg(option(alloc, "certificate", "OUT", MERGED_CERTIFICATE_HELP))?
        .arg(many(alloc, "papers", "REPORT CERTIFICATE", PAPERS_HELP))
}

/// The arguments of `check`.
fn check_words<'a>(alloc: Global) -> Result<clap::Command<'a>, AllocError>
    ensures app { IfOk result (λ c. app_of c ≡ check_app) }
    ensures local { IfOk result (λ c. (fields_of c).has_globals ≡ false) }
{
    let check = clap::Command::new(alloc, "check")
        .about("Checks reports and certificates, whatever program made them")
        .override_usage(CHECK_USAGE)
        .after_help(CHECK_HELP)
        .arg(needed(alloc, "stations", "FILE", STATIONS_HELP))?
        .arg(option(alloc, "query", "QUERY", CHECKED_QUERY_HELP))?
        .arg(option(alloc, "report", "FILE", "The report"))?
        .arg(option(alloc, "certificate", "FILE", "The certificate"))?
        .arg(option(alloc, "queries", "FILE", CHECKED_QUERIES_HELP))?
        .arg(option(alloc, "papers", "FOLDER", FOLDER_TO_CHECK_HELP))?
        .arg(flag(alloc, "part", PART_HELP))?
        .arg(readers(alloc, CHECKERS_HELP))?;
    with_files(alloc, check)
}

/// The arguments of `describe`.
fn describe_words<'a>(alloc: Global) -> Result<clap::Command<'a>, AllocError>
    ensures app { IfOk result (λ c. app_of c ≡ describe_app) }
    ensures local { IfOk result (λ c. (fields_of c).has_globals ≡ false) }
{
    let describe = clap::Command::new(alloc, "describe")
        .about("Counts what daily files hold")
        .after_help(DESCRIBE_HELP)
        .arg(needed(alloc, "stations", "FILE", STATIONS_HELP))?
        .arg(readers(alloc, READERS_HELP))?;
    with_files(alloc, describe)
}

/// The arguments of `table`.
fn table_words<'a>(alloc: Global) -> Result<clap::Command<'a>, AllocError>
    ensures app { IfOk result (λ c. app_of c ≡ table_app) }
    ensures local { IfOk result (λ c. (fields_of c).has_globals ≡ false) }
{
    clap::Command::new(alloc, "table")
        .about("Prints the rows of reports as comma-separated values")
        .after_help(TABLE_HELP)
        .arg(option(alloc, "stations", "FILE", PLACES_HELP))?
        .arg(many(alloc, "reports", "REPORT", REPORTS_HELP))
}

/// A subcommand with the arguments that name daily files, after its own.
fn with_files<'a>(
    alloc: Global,
    command: clap::Command<'a>,
) -> Result<clap::Command<'a>, AllocError>
    requires { (fields_of command).has_globals ≡ false }
    ensures app { IfOk result (λ c. app_of c ≡ and_files (app_of command.entry)) }
    ensures local { IfOk result (λ c. (fields_of c).has_globals ≡ false) }
{
    command
        .arg(option(alloc, "files-from", "LIST", LIST_HELP))?
        .arg(flag(alloc, "null", NULL_HELP).short('0'))?
        .arg(flag(alloc, "progress", PROGRESS_HELP))?
        .arg(many(alloc, "files", "FILE", FILES_HELP))
}

/// An option with one value, which may be given once.
fn option<'a>(alloc: Global, name: &'a str, value: &'a str, help: &'a str) -> Arg<'a>
    ensures rule { rule_of result ≡ option_of name.now }
    ensures local { is_global result ≡ false }
{
    Arg::new(alloc, name)
        .long(name)
        .value_name(value)
        .help(help)
        .action(ArgAction::Set)
}

/// An option with one value, which has to be given once.
fn needed<'a>(alloc: Global, name: &'a str, value: &'a str, help: &'a str) -> Arg<'a>
    ensures rule { rule_of result ≡ required (option_of name.now) }
    ensures local { is_global result ≡ false }
{
    option(alloc, name, value, help).required(true)
}

/// The option of how many threads may read.
fn readers<'a>(alloc: Global, help: &'a str) -> Arg<'a>
    ensures rule { rule_of result ≡ parsed few_readers (option_of (codes "workers")) }
    ensures local { is_global result ≡ false }
{
    option(alloc, "workers", "N", help).value_parser(ValueParser::unsigned(1, MOST_READERS))
}

/// A flag, which may be given once.
fn flag<'a>(alloc: Global, name: &'a str, help: &'a str) -> Arg<'a>
    ensures rule { rule_of result ≡ flag_of name.now }
    ensures local { is_global result ≡ false }
{
    Arg::new(alloc, name)
        .long(name)
        .help(help)
        .action(ArgAction::SetTrue)
}

/// What comes after the options, any number of arguments.
fn many<'a>(alloc: Global, name: &'a str, value: &'a str, help: &'a str) -> Arg<'a>
    ensures rule { rule_of result ≡ many_of name.now }
    ensures local { is_global result ≡ false }
{
    Arg::new(alloc, name)
        .value_name(value)
        .help(help)
        .num_args(0..)
        .action(ArgAction::Append)
}

/// The command that the matches of `rank` name, or the error of options that don't fit together.
fn rank_of(alloc: Global, matches: &ArgMatches) -> Result<Command, CommandFault>
    ensures ok { IfOk result (IsRank (rows_of (found_of matches.now))) }
    ensures fit { FitToRank (rows_of (found_of matches.now)) → IfErr result (λ f. f ≡ faults.Memory) }
    ensures asked { IfErr result (OnVersion ⊥) }
{
    if has_value(matches, "queries") {
        rank_each_of(alloc, matches)
    } else {
        rank_one_of(alloc, matches)
    }
}

/// The command of `rank` without a list of queries.
fn rank_one_of(alloc: Global, matches: &ArgMatches) -> Result<Command, CommandFault>
    requires { IsNone (first_of (codes "queries") (rows_of (found_of matches.now))) }
    ensures ok { IfOk result (IsRank (rows_of (found_of matches.now))) }
    ensures fit { FitToRank (rows_of (found_of matches.now)) → IfErr result (λ f. f ≡ faults.Memory) }
    ensures asked { IfErr result (OnVersion ⊥) }
{
    if !has_value(matches, "query") {
        return Err(misfit(alloc, NO_QUERY, RANK_USAGE));
    }
    if has_value(matches, "papers") {
        return Err(misfit(alloc, FOLDER_WITHOUT_QUERIES, RANK_USAGE));
    }
    let files = files_of(alloc, matches)?;
    Ok(Command::Rank(RankArguments {
        stations: text(alloc, matches, "stations")?,
        query: text(alloc, matches, "query")?,
        workers: matches.get_one("workers").unwrap_or(WORKERS),
        guess: matches.get_one("guess"),
        certificate: copy(alloc, matches.get_str("certificate"))?,
        files,
    }))
}

/// The command of `rank` with a list of queries.
fn rank_each_of(alloc: Global, matches: &ArgMatches) -> Result<Command, CommandFault>
    requires { IsSome (first_of (codes "queries") (rows_of (found_of matches.now))) }
    ensures ok { IfOk result (IsRank (rows_of (found_of matches.now))) }
    ensures fit { FitToRank (rows_of (found_of matches.now)) → IfErr result (λ f. f ≡ faults.Memory) }
    ensures asked { IfErr result (OnVersion ⊥) }
{
    if has_part_of_one_ranking(matches) {
        return Err(misfit(alloc, QUERIES_AND_A_QUERY, RANK_USAGE));
    }
    if are_both_input(matches) {
        return Err(misfit(alloc, TWO_INPUTS, RANK_USAGE));
    }
    let files = files_of(alloc, matches)?;
    Ok(Command::RankEach(RankEachArguments {
        stations: text(alloc, matches, "stations")?,
        queries: text(alloc, matches, "queries")?,
        papers: copy(alloc, matches.get_str("papers"))?,
        workers: matches.get_one("workers").unwrap_or(WORKERS),
        files,
    }))
}

/// The command that the matches of `merge` name, or the error of a report without its certificate.
fn merge_of(alloc: Global, matches: &ArgMatches) -> Result<Command, CommandFault>
    ensures ok { IfOk result (IsMerge (rows_of (found_of matches.now))) }
    ensures paired { AreInPairs (rows_of (found_of matches.now)) → IfErr result (λ f. f ≡ faults.Memory) }
    ensures asked { IfErr result (OnVersion ⊥) }
{
    let papers = matches.get_strs("papers").unwrap_or(&[]);
    if papers.len() % 2 != 0 {
        return Err(CommandFault::Words(String::from_str(alloc, ODD_PAPERS)?));
    }
    Ok(Command::Merge(MergeArguments {
        query: text(alloc, matches, "query")?,
        certificate: copy(alloc, matches.get_str("certificate"))?,
        parts: parts(alloc, papers)?,
    }))
}

/// The command that the matches of `check` name, or the error of options that don't fit together.
fn check_of(alloc: Global, matches: &ArgMatches) -> Result<Command, CommandFault>
    ensures ok { IfOk result (IsCheck (rows_of (found_of matches.now))) }
    ensures fit { FitToCheck (rows_of (found_of matches.now)) → IfErr result (λ f. f ≡ faults.Memory) }
    ensures asked { IfErr result (OnVersion ⊥) }
{
    if has_value(matches, "queries") {
        check_each_of(alloc, matches)
    } else {
        check_one_of(alloc, matches)
    }
}

/// The command of `check` without a list of queries.
fn check_one_of(alloc: Global, matches: &ArgMatches) -> Result<Command, CommandFault>
    requires { IsNone (first_of (codes "queries") (rows_of (found_of matches.now))) }
    ensures ok { IfOk result (IsCheck (rows_of (found_of matches.now))) }
    ensures fit { FitToCheck (rows_of (found_of matches.now)) → IfErr result (λ f. f ≡ faults.Memory) }
    ensures asked { IfErr result (OnVersion ⊥) }
{
    if !has_all_of_one_check(matches) {
        return Err(misfit(alloc, NO_PAPERS_TO_CHECK, CHECK_USAGE));
    }
    if has_value(matches, "papers") {
        return Err(misfit(alloc, FOLDER_WITHOUT_QUERIES, CHECK_USAGE));
    }
    let files = files_of(alloc, matches)?;
    Ok(Command::Check(CheckArguments {
        stations: text(alloc, matches, "stations")?,
        query: text(alloc, matches, "query")?,
        report: text(alloc, matches, "report")?,
        certificate: text(alloc, matches, "certificate")?,
        part: is_given(matches, "part"),
        workers: matches.get_one("workers").unwrap_or(WORKERS),
        files,
    }))
}

/// The command of `check` with a list of queries.
fn check_each_of(alloc: Global, matches: &ArgMatches) -> Result<Command, CommandFault>
    requires { IsSome (first_of (codes "queries") (rows_of (found_of matches.now))) }
    ensures ok { IfOk result (IsCheck (rows_of (found_of matches.now))) }
    ensures fit { FitToCheck (rows_of (found_of matches.now)) → IfErr result (λ f. f ≡ faults.Memory) }
    ensures asked { IfErr result (OnVersion ⊥) }
{
    if has_part_of_one_check(matches) {
        return Err(misfit(alloc, QUERIES_AND_PAPERS, CHECK_USAGE));
    }
    if !has_value(matches, "papers") {
        return Err(misfit(alloc, NO_FOLDER_TO_CHECK, CHECK_USAGE));
    }
    if are_both_input(matches) {
        return Err(misfit(alloc, TWO_INPUTS, CHECK_USAGE));
    }
    let files = files_of(alloc, matches)?;
    Ok(Command::CheckEach(CheckEachArguments {
        stations: text(alloc, matches, "stations")?,
        queries: text(alloc, matches, "queries")?,
        papers: text(alloc, matches, "papers")?,
        part: is_given(matches, "part"),
        workers: matches.get_one("workers").unwrap_or(WORKERS),
        files,
    }))
}

/// The command that the matches of `describe` name, or the error of `--null` without a list.
fn describe_of(alloc: Global, matches: &ArgMatches) -> Result<Command, CommandFault>
    ensures ok { IfOk result (IsDescribe (rows_of (found_of matches.now))) }
    ensures listed { HasListIfNull (rows_of (found_of matches.now)) → IfErr result (λ f. f ≡ faults.Memory) }
    ensures asked { IfErr result (OnVersion ⊥) }
{
    let files = files_of(alloc, matches)?;
    Ok(Command::Describe(DescribeArguments {
        stations: text(alloc, matches, "stations")?,
        workers: matches.get_one("workers").unwrap_or(WORKERS),
        files,
    }))
}

/// What the matches of `table` name. Without reports it is standard input.
fn table_of(alloc: Global, matches: &ArgMatches) -> Result<TableArguments, AllocError>
    ensures { IfOk result (IsTable (rows_of (found_of matches.now))) }
{
    let reports = matches.get_strs("reports").unwrap_or(&[]);
    Ok(TableArguments {
        stations: copy(alloc, matches.get_str("stations"))?,
        reports: copies(alloc, or_input(reports))?,
    })
}

/// The paths that are named, or that of standard input if none is.
fn or_input<'a>(paths: &'a [&'a str]) -> &'a [&'a str]
    ensures { map (λ s. s.now) result.now ≡ or_input (map (λ s. s.now) paths.now) }
{
    match paths {
        [] => &["-"],
        paths => paths,
    }
}

/// The parts whose reports and certificates these are, two of each part.
fn parts(alloc: Global, papers: &[&str]) -> Result<Vec<Part>, AllocError>
    requires { length papers.now % 2 ≡ 0 }
    ensures { IfOk result (λ parts. paths_of parts.items ≡ map (λ s. s.now) papers.now) }
{
    let mut parts = Vec::new(alloc);
    for pair in papers.chunks_exact(2) {
        parts.push(Part {
            report: String::from_str(alloc, pair[0])?,
            certificate: String::from_str(alloc, pair[1])?,
        })?;
    }
    Ok(parts)
}
