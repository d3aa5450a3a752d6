//! What the matches of a subcommand have under the names of its arguments.

ghost use Rattle.std.specs.Prelude.{◌≡◌, ◌↔◌, IfOk, IfErr, [], map, option_map, unwrap_or, is_some, true, false, string_bytes, codes};
ghost use Rattle.clap.specs.Words.{first_of, one_of, found_of, rows_of};
ghost use Rattle.command_line.specs.CommandLine.{AreFiles, IsFlag, OnVersion};
ghost use Rattle.command_line.specs.Fitting.{HasNoneOfOneRanking, HasAllOfOneCheck, HasNoneOfOneCheck, HasListIfNull, IsInput, AreBothInput};
ghost use Rattle.command_line.specs.declared.asked.CommandFault.TheVariants as faults;

use crate::asked::{CommandFault, NamedFiles};
use crate::help::NULL_WITHOUT_LIST;
use clap::ArgMatches;
use std::alloc::{AllocError, Global};

/// The daily files that the matches of a subcommand name, or the error of `--null` without a list.
pub fn files_of(alloc: Global, matches: &ArgMatches) -> Result<NamedFiles, CommandFault>
    ensures ok { IfOk result (AreFiles (rows_of (found_of matches.now))) }
    ensures listed { HasListIfNull (rows_of (found_of matches.now)) → IfErr result (λ f. f ≡ faults.Memory) }
    ensures asked { IfErr result (OnVersion ⊥) }
{
    let list = matches.get_str("files-from");
    let null = is_given(matches, "null");
    if null && list.is_none() {
        return Err(CommandFault::Words(String::from_str(alloc, NULL_WITHOUT_LIST)?));
    }
    Ok(NamedFiles {
        paths: copies(alloc, matches.get_strs("files").unwrap_or(&[]))?,
        list: copy(alloc, list)?,
        null,
        progress: is_given(matches, "progress"),
    })
}

/// Whether `rank` has an option of the ranking of one query.
pub fn has_part_of_one_ranking(matches: &ArgMatches) -> bool
    ensures { (result ≡ false) ↔ HasNoneOfOneRanking (rows_of (found_of matches.now)) }
{
    has_value(matches, "query") || has_value(matches, "guess") || has_value(matches, "certificate")
}

/// Whether `check` has all that the check of one query needs.
pub fn has_all_of_one_check(matches: &ArgMatches) -> bool
    ensures { (result ≡ true) ↔ HasAllOfOneCheck (rows_of (found_of matches.now)) }
{
    has_value(matches, "query") && has_value(matches, "report") && has_value(matches, "certificate")
}

/// Whether `check` has an option of the check of one query.
pub fn has_part_of_one_check(matches: &ArgMatches) -> bool
    ensures { (result ≡ false) ↔ HasNoneOfOneCheck (rows_of (found_of matches.now)) }
{
    has_value(matches, "query") || has_value(matches, "report") || has_value(matches, "certificate")
}

/// Whether the list of queries and the list of daily files are both standard input.
pub fn are_both_input(matches: &ArgMatches) -> bool
    ensures { (result ≡ true) ↔ AreBothInput (rows_of (found_of matches.now)) }
{
    is_input(matches, "queries") && is_input(matches, "files-from")
}

/// Whether an option names standard input.
fn is_input(matches: &ArgMatches, option: &str) -> bool
    ensures { (result ≡ true) ↔ IsInput option.now (rows_of (found_of matches.now)) }
{
    matches.get_str(option) == Some("-")
}

/// Whether an option has a value.
pub fn has_value(matches: &ArgMatches, option: &str) -> bool
    ensures { result ≡ is_some (first_of option.now (rows_of (found_of matches.now))) }
{
    matches.get_str(option).is_some()
}

/// Whether a flag is given.
pub fn is_given(matches: &ArgMatches, flag: &str) -> bool
    ensures { IsFlag (one_of flag.now (rows_of (found_of matches.now))) result }
{
    matches.get_one(flag).unwrap_or(false)
}

/// The text that is given under a name, or the empty text.
pub fn text(alloc: Global, matches: &ArgMatches, name: &str) -> Result<String, AllocError>
    ensures { IfOk result (λ text. string_bytes text
        ≡ unwrap_or (first_of name.now (rows_of (found_of matches.now))) []) }
{
    String::from_str(alloc, matches.get_str(name).unwrap_or(""))
}

/// The same text, owned, if there is one.
pub fn copy(alloc: Global, text: Option<&str>) -> Result<Option<String>, AllocError>
    ensures { IfOk result (λ copy. option_map (λ s. string_bytes s) copy ≡ option_map (λ s. s.now) text.entry) }
{
    match text {
        None => Ok(None),
        Some(text) => Ok(Some(String::from_str(alloc, text)?)),
    }
}

/// The same texts, owned.
pub fn copies(alloc: Global, texts: &[&str]) -> Result<Vec<String>, AllocError>
    ensures { IfOk result (λ copies. map (λ s. string_bytes s) copies.items ≡ map (λ s. s.now) texts.now) }
{
    let mut copies = Vec::new(alloc);
    for text in texts {
        copies.push(String::from_str(alloc, text)?)?;
    }
    Ok(copies)
}

/// The error of options that don't fit together, in the format of the parser's texts.
pub fn misfit(alloc: Global, wrong: &str, usage: &str) -> CommandFault
    ensures { OnVersion ⊥ result }
{
    let text = format!(in alloc;
        "error: {wrong}

Usage: {usage}

For more information, try '--help'.
"
    );
    match text {
        Ok(text) => CommandFault::Words(text),
        Err(_) => CommandFault::Memory,
    }
}
