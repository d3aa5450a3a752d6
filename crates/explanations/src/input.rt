//! Errors of an input: of its query, its station list, its daily files, and the numbers of a run.

ghost use Rattle.std.specs.Prelude.{◌≡◌, option_map};
ghost use Rattle.explanations.specs.Inputs.{IsOfInput, IsOfQuery, SaysWord, file_path};

use crate::explanation::Explanation;
use crate::notice::NO_MEMORY;
use crate::query::{more_words, wrong_word};
use crate::{daily, station};
use rank_input::Fault;
use rank_query::QueryFault;

/// What a run was given, as far as an error names it.
#[derive(Clone, Copy)]
pub struct Given<'a> {
    /// The query, or nothing if the command has none.
    pub query: &'a str,
    /// The path of the station list.
    pub stations: &'a str,
    /// The paths of the daily files.
    pub files: &'a [String],
}

impl<'a> Given<'a> {
    ghost use Rattle.explanations.specs.Inputs.{path_of};

    /// The path of the file with the error, if the error is one of a line, and otherwise an empty
    /// path.
    pub(crate) fn path(&self, fault: Fault) -> &'a str
        ensures { result.now ≡ path_of self.now fault }
    {
        match fault {
            Fault::StationLine { .. } => self.stations,
            Fault::DailyLine { file, .. } => numbered_file(self.files, file),
            _ => "",
        }
    }
}

/// The path of the file of this number, from 1.
pub(crate) fn numbered_file(files: &[String], number: u64) -> &str
    ensures { result.now ≡ file_path files.now number }
{
    match files.get(number.saturating_sub(1) as usize) {
        Some(path) => path.as_str(),
        None => "",
    }
}

/// An error of an input in words, with the line that has it, if that was read again.
pub fn of_input<'a>(fault: Fault, given: Given<'a>, line: Option<&'a [u8]>) -> Explanation<'a>
    ensures { IsOfInput fault given.entry (option_map (λ l. l.now) line.entry) result }
{
    match fault {
        Fault::StationLine { line: number, why } => {
            station::explained(given.stations, number, why, line)
        }
        Fault::TooManyStations => Explanation::Of {
            name: given.stations,
            says: "a station list has at most 1048576 stations",
        },
        Fault::Memory(_) => Explanation::Plain(NO_MEMORY),
        Fault::DailyLine {
            file,
            line: number,
            why,
        } => daily::explained(numbered_file(given.files, file), number, why, line),
        Fault::TooManyFiles => Explanation::Plain("at most 1048576 daily files are read"),
        Fault::BadWorkers => Explanation::Plain("--workers: 1 to 64 workers may run"),
        Fault::BadGuess => Explanation::Plain("--guess: a score is from -2147483648 to 2147483648"),
        Fault::QueryTooLong => of_query(QueryFault::QueryTooLong, given.query),
        Fault::UnexpectedWord(at) => of_query(QueryFault::UnexpectedWord(at), given.query),
        Fault::QueryEnds => of_query(QueryFault::QueryEnds, given.query),
        Fault::OutOfLimits(at) => of_query(QueryFault::OutOfLimits(at), given.query),
        Fault::BadDate(at) => of_query(QueryFault::BadDate(at), given.query),
        Fault::BadBox(at) => of_query(QueryFault::BadBox(at), given.query),
        Fault::EmptyPeriod => of_query(QueryFault::EmptyPeriod, given.query),
    }
}

/// An error of a query in words.
pub fn of_query(fault: QueryFault, query: &str) -> Explanation<'_>
    ensures { IsOfQuery fault query.now result }
{
    match fault {
        QueryFault::QueryTooLong => Explanation::Plain("a query has at most 256 bytes"),
        QueryFault::UnexpectedWord(at)
        | QueryFault::OutOfLimits(at)
        | QueryFault::BadDate(at)
        | QueryFault::BadBox(at) => of_word(query, at),
        QueryFault::QueryEnds => Explanation::End(more_words(query.as_bytes())),
        QueryFault::EmptyPeriod => Explanation::Of {
            name: query,
            says: "its second day is before its first",
        },
    }
}

/// The word of a query of this number, from 1, in words.
fn of_word(query: &str, number: u64) -> Explanation<'_>
    ensures { SaysWord query.now result }
{
    match wrong_word(query.as_bytes(), number) {
        Some(word) => Explanation::Word(word),
        None => Explanation::Of {
            name: query,
            says: "it has no such word",
        },
    }
}
