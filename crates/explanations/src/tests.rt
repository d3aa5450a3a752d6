//! What is said about each error. The texts are written out here.

mod daily;
mod inputs;
mod parts;
mod people;
mod tables;

use crate::again::{line_with_error, looks_compressed};
use crate::explanation::Explanation;
use crate::input::{Given, of_input, of_query};
use crate::merge::of_merge;
use crate::notice::{COMPRESSED, FOREIGN, ODD, UNLISTED};
use crate::people::ForPeople;
use crate::table::of_table;
use command_line::Part;
use ghcn_fields::Memory;
use ghcn_files::{LineWhy, StationId, StationWhy};
use ghcn_series::{DailyWhy, Foreign, LinePlace, OddLines, Warnings};
use rank_input::{Fault, NotNamed, System};
use rank_merge::MergeFault;
use rank_query::{Query, QueryFault};
use rank_table::TableFault;
use std::alloc::Global;
use std::test::Fail;

/// The head of a daily line.
const HEAD: &str = "EGE00123161196907TMAX";

/// The head of a line of the station list.
const STATION: &str = "EGE00123161  31.1992   29.9364   -1.0";

/// A line that begins so and has that many columns, filled with blanks.
fn line(alloc: Global, front: &str, columns: usize) -> Result<String, Fail> {
    Ok(format!(in alloc; "{front:columns$}")?)
}

/// What is said about an error of the fifth line of the second of two files, or of the fifth of the list.
fn said(alloc: Global, fault: Fault, text: Option<&[u8]>) -> Result<String, Fail> {
    let files = [
        String::from_str(alloc, "first.dly")?,
        String::from_str(alloc, "second.dly")?,
    ];
    let given = Given {
        query: "top 3 lowest PRCP",
        stations: "stations.txt",
        files: &files,
    };
    Ok(format!(in alloc; "{}", of_input(fault, given, text))?)
}

#[test]
fn words_of_queries(rt: HostRuntime) -> Result<(), Fail> {
    let alloc = rt.alloc();
    let cases = [
        ("", ": top has to follow"),
        ("Top 1", "Top: Top isn't top"),
        ("top", "top: a number from 1 to 1000 has to follow"),
        ("top 0 dry", "top 0: 0 isn't a number from 1 to 1000"),
        (
            "top 1",
            "top 1: one of highest lowest sum dry wet hot cold has to follow",
        ),
        (
            "top 1 high",
            "top 1 high: high is none of highest lowest sum dry wet hot cold",
        ),
        (
            "top 1 highest TMX",
            "top 1 highest TMX: TMX is none of PRCP SNOW SNWD TMAX TMIN",
        ),
        (
            "top 1 lowest SNOW dry",
            "top 1 lowest SNOW: SNOW is none of TMAX TMIN",
        ),
        (
            "top 1 sum 367 PRCP",
            "top 1 sum 367: 367 isn't a number from 1 to 366",
        ),
        (
            "top 1 sum 3 TMAX",
            "top 1 sum 3 TMAX: TMAX is none of PRCP SNOW",
        ),
        (
            "top 1 hot 1.25",
            "top 1 hot 1.25: 1.25 isn't a number from -100 to 100 with at most one decimal",
        ),
        (
            "top 1 cold 101",
            "top 1 cold 101: 101 isn't a number from -100 to 100 with at most one decimal",
        ),
        (
            "top 1 cold",
            "top 1 cold: a number from -100 to 100 with at most one decimal has to follow",
        ),
        (
            "top 1 wet  where",
            "top 1 wet  where: where is none of box country state station months days from per",
        ),
        (
            "top 1 wet box 91",
            "top 1 wet box 91: 91 isn't a latitude from -90 to 90",
        ),
        (
            "top 1 wet box 9 181",
            "top 1 wet box 9 181: 181 isn't a longitude from -180 to 180",
        ),
        (
            "top 1 wet box 9 1 8",
            "top 1 wet box 9 1 8: 8 isn't a latitude from that of the southern edge to 90",
        ),
        (
            "top 1 wet box 9 1 9 x",
            "top 1 wet box 9 1 9 x: x isn't a longitude from -180 to 180",
        ),
        (
            "top 1 wet country GER",
            "top 1 wet country GER: GER isn't a code of two characters",
        ),
        (
            "top 1 wet state X",
            "top 1 wet state X: X isn't a code of two characters",
        ),
        (
            "top 1 wet station X",
            "top 1 wet station X: X isn't an ID of eleven characters",
        ),
        (
            "top 1 wet state NY state",
            "top 1 wet state NY state: state is none of months days from per",
        ),
        (
            "top 1 dry months 6-8",
            "top 1 dry months 6-8: 6-8 isn't two months from 1 to 12, written A..B",
        ),
        (
            "top 1 dry months 6..8 x",
            "top 1 dry months 6..8 x: x is none of from per",
        ),
        (
            "top 1 dry days 02-30..03-01",
            "top 1 dry days 02-30..03-01: 02-30..03-01 isn't two days of a year, written MM-DD..MM-DD",
        ),
        (
            "top 1 dry days",
            "top 1 dry days: two days of a year, written MM-DD..MM-DD has to follow",
        ),
        (
            "top 1 dry days 12-15..01-15 months",
            "top 1 dry days 12-15..01-15 months: months is none of from per",
        ),
        (
            "top 1 dry from 2019-02-29",
            "top 1 dry from 2019-02-29: 2019-02-29 isn't a date from 0001-01-01 to 9999-12-31",
        ),
        (
            "top 1 dry from 2019-01-01 till",
            "top 1 dry from 2019-01-01 till: till isn't to",
        ),
        (
            "top 1 dry from 2019-01-01 to",
            "top 1 dry from 2019-01-01 to: a date from 0001-01-01 to 9999-12-31 has to follow",
        ),
        (
            "top 1 dry from 2019-01-01 to 2018-12-31",
            "top 1 dry from 2019-01-01 to 2018-12-31: its second day is before its first",
        ),
        (
            "top 1 dry from 2019-01-01 to 2019-01-02 ! more",
            "top 1 dry from 2019-01-01 to 2019-01-02 !: ! isn't per",
        ),
        (
            "top 1 dry per day",
            "top 1 dry per day: day is none of station year",
        ),
        (
            "top 1 dry per",
            "top 1 dry per: one of station year has to follow",
        ),
        (
            "top 1 dry months 6..8 per year ! more",
            "top 1 dry months 6..8 per year !: nothing may follow before !",
        ),
    ];
    for (query, expected) in cases {
        match Query::parse(query) {
            Ok(_) => assert!(rt; false, "{query}"),
            Err(fault) => {
                let said = format!(in alloc; "{}", of_query(fault, query))?;
                assert_eq!(rt; said.as_str(), expected);
            }
        }
    }
    Ok(())
}

/// Words that are allowed somewhere in a query.
const WORDS: &str =
    "top highest lowest sum dry wet hot cold PRCP SNOW SNWD TMAX TMIN box country state station months \
                     days from to per year";

/// Whether a text is a query, or the beginning of one.
fn begins_a_query(text: &str) -> bool {
    matches!(Query::parse(text), Ok(_) | Err(QueryFault::QueryEnds))
}

/// The words that are offered after the beginning of a query, if they are offered as words.
fn offered_after(alloc: Global, begun: &str) -> Result<Option<String>, Fail> {
    let wrong = format!(in alloc; "{begun} ~")?;
    let Err(fault) = Query::parse(wrong.as_str()) else {
        return Ok(None);
    };
    let said = format!(in alloc; "{}", of_query(fault, wrong.as_str()))?;
    let offered = said
        .rsplit_once(" is none of ")
        .or(said.rsplit_once(" isn't "));
    let Some((_, words)) = offered else {
        return Ok(None);
    };
    Ok(Some(String::from_str(alloc, words)?))
}

fn is_among(word: &str, words: &str) -> bool {
    for other in words.split(' ') {
        if other == word {
            return true;
        }
    }
    false
}

/// The words that are offered somewhere are those that are allowed there: with each of them a query goes on, or it is
/// whole.
#[test]
fn words_that_are_offered(rt: HostRuntime) -> Result<(), Fail> {
    let alloc = rt.alloc();
    let cases = [
        "",
        "top 1",
        "top 1 highest",
        "top 1 lowest",
        "top 1 sum 3",
        "top 1 hot 1",
        "top 1 cold 1",
        "top 1 dry",
        "top 1 dry state NY",
        "top 1 dry months 1..2",
        "top 1 dry days 12-15..01-15",
        "top 1 dry from 2019-01-01",
        "top 1 dry from 2019-01-01 to 2019-01-02",
        "top 1 dry per",
        "top 1 dry state NY per",
        "top 1 dry months 1..2 per",
        "top 1 dry days 12-15..01-15 per",
        "top 1 dry from 2019-01-01 to 2019-01-02 per",
    ];
    for begun in cases {
        let Some(offered) = offered_after(alloc, begun)? else {
            assert!(rt; false, "{begun}");
            continue;
        };
        for word in offered.split(' ') {
            let longer = format!(in alloc; "{begun} {word}")?;
            assert!(rt; begins_a_query(longer.as_str()), "{longer}");
        }
        for word in WORDS.split(' ') {
            let longer = format!(in alloc; "{begun} {word}")?;
            if begins_a_query(longer.as_str()) {
                assert!(rt; is_among(word, &offered), "{longer}");
            }
        }
    }
    Ok(())
}
