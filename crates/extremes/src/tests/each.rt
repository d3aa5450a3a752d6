//! Runs over a list of queries.

use super::named::{named, run_of};
use super::*;
use command_line::{Command, RankEachArguments};
use std::alloc::{AllocError, Global};
use std::test::Fail;

/// A command to rank a folder and a list of daily files for each query of a list.
pub(super) fn ranking(
    alloc: Global,
    queries: &str,
    stations: &str,
    list: &str,
    workers: u64,
) -> Result<Command, AllocError> {
    Ok(Command::RankEach(RankEachArguments {
        stations: String::from_str(alloc, stations)?,
        queries: String::from_str(alloc, queries)?,
        papers: None,
        workers,
        files: named(alloc, list)?,
    }))
}

#[test]
fn reports_come_in_the_order_of_the_list(rt: HostRuntime) -> Result<(), Fail> {
    let asked = ranking(rt.alloc(), "queries", "stations", "list", 4)?;
    let (out, lines, ending) = run_of(&rt, asked);
    let mut reports = Vec::new(rt.alloc());
    reports.extend_from_slice(REPORT)?;
    reports.extend_from_slice(BEST)?;
    assert_eq!(rt; out.as_slice(), reports.as_slice());
    assert_eq!(rt; lines.as_str(), "");
    assert_eq!(rt; ending, Ending::Done);
    Ok(())
}

#[test]
fn the_first_error_of_a_list_of_queries(rt: HostRuntime) -> Result<(), Fail> {
    let cases = [
        (
            "no",
            "stations",
            "list",
            0,
            "file not read no\n",
            Ending::File,
        ),
        (
            "misprint",
            "no",
            "list",
            0,
            "refused 18 BadWorkers\n",
            Ending::Refused,
        ),
        (
            "misprint",
            "no",
            "list",
            65,
            "refused 18 BadWorkers\n",
            Ending::Refused,
        ),
        (
            "misprint",
            "no",
            "list",
            64,
            "refused 9 QueryEnds\nat misprint:2\n",
            Ending::Refused,
        ),
        (
            "garbled",
            "no",
            "list",
            1,
            "file not read garbled\nat garbled:2\n",
            Ending::File,
        ),
        (
            "nothing",
            "no",
            "list",
            1,
            "refused 9 QueryEnds\nat nothing:1\n",
            Ending::Refused,
        ),
        (
            "queries",
            "no",
            "short",
            1,
            "file not read no\n",
            Ending::File,
        ),
        (
            "queries",
            "stations",
            "short",
            1,
            "refused 5 DailyLine file 4 line 1 Short\nat short.dly:1\n",
            Ending::Refused,
        ),
        ("no", "no", "none", 0, "file not read none\n", Ending::File),
    ];
    for (queries, stations, list, workers, expected, end) in cases {
        let asked = ranking(rt.alloc(), queries, stations, list, workers)?;
        let (out, lines, ending) = run_of(&rt, asked);
        assert_eq!(rt; lines.as_str(), expected);
        assert_eq!(rt; ending, end);
        assert!(rt; out.is_empty());
    }
    Ok(())
}
