//! Checks of the reports and the certificates of a list of queries.

use super::named::{named, run_of};
use super::*;
use command_line::{CheckEachArguments, Command};
use std::alloc::{AllocError, Global};
use std::test::Fail;

/// A command to check the reports and the certificates in a folder against a folder and a list of
/// daily files, for each query of a list.
pub(super) fn judging(
    alloc: Global,
    queries: &str,
    papers: &str,
    stations: &str,
    list: &str,
) -> Result<Command, AllocError> {
    Ok(Command::CheckEach(CheckEachArguments {
        stations: String::from_str(alloc, stations)?,
        queries: String::from_str(alloc, queries)?,
        papers: String::from_str(alloc, papers)?,
        part: false,
        workers: 4,
        files: named(alloc, list)?,
    }))
}

#[test]
fn verdicts_come_in_the_order_of_the_list(rt: HostRuntime) -> Result<(), Fail> {
    let cases = [
        ("papers", "accepted\naccepted\n", Ending::Done),
        (
            "swapped/",
            "refused report line 2 OtherQuery\nrefused report line 2 OtherQuery\n",
            Ending::Refused,
        ),
        (
            "twice",
            "accepted\nrefused report line 2 OtherQuery\n",
            Ending::Refused,
        ),
    ];
    for (papers, expected, end) in cases {
        let asked = judging(rt.alloc(), "queries", papers, "stations", "list")?;
        let (out, lines, ending) = run_of(&rt, asked);
        assert_eq!(rt; out.as_slice(), expected.as_bytes());
        assert_eq!(rt; lines.as_str(), "");
        assert_eq!(rt; ending, end);
    }
    Ok(())
}

#[test]
fn the_first_error_of_a_check_of_queries(rt: HostRuntime) -> Result<(), Fail> {
    let cases = [
        (
            "no",
            "no",
            "no",
            "none",
            "file not read none\n",
            Ending::File,
        ),
        ("no", "no", "no", "list", "file not read no\n", Ending::File),
        (
            "misprint",
            "no",
            "no",
            "list",
            "refused 9 QueryEnds\nat misprint:2\n",
            Ending::Refused,
        ),
        (
            "queries",
            "no",
            "no",
            "list",
            "file not read no/1.report\n",
            Ending::File,
        ),
        (
            "queries",
            "half",
            "no",
            "list",
            "file not read half/2.certificate\n",
            Ending::File,
        ),
        (
            "queries",
            "papers",
            "no",
            "short",
            "file not read no\n",
            Ending::File,
        ),
        (
            "queries",
            "papers",
            "stations",
            "short",
            "refused 5 DailyLine file 4 line 1 Short\nat short.dly:1\n",
            Ending::Refused,
        ),
    ];
    for (queries, papers, stations, list, expected, end) in cases {
        let asked = judging(rt.alloc(), queries, papers, stations, list)?;
        let (out, lines, ending) = run_of(&rt, asked);
        assert_eq!(rt; lines.as_str(), expected);
        assert_eq!(rt; ending, end);
        assert!(rt; out.is_empty());
    }
    Ok(())
}
