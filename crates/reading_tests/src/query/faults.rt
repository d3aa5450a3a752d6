//! The first error of a query text.

use crate::texts::is_printed;
use rank_query::QueryFault::{
    BadBox, BadDate, EmptyPeriod, OutOfLimits, QueryEnds, QueryTooLong, UnexpectedWord,
};
use rank_query::{Query, QueryFault};
use std::alloc::Global;

#[test]
fn first_fault_of_a_query(rt: HostRuntime) {
    let cases = [
        ("top 1000 highest TMAX", None),
        ("  top  0007   highest SNWD ", None),
        ("", Some(QueryEnds)),
        ("bottom 1 highest TMAX", Some(UnexpectedWord(1))),
        ("top", Some(QueryEnds)),
        ("top -1 highest TMAX", Some(UnexpectedWord(2))),
        ("top 1001 highest TMAX", Some(OutOfLimits(2))),
        ("top 0 highest TMAX", Some(OutOfLimits(2))),
        ("top 1", Some(QueryEnds)),
        ("top 1 hotter 30", Some(UnexpectedWord(3))),
        ("top 1 colder 0", Some(UnexpectedWord(3))),
        ("top 1 highest", Some(QueryEnds)),
        ("top 1 highest TAVG", Some(UnexpectedWord(4))),
        ("top 1 lowest PRCP", Some(UnexpectedWord(4))),
        ("top 1 lowest SNOW", Some(UnexpectedWord(4))),
        ("top 1 sum 366 PRCP", None),
        ("top 1 sum 367 PRCP", Some(OutOfLimits(4))),
        ("top 1 sum 0 PRCP", Some(OutOfLimits(4))),
        ("top 1 sum PRCP", Some(UnexpectedWord(4))),
        ("top 1 sum 3 SNWD", Some(UnexpectedWord(5))),
        ("top 1 sum 3", Some(QueryEnds)),
        ("top 1 highest TMAX TMAX", Some(UnexpectedWord(5))),
    ];
    for (text, fault) in cases {
        assert_eq!(rt; Query::parse(text).err(), fault, "at {text}");
    }
}

#[test]
fn first_fault_of_degrees(rt: HostRuntime) {
    let cases = [
        ("top 1 hot 30", None),
        ("top 1 hot 100.0", None),
        ("top 1 hot 100.1", Some(OutOfLimits(4))),
        ("top 1 hot -100.1", Some(OutOfLimits(4))),
        ("top 1 hot 101", Some(OutOfLimits(4))),
        ("top 1 hot 99999999999", Some(OutOfLimits(4))),
        ("top 1 hot 30.05", Some(UnexpectedWord(4))),
        ("top 1 hot 30.", Some(UnexpectedWord(4))),
        ("top 1 hot .5", Some(UnexpectedWord(4))),
        ("top 1 hot +30", Some(UnexpectedWord(4))),
        ("top 1 hot --3", Some(UnexpectedWord(4))),
        ("top 1 hot TMAX", Some(UnexpectedWord(4))),
        ("top 1 hot 30 TMAX", Some(UnexpectedWord(5))),
        ("top 1 hot", Some(QueryEnds)),
        ("top 1 cold -100.0", None),
        ("top 1 cold -100.1", Some(OutOfLimits(4))),
        ("top 1 cold 100.1", Some(OutOfLimits(4))),
        ("top 1 cold -10.05", Some(UnexpectedWord(4))),
        ("top 1 cold TMIN", Some(UnexpectedWord(4))),
        ("top 1 cold -10 TMIN", Some(UnexpectedWord(5))),
        ("top 1 cold", Some(QueryEnds)),
    ];
    for (text, fault) in cases {
        assert_eq!(rt; Query::parse(text).err(), fault, "at {text}");
    }
}

#[test]
fn first_fault_of_a_region(rt: HostRuntime) {
    let cases = [
        ("top 1 highest TMAX box -90 -180 90 180", None),
        ("top 1 highest TMAX box -91 0 10 10", Some(BadBox(6))),
        ("top 1 highest TMAX box +1 0 10 10", Some(BadBox(6))),
        ("top 1 highest TMAX box 0 181 0 x", Some(BadBox(7))),
        ("top 1 highest TMAX box 0 180.00000", Some(BadBox(7))),
        ("top 1 highest TMAX box 10 0 -10 10", Some(BadBox(8))),
        ("top 1 highest TMAX box 10 0 -10", Some(BadBox(8))),
        ("top 1 highest TMAX box 10 0 90.0001", Some(BadBox(8))),
        ("top 1 highest TMAX box 0 0 0 -180.0001", Some(BadBox(9))),
        ("top 1 highest TMAX box 0 0 0 .5", Some(BadBox(9))),
        ("top 1 highest TMAX box 0 0 0", Some(QueryEnds)),
        (
            "top 1 highest TMAX box 0 0 0 0 country ZZ",
            Some(UnexpectedWord(10)),
        ),
        ("top 1 highest TMAX country Z", Some(UnexpectedWord(6))),
        ("top 1 highest TMAX state NYC", Some(UnexpectedWord(6))),
        ("top 1 highest TMAX state \u{7f}!", Some(UnexpectedWord(6))),
        (
            "top 1 highest TMAX station ZZA0000000",
            Some(UnexpectedWord(6)),
        ),
        ("top 1 highest TMAX station", Some(QueryEnds)),
        (
            "top 1 highest TMAX Station ZZA00000003",
            Some(UnexpectedWord(5)),
        ),
    ];
    for (text, fault) in cases {
        assert_eq!(rt; Query::parse(text).err(), fault, "at {text}");
    }
}

#[test]
fn first_fault_of_a_season(rt: HostRuntime) {
    let cases = [
        ("top 1 dry months 1..12", None),
        ("top 1 dry months 012..0000000000000000000002", None),
        ("top 1 dry months 0..3", Some(OutOfLimits(5))),
        ("top 1 dry months 3..0", Some(OutOfLimits(5))),
        ("top 1 dry months 13..1", Some(OutOfLimits(5))),
        (
            "top 1 dry months 1..99999999999999999999999",
            Some(OutOfLimits(5)),
        ),
        ("top 1 dry months 0..x", Some(UnexpectedWord(5))),
        ("top 1 dry months 1-3", Some(UnexpectedWord(5))),
        ("top 1 dry months 1.3", Some(UnexpectedWord(5))),
        ("top 1 dry months 1...3", Some(UnexpectedWord(5))),
        ("top 1 dry months 1..3.", Some(UnexpectedWord(5))),
        ("top 1 dry months ..3", Some(UnexpectedWord(5))),
        ("top 1 dry months 1..", Some(UnexpectedWord(5))),
        ("top 1 dry months 1 ..3", Some(UnexpectedWord(5))),
        ("top 1 dry months", Some(QueryEnds)),
        ("top 1 dry months 1..2 country ZZ", Some(UnexpectedWord(6))),
        (
            "top 1 dry from 2020-07-01 to 2020-07-01 months 1..2",
            Some(UnexpectedWord(8)),
        ),
    ];
    for (text, fault) in cases {
        assert_eq!(rt; Query::parse(text).err(), fault, "at {text}");
    }
}

#[test]
fn first_fault_of_a_season_of_days(rt: HostRuntime) {
    let cases = [
        ("top 1 dry days 01-01..12-31", None),
        ("top 1 dry days 12-31..01-01", None),
        ("top 1 dry days 02-29..02-29", None),
        ("top 1 dry days 02-30..03-01", Some(BadDate(5))),
        ("top 1 dry days 03-01..02-30", Some(BadDate(5))),
        ("top 1 dry days 00-01..02-01", Some(BadDate(5))),
        ("top 1 dry days 01-00..02-01", Some(BadDate(5))),
        ("top 1 dry days 04-31..05-01", Some(BadDate(5))),
        ("top 1 dry days 13-01..01-01", Some(BadDate(5))),
        ("top 1 dry days 1-1..2-2", Some(BadDate(5))),
        ("top 1 dry days 01-01", Some(BadDate(5))),
        ("top 1 dry days 01-01.02-02", Some(BadDate(5))),
        ("top 1 dry days 01-01...02-02", Some(BadDate(5))),
        ("top 1 dry days 01-01..02-02x", Some(BadDate(5))),
        ("top 1 dry days 01/01..02/02", Some(BadDate(5))),
        ("top 1 dry days 6..8", Some(BadDate(5))),
        ("top 1 dry days from", Some(BadDate(5))),
        ("top 1 dry days 2020-01-01..2020-02-02", Some(BadDate(5))),
        ("top 1 dry days 01-01 ..02-02", Some(BadDate(5))),
        ("top 1 dry days", Some(QueryEnds)),
        ("top 1 dry months 01-01..02-02", Some(UnexpectedWord(5))),
        (
            "top 1 dry days 12-15..01-15 months 1..2",
            Some(UnexpectedWord(6)),
        ),
        (
            "top 1 dry months 1..2 days 12-15..01-15",
            Some(UnexpectedWord(6)),
        ),
        (
            "top 1 dry days 12-15..01-15 country ZZ",
            Some(UnexpectedWord(6)),
        ),
        (
            "top 1 dry from 2020-07-01 to 2020-07-01 days 12-15..01-15",
            Some(UnexpectedWord(8)),
        ),
    ];
    for (text, fault) in cases {
        assert_eq!(rt; Query::parse(text).err(), fault, "at {text}");
    }
}

#[test]
fn first_fault_of_a_period(rt: HostRuntime) {
    let cases = [
        ("top 1 dry from 0001-01-01 to 9999-12-31", None),
        ("top 1 dry from 2019-02-29 to 2019-03-01", Some(BadDate(5))),
        (
            "top 1 dry from 2019-03-01 2019-03-02",
            Some(UnexpectedWord(6)),
        ),
        ("top 1 dry from 2019-03-01 to 2019-3-2", Some(BadDate(7))),
        ("top 1 dry from 2020-07-02 to 2020-07-01", Some(EmptyPeriod)),
        (
            "top 1 dry from 2020-07-02 to 2020-07-01 x",
            Some(EmptyPeriod),
        ),
        (
            "top 1 dry from 2020-07-01 to 2020-07-01 country ZZ",
            Some(UnexpectedWord(8)),
        ),
        (
            "top 1 dry country ZZ from 2020-07-01 to 2020-07-0x",
            Some(BadDate(9)),
        ),
        ("top 1 dry from 2020-07-01 to", Some(QueryEnds)),
    ];
    for (text, fault) in cases {
        assert_eq!(rt; Query::parse(text).err(), fault, "at {text}");
    }
}

#[test]
fn first_fault_of_a_group(rt: HostRuntime) {
    let cases = [
        ("top 1 dry per station", None),
        ("top 1 dry country ZZ months 1..2 per year", None),
        ("top 1 dry per", Some(QueryEnds)),
        ("top 1 dry per day", Some(UnexpectedWord(5))),
        ("top 1 dry per years", Some(UnexpectedWord(5))),
        ("top 1 dry per year per station", Some(UnexpectedWord(6))),
        ("top 1 dry per year months 1..2", Some(UnexpectedWord(6))),
        ("top 1 dry year", Some(UnexpectedWord(4))),
        ("top 1 dry station per", Some(UnexpectedWord(5))),
    ];
    for (text, fault) in cases {
        assert_eq!(rt; Query::parse(text).err(), fault, "at {text}");
    }
}

/// The error of a query that has a word that many times between its front and its back.
fn fault_of_long(
    alloc: Global,
    (front, word, times, back): (&str, &str, u32, &str),
) -> Option<Option<QueryFault>> {
    let mut text = String::from_str(alloc, front).ok()?;
    for _ in 0..times {
        text.push_str(word).ok()?;
    }
    text.push_str(back).ok()?;
    Some(Query::parse(&text).err())
}

#[test]
fn long_queries(rt: HostRuntime) {
    let cases = [
        (("", " ", 256, ""), QueryEnds),
        (("", " ", 257, ""), QueryTooLong),
        (("top ", "9", 238, " highest TMAX"), OutOfLimits(2)),
        (("top ", "0", 239, " highest TMAX"), OutOfLimits(2)),
        (("top ", "9", 300, " highest TMAX"), QueryTooLong),
    ];
    for (parts, fault) in cases {
        let found = fault_of_long(rt.alloc(), parts);
        assert_eq!(rt; found, Some(Some(fault)), "{} times", parts.2);
    }
}

#[test]
fn texts_of_faults(rt: HostRuntime) {
    let cases = [
        (QueryTooLong, "refused 7 QueryTooLong"),
        (UnexpectedWord(3), "refused 8 UnexpectedWord 3"),
        (QueryEnds, "refused 9 QueryEnds"),
        (OutOfLimits(2), "refused 10 OutOfLimits 2"),
        (BadDate(5), "refused 11 BadDate 5"),
        (BadBox(8), "refused 12 BadBox 8"),
        (EmptyPeriod, "refused 13 EmptyPeriod"),
    ];
    for (fault, line) in cases {
        assert_eq!(rt; is_printed(rt.alloc(), &fault, line), Some(true), "{line}");
    }
}
