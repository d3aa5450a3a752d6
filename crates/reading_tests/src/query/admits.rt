//! The stations and the days that a query admits.

use super::inside;
use ghcn_fields::Day;
use ghcn_files::{Station, StationId};
use rank_query::{Query, Region};

/// The region of a query, and whether the query admits the station at this place.
pub(crate) fn admits_at(text: &str, latitude: i32, longitude: i32) -> Option<(Region, bool)> {
    let query = Query::parse(text).ok()?;
    let admitted = query.admits_station(&station(latitude, longitude));
    Some((query.region(), admitted))
}

/// Whether a query admits the day of a number, asked by itself and from that day on.
pub(crate) fn admits_number(text: &str, number: i32) -> Option<(bool, bool)> {
    let query = Query::parse(text).ok()?;
    let day = Day::with_number(number)?;
    Some((query.admits_day(day), query.admits_from(day).0))
}

#[test]
fn stations_of_a_region(rt: HostRuntime) {
    let cases = [
        ("top 1 dry country ZZ", Region::Country(*b"ZZ"), true),
        ("top 1 dry country NY", Region::Country(*b"NY"), false),
        ("top 1 dry state NY", Region::State(*b"NY"), true),
        ("top 1 dry state AL", Region::State(*b"AL"), false),
        (
            "top 1 dry station ZZA00000001",
            Region::Only(StationId(*b"ZZA00000001")),
            true,
        ),
        (
            "top 1 dry station ZZA00000002",
            Region::Only(StationId(*b"ZZA00000002")),
            false,
        ),
    ];
    for (text, region, admitted) in cases {
        assert_eq!(rt; admits_at(text, 0, 0), Some((region, admitted)), "{text}");
    }
}

#[test]
fn edges_of_a_box_over_the_date_line(rt: HostRuntime) {
    let text = "top 3 highest TMAX box -10 170 10 -170";
    let region = inside(-100_000, 1_700_000, 100_000, -1_700_000);
    let cases = [
        (100_000, 1_800_000, true),
        (100_000, -1_800_000, true),
        (100_000, 1_700_000, true),
        (-100_000, -1_700_000, true),
        (100_000, 0, false),
        (100_000, 1_699_999, false),
        (100_000, -1_699_999, false),
        (100_001, 1_800_000, false),
        (-100_001, 1_800_000, false),
    ];
    for (latitude, longitude, admitted) in cases {
        assert_eq!(rt;
            admits_at(text, latitude, longitude),
            Some((region, admitted)),
            "at {latitude} {longitude}"
        );
    }
}

#[test]
fn days_of_a_season(rt: HostRuntime) {
    // 2019-11-30 and the day after it, 2019-12-31, 2020-01-31 and the day after it, 2020-02-29.
    let cases = [
        (
            "top 1 dry months 12..1",
            [false, true, true, true, false, false],
        ),
        (
            "top 1 dry months 1..1",
            [false, false, false, true, false, false],
        ),
        (
            "top 1 dry months 2..11",
            [true, false, false, false, true, true],
        ),
        (
            "top 1 dry months 2..2",
            [false, false, false, false, true, true],
        ),
        (
            "top 1 dry months 1..12",
            [true, true, true, true, true, true],
        ),
        (
            "top 1 dry months 12..2 from 2019-12-31 to 2020-02-01",
            [false, false, true, true, true, false],
        ),
    ];
    let numbers = [18_230, 18_231, 18_261, 18_292, 18_293, 18_321];
    for (text, admitted) in cases {
        for day in 0..numbers.len() {
            let found = admits_number(text, numbers[day]);
            let expected = Some((admitted[day], admitted[day]));
            assert_eq!(rt; found, expected, "{text} at day {day}");
        }
    }
}

#[test]
fn days_of_a_season_of_days(rt: HostRuntime) {
    // 2019-02-28 and the day after it, 2019-12-31 and the day after it, 2020-02-28 and the two days after it.
    let numbers = [17_955, 17_956, 18_261, 18_262, 18_320, 18_321, 18_322];
    let cases = [
        (
            "top 1 dry days 02-29..02-29",
            [false, false, false, false, false, true, false],
        ),
        (
            "top 1 dry days 03-01..02-28",
            [true, true, true, true, true, false, true],
        ),
        (
            "top 1 dry days 12-31..12-31",
            [false, false, true, false, false, false, false],
        ),
        (
            "top 1 dry days 12-31..01-01",
            [false, false, true, true, false, false, false],
        ),
        (
            "top 1 dry days 01-02..12-30",
            [true, true, false, false, true, true, true],
        ),
        (
            "top 1 dry days 02-29..03-01",
            [false, true, false, false, false, true, true],
        ),
        (
            "top 1 dry days 01-01..12-31 from 2020-01-01 to 2020-02-28",
            [false, false, false, true, true, false, false],
        ),
    ];
    for (text, admitted) in cases {
        for day in 0..numbers.len() {
            let found = admits_number(text, numbers[day]);
            let expected = Some((admitted[day], admitted[day]));
            assert_eq!(rt; found, expected, "{text} at day {day}");
        }
    }
}

fn station(latitude: i32, longitude: i32) -> Station {
    Station {
        id: StationId(*b"ZZA00000001"),
        latitude,
        longitude,
        elevation: None,
        state: *b"NY",
        name: *b"ALPHA                         ",
    }
}
