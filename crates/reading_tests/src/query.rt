//! Worked examples of query texts, and of what a query admits.

mod admits;
mod canonical;
mod faults;

use admits::{admits_at, admits_number};
use ghcn_files::{Element, StationId};
use rank_query::{Per, Query, Region, Score};

/// How many a query asks for, and its season.
fn count_and_season(text: &str) -> Option<(u64, Option<(u8, u8)>)> {
    let query = Query::parse(text).ok()?;
    Some((query.k(), query.season()))
}

/// The score of a query, and the element that it is about.
fn score_of(text: &str) -> Option<(Score, Element)> {
    let query = Query::parse(text).ok()?;
    Some((query.score(), query.element()))
}

/// The region of a query, and the first and the last day of its period.
fn region_of(text: &str) -> Option<(Region, Option<(i32, i32)>)> {
    let query = Query::parse(text).ok()?;
    let period = match query.period() {
        Some((first, last)) => Some((first.number(), last.number())),
        None => None,
    };
    Some((query.region(), period))
}

#[test]
fn parts_of_a_query(rt: HostRuntime) {
    let text = "top 12 highest SNOW";
    assert_eq!(rt; count_and_season(text), Some((12, None)));
    let score = (Score::Highest(Element::Snow), Element::Snow);
    assert_eq!(rt; score_of(text), Some(score));
    assert_eq!(rt; region_of(text), Some((Region::Everywhere, None)));
    assert_eq!(rt; admits_at(text, 0, 0), Some((Region::Everywhere, true)));
    for number in [-719_162, 0, 2_932_896] {
        assert_eq!(rt;
            admits_number(text, number),
            Some((true, true)),
            "at {number}"
        );
    }
}

/// The months and the days of the season of a query, the days by their numbers.
fn season_of(text: &str) -> Option<(Option<(u8, u8)>, Option<(i32, i32)>)> {
    let query = Query::parse(text).ok()?;
    let days = match query.days() {
        Some((first, last)) => Some((first.number(), last.number())),
        None => None,
    };
    Some((query.season(), days))
}

#[test]
fn seasons_of_queries(rt: HostRuntime) {
    let cases = [
        ("top 1 dry", None, None),
        ("top 1 dry months 12..2", Some((12, 2)), None),
        ("top 1 dry days 12-15..01-15", None, Some((11_306, 10_971))),
        ("top 1 dry days 01-01..12-31", None, Some((10_957, 11_322))),
    ];
    for (text, months, days) in cases {
        assert_eq!(rt; season_of(text), Some((months, days)), "{text}");
    }
}

/// The groups of a query.
fn group_of(text: &str) -> Option<Per> {
    Some(Query::parse(text).ok()?.per())
}

#[test]
fn groups_of_a_query(rt: HostRuntime) {
    assert_eq!(rt; group_of("top 1 wet"), Some(Per::Each));
    assert_eq!(rt; group_of("top 1 wet per station"), Some(Per::Station));
    assert_eq!(rt; group_of("top 1 wet months 1..2 per year"), Some(Per::Year));
}

#[test]
fn scores_and_their_elements(rt: HostRuntime) {
    let cases = [
        (
            "top 1 highest SNWD",
            Score::Highest(Element::Snwd),
            Element::Snwd,
        ),
        (
            "top 1 lowest TMAX",
            Score::Lowest(Element::Tmax),
            Element::Tmax,
        ),
        (
            "top 1 lowest TMIN",
            Score::Lowest(Element::Tmin),
            Element::Tmin,
        ),
        (
            "top 1 sum 1 SNOW",
            Score::Sum(1, Element::Snow),
            Element::Snow,
        ),
        (
            "top 1 sum 366 PRCP",
            Score::Sum(366, Element::Prcp),
            Element::Prcp,
        ),
        ("top 1 dry", Score::Dry, Element::Prcp),
        ("top 1 wet", Score::Wet, Element::Prcp),
        ("top 1 hot 31.1", Score::Hot(311), Element::Tmax),
        ("top 1 cold -31.1", Score::Cold(-311), Element::Tmin),
    ];
    for (text, score, element) in cases {
        assert_eq!(rt; score_of(text), Some((score, element)), "of {text}");
    }
}

#[test]
fn regions_of_a_query(rt: HostRuntime) {
    let cases = [
        (
            "top 1 highest TMAX box 12 22 12 22",
            inside(120_000, 220_000, 120_000, 220_000),
        ),
        (
            "top 1 highest TMAX box -10 170 10 -170",
            inside(-100_000, 1_700_000, 100_000, -1_700_000),
        ),
        ("top 1 highest TMAX country ZZ", Region::Country(*b"ZZ")),
        ("top 1 highest TMAX state NY", Region::State(*b"NY")),
        (
            "top 1 highest TMAX station ZZA00000003",
            Region::Only(StationId(*b"ZZA00000003")),
        ),
    ];
    for (text, region) in cases {
        assert_eq!(rt; region_of(text), Some((region, None)), "of {text}");
    }
}

#[test]
fn periods_of_a_query(rt: HostRuntime) {
    let days = Some((18_444, 18_445));
    let cases = [
        (
            "top 1 highest TMAX from 2020-07-01 to 2020-07-02",
            Region::Everywhere,
        ),
        (
            "top 1 highest TMAX country to from 2020-07-01 to 2020-07-02",
            Region::Country(*b"to"),
        ),
    ];
    for (text, region) in cases {
        assert_eq!(rt; region_of(text), Some((region, days)), "of {text}");
    }
}

fn inside(south: i32, west: i32, north: i32, east: i32) -> Region {
    Region::Inside {
        south,
        west,
        north,
        east,
    }
}
