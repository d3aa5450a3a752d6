//! Canonical texts of queries.

use rank_query::Query;
use std::alloc::Global;

/// Whether this is the canonical text of a query.
fn is_canonical(alloc: Global, text: &str, canonical: &str) -> Option<bool> {
    let query = Query::parse(text).ok()?;
    let found = query.text(alloc).ok()?;
    Some(found.as_str() == canonical)
}

#[test]
fn canonical_texts(rt: HostRuntime) {
    let cases = [
        (" top  007  highest PRCP", "top 7 highest PRCP"),
        ("top  007 wet", "top 7 wet"),
        ("top 1 sum 0366 PRCP", "top 1 sum 366 PRCP"),
        ("top 1 hot -0", "top 1 hot 0.0"),
        ("top 1 hot 30", "top 1 hot 30.0"),
        ("top 1 hot -00.5", "top 1 hot -0.5"),
        ("top 1 hot -100", "top 1 hot -100.0"),
        ("top 3  cold -010", "top 3 cold -10.0"),
        ("top 1 dry months 012..02", "top 1 dry months 12..2"),
        ("top 09 wet  per year", "top 9 wet per year"),
        (
            "top 1 wet months 1..2 from 2020-07-01 to 2020-07-01 per  station",
            "top 1 wet months 1..2 from 2020-07-01 to 2020-07-01 per station",
        ),
        (
            "top 1 dry  days 12-15..01-15 ",
            "top 1 dry days 12-15..01-15",
        ),
        (
            "top 1 wet state NY months 6..08 from 2020-07-01 to 2020-07-01",
            "top 1 wet state NY months 6..8 from 2020-07-01 to 2020-07-01",
        ),
        (
            "top 3 highest TMAX box -10 170 10 -170",
            "top 3 highest TMAX box -10.0000 170.0000 10.0000 -170.0000",
        ),
        (
            "top 1 highest TMIN box -0.0 -00.05 0.5 0180.0",
            "top 1 highest TMIN box 0.0000 -0.0500 0.5000 180.0000",
        ),
        (
            "top 1 highest TMAX state  NY",
            "top 1 highest TMAX state NY",
        ),
    ];
    for (text, canonical) in cases {
        let is_canonical = is_canonical(rt.alloc(), text, canonical);
        assert_eq!(rt; is_canonical, Some(true), "at {text}");
    }
}

#[test]
fn texts_that_are_canonical(rt: HostRuntime) {
    let texts = [
        "top 1000 highest TMAX",
        "top 2 lowest TMIN",
        "top 1 dry from 2020-07-01 to 2020-07-01",
        "top 1 dry country ZZ days 02-29..02-29 from 2020-07-01 to 2020-07-01",
        "top 1 highest TMAX country ZZ",
        "top 1 highest TMAX station ZZA00000003 from 2020-07-02 to 2020-07-02",
    ];
    for text in texts {
        assert_eq!(rt; is_canonical(rt.alloc(), text, text), Some(true), "{text}");
    }
}
