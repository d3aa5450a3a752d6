//! Worked examples of the order of candidates, of sinks, and of what a scan offers.

ghost use Rattle.std.specs.Prelude.{◌≡◌, ◌+◌, ◌%◌, ◌^◌, ◌==◌, IfOk, if◌then◌else◌, Some};

use crate::days::{A, B, C, Stretch, TURN_OF_THE_YEAR, data_of};
use ghcn_fields::Day;
use ghcn_files::StationId;
use rank_query::Query;
use rank_scores::{Candidate, Sink, best_first, has_admitted_day, precedes, scan};
use std::alloc::Global;
use std::test::Fail;

/// 2020-07-01.
const JULY: i32 = 18_444;

/// A candidate of some days from one on.
fn candidate(id: StationId, first: i32, last: i32, score: i64) -> Result<Candidate, Fail>
    ensures { IfOk result (λ it. it.id ≡ id) }
{
    Ok(Candidate {
        id,
        first: Day::with_number(first).ok_or("no first day")?,
        last: Day::with_number(last).ok_or("no last day")?,
        score,
    })
}

#[test]
fn score_then_station_then_day(rt: HostRuntime) -> Result<(), Fail> {
    let cases = [
        ("greater score", (C, JULY + 9, 311), (A, JULY, 310), true),
        ("less score", (A, JULY, -4), (B, JULY, -3), false),
        (
            "station before day",
            (A, JULY + 1, 311),
            (B, JULY, 311),
            true,
        ),
        ("later station", (B, JULY, 311), (A, JULY + 1, 311), false),
        ("earlier day", (A, -1, 311), (A, 0, 311), true),
        ("later day", (A, 0, 311), (A, -1, 311), false),
        ("itself", (A, JULY, 311), (A, JULY, 311), false),
    ];
    for (name, a, b, first) in cases {
        let a = candidate(a.0, a.1, a.1, a.2)?;
        let b = candidate(b.0, b.1, b.1, b.2)?;
        assert_eq!(rt; precedes(&a, &b), first, "{name}");
    }
    Ok(())
}

#[test]
fn ties_by_the_last_day(rt: HostRuntime) -> Result<(), Fail> {
    let short = candidate(A, JULY, JULY + 1, 60)?;
    let long = candidate(A, JULY, JULY + 2, 60)?;
    assert!(rt; short < long, "listed by the last day");
    assert_ne!(rt; short, long, "equal only where all four parts are");
    assert!(rt; !precedes(&short, &long), "but of one rank");
    assert!(rt; !precedes(&long, &short), "but of one rank");
    Ok(())
}

#[test]
fn best_of_three_stations(rt: HostRuntime) -> Result<(), Fail> {
    let c = candidate(C, JULY, JULY, 250)?;
    let b = candidate(B, JULY, JULY, 311)?;
    let a = candidate(A, JULY, JULY, 311)?;
    let listed = best_first(vec![in rt.alloc(); c, b, a]?)?;
    assert_eq!(rt; listed.as_slice(), [a, b, c].as_slice());
    Ok(())
}

/// A sink that counts what it was offered.
#[derive(Clone, Copy)]
struct Count {
    offered: u64,
}

impl Sink for Count {
    ghost taken = { λ all candidate. record { offered = (all.offered + 1) % (2 ^ 64) } };

    fn offer(&mut self, _candidate: Candidate) {
        self.offered = self.offered.wrapping_add(1);
    }
}

#[test]
fn a_sink_that_counts(rt: HostRuntime) -> Result<(), Fail> {
    let mut counted = Count { offered: 0 };
    for score in [311, 305, 311] {
        counted.offer(candidate(A, JULY, JULY, score)?);
    }
    assert_eq!(rt; counted.offered, 3);
    Ok(())
}

/// A sink that keeps one of the candidates that it was offered, by its place, and counts them.
#[derive(Clone, Copy)]
struct At {
    place: u64,
    offered: u64,
    found: Option<Candidate>,
}

impl Sink for At {
    ghost taken = { λ at candidate. record {
      place = at.place;
      offered = (at.offered + 1) % (2 ^ 64);
      found = if at.offered == at.place then Some candidate else at.found;
    } };

    fn offer(&mut self, candidate: Candidate) {
        if self.offered == self.place {
            self.found = Some(candidate);
        }
        self.offered = self.offered.wrapping_add(1);
    }
}

/// Some days, a query, and the first day, last day and score of each candidate.
type Row = (&'static [Stretch], &'static str, &'static [(i32, i32, i64)]);

// Day 0 is 1970-01-01, and block 0 has the days 0 to 31. Block -1 has the days -32 to -1.
// Day 2932896 is the last of the calendar, and alone in its block.

#[rattlefmt::skip]
const SCANS: [Row; 32] = [
    // Windows over a block's edge, and spells.
    (&[(30, 1, "    1   "), (31, 1, "    2   "), (32, 1, "    3   "), (33, 1, "    4   ")], "top 9 sum 3 PRCP",
        &[(30, 32, 6), (31, 33, 9)]),
    (&[(30, 4, "   10   ")], "top 9 wet", &[(30, 33, 4)]),
    (&[(20, 90, "    0   ")], "top 9 dry", &[(20, 109, 90)]),
    // Days before 1970, and over block edges there.
    (&[(-2, 1, "   10   "), (-1, 1, "   20   "), (0, 1, "   30   "), (1, 1, "   40   ")], "top 9 sum 2 PRCP",
        &[(-2, -1, 30), (-1, 0, 50), (0, 1, 70)]),
    (&[(-2, 4, "   10   ")], "top 9 wet", &[(-2, 1, 4)]),
    (&[(-34, 4, "    9   ")], "top 9 dry", &[(-34, -31, 4)]),
    (&[(-34, 4, "    9   ")], "top 9 sum 4 PRCP", &[(-34, -31, 36)]),
    // The longest windows, and one day too few.
    (&[(-100, 367, "   10   ")], "top 9 sum 366 PRCP", &[(-100, 265, 3660), (-99, 266, 3660)]),
    (&[(-100, 365, "   10   ")], "top 9 sum 366 PRCP", &[]),
    // A gap, a flagged day and a missing day inside a window and a spell.
    (&[(0, 3, "   10   "), (4, 3, "   20   ")], "top 9 sum 3 PRCP", &[(0, 2, 30), (4, 6, 60)]),
    (&[(0, 3, "   10   "), (3, 1, "   10 X "), (4, 2, "   20   ")], "top 9 sum 2 PRCP",
        &[(0, 1, 20), (1, 2, 20), (4, 5, 40)]),
    (&[(0, 3, "   10   "), (3, 1, "-9999   "), (4, 2, "   20   ")], "top 9 wet", &[(0, 2, 3), (4, 5, 2)]),
    (&[(0, 2, "    0   "), (2, 1, "    0 X "), (3, 1, "    0   ")], "top 9 dry", &[(0, 1, 2), (3, 3, 1)]),
    // A spell that ends with the last day, of the series, of the calendar, and of the period.
    (&[(5, 1, "    9   "), (6, 2, "   10   ")], "top 9 wet", &[(6, 7, 2)]),
    (&[(2_932_895, 2, "   10   ")], "top 9 wet", &[(2_932_895, 2_932_896, 2)]),
    (&[(0, 9, "   10   ")], "top 9 wet from 1970-01-03 to 1970-01-05", &[(2, 4, 3)]),
    // Seasons: day 18262 is 2020-01-01, day 18444 is 2020-07-01.
    (&TURN_OF_THE_YEAR, "top 9 sum 3 PRCP months 12..1",
        &[(18_258, 18_260, 60), (18_259, 18_261, 90), (18_260, 18_262, 75), (18_261, 18_263, 51),
            (18_262, 18_264, 18)]),
    (&TURN_OF_THE_YEAR, "top 9 sum 3 PRCP months 1..1", &[(18_262, 18_264, 18)]),
    (&TURN_OF_THE_YEAR, "top 9 sum 3 PRCP months 2..11", &[]),
    (&[(18_442, 4, "    0   ")], "top 9 dry months 6..6", &[(18_442, 18_443, 2)]),
    (&[(18_300, 800, "    0   ")], "top 9 dry months 06..7 from 2020-06-03 to 2021-07-30",
        &[(18_416, 18_474, 59), (18_779, 18_838, 60)]),
    (&[(-90, 200, "   10   ")], "top 9 wet months 11..2", &[(-61, 58, 120)]),
    // Spells of heat and of frost.
    (&[(18_444, 1, "  300   "), (18_445, 1, "  310   "), (18_446, 1, "  299   "), (18_447, 1, "  305   ")],
        "top 9 hot 30", &[(18_444, 18_445, 2), (18_447, 18_447, 1)]),
    (&[(30, 2, "   -5   "), (32, 2, "   -6   "), (34, 3, "    0   ")], "top 9 hot -0.5", &[(30, 31, 2), (34, 36, 3)]),
    (&[(18_262, 1, " -100   "), (18_263, 1, " -105   "), (18_264, 1, "  -99   "), (18_265, 1, " -110   ")],
        "top 9 cold -10", &[(18_262, 18_263, 2), (18_265, 18_265, 1)]),
    (&[(30, 2, "   -5   "), (32, 2, "   -4   "), (34, 3, "-9998   ")], "top 9 cold -0.5", &[(30, 31, 2), (34, 36, 3)]),
    (&[(30, 2, " 1000   "), (32, 1, " 1001   "), (33, 1, "-9999   "), (34, 1, " -999   ")], "top 9 cold 100",
        &[(30, 31, 2), (34, 34, 1)]),
    // The best of a station and of years: day 18261 is 2019-12-31.
    (&[(18_260, 1, "   10   "), (18_261, 1, "   30   "), (18_262, 1, "   30   "), (18_263, 1, "   20   ")],
        "top 9 highest PRCP per station", &[(18_261, 18_261, 30)]),
    (&[(18_260, 1, "   10   "), (18_261, 1, "   30   "), (18_262, 2, "   20   "), (18_264, 1, "   10   ")],
        "top 9 highest PRCP per year", &[(18_261, 18_261, 30), (18_262, 18_262, 20)]),
    (&[(18_260, 4, "   10   "), (18_265, 2, "   10   ")], "top 9 wet per year",
        &[(18_260, 18_263, 4), (18_265, 18_266, 2)]),
    (&TURN_OF_THE_YEAR, "top 9 sum 3 PRCP per year", &[(18_259, 18_261, 90), (18_262, 18_264, 18)]),
    (&[(-1, 1, "   10   "), (2_932_896, 1, "   10   ")], "top 9 lowest TMAX per year",
        &[(-1, -1, -10), (2_932_896, 2_932_896, -10)]),
];

/// What a sink that keeps the candidate of this place has after a scan of these days.
fn scanned(alloc: Global, stretches: &[Stretch], query: &str, place: u64) -> Option<At> {
    let query = Query::parse(query).ok()?;
    let data = data_of(alloc, query.element(), stretches)?;
    let series = data.series(&A, query.element())?;
    let mut at = At {
        place,
        offered: 0,
        found: None,
    };
    scan(series, &query, &mut at);
    Some(at)
}

/// The first day, last day and score of a candidate.
fn parts_of(found: Option<Candidate>) -> Option<(i32, i32, i64)> {
    let it = found?;
    Some((it.first.number(), it.last.number(), it.score))
}

/// The parts of the candidate at a place, and how many candidates there are.
fn found_at(
    alloc: Global,
    stretches: &[Stretch],
    query: &str,
    place: u64,
) -> Option<(Option<(i32, i32, i64)>, u64)> {
    let at = scanned(alloc, stretches, query, place)?;
    Some((parts_of(at.found), at.offered))
}

#[test]
fn candidates_by_first_day(rt: HostRuntime) {
    for (number, (stretches, query, expected)) in SCANS.iter().enumerate() {
        let count = expected.len() as u64;
        for place in 0..=count {
            let wanted = Some((expected.get(place as usize).copied(), count));
            let found = found_at(rt.alloc(), stretches, query, place);
            assert_eq!(rt; found, wanted, "at {place} of row {number}, {query}");
        }
    }
}

/// Whether a query admits a day of station A's rain over the turn of the year.
fn has_day_of_the_turn(alloc: Global, query: &str) -> Option<bool> {
    let query = Query::parse(query).ok()?;
    let data = data_of(alloc, query.element(), &TURN_OF_THE_YEAR)?;
    let series = data.series(&A, query.element())?;
    Some(has_admitted_day(series, &query))
}

#[test]
fn series_with_an_admitted_day(rt: HostRuntime) {
    let cases = [
        ("top 1 dry", true),
        ("top 1 dry months 12..12", true),
        ("top 1 dry months 1..3", true),
        ("top 1 dry months 2..11", false),
        ("top 1 dry from 2020-01-03 to 2020-12-31", true),
        ("top 1 dry from 2020-01-04 to 2020-12-31", false),
        ("top 1 dry from 2019-01-01 to 2019-12-27", false),
        ("top 1 dry months 1..1 from 2019-01-01 to 2019-12-31", false),
    ];
    for (query, expected) in cases {
        let has = has_day_of_the_turn(rt.alloc(), query);
        assert_eq!(rt; has, Some(expected), "of {query}");
    }
}
