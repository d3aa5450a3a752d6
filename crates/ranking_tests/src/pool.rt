//! Worked pools.

use crate::days::{A, B, C, Stretch, data_at, data_of};
use ghcn_fields::Day;
use ghcn_files::StationId;
use rank_pool::Pool;
use rank_query::Query;
use rank_scores::{Candidate, Sink, scan_to_floor};
use std::alloc::Global;
use std::test::Fail;

/// 2020-07-01.
const JULY: i32 = 18_444;

fn day(number: i32) -> Result<Day, Fail> {
    Ok(Day::with_number(number).ok_or("no such day")?)
}

/// The first, the second, the third and the ninth of July 2020.
fn days() -> Result<[Day; 4], Fail> {
    Ok([day(JULY)?, day(JULY + 1)?, day(JULY + 2)?, day(JULY + 8)?])
}

/// A day of a station, with its score.
fn on(id: StationId, first: Day, score: i64) -> Candidate {
    Candidate {
        id,
        first,
        last: first,
        score,
    }
}

#[test]
fn kth_of_what_was_offered(rt: HostRuntime) -> Result<(), Fail> {
    let [first, second, third, _] = days()?;
    let mut pool = Pool::new(rt.alloc(), 2)?;
    assert_eq!(rt; pool.kth(), None, "nothing offered");
    pool.offer(on(A, second, 305));
    assert_eq!(rt; pool.kth(), None, "one place taken");
    pool.offer(on(A, first, 311));
    assert_eq!(rt; pool.kth(), Some(305), "both places taken");
    pool.offer(on(A, third, 306));
    assert_eq!(rt; pool.kth(), Some(306), "a better one");
    let mut other = Pool::new(rt.alloc(), 2)?;
    other.offer(on(C, first, 250));
    other.offer(on(B, first, 311));
    pool.merge(other);
    assert_eq!(rt; pool.kth(), Some(311), "merged");
    let best = [on(A, first, 311), on(B, first, 311)];
    assert_eq!(rt; pool.into_sorted().as_slice(), best.as_slice());
    Ok(())
}

#[test]
fn each_as_often_as_it_was_offered(rt: HostRuntime) -> Result<(), Fail> {
    let [first, _, _, _] = days()?;
    let mut pool = Pool::new(rt.alloc(), 3)?;
    pool.offer(on(A, first, 305));
    pool.offer(on(A, first, 311));
    pool.offer(on(A, first, 305));
    pool.offer(on(A, first, 311));
    let mut other = Pool::new(rt.alloc(), 3)?;
    other.offer(on(A, first, 311));
    pool.merge(other);
    let thrice = [on(A, first, 311), on(A, first, 311), on(A, first, 311)];
    assert_eq!(rt; pool.into_sorted().as_slice(), thrice.as_slice());
    Ok(())
}

#[test]
fn equal_scores_at_the_last_place(rt: HostRuntime) -> Result<(), Fail> {
    let [first, second, third, ninth] = days()?;
    let cases = [
        (
            "a later day falls out",
            on(A, third, 311),
            on(A, second, 311),
        ),
        (
            "an earlier day stands first",
            on(A, first, 311),
            on(A, first, 311),
        ),
        (
            "a later station falls out",
            on(B, first, 311),
            on(A, second, 311),
        ),
        (
            "the same day changes nothing",
            on(A, second, 311),
            on(A, second, 311),
        ),
        (
            "a lower score falls out",
            on(A, first, 310),
            on(A, second, 311),
        ),
    ];
    for (name, offered, last) in cases {
        let mut pool = Pool::new(rt.alloc(), 2)?;
        pool.offer(on(C, ninth, 312));
        pool.offer(on(A, second, 311));
        pool.offer(offered);
        assert_eq!(rt; pool.kth(), Some(311), "{name}");
        let held = [on(C, ninth, 312), last];
        assert_eq!(rt; pool.into_sorted().as_slice(), held.as_slice(), "{name}");
    }
    Ok(())
}

#[test]
fn a_thousand_places(rt: HostRuntime) -> Result<(), Fail> {
    let [first, _, _, _] = days()?;
    let mut rising = Pool::new(rt.alloc(), 1000)?;
    let mut falling = Pool::new(rt.alloc(), 1000)?;
    for i in 1..2501_u32 {
        let kth = if i > 1000 {
            Some(i64::from(i - 1000))
        } else {
            None
        };
        assert_eq!(rt; rising.kth(), kth, "before {i}");
        rising.offer(on(A, first, i64::from(i)));
        falling.offer(on(A, first, i64::from(2501 - i)));
    }
    assert_eq!(rt; rising.kth(), Some(1501));
    assert_eq!(rt; falling.kth(), Some(1501));
    let (rising, falling) = (rising.into_sorted(), falling.into_sorted());
    assert_eq!(rt; rising.len(), 1000);
    assert_eq!(rt; rising.as_slice(), falling.as_slice());
    assert_eq!(rt; rising.first().map(|it| it.score), Some(2500));
    assert_eq!(rt; rising.last().map(|it| it.score), Some(1501));
    Ok(())
}

/// The day and the score of each of two candidates.
type Best = [Option<(i32, i64)>; 2];

// Block 0 has the days 0 to 31, and each later one 32 more.
#[rattlefmt::skip]
const SCANS: [(&[Stretch], &str, Best); 7] = [
    // A block without a day from the second place on, one with a tie, and one with a better day.
    (&[(0, 1, "  311   "), (1, 1, "  305   "), (40, 2, "  304   "), (70, 1, "  305   "), (100, 1, "  312   ")],
        "top 2 highest TMAX", [Some((100, 312)), Some((0, 311))]),
    (&[(0, 2, "  305   "), (40, 2, "  304   "), (70, 1, "  305   ")], "top 2 highest TMAX",
        [Some((0, 305)), Some((1, 305))]),
    (&[(0, 1, "   -5   "), (1, 1, "   -7   "), (40, 3, "   -4   "), (70, 1, "   -8   "), (99, 1, "   -7   ")],
        "top 2 lowest TMIN", [Some((70, 8)), Some((1, 7))]),
    (&[(0, 1, "    0   ")], "top 2 highest PRCP", [Some((0, 0)), None]),
    // Two blocks whose sum is below the second total, and a window with the last day of the second one.
    (&[(0, 3, "  100   "), (3, 93, "    1   "), (96, 2, "  150   ")], "top 2 sum 3 PRCP",
        [Some((95, 301)), Some((0, 300))]),
    // A window of two blocks, after one whose sum is below the second total, and after a gap.
    (&[(0, 34, "   10   "), (64, 31, "    5   "), (126, 34, "    9   ")], "top 2 sum 33 PRCP",
        [Some((0, 330)), Some((1, 330))]),
    (&[(0, 4, "  100   "), (32, 1, "    1   "), (34, 2, "  200   ")], "top 2 sum 2 PRCP",
        [Some((34, 400)), Some((0, 200))]),
];

/// The best two days of a query.
fn best_two(alloc: Global, stretches: &[Stretch], query: &str) -> Option<Best> {
    let query = Query::parse(query).ok()?;
    let data = data_of(alloc, query.element(), stretches)?;
    let mut pool = Pool::new(alloc, 2).ok()?;
    scan_to_floor(data.series(&A, query.element())?, &query, &mut pool);
    let best = pool.into_sorted();
    Some([part_of(best.first()), part_of(best.get(1))])
}

/// The first day and the score of a candidate.
fn part_of(found: Option<&Candidate>) -> Option<(i32, i64)> {
    let it = found?;
    Some((it.first.number(), it.score))
}

#[test]
fn scans_to_the_last_place(rt: HostRuntime) {
    for (number, (stretches, query, best)) in SCANS.iter().enumerate() {
        let found = best_two(rt.alloc(), stretches, query);
        assert_eq!(rt; found, Some(*best), "of row {number}, {query}");
    }
}

/// The station, the day and the score of each of two candidates.
type BestOfTwo = [Option<(StationId, i32, i64)>; 2];

// The days of B, which are scanned first, and those of A, whose smaller ID wins if scores are the same.
#[rattlefmt::skip]
const SCANS_OF_TWO: [(&[Stretch], &[Stretch], &str, BestOfTwo); 4] = [
    (&[(0, 1, "  311   "), (1, 1, "  305   ")], &[(40, 1, "  304   "), (70, 1, "  305   ")],
        "top 2 highest TMAX", [Some((B, 0, 311)), Some((A, 70, 305))]),
    (&[(0, 3, "  305   ")], &[(40, 2, "  305   "), (70, 1, "  305   ")],
        "top 2 highest TMAX", [Some((A, 40, 305)), Some((A, 41, 305))]),
    (&[(0, 2, "   -5   ")], &[(40, 1, "   -4   "), (41, 1, "   -5   "), (70, 1, "   -5   ")],
        "top 2 lowest TMIN", [Some((A, 41, 5)), Some((A, 70, 5))]),
    (&[(0, 4, "  100   ")], &[(40, 3, "  100   "), (70, 3, "   99   ")],
        "top 2 sum 3 PRCP", [Some((A, 40, 300)), Some((B, 0, 300))]),
];

/// The best two days of a query, after a scan of B and one of A.
fn best_of_two(
    alloc: Global,
    of_b: &[Stretch],
    of_a: &[Stretch],
    query: &str,
) -> Option<BestOfTwo> {
    let query = Query::parse(query).ok()?;
    let first = data_at(alloc, "ZZA00000002", query.element(), of_b)?;
    let second = data_at(alloc, "ZZA00000001", query.element(), of_a)?;
    let mut pool = Pool::new(alloc, 2).ok()?;
    scan_to_floor(first.series(&B, query.element())?, &query, &mut pool);
    scan_to_floor(second.series(&A, query.element())?, &query, &mut pool);
    let best = pool.into_sorted();
    Some([named_part_of(best.first()), named_part_of(best.get(1))])
}

/// The station, the first day and the score of a candidate.
fn named_part_of(found: Option<&Candidate>) -> Option<(StationId, i32, i64)> {
    let it = found?;
    Some((it.id, it.first.number(), it.score))
}

#[test]
fn a_smaller_id_wins_at_the_last_place(rt: HostRuntime) {
    for (number, (of_b, of_a, query, best)) in SCANS_OF_TWO.iter().enumerate() {
        let found = best_of_two(rt.alloc(), of_b, of_a, query);
        assert_eq!(rt; found, Some(*best), "of row {number}, {query}");
    }
}
