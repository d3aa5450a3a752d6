//! Worked bounds.

use crate::days::{A, Stretch, TURN_OF_THE_YEAR, data_of};
use rank_blocks::Blocks;
use rank_query::Query;
use std::alloc::Global;
use std::process::Abort;

/// Some days, a query, and the bound that is expected.
type Row = (&'static [Stretch], &'static str, i64);

/// The bound of a series that has these days.
fn bound_of(alloc: Global, stretches: &[Stretch], query: &str) -> Option<i64> {
    let query = Query::parse(query).ok()?;
    let data = data_of(alloc, query.element(), stretches)?;
    let series = data.series(&A, query.element())?;
    let blocks = Blocks::build(alloc, series, &query).ok()?;
    Some(blocks.bound(&query))
}

/// Compares the bound of each row with the expected one.
fn compare(rt: &impl Abort, alloc: Global, rows: &[Row]) {
    for (number, (stretches, query, expected)) in rows.iter().enumerate() {
        let bound = bound_of(alloc, stretches, query);
        assert_eq!(rt; bound, Some(*expected), "row {number}, {query}");
    }
}

// Day 18444 is 2020-07-01, and block 576 has the days 18432 to 18463, from 2020-06-19 to 2020-07-20.
// Day -1 is in block -1, with day -32, and day 0 in block 0.
// Of block -22474 the calendar has the days -719162 to -719137, from 0001-01-01 to 0001-01-26,
// and of block 91653 the day 2932896 alone, which is 9999-12-31.

#[rattlefmt::skip]
const DAYS: [Row; 18] = [
    (&[(18_444, 1, "  311   "), (18_445, 1, "  305   ")], "top 1 highest TMAX from 2020-07-02 to 2020-07-02", 311),
    (&[(18_444, 1, "  311   "), (18_445, 1, "  305   ")], "top 1 highest TMAX", 311),
    (&[(18_444, 1, "  311   ")], "top 1 highest TMAX", 311),
    (&[(18_444, 1, "  250   ")], "top 1 highest TMAX", 250),
    (&[(18_444, 1, "  -50   ")], "top 1 highest TMIN", -50),
    (&[(18_444, 1, "   -5   "), (18_445, 1, "    3   ")], "top 2 lowest TMIN", 5),
    // A whole block, a block without one of its days, and one day of a block.
    (&[(18_432, 32, "  -50   ")], "top 1 highest TMIN", -50),
    (&[(18_432, 31, "  -50   ")], "top 1 highest TMIN", -50),
    (&[(18_432, 32, "   70   ")], "top 1 lowest TMIN", -70),
    (&[(18_463, 1, "   70   ")], "top 1 lowest TMIN", -70),
    (&[(18_444, 1, "  311   ")], "top 1 lowest TMAX", -311),
    (&[(-33, 1, "  300   "), (-32, 1, "  100   "), (0, 1, "  200   ")],
        "top 1 highest TMAX from 1969-12-31 to 1969-12-31", 100),
    (&[(-719_162, 1, "  311   "), (2_932_896, 1, "  250   ")], "top 1 highest TMAX", 311),
    (&[(-719_162, 1, "  250   "), (2_932_896, 1, "  311   ")], "top 1 highest TMAX", 311),
    (&[(-719_162, 1, "  -20   "), (2_932_896, 1, "  -30   ")], "top 1 lowest TMIN", 30),
    (&[(-719_137, 1, "  311   "), (-719_136, 1, "  400   ")], "top 1 highest TMAX from 0001-01-01 to 0001-01-26", 311),
    (&[(-719_137, 1, "  400   "), (-719_136, 1, "  311   ")], "top 1 highest TMAX from 0001-01-27 to 0001-01-27", 311),
    (&[(2_932_895, 1, "  311   "), (2_932_896, 1, "  250   ")],
        "top 1 highest TMAX from 9999-12-31 to 9999-12-31", 250),
];

#[test]
fn bounds_of_single_days(rt: HostRuntime) {
    compare(&rt, rt.alloc(), &DAYS);
}

#[rattlefmt::skip]
const SUMS: [Row; 14] = [
    (
        &[
            (18_258, 1, "   10   "), (18_259, 1, "   20   "), (18_260, 1, "   30   "), (18_262, 1, "    5   "),
            (18_263, 1, "    6   "), (18_264, 1, "    7   "),
        ],
        "top 5 sum 3 PRCP from 2019-12-28 to 2020-01-03",
        78,
    ),
    (&[(18_463, 34, "   10   ")], "top 1 sum 33 PRCP", 330),
    (&[(18_463, 34, "   10   ")], "top 1 sum 34 PRCP", 340),
    (&[(18_463, 2, "  100   ")], "top 1 sum 2 PRCP", 200),
    // A block lies between the two, so two blocks in a row hold one of them.
    (&[(18_444, 1, "  100   "), (18_496, 1, "   60   ")], "top 1 sum 2 PRCP", 100),
    (&[(18_444, 1, "  100   "), (18_496, 1, "   60   ")], "top 1 sum 33 PRCP", 100),
    // The period's last block holds no day, and the first after it 900.
    (&[(18_453, 1, "    5   "), (18_506, 1, "  900   ")], "top 1 sum 32 PRCP from 2020-07-01 to 2020-08-01", 160),
    // The second block lies after the period.
    (&[(18_463, 1, "    5   "), (18_464, 1, "  900   ")], "top 1 sum 32 PRCP from 2020-07-01 to 2020-07-20", 160),
    (&[(18_463, 1, "   50   "), (18_464, 1, "    7   ")], "top 1 sum 2 PRCP from 2020-07-01 to 2020-07-20", 57),
    // Four days have rain, and that is less than five times the greatest.
    (&[(18_440, 2, "   20   "), (18_443, 2, "   20   ")], "top 1 sum 5 PRCP", 80),
    // A season bounds nothing.
    (&TURN_OF_THE_YEAR, "top 2 sum 3 PRCP months 12..1", 118),
    (&TURN_OF_THE_YEAR, "top 2 sum 3 PRCP months 1..1", 118),
    (&[(-719_162, 1, "   90   "), (2_932_896, 1, "   70   ")], "top 1 sum 2 PRCP", 90),
    (&[(-719_162, 1, "   90   "), (2_932_896, 1, "   70   ")], "top 1 sum 2 PRCP from 9999-12-31 to 9999-12-31", 70),
];

#[test]
fn bounds_of_sums(rt: HostRuntime) {
    compare(&rt, rt.alloc(), &SUMS);
}

#[rattlefmt::skip]
const SPELLS: [Row; 32] = [
    (&[(18_444, 31, "    0   ")], "top 1 dry", 31),
    (&[(18_444, 31, "    0   ")], "top 2 dry from 2020-07-05 to 2020-07-10", 20),
    (&[(18_444, 31, "    0   ")], "top 1 wet", 0),
    (&[(18_430, 80, "   12   ")], "top 1 wet", 80),
    // A missing day ends a run, and so do a wet day and a block without a day.
    (&[(18_440, 1, "    0   "), (18_442, 3, "    0   ")], "top 1 dry", 3),
    (&[(18_440, 3, "   12   "), (18_444, 1, "   12   ")], "top 1 wet", 3),
    (&[(18_432, 15, "    0   "), (18_448, 16, "    0   ")], "top 1 dry", 16),
    (&[(18_432, 31, "    0   ")], "top 1 dry", 31),
    (&[(18_433, 31, "   12   ")], "top 1 wet", 31),
    (&[(18_440, 20, "    0   "), (18_460, 1, "   10   "), (18_461, 43, "    0   ")], "top 1 dry", 43),
    (&[(18_432, 32, "    0   "), (18_496, 32, "    0   ")], "top 1 dry", 32),
    (&[(-40, 50, "    0   ")], "top 1 dry from 1969-12-31 to 1969-12-31", 32),
    (&[(-719_162, 30, "    0   ")], "top 1 dry", 30),
    (&[(-719_162, 30, "    0   ")], "top 1 dry from 0001-01-01 to 0001-01-01", 26),
    (&[(2_932_890, 7, "   10   ")], "top 1 wet", 7),
    (&[(2_932_890, 7, "   10   ")], "top 1 wet from 9999-12-31 to 9999-12-31", 1),
    // A season bounds nothing.
    (&[(18_442, 4, "    0   ")], "top 2 dry months 6..6", 4),
    // Each block in a row that holds a hot day has 32, whichever of its days are hot.
    (&[(18_463, 2, "  300   ")], "top 1 hot 30", 64),
    (&[(18_444, 1, "  300   "), (18_445, 1, "  310   "), (18_446, 1, "  299   "), (18_447, 1, "  305   ")],
        "top 2 hot 30", 32),
    (&[(18_444, 1, "  250   ")], "top 1 hot 30", 0),
    (&[(18_444, 2, "  300   ")], "top 1 hot 30.1", 0),
    (&[(18_431, 1, "  300   "), (18_464, 1, "  300   ")], "top 1 hot 30", 32),
    (&[(18_431, 1, "  300   "), (18_440, 1, "  299   "), (18_464, 1, "  300   ")], "top 1 hot 30", 32),
    (&[(18_431, 1, "   -5   "), (18_440, 1, "  300   "), (18_464, 1, "   -5   ")], "top 1 hot -0.5", 96),
    (&[(18_400, 64, "  300   ")], "top 1 hot 30 from 2020-07-01 to 2020-07-05", 32),
    (&[(-719_162, 1, "  300   "), (2_932_896, 1, "  300   ")], "top 1 hot 30 from 9999-12-31 to 9999-12-31", 32),
    // So does each that holds a cold day, by its least value.
    (&[(18_262, 1, " -100   "), (18_263, 1, " -105   "), (18_264, 1, "  -99   "), (18_265, 1, " -110   ")],
        "top 3 cold -10", 32),
    (&[(18_463, 2, " -100   ")], "top 1 cold -10", 64),
    (&[(18_444, 2, " -100   ")], "top 1 cold -10.1", 0),
    (&[(18_431, 1, "    5   "), (18_440, 1, "  300   "), (18_464, 1, "    5   ")], "top 1 cold 0.5", 32),
    (&[(18_431, 1, "    5   "), (18_440, 1, "  300   "), (18_441, 1, "   -5   "), (18_464, 1, "    5   ")],
        "top 1 cold 0.5", 96),
    (&[(18_431, 1, "    5   "), (18_440, 1, "    5   "), (18_464, 1, "    5   ")], "top 1 cold 0", 0),
];

#[test]
fn bounds_of_spells(rt: HostRuntime) {
    compare(&rt, rt.alloc(), &SPELLS);
}

#[rattlefmt::skip]
const FLAGGED: [Stretch; 3] = [(18_440, 2, "   20   "), (18_442, 1, "  900 X "), (18_443, 3, "   20   ")];

const BESIDE_A_FLAG: [Row; 5] = [
    (&FLAGGED, "top 1 highest PRCP", 20),
    (&FLAGGED, "top 1 sum 2 PRCP", 40),
    (&FLAGGED, "top 1 sum 6 PRCP", 100),
    (&FLAGGED, "top 1 dry", 0),
    (&FLAGGED, "top 1 wet", 3),
];

#[test]
fn a_flagged_day_is_missing(rt: HostRuntime) {
    compare(&rt, rt.alloc(), &BESIDE_A_FLAG);
}
