//! Worked examples of the days of a block: those whose values pass, and those in a row.

use crate::days::{A, Stretch, data_of};
use ghcn_files::Element;
use ghcn_series::BlockDays;
use std::alloc::Global;

/// Which days are kept, by their values.
#[derive(Clone, Copy)]
enum Kept {
    All,
    From(i32),
    Below(i32),
}

impl Kept {
    /// Leaves out the other days.
    fn keep(self, days: &mut BlockDays) {
        match self {
            Kept::All => {}
            Kept::From(least) => days.keep_from(least),
            Kept::Below(limit) => days.keep_below(limit),
        }
    }
}

/// The numbers of the first and the last day of each of four runs, if there are that many.
type Runs = [Option<(i32, i32)>; 4];

#[rattlefmt::skip]
const DAYS: [Stretch; 4] = [
    (0, 3, "   10   "), (3, 1, "   20   "), (5, 2, "    5   "), (31, 1, "   30   "),
];

/// Each day of the block from day 0 on, and eight days of the next one.
#[rattlefmt::skip]
const WHOLE: [Stretch; 3] = [(0, 10, "   10   "), (10, 12, "   20   "), (22, 18, "   10   ")];

/// Days of the last block before day 0, its first and its last among them, and two days of the next one.
#[rattlefmt::skip]
const BEFORE_1970: [Stretch; 4] = [
    (-32, 3, "   10   "), (-20, 1, "   20   "), (-2, 2, "    5   "), (0, 2, "    5   "),
];

/// The days of a series, what is kept of its first block, how many days that are, and their runs.
type Row = (&'static [Stretch], Kept, u32, Runs);

#[rattlefmt::skip]
const ROWS: [Row; 13] = [
    (&DAYS, Kept::All, 7, [Some((0, 3)), Some((5, 6)), Some((31, 31)), None]),
    (&DAYS, Kept::From(10), 5, [Some((0, 3)), Some((31, 31)), None, None]),
    (&DAYS, Kept::From(11), 2, [Some((3, 3)), Some((31, 31)), None, None]),
    (&DAYS, Kept::From(31), 0, [None; 4]),
    (&DAYS, Kept::Below(20), 5, [Some((0, 2)), Some((5, 6)), None, None]),
    (&DAYS, Kept::Below(5), 0, [None; 4]),
    (&WHOLE, Kept::All, 32, [Some((0, 31)), None, None, None]),
    (&WHOLE, Kept::From(10), 32, [Some((0, 31)), None, None, None]),
    (&WHOLE, Kept::From(11), 12, [Some((10, 21)), None, None, None]),
    (&WHOLE, Kept::Below(20), 20, [Some((0, 9)), Some((22, 31)), None, None]),
    (&BEFORE_1970, Kept::All, 6, [Some((-32, -30)), Some((-20, -20)), Some((-2, -1)), None]),
    (&BEFORE_1970, Kept::From(20), 1, [Some((-20, -20)), None, None, None]),
    (&BEFORE_1970, Kept::Below(20), 5, [Some((-32, -30)), Some((-2, -1)), None, None]),
];

/// The first and the last day of the next run, by their numbers.
fn next_run(days: &mut BlockDays) -> Option<(i32, i32)> {
    let (first, last) = days.next_run()?;
    Some((first.number(), last.number()))
}

/// How many days of the first block are kept, and their runs.
fn found(alloc: Global, stretches: &[Stretch], kept: Kept) -> Option<(u32, Runs)> {
    let data = data_of(alloc, Element::Prcp, stretches)?;
    let series = data.series(&A, Element::Prcp)?;
    let mut days = series.days().take_to(31);
    kept.keep(&mut days);
    let count = days.len();
    let mut left = days.again();
    let runs = [
        next_run(&mut left),
        next_run(&mut left),
        next_run(&mut left),
        next_run(&mut left),
    ];
    if left.is_empty() {
        Some((count, runs))
    } else {
        None
    }
}

#[test]
fn days_in_a_row(rt: HostRuntime) {
    for (number, (stretches, kept, count, runs)) in ROWS.iter().enumerate() {
        let found = found(rt.alloc(), stretches, *kept);
        assert_eq!(rt; found, Some((*count, *runs)), "of row {number}");
    }
}

/// The days of a series, what is kept of its first block, and the first day and the values of each row of days.
type ValuedRows = (&'static [Stretch], Kept, &'static [(i32, &'static [i32])]);

#[rattlefmt::skip]
const VALUED_ROWS: [ValuedRows; 6] = [
    (&DAYS, Kept::All, &[(0, &[10, 10, 10, 20]), (5, &[5, 5]), (31, &[30])]),
    (&DAYS, Kept::From(11), &[(3, &[20]), (31, &[30])]),
    (&DAYS, Kept::From(31), &[]),
    (&WHOLE, Kept::From(11), &[(10, &[20; 12])]),
    (&BEFORE_1970, Kept::All, &[(-32, &[10, 10, 10]), (-20, &[20]), (-2, &[5, 5])]),
    (&BEFORE_1970, Kept::Below(20), &[(-32, &[10, 10, 10]), (-2, &[5, 5])]),
];

/// Whether the rows of the days that are kept of the first block begin on these days and have these values.
fn has_rows(
    alloc: Global,
    stretches: &[Stretch],
    kept: Kept,
    rows: &[(i32, &[i32])],
) -> Option<bool> {
    let data = data_of(alloc, Element::Prcp, stretches)?;
    let series = data.series(&A, Element::Prcp)?;
    let mut days = series.days().take_to(31);
    kept.keep(&mut days);
    for (first, values) in rows {
        let Some(row) = days.next_row() else {
            return Some(false);
        };
        let (day, found) = row;
        if day.number() != *first || found != *values {
            return Some(false);
        }
    }
    Some(days.is_empty())
}

#[test]
fn values_in_a_row(rt: HostRuntime) {
    for (number, (stretches, kept, rows)) in VALUED_ROWS.iter().enumerate() {
        assert_eq!(rt;
            has_rows(rt.alloc(), stretches, *kept, rows),
            Some(true),
            "of row {number}"
        );
    }
}

/// The days of a series, what is kept of its first block, how many runs are before the last one, and that run.
type LastRow = (&'static [Stretch], Kept, u32, Option<(i32, i32)>);

#[rattlefmt::skip]
const LAST_ROWS: [LastRow; 12] = [
    (&DAYS, Kept::All, 2, Some((31, 31))),
    (&DAYS, Kept::From(11), 1, Some((31, 31))),
    (&DAYS, Kept::From(21), 0, Some((31, 31))),
    (&DAYS, Kept::From(31), 0, None),
    (&DAYS, Kept::Below(20), 1, Some((5, 6))),
    (&DAYS, Kept::Below(6), 0, Some((5, 6))),
    (&WHOLE, Kept::All, 0, Some((0, 31))),
    (&WHOLE, Kept::From(11), 0, Some((10, 21))),
    (&WHOLE, Kept::Below(20), 1, Some((22, 31))),
    (&BEFORE_1970, Kept::All, 2, Some((-2, -1))),
    (&BEFORE_1970, Kept::From(10), 1, Some((-20, -20))),
    (&BEFORE_1970, Kept::Below(20), 1, Some((-2, -1))),
];

/// How many runs of the days that are kept of the first block come before the last one, and that run.
fn last_found(
    alloc: Global,
    stretches: &[Stretch],
    kept: Kept,
) -> Option<(u32, Option<(i32, i32)>)> {
    let data = data_of(alloc, Element::Prcp, stretches)?;
    let series = data.series(&A, Element::Prcp)?;
    let mut days = series.days().take_to(31);
    kept.keep(&mut days);
    let passed = days.take_to_last_run();
    let run = next_run(&mut days);
    if days.is_empty() {
        Some((passed, run))
    } else {
        None
    }
}

#[test]
fn runs_before_the_last(rt: HostRuntime) {
    for (number, (stretches, kept, passed, run)) in LAST_ROWS.iter().enumerate() {
        let found = last_found(rt.alloc(), stretches, *kept);
        assert_eq!(rt; found, Some((*passed, *run)), "of row {number}");
    }
}
