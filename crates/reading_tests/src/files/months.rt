//! Worked examples of the lines of daily files.

use crate::lines::line_of;
use ghcn_files::{
    Element, Keep, LineWhy, MonthReader, MonthRow, Reading, StationId, flagged_values, read_days,
    read_month,
};

/// The station, the element, the year and the month of a line.
type Head = (StationId, Element, u16, u8);

/// The readings of a line's 1st, 2nd and 31st day.
type Three = (Reading, Reading, Reading);

fn month_of(line: &[u8]) -> Result<Option<(Head, Three)>, LineWhy> {
    let Some(it) = read_month(line)? else {
        return Ok(None);
    };
    let head = (it.id, it.element, it.year, it.month);
    Ok(Some((head, (it.days[0], it.days[1], it.days[30]))))
}

/// The row of a line's days: the word, and the values of the 1st, 2nd, 3rd, 29th and 31st day.
type Days = (u32, [i32; 5]);

fn row_of(line: &[u8], keep: Keep) -> Result<Option<(Head, Days)>, LineWhy> {
    match read_days(line, keep)? {
        Some(row) => Ok(Some(shown(&row))),
        None => Ok(None),
    }
}

/// The same by a reader of one line after another.
fn next_row(
    months: &mut MonthReader,
    line: &[u8],
    keep: Keep,
) -> Result<Option<(Head, Days)>, LineWhy> {
    if months.read(line, keep)? {
        Ok(Some(shown(months.row())))
    } else {
        Ok(None)
    }
}

fn shown(it: &MonthRow) -> (Head, Days) {
    let values = [
        it.values[0],
        it.values[1],
        it.values[2],
        it.values[28],
        it.values[30],
    ];
    let head = (it.id, it.element, it.year, it.month);
    (head, (it.word, values))
}

const ID: StationId = StationId(*b"ZZA00000001");

#[test]
fn months(rt: HostRuntime) {
    let july = line_of(
        b"ZZA00000001202007TMAX",
        &[(1, b"  311   "), (31, b"  -15MQS")],
    );
    let head = (ID, Element::Tmax, 2020, 7);
    let first = Reading {
        value: Some(311),
        flagged: false,
    };
    let missing = Reading {
        value: None,
        flagged: false,
    };
    for (columns, flagged) in [(269, true), (268, true), (267, false), (266, false)] {
        let last = Reading {
            value: Some(-15),
            flagged,
        };
        let expected = Ok(Some((head, (first, missing, last))));
        assert_eq!(rt;
            month_of(&july[..columns]),
            expected,
            "at {columns} columns"
        );
        let days = if flagged {
            (0x00000001, [311, 0, 0, 0, 0])
        } else {
            (0x40000001, [311, 0, 0, 0, -15])
        };
        let found = row_of(&july[..columns], Keep::everything());
        assert_eq!(rt;
            found,
            Ok(Some((head, days))),
            "the row at {columns} columns"
        );
    }
}

/// Why a line is refused as a month, and as a row if nothing, its own element and another one is
/// asked for.
fn faults_of(line: &[u8]) -> [Option<LineWhy>; 4] {
    [
        read_month(line).err(),
        read_days(line, Keep::everything()).err(),
        read_days(line, only(Element::Tmax)).err(),
        read_days(line, Keep::nothing()).err(),
    ]
}

#[test]
fn lines_of_a_wrong_length(rt: HostRuntime) {
    let good = line_of(b"ZZA00000001202007TMAX", &[]);
    let mut long = [b' '; 270];
    long[..269].copy_from_slice(&good);
    assert_eq!(rt; faults_of(&long)[0], None, "a blank in column 270");
    long[269] = b'x';
    let lines: [(&[u8], LineWhy); 3] = [
        (&good[..20], LineWhy::Short),
        (&good[..265], LineWhy::Short),
        (&long, LineWhy::TooLong),
    ];
    for (line, why) in lines {
        assert_eq!(rt; faults_of(line), [Some(why); 4], "at {line:?}");
    }
}

/// A line's beginning, some groups of its days, and why it is refused.
type Refusal = (
    &'static [u8; 21],
    &'static [(usize, &'static [u8; 8])],
    LineWhy,
);

#[test]
fn first_fault_of_a_line(rt: HostRuntime) {
    const ROWS: [Refusal; 9] = [
        (b"ZZA0000 001202007TMAX", &[], LineWhy::BadId),
        (b"ZZA00000001000007TMAX", &[], LineWhy::BadYear),
        (b"ZZA00000001    07TMAX", &[], LineWhy::BadYear),
        (b"ZZA00000001202000TMAX", &[], LineWhy::BadMonth),
        (b"ZZA00000001202013TMAX", &[], LineWhy::BadMonth),
        (
            b"ZZA00000001202007TMAX",
            &[(3, b"12 34   ")],
            LineWhy::BadValue(3),
        ),
        (
            b"ZZA00000001202002TMAX",
            &[(31, b"   +1   "), (30, b"311     ")],
            LineWhy::BadValue(30),
        ),
        (
            b"ZZA0000 001202013TMAX",
            &[(1, b"    x   ")],
            LineWhy::BadId,
        ),
        (
            b"ZZA00000001202013TMAX",
            &[(1, b"    x   ")],
            LineWhy::BadMonth,
        ),
    ];
    for (head, groups, why) in ROWS {
        let faults = faults_of(&line_of(head, groups));
        assert_eq!(rt; faults, [Some(why); 4], "of {head:?}");
    }
}

/// The groups of some days of a month.
const GROUPS: [(usize, &[u8; 8]); 7] = [
    (1, b"  311   "),
    (2, b"  -15   "),
    (3, b"   70 Q "),
    (4, b"        "),
    (28, b"    0M S"),
    (29, b"   29   "),
    (31, b"   31   "),
];

#[test]
fn rows_of_months(rt: HostRuntime) {
    let cases: [(&[u8; 21], Head, Days); 6] = [
        (
            b"ZZA00000001202007TMAX",
            (ID, Element::Tmax, 2020, 7),
            (0x58000003, [311, -15, 0, 29, 31]),
        ),
        (
            b"ZZA00000001202007PRCP",
            (ID, Element::Prcp, 2020, 7),
            (0x58000001, [311, 0, 0, 29, 31]),
        ),
        (
            b"ZZA00000001202006TMIN",
            (ID, Element::Tmin, 2020, 6),
            (0x18000003, [311, -15, 0, 29, 0]),
        ),
        (
            b"ZZA00000001202002TMIN",
            (ID, Element::Tmin, 2020, 2),
            (0x18000003, [311, -15, 0, 29, 0]),
        ),
        (
            b"ZZA00000001202102SNOW",
            (ID, Element::Snow, 2021, 2),
            (0x08000001, [311, 0, 0, 0, 0]),
        ),
        (
            b"ZZA00000001190002SNWD",
            (ID, Element::Snwd, 1900, 2),
            (0x08000001, [311, 0, 0, 0, 0]),
        ),
    ];
    for (text, head, days) in cases {
        let found = row_of(&line_of(text, &GROUPS), Keep::everything());
        assert_eq!(rt; found, Ok(Some((head, days))), "at {text:?}");
    }
}

/// The set of one element.
fn only(element: Element) -> Keep {
    Keep::nothing().with(element)
}

#[test]
fn rows_of_elements_that_are_kept(rt: HostRuntime) {
    let july = line_of(
        b"ZZA00000001202007TMAX",
        &[(1, b"  311   "), (31, b"  -15   ")],
    );
    let cut = &july[..266];
    let head = (ID, Element::Tmax, 2020, 7);
    let kept = (0x40000001, [311, 0, 0, 0, -15]);
    let none = (0, [0; 5]);
    let cases = [
        (Keep::everything(), true, kept),
        (only(Element::Tmax), true, kept),
        (only(Element::Tmax).with(Element::Prcp), true, kept),
        (only(Element::Snow).with(Element::Tmax), true, kept),
        (only(Element::Tmin), false, none),
        (only(Element::Tmin).with(Element::Snwd), false, none),
        (Keep::nothing(), false, none),
    ];
    for (keep, is_kept, days) in cases {
        assert_eq!(rt; Element::Tmax.is_kept(keep), is_kept, "for {keep:?}");
        let rows = [row_of(&july, keep), row_of(cut, keep)];
        assert_eq!(rt; rows, [Ok(Some((head, days))); 2], "at {keep:?}");
    }
}

/// The groups of the first and the last day of lines.
const TWO: [(usize, &[u8; 8]); 2] = [(1, b"  311   "), (31, b"  -15   ")];

/// What a turn reads of a line: its beginning, its groups, how many columns it has, and what is expected.
type Turn = (
    &'static [u8; 21],
    &'static [(usize, &'static [u8; 8])],
    usize,
    Result<Option<(Head, Days)>, LineWhy>,
);

const WARM: Days = (0x40000001, [311, 0, 0, 0, -15]);

const JUNE: Days = (1, [311, 0, 0, 0, 0]);

const WET: Days = (0x00000003, [0, 7, 0, 0, 0]);

/// Lines of which most begin as the one before.
const TURNS: [Turn; 12] = [
    (
        b"ZZA00000001202007TMAX",
        &TWO,
        269,
        Ok(Some(((ID, Element::Tmax, 2020, 7), WARM))),
    ),
    (
        b"ZZA00000001202007TMIN",
        &[(2, b"    x   ")],
        269,
        Err(LineWhy::BadValue(2)),
    ),
    (
        b"ZZA00000001202007PRCP",
        &[(1, b"    0   "), (2, b"    7   ")],
        269,
        Ok(Some(((ID, Element::Prcp, 2020, 7), WET))),
    ),
    (b"ZZA00000001202007WESD", &TWO, 269, Ok(None)),
    (b"ZZA00000001202007TMAX", &TWO, 265, Err(LineWhy::Short)),
    (
        b"ZZA00000001202007TMAX",
        &TWO,
        266,
        Ok(Some(((ID, Element::Tmax, 2020, 7), WARM))),
    ),
    (
        b"ZZA00000001202007TMIN",
        &TWO,
        270,
        Ok(Some(((ID, Element::Tmin, 2020, 7), WARM))),
    ),
    (b"ZZA00000001202007TMAX", &TWO, 271, Err(LineWhy::TooLong)),
    (b"ZZA00000001202000TMAX", &TWO, 269, Err(LineWhy::BadMonth)),
    (
        b"ZZA00000001202006TMAX",
        &TWO,
        269,
        Ok(Some(((ID, Element::Tmax, 2020, 6), JUNE))),
    ),
    (
        b"ZZA00000002202006TMAX",
        &TWO,
        269,
        Ok(Some(((OTHER, Element::Tmax, 2020, 6), JUNE))),
    ),
    (b"ZZA00000002202006TMAX", &TWO, 20, Err(LineWhy::Short)),
];

const OTHER: StationId = StationId(*b"ZZA00000002");

#[test]
fn lines_one_after_another(rt: HostRuntime) {
    let mut months = MonthReader::new();
    for (turn, (head, groups, columns, expected)) in TURNS.iter().enumerate() {
        let mut long = [b' '; 271];
        long[270] = b'x';
        long[..269].copy_from_slice(&line_of(head, groups));
        let Some(line) = long.get(..*columns) else {
            continue;
        };
        assert_eq!(rt;
            next_row(&mut months, line, Keep::everything()),
            *expected,
            "turn {turn}"
        );
        assert_eq!(rt;
            row_of(line, Keep::everything()),
            *expected,
            "turn {turn}, by itself"
        );
    }
}

#[test]
fn lines_of_other_elements(rt: HostRuntime) {
    let lines: [&[u8]; 3] = [
        b"ZZA00000001202007WSFG",
        b"not a line of any kind",
        b"ZZA00000001202007tmax",
    ];
    for line in lines {
        assert_eq!(rt; month_of(line), Ok(None), "at {line:?}");
        assert_eq!(rt;
            row_of(line, Keep::everything()),
            Ok(None),
            "the row at {line:?}"
        );
    }
}

/// How many values of a line are flagged, if it is a month.
fn flagged_of(line: &[u8]) -> Result<Option<u32>, LineWhy> {
    match read_days(line, Keep::everything())? {
        Some(row) => Ok(Some(flagged_values(line, &row))),
        None => Ok(None),
    }
}

#[test]
fn values_that_are_flagged(rt: HostRuntime) {
    let none = line_of(b"ZZA00000001202002TMAX", &[(1, b"  311   ")]);
    let first_and_last = line_of(
        b"ZZA00000001202002TMAX",
        &[(1, b"  311 I "), (29, b"  -15MQS")],
    );
    let lacking = line_of(
        b"ZZA00000001202102TMAX",
        &[(28, b"  311 I "), (29, b"  -15MQS")],
    );
    let missing = line_of(
        b"ZZA00000001202007PRCP",
        &[(1, b"-9999 I "), (2, b"      I "), (31, b"   -1 I ")],
    );
    let other = line_of(b"ZZA00000001202007WESD", &[(1, b"  311 I ")]);
    let cases = [
        (none, Some(0)),
        (first_and_last, Some(2)),
        (lacking, Some(1)),
        (missing, Some(1)),
        (other, None),
    ];
    for (row, (line, expected)) in cases.iter().enumerate() {
        assert_eq!(rt; flagged_of(line), Ok(*expected), "row {row}");
    }
}
