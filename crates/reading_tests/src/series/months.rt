//! Months in any order, and the days that a month has.

use super::{A, B, gives, refused, unlisted};
use crate::lines::line_of;
use ghcn_files::Element;
use ghcn_series::DailyWhy;

#[test]
fn months_backwards_and_shuffled(rt: HostRuntime) {
    let january = line_of(b"ZZA00000001202001TMAX", &[(31, b"    1   ")]);
    let february = line_of(b"ZZA00000001202002TMAX", &[(1, b"    2   ")]);
    let december = line_of(b"ZZA00000001201912TMAX", &[(31, b"   12   ")]);
    let other = line_of(b"ZZA00000002202001TMAX", &[(31, b"    9   ")]);
    let orders: [[&[u8]; 4]; 5] = [
        [&december, &january, &february, &other],
        [&february, &january, &december, &other],
        [&january, &other, &december, &february],
        [&other, &february, &december, &january],
        [&january, &february, &other, &december],
    ];
    // 2019-12-31 is day 18261, 2020-01-31 is day 18292.
    let days: [(i32, i32); 3] = [(18_261, 12), (18_292, 1), (18_293, 2)];
    for order in orders {
        let found = gives(rt.alloc(), &order, &A, Element::Tmax, &days);
        assert_eq!(rt; found, Ok(true));
        for line in order {
            let files: [&[u8]; 5] = [order[0], order[1], order[2], order[3], line];
            assert_eq!(rt;
                unlisted(rt.alloc(), &files),
                refused(5, 1, DailyWhy::DuplicateMonth)
            );
        }
    }
}

/// The first days of the months of 2019, each with the month as its value.
const FIRSTS: [(i32, i32); 12] = [
    (17_897, 1),
    (17_928, 2),
    (17_956, 3),
    (17_987, 4),
    (18_017, 5),
    (18_048, 6),
    (18_078, 7),
    (18_109, 8),
    (18_140, 9),
    (18_170, 10),
    (18_201, 11),
    (18_231, 12),
];

/// A line for each of these months.
fn year_of(station: u8) -> [[u8; 269]; 12] {
    let months: [(&[u8; 2], &[u8; 8]); 12] = [
        (b"01", b"    1   "),
        (b"02", b"    2   "),
        (b"03", b"    3   "),
        (b"04", b"    4   "),
        (b"05", b"    5   "),
        (b"06", b"    6   "),
        (b"07", b"    7   "),
        (b"08", b"    8   "),
        (b"09", b"    9   "),
        (b"10", b"   10   "),
        (b"11", b"   11   "),
        (b"12", b"   12   "),
    ];
    let mut head = *b"ZZA00000000201900TMAX";
    head[10] = station;
    let mut lines = [[b' '; 269]; 12];
    for (line, (month, value)) in lines.iter_mut().zip(months) {
        head[15..17].copy_from_slice(month);
        *line = line_of(&head, &[(1, value)]);
    }
    lines
}

/// The lines of a year of each of two stations, in turn, by the places of their months.
fn years_in<'a>(
    order: &[usize; 12],
    one: &'a [[u8; 269]; 12],
    two: &'a [[u8; 269]; 12],
) -> [&'a [u8]; 24] {
    let mut files: [&[u8]; 24] = [b""; 24];
    for at in 0..12 {
        if order[at] < 12 {
            files[2 * at] = &one[order[at]];
            files[2 * at + 1] = &two[order[at]];
        }
    }
    files
}

#[test]
fn a_year_in_any_order(rt: HostRuntime) {
    let orders: [[usize; 12]; 3] = [
        [0, 1, 2, 3, 4, 5, 6, 7, 8, 9, 10, 11],
        [11, 10, 9, 8, 7, 6, 5, 4, 3, 2, 1, 0],
        [5, 0, 10, 3, 8, 1, 6, 11, 4, 9, 2, 7],
    ];
    let one = year_of(b'1');
    let two = year_of(b'2');
    for order in orders {
        let files = years_in(&order, &one, &two);
        for id in [A, B] {
            let found = gives(rt.alloc(), &files, &id, Element::Tmax, &FIRSTS);
            assert_eq!(rt; found, Ok(true), "{id:?}: {order:?}");
        }
    }
}

#[test]
fn days_that_the_month_lacks(rt: HostRuntime) {
    // The last day of each month, and its number.
    let cases: [(&[u8; 21], &[(i32, i32)]); 4] = [
        (b"ZZA00000001190002TMAX", &[(-25_509, 28)]),
        (b"ZZA00000001200002TMAX", &[(11_015, 28), (11_016, 29)]),
        (
            b"ZZA00000001202011TMAX",
            &[(18_594, 28), (18_595, 29), (18_596, 30)],
        ),
        (
            b"ZZA00000001999912TMAX",
            &[
                (2_932_893, 28),
                (2_932_894, 29),
                (2_932_895, 30),
                (2_932_896, 31),
            ],
        ),
    ];
    for (head, days) in cases {
        let groups: [(usize, &[u8; 8]); 4] = [
            (28, b"   28   "),
            (29, b"   29   "),
            (30, b"   30   "),
            (31, b"   31   "),
        ];
        let found = gives(
            rt.alloc(),
            &[&line_of(head, &groups)],
            &A,
            Element::Tmax,
            days,
        );
        assert_eq!(rt; found, Ok(true), "at {head:?}");
    }
}
