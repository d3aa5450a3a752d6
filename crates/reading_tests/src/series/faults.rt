//! The first error of daily files, and the lines that are skipped.

use super::cutters::are_alike;
use super::{refused, unlisted};
use crate::lines::{line_of, text_of};
use ghcn_fields::Memory;
use ghcn_files::LineWhy;
use ghcn_series::DailyWhy::{DuplicateMonth, Line};
use ghcn_series::DataFault;
use std::alloc::Global;
use std::test::Fail;

/// How many lines of two files were skipped, or their error. The lines have this end.
fn unlisted_of(alloc: Global, one: &[&[u8]], two: &[&[u8]], end: &[u8]) -> Result<u64, DataFault> {
    let one = text_of(alloc, one, end).map_err(DataFault::Memory)?;
    let two = text_of(alloc, two, end).map_err(DataFault::Memory)?;
    unlisted(alloc, &[&one, &two])
}

/// The same with line feeds, and with carriage returns before them.
fn by_both_ends(
    alloc: Global,
    one: &[&[u8]],
    two: &[&[u8]],
) -> (Result<u64, DataFault>, Result<u64, DataFault>) {
    let unix = unlisted_of(alloc, one, two, b"\n");
    (unix, unlisted_of(alloc, one, two, b"\r\n"))
}

/// Whether lines that are read one by one show the same of two files, with line feeds and with carriage returns before
/// them.
fn are_alike_by_both_ends(
    alloc: Global,
    one: &[&[u8]],
    two: &[&[u8]],
) -> (Result<bool, Memory>, Result<bool, Memory>) {
    let unix = are_alike_with(alloc, one, two, b"\n");
    (unix, are_alike_with(alloc, one, two, b"\r\n"))
}

/// The same of lines with this end.
fn are_alike_with(alloc: Global, one: &[&[u8]], two: &[&[u8]], end: &[u8]) -> Result<bool, Memory> {
    let one = text_of(alloc, one, end)?;
    let two = text_of(alloc, two, end)?;
    Ok(are_alike(alloc, &[&one, &two]))
}

#[test]
fn lines_that_are_passed_over(rt: HostRuntime) {
    let first: &[u8] = &line_of(b"ZZA00000001202007TMAX", &[(1, b"  311   ")]);
    let second: &[u8] = &line_of(b"ZZA00000002202007TMAX", &[(1, b"  311   ")]);
    let unlisted: &[u8] = &line_of(b"ZZA00000009202007TMAX", &[(1, b"  400   ")]);
    let other: &[u8] = b"ZZA00000001202007WSFG";
    let cases: [(&str, [&[u8]; 3], [&[u8]; 3], u64); 4] = [
        ("no lines", [b"", b"", b""], [b"", b"", b""], 0),
        (
            "another element",
            [other, first, b""],
            [second, b"", b""],
            0,
        ),
        (
            "an unlisted station's month",
            [unlisted, unlisted, b""],
            [unlisted, b"", b""],
            3,
        ),
        (
            "its other element",
            [b"ZZA00000009202007WSFG", b"", b""],
            [b"", b"", b""],
            0,
        ),
    ];
    for (name, one, two, count) in cases {
        let found = by_both_ends(rt.alloc(), &one, &two);
        assert_eq!(rt; found, (Ok(count), Ok(count)), "{name}");
        let alike = are_alike_by_both_ends(rt.alloc(), &one, &two);
        assert_eq!(rt; alike, (Ok(true), Ok(true)), "{name} by lines");
    }
}

#[test]
fn lines_that_are_refused(rt: HostRuntime) {
    let first: &[u8] = &line_of(b"ZZA00000001202007TMAX", &[(1, b"  311   ")]);
    let letters: &[u8] = &line_of(b"ZZA00000002202007TMAX", &[(3, b"12 34   ")]);
    let cut: &[u8] = b"ZZA00000009202007TMAX";
    let cases: [(&str, [&[u8]; 3], [&[u8]; 3], Result<u64, DataFault>); 2] = [
        (
            "a bad value",
            [first, b"  ", letters],
            [first, b"", b""],
            refused(1, 3, Line(LineWhy::BadValue(3))),
        ),
        (
            "an unlisted station's line that is cut",
            [b"", b"", b""],
            [cut, b"", b""],
            refused(2, 1, Line(LineWhy::Short)),
        ),
    ];
    for (name, one, two, expected) in cases {
        let found = by_both_ends(rt.alloc(), &one, &two);
        assert_eq!(rt; found, (expected, expected), "{name}");
        let alike = are_alike_by_both_ends(rt.alloc(), &one, &two);
        assert_eq!(rt; alike, (Ok(true), Ok(true)), "{name} by lines");
    }
}

#[test]
fn months_that_stand_twice(rt: HostRuntime) {
    let first: &[u8] = &line_of(b"ZZA00000001202007TMAX", &[(1, b"  311   ")]);
    let second: &[u8] = &line_of(b"ZZA00000002202007TMAX", &[(1, b"  311   ")]);
    let cases: [(&str, [&[u8]; 3], [&[u8]; 3], (u64, u64)); 3] = [
        (
            "a month in two files",
            [first, b"", b""],
            [first, b"", b""],
            (2, 1),
        ),
        (
            "a month in one file",
            [second, second, b""],
            [first, b"", b""],
            (1, 2),
        ),
        (
            "the first of two faults",
            [first, b"", b""],
            [b"", first, b"x"],
            (2, 2),
        ),
    ];
    for (name, one, two, (file, line)) in cases {
        let found = by_both_ends(rt.alloc(), &one, &two);
        let expected = refused(file, line, DuplicateMonth);
        assert_eq!(rt; found, (expected, expected), "{name}");
        let alike = are_alike_by_both_ends(rt.alloc(), &one, &two);
        assert_eq!(rt; alike, (Ok(true), Ok(true)), "{name} by lines");
    }
}

/// How many lines of a text's first bytes were skipped, or their error.
fn unlisted_to(alloc: Global, lines: &[&[u8]], length: usize) -> Result<u64, DataFault> {
    let text = text_of(alloc, lines, b"\n").map_err(DataFault::Memory)?;
    unlisted(alloc, &[&text[..length.min(text.len())]])
}

/// Whether lines that are read one by one show the same of a text's first bytes.
fn are_alike_to(alloc: Global, lines: &[&[u8]], length: usize) -> Result<bool, Memory> {
    let text = text_of(alloc, lines, b"\n")?;
    Ok(are_alike(alloc, &[&text[..length.min(text.len())]]))
}

#[test]
fn daily_lines_cut_to_each_length(rt: HostRuntime) {
    let july = line_of(b"ZZA00000001202007TMAX", &[(1, b"  311   ")]);
    let june = line_of(b"ZZA00000001202006TMAX", &[(1, b"  299   ")]);
    let other = line_of(b"ZZA00000002202007TMAX", &[(1, b"  250   ")]);
    for length in 0..=810_u16 {
        let expected = match length % 270 {
            0 | 266..=269 => Ok(0),
            _ => {
                let line = u64::from(length / 270 + 1);
                refused(1, line, Line(LineWhy::Short))
            }
        };
        let lines: [&[u8]; 3] = [&july, &june, &other];
        let found = unlisted_to(rt.alloc(), &lines, usize::from(length));
        assert_eq!(rt; found, expected, "at {length} bytes");
        let alike = are_alike_to(rt.alloc(), &lines, usize::from(length));
        assert_eq!(rt; alike, Ok(true), "at {length} bytes by lines");
    }
}

/// How many lines of that many empty files were skipped, or their error.
fn unlisted_of_empty(alloc: Global, count: usize) -> Result<u64, DataFault> {
    let none: &[u8] = b"";
    let mut files = Vec::new(alloc);
    for _ in 0..count {
        if files.push(none).is_err() {
            return Err(DataFault::Memory(Memory));
        }
    }
    unlisted(alloc, &files)
}

#[test]
fn at_most_a_million_files(rt: HostRuntime) {
    assert_eq!(rt; unlisted_of_empty(rt.alloc(), 1 << 20), Ok(0));
    let found = unlisted_of_empty(rt.alloc(), (1 << 20) + 1);
    assert_eq!(rt; found, Err(DataFault::TooManyFiles));
}

#[test]
fn lines_of_faults(rt: HostRuntime) -> Result<(), Fail> {
    let cases = [
        (
            DataFault::DailyLine {
                file: 2,
                line: 1,
                why: DuplicateMonth,
            },
            "refused 5 DailyLine file 2 line 1 DuplicateMonth",
        ),
        (
            DataFault::DailyLine {
                file: 1,
                line: 12,
                why: Line(LineWhy::BadValue(3)),
            },
            "refused 5 DailyLine file 1 line 12 BadValue 3",
        ),
        (DataFault::TooManyFiles, "refused 6 TooManyFiles"),
        (DataFault::Memory(Memory), "refused 3 Memory"),
    ];
    for (fault, line) in cases {
        assert_eq!(rt; fault.to_string(rt.alloc())?.as_str(), line);
    }
    Ok(())
}
