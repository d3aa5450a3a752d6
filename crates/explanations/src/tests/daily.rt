//! What is said about errors of daily lines.

use super::*;

/// An error of a line, what the line begins with, how many columns it has, and what is said.
const BAD_LINES: [(LineWhy, &str, usize, &str); 8] = [
    (
        LineWhy::Short,
        HEAD,
        26,
        "26 columns; a daily line has at least 266",
    ),
    (
        LineWhy::Short,
        "E",
        1,
        "1 column; a daily line has at least 266",
    ),
    (
        LineWhy::Short,
        "EGE",
        3,
        "3 columns; a daily line has at least 266",
    ),
    (
        LineWhy::BadId,
        "EGE 0123161196907TMAX",
        269,
        "columns 1 to 11: 'EGE 0123161'; an ID has eleven visible characters",
    ),
    (
        LineWhy::BadYear,
        "EGE0012316119x907TMAX",
        269,
        "columns 12 to 15: '19x9'; a year is a number from 1 to 9999",
    ),
    (
        LineWhy::BadMonth,
        "EGE00123161196913TMAX",
        269,
        "columns 16 to 17: '13'; a month is a number from 1 to 12",
    ),
    (
        LineWhy::BadValue(1),
        "EGE00123161196907TMAX  1x5",
        269,
        "columns 22 to 26: '  1x5'; a value is a whole number or blank",
    ),
    (
        LineWhy::BadValue(2),
        "EGE00123161196907TMAX  125   \u{1b}[2Jx",
        269,
        "columns 30 to 34: '?[2Jx'; a value is a whole number or blank",
    ),
];

#[test]
fn errors_of_daily_lines(rt: HostRuntime) -> Result<(), Fail> {
    let alloc = rt.alloc();
    for (why, front, columns, expected) in BAD_LINES {
        let why = DailyWhy::Line(why);
        let fault = Fault::DailyLine {
            file: 2,
            line: 5,
            why,
        };
        let text = line(alloc, front, columns)?;
        let file = format!(in alloc; "\n\n\n\n{text}\r\nnext")?;
        let found = line_with_error(alloc, fault, file.as_bytes());
        let said = said(alloc, fault, found)?;
        assert_eq!(rt; said.strip_prefix("second.dly:5: "), Some(expected));
    }
    Ok(())
}

#[test]
fn other_errors_of_daily_lines(rt: HostRuntime) -> Result<(), Fail> {
    let alloc = rt.alloc();
    let whole = line(alloc, HEAD, 269)?;
    let long = format!(in alloc; "{whole}x")?;
    let cases = [
        (
            DailyWhy::Line(LineWhy::TooLong),
            long.as_str(),
            "second.dly:1: 270 columns; a daily line has only blanks after column 269",
        ),
        (
            DailyWhy::DuplicateMonth,
            whole.as_str(),
            "second.dly:1: columns 1 to 21: 'EGE00123161196907TMAX'; an earlier line has this ID, year, month and element",
        ),
    ];
    for (why, text, expected) in cases {
        let fault = Fault::DailyLine {
            file: 2,
            line: 1,
            why,
        };
        let found = line_with_error(alloc, fault, text.as_bytes());
        assert_eq!(rt; said(alloc, fault, found)?.as_str(), expected);
    }
    Ok(())
}

/// Errors of lines, and the kinds that are said if the line isn't known.
const KINDS: [(DailyWhy, &str); 7] = [
    (
        DailyWhy::Line(LineWhy::Short),
        "too few columns; a daily line has at least 266",
    ),
    (
        DailyWhy::Line(LineWhy::TooLong),
        "too many columns; a daily line has only blanks after column 269",
    ),
    (
        DailyWhy::Line(LineWhy::BadId),
        "a bad ID; an ID has eleven visible characters",
    ),
    (
        DailyWhy::Line(LineWhy::BadYear),
        "a bad year; a year is a number from 1 to 9999",
    ),
    (
        DailyWhy::Line(LineWhy::BadMonth),
        "a bad month; a month is a number from 1 to 12",
    ),
    (
        DailyWhy::Line(LineWhy::BadValue(9)),
        "a bad value; a value is a whole number or blank",
    ),
    (
        DailyWhy::DuplicateMonth,
        "a month again; an earlier line has this ID, year, month and element",
    ),
];

#[test]
fn kinds_of_errors_of_daily_lines(rt: HostRuntime) -> Result<(), Fail> {
    let alloc = rt.alloc();
    let good = line(alloc, "EGE00123161196907PRCP", 269)?;
    let other = line(alloc, "EGE00123161196907WT01", 30)?;
    for (why, expected) in KINDS {
        let fault = Fault::DailyLine {
            file: 1,
            line: 2,
            why,
        };
        // The file has changed: it ends before the line, or the line has no such error.
        assert_eq!(rt; line_with_error(alloc, fault, b""), None);
        assert_eq!(rt; line_with_error(alloc, fault, b"one line\n"), None);
        assert_eq!(rt; line_with_error(alloc, fault, other.as_bytes()), None);
        let file = format!(in alloc; "\n{other}")?;
        assert_eq!(rt; line_with_error(alloc, fault, file.as_bytes()), None);
        let file = format!(in alloc; "\n{good}")?;
        let found = line_with_error(alloc, fault, file.as_bytes());
        assert_eq!(rt; found.is_some(), why == DailyWhy::DuplicateMonth);
        let said = said(alloc, fault, None)?;
        assert_eq!(rt; said.strip_prefix("first.dly:2: "), Some(expected));
    }
    Ok(())
}
