//! Errors of lines of daily files.

ghost use Rattle.std.specs.Prelude.{◌≡◌, option_map};
ghost use Rattle.explanations.specs.Texts.{Says, found_text, line_text};
ghost use Rattle.explanations.specs.Daily.{daily_found, daily_kind, daily_there, daily_wanted};

use crate::explanation::{Explanation, Found, columns};
use ghcn_files::{LineWhy, read_month};
use ghcn_series::DailyWhy;

/// Whether a line has this error by itself, or may be a repeated month.
pub(crate) fn has_error(line: &[u8], why: DailyWhy) -> bool {
    match why {
        DailyWhy::Line(why) => read_month(line).err() == Some(why),
        DailyWhy::DuplicateMonth => matches!(read_month(line), Ok(Some(_))),
    }
}

/// The error of the line of this number, with the line if it is known.
pub(crate) fn explained<'a>(
    path: &'a str,
    number: u64,
    why: DailyWhy,
    line: Option<&'a [u8]>,
) -> Explanation<'a>
    ensures { Says result (line_text path.now number (daily_found why (option_map (λ l. l.now) line.entry))
        (daily_wanted why)) }
{
    Explanation::Line {
        path,
        line: number,
        found: found(why, line),
        wanted: wanted(why),
    }
}

/// What a line with an error has, if the line is known, and otherwise the kind of the error.
fn found(why: DailyWhy, line: Option<&[u8]>) -> Found<'_>
    ensures { found_text result ≡ daily_found why (option_map (λ l. l.now) line.entry) }
{
    match line {
        None => Found::Kind(kind(why)),
        Some(line) => there(why, line),
    }
}

/// The kind of an error.
fn kind(why: DailyWhy) -> &'static str
    ensures { result.now ≡ daily_kind why }
{
    match why {
        DailyWhy::Line(LineWhy::Short) => "too few columns",
        DailyWhy::Line(LineWhy::TooLong) => "too many columns",
        DailyWhy::Line(LineWhy::BadId) => "a bad ID",
        DailyWhy::Line(LineWhy::BadYear) => "a bad year",
        DailyWhy::Line(LineWhy::BadMonth) => "a bad month",
        DailyWhy::Line(LineWhy::BadValue(_)) => "a bad value",
        DailyWhy::DuplicateMonth => "a month again",
    }
}

/// What a line has in place of what is asked for.
fn there(why: DailyWhy, line: &[u8]) -> Found<'_>
    ensures { found_text result ≡ daily_there why line.now }
{
    match why {
        DailyWhy::Line(LineWhy::Short | LineWhy::TooLong) => Found::Columns(line.len() as u64),
        DailyWhy::Line(LineWhy::BadId) => columns(line, 1, 11),
        DailyWhy::Line(LineWhy::BadYear) => columns(line, 12, 15),
        DailyWhy::Line(LineWhy::BadMonth) => columns(line, 16, 17),
        DailyWhy::Line(LineWhy::BadValue(day)) => {
            let first = 14 + 8 * u64::from(day);
            columns(line, first, first + 4)
        }
        DailyWhy::DuplicateMonth => columns(line, 1, 21),
    }
}

/// What a line without the error has.
fn wanted(why: DailyWhy) -> &'static str
    ensures { result.now ≡ daily_wanted why }
{
    match why {
        DailyWhy::Line(LineWhy::Short) => "a daily line has at least 266",
        DailyWhy::Line(LineWhy::TooLong) => "a daily line has only blanks after column 269",
        DailyWhy::Line(LineWhy::BadId) => "an ID has eleven visible characters",
        DailyWhy::Line(LineWhy::BadYear) => "a year is a number from 1 to 9999",
        DailyWhy::Line(LineWhy::BadMonth) => "a month is a number from 1 to 12",
        DailyWhy::Line(LineWhy::BadValue(_)) => "a value is a whole number or blank",
        DailyWhy::DuplicateMonth => "an earlier line has this ID, year, month and element",
    }
}
