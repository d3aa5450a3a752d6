//! Months of daily values: what one line of a daily file says, as the readme lays it out.
//!
//! ```text
//!   1-11  ID               22-26  value of day 1          30-34  value of day 2, and so on to
//!  12-15  year             27     its measurement flag    262-266  value of day 31
//!  16-17  month            28     its quality flag        267-269  its three flags
//!  18-21  element          29     its source flag
//! ```

ghost use Rattle.std.specs.Prelude.{◌≡◌, ◌≤◌, ◌<◌, ◌+◌, ◌*◌, length, take, drop, map, pos, Some, None, IfOk, IfSome};
ghost use Rattle.std.specs.Prelude.{if◌then◌else◌, unsigned_abs};
ghost use Rattle.ghcn_fields.specs.Numbers as numbers;
ghost use Rattle.ghcn_fields.specs.Meaning.Bytes as bytes;
ghost use Rattle.ghcn_fields.specs.Meaning.Lines.{columns};
ghost use Rattle.ghcn_files.specs.StationLines as stations;
ghost use Rattle.ghcn_files.specs.Months as months;

use crate::missing::{is_bad, unless_missing};
use crate::{Element, LineWhy, StationId};
use ghcn_fields::{is_blank, value_field, value_or};

/// The columns up to the element's last.
pub(crate) const UP_TO_ELEMENT: usize = 21;

/// The columns up to the last day's value, whose three flags may be left out.
pub(crate) const LEAST_COLUMNS: usize = 266;

/// The columns of a whole line.
pub(crate) const COLUMNS: usize = 269;

/// How many days a line has groups for.
pub(crate) const DAYS: usize = 31;

/// The columns of a group: five of the value, and three of one flag each.
const GROUP: usize = 8;

/// The place, from 0, where the groups begin.
const FIRST_GROUP: usize = 21;

/// One day's value and whether a quality check failed.
#[derive(Clone, Copy, Debug, PartialEq, Eq)]
pub struct Reading {
    /// In the element's unit, from -9998 to 99999, or nothing if it is missing.
    pub value: Option<i32>,
    /// Whether the quality flag isn't a blank.
    pub flagged: bool,
}

/// A line of one of the five elements: a month of one station.
#[derive(Clone, Copy, Debug)]
pub struct Month {
    /// The ID that the line begins with.
    pub id: StationId,
    /// What the values measure, and so their unit.
    pub element: Element,
    /// From 1 to 9999.
    pub year: u16,
    /// From 1 to 12.
    pub month: u8,
    /// What the line says of each day from 1 to 31, also of days that the month lacks.
    pub days: [Reading; 31],
}

/// Whose month a line is.
#[derive(Clone, Copy)]
pub(crate) struct Head {
    pub(crate) id: StationId,
    /// From 1 to 9999.
    pub(crate) year: u16,
    /// From 1 to 12.
    pub(crate) month: u8,
}

/// Reads a line of a daily file that isn't blank: nothing if it belongs to none of the five
/// elements, or the first test that it fails.
///
/// The readme's line has 269 columns; that the last three, blanks of a day's flags, may be left out
/// and that a value may be blank is this project's own leniency.
pub fn read_month(line: &[u8]) -> Result<Option<Month>, LineWhy>
    ensures value { result ≡ months.read_month line.now }
    ensures ranges { IfOk result (λ found. IfSome found months.IsMonth) }
{
    if line.len() < UP_TO_ELEMENT {
        return Err(LineWhy::Short);
    }
    match Element::of_code(&line[17..21]) {
        None => Ok(None),
        Some(element) => Ok(Some(month_of(element, line)?)),
    }
}

/// The month of a line of this element.
fn month_of(element: Element, line: &[u8]) -> Result<Month, LineWhy>
    ensures { result ≡ months.unless (months.month_why line.now) (months.month_of element line.now) }
{
    let head = head_of(line)?;
    let days = readings(line)?;
    Ok(Month {
        id: head.id,
        element,
        year: head.year,
        month: head.month,
        days,
    })
}

/// What a line of one of the elements says before its first value.
pub(crate) fn head_of(line: &[u8]) -> Result<Head, LineWhy>
    ensures value { result ≡ months.unless (months.head_why line.now) (months.head_of line.now) }
    ensures long { IfOk result (λ _. 266 ≤ length line.now) }
    ensures year { IfOk result (λ head. head.year ≤ 9999) }
{
    if line.len() < LEAST_COLUMNS {
        return Err(LineWhy::Short);
    }
    if !only_blanks_follow(line) {
        return Err(LineWhy::TooLong);
    }
    let Some(id) = StationId::of_line(line) else {
        return Err(LineWhy::BadId);
    };
    let Some(year) = year_of(line) else {
        return Err(LineWhy::BadYear);
    };
    let Some(month) = month_number(line) else {
        return Err(LineWhy::BadMonth);
    };
    Ok(Head {
        id,
        year,
        month: month as u8,
    })
}

/// Whether only blanks follow the last column.
fn only_blanks_follow(line: &[u8]) -> bool
    ensures { result ≡ bytes.is_blank (drop 269 line.now) }
{
    line.len() <= COLUMNS || is_blank(&line[COLUMNS..])
}

/// The year of a line, if its four columns are one.
fn year_of(line: &[u8]) -> Option<u16>
    requires { 266 ≤ length line.now }
    ensures value { result ≡ stations.natural_up_to 9999 (months.year_field line.now) }
    ensures range { IfSome result (λ year. year ≤ 9999) }
{
    number_up_to(9999, &[b' ', line[11], line[12], line[13], line[14]])
}

/// The month of a line, if its two columns are one.
fn month_number(line: &[u8]) -> Option<u16>
    requires { 266 ≤ length line.now }
    ensures value { result ≡ stations.natural_up_to 12 (months.month_field line.now) }
    ensures range { IfSome result (λ month. month ≤ 12) }
{
    number_up_to(12, &[b' ', b' ', b' ', line[15], line[16]])
}

/// The whole number of a field, if it has one from 1 to a limit.
fn number_up_to(limit: u16, field: &[u8; 5]) -> Option<u16>
    ensures value { result ≡ stations.natural_up_to limit (numbers.int_field field.now) }
    ensures range { IfSome result (λ number. (1 ≤ number) × (number ≤ limit)) }
{
    let (_, number) = value_or(field, 0);
    if 1 <= number && number <= limit as i32 {
        Some(number as u16)
    } else {
        None
    }
}

/// What a line says of each day, or which day's value, the first such one, isn't a number.
pub(crate) fn readings(line: &[u8]) -> Result<[Reading; 31], LineWhy>
    requires { 266 ≤ length line.now }
    ensures { result ≡ months.unless (months.days_why line.now)
        (map (months.reading line.now) months.days_of_group) }
{
    let mut days = [Reading {
        value: None,
        flagged: false,
    }; DAYS];
    for day in 0..DAYS {
        match reading_of(line, day) {
            Some(reading) => days[day] = reading,
            None => return Err(LineWhy::BadValue(day as u8 + 1)),
        }
    }
    Ok(days)
}

/// What a line says of a day, from 0, unless its value isn't a number.
fn reading_of(line: &[u8], day: usize) -> Option<Reading>
    requires long { 266 ≤ length line.now }
    requires day { day < 31 }
    ensures { result ≡ (if stations.is_bad (months.value_field line.now (day + 1)) then None
        else Some (months.reading line.now (day + 1))) }
{
    let field = value_field(value_column(line, day));
    if is_bad(field) {
        return None;
    }
    Some(Reading {
        value: unless_missing(field),
        flagged: is_flagged(line, day),
    })
}

/// The five columns of a day's value, from 0.
pub(crate) fn value_column(line: &[u8], day: usize) -> &[u8; 5]
    requires long { 266 ≤ length line.now }
    requires day { day < 31 }
    ensures { result.now ≡ columns (14 + 8 * (day + 1)) (18 + 8 * (day + 1)) line.now }
{
    match line[FIRST_GROUP + GROUP * day..].first_chunk() {
        Some(column) => column,
        None => unreachable!(),
    }
}

/// The columns of two days, a day from 0 and the next one: each has five of its value, and three after them.
pub(crate) fn two_groups(line: &[u8], day: usize) -> &[u8; 16]
    requires long { 269 ≤ length line.now }
    requires day { day < 30 }
    ensures first { take 5 result.now ≡ columns (14 + 8 * (day + 1)) (18 + 8 * (day + 1)) line.now }
    ensures second { take 5 (drop 8 result.now) ≡ columns (14 + 8 * (day + 2)) (18 + 8 * (day + 2)) line.now }
{
    match line[FIRST_GROUP + GROUP * day..].first_chunk() {
        Some(groups) => groups,
        None => unreachable!(),
    }
}

/// The groups of four days, a day from 0 and the next three.
pub(crate) fn four_groups(line: &[u8], day: usize) -> &[u8; 32]
    requires long { 269 ≤ length line.now }
    requires day { day < 28 }
    ensures { result.now ≡ take 32 (drop (21 + 8 * day) line.now) }
{
    match line[FIRST_GROUP + GROUP * day..].first_chunk() {
        Some(groups) => groups,
        None => unreachable!(),
    }
}

/// Whether the quality flag of a day, from 0, isn't a blank.
pub(crate) fn is_flagged(line: &[u8], day: usize) -> bool
    requires { day < 31 }
    ensures { result ≡ months.is_flagged line.now (day + 1) }
{
    match line.get(FIRST_GROUP + GROUP * day + 6) {
        Some(flag) => *flag != b' ',
        None => false,
    }
}
