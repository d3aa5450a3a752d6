//! Months of daily values as rows: what one line of a daily file says, without what doesn't count.

ghost use Rattle.std.specs.Prelude.{◌≡◌, ◌≤◌, ◌<◌, ◌+◌, ◌^◌, length, Some, None, IfOk, IfErr, false, ◌&&◌, not, nat_lt};
ghost use Rattle.std.specs.Prelude.{if◌then◌else◌, ◌++◌, ◌-◌, replicate, OnOk, true, ℕ, pos, get_or};
ghost use Rattle.ghcn_files.specs.declared.month.Month.{Month};
ghost use Rattle.ghcn_files.specs.Elements.{least_of, is_kept};
ghost use Rattle.ghcn_files.specs.Months as months;
ghost use Rattle.ghcn_files.specs.Rows as rows;

use crate::missing::MISSING;
use crate::month::{COLUMNS, DAYS, UP_TO_ELEMENT, four_groups, head_of, readings, two_groups};
use crate::{Element, Keep, LineWhy, StationId};
use ghcn_fields::{are_clear, bad_columns, days_in_month, four_numbers};
use std::simd::prelude::*;

/// The number of each place of a row. Those of a table are compared by lanes as wide as values are; one that is counted
/// would be by lanes of an index, which are twice as wide.
const PLACES: [u32; 32] = [
    0, 1, 2, 3, 4, 5, 6, 7, 8, 9, 10, 11, 12, 13, 14, 15, 16, 17, 18, 19, 20, 21, 22, 23, 24, 25,
    26, 27, 28, 29, 30, 31,
];

/// The days of a month whose values count: those that the month has, whose value isn't missing,
/// whose quality flag is a blank, and whose value the element can have. Only temperatures are negative.
/// It has no days if those of its element aren't kept.
#[derive(Clone, Copy)]
pub struct MonthRow {
    pub id: StationId,
    /// What the values measure, and so their unit.
    pub element: Element,
    /// From 1 to 9999.
    pub year: u16,
    /// From 1 to 12.
    pub month: u8,
    /// Bit j is set if the value of day j + 1 counts.
    pub word: u32,
    /// Value j is that of day j + 1, in the element's unit, if it counts, and otherwise 0.
    pub values: [i32; 32],
}

impl MonthRow {
    /// The same month with its days not kept.
    pub fn without_days(&self) -> Self
        ensures { (m : Month) → rows.IsRowOf true m self.now → rows.IsRowOf false m result }
    {
        MonthRow {
            word: 0,
            values: [0; 32],
            ..*self
        }
    }
}

/// Reads a line as `read_month` does, and keeps only the values that count. A line of an element whose
/// values aren't kept is tested in the same way, and its row has no days.
pub fn read_days(line: &[u8], asked: Keep) -> Result<Option<MonthRow>, LineWhy>
    ensures { rows.IsRead asked line.now result }
{
    if line.len() < UP_TO_ELEMENT {
        return Err(LineWhy::Short);
    }
    match Element::of_code(&line[17..21]) {
        None => Ok(None),
        Some(element) => Ok(Some(row_of(asked, element, line)?)),
    }
}

/// The row of a line of this element.
fn row_of(asked: Keep, element: Element, line: &[u8]) -> Result<MonthRow, LineWhy>
    ensures err { IfErr result (λ why. months.month_why line.now ≡ Some why) }
    ensures fine { IfOk result (λ _. months.month_why line.now ≡ None) }
    ensures row { IfOk result (rows.IsRowOf (is_kept asked element) (months.month_of element line.now)) }
{
    let head = head_of(line)?;
    let count = days_in_month(head.year, head.month);
    let mut values = [0; 32];
    let word = put_days(element.is_kept(asked), element, count, line, &mut values)?;
    Ok(MonthRow {
        id: head.id,
        element,
        year: head.year,
        month: head.month,
        word,
        values,
    })
}

/// Puts the values of a line that count, in a month with that many days, if they are kept, and returns the word of
/// their days, unless a day's value isn't a number: then which day's, the first such one.
#[inline(always)]
pub(crate) fn put_days(
    kept: bool,
    element: Element,
    count: u8,
    line: &[u8],
    values: &mut [i32; 32],
) -> Result<u32, LineWhy>
    requires { 266 ≤ length line.now }
    ensures err { IfErr result (λ why. months.days_why line.now ≡ Some why) }
    ensures fine { OnOk result (months.days_why line.now ≡ None) }
    ensures days { IfOk result (λ word.
        rows.AreDays (λ j. rows.if_kept kept (rows.line_value element count line.now j)) word values.new) }
{
    if has_bad_value(line) {
        test_values(line)?;
    }
    if kept {
        Ok(put_kept(element, count, line, values))
    } else {
        *values = [0; 32];
        Ok(0)
    }
}

/// Puts the values of a line that count, in a month with that many days, and returns the word of their days. It isn't
/// built into its caller: if one element is kept, most lines don't come here.
#[inline(never)]
fn put_kept(element: Element, count: u8, line: &[u8], values: &mut [i32; 32]) -> u32
    requires long { 266 ≤ length line.now }
    requires fine { months.days_why line.now ≡ None }
    ensures { rows.AreDays (rows.line_value element count line.now) result values.new }
{
    put_values(line, values);
    keep_from(least_of(element), count, values)
}

/// Refuses a line for the first day whose value isn't a number. It isn't built into its callers, which
/// would clear the room for all 31 readings at each line.
#[inline(never)]
fn test_values(line: &[u8]) -> Result<(), LineWhy>
    requires { 266 ≤ length line.now }
    ensures err { IfErr result (λ why. months.days_why line.now ≡ Some why) }
    ensures fine { OnOk result (months.days_why line.now ≡ None) }
{
    readings(line)?;
    Ok(())
}

/// Whether a value of a line is bad.
#[inline(always)]
fn has_bad_value(line: &[u8]) -> bool
    requires { 266 ≤ length line.now }
    ensures { result ≡ false → months.days_why line.now ≡ None }
{
    match line.first_chunk() {
        Some(whole) => has_bad_value_in(whole),
        None => has_bad_value_filled(line),
    }
}

/// The same of a line whose end leaves out columns, which few do.
#[inline(never)]
fn has_bad_value_filled(line: &[u8]) -> bool
    requires short { length line.now < 269 }
    requires long { 266 ≤ length line.now }
    ensures { result ≡ false → months.days_why line.now ≡ None }
{
    has_bad_value_in(&with_blanks(line))
}

/// The same of a line with all its columns, two days at a time: the last one comes with the day before it.
#[inline(always)]
fn has_bad_value_in(line: &[u8; COLUMNS]) -> bool
    ensures { result ≡ false → months.days_why line.now ≡ None }
{
    let mut bad = u8x16::splat(0);
    for pair in 0..DAYS / 2 {
        bad |= bad_columns(two_groups(line, 2 * pair));
    }
    let last_two = two_groups(line, DAYS - 2);
    !are_clear(bad | bad_columns(last_two))
}

/// Puts the values of the 31 days of a line whose values are numbers. `MISSING` stands for those that are missing or
/// flagged.
fn put_values(line: &[u8], values: &mut [i32; 32])
    requires long { 266 ≤ length line.now }
    requires fine { months.days_why line.now ≡ None }
    ensures { rows.AreValues line.now values.new }
{
    match line.first_chunk() {
        Some(whole) => values_in(whole, values),
        None => put_filled_values(line, values),
    }
}

/// The same of a line whose end leaves out columns, which few do.
#[inline(never)]
fn put_filled_values(line: &[u8], values: &mut [i32; 32])
    requires short { length line.now < 269 }
    requires long { 266 ≤ length line.now }
    requires fine { months.days_why line.now ≡ None }
    ensures { rows.AreValues line.now values.new }
{
    values_in(&with_blanks(line), values);
}

/// The same of a line with all its columns, four days at a time. The last four come with the one before them, and
/// first, so that the row's last lanes are written by the time that they are read.
fn values_in(line: &[u8; COLUMNS], values: &mut [i32; 32])
    requires { months.days_why line.now ≡ None }
    ensures { rows.AreValues line.now values.new }
{
    put_four(line, DAYS - 4, values);
    for part in 0..DAYS / 4 {
        put_four(line, 4 * part, values);
    }
}

/// The same of four days, from one on.
#[inline(always)]
fn put_four(line: &[u8; COLUMNS], day: usize, values: &mut [i32; 32])
    requires fine { months.days_why line.now ≡ None }
    requires day { day < 28 }
    ensures four { (j : ℕ) → day ≤ j → j < day + 4 → get_or values.new j (pos 0) ≡ rows.value_or_missing line.now j }
    ensures others { (j : ℕ) → j < day → get_or values.new j (pos 0) ≡ get_or values.old j (pos 0) }
    ensures behind { (j : ℕ) → day + 4 ≤ j → get_or values.new j (pos 0) ≡ get_or values.old j (pos 0) }
{
    let four = four_numbers(four_groups(line, day), MISSING);
    values[day] = four[0];
    values[day + 1] = four[1];
    values[day + 2] = four[2];
    values[day + 3] = four[3];
}

/// A line with the blanks that its end leaves out.
fn with_blanks(line: &[u8]) -> [u8; COLUMNS]
    requires { length line.now < 269 }
    ensures { result ≡ line.now ++ replicate (269 - length line.now) 32 }
{
    let mut whole = [b' '; COLUMNS];
    whole[..line.len()].copy_from_slice(line);
    whole
}

/// Keeps the values of the days of a month with that many that aren't below a least one, puts 0 for the others, and
/// returns the word of their days. The 32nd place, which no month has, makes all places a whole number of lanes.
fn keep_from(least: i32, count: u8, values: &mut [i32; 32]) -> u32
    ensures { rows.AreDays (rows.value_from least count values.old) result values.new }
{
    let days = (count as u32).min(DAYS as u32);
    let mut word = 0;
    for place in 0..32_u32 {
        let value = values[place as usize];
        let counts = (value >= least) & (PLACES[place as usize] < days);
        word |= bit_if(counts, place);
        values[place as usize] = value_if(counts, value, 0);
    }
    word
}

/// A value, or another one.
fn value_if(counts: bool, value: i32, other: i32) -> i32
    ensures { result ≡ (if counts then value else other) }
{
    if counts { value } else { other }
}

/// The word whose one bit is at a place, or that of no bit.
fn bit_if(counts: bool, place: u32) -> u32
    requires { place < 32 }
    ensures { result ≡ (if counts then 2 ^ place else 0) }
{
    if counts { 1 << place } else { 0 }
}

/// The least value that an element can have.
fn least_of(element: Element) -> i32
    ensures { result ≡ least_of element }
{
    match element {
        Element::Tmax | Element::Tmin => MISSING + 1,
        Element::Prcp | Element::Snow | Element::Snwd => 0,
    }
}
