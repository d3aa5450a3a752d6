//! The values of a month that a quality check flagged. A record leaves them out, and a description
//! counts them.

ghost use Rattle.std.specs.Prelude.{◌≡◌, ◌≤◌, ◌<◌, ◌+◌, length, None, Some, Ok, map, if◌then◌else◌, false};
ghost use Rattle.std.specs.Option.{is_some};
ghost use Rattle.std.specs.List.{count_by, enumerate_from};
ghost use Rattle.ghcn_files.specs.declared.month.Month.{Month};
ghost use Rattle.ghcn_files.specs.Flags as flags;
ghost use Rattle.ghcn_files.specs.Months as months;
ghost use Rattle.ghcn_files.specs.Elements.{everything};
ghost use Rattle.ghcn_files.specs.Rows.{IsOfLine};

use crate::MonthRow;
use crate::missing::unless_missing;
use crate::month::{COLUMNS, DAYS, four_groups, is_flagged, value_column};
use ghcn_fields::{days_in_month, value_field};
use std::simd::prelude::*;

/// How many values of the line of a row a quality check flagged, on the days that its month has.
pub fn flagged_values(line: &[u8], row: &MonthRow) -> u32
    requires { IsOfLine everything line.now row.now }
    ensures { (m : Month) → months.read_month line.now ≡ Ok (Some m) → result ≡ flags.flagged_values m }
{
    flagged_among(days_in_month(row.year, row.month), line)
}

/// The same in a month with that many days.
fn flagged_among(days: u8, line: &[u8]) -> u32
    requires { 266 ≤ length line.now }
    ensures { result ≡ count_by (flags.is_flagged_value days)
        (enumerate_from 1 (map (months.reading line.now) months.days_of_group)) }
{
    match line.first_chunk() {
        Some(whole) => flagged_in(days, whole),
        None => flagged_by_day(days, line),
    }
}

/// The same of a line with all its columns. Most such lines have no flag.
fn flagged_in(days: u8, line: &[u8; COLUMNS]) -> u32
    ensures { result ≡ count_by (flags.is_flagged_value days)
        (enumerate_from 1 (map (months.reading line.now) months.days_of_group)) }
{
    if has_flag(line) {
        flagged_by_day(days, line)
    } else {
        0
    }
}

/// Whether a line with all its columns has a quality flag, four days at a time: the last four come with
/// the one before them.
fn has_flag(line: &[u8; COLUMNS]) -> bool
    ensures { result ≡ false → flags.HasNoFlag line.now 31 }
{
    let blanks = u8x32::splat(b' ');
    let mut others = u8x32::splat(0);
    for part in 0..8_usize {
        let day = (4 * part).min(DAYS - 4);
        others |= u8x32::from_slice(four_groups(line, day)) - blanks;
    }
    let others = others.to_array();
    others[6] | others[14] | others[22] | others[30] != 0
}

/// The same as `flagged_among`, day by day. It is built into its callers, of which one has lines of one length.
#[inline(always)]
fn flagged_by_day(days: u8, line: &[u8]) -> u32
    requires { 266 ≤ length line.now }
    ensures { result ≡ count_by (flags.is_flagged_value days)
        (enumerate_from 1 (map (months.reading line.now) months.days_of_group)) }
{
    let mut count = 0;
    for day in 0..DAYS {
        count += one_if(is_flagged_value(days, line, day));
    }
    count
}

/// What a day adds to the count.
fn one_if(counts: bool) -> u32
    ensures { result ≡ (if counts then 1 else 0) }
{
    counts as u32
}

/// Whether a day, from 0, is one of that many and has a flagged value.
fn is_flagged_value(days: u8, line: &[u8], day: usize) -> bool
    requires long { 266 ≤ length line.now }
    requires day { day < 31 }
    ensures { result ≡ flags.is_flagged_value days (day + 1, months.reading line.now (day + 1)) }
{
    is_flagged(line, day) && day < days as usize && has_value(line, day)
}

/// Whether the value of a day, from 0, is there.
fn has_value(line: &[u8], day: usize) -> bool
    requires long { 266 ≤ length line.now }
    requires day { day < 31 }
    ensures { result ≡ is_some (months.reading line.now (day + 1)).value }
{
    unless_missing(value_field(value_column(line, day))).is_some()
}
