//! Days of the years 1 to 9999, by their numbers.

ghost use Rattle.std.specs.Prelude.{◌≡◌, ◌≤◌, ℤ, pos, Some, IfSome, IsTrue};
ghost use Rattle.jiff_core.specs.Calendar as calendar;
ghost use Rattle.ghcn_fields.specs.Meaning.Days.{is_day};
ghost use Rattle.ghcn_fields.specs.Days.{day_if, day_number, block_of, IsBlock};
ghost use Rattle.ghcn_fields.specs.Meaning.Dates as dates;

use jiff_core::civil::Date;
use std::marker::Model;

/// The number of 0001-01-01.
const FIRST: i32 = -719_162;

/// The number of 9999-12-31.
const LAST: i32 = 2_932_896;

/// A day of the proleptic Gregorian calendar, from 0001-01-01 to 9999-12-31.
///
/// A contract sees its number: the days since 1970-01-01, negative before it.
#[derive(Clone, Copy, Debug, PartialEq, Eq, PartialOrd, Ord, Hash)]
pub struct Day {
    number: i32,
}

impl Model for Day {
    ghost Value = { ℤ };

    ghost view = { λ day. day.number };

    ghost invariant = { λ day. IsTrue (is_day day.number) };

    ghost inverse = { λ n. record { number = n } };
}

impl Day {
    /// The day of this year, month and day of the month, or `None` if the calendar has none.
    pub fn of(year: u16, month: u8, day: u8) -> Option<Self>
        ensures value { result ≡ day_number year month day }
        ensures date { IfSome result (λ found. dates.civil found ≡ (year, month, day)) }
    {
        if year == 0 || year > 9999 || month > 12 || day > 31 {
            return None;
        }
        match Date::new(year as i16, month as i8, day as i8) {
            Ok(date) => Some(Day {
                number: date.to_unix_epoch_day(),
            }),
            Err(_) => None,
        }
    }

    /// The day with this number, or `None` outside the years 1 to 9999.
    pub fn with_number(number: i32) -> Option<Self>
        ensures { result ≡ day_if number }
    {
        if number < FIRST || number > LAST {
            return None;
        }
        Some(Day { number })
    }

    /// The day with this number, from -719162 to 2932896.
    pub fn numbered(number: i32) -> Self
        requires { IsTrue (is_day number) }
        ensures { result ≡ number }
    {
        Day { number }
    }

    /// Days since 1970-01-01, from -719162 to 2932896.
    pub fn number(self) -> i32
        ensures value { result ≡ self }
        ensures range { IsTrue (is_day self) }
    {
        self.number
    }

    /// Year, month and day of the month; the last two count from 1.
    pub fn civil(self) -> (u16, u8, u8)
        ensures value { result ≡ dates.civil self }
        ensures number { day_number result.0 result.1 result.2 ≡ Some self }
    {
        match Date::from_unix_epoch_day(self.number as i64) {
            Ok(date) => (date.year.unsigned_abs(), date.month, date.day),
            Err(_) => unreachable!(),
        }
    }

    /// The block of 32 days that holds the day: the number divided by 32, rounded down.
    ///
    /// From -22474, the block of 0001-01-01, to 91653, the block of 9999-12-31.
    pub fn block(self) -> i32
        ensures value { result ≡ block_of self }
        ensures range { IsBlock result }
    {
        self.number.div_euclid(32)
    }
}

/// How many days a month, from 1, of a year up to 9999 has.
pub fn days_in_month(year: u16, month: u8) -> u8
    requires { year ≤ 9999 }
    ensures { result ≡ calendar.days_in_month (pos year) month }
{
    jiff_core::civil::days_in_month(year as i16, month)
}
