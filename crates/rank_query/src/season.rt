//! When in the year a query looks.

ghost use Rattle.std.specs.Prelude.{◌≡◌, IsTrue, ℤ, pos, neg_ℤ, ◌+ℤ◌, ◌-ℤ◌, ◌≤ℤ◌, int_le};
ghost use Rattle.ghcn_fields.specs.Meaning.Dates.{civil};
ghost use Rattle.ghcn_fields.specs.Meaning.Days.{is_day};
ghost use Rattle.rank_query.specs.Meaning.Admits as admits;

use ghcn_fields::{Day, days_in_month};

/// The days of each year that a query admits.
#[derive(Clone, Copy, Debug, PartialEq, Eq)]
pub enum Season {
    /// All days.
    AllYear,
    /// From a first to a last month, 1 to 12. If the first is greater, the season goes over the turn
    /// of the year.
    Months(u8, u8),
    /// From a first to a last day, both of the year 2000, which stand for these days of every year.
    /// If the first is later, the season goes over the turn of the year.
    Dates(Day, Day),
}

impl Season {
    /// Whether the season holds the day.
    pub(crate) fn holds(self, day: Day) -> bool
        ensures { result ≡ admits.season_holds self day }
    {
        match self {
            Season::AllYear => true,
            Season::Months(first, last) => is_between_months(first, last, day.civil().1),
            Season::Dates(first, last) => is_between_days(first, last, in_2000(day)),
        }
    }

    /// Whether the season holds the day, and a number up to which the days from it on are alike in that:
    /// that of the last day of its month, or that of the season's last day or the day before its first.
    pub(crate) fn holds_from(self, day: Day) -> (bool, i32)
        ensures on { day ≤ℤ result.1 }
        ensures alike { (d : ℤ) → IsTrue (is_day d) → day ≤ℤ d → d ≤ℤ result.1
            → admits.season_holds self d ≡ result.0 }
    {
        match self {
            Season::AllYear => (true, i32::MAX),
            Season::Months(first, last) => {
                let (month, end) = month_of(day);
                (is_between_months(first, last, month), end)
            }
            Season::Dates(first, last) => between_days_from(first, last, day),
        }
    }
}

/// The month of a day, and the number of that month's last day.
fn month_of(day: Day) -> (u8, i32)
    ensures on { day ≤ℤ result.1 }
    ensures few { result.1 ≤ℤ (day +ℤ pos 30) }
    ensures month { (d : ℤ) → day ≤ℤ d → d ≤ℤ result.1 → (civil d).1 ≡ result.0 }
    ensures place { (d : ℤ) → day ≤ℤ d → d ≤ℤ result.1
        → admits.in_2000 d ≡ admits.in_2000 day +ℤ (d -ℤ day) }
{
    let (year, month, place) = day.civil();
    let left = days_in_month(year, month) - place;
    (month, day.number() + left as i32)
}

/// Whether a month lies from a first to a last one, over the turn of the year if the first is
/// greater.
fn is_between_months(first: u8, last: u8, month: u8) -> bool
    ensures { result ≡ admits.is_between_edges (pos first) (pos last) (pos month) }
{
    if first <= last {
        first <= month && month <= last
    } else {
        first <= month || month <= last
    }
}

/// Whether a day of a year lies from a first to a last one, over the turn of the year if the first is
/// later.
fn is_between_days(first: Day, last: Day, day: Day) -> bool
    ensures { result ≡ admits.is_between_edges first last day }
{
    let (first, last, day) = (first.number(), last.number(), day.number());
    if first <= last {
        first <= day && day <= last
    } else {
        first <= day || day <= last
    }
}

/// The same of the day of the year 2000 that a day stands for, and a number up to which the days from
/// it on are alike in that.
fn between_days_from(first: Day, last: Day, day: Day) -> (bool, i32)
    ensures on { day ≤ℤ result.1 }
    ensures alike { (d : ℤ) → day ≤ℤ d → d ≤ℤ result.1
        → admits.is_between_edges first last (admits.in_2000 d) ≡ result.0 }
{
    let (_, end) = month_of(day);
    let here = in_2000(day);
    let more = days_alike(first, last, here, end - day.number());
    (is_between_days(first, last, here), day.number() + more)
}

/// How many days after a day of a year are like it in whether they lie between two others, `most` at
/// the most.
fn days_alike(first: Day, last: Day, day: Day, most: i32) -> i32
    requires { pos 0 ≤ℤ most }
    ensures some { pos 0 ≤ℤ result }
    ensures few { result ≤ℤ most }
    ensures alike { (d : ℤ) → day ≤ℤ d → d ≤ℤ (day +ℤ result)
        → admits.is_between_edges first last d ≡ admits.is_between_edges first last day }
{
    let up_to_last = days_on_one_side(last.number() + 1, day, most);
    days_on_one_side(first.number(), day, up_to_last)
}

/// How many days after a day are before the day of a number if it is, and not before it if it isn't,
/// `most` at the most.
fn days_on_one_side(number: i32, day: Day, most: i32) -> i32
    requires low { neg_ℤ (pos 1_000_000) ≤ℤ number }
    requires high { number ≤ℤ pos 3_000_000 }
    requires most { pos 0 ≤ℤ most }
    ensures some { pos 0 ≤ℤ result }
    ensures few { result ≤ℤ most }
    ensures alike { (d : ℤ) → day ≤ℤ d → d ≤ℤ (day +ℤ result) → int_le number d ≡ int_le number day }
{
    let ahead = number - 1 - day.number();
    if 0 <= ahead && ahead < most {
        return ahead;
    }
    most
}

/// The day of the year 2000, which has 29 February, with the month and the day of the month of a day.
fn in_2000(day: Day) -> Day
    ensures { result ≡ admits.in_2000 day }
{
    let (_, month, place) = day.civil();
    Day::of(2000, month, place).unwrap()
}
