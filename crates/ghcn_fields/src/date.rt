//! Dates as texts, `YYYY-MM-DD`.

ghost use Rattle.std.specs.Prelude.{◌≡◌, ◌↔◌, ℤ, ◌+◌, ◌%◌, IsTrue, Some};
ghost use Rattle.ghcn_fields.specs.Meaning.Days.{is_day};
ghost use Rattle.ghcn_fields.specs.Meaning.Dates.{date_text};
ghost use Rattle.ghcn_fields.specs.Dates as dates;

use crate::day::Day;
use crate::field::small_natural;

/// The text of a day, `YYYY-MM-DD`.
pub fn write_date(day: Day) -> [u8; 10]
    ensures { result ≡ date_text day }
{
    let (year, month, day) = day.civil();
    let (month, day) = (month as u16, day as u16);
    [
        last_digit(year / 1000),
        last_digit(year / 100),
        last_digit(year / 10),
        last_digit(year),
        b'-',
        last_digit(month / 10),
        last_digit(month),
        b'-',
        last_digit(day / 10),
        last_digit(day),
    ]
}

/// The day whose text the bytes are, or `None` if they are the text of no day.
pub fn read_date(text: &[u8]) -> Option<Day>
    ensures value { result ≡ dates.read_date text.now }
    ensures written { (day : ℤ) →
        (result ≡ Some day) ↔ (IsTrue (is_day day) × (text.now ≡ date_text day)) }
{
    let [_, _, _, _, b'-', _, _, b'-', _, _] = text else {
        return None;
    };
    let year = small_natural(&text[..4])?;
    let month = small_natural(&text[5..7])?;
    let day = small_natural(&text[8..])?;
    Day::of(year as u16, month as u8, day as u8)
}

fn last_digit(number: u16) -> u8
    ensures { result ≡ 48 + number % 10 }
{
    b'0' + (number % 10) as u8
}
