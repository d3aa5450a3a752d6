//! What single words of a query text are read as.

ghost use Rattle.std.specs.Prelude.{◌≡◌, true, ◌+◌, ◌<◌, ◌^◌, ◌&&◌, int_le, min, IfOk, IfSome, IsTrue, length};
ghost use Rattle.std.specs.Option.{option_map};
ghost use Rattle.ghcn_fields.specs.Numbers.{natural, joined, decimal_number, signed_by};
ghost use Rattle.ghcn_fields.specs.Meaning.Days.{is_within};
ghost use Rattle.ghcn_files.specs.Meaning.Elements.{may_be_negative};
ghost use Rattle.rank_query.specs.Meaning.Asked.{is_code, is_fall, is_heat, is_day_of_2000};
ghost use Rattle.rank_query.specs.Readers as readers;
ghost use Rattle.rank_query.specs.Readers.{Gives, one_word};
ghost use Rattle.rank_query.specs.WordValues as values;
ghost use Rattle.rank_query.specs.WordValues.{is_month};

use crate::words::{Words, says};
use crate::{Per, QueryFault};
use ghcn_fields::{Day, Field, read_date, scaled_field};
use ghcn_files::{Element, are_visible};
use memchr::memchr;

/// The greatest number of degrees by which a day can be called hot or cold.
const MOST_DEGREES: u64 = 100;

/// The same in tenths.
const MOST_TENTHS: u64 = 1000;

/// The number of December.
const LAST_MONTH: u64 = 12;

/// The next word, with its number.
pub(crate) fn needed<'a>(words: &mut Words<'a>) -> Result<(u64, &'a [u8]), QueryFault>
    ensures { Gives (λ w. ((w.0, w.1.now), words.new)) result (readers.next_word words.old) }
{
    words.next().ok_or(QueryFault::QueryEnds)
}

/// Takes the next word, which has to be this one.
#[tactic(auto, unfolding(crate::specs::Readers::keyword))]
pub(crate) fn keyword(words: &mut Words, expected: &[u8]) -> Result<(), QueryFault>
    ensures { Gives (λ _. words.new) result (readers.keyword expected.now words.old) }
{
    let (at, word) = needed(words)?;
    if !says(expected, word) {
        return Err(QueryFault::UnexpectedWord(at));
    }
    Ok(())
}

/// A number from `low` to `high`, with leading zeros or without.
#[tactic(auto, unfolding(crate::specs::WordValues::number))]
pub(crate) fn number(words: &mut Words, low: u64, high: u64) -> Result<u64, QueryFault>
    requires { high < 2 ^ 32 }
    ensures read { Gives (λ n. (n, words.new)) result (one_word (values.number low high) words.old) }
    ensures within { IfOk result (λ n. IsTrue (is_within low high n)) }
{
    let (at, word) = needed(words)?;
    match number_up_to(word, high) {
        None => Err(QueryFault::UnexpectedWord(at)),
        Some(number) if low <= number && number <= high => Ok(number),
        Some(_) => Err(QueryFault::OutOfLimits(at)),
    }
}

/// The number that digits write, or one past `most` in place of any greater number.
fn number_up_to(digits: &[u8], most: u64) -> Option<u64>
    requires { most < 2 ^ 32 }
    ensures { result ≡ option_map (min (most + 1)) (natural digits.now) }
{
    if digits.is_empty() {
        return None;
    }
    let mut value: u64 = 0;
    for digit in digits {
        if !digit.is_ascii_digit() {
            return None;
        }
        value = (value * 10 + (*digit - b'0') as u64).min(most + 1);
    }
    Some(value)
}

/// The element that the next word names.
#[tactic(auto, unfolding(crate::specs::WordValues::element))]
pub(crate) fn element(words: &mut Words) -> Result<Element, QueryFault>
    ensures { Gives (λ e. (e, words.new)) result (one_word (values.element (λ e. true)) words.old) }
{
    let (at, word) = needed(words)?;
    Element::of_code(word).ok_or(QueryFault::UnexpectedWord(at))
}

/// The temperature that the next word names.
#[tactic(auto, unfolding(crate::specs::WordValues::element))]
pub(crate) fn temperature(words: &mut Words) -> Result<Element, QueryFault>
    ensures read { Gives (λ e. (e, words.new)) result (one_word (values.element may_be_negative) words.old) }
    ensures allowed { IfOk result (λ e. IsTrue (may_be_negative e)) }
{
    let (at, word) = needed(words)?;
    match Element::of_code(word) {
        Some(element @ (Element::Tmax | Element::Tmin)) => Ok(element),
        _ => Err(QueryFault::UnexpectedWord(at)),
    }
}

/// Precipitation or snowfall, whichever the next word names.
#[tactic(auto, unfolding(crate::specs::WordValues::element))]
pub(crate) fn fall(words: &mut Words) -> Result<Element, QueryFault>
    ensures read { Gives (λ e. (e, words.new)) result (one_word (values.element is_fall) words.old) }
    ensures allowed { IfOk result (λ e. IsTrue (is_fall e)) }
{
    let (at, word) = needed(words)?;
    match Element::of_code(word) {
        Some(element @ (Element::Prcp | Element::Snow)) => Ok(element),
        _ => Err(QueryFault::UnexpectedWord(at)),
    }
}

/// A number of degrees from -100 to 100, in tenths, with one decimal at most.
#[tactic(auto, unfolding(crate::specs::WordValues::heat))]
pub(crate) fn heat(words: &mut Words) -> Result<i32, QueryFault>
    ensures read { Gives (λ t. (t, words.new)) result (one_word values.heat words.old) }
    ensures within { IfOk result (λ t. IsTrue (is_heat t)) }
{
    let (place, word) = needed(words)?;
    match tenths_up_to_most(word) {
        None => Err(QueryFault::UnexpectedWord(place)),
        Some(tenths) if is_between(-1000, tenths, 1000) => Ok(tenths),
        Some(_) => Err(QueryFault::OutOfLimits(place)),
    }
}

/// The tenths that a word writes, with a minus or without. A number out of the limits of degrees is
/// another one that is out of them too.
fn tenths_up_to_most(word: &[u8]) -> Option<i32>
    ensures { result ≡ signed_by (λ digits. option_map (min 1001) (decimal_number 1 digits)) word.now }
{
    match word {
        [b'-', digits @ ..] => Some(-(decimal_up_to_most(digits)? as i32)),
        digits => Some(decimal_up_to_most(digits)? as i32),
    }
}

/// The tenths that digits write, with one digit at most after a point, or one past the most in place
/// of any greater number.
fn decimal_up_to_most(text: &[u8]) -> Option<u64>
    ensures { result ≡ option_map (min 1001) (decimal_number 1 text.now) }
{
    match memchr(b'.', text) {
        None => joined_up_to_most(text, b"0"),
        Some(point) => joined_up_to_most(&text[..point], &text[point + 1..]),
    }
}

/// The tenths with these digits before their point and these after it.
fn joined_up_to_most(whole: &[u8], part: &[u8]) -> Option<u64>
    ensures { result ≡ option_map (min 1001)
        (joined 1 (natural whole.now) (natural part.now) (length part.now)) }
{
    if part.len() > 1 {
        return None;
    }
    let tenths = number_up_to(whole, MOST_DEGREES)? * 10 + number_up_to(part, 9)?;
    Some(tenths.min(MOST_TENTHS + 1))
}

/// The first and the last month of a season, which two points join.
#[tactic(auto, unfolding(crate::specs::WordValues::months))]
pub(crate) fn months(words: &mut Words) -> Result<(u8, u8), QueryFault>
    ensures read { Gives (λ s. (s, words.new)) result (one_word values.months words.old) }
    ensures within { IfOk result (λ s. IsTrue (is_month s.0 && is_month s.1)) }
{
    let (place, word) = needed(words)?;
    match two_up_to(word, LAST_MONTH) {
        None => Err(QueryFault::UnexpectedWord(place)),
        Some((first, last)) if is_month(first) && is_month(last) => Ok((first as u8, last as u8)),
        Some(_) => Err(QueryFault::OutOfLimits(place)),
    }
}

fn is_month(number: u64) -> bool
    ensures { result ≡ is_month number }
{
    1 <= number && number <= LAST_MONTH
}

/// The numbers before and after two points, or one past `most` in place of any greater number.
fn two_up_to(word: &[u8], most: u64) -> Option<(u64, u64)>
    requires { most < 2 ^ 32 }
    ensures { result ≡ option_map (λ s. (min (most + 1) s.0, min (most + 1) s.1)) (values.two_numbers word.now) }
{
    match memchr(b'.', word) {
        None => None,
        Some(point) => both_up_to(&word[..point], &word[point + 1..], most),
    }
}

/// The number that digits write, and the one after a point.
fn both_up_to(first: &[u8], rest: &[u8], most: u64) -> Option<(u64, u64)>
    requires { most < 2 ^ 32 }
    ensures { result ≡ option_map (λ s. (min (most + 1) s.0, min (most + 1) s.1))
        (values.both (natural first.now) (values.natural_behind rest.now)) }
{
    match rest {
        [b'.', last @ ..] => number_up_to(first, most).zip(number_up_to(last, most)),
        _ => None,
    }
}

/// The first and the last day of a season, as days of the year 2000, which two points join.
#[tactic(auto, unfolding(crate::specs::WordValues::dates))]
pub(crate) fn dates(words: &mut Words) -> Result<(Day, Day), QueryFault>
    ensures read { Gives (λ s. (s, words.new)) result (one_word values.dates words.old) }
    ensures within { IfOk result (λ s. IsTrue (is_day_of_2000 s.0 && is_day_of_2000 s.1)) }
{
    let (at, word) = needed(words)?;
    two_days(word).ok_or(QueryFault::BadDate(at))
}

/// The days before and after two points, as days of the year 2000.
#[tactic(auto, unfolding(crate::specs::Words::says))]
fn two_days(word: &[u8]) -> Option<(Day, Day)>
    ensures days { result ≡ values.two_days word.now }
    ensures within { IfSome result (λ s. IsTrue (is_day_of_2000 s.0 && is_day_of_2000 s.1)) }
{
    if word.len() != 12 {
        return None;
    }
    if !says(b"..", &word[5..7]) {
        return None;
    }
    day_of_2000(&word[..5]).zip(day_of_2000(&word[7..]))
}

/// The day of the year 2000 whose date without the year, `MM-DD`, the bytes are.
fn day_of_2000(text: &[u8]) -> Option<Day>
    requires { length text.now ≡ 5 }
    ensures day { result ≡ values.day_of_2000 text.now }
    ensures within { IfSome result (λ day. IsTrue (is_day_of_2000 day)) }
{
    read_date(&[
        b'2', b'0', b'0', b'0', b'-', text[0], text[1], text[2], text[3], text[4],
    ])
}

/// A number of degrees from `low` to `high`, in ten-thousandths, with up to four decimals.
#[tactic(auto, unfolding(crate::specs::WordValues::degrees))]
pub(crate) fn degrees(words: &mut Words, low: i32, high: i32) -> Result<i32, QueryFault>
    ensures read { Gives (λ z. (z, words.new)) result (one_word (values.degrees low high) words.old) }
    ensures within { IfOk result (λ z. IsTrue (int_le low z && int_le z high)) }
{
    let (at, word) = needed(words)?;
    match scaled_field(word, 4) {
        Field::Number(number) if is_between(low, number, high) => Ok(number),
        _ => Err(QueryFault::BadBox(at)),
    }
}

fn is_between(low: i32, number: i32, high: i32) -> bool
    ensures { result ≡ (int_le low number && int_le number high) }
{
    low <= number && number <= high
}

/// A code of that many bytes, each of which shows in print.
#[tactic(auto, unfolding(crate::specs::WordValues::code))]
pub(crate) fn code<const N: usize>(words: &mut Words) -> Result<[u8; N], QueryFault>
    ensures read { Gives (λ c. (c, words.new)) result (one_word (values.code N) words.old) }
    ensures visible { IfOk result (λ c. IsTrue (is_code N c)) }
{
    let (at, word) = needed(words)?;
    match <[u8; N]>::try_from(word) {
        Ok(code) if are_visible(word) => Ok(code),
        _ => Err(QueryFault::UnexpectedWord(at)),
    }
}

/// The day whose date, `YYYY-MM-DD`, the next word is.
#[tactic(auto, unfolding(crate::specs::WordValues::date))]
pub(crate) fn date(words: &mut Words) -> Result<Day, QueryFault>
    ensures { Gives (λ day. (day, words.new)) result (one_word values.date words.old) }
{
    let (at, word) = needed(words)?;
    read_date(word).ok_or(QueryFault::BadDate(at))
}

/// The group that the next word names.
#[tactic(auto, unfolding(crate::specs::WordValues::group))]
pub(crate) fn group(words: &mut Words) -> Result<Per, QueryFault>
    ensures { Gives (λ g. (g, words.new)) result (one_word values.group words.old) }
{
    let (at, word) = needed(words)?;
    match word {
        b"station" => Ok(Per::Station),
        b"year" => Ok(Per::Year),
        _ => Err(QueryFault::UnexpectedWord(at)),
    }
}
