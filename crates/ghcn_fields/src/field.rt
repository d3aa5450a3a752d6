//! Number fields. In the readme's fixed-width records a number ends in its field's last column.

ghost use Rattle.std.specs.Prelude.{◌≡◌, ◌↔◌, ◌≤◌, ◌^◌, ◌==◌, ℤ, length, take, drop, All};
ghost use Rattle.std.specs.Prelude.{Some, IfSome, FitsSigned};
ghost use Rattle.std.specs.Char.{is_ascii_digit};
ghost use Rattle.std.specs.Int.{w32};
ghost use Rattle.std.specs.List.{before_first, list_any, position_or_len};
ghost use Rattle.std.specs.Option.{option_map};
ghost use Rattle.ghcn_fields.specs.Meaning.Bytes.{blank_byte};
ghost use Rattle.ghcn_fields.specs.Meaning.Fields.{HasNumber};
ghost use Rattle.ghcn_fields.specs.Meaning.Numbers.{with_sign};
ghost use Rattle.ghcn_fields.specs.Numbers as numbers;

/// What a number field holds.
#[derive(Clone, Copy, Debug, PartialEq, Eq)]
pub enum Field {
    /// Blanks alone, or no column at all.
    Blank,
    /// A number, in units of the last decimal place of the field.
    Number(i32),
    /// Anything else, and a number outside `i32`.
    Bad,
}

/// The greatest magnitude of an `i32`.
const GREATEST: u64 = 1 << 31;

/// Reads a whole number: blanks, an optional `-`, then digits up to the last column.
pub fn int_field(field: &[u8]) -> Field
    ensures value { result ≡ numbers.int_field field.now }
    ensures number { (v : ℤ) →
        (result ≡ Field.Number v) ↔ (HasNumber 0 field.now v × FitsSigned w32 v) }
    ensures blank { (result ≡ Field.Blank) ↔ All (λ b. b ≡ blank_byte) field.now }
{
    match after_blanks(field) {
        [] => Field::Blank,
        [b'-', digits @ ..] => signed_field(true, small_natural(digits)),
        digits => signed_field(false, small_natural(digits)),
    }
}

/// Reads a decimal number as that many units of its last place, of `places` places: blanks, an
/// optional `-`, digits, and then, up to the last column, optionally a point and 1 to `places` digits.
/// It is never built into its callers, so that these, which read most fields by look-ups, stay small.
#[inline(never)]
pub fn scaled_field(field: &[u8], places: u8) -> Field
    requires { places ≤ 4 }
    ensures value { result ≡ numbers.scaled_field places field.now }
    ensures number { (v : ℤ) →
        (result ≡ Field.Number v) ↔ (HasNumber places field.now v × FitsSigned w32 v) }
    ensures blank { (result ≡ Field.Blank) ↔ All (λ b. b ≡ blank_byte) field.now }
{
    match after_blanks(field) {
        [] => Field::Blank,
        [b'-', digits @ ..] => signed_field(true, small_decimal(digits, places)),
        digits => signed_field(false, small_decimal(digits, places)),
    }
}

/// What follows the blanks at the front of a text.
pub fn after_blanks(field: &[u8]) -> &[u8]
    ensures { result.now ≡ numbers.after_blanks field.now }
{
    let mut rest = field;
    while let [b' ', more @ ..] = rest {
        rest = more;
    }
    rest
}

/// The number that digits write, if it is at most `GREATEST`.
pub(crate) fn small_natural(digits: &[u8]) -> Option<u64>
    ensures { result ≡ numbers.up_to (2 ^ 31) (numbers.natural digits.now) }
{
    if digits.is_empty() {
        return None;
    }
    let mut value: u64 = 0;
    for digit in digits {
        if !digit.is_ascii_digit() {
            return None;
        }
        value = value * 10 + (*digit - b'0') as u64;
        if value > GREATEST {
            return None;
        }
    }
    Some(value)
}

/// The decimal number that a text writes, in units of its last place, if it is at most `GREATEST`.
fn small_decimal(text: &[u8], places: u8) -> Option<u64>
    requires { places ≤ 4 }
    ensures { result ≡ numbers.up_to (2 ^ 31) (numbers.decimal_number places text.now) }
{
    match whole_part(text)? {
        (whole, [_, part @ ..]) => small_joined(whole, part, places),
        (whole, []) => small(whole * units(places)),
    }
}

/// The number of the digits before the point of a text, or of all if it has none, if it is at most `GREATEST`;
/// and what follows these digits.
fn whole_part(text: &[u8]) -> Option<(u64, &[u8])>
    ensures number { option_map (λ found. found.0) result
        ≡ numbers.up_to (2 ^ 31) (numbers.natural (before_first (λ b. b == 46) text.now)) }
    ensures rest { IfSome result (λ found. found.1.now ≡ drop (position_or_len (λ b. b == 46) text.now) text.now) }
{
    if !begins_with_digit(text) {
        return None;
    }
    let mut value: u64 = 0;
    for (place, byte) in text.iter().enumerate() {
        if *byte == b'.' {
            return Some((value, &text[place..]));
        }
        if !byte.is_ascii_digit() {
            return None;
        }
        value = value * 10 + (*byte - b'0') as u64;
        if value > GREATEST {
            return None;
        }
    }
    Some((value, &[]))
}

/// Whether a text begins with a digit.
fn begins_with_digit(text: &[u8]) -> bool
    ensures { result ≡ list_any is_ascii_digit (take 1 text.now) }
{
    match text {
        [first, ..] => first.is_ascii_digit(),
        [] => false,
    }
}

/// The number with this whole part and these digits after its point, in units of the last place.
fn small_joined(whole: u64, part: &[u8], places: u8) -> Option<u64>
    requires few { places ≤ 4 }
    requires small { whole ≤ 2 ^ 31 }
    ensures { result ≡ numbers.up_to (2 ^ 31)
        (numbers.joined places (Some whole) (numbers.natural part.now) (length part.now)) }
{
    if part.len() > places as usize {
        return None;
    }
    let missing = places - part.len() as u8;
    small(whole * units(places) + small_natural(part)? * units(missing))
}

/// How many units of the last of that many places are one.
fn units(places: u8) -> u64
    requires { places ≤ 4 }
    ensures units { result ≡ 10 ^ places }
    ensures few { result ≤ 10000 }
{
    match places {
        0 => 1,
        1 => 10,
        2 => 100,
        3 => 1000,
        _ => 10_000,
    }
}

fn small(number: u64) -> Option<u64>
    ensures { result ≡ numbers.up_to (2 ^ 31) (Some number) }
{
    if number > GREATEST {
        return None;
    }
    Some(number)
}

pub(crate) fn signed_field(negative: bool, magnitude: Option<u64>) -> Field
    requires { IfSome magnitude (λ n. n ≤ 2 ^ 31) }
    ensures { result ≡ numbers.field_of (option_map (with_sign negative) magnitude) }
{
    match magnitude {
        None => Field::Bad,
        Some(n) if negative => Field::Number((-(n as i64)) as i32),
        Some(n) if n < GREATEST => Field::Number(n as i32),
        Some(_) => Field::Bad,
    }
}
