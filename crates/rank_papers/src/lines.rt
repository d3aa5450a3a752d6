//! The lines of a report or a certificate, each with its line feed, and numbers in their fields.

ghost use Rattle.std.specs.Prelude.{◌≡◌, ◌≤◌, ◌-◌, ◌^◌, length, slice_range, Some, pos, neg_ℤ};
ghost use Rattle.std.specs.List.{list_all};
ghost use Rattle.std.specs.Option.{option_map};
ghost use Rattle.ghcn_fields.specs.Meaning.Numbers.{with_sign};
ghost use Rattle.ghcn_fields.specs.Numbers as numbers;
ghost use Rattle.std.specs.Fmt.{signed_decimal};
ghost use Rattle.ghcn_fields.specs.Meaning.Bytes.{same_bytes};
ghost use Rattle.ghcn_files.specs.Meaning.StationLines.{is_printable};
ghost use Rattle.rank_papers.specs.Lines as lines;

use itoa::Buffer;
use memchr::memchr;

/// The greatest magnitude of a number.
const GREATEST: u64 = 1 << 63;

/// The first line of a text, with its line feed if it has one, and what follows it.
pub fn first_line(text: &[u8]) -> Option<(&[u8], &[u8])>
    ensures { lines.IsFirstLineCut text.now (option_map (λ cut. (cut.0.now, cut.1.now)) result) }
{
    if text.is_empty() {
        return None;
    }
    match memchr(b'\n', text) {
        None => Some((text, &text[text.len()..])),
        Some(end) => Some((&text[..end + 1], &text[end + 1..])),
    }
}

/// What a line has from a byte on, before its last byte.
pub(crate) fn field_from(line: &[u8], from: usize) -> &[u8]
    ensures { result.now ≡ slice_range line.now from (length line.now - 1) }
{
    if from < line.len() {
        &line[from..line.len() - 1]
    } else {
        &[]
    }
}

/// What a line has from a byte on, up to another.
pub(crate) fn columns(line: &[u8], from: usize, to: usize) -> &[u8]
    ensures { result.now ≡ slice_range line.now from to }
{
    let end = to.min(line.len());
    if from < end { &line[from..end] } else { &[] }
}

/// Whether each byte can be printed.
pub(crate) fn are_printable(bytes: &[u8]) -> bool
    ensures { result ≡ list_all is_printable bytes.now }
{
    bytes.iter().all(|byte| b' ' <= *byte && *byte <= b'~')
}

/// The number of 64 bits that a field writes, in its one spelling.
pub(crate) fn number(field: &[u8]) -> Option<i64>
    ensures { result ≡ lines.number_in field.now }
{
    let found = match field {
        [b'-', digits @ ..] => negative(magnitude(digits)?),
        digits => positive(magnitude(digits)?)?,
    };
    if is_text_of(found, field) {
        Some(found)
    } else {
        None
    }
}

/// The number of a sign and a magnitude, if it is inside 64 bits.
pub(crate) fn signed(is_negative: bool, magnitude: u64) -> Option<i64>
    requires { magnitude ≤ 2 ^ 63 }
    ensures { result ≡ lines.in_i64 (Some (with_sign is_negative magnitude)) }
{
    if is_negative {
        Some(negative(magnitude))
    } else {
        positive(magnitude)
    }
}

fn negative(magnitude: u64) -> i64
    requires { magnitude ≤ 2 ^ 63 }
    ensures { result ≡ neg_ℤ (pos magnitude) }
{
    (-(magnitude as i128)) as i64
}

fn positive(magnitude: u64) -> Option<i64>
    ensures { result ≡ lines.in_i64 (Some (pos magnitude)) }
{
    if magnitude < GREATEST {
        Some(magnitude as i64)
    } else {
        None
    }
}

/// Whether a field is the text of a number.
fn is_text_of(number: i64, field: &[u8]) -> bool
    ensures { result ≡ same_bytes (signed_decimal number) field.now }
{
    let mut buffer = Buffer::new();
    buffer.format(number).as_bytes() == field
}

/// The number that digits write, if it is at most `GREATEST`.
pub(crate) fn magnitude(digits: &[u8]) -> Option<u64>
    ensures { result ≡ numbers.up_to (2 ^ 63) (numbers.natural digits.now) }
{
    if digits.is_empty() {
        return None;
    }
    let mut value: u64 = 0;
    for digit in digits {
        if !digit.is_ascii_digit() {
            return None;
        }
        let more = value as u128 * 10 + (*digit - b'0') as u128;
        if more > GREATEST as u128 {
            return None;
        }
        value = more as u64;
    }
    Some(value)
}
