//! A number field of five columns, read by look-ups: no branch depends on a single byte.
//!
//! A byte adds its digit times its place's worth, and from bit 17 on its kind, two bits a column: 0
//! a blank, 1 a minus, 2 a digit, 3 any other byte. Below bit 17 is then the magnitude, since a
//! byte that isn't a digit counts as 0; the kinds above it say what the field is.

ghost use Rattle.std.specs.Prelude.{◌≡◌, ◌+◌, ◌*◌, ◌<◌};
ghost use Rattle.ghcn_fields.specs.Numbers as numbers;
ghost use Rattle.ghcn_fields.specs.FieldForms.{digit_of, kind_of, form_of_kinds, IsSum};
ghost use Rattle.ghcn_fields.specs.FieldForms.{is_malformed, number_by};

use crate::field::{Field, signed_field};

/// What the kinds of a field's bytes are together.
#[derive(Clone, Copy)]
pub(crate) enum Form {
    /// Blanks alone.
    Blanks,
    /// Blanks or none, then digits.
    Plain,
    /// Blanks or none, a minus, then digits.
    Negative,
    /// Anything else.
    Malformed,
}

/// The first bit of the kinds: no five digits write as much.
pub(crate) const KINDS: u32 = 1 << 17;

/// Reads a whole number of five columns: blanks, an optional `-`, then digits up to the last one.
pub fn value_field(column: &[u8; 5]) -> Field
    ensures { result ≡ numbers.int_field column.now }
{
    let sum = sum_of(column);
    let magnitude = Some((sum % KINDS) as u64);
    match form_of(sum / KINDS) {
        Form::Blanks => Field::Blank,
        Form::Plain => signed_field(false, magnitude),
        Form::Negative => signed_field(true, magnitude),
        Form::Malformed => Field::Bad,
    }
}

/// Reads such a number as `value_field` does, with no branch at all: whether the field is bad, and its
/// number, or another one if it has none.
pub fn value_or(column: &[u8; 5], other: i32) -> (bool, i32)
    ensures bad { result.0 ≡ numbers.is_bad (numbers.int_field column.now) }
    ensures number { result.1 ≡ numbers.number_or other (numbers.int_field column.now) }
{
    let sum = sum_of(column);
    let form = form_of(sum / KINDS);
    (is_malformed(form), number_by(form, sum % KINDS, other))
}

/// Whether a field of this form is bad.
fn is_malformed(form: Form) -> bool
    ensures { result ≡ is_malformed form }
{
    matches!(form, Form::Malformed)
}

/// The number of this magnitude in a field of this form, or another one if it has none. A `match`
/// would be a jump to one of four places.
fn number_by(form: Form, magnitude: u32, other: i32) -> i32
    requires { magnitude < 131072 }
    ensures { result ≡ number_by form magnitude other }
{
    let positive = magnitude as i32;
    let number = if matches!(form, Form::Negative) {
        -positive
    } else {
        positive
    };
    if matches!(form, Form::Plain | Form::Negative) {
        number
    } else {
        other
    }
}

/// What five bytes add.
pub(crate) fn sum_of(column: &[u8; 5]) -> u32
    ensures { IsSum result column.now }
{
    let [a, b, c, d, e] = *column;
    first(a) + second(b) + third(c) + fourth(d) + fifth(e)
}

/// What five kinds are together; the first column's is the last digit in base 4.
pub(crate) fn form_of(kinds: u32) -> Form
    requires { kinds < 1024 }
    ensures { result ≡ form_of_kinds kinds }
{
    FORMS[kinds as usize]
}

/// What a byte adds in the first column. In the next a digit counts a tenth, and a kind four times.
fn first(byte: u8) -> u32
    ensures { result ≡ 10000 * digit_of byte + 131072 * kind_of byte }
{
    COLUMNS[0][byte as usize]
}

fn second(byte: u8) -> u32
    ensures { result ≡ 1000 * digit_of byte + 524288 * kind_of byte }
{
    COLUMNS[1][byte as usize]
}

fn third(byte: u8) -> u32
    ensures { result ≡ 100 * digit_of byte + 2097152 * kind_of byte }
{
    COLUMNS[2][byte as usize]
}

fn fourth(byte: u8) -> u32
    ensures { result ≡ 10 * digit_of byte + 8388608 * kind_of byte }
{
    COLUMNS[3][byte as usize]
}

fn fifth(byte: u8) -> u32
    ensures { result ≡ 1 * digit_of byte + 33554432 * kind_of byte }
{
    COLUMNS[4][byte as usize]
}

/// What each byte adds in a column of this worth whose kind counts that much.
macro_rules! column {
    ($worth:expr, $kind:expr) => {
        column!($worth, $kind, 3 * $kind)
    };
    ($worth:expr, $kind:expr, $other:expr) => {
        [
            $other, $other, $other, $other, $other, $other, $other, $other,
            $other, $other, $other, $other, $other, $other, $other, $other,
            $other, $other, $other, $other, $other, $other, $other, $other,
            $other, $other, $other, $other, $other, $other, $other, $other,
            0, $other, $other, $other, $other, $other, $other, $other,
            $other, $other, $other, $other, $other, $kind, $other, $other,
            0 * $worth + 2 * $kind, 1 * $worth + 2 * $kind,
            2 * $worth + 2 * $kind, 3 * $worth + 2 * $kind,
            4 * $worth + 2 * $kind, 5 * $worth + 2 * $kind,
            6 * $worth + 2 * $kind, 7 * $worth + 2 * $kind,
            8 * $worth + 2 * $kind, 9 * $worth + 2 * $kind,
            $other, $other, $other, $other, $other, $other,
            $other, $other, $other, $other, $other, $other, $other, $other,
            $other, $other, $other, $other, $other, $other, $other, $other,
            $other, $other, $other, $other, $other, $other, $other, $other,
            $other, $other, $other, $other, $other, $other, $other, $other,
            $other, $other, $other, $other, $other, $other, $other, $other,
            $other, $other, $other, $other, $other, $other, $other, $other,
            $other, $other, $other, $other, $other, $other, $other, $other,
            $other, $other, $other, $other, $other, $other, $other, $other,
            $other, $other, $other, $other, $other, $other, $other, $other,
            $other, $other, $other, $other, $other, $other, $other, $other,
            $other, $other, $other, $other, $other, $other, $other, $other,
            $other, $other, $other, $other, $other, $other, $other, $other,
            $other, $other, $other, $other, $other, $other, $other, $other,
            $other, $other, $other, $other, $other, $other, $other, $other,
            $other, $other, $other, $other, $other, $other, $other, $other,
            $other, $other, $other, $other, $other, $other, $other, $other,
            $other, $other, $other, $other, $other, $other, $other, $other,
            $other, $other, $other, $other, $other, $other, $other, $other,
            $other, $other, $other, $other, $other, $other, $other, $other,
            $other, $other, $other, $other, $other, $other, $other, $other,
            $other, $other, $other, $other, $other, $other, $other, $other,
            $other, $other, $other, $other, $other, $other, $other, $other,
            $other, $other, $other, $other, $other, $other, $other, $other,
            $other, $other, $other, $other, $other, $other, $other, $other,
        ]
    };
}

/// What each byte adds, by its column. One table, since a loop then needs one address alone.
static COLUMNS: [[u32; 256]; 5] = [
    column!(10000, KINDS),
    column!(1000, 4 * KINDS),
    column!(100, 16 * KINDS),
    column!(10, 64 * KINDS),
    column!(1, 256 * KINDS),
];

const B: Form = Form::Blanks;

const N: Form = Form::Plain;

const M: Form = Form::Negative;

const X: Form = Form::Malformed;

/// The form of each five kinds, four to a column.
#[rattlefmt::skip]
static FORMS: [Form; 1024] = [
    B, X, X, X, X, X, X, X, X, X, X, X, X, X, X, X, X, X, X, X, X, X, X, X, X, X, X, X, X, X, X, X,
    X, X, X, X, X, X, X, X, X, X, X, X, X, X, X, X, X, X, X, X, X, X, X, X, X, X, X, X, X, X, X, X,
    X, X, X, X, X, X, X, X, X, X, X, X, X, X, X, X, X, X, X, X, X, X, X, X, X, X, X, X, X, X, X, X,
    X, X, X, X, X, X, X, X, X, X, X, X, X, X, X, X, X, X, X, X, X, X, X, X, X, X, X, X, X, X, X, X,
    X, X, X, X, X, X, X, X, X, X, X, X, X, X, X, X, X, X, X, X, X, X, X, X, X, X, X, X, X, X, X, X,
    X, X, X, X, X, X, X, X, X, X, X, X, X, X, X, X, X, X, X, X, X, X, X, X, X, X, X, X, X, X, X, X,
    X, X, X, X, X, X, X, X, X, X, X, X, X, X, X, X, X, X, X, X, X, X, X, X, X, X, X, X, X, X, X, X,
    X, X, X, X, X, X, X, X, X, X, X, X, X, X, X, X, X, X, X, X, X, X, X, X, X, X, X, X, X, X, X, X,
    X, X, X, X, X, X, X, X, X, X, X, X, X, X, X, X, X, X, X, X, X, X, X, X, X, X, X, X, X, X, X, X,
    X, X, X, X, X, X, X, X, X, X, X, X, X, X, X, X, X, X, X, X, X, X, X, X, X, X, X, X, X, X, X, X,
    X, X, X, X, X, X, X, X, X, X, X, X, X, X, X, X, X, X, X, X, X, X, X, X, X, X, X, X, X, X, X, X,
    X, X, X, X, X, X, X, X, X, X, X, X, X, X, X, X, X, X, X, X, X, X, X, X, X, X, X, X, X, X, X, X,
    X, X, X, X, X, X, X, X, X, X, X, X, X, X, X, X, X, X, X, X, X, X, X, X, X, X, X, X, X, X, X, X,
    X, X, X, X, X, X, X, X, X, X, X, X, X, X, X, X, X, X, X, X, X, X, X, X, X, X, X, X, X, X, X, X,
    X, X, X, X, X, X, X, X, X, X, X, X, X, X, X, X, X, X, X, X, X, X, X, X, X, X, X, X, X, X, X, X,
    X, X, X, X, X, X, X, X, X, X, X, X, X, X, X, X, X, X, X, X, X, X, X, X, X, X, X, X, X, X, X, X,
    N, X, X, X, X, X, X, X, X, X, X, X, X, X, X, X, X, X, X, X, X, X, X, X, X, X, X, X, X, X, X, X,
    X, X, X, X, X, X, X, X, X, X, X, X, X, X, X, X, X, X, X, X, X, X, X, X, X, X, X, X, X, X, X, X,
    M, X, X, X, X, X, X, X, X, X, X, X, X, X, X, X, X, X, X, X, X, X, X, X, X, X, X, X, X, X, X, X,
    X, X, X, X, X, X, X, X, X, X, X, X, X, X, X, X, X, X, X, X, X, X, X, X, X, X, X, X, X, X, X, X,
    N, X, X, X, X, X, X, X, X, X, X, X, X, X, X, X, M, X, X, X, X, X, X, X, X, X, X, X, X, X, X, X,
    N, X, X, X, M, X, X, X, N, M, N, X, X, X, X, X, X, X, X, X, X, X, X, X, X, X, X, X, X, X, X, X,
    X, X, X, X, X, X, X, X, X, X, X, X, X, X, X, X, X, X, X, X, X, X, X, X, X, X, X, X, X, X, X, X,
    X, X, X, X, X, X, X, X, X, X, X, X, X, X, X, X, X, X, X, X, X, X, X, X, X, X, X, X, X, X, X, X,
    X, X, X, X, X, X, X, X, X, X, X, X, X, X, X, X, X, X, X, X, X, X, X, X, X, X, X, X, X, X, X, X,
    X, X, X, X, X, X, X, X, X, X, X, X, X, X, X, X, X, X, X, X, X, X, X, X, X, X, X, X, X, X, X, X,
    X, X, X, X, X, X, X, X, X, X, X, X, X, X, X, X, X, X, X, X, X, X, X, X, X, X, X, X, X, X, X, X,
    X, X, X, X, X, X, X, X, X, X, X, X, X, X, X, X, X, X, X, X, X, X, X, X, X, X, X, X, X, X, X, X,
    X, X, X, X, X, X, X, X, X, X, X, X, X, X, X, X, X, X, X, X, X, X, X, X, X, X, X, X, X, X, X, X,
    X, X, X, X, X, X, X, X, X, X, X, X, X, X, X, X, X, X, X, X, X, X, X, X, X, X, X, X, X, X, X, X,
    X, X, X, X, X, X, X, X, X, X, X, X, X, X, X, X, X, X, X, X, X, X, X, X, X, X, X, X, X, X, X, X,
    X, X, X, X, X, X, X, X, X, X, X, X, X, X, X, X, X, X, X, X, X, X, X, X, X, X, X, X, X, X, X, X,
];
