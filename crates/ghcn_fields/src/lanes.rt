//! Number fields of five columns, tested sixteen columns at a time.
//!
//! A field is blank or a number if each of its bytes may be where it is: a blank before any byte
//! and at the end, a minus before a digit, a digit before a digit and at the end.

ghost use Rattle.std.specs.Prelude.{◌≡◌, ◌<◌, ◌||◌, not, length, take, drop};
ghost use Rattle.ghcn_fields.specs.FieldForms as forms;
ghost use Rattle.ghcn_fields.specs.Groups as groups;
ghost use Rattle.ghcn_fields.specs.Numbers.{int_field, is_bad};

use std::simd::prelude::*;

/// The place of each column's next one in its field. The last column, and one of no field, has itself.
const NEXT: [usize; 16] = [1, 2, 3, 4, 4, 5, 6, 7, 9, 10, 11, 12, 12, 13, 14, 15];

/// What may come before a digit, besides a digit: a minus. In a last column, whose next one is itself, it is
/// a digit of no effect.
const MINUS: [u8; 16] = [45, 45, 45, 45, 48, 0, 0, 0, 45, 45, 45, 45, 48, 0, 0, 0];

/// All bits where one of two fields has a column: where `BEHIND` has none.
const FIELDS: [u8; 16] = [
    255, 255, 255, 255, 255, 0, 0, 0, 255, 255, 255, 255, 255, 0, 0, 0,
];

/// All bits where neither of two fields has a column.
const BEHIND: [u8; 16] = [0, 0, 0, 0, 0, 255, 255, 255, 0, 0, 0, 0, 0, 255, 255, 255];

/// Whether one of two number fields is bad, that is neither blank nor a whole number. Each has the
/// first five of eight columns.
pub fn has_bad_field(columns: &[u8; 16]) -> bool
    ensures { result ≡ (is_bad (int_field (take 5 columns.now)) || is_bad (int_field (take 5 (drop 8 columns.now)))) }
{
    !are_set(good_columns(columns))
}

/// Tests the columns of two such fields: a lane of a field has all its bits if its column may be where it
/// is. Lanes of several columns are joined by `&`, and tested together by `are_set`.
#[inline(always)]
pub fn good_columns(columns: &[u8; 16]) -> u8x16
    ensures many { length result ≡ 16 }
    ensures good { forms.are_set result
        ≡ not (is_bad (int_field (take 5 columns.now)) || is_bad (int_field (take 5 (drop 8 columns.now)))) }
{
    let (all, none) = (u8x16::splat(255), u8x16::splat(0));
    let bytes = u8x16::from_array(*columns);
    let blanks = bytes.simd_eq(u8x16::splat(b' ')).select(all, none);
    let minuses = bytes.simd_eq(u8x16::from_array(MINUS)).select(all, none);
    let nearest = bytes
        .simd_max(u8x16::splat(b'0'))
        .simd_min(u8x16::splat(b'9'));
    let digits = bytes.simd_eq(nearest).select(all, none);
    let before_digits = digits.swizzle(NEXT);
    blanks | (digits | minuses) & before_digits
}

/// The same test as `good_columns` in fewer steps: a lane of a field is 0 if its column may be where it is.
/// Lanes of several columns are joined by `|`, and tested together by `are_clear`.
#[inline(always)]
pub fn bad_columns(columns: &[u8; 16]) -> u8x16
    ensures many { length result ≡ 16 }
    ensures bad { forms.are_clear result
        ≡ not (is_bad (int_field (take 5 columns.now)) || is_bad (int_field (take 5 (drop 8 columns.now)))) }
{
    bad_lanes(u8x16::from_array(*columns))
}

/// The same of the columns as lanes.
#[inline(always)]
fn bad_lanes(bytes: u8x16) -> u8x16
    requires { length bytes ≡ 16 }
    ensures many { length result ≡ 16 }
    ensures bad { forms.are_clear result
        ≡ not (is_bad (int_field (take 5 bytes)) || is_bad (int_field (take 5 (drop 8 bytes)))) }
{
    // A lane is 0 if its column is a blank; a minus, or in a last column a zero; a digit.
    let from_blank = bytes - u8x16::splat(b' ');
    let from_minus = bytes - u8x16::from_array(MINUS);
    let from_digits = (bytes - u8x16::splat(b'0')).saturating_sub(u8x16::splat(9));
    let before_digits = from_digits.swizzle(NEXT);
    from_blank.simd_min(from_minus.simd_min(from_digits) | before_digits)
}

/// The weights of the first two of four columns, and those of the other two.
const HUNDREDS: [u8; 16] = [10, 1, 0, 0, 10, 1, 0, 0, 10, 1, 0, 0, 10, 1, 0, 0];

const TENS: [u8; 16] = [0, 0, 10, 1, 0, 0, 10, 1, 0, 0, 10, 1, 0, 0, 10, 1];

/// Of the four columns after these, what a digit writes in the one of the field.
const LAST: [u8; 16] = [15, 0, 0, 0, 15, 0, 0, 0, 15, 0, 0, 0, 15, 0, 0, 0];

/// What a blank counts in that one, and in that of the second flag.
const BLANK: [u8; 16] = [1, 0, 1, 0, 1, 0, 1, 0, 1, 0, 1, 0, 1, 0, 1, 0];

/// What four such columns count if the one of the second flag alone is a blank.
const FLAG_ALONE: u32 = 1 << 16;

/// The places of the first four columns of four groups.
const FRONTS: [usize; 16] = [0, 1, 2, 3, 8, 9, 10, 11, 16, 17, 18, 19, 24, 25, 26, 27];

/// The places of the four columns after these: the last one of a field, and three flags.
const BACKS: [usize; 16] = [4, 5, 6, 7, 12, 13, 14, 15, 20, 21, 22, 23, 28, 29, 30, 31];

/// Reads four groups of a field's five columns and three flags: each has the field's number, or another
/// one if the field is blank or the second flag isn't a blank.
#[inline(always)]
pub fn four_numbers(columns: &[u8; 32], other: i32) -> [i32; 4]
    ensures { groups.AreNumbers other columns.now result }
{
    let none = u8x16::splat(0);
    let bytes = u8x32::from_slice(columns);
    let (fronts, backs) = (bytes.swizzle(FRONTS), bytes.swizzle(BACKS));
    // A blank has none of a digit's lowest four bits; a minus has some.
    let are_minuses = fronts.simd_eq(u8x16::splat(b'-'));
    let digits = are_minuses.select(none, fronts & u8x16::splat(15));
    let hundreds = digits.dot4(u8x16::from_array(HUNDREDS));
    let tens = digits.dot4(u8x16::from_array(TENS));
    let lasts = u32x4::from_le_bytes(backs & u8x16::from_array(LAST));
    let sizes = (hundreds * u32x4::splat(100) + tens) * u32x4::splat(10) + lasts;
    let minuses = u32x4::from_le_bytes(are_minuses.select(u8x16::splat(1), none));
    let are_blanks = backs.simd_eq(u8x16::splat(b' '));
    let blanks = u32x4::from_le_bytes(are_blanks.select(u8x16::from_array(BLANK), none));
    let (sizes, minuses) = (sizes.to_array(), minuses.to_array());
    let blanks = blanks.to_array();
    [
        number_if(blanks[0], minuses[0], sizes[0], other),
        number_if(blanks[1], minuses[1], sizes[1], other),
        number_if(blanks[2], minuses[2], sizes[2], other),
        number_if(blanks[3], minuses[3], sizes[3], other),
    ]
}

/// The number of this magnitude, below zero if there is a minus, if the last column isn't a blank and the
/// second flag is one, or another number.
fn number_if(blanks: u32, minuses: u32, size: u32, other: i32) -> i32
    requires { size < 262144 }
    ensures { result ≡ groups.number_if blanks minuses size other }
{
    let positive = size as i32;
    let number = if minuses == 0 { positive } else { -positive };
    if blanks == FLAG_ALONE { number } else { other }
}

/// Whether each lane of a field has all its bits.
#[inline(always)]
pub fn are_set(lanes: u8x16) -> bool
    requires { length lanes ≡ 16 }
    ensures { result ≡ forms.are_set lanes }
{
    let behind = u8x16::from_array(BEHIND);
    (lanes | behind).simd_ge(u8x16::splat(255)).all()
}

/// Whether each lane of a field is 0.
#[inline(always)]
pub fn are_clear(lanes: u8x16) -> bool
    requires { length lanes ≡ 16 }
    ensures { result ≡ forms.are_clear lanes }
{
    let fields = u8x16::from_array(FIELDS);
    (lanes & fields).simd_eq(u8x16::splat(0)).all()
}
