//! Decimal fields as NOAA's station list has them: four columns, a point, and as many digits as there are places.
//! They are read by the look-ups of `value`; any other field is read byte by byte.

ghost use Rattle.std.specs.Prelude.{◌≡◌, ◌↔◌, ◌<◌, ◌^◌, ℤ, IfSome, FitsSigned};
ghost use Rattle.std.specs.Int.{w32};
ghost use Rattle.ghcn_fields.specs.Meaning.Fields.{HasNumber};
ghost use Rattle.ghcn_fields.specs.FieldForms.{is_plain, field_of_size};
ghost use Rattle.ghcn_fields.specs.Numbers as numbers;

use crate::field::{Field, scaled_field};
use crate::value::{Form, KINDS, form_of, sum_of};

/// Reads six columns as `scaled_field` does by one place: a number in tenths.
#[inline(always)]
pub fn tenths_field(columns: &[u8; 6]) -> Field
    ensures value { result ≡ numbers.scaled_field 1 columns.now }
    ensures number { (v : ℤ) →
        (result ≡ Field.Number v) ↔ (HasNumber 1 columns.now v × FitsSigned w32 v) }
{
    match pointed_tenths(columns) {
        Some(field) => field,
        None => scaled_field(columns, 1),
    }
}

/// Reads nine columns as `scaled_field` does by four places: a number in ten-thousandths.
#[inline(always)]
pub fn four_places_field(columns: &[u8; 9]) -> Field
    ensures value { result ≡ numbers.scaled_field 4 columns.now }
    ensures number { (v : ℤ) →
        (result ≡ Field.Number v) ↔ (HasNumber 4 columns.now v × FitsSigned w32 v) }
{
    match pointed_four_places(columns) {
        Some(field) => field,
        None => scaled_field(columns, 4),
    }
}

/// The field of six columns, if the fifth is a point between two numbers.
#[inline(always)]
fn pointed_tenths(columns: &[u8; 6]) -> Option<Field>
    ensures { IfSome result (λ field. field ≡ numbers.scaled_field 1 columns.now) }
{
    let [a, b, c, d, point, e] = *columns;
    if point != b'.' || !e.is_ascii_digit() {
        return None;
    }
    let whole = sum_of(&[b' ', a, b, c, d]);
    field_of_size(
        form_of(whole / KINDS),
        whole % KINDS * 10 + (e - b'0') as u32,
    )
}

/// The field of nine columns, if the fifth is a point between two numbers.
#[inline(always)]
fn pointed_four_places(columns: &[u8; 9]) -> Option<Field>
    ensures { IfSome result (λ field. field ≡ numbers.scaled_field 4 columns.now) }
{
    let [a, b, c, d, point, e, f, g, h] = *columns;
    let part = sum_of(&[b'0', e, f, g, h]);
    if point != b'.' || !is_plain(form_of(part / KINDS)) {
        return None;
    }
    let whole = sum_of(&[b' ', a, b, c, d]);
    field_of_size(
        form_of(whole / KINDS),
        whole % KINDS * 10_000 + part % KINDS,
    )
}

/// Whether a field of this form is a number without a minus.
#[inline(always)]
fn is_plain(form: Form) -> bool
    ensures { result ≡ is_plain form }
{
    matches!(form, Form::Plain)
}

/// The number of this size in a field of this form, if that is the form of a number.
#[inline(always)]
fn field_of_size(form: Form, size: u32) -> Option<Field>
    requires { size < 2 ^ 31 }
    ensures { result ≡ field_of_size form size }
{
    if matches!(form, Form::Negative) {
        return Some(Field::Number(-(size as i32)));
    }
    if is_plain(form) {
        return Some(Field::Number(size as i32));
    }
    None
}
