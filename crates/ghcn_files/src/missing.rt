//! Fields that may lack a number: the readme writes -9999 for a missing one, and its fields may be blank.

ghost use Rattle.std.specs.Prelude.{◌≡◌};
ghost use Rattle.ghcn_files.specs.StationLines as stations;

use ghcn_fields::Field;

/// The number that stands for a missing one.
pub(crate) const MISSING: i32 = -9999;

/// The number of a field, if it has one and that isn't missing.
pub(crate) fn unless_missing(field: Field) -> Option<i32>
    ensures { result ≡ stations.unless_missing field }
{
    match field {
        Field::Number(number) if number != MISSING => Some(number),
        _ => None,
    }
}

/// Whether a field is neither blank nor a number.
pub(crate) fn is_bad(field: Field) -> bool
    ensures { result ≡ stations.is_bad field }
{
    matches!(field, Field::Bad)
}
