//! What days, dates and fields mean together, as laws over their definitions.

ghost use Rattle.ghcn_fields.specs.Laws as laws;

/// Each day has one date and one text, and each date of the years 1 to 9999 belongs to one day.
pub fn days_have_dates()
    ensures dates { laws.DatesAreOfDays }
    ensures texts { laws.TextsAreOfDays }
{}

/// A decimal field is read as the number that it has.
pub fn fields_have_numbers()
    ensures { laws.FieldsHaveNumbers }
{}
