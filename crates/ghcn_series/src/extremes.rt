//! The least and the greatest value of a block. A word has a bit for each of its 32 days, set if the day is usable, and
//! a day that isn't has the value 0.

ghost use Rattle.std.specs.Prelude.{◌≡◌, ◌<◌, neg_ℤ};
ghost use Rattle.ghcn_series.specs.Extremes as of_block;

/// The least and the greatest value of the usable days of a block.
#[derive(Clone, Copy, Debug)]
pub(crate) struct Extremes {
    pub(crate) least: i32,
    pub(crate) greatest: i32,
}

impl Extremes {
    /// Those of a block that has a day, by its word and its values.
    pub(crate) fn of(word: u32, values: &[i32; 32]) -> Self
        requires present { 0 < word }
        requires zeros { of_block.HasZeros word values.now }
        ensures { of_block.AreExtremes word values.now result }
    {
        Extremes {
            least: least_value(word, values),
            greatest: greatest_value(word, values),
        }
    }
}

/// The greatest value of the usable days.
pub(crate) fn greatest_value(word: u32, values: &[i32; 32]) -> i32
    requires present { 0 < word }
    requires zeros { of_block.HasZeros word values.now }
    ensures { of_block.IsGreatest (of_block.IsUsableScore (λ v. v) word values.now) result }
{
    // The 0 of a day that isn't usable hides no greater value.
    let greatest = greatest_number(values);
    if greatest > 0 || word == u32::MAX {
        greatest
    } else {
        greatest_number(&usable_alone(word, values))
    }
}

/// The least value of the usable days.
pub(crate) fn least_value(word: u32, values: &[i32; 32]) -> i32
    requires present { 0 < word }
    requires zeros { of_block.HasZeros word values.now }
    ensures { of_block.IsGreatest (of_block.IsUsableScore neg_ℤ word values.now) (neg_ℤ result) }
{
    // The 0 of a day that isn't usable hides no lesser value.
    let least = least_number(values);
    if least < 0 || word == u32::MAX {
        least
    } else {
        least_number(&usable_alone(word, values))
    }
}

/// The values with one of a usable day in place of each that is absent.
fn usable_alone(word: u32, values: &[i32; 32]) -> [i32; 32]
    requires { 0 < word }
    ensures { of_block.HasUsableAlone word values.now result }
{
    let first = values[word.trailing_zeros() as usize];
    let mut row = *values;
    for place in 0..32 {
        let value = values[place];
        row[place] = if word >> place & 1 == 1 { value } else { first };
    }
    row
}

/// The greatest of 32 numbers.
fn greatest_number(values: &[i32; 32]) -> i32
    ensures { of_block.IsGreatest (of_block.IsScoreAmong (λ v. v) values.now) result }
{
    let mut greatest = values[0];
    for value in values {
        greatest = greatest.max(*value);
    }
    greatest
}

/// The least of 32 numbers.
fn least_number(values: &[i32; 32]) -> i32
    ensures { of_block.IsGreatest (of_block.IsScoreAmong neg_ℤ values.now) (neg_ℤ result) }
{
    let mut least = values[0];
    for value in values {
        least = least.min(*value);
    }
    least
}
