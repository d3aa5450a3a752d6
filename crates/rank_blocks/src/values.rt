//! What is made of the values of one block. A word has a bit for each of its 32 days, set if the
//! day is usable, and a day that isn't has the value 0.

ghost use Rattle.std.specs.Prelude.{◌≡◌, ◌<◌, ℕ};
ghost use Rattle.rank_scores.specs.Candidates.{test_of};
ghost use Rattle.rank_scores.specs.declared.spell.Spell.TheVariants as spells;
ghost use Rattle.rank_blocks.specs.Blocks.{total};
ghost use Rattle.rank_blocks.specs.DayRuns.{has_bit};
ghost use Rattle.rank_blocks.specs.Reached.{IsTotal};
ghost use Rattle.rank_blocks.specs.Values as of_block;

use rank_scores::Spell;

/// The total of 32 numbers.
pub(crate) fn total(values: &[i32; 32]) -> i64
    ensures value { result ≡ total values.now }
    ensures small { IsTotal result }
{
    let mut total: i64 = 0;
    for value in values {
        total += *value as i64;
    }
    total
}

/// The usable days with less than 1 mm (ETCCDI), as bits of a word.
pub(crate) fn dry_days(word: u32, values: &[i32; 32]) -> u32
    ensures { of_block.IsWordOf (test_of spells.Dry) word values.now result }
{
    dry_places(values) & word
}

/// The usable days with at least 1 mm (ETCCDI), as bits of a word.
pub(crate) fn wet_days(word: u32, values: &[i32; 32]) -> u32
    ensures { of_block.IsWordOf (test_of spells.Wet) word values.now result }
{
    !dry_places(values) & word
}

/// The places of the numbers that are less than 1 mm, as bits of a word.
fn dry_places(values: &[i32; 32]) -> u32
    ensures { of_block.IsPlacesOf (test_of spells.Dry) values.now result }
{
    let mut dry: u32 = 0;
    for (place, value) in values.iter().enumerate() {
        dry |= u32::from(Spell::Dry.passes(Some(*value))) << place;
    }
    dry
}

/// All days of a block, or none.
pub(crate) fn all_or_none(all: bool) -> u32
    ensures { (j : ℕ) → j < 32 → has_bit result j ≡ all }
{
    if all { u32::MAX } else { 0 }
}
