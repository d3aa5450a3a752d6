//! What the summaries of the blocks of a range say.

ghost use Rattle.std.specs.Prelude.{◌≡◌, List, ◌∷◌, [], ◌++◌, map, unwrap_or, IfSome, Some};
ghost use Rattle.std.specs.Prelude.{ℤ, pos, ◌≤ℤ◌, ◌*ℤ◌};
ghost use Rattle.std.specs.Int.{int_min};
ghost use Rattle.std.specs.List.{AllByRecursion};
ghost use Rattle.ghcn_fields.specs.Sorting.{greatest};
ghost use Rattle.ghcn_series.specs.Meaning.Series.{Series};
ghost use Rattle.rank_blocks.specs.Bounds.{blocks_of_window};
ghost use Rattle.rank_blocks.specs.Greatest.{IsGreatest, IsRunLength};
ghost use Rattle.rank_blocks.specs.Reached as told;
ghost use Rattle.rank_blocks.specs.Summaries.{AreOfBlocks, ArePossible, HasDays};
ghost use Rattle.rank_scores.specs.declared.spell.Spell.{Spell};

use crate::range::BlockRange;
use crate::runs::Runs;
use crate::summary::{Summary, sum_of};
use crate::window::Window;

/// The greatest score of a usable day in the blocks of a range, or 0 if there is none.
pub(crate) fn greatest_day(blocks: &[Summary], range: BlockRange) -> i64
    requires { ArePossible blocks.now }
    ensures value { result ≡
        unwrap_or (greatest (map (λ m. m.day) (told.summaries_in range blocks.now))) (pos 0) }
    ensures near { told.IsNear result }
{
    let mut found = None;
    for block in blocks {
        if block.is_in(range) {
            found = Some(greater(found, block.day));
        }
    }
    found.unwrap_or(0)
}

/// The greater of what was found and one more number.
fn greater(found: Option<i64>, number: i64) -> i64
    requires near { told.IsNear number }
    requires found_near { IfSome found told.IsNear }
    ensures greatest { (zs : List ℤ) → greatest zs ≡ found → greatest (zs ++ number ∷ []) ≡ Some result }
    ensures near { told.IsNear result }
{
    match found {
        Some(found) => found.max(number),
        None => number,
    }
}

/// The smaller of `n` times the greatest score of a day and the greatest total.
pub(crate) fn smaller(n: u16, day: i64, total: i64) -> i64
    requires { told.IsNear day }
    ensures { result ≡ int_min (pos n *ℤ day) total }
{
    total.min(n as i64 * day)
}

/// How many blocks in a row hold any `n` days in a row.
pub(crate) fn window_blocks(n: u16) -> u32
    ensures { result ≡ blocks_of_window n }
{
    (n as u32 + 30) / 32 + 1
}

/// The greatest total of that many blocks in a row of which the first is one of the range.
pub(crate) fn greatest_total(blocks: &[Summary], range: BlockRange, width: u32) -> i64
    requires { ArePossible blocks.now }
    ensures { AllByRecursion (λ m. pos 0 ≤ℤ m.total) blocks.now → range.first ≤ℤ range.last →
        IsGreatest (told.IsTotalFrom range blocks.now width) result }
{
    // Other windows have no more: one that begins at no summary holds what a later one holds too.
    let mut greatest = window_total(blocks, range.last_window(width));
    for (index, block) in blocks.iter().enumerate() {
        if block.is_in(range) {
            greatest = greatest.max(window_total(&blocks[index..], block.window(width)));
        }
    }
    greatest
}

/// The total of the blocks of a window.
fn window_total(blocks: &[Summary], window: Window) -> i64
    requires { ArePossible blocks.now }
    ensures { result ≡ told.summaries_total blocks.now window.width window.first }
{
    let mut total: i64 = 0;
    for block in blocks {
        if window.is_before(block) {
            return total;
        }
        if window.holds(block) {
            total = sum_of(total, block.total);
        }
    }
    total
}

/// How many days that count for the spell follow one another at most in the blocks of a range.
pub(crate) fn longest_run(blocks: &[Summary], range: BlockRange) -> i64
    requires { ArePossible blocks.now }
    ensures { (spell : Spell) (s : Series) → AreOfBlocks (HasDays spell s.days) s blocks.now →
        IsGreatest (IsRunLength (told.counts spell (told.days_in_range range s.days))) result }
{
    let mut runs = Runs::before(range);
    for block in blocks {
        if block.is_in(range) {
            runs = runs.add(block);
        }
    }
    runs.longest as i64
}
