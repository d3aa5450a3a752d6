//! What a query asks of the days of one block.

ghost use Rattle.std.specs.Prelude.{◌≡◌, ◌+ℤ◌, FitsSigned, List};
ghost use Rattle.std.specs.Int.{w64};
ghost use Rattle.ghcn_fields.specs.Days.{IsBlock};
ghost use Rattle.ghcn_series.specs.Packed.{AreRising, IsBlockOf};
ghost use Rattle.ghcn_series.specs.Meaning.Series.{DayValue};
ghost use Rattle.rank_blocks.specs.Reached.{in_range, IsNear, IsTotal};
ghost use Rattle.rank_blocks.specs.Summaries.{IsPossible, IsSummary};

use crate::range::BlockRange;
use crate::values::{all_or_none, dry_days, total, wet_days};
use crate::window::Window;
use ghcn_series::Block;
use rank_query::Score;

/// How many days a block has.
pub(crate) const BLOCK_DAYS: u32 = 32;

/// What a query asks of the days of one block. What it doesn't ask for is 0.
#[derive(Clone, Copy, Debug)]
pub(crate) struct Summary {
    /// The block's number: block 0 begins on 1970-01-01.
    pub(crate) number: i32,
    /// The days that count for a spell: bit j is the block's day j.
    pub(crate) days: u32,
    /// The greatest score of a usable day: a value, or one negated for `lowest`.
    pub(crate) day: i64,
    /// The total of the values of the usable days.
    pub(crate) total: i64,
}

impl Summary {
    /// What a score asks of the block of a number.
    pub(crate) fn of_block(number: i32, block: &Block<'_>, score: Score) -> Self
        requires number { IsBlock number }
        ensures summary { (days : List DayValue) → AreRising days → IsBlockOf days number block.now.0 block.now.1 →
            IsSummary score days result }
        ensures number { result.number ≡ number }
        ensures possible { IsPossible result }
    {
        match score {
            Score::Highest(_) => of_day(number, block.greatest() as i64),
            Score::Lowest(_) => of_day(number, -(block.least() as i64)),
            Score::Sum(..) => of_sum(number, block.greatest() as i64, total(block.values())),
            Score::Dry => of_days(number, dry_days(block.word(), block.values())),
            Score::Wet => of_days(number, wet_days(block.word(), block.values())),
            // Which days are hot or cold isn't kept: a block with such a day has 32.
            Score::Hot(least) => of_days(number, all_or_none(block.greatest() >= least)),
            Score::Cold(most) => of_days(number, all_or_none(block.least() <= most)),
        }
    }

    /// Whether its block lies in the range.
    pub(crate) fn is_in(&self, range: BlockRange) -> bool
        ensures { result ≡ in_range range self.now.number }
    {
        range.holds(self.number)
    }

    /// That many blocks from its own on.
    pub(crate) fn window(&self, width: u32) -> Window
        ensures first { result.first ≡ self.now.number }
        ensures width { result.width ≡ width }
    {
        Window {
            first: self.number,
            width,
        }
    }
}

/// The summary of a block by the greatest score of its days.
fn of_day(number: i32, day: i64) -> Summary
    requires number { IsBlock number }
    requires near { IsNear day }
    ensures number { result.number ≡ number }
    ensures day { result.day ≡ day }
    ensures possible { IsPossible result }
{
    of_sum(number, day, 0)
}

/// The summary of a block by its greatest value and its total.
fn of_sum(number: i32, day: i64, total: i64) -> Summary
    requires number { IsBlock number }
    requires near { IsNear day }
    requires small { IsTotal total }
    ensures number { result.number ≡ number }
    ensures day { result.day ≡ day }
    ensures total { result.total ≡ total }
    ensures possible { IsPossible result }
{
    Summary {
        number,
        days: 0,
        day,
        total,
    }
}

/// The summary of a block by its days that count for a spell.
fn of_days(number: i32, days: u32) -> Summary
    requires { IsBlock number }
    ensures number { result.number ≡ number }
    ensures days { result.days ≡ days }
    ensures possible { IsPossible result }
{
    Summary {
        number,
        days,
        day: 0,
        total: 0,
    }
}

/// The sum of two totals.
pub(crate) fn sum_of(total: i64, more: i64) -> i64
    requires { FitsSigned w64 (total +ℤ more) }
    ensures { result ≡ total +ℤ more }
{
    total + more
}
