//! What a query asks of the blocks of a series, and the bound that follows.

ghost use Rattle.std.specs.Prelude.{◌≡◌, ◌<◌, ◌+◌, ◌-ℤ◌, unsigned_abs, Some, IfOk};
ghost use Rattle.ghcn_fields.specs.Days.{block_of};
ghost use Rattle.ghcn_series.specs.Meaning.Series.{Series};
ghost use Rattle.rank_query.specs.Meaning.Asked.{IsAsked};
ghost use Rattle.rank_scores.specs.Morsels.{IsAskedOf};
ghost use Rattle.rank_blocks.specs.Greatest.{IsBound, IsSeriesBound};
ghost use Rattle.rank_blocks.specs.Summaries.{AreSummaries, AreSummariesTo, AreSummariesUpTo, ArePossible};
ghost use Rattle.rank_blocks.specs.Summaries.{numbers_left};

use crate::range::BlockRange;
use crate::reached::{greatest_day, greatest_total, longest_run, smaller, window_blocks};
use crate::summary::Summary;
use ghcn_fields::{Day, Memory};
use ghcn_series::Series;
use rank_query::{Query, Score};
use std::alloc::Global;
use std::marker::Model;

/// What a query asks of each block of 32 days in which a series has a usable day.
///
/// Block b has the days 32 b to 32 b + 31, of which day 0 is 1970-01-01.
#[derive(Drop)]
pub struct Blocks {
    /// By block number.
    summaries: Vec<Summary>,
}

impl Model for Blocks {
    ghost use Rattle.std.specs.Prelude.{List};
    ghost use Rattle.rank_blocks.specs.declared.summary.Summary.{Summary};
    ghost use Rattle.rank_blocks.specs.Summaries.{ArePossible};

    ghost Value = { List Summary };

    ghost view = { λ b. b.summaries.items };

    ghost invariant = { λ b. ArePossible b.summaries.items };
}

impl Blocks {
    /// What a query asks of the blocks of a series.
    pub fn build(alloc: Global, series: &Series, query: &Query) -> Result<Self, Memory>
        ensures { IfOk result (λ blocks. AreSummaries query.now.score series.now blocks) }
    {
        Ok(Blocks {
            summaries: summaries_of(alloc, series, query.score())?,
        })
    }

    /// The bound of the series under a query that asks about it, in the unit of the score.
    pub fn bound(&self, query: &Query) -> i64
        ensures { (s : Series) → AreSummaries query.now.score s self.now → IsAskedOf query.now s →
            IsSeriesBound query.now s result }
    {
        bound_of(self.summaries.as_slice(), query)
    }
}

/// The bound under the query's score, from the summaries.
fn bound_of(blocks: &[Summary], query: &Query) -> i64
    requires { ArePossible blocks.now }
    ensures asked { IsAsked query.now }
    ensures bound { (s : Series) → AreSummaries query.now.score s blocks.now → IsAskedOf query.now s →
        IsBound query.now s result }
{
    let range = BlockRange::of(query);
    match query.score() {
        Score::Highest(_) | Score::Lowest(_) => greatest_day(blocks, range),
        Score::Sum(n, _) => smaller(
            n,
            greatest_day(blocks, range),
            greatest_total(blocks, range, window_blocks(n)),
        ),
        Score::Dry | Score::Wet | Score::Hot(_) | Score::Cold(_) => longest_run(blocks, range),
    }
}

/// What a score asks of the blocks of a series, by block number.
fn summaries_of(alloc: Global, series: &Series, score: Score) -> Result<Vec<Summary>, Memory>
    ensures summaries { IfOk result (λ blocks. AreSummaries score series.now blocks.items) }
    ensures possible { IfOk result (λ blocks. ArePossible blocks.items) }
{
    let mut summaries = Vec::with_capacity(alloc, blocks_between(series.span()))?;
    let mut days = series.days();
    let Some(first) = days.next() else {
        return Ok(summaries);
    };
    let mut next = Some(first.0.block());
    while let Some(number) = next {
        next = add_block(&mut summaries, series, score, number)?;
    }
    Ok(summaries)
}

/// How many blocks there are from that of one day to that of another.
fn blocks_between(span: (Day, Day)) -> usize
    ensures { result ≡ unsigned_abs (block_of span.1 -ℤ block_of span.0) + 1 }
{
    let (first, last) = span;
    last.block().abs_diff(first.block()) as usize + 1
}

/// Adds the summary of a block, if it holds a usable day. Returns the number to look at next.
fn add_block(
    summaries: &mut Vec<Summary>,
    series: &Series,
    score: Score,
    number: i32,
) -> Result<Option<i32>, Memory>
    requires { AreSummariesTo score series.now number summaries.old.items }
    ensures read { IfOk result (AreSummariesUpTo score series.now summaries.new.items) }
    ensures later { IfOk result (λ next. numbers_left next < numbers_left (Some number)) }
{
    match series.block_near(summaries.len(), number) {
        Some(block) => {
            summaries.push(Summary::of_block(number, &block, score))?;
            Ok(Some(number + 1))
        }
        None => Ok(series.next_block(number)),
    }
}
