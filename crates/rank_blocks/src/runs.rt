//! How days of one kind follow one another, block by block.

ghost use Rattle.std.specs.Prelude.{◌≡◌, ◌+◌, ◌<◌, ◌≤◌, ◌^◌, pos, ◌+ℤ◌, ◌≤ℤ◌};
ghost use Rattle.ghcn_fields.specs.Days.{IsBlock};
ghost use Rattle.rank_blocks.specs.DayRuns.{has_bit, runs_before, Continues, FollowAtMost, IsLongest};

use crate::range::BlockRange;
use crate::summary::{BLOCK_DAYS, Summary};

/// How the days of one kind before a block follow one another.
#[derive(Clone, Copy, Debug)]
pub(crate) struct Runs {
    /// The block after these days.
    pub(crate) next: i32,
    /// How many of the kind come last, one after another.
    pub(crate) last: u32,
    /// How many of the kind follow one another at most.
    pub(crate) longest: u32,
}

impl Runs {
    /// Before the blocks of a range.
    pub(crate) fn before(range: BlockRange) -> Self
        ensures { result ≡ runs_before range.first }
    {
        Runs {
            next: range.first,
            last: 0,
            longest: 0,
        }
    }

    /// With the days of a later block. No day between is of the kind.
    pub(crate) fn add(self, block: &Summary) -> Self
        requires block { IsBlock block.now.number }
        requires order { self.next ≤ℤ block.now.number }
        requires room { self.last + 32 < 2 ^ 32 }
        ensures runs { Continues self block.now.number block.now.days result }
        ensures next { result.next ≡ block.now.number +ℤ pos 1 }
        ensures room { result.last ≤ self.last + 32 }
    {
        let before = if block.number == self.next {
            self.last
        } else {
            0
        };
        let word = block.days;
        let first = word.trailing_ones();
        let longest = self.longest.max(before + first);
        Runs {
            next: block.number + 1,
            last: if first == BLOCK_DAYS {
                first + before
            } else {
                word.leading_ones()
            },
            longest: longest_with(longest, word),
        }
    }
}

/// That many, or how many of a word's bits that are set follow one another at most, if these are more. Most words
/// have no more bits set than follow one another elsewhere, so they aren't looked at.
fn longest_with(longest: u32, word: u32) -> u32
    ensures { IsLongest (has_bit word) 32 longest result }
{
    if word.count_ones() <= longest {
        longest
    } else {
        longest.max(longest_ones(word))
    }
}

/// How many of a word's bits that are set follow one another at most.
fn longest_ones(word: u32) -> u32
    ensures { FollowAtMost (has_bit word) 32 result }
{
    // A bit stays as long as a run of this length ends there.
    let mut ends = word;
    for length in 0..32 {
        if ends == 0 {
            return length;
        }
        ends &= ends << 1;
    }
    32
}
