//! One block of a series.

ghost use Rattle.std.specs.Prelude.{◌≡◌, ◌<◌, length, neg_ℤ};
ghost use Rattle.ghcn_series.specs.Extremes as of_block;

use crate::extremes::{Extremes, greatest_value, least_value};
use std::marker::Model;

/// A block of 32 days, of which one at least is usable.
#[derive(Drop)]
pub struct Block<'a> {
    word: u32,
    values: &'a [i32; 32],
    /// The least and the greatest value, if they are held.
    extremes: Option<Extremes>,
}

impl<'a> Model for Block<'a> {
    ghost use Rattle.std.specs.Prelude.{◌≡◌, ℕ, ℤ, List, length};
    ghost use Rattle.ghcn_series.specs.Extremes.{IsHeldBlock};

    ghost Value = { ℕ × List ℤ };

    ghost view = { λ b. (b.word, b.values.now) };

    ghost invariant = { λ b. IsHeldBlock b.word b.values.now b.extremes × (length b.values.now ≡ 32) };
}

impl<'a> Block<'a> {
    /// The block of a word and its values, with its extremes if they are held.
    pub(crate) fn of(word: u32, values: &'a [i32; 32], extremes: Option<Extremes>) -> Self
        requires { of_block.IsHeldBlock word values.now extremes }
        ensures { result ≡ (word, values.now) }
    {
        Block {
            word,
            values,
            extremes,
        }
    }

    /// The usable days: bit j is set if the block's day j is usable.
    pub fn word(&self) -> u32
        ensures word { result ≡ self.now.0 }
        ensures present { 0 < result }
    {
        self.word
    }

    /// The values of the days, in the element's unit; 0 if a day isn't usable.
    pub fn values(&self) -> &'a [i32; 32]
        ensures values { result.now ≡ self.now.1 }
        ensures size { length self.now.1 ≡ 32 }
    {
        self.values
    }

    /// The greatest value of the usable days, in the element's unit.
    pub fn greatest(&self) -> i32
        ensures { of_block.IsGreatest (of_block.IsUsableScore (λ v. v) self.now.0 self.now.1) result }
    {
        match self.extremes {
            Some(held) => held.greatest,
            None => greatest_value(self.word, self.values),
        }
    }

    /// The least value of the usable days, in the element's unit.
    pub fn least(&self) -> i32
        ensures { of_block.IsGreatest (of_block.IsUsableScore neg_ℤ self.now.0 self.now.1) (neg_ℤ result) }
    {
        match self.extremes {
            Some(held) => held.least,
            None => least_value(self.word, self.values),
        }
    }
}
