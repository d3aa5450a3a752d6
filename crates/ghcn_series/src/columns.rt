//! Packed columns.

ghost use Rattle.std.specs.Prelude.{◌≡◌, ◌-◌, ◌<◌, ◌≤◌, ◌*◌, ◌^◌, ℕ, ℤ, List, [], get_or, length, slice_get};
ghost use Rattle.std.specs.Prelude.{IfSome, IfNone, IfOk, pos, int_le, ◌+ℤ◌};
ghost use Rattle.std.specs.List.{find};
ghost use Rattle.std.specs.Option.{option_map};
ghost use Rattle.ghcn_fields.specs.Days.{IsBlock, day_if};
ghost use Rattle.ghcn_series.specs.Meaning.Series.{value_on};
ghost use Rattle.ghcn_series.specs.Extremes as of_block;
ghost use Rattle.ghcn_series.specs.Packed as packed;

use crate::block::Block;
use crate::days::{Days, day_at};
use crate::extremes::Extremes;
use ghcn_fields::{Day, Memory};
use std::alloc::Global;
use std::marker::Model;

/// Days with their values, as blocks of 32 days that hold one.
#[derive(Drop)]
pub(crate) struct Columns {
    numbers: Vec<i32>,
    words: Vec<u32>,
    values: Vec<[i32; 32]>,
    /// The least and the greatest value of each block, if they are held.
    extremes: Option<Vec<Extremes>>,
}

impl Model for Columns {
    ghost use Rattle.std.specs.Prelude.{List};
    ghost use Rattle.ghcn_series.specs.Meaning.Series.{DayValue};
    ghost use Rattle.ghcn_series.specs.Packed.{days_of_blocks, blocks_of};
    ghost use Rattle.ghcn_series.specs.Extremes.{AreHeldColumns};

    ghost Value = { List DayValue };

    ghost view = { λ c. days_of_blocks (blocks_of c.numbers.items c.words.items c.values.items) };

    ghost invariant = { λ c. AreHeldColumns c.numbers.items c.words.items c.values.items c.extremes };
}

impl Columns {
    /// The days of three columns.
    pub(crate) fn of(numbers: Vec<i32>, words: Vec<u32>, values: Vec<[i32; 32]>) -> Self
        requires { packed.AreColumns numbers.items words.items values.items }
        ensures { result ≡ packed.days_of_blocks (packed.blocks_of numbers.items words.items values.items) }
    {
        Columns {
            numbers,
            words,
            values,
            extremes: None,
        }
    }

    /// Holds the least and the greatest value of each block. No day changes.
    pub(crate) fn hold_extremes(&mut self, alloc: Global) -> Result<(), Memory>
        ensures { self.new ≡ self.old }
    {
        self.extremes = Some(extremes_of(alloc, &self.words, &self.values)?);
        Ok(())
    }

    /// The block of this number, if a day of it is present.
    pub(crate) fn block(&self, number: i32) -> Option<(u32, &[i32; 32])>
        ensures some { IfSome result (λ x. packed.IsBlockOf self.now number x.0 x.1.now) }
        ensures none { IfNone result (packed.HasNone self.now number) }
    {
        let block = self.block_near(0, number)?;
        Some((block.word(), block.values()))
    }

    /// The same, looked for first after that many blocks.
    pub(crate) fn block_near(&self, before: usize, number: i32) -> Option<Block<'_>>
        ensures some { IfSome result (λ b. packed.IsBlockOf self.now number b.0 b.1) }
        ensures none { IfNone result (packed.HasNone self.now number) }
    {
        let at = place_near(&self.numbers, before, number)?;
        let held = extremes_at(&self.extremes, at);
        Some(Block::of(self.words[at], &self.values[at], held))
    }

    /// The first block from a number on that has a day.
    pub(crate) fn next_block(&self, number: i32) -> Option<i32>
        ensures { result ≡ packed.next_block self.now number }
    {
        first_from(&self.numbers, number)
    }

    /// The days that are present, each with its value, by increasing day.
    pub(crate) fn days(&self) -> Days<'_>
        ensures days { result ≡ self.now }
        ensures rising { packed.AreRising self.now }
    {
        Days::of(&self.numbers, &self.words, &self.values)
    }

    /// The first day that is present.
    pub(crate) fn first(&self) -> Option<Day>
        ensures { result ≡ option_map (λ x. x.0) (slice_get self.now 0) }
    {
        let (day, _) = self.days().next()?;
        Some(day)
    }

    /// The last day that is present.
    pub(crate) fn last(&self) -> Option<Day>
        ensures { result ≡ option_map (λ x. x.0) (slice_get self.now (length self.now - 1)) }
    {
        let number = self.numbers.last()?;
        let word = self.words.last()?;
        last_day(*number, *word)
    }

    /// The value of a day, if it is present.
    pub(crate) fn value(&self, day: Day) -> Option<i32>
        ensures { result ≡ value_on self.now day }
    {
        let (word, values) = self.block(day.block())?;
        value_at(word, values, day.number().rem_euclid(32) as u32)
    }
}

/// The least and the greatest value of each block, by their words and values.
fn extremes_of(alloc: Global, words: &[u32], values: &[[i32; 32]]) -> Result<Vec<Extremes>, Memory>
    requires { of_block.HaveDays words.now values.now }
    ensures { IfOk result (λ es. of_block.AreExtremesOf words.now values.now es.items) }
{
    let mut extremes = Vec::with_capacity(alloc, words.len())?;
    for place in 0..words.len() {
        extremes.push(Extremes::of(words[place], &values[place]))?;
    }
    Ok(extremes)
}

/// The extremes of the block at a place, if they are held.
fn extremes_at(held: &Option<Vec<Extremes>>, place: usize) -> Option<Extremes>
    ensures { (words : List ℕ) (values : List (List ℤ))
        → IfSome held.now (λ es. of_block.AreExtremesOf words values es.items)
        → IfSome result (of_block.AreExtremes (get_or words place 0) (get_or values place [])) }
{
    match held {
        Some(extremes) => extremes.get(place).copied(),
        None => None,
    }
}

/// The value at a place of a block, if its day is present.
fn value_at(word: u32, values: &[i32; 32], place: u32) -> Option<i32>
    requires { place < 32 }
    ensures { result ≡ packed.value_at word values.now place }
{
    if word >> place & 1 == 1 {
        Some(values[place as usize])
    } else {
        None
    }
}

/// The last day of a word's bits.
fn last_day(number: i32, word: u32) -> Option<Day>
    requires days { packed.AreCalendarDays number word }
    requires some { 0 < word }
    ensures { packed.IsLastOf number word result }
{
    Some(day_at(number, word.ilog2()))
}

/// The place of a number among numbers that rise, looked for at one place first.
fn place_near(numbers: &[i32], place: usize, number: i32) -> Option<usize>
    requires { packed.Rise numbers.now }
    ensures some { IfSome result (packed.IsAt numbers.now number) }
    ensures none { IfNone result (packed.IsNowhere numbers.now number) }
{
    match numbers.get(place) {
        Some(there) if *there == number => Some(place),
        _ => place_of(numbers, number),
    }
}

/// The place of a number among numbers that rise.
fn place_of(numbers: &[i32], number: i32) -> Option<usize>
    requires { packed.Rise numbers.now }
    ensures some { IfSome result (packed.IsAt numbers.now number) }
    ensures none { IfNone result (packed.IsNowhere numbers.now number) }
{
    numbers.binary_search(&number).ok()
}

/// The first number from another one on, among numbers that rise.
fn first_from(numbers: &[i32], number: i32) -> Option<i32>
    requires { packed.Rise numbers.now }
    ensures { result ≡ find (int_le number) numbers.now }
{
    let at = numbers.partition_point(|it| *it < number);
    numbers.get(at).copied()
}
