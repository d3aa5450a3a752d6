//! The usable days of a series, one after another.

ghost use Rattle.std.specs.Prelude.{◌≡◌, ◌↔◌, ℕ, ◌<◌, ◌≤◌, ◌-◌, ◌^◌, ◌++◌, [], IsTrue, pos, ◌+ℤ◌, ◌≤ℤ◌, ◌<ℤ◌};
ghost use Rattle.std.specs.Prelude.{IfSome, IfNone, length, slice_get, take, drop, filter, int_le, int_lt};
ghost use Rattle.std.specs.List.{AllByRecursion};
ghost use Rattle.std.specs.Option.{option_map};
ghost use Rattle.ghcn_fields.specs.Meaning.Days.{is_day};
ghost use Rattle.ghcn_fields.specs.Days.{IsBlock};
ghost use Rattle.ghcn_series.specs.Packed as packed;

use ghcn_fields::Day;
use std::alloc::AllocError;
use std::marker::Model;

/// The days of one block that are still to come, by increasing day, each with its value.
#[derive(Drop)]
pub struct BlockDays<'a> {
    number: i32,
    left: u32,
    values: &'a [i32; 32],
}

impl<'a> Model for BlockDays<'a> {
    ghost use Rattle.std.specs.Prelude.{List};
    ghost use Rattle.ghcn_series.specs.Meaning.Series.{DayValue};
    ghost use Rattle.ghcn_series.specs.Packed.{block_days, AreCalendarDays};

    ghost Value = { List DayValue };

    ghost view = { λ d. block_days (d.number, (d.left, d.values.now)) };

    ghost invariant = { λ d. AreCalendarDays d.number d.left };
}

impl<'a> BlockDays<'a> {
    /// The days of a block that are present.
    pub(crate) fn of(number: i32, word: u32, values: &'a [i32; 32]) -> Self
        requires { packed.AreCalendarDays number word }
        ensures { result ≡ packed.block_days (number, (word, values.now)) }
    {
        BlockDays {
            number,
            left: word,
            values,
        }
    }
}

impl<'a> BlockDays<'a> {
    /// No day.
    pub fn none() -> Self
        ensures { result ≡ [] }
    {
        BlockDays::of(0, 0, &NO_VALUES)
    }

    /// Leaves out the days whose value is below a least one, in the element's unit.
    pub fn keep_from(&mut self, least: i32)
        ensures { self.new ≡ filter (λ x. int_le least x.1) self.old }
    {
        self.left &= places_from(self.values, least);
    }

    /// Leaves out the days whose value isn't below a limit, in the element's unit.
    pub fn keep_below(&mut self, limit: i32)
        ensures { self.new ≡ filter (λ x. int_lt x.1 limit) self.old }
    {
        self.left &= !places_from(self.values, limit);
    }

    /// Takes the first days, as many as follow one another, and returns the first and the last of them.
    ///
    /// A caller that looks for days in a row needs no look at each of them.
    #[inline(always)]
    pub fn next_run(&mut self) -> Option<(Day, Day)>
        ensures run { IfSome result (λ ends. packed.TakesRun self.old ends self.new) }
        ensures none { IfNone result (self.old ≡ []) }
        ensures end { IfNone result (self.new ≡ []) }
    {
        if self.left == 0 {
            return None;
        }
        let place = self.left.trailing_zeros();
        let behind = end_of_run(self.left);
        let first = day_at(self.number, place);
        let last = day_at(self.number, behind - 1);
        self.left &= !first_places(behind);
        Some((first, last))
    }

    /// Takes the first days, as many as follow one another, and returns the first of them, and the values of all, in the
    /// element's unit.
    ///
    /// A caller that adds up values goes through them without a look at each day.
    #[inline(always)]
    pub fn next_row(&mut self) -> Option<(Day, &'a [i32])>
        ensures row { IfSome result (λ row. packed.TakesRow self.old row.0 row.1.now self.new) }
        ensures none { IfNone result (self.old ≡ []) }
        ensures end { IfNone result (self.new ≡ []) }
    {
        if self.left == 0 {
            return None;
        }
        let place = self.left.trailing_zeros();
        let behind = end_of_run(self.left);
        let first = day_at(self.number, place);
        let values = between(self.values, place, behind);
        let row = first_places(behind);
        self.left &= !row;
        Some((first, values))
    }

    /// Takes the days before the last run, and returns how many runs these are. A run is days that follow one another, with no day
    /// just before or after them.
    ///
    /// A caller that needs only the number of short runs needs no look at each of them.
    #[inline(always)]
    pub fn take_to_last_run(&mut self) -> u32
        ensures { packed.TakesToLastRun self.old result self.new }
    {
        if self.left == 0 {
            return 0;
        }
        let before = first_places(start_of_last_run(self.left));
        let taken = self.left & before;
        self.left &= !before;
        runs_of(taken)
    }

    /// How many days are to come.
    pub fn len(&self) -> u32
        ensures { result ≡ length self.now }
    {
        self.left.count_ones()
    }

    /// Whether no day is to come.
    pub fn is_empty(&self) -> bool
        ensures { IsTrue result ↔ (self.now ≡ []) }
    {
        self.left == 0
    }

    /// The first day that is to come.
    fn first(&self) -> Option<Day>
        ensures { result ≡ option_map (λ x. x.0) (slice_get self.now 0) }
    {
        if self.left == 0 {
            return None;
        }
        Some(day_at(self.number, self.left.trailing_zeros()))
    }

    /// Takes the days up to a last one by its number, which come first.
    fn take_to(&mut self, last: i32) -> Self
        ensures parts { self.old ≡ result ++ self.new }
        ensures taken { AllByRecursion (λ x. x.0 ≤ℤ last) result }
        ensures left { AllByRecursion (λ x. last <ℤ x.0) self.new }
    {
        let taken = first_places(places_to(self.number, last));
        let days = BlockDays {
            number: self.number,
            left: self.left & taken,
            values: self.values,
        };
        self.left &= !taken;
        days
    }

    /// The same days once more.
    pub fn again(&self) -> Self
        ensures { result ≡ self.now }
    {
        BlockDays {
            number: self.number,
            left: self.left,
            values: self.values,
        }
    }
}

impl<'a> Iterator for BlockDays<'a> {
    ghost use Rattle.std.specs.Iterator.{YieldsFirst, item_count};

    type Item = (Day, i32);

    ghost next_gives = { YieldsFirst (λ rest. rest) };

    ghost remaining = { item_count (λ rest. rest) };

    fn next(&mut self) -> Option<(Day, i32)> {
        if self.left == 0 {
            return None;
        }
        let place = self.left.trailing_zeros();
        let day = day_at(self.number, place);
        // The lowest bit goes, without waiting for its place.
        self.left &= self.left - 1;
        Some((day, self.values[place as usize]))
    }
}

/// How many places of a block belong to days up to a last one by its number.
fn places_to(number: i32, last: i32) -> u32
    ensures few { result ≤ 32 }
    ensures up_to { (j : ℕ) → j < result → (packed.block_start number +ℤ pos j) ≤ℤ last }
    ensures behind { (j : ℕ) → result ≤ j → j < 32 → last <ℤ (packed.block_start number +ℤ pos j) }
{
    let places = last as i64 + 1 - number as i64 * 32;
    if places <= 0 {
        0
    } else if places < 32 {
        places as u32
    } else {
        32
    }
}

/// The place after the lowest bits of a word that follow one another.
fn end_of_run(word: u32) -> u32
    requires { 0 < word }
    ensures { packed.EndsRun word result }
{
    let place = word.trailing_zeros();
    place + (word >> place).trailing_ones()
}

/// The place at which the highest bits of a word that follow one another begin.
fn start_of_last_run(word: u32) -> u32
    requires { 0 < word }
    ensures { packed.BeginsLastRun word result }
{
    // The places below the highest bit that have none.
    let gaps = first_places(word.ilog2()) & !word;
    32 - gaps.leading_zeros()
}

/// How many runs the days of a word's bits have: each run ends with a bit that has none after it.
fn runs_of(word: u32) -> u32
    ensures { packed.HasRuns word result }
{
    (word & !(word >> 1)).count_ones()
}

/// The places of the values that aren't below a least one, as bits of a word.
fn places_from(values: &[i32; 32], least: i32) -> u32
    ensures { packed.ArePlacesOf (int_le least) values.now result }
{
    let mut word = 0;
    for place in 0..32_u32 {
        word |= u32::from(values[place as usize] >= least) << place;
    }
    word
}

/// The values from a place of a block up to another one.
fn between(values: &[i32; 32], place: u32, behind: u32) -> &[i32]
    requires some { place ≤ behind }
    requires few { behind ≤ 32 }
    ensures part { result.now ≡ take (behind - place) (drop place values.now) }
    ensures size { length values.now ≡ 32 }
{
    &values[place as usize..behind as usize]
}

/// The word of that many first places of a block.
fn first_places(count: u32) -> u32
    requires { count ≤ 32 }
    ensures { result ≡ 2 ^ count - 1 }
{
    ((1u64 << count) - 1) as u32
}

/// The day at a place of a block.
pub(crate) fn day_at(number: i32, place: u32) -> Day
    requires number { IsBlock number }
    requires place { place < 32 }
    requires day { IsTrue (is_day (packed.block_start number +ℤ pos place)) }
    ensures { result ≡ packed.block_start number +ℤ pos place }
{
    Day::numbered(number * 32 + place as i32)
}

/// The blocks that are still to come.
#[derive(Drop)]
struct Blocks<'a> {
    numbers: &'a [i32],
    words: &'a [u32],
    values: &'a [[i32; 32]],
    /// How many blocks were passed: one number that changes in place of three slices.
    passed: usize,
}

impl<'a> Model for Blocks<'a> {
    ghost use Rattle.std.specs.Prelude.{List, drop};
    ghost use Rattle.ghcn_series.specs.Meaning.Series.{DayValue};
    ghost use Rattle.ghcn_series.specs.Packed.{days_of_blocks, blocks_of, AreBlocks};

    ghost Value = { List DayValue };

    ghost view = { λ b. days_of_blocks (drop b.passed (blocks_of b.numbers.now b.words.now b.values.now)) };

    ghost invariant = { λ b. AreBlocks b.numbers.now b.words.now b.values.now };
}

impl<'a> Blocks<'a> {
    /// The days of the next block, of which there is one at least.
    fn next(&mut self) -> Option<BlockDays<'a>>
        ensures some { IfSome result (λ block. self.old ≡ block ++ self.new) }
        ensures day { IfSome result (λ block. 0 < length block) }
        ensures none { IfNone result (self.old ≡ []) }
        ensures end { IfNone result (self.new ≡ []) }
    {
        let next = self.passed;
        let number = self.numbers.get(next)?;
        self.passed += 1;
        Some(BlockDays::of(*number, self.words[next], &self.values[next]))
    }

    /// The same blocks once more.
    fn again(&self) -> Self
        ensures { result ≡ self.now }
    {
        Blocks {
            numbers: self.numbers,
            words: self.words,
            values: self.values,
            passed: self.passed,
        }
    }
}

/// The usable days that are still to come, by increasing day, each with its value.
#[derive(Drop)]
pub struct Days<'a> {
    current: BlockDays<'a>,
    behind: Blocks<'a>,
}

impl<'a> Model for Days<'a> {
    ghost use Rattle.std.specs.Prelude.{List, ◌++◌};
    ghost use Rattle.ghcn_series.specs.Meaning.Series.{DayValue};

    ghost Value = { List DayValue };

    ghost view = { λ d. d.current ++ d.behind };
}

/// The values of a block without a day.
const NO_VALUES: [i32; 32] = [0; 32];

impl<'a> Days<'a> {
    /// The days of three columns.
    pub(crate) fn of(numbers: &'a [i32], words: &'a [u32], values: &'a [[i32; 32]]) -> Self
        requires { packed.AreBlocks numbers.now words.now values.now }
        ensures { result ≡ packed.days_of_blocks (packed.blocks_of numbers.now words.now values.now) }
    {
        Days {
            current: BlockDays::none(),
            behind: Blocks {
                numbers,
                words,
                values,
                passed: 0,
            },
        }
    }

    /// The first day that is to come, which stays so.
    pub fn first(&mut self) -> Option<Day>
        ensures first { result ≡ option_map (λ x. x.0) (slice_get self.old 0) }
        ensures same { self.new ≡ self.old }
    {
        if self.current.is_empty() {
            self.current = self.behind.next()?;
        }
        self.current.first()
    }

    /// Takes days of the next block that has one, as many as come no later than a last one by its number.
    ///
    /// A caller that goes through days part by part asks what holds of a part once, and nothing of a day.
    pub fn take_to(&mut self, last: i32) -> BlockDays<'a>
        ensures parts { self.old ≡ result ++ self.new }
        ensures taken { AllByRecursion (λ x. x.0 ≤ℤ last) result }
        ensures some { packed.BeginsBy last self.old → 0 < length result }
    {
        if self.current.is_empty() {
            let Some(block) = self.behind.next() else {
                return BlockDays::none();
            };
            self.current = block;
        }
        self.current.take_to(last)
    }
}

impl<'a> Clone for Days<'a> {
    ghost use Rattle.std.specs.Prelude.{◌≡◌, ⊤};

    ghost is_clone = { λ s r. r ≡ s };

    ghost is_infallible = { λ _. ⊤ };

    /// The same days once more, without taking memory.
    fn clone(&self) -> Result<Days<'a>, AllocError> {
        Ok(Days {
            current: self.current.again(),
            behind: self.behind.again(),
        })
    }
}

impl<'a> Iterator for Days<'a> {
    ghost use Rattle.std.specs.Iterator.{YieldsFirst, item_count};

    type Item = (Day, i32);

    ghost next_gives = { YieldsFirst (λ rest. rest) };

    ghost remaining = { item_count (λ rest. rest) };

    fn next(&mut self) -> Option<(Day, i32)> {
        if let Some(first) = self.current.next() {
            return Some(first);
        }
        self.current = self.behind.next()?;
        self.current.next()
    }
}
