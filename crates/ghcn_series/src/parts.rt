//! Columns while days are added to them.

ghost use Rattle.std.specs.Prelude.{◌≡◌, ◌<◌, ◌-◌, ◌==◌, ◌&&◌, ◌||◌, pos, ◌+ℤ◌, ℕ, get_or, take, drop};
ghost use Rattle.std.specs.Prelude.{IfOk, OnOk, IsTrue};
ghost use Rattle.std.specs.Prelude.{nat_lt, int_lt, length, slice_index_or};
ghost use Rattle.std.specs.Ordering.{int_eq};
ghost use Rattle.ghcn_fields.specs.Meaning.Days.{is_day};
ghost use Rattle.ghcn_fields.specs.Days.{IsBlock};
ghost use Rattle.ghcn_fields.specs.Sorting.{sorted_by};
ghost use Rattle.ghcn_series.specs.Series.{by_day};
ghost use Rattle.ghcn_series.specs.Packed as packed;
ghost use Rattle.ghcn_series.specs.Parts as parts;

use crate::columns::Columns;
use ghcn_fields::{Day, Memory};
use std::alloc::Global;
use std::mem;

/// Parts of blocks in the order in which they were added.
#[derive(Drop)]
pub(crate) struct Parts {
    numbers: Vec<i32>,
    words: Vec<u32>,
    values: Vec<[i32; 32]>,
    /// Whether the numbers rise.
    in_order: bool,
}

impl Parts {
    /// No days.
    pub(crate) fn new(alloc: Global) -> Self
        ensures { parts.AreEmpty result }
    {
        Parts {
            numbers: Vec::new(alloc),
            words: Vec::new(alloc),
            values: Vec::new(alloc),
            in_order: true,
        }
    }

    /// Adds days of a block, none of which was added before. Room for their values is made before these are pushed,
    /// since a push that may fail would copy them twice.
    #[inline(always)]
    fn add_part(&mut self, number: i32, word: u32, values: &[i32; 32]) -> Result<(), Memory>
        requires parts { parts.AreParts self.old }
        requires packed { 0 < word → packed.IsPacked (number, (word, values.now)) }
        requires fresh { parts.IsNewPart self.old (number, (word, values.now)) }
        ensures parts { OnOk result (parts.AreParts self.new) }
        ensures joined { OnOk result (parts.JoinsPart self.old (number, (word, values.now)) self.new) }
        ensures order { OnOk result (parts.KeepsOrder self.old number self.new) }
    {
        if word == 0 {
            return Ok(());
        }
        if ends_in(&self.numbers, number) {
            self.join(word, values);
            return Ok(());
        }
        let rises = is_after(&self.numbers, number);
        self.numbers.push(number)?;
        self.words.push(word)?;
        self.values.reserve(1)?;
        self.values.push_reserved(*values);
        self.in_order &= rises;
        Ok(())
    }

    /// Adds the days of a row that begins at a place of a block, none of which was added before.
    pub(crate) fn add_row(
        &mut self,
        number: i32,
        place: u32,
        word: u32,
        values: &[i32; 32],
    ) -> Result<(), Memory>
        requires parts { parts.AreParts self.old }
        requires number { IsBlock number }
        requires place { place < 32 }
        requires row { parts.IsRow (parts.day_of number place) word values.now }
        requires fresh { parts.HaveNone self.old (parts.row_days number place word values.now) }
        ensures parts { OnOk result (parts.AreParts self.new) }
        ensures joined { OnOk result
            (parts.JoinDays self.old (parts.row_days number place word values.now) self.new) }
    {
        let low = low_bits(word, place);
        let high = high_bits(word, place);
        let mut both = [0; 64];
        put_row(values, place, &mut both);
        let (first, second) = (first_of(&both), second_of(&both));
        self.add_part(number, low, first)?;
        self.add_part(number + 1, high, second)
    }

    /// Whether there are none.
    pub(crate) fn is_empty(&self) -> bool
        requires { parts.AreParts self.now }
        ensures { result ≡ (length (parts.days_held self.now) == 0) }
    {
        self.numbers.is_empty()
    }

    /// Moves the days to memory of exactly their size, and returns the memory in which they grew.
    pub(crate) fn shrink_to_fit(&mut self, alloc: Global) -> Result<Self, Memory>
        ensures same { OnOk result (parts.AreSame self.old self.new) }
        ensures empty { IfOk result parts.AreEmpty }
    {
        let settled = self.copied(alloc)?;
        let mut spare = mem::replace(self, settled);
        spare.clear();
        Ok(spare)
    }

    /// The same days in memory of exactly their size.
    fn copied(&self, alloc: Global) -> Result<Self, Memory>
        ensures { IfOk result (parts.AreSame self.now) }
    {
        Ok(Parts {
            numbers: copied(alloc, &self.numbers)?,
            words: copied(alloc, &self.words)?,
            values: copied(alloc, &self.values)?,
            in_order: self.in_order,
        })
    }

    /// Takes all days away, and keeps their memory.
    fn clear(&mut self)
        ensures { parts.AreEmpty self.new }
    {
        self.numbers.clear();
        self.words.clear();
        self.values.clear();
        self.in_order = true;
    }

    /// The same days as columns, put in order if they aren't.
    pub(crate) fn put_in_order(self, alloc: Global) -> Result<Columns, Memory>
        requires { parts.AreParts self }
        ensures { IfOk result (λ columns. columns ≡ sorted_by by_day (parts.days_held self)) }
    {
        if self.in_order {
            return Ok(self.into_columns());
        }
        let order = by_number(alloc, &self.numbers)?;
        let ordered = self.added_in(alloc, &order)?;
        Ok(ordered.into_columns())
    }

    /// The same days, added part by part in the order of the parts' numbers.
    fn added_in(&self, alloc: Global, order: &[(i32, usize)]) -> Result<Self, Memory>
        requires parts { parts.AreParts self.now }
        requires order { parts.AreByNumber self.now.numbers.items order.now }
        ensures order { IfOk result parts.AreOrdered }
        ensures days { IfOk result (parts.HaveSameDays self.now) }
    {
        let mut ordered = Parts::new(alloc);
        for (number, place) in order {
            ordered.add_part(*number, self.words[*place], &self.values[*place])?;
        }
        Ok(ordered)
    }

    /// The same days as columns.
    fn into_columns(self) -> Columns
        requires { parts.AreOrdered self }
        ensures { result ≡ parts.days_held self }
    {
        Columns::of(self.numbers, self.words, self.values)
    }

    /// Adds days to the last part.
    #[inline(always)]
    fn join(&mut self, word: u32, values: &[i32; 32])
        requires parts { parts.AreParts self.old }
        requires some { 0 < length self.old.numbers.items }
        requires packed { packed.IsPacked (parts.last_number self.old, (word, values.now)) }
        requires fresh { parts.IsNewPart self.old (parts.last_number self.old, (word, values.now)) }
        ensures parts { parts.AreParts self.new }
        ensures joined { parts.JoinsPart self.old (parts.last_number self.old, (word, values.now)) self.new }
        ensures order { self.new.in_order ≡ self.old.in_order }
    {
        let last = self.numbers.len() - 1;
        self.words[last] |= word;
        self.values[last] = joined(&self.values[last], values);
    }
}

/// The numbers with their places, by increasing number.
fn by_number(alloc: Global, numbers: &[i32]) -> Result<Vec<(i32, usize)>, Memory>
    ensures { IfOk result (λ order. parts.AreByNumber numbers.now order.items) }
{
    let mut order = Vec::with_capacity(alloc, numbers.len())?;
    for place in 0..numbers.len() {
        order.push((numbers[place], place))?;
    }
    order.sort_unstable();
    Ok(order)
}

/// These items in memory of exactly their size.
fn copied<T: Copy>(alloc: Global, items: &[T]) -> Result<Vec<T>, Memory>
    ensures { IfOk result (λ copy. copy.items ≡ items.now) }
{
    let mut copy = Vec::with_capacity(alloc, items.len())?;
    copy.extend_from_slice(items)?;
    Ok(copy)
}

/// Whether a number is the last.
fn ends_in(numbers: &[i32], number: i32) -> bool
    ensures { result ≡ (nat_lt 0 (length numbers.now)
        && int_eq (slice_index_or numbers.now (length numbers.now - 1) (pos 0)) number) }
{
    match numbers {
        [.., last] => *last == number,
        [] => false,
    }
}

/// Whether a number is greater than the last.
fn is_after(numbers: &[i32], number: i32) -> bool
    ensures { result
        ≡ (length numbers.now == 0 || int_lt (slice_index_or numbers.now (length numbers.now - 1) (pos 0)) number) }
{
    match numbers {
        [.., last] => *last < number,
        [] => true,
    }
}

/// Two rows of values of which at each place one is 0. It is built into its callers, so that the row that it returns
/// goes through no memory.
#[inline(always)]
fn joined(values: &[i32; 32], more: &[i32; 32]) -> [i32; 32]
    ensures { parts.JoinsValues values.now more.now result }
{
    let mut both = [0; 32];
    for place in 0..32 {
        both[place] = values[place] | more[place];
    }
    both
}

/// Puts a row that begins at a place of a block into that block and the next one, which have no days yet. All 32
/// values are copied at once, since copies of other lengths would be calls.
fn put_row(values: &[i32; 32], place: u32, both: &mut [i32; 64])
    requires place { place < 32 }
    requires zeros { (at : ℕ) → get_or both.old at (pos 0) ≡ pos 0 }
    ensures { (at : ℕ) → at < 64 → parts.IsValueFrom values.now place at (get_or both.new at (pos 0)) }
{
    let place = place as usize;
    both[place..place + 32].copy_from_slice(values);
}

/// The first of two blocks.
#[inline(always)]
fn first_of(both: &[i32; 64]) -> &[i32; 32]
    ensures { result.now ≡ take 32 both.now }
{
    both.first_chunk().unwrap()
}

/// The second of two blocks.
#[inline(always)]
fn second_of(both: &[i32; 64]) -> &[i32; 32]
    ensures { result.now ≡ drop 32 both.now }
{
    both.last_chunk().unwrap()
}

/// The bits of a row in the block in which it begins.
fn low_bits(word: u32, place: u32) -> u32
    requires { place < 32 }
    ensures { parts.HasBitsOf word place 0 result }
{
    word << place
}

/// The bits of a row in the next block.
fn high_bits(word: u32, place: u32) -> u32
    requires { place < 32 }
    ensures { parts.HasBitsOf word place 32 result }
{
    word >> 1 >> (31 - place)
}

/// The block of a day, and the day's place there.
pub(crate) fn place_of(day: Day) -> (i32, u32)
    ensures block { IsBlock result.0 }
    ensures place { result.1 < 32 }
    ensures day { packed.block_start result.0 +ℤ pos result.1 ≡ day }
    ensures calendar { IsTrue (is_day day) }
{
    (day.block(), day.number().rem_euclid(32) as u32)
}
