//! What the lines of one station and element say, gathered while the files are read.

ghost use Rattle.std.specs.Prelude.{◌≡◌, ◌+◌, ◌*◌, ◌==◌, true, false, length, IfOk, OnOk};
ghost use Rattle.ghcn_fields.specs.Sorting.{sorted_by};
ghost use Rattle.ghcn_series.specs.Series.{by_day};
ghost use Rattle.ghcn_series.specs.Gathered as gathered;
ghost use Rattle.ghcn_series.specs.Parts as parts;
ghost use Rattle.ghcn_series.specs.Steps.{Gathers, GathersSome, GathersNothing, KeepsMonths, IsOfMonth, OfMonth};
ghost use Rattle.ghcn_series.specs.Steps.{ForMonth};

use crate::columns::Columns;
use crate::months::Months;
use crate::parts::{Parts, place_of};
use ghcn_fields::{Day, Memory};
use ghcn_files::{Element, MonthRow};
use std::alloc::Global;

/// The months of one station and element that were read, and those of their usable days that are
/// kept.
#[derive(Drop)]
pub(crate) struct Gathering {
    element: Element,
    seen: Months,
    parts: Parts,
}

impl Gathering {
    /// Nothing of an element yet, with memory for its days.
    pub(crate) fn new(alloc: Global, element: Element, empty: Parts) -> Self
        requires { parts.AreEmpty empty }
        ensures element { result.element ≡ element }
        ensures empty { GathersNothing result }
    {
        Gathering {
            element,
            seen: Months::new(alloc),
            parts: empty,
        }
    }

    /// Adds a month with its days, or returns false if one of its time was added before. It isn't built into the
    /// loop over lines, of which most, if one element is asked for, have days that aren't kept.
    #[inline(never)]
    pub(crate) fn add(&mut self, alloc: Global, row: &MonthRow) -> Result<bool, Memory>
        requires right { IsOfMonth true row.now }
        requires gathered { GathersSome true self.old }
        ensures element { self.new.element ≡ self.old.element }
        ensures added { IfOk result (λ added. OfMonth true row.now (λ m. Gathers true self.old self.new m added)) }
    {
        if !self.seen.add(alloc, number_of(row))? {
            return Ok(false);
        }
        add_days(&mut self.parts, row)?;
        Ok(true)
    }

    /// Adds a month whose days aren't kept, or returns false if one of its time was added before.
    #[inline(always)]
    pub(crate) fn note(&mut self, alloc: Global, row: &MonthRow) -> Result<bool, Memory>
        requires { GathersSome false self.old }
        ensures element { self.new.element ≡ self.old.element }
        ensures added { IfOk result (λ added. ForMonth false row.now (λ m. Gathers false self.old self.new m added)) }
    {
        self.seen.add(alloc, number_of(row))
    }

    /// Moves the days to memory of exactly their size, and returns the memory in which they grew.
    pub(crate) fn shrink_to_fit(&mut self, alloc: Global) -> Result<Parts, Memory>
        ensures element { self.new.element ≡ self.old.element }
        ensures same { OnOk result (KeepsMonths self.old self.new) }
        ensures empty { IfOk result parts.AreEmpty }
    {
        self.parts.shrink_to_fit(alloc)
    }

    /// What is gathered.
    pub(crate) fn element(&self) -> Element
        ensures { result ≡ self.now.element }
    {
        self.element
    }

    /// Whether no usable day was added.
    pub(crate) fn is_empty(&self) -> bool
        requires { gathered.IsReady self.now }
        ensures { result ≡ (length (gathered.gathered_days self.now) == 0) }
    {
        self.parts.is_empty()
    }

    /// The usable days that were added, by increasing day.
    pub(crate) fn into_columns(self, alloc: Global) -> Result<Columns, Memory>
        requires { gathered.IsReady self }
        ensures { IfOk result (λ columns. columns ≡ sorted_by by_day (gathered.gathered_days self)) }
    {
        self.parts.put_in_order(alloc)
    }
}

/// How many months come before a row's month, from the year 0 on.
fn number_of(row: &MonthRow) -> u32
    ensures { result ≡ 12 * row.now.year + row.now.month }
{
    12 * row.year as u32 + row.month as u32
}

/// Adds the usable days of a month, none of which was added before.
fn add_days(held: &mut Parts, row: &MonthRow) -> Result<(), Memory>
    requires right { IsOfMonth true row.now }
    requires parts { parts.AreParts held.old }
    requires fresh { OfMonth true row.now (λ m. parts.HaveNone held.old (gathered.usable_days m)) }
    ensures parts { OnOk result (parts.AreParts held.new) }
    ensures joined { OnOk result
        (OfMonth true row.now (λ m. parts.JoinDays held.old (gathered.usable_days m) held.new)) }
{
    let Some(first) = Day::of(row.year, row.month, 1) else {
        unreachable!()
    };
    let (number, place) = place_of(first);
    held.add_row(number, place, row.word, &row.values)
}
