//! The usable values of one station and element.

ghost use Rattle.std.specs.Prelude.{◌≡◌, ◌-◌, length, slice_get, IfSome, IfNone};
ghost use Rattle.std.specs.Option.{option_map};
ghost use Rattle.ghcn_series.specs.Meaning.Series.{value_on};
ghost use Rattle.ghcn_series.specs.Series.{IsSeries};
ghost use Rattle.ghcn_series.specs.Packed.{IsBlockOf, HasNone, IsNextBlock, next_block};

use crate::block::Block;
use crate::columns::Columns;
use crate::days::Days;
use ghcn_fields::{Day, Memory};
use ghcn_files::{Element, StationId};
use std::alloc::Global;
use std::marker::Model;

/// The usable days of one station and element, each with its value.
///
/// A day is usable if a line gives it a value with a blank quality flag, and the value isn't
/// missing, and isn't negative for precipitation, snowfall and snow depth. There is at least one.
#[derive(Drop)]
pub struct Series {
    id: StationId,
    element: Element,
    columns: Columns,
}

impl Model for Series {
    ghost use Rattle.ghcn_series.specs.Meaning.Series.{Series};
    ghost use Rattle.ghcn_series.specs.Series.{IsSeries};

    ghost Value = { Series };

    ghost view = { λ s. record { id = s.id; element = s.element; days = s.columns } };

    ghost invariant = { λ s. IsSeries (record { id = s.id; element = s.element; days = s.columns }) };
}

impl Series {
    /// The series of a station and an element that has these usable days.
    pub(crate) fn of(id: StationId, element: Element, columns: Columns) -> Self
        requires { IsSeries (record { id = id; element = element; days = columns }) }
        ensures { result ≡ record { id = id; element = element; days = columns } }
    {
        Series {
            id,
            element,
            columns,
        }
    }

    /// Holds the least and the greatest value of each block, so that `block_near` needn't look for
    /// them among the values. No day changes.
    pub(crate) fn hold_extremes(&mut self, alloc: Global) -> Result<(), Memory>
        ensures { self.new ≡ self.old }
    {
        self.columns.hold_extremes(alloc)
    }

    /// The station's ID.
    pub fn id(&self) -> StationId
        ensures id { result ≡ self.now.id }
        ensures series { IsSeries self.now }
    {
        self.id
    }

    /// What the values measure, and so their unit.
    pub fn element(&self) -> Element
        ensures { result ≡ self.now.element }
    {
        self.element
    }

    /// The value of a day, if it is usable, in the element's unit.
    pub fn value(&self, day: Day) -> Option<i32>
        ensures { result ≡ value_on self.now.days day }
    {
        self.columns.value(day)
    }

    /// A block of 32 days by its number, if it holds a usable one: a word whose bit j is set if the
    /// block's day j is usable, and the days' values, in the element's unit, 0 if a day isn't
    /// usable.
    pub fn block(&self, number: i32) -> Option<(u32, &[i32; 32])>
        ensures some { IfSome result (λ x. IsBlockOf self.now.days number x.0 x.1.now) }
        ensures none { IfNone result (HasNone self.now.days number) }
    {
        self.columns.block(number)
    }

    /// The same, with the least and the greatest value. The block is looked for first after that
    /// many others, and is found there at once if these are the blocks before it.
    pub fn block_near(&self, before: usize, number: i32) -> Option<Block<'_>>
        ensures some { IfSome result (λ b. IsBlockOf self.now.days number b.0 b.1) }
        ensures none { IfNone result (HasNone self.now.days number) }
    {
        self.columns.block_near(before, number)
    }

    /// The first block from a number on that holds a usable day.
    pub fn next_block(&self, number: i32) -> Option<i32>
        ensures first { result ≡ next_block self.now.days number }
        ensures least { IsNextBlock self.now.days number result }
    {
        self.columns.next_block(number)
    }

    /// The first and the last usable day.
    pub fn span(&self) -> (Day, Day)
        ensures first { option_map (λ x. x.0) (slice_get self.now.days 0) ≡ Some result.0 }
        ensures last { option_map (λ x. x.0) (slice_get self.now.days (length self.now.days - 1))
            ≡ Some result.1 }
    {
        match (self.columns.first(), self.columns.last()) {
            (Some(first), Some(last)) => (first, last),
            _ => unreachable!(),
        }
    }

    /// The usable days with their values, by increasing day.
    pub fn days(&self) -> Days<'_>
        ensures days { result ≡ self.now.days }
        ensures series { IsSeries self.now }
    {
        self.columns.days()
    }
}
