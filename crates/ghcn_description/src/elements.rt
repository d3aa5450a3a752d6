//! Counts what listed stations have of an element, month by month.

ghost use Rattle.std.specs.Prelude.{◌≡◌, ◌<◌, ◌+◌, [], ◌++◌, ◌||◌, true, length, IfOk, OnOk, List, ℤ, Some, if◌then◌else◌, pos, ◌+ℤ◌};
ghost use Rattle.std.specs.Int.{int_min, int_max};
ghost use Rattle.std.specs.List.{AllZip, count_by};
ghost use lib.Lanes.{zip2};
ghost use Rattle.ghcn_fields.specs.Days.{day_number, day_if};
ghost use Rattle.ghcn_files.specs.Meaning.Elements.{elements};
ghost use Rattle.ghcn_files.specs.Elements.{element_index};
ghost use Rattle.ghcn_files.specs.Flags.{flagged_values};
ghost use Rattle.ghcn_series.specs.Steps.{IsOfMonth, OfMonth};
ghost use Rattle.ghcn_description.specs.Described.{IsSpan};
ghost use Rattle.ghcn_description.specs.Steps.{CountSeries, CountsMonth, IsEmpty, JoinElements, JoinsCounts};
ghost use Rattle.ghcn_description.specs.Steps.{days_of_month, has_mark};

use crate::counts::sum;
use crate::{ElementCounts, Span};
use ghcn_fields::{Day, Memory};
use ghcn_files::{Element, MonthRow};

impl ElementCounts {
    /// Of no line.
    fn new(element: Element) -> Self
        ensures { IsEmpty result element }
    {
        ElementCounts {
            element,
            lines: 0,
            series: 0,
            days: 0,
            flagged: 0,
            span: None,
        }
    }

    /// Counts a month of a listed station with that many flagged values.
    pub(crate) fn add(&mut self, row: &MonthRow, flagged: u32) -> Result<(), Memory>
        requires { IsOfMonth true row.now }
        ensures { OnOk result (OfMonth true row.now
            (λ m. flagged ≡ flagged_values m → CountsMonth self.old self.new m)) }
    {
        self.lines = sum(self.lines, 1)?;
        self.days = sum(self.days, row.word.count_ones() as u64)?;
        self.flagged = sum(self.flagged, flagged as u64)?;
        self.span = joined(self.span, span_of(row));
        Ok(())
    }

    /// Adds what was counted on other lines.
    fn join(&mut self, next: &ElementCounts) -> Result<(), Memory>
        ensures { OnOk result (JoinsCounts self.old next.now self.new) }
    {
        self.lines = sum(self.lines, next.lines)?;
        self.days = sum(self.days, next.days)?;
        self.flagged = sum(self.flagged, next.flagged)?;
        self.span = joined(self.span, next.span);
        Ok(())
    }
}

/// Adds what was counted on other lines, by element.
pub(crate) fn join_counts(
    elements: &mut [ElementCounts; 5],
    next: &[ElementCounts; 5],
) -> Result<(), Memory>
    ensures { OnOk result (JoinElements elements.old next.now elements.new) }
{
    for at in 0..5 {
        elements[at].join(&next[at])?;
    }
    Ok(())
}

/// Counts the series by element, if this says of each station of which elements it has a usable day.
pub(crate) fn count_series(elements: &mut [ElementCounts; 5], with_days: &[[bool; 5]])
    ensures { CountSeries elements.old with_days.now elements.new }
{
    for at in 0..5 {
        elements[at].series = series_at(with_days, at);
    }
}

/// Marks of which elements stations have a usable day, on some lines or on others.
pub(crate) fn join_marks(marks: &mut [[bool; 5]], others: &[[bool; 5]])
    requires { length others.now ≡ length marks.old }
    ensures { marks.new ≡ zip2 (zip2 ◌||◌) marks.old others.now }
{
    for place in 0..marks.len() {
        join_station(&mut marks[place], &others[place]);
    }
}

/// Marks of which elements a station has a usable day, on some lines or on others.
fn join_station(marks: &mut [bool; 5], others: &[bool; 5])
    ensures { marks.new ≡ zip2 ◌||◌ marks.old others.now }
{
    for at in 0..5 {
        marks[at] |= others[at];
    }
}

/// How many stations have a usable day of the element at a place.
fn series_at(with_days: &[[bool; 5]], at: usize) -> u64
    requires { at < 5 }
    ensures { result ≡ count_by (has_mark at) with_days.now }
{
    let mut series = 0u64;
    for marks in with_days {
        series += one_if(marks[at]);
    }
    series
}

/// Nothing counted yet, by element.
pub(crate) fn no_counts() -> [ElementCounts; 5]
    ensures { AllZip IsEmpty result elements }
{
    [
        ElementCounts::new(Element::Prcp),
        ElementCounts::new(Element::Snow),
        ElementCounts::new(Element::Snwd),
        ElementCounts::new(Element::Tmax),
        ElementCounts::new(Element::Tmin),
    ]
}

/// An element's place among the five.
pub(crate) fn place_of(element: Element) -> usize
    ensures { result ≡ element_index element }
{
    match element {
        Element::Prcp => 0,
        Element::Snow => 1,
        Element::Snwd => 2,
        Element::Tmax => 3,
        Element::Tmin => 4,
    }
}

/// One if it is so, and otherwise nothing.
fn one_if(so: bool) -> u64
    ensures { result ≡ (if so then 1 else 0) }
{
    so as u64
}

/// The first and the last usable day of a month, if it has one.
fn span_of(row: &MonthRow) -> Option<Span>
    requires { IsOfMonth true row.now }
    ensures { OfMonth true row.now (λ m. IsSpan (days_of_month m) result) }
{
    let last = row.word.checked_ilog2()?;
    let low = row.word.trailing_zeros();
    let first = day_at(row, low)?;
    Some(Span {
        first,
        last: day_behind(first, last - low)?,
    })
}

/// The day of a month at a place, from 0.
fn day_at(row: &MonthRow, place: u32) -> Option<Day>
    requires { place < 32 }
    ensures { result ≡ day_number row.now.year row.now.month (place + 1) }
{
    Day::of(row.year, row.month, place as u8 + 1)
}

/// The day that many days after one.
fn day_behind(day: Day, days: u32) -> Option<Day>
    requires { days < 32 }
    ensures { result ≡ day_if (day +ℤ pos days) }
{
    Day::with_number(day.number() + days as i32)
}

/// The first and the last of the days of both.
fn joined(one: Option<Span>, other: Option<Span>) -> Option<Span>
    ensures { (days more : List ℤ) → IsSpan days one → IsSpan more other → IsSpan (days ++ more) result }
{
    match (one, other) {
        (Some(one), Some(other)) => Some(Span {
            first: earlier(one.first, other.first),
            last: later(one.last, other.last),
        }),
        (one, None) => one,
        (None, other) => other,
    }
}

/// The earlier of two days.
fn earlier(one: Day, other: Day) -> Day
    ensures { result ≡ int_min one other }
{
    if other.number() < one.number() {
        other
    } else {
        one
    }
}

/// The later of two days.
fn later(one: Day, other: Day) -> Day
    ensures { result ≡ int_max one other }
{
    if other.number() < one.number() {
        one
    } else {
        other
    }
}
