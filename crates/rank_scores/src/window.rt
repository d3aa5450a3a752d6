//! Windows: that many consecutive days, each admitted and usable.

ghost use Rattle.std.specs.Prelude.{◌≡◌, ◌<◌, ◌≤◌, ◌+◌, ◌%◌, FitsSigned, IsTrue, true, false, not, length};
ghost use Rattle.std.specs.Prelude.{◌+ℤ◌, ◌-ℤ◌, pos, set, get_or};
ghost use Rattle.std.specs.Int.{w64};
ghost use Rattle.std.specs.List.{fold};
ghost use Rattle.std.specs.Ordering.{int_eq};
ghost use Rattle.ghcn_fields.specs.Meaning.Days.{is_day};
ghost use Rattle.ghcn_files.specs.Meaning.Elements.{may_be_negative};
ghost use Rattle.rank_scores.specs.Candidates.{contenders_among};
ghost use Rattle.rank_scores.specs.Meaning.Candidates as meaning;
ghost use Rattle.rank_scores.specs.Windows.{begun_anew_unless, with_value, first_value, without_first, next_place};
ghost use Rattle.rank_scores.specs.Windows.{sum, TakesLow};

use crate::admitted::Admitted;
use crate::floor::FloorSink;
use crate::{Candidate, Sink};
use ghcn_fields::Day;
use ghcn_files::{Element, StationId};
use ghcn_series::Series;
use rank_query::Query;

/// How many values the ring of a window has places for: no window has as many days.
const PLACES: usize = 512;

/// Days one after another, with the sum of their values, which are kept in a ring. The ring isn't a
/// part of it, so that its numbers stay in registers.
#[derive(Drop)]
struct Window {
    /// The place of the first day's value.
    first: usize,
    len: usize,
    total: i64,
}

impl Window {
    /// No day.
    fn empty() -> Self
        ensures { result ≡ record { first = 0; len = 0; total = pos 0 } }
    {
        Window {
            first: 0,
            len: 0,
            total: 0,
        }
    }

    /// The same window if the day that comes has this number, otherwise one without a day.
    #[inline(always)]
    fn go_on(&mut self, next: i32, day: Day)
        ensures { self.new ≡ begun_anew_unless (int_eq day next) self.old }
    {
        if day.number() == next {
            return;
        }
        self.len = 0;
        self.total = 0;
    }

    /// Takes in the day that comes next, by its value.
    #[inline(always)]
    fn take_in(&mut self, ring: &mut [i32; PLACES], value: i32)
        requires first { self.now.first < 512 }
        requires len { self.now.len < 512 }
        requires total { FitsSigned w64 (self.now.total +ℤ value) }
        ensures window { self.new ≡ with_value self.old value }
        ensures ring { ring.new ≡ set ring.old (next_place self.old) value }
    {
        ring[(self.first + self.len) % PLACES] = value;
        self.len += 1;
        self.total += value as i64;
    }

    /// Takes the first day off.
    #[inline(always)]
    fn leave(&mut self, ring: &[i32; PLACES])
        requires first { self.now.first < 512 }
        requires len { 0 < self.now.len }
        requires total { FitsSigned w64 (self.now.total -ℤ first_value ring.now self.now) }
        ensures { self.new ≡ without_first ring.now self.old }
    {
        self.total -= ring[self.first] as i64;
        self.first = (self.first + 1) % PLACES;
        self.len -= 1;
    }
}

/// The first of that many days of which this is the last.
fn first_of(last: Day, days: u16) -> Day
    requires { IsTrue (is_day (last +ℤ pos 1 -ℤ pos days)) }
    ensures { result ≡ last +ℤ pos 1 -ℤ pos days }
{
    Day::numbered(last.number() + 1 - days as i32)
}

/// Offers each window of `n` days, with a sum that goes along, except for those that end in a row of days and of which
/// none can reach the sink's floor: of these the sink is given the number alone.
#[inline(never)]
pub(crate) fn scan_windows<S: FloorSink>(
    id: StationId,
    series: &Series,
    query: &Query,
    n: u16,
    sink: &mut S,
)
    requires some { 0 < n }
    requires few { n ≤ 366 }
    ensures { sink.new ≡ fold S.taken sink.old
        (contenders_among id (meaning.Windows n) (meaning.admitted query.now series.now)) }
{
    let only_rises = has_no_negative(series.element());
    let whole = n as usize;
    let mut window = Window::empty();
    let mut ring = [0; PLACES];
    // The number of the day that goes on with the window.
    let mut next = 0;
    let mut admitted = Admitted::of(series, query);
    while let Some(mut part) = admitted.next_part() {
        while let Some(row) = part.next_row() {
            let (first, values) = row;
            window.go_on(next, first);
            next = first.number() + values.len() as i32;
            let mut from = 0;
            if is_row_passed_over(only_rises, &window, values, n, sink) {
                // No window that is still to come has a day before the last n - 1.
                window = Window::empty();
                from = values.len() + 1 - whole;
            }
            for place in from..values.len() {
                window.take_in(&mut ring, values[place]);
                if window.len == whole {
                    let last = Day::numbered(first.number() + place as i32);
                    sink.offer(Candidate {
                        id,
                        first: first_of(last, n),
                        last,
                        score: window.total,
                    });
                    window.leave(&ring);
                }
            }
        }
    }
}

/// Whether no value of an element is negative, so that no window has a greater total than days that it lies within.
fn has_no_negative(element: Element) -> bool
    ensures { result ≡ not (may_be_negative element) }
{
    match element {
        Element::Tmax | Element::Tmin => false,
        Element::Prcp | Element::Snow | Element::Snwd => true,
    }
}

/// Whether the row of days that comes after a window is as long as a window without one day, no value is negative, and
/// the total of all these days is below the sink's floor. Then the sink is given the number of windows of `n` days that
/// end in the row.
#[inline(always)]
fn is_row_passed_over<S: FloorSink>(
    only_rises: bool,
    window: &Window,
    values: &[i32],
    n: u16,
    sink: &mut S,
) -> bool
    requires len { window.now.len < n }
    requires few { n ≤ 366 }
    requires row { length values.now ≤ 32 }
    requires total { FitsSigned w64 (window.now.total +ℤ sum values.now) }
    ensures passed { result ≡ true → TakesLow S.taken n window.now values.now sink.old sink.new }
    ensures rises { result ≡ true → only_rises ≡ true }
    ensures long { result ≡ true → n ≤ length values.now + 1 }
    ensures kept { result ≡ false → sink.new ≡ sink.old }
{
    if !only_rises || values.len() + 1 < n as usize {
        return false;
    }
    let Some(floor) = sink.floor() else {
        return false;
    };
    if window.total + sum_of(values) >= floor {
        return false;
    }
    sink.pass_over(floor, (window.len + values.len() + 1 - n as usize) as u32);
    true
}

/// The sum of the values of a row of days.
#[inline(always)]
fn sum_of(values: &[i32]) -> i64
    requires { length values.now ≤ 32 }
    ensures { result ≡ sum values.now }
{
    let mut sum = 0;
    for value in values {
        sum += *value as i64;
    }
    sum
}
