//! The days of a series that a query admits, one after another.

ghost use Rattle.std.specs.Prelude.{◌≡◌, ◌↔◌, ◌<◌, IsTrue, List, [], ◌∷◌, ◌++◌, length, ℤ, pos, ◌+ℤ◌, ◌≤ℤ◌};
ghost use Rattle.std.specs.Prelude.{IfSome, IfNone};
ghost use Rattle.ghcn_fields.specs.Meaning.Days.{is_day};
ghost use Rattle.ghcn_series.specs.Meaning.Series.{DayValue};
ghost use Rattle.ghcn_series.specs.Series.{IsSeries};
ghost use Rattle.rank_query.specs.Meaning.Admits.{admits_day};
ghost use Rattle.rank_scores.specs.Meaning.Candidates as meaning;
ghost use Rattle.rank_scores.specs.Morsels.{has_admitted};
ghost use Rattle.rank_scores.specs.Stretches.{admitted_among, IsStretch};

use ghcn_fields::Day;
use ghcn_series::{BlockDays, Days, Series};
use rank_query::Query;
use std::marker::Model;

/// The admitted usable days that are still to come, by increasing day, each with its value.
///
/// They come in parts: a caller that goes through one has no more to ask of a day than whether its block has it.
#[derive(Drop)]
pub(crate) struct Admitted<'s, 'q> {
    days: Days<'s>,
    query: &'q Query,
    stretch: Stretch,
}

impl<'s, 'q> Model for Admitted<'s, 'q> {
    ghost use Rattle.std.specs.Prelude.{List};
    ghost use Rattle.ghcn_series.specs.Meaning.Series.{DayValue};
    ghost use Rattle.rank_scores.specs.Stretches.{admitted_among, IsStretch};

    ghost Value = { List DayValue };

    ghost view = { λ a. admitted_among a.query.now a.days };

    ghost invariant = { λ a. IsStretch a.query.now a.days a.stretch };
}

impl<'s, 'q> Admitted<'s, 'q> {
    /// The days of a series that a query admits.
    pub(crate) fn of(series: &'s Series, query: &'q Query) -> Self
        ensures days { result ≡ meaning.admitted query.now series.now }
        ensures series { IsSeries series.now }
    {
        Admitted {
            days: series.days(),
            query,
            stretch: Stretch {
                admitted: false,
                last: i32::MIN,
            },
        }
    }

    /// Takes the first of them, as many as lie in one block and one stretch. If it returns None, no day is left.
    pub(crate) fn next_part(&mut self) -> Option<BlockDays<'s>>
        ensures some { IfSome result (λ part. self.old ≡ part ++ self.new) }
        ensures day { IfSome result (λ part. 0 < length part) }
        ensures none { IfNone result (self.old ≡ []) }
        ensures end { IfNone result (self.new ≡ []) }
    {
        next_part(&mut self.days, self.query, &mut self.stretch)
    }
}

/// Whether the query admits a usable day of the series.
///
/// The query is asked once a month at most, and not once a day.
pub fn has_admitted_day(series: &Series, query: &Query) -> bool
    ensures asked { result ≡ has_admitted query.now series.now }
    ensures series { IsSeries series.now }
{
    Admitted::of(series, query).next_part().is_some()
}

/// Takes the first of some days that are admitted, as many as lie in one block and one stretch, and the days
/// before them. If it returns None, no day is left.
fn next_part<'s>(days: &mut Days<'s>, query: &Query, stretch: &mut Stretch) -> Option<BlockDays<'s>>
    requires { IsStretch query.now days.old stretch.old }
    ensures some { IfSome result (λ part. admitted_among query.now days.old
        ≡ part ++ admitted_among query.now days.new) }
    ensures day { IfSome result (λ part. 0 < length part) }
    ensures none { IfNone result (admitted_among query.now days.old ≡ []) }
    ensures end { IfNone result (admitted_among query.now days.new ≡ []) }
    ensures stretch { IsStretch query.now days.new stretch.new }
{
    while let Some(day) = days.first() {
        stretch.go_on(query, day);
        let part = days.take_to(stretch.last);
        if stretch.admitted {
            return Some(part);
        }
    }
    None
}

/// Whether days are admitted, up to a last one by its number.
#[derive(Clone, Copy)]
pub(crate) struct Stretch {
    admitted: bool,
    last: i32,
}

impl Stretch {
    /// Goes on to the stretch of a day, if the day lies past this one. Days come one after another.
    #[inline(always)]
    fn go_on(&mut self, query: &Query, day: Day)
        ensures on { day ≤ℤ self.new.last }
        ensures alike { (value : ℤ) (rest : List DayValue) → IsStretch query.now ((day, value) ∷ rest) self.old
            → IsStretch query.now ((day, value) ∷ rest) self.new }
    {
        if day.number() > self.last {
            *self = Stretch::of(query, day);
        }
    }

    /// The stretch that a day begins.
    // It is asked for once a month at most, so it isn't built into the loops over days.
    #[inline(never)]
    fn of(query: &Query, day: Day) -> Stretch
        ensures on { day ≤ℤ result.last }
        ensures alike { (d : ℤ) → IsTrue (is_day d) → day ≤ℤ d → d ≤ℤ result.last
            → admits_day query.now d ≡ result.admitted }
    {
        let (admitted, last) = query.admits_from(day);
        Stretch { admitted, last }
    }
}

/// Whether a day is the one after a last day.
pub(crate) fn comes_next(last: Day, day: Day) -> bool
    ensures { IsTrue result ↔ (last +ℤ pos 1 ≡ day) }
{
    day.number() - last.number() == 1
}
