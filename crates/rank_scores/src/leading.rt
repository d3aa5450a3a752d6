//! A sink that holds the best contender of the group that is open.

ghost use Rattle.std.specs.Prelude.{◌≡◌, None};
ghost use Rattle.rank_scores.specs.Leading as leading;

use crate::{Candidate, Sink, precedes};
use ghcn_fields::Day;
use rank_query::Per;

/// The number of 9999-12-31.
const LAST: i32 = 2_932_896;

/// A group that contenders may still be added to.
#[derive(Clone, Copy)]
pub(crate) struct Open {
    pub(crate) best: Candidate,
    /// The last day on which a contender of the group can begin.
    end: Day,
}

/// Passes on the best contender of each group, once one of another group comes.
///
/// Contenders of a group come one after another, since they come by first day and belong to one station.
pub(crate) struct Leading<'s, S> {
    pub(crate) per: Per,
    pub(crate) group: Option<Open>,
    pub(crate) sink: &'s mut S,
}

impl<'s, S> Leading<'s, S> {
    /// No group is open.
    pub(crate) fn of(per: Per, sink: &'s mut S) -> Self
        ensures same_sink { result.sink.ghost_name ≡ sink.entry.ghost_name }
        ensures group { result.group ≡ None }
        ensures sink { result.sink.now ≡ sink.old }
        ensures per { result.per ≡ per }
    {
        Leading {
            per,
            group: None,
            sink,
        }
    }
}

impl<'s, S: Sink> Sink for Leading<'s, S> {
    ghost use Rattle.rank_scores.specs.Leading.{leading_with};

    ghost taken = { leading_with S.taken };

    #[inline]
    fn offer(&mut self, candidate: Candidate) {
        match self.group {
            Some(open) if candidate.first.number() <= open.end.number() => {
                if precedes(&candidate, &open.best) {
                    self.group = Some(Open {
                        best: candidate,
                        end: open.end,
                    });
                }
            }
            Some(open) => {
                self.sink.offer(open.best);
                self.group = Some(Open::of(self.per, candidate));
            }
            None => self.group = Some(Open::of(self.per, candidate)),
        }
    }
}

impl Open {
    /// The group of a contender, of which it is the first.
    fn of(per: Per, candidate: Candidate) -> Self
        ensures { result ≡ leading.opened per candidate }
    {
        Open {
            best: candidate,
            end: group_end(per, candidate.first),
        }
    }
}

/// The last day on which a contender of the group of a first day can begin.
fn group_end(per: Per, first: Day) -> Day
    ensures { result ≡ leading.group_end per first }
{
    match per {
        Per::Each => first,
        Per::Station => Day::numbered(LAST),
        Per::Year => last_of_year(first),
    }
}

/// 31 December of the year of a day.
fn last_of_year(day: Day) -> Day
    ensures { result ≡ leading.last_of_year day }
{
    let (year, _, _) = day.civil();
    Day::of(year, 12, 31).unwrap_or(day)
}
