//! A candidate and its place in the order.

ghost use Rattle.std.specs.Prelude.{◌≡◌};
ghost use Rattle.std.proofs.Common.{rules};
ghost use Rattle.std.specs.Cmp.{partial_order_from_own_ties, partial_order_from_total};
ghost use Rattle.std.specs.Cmp.Rules.{comparing};
ghost use Rattle.std.specs.Cmp.Lexicographic.{slice_cmp};
ghost use Rattle.std.specs.Ordering.{as_partial_cmp, nat_cmp, int_cmp, on, then_cmp};
ghost use Rattle.rank_scores.specs.Meaning.Order as meaning;
ghost use Rattle.rank_scores.specs.Order as order;

use ghcn_fields::Day;
use ghcn_files::StationId;
use std::cmp::Ordering;

/// A possible record: some days of a station, and their score.
///
/// Candidates are ordered as they are listed: by greater score, then smaller ID, then earlier first
/// day, and by the last day if these are equal.
#[derive(Clone, Copy, Debug, PartialEq, Eq)]
pub struct Candidate {
    pub id: StationId,
    pub first: Day,
    pub last: Day,
    /// In the raw unit of the data, or in days for spells; negated if the lowest are ranked.
    pub score: i64,
}

impl Ord for Candidate {
    ghost cmp = { order.full_cmp };

    ghost total = { Prim.search (comparing, rules) };

    ghost matches_partial_cmp = { Prim.search (comparing, rules) };

    ghost matches_eq = { Prim.search (comparing, rules) };

    #[inline]
    fn cmp(&self, other: &Candidate) -> Ordering {
        // Most pairs differ in score, and then nothing else is read.
        if self.score != other.score {
            return other.score.cmp(&self.score);
        }
        tie_cmp(self, other).then(self.last.cmp(&other.last))
    }
}

impl PartialOrd for Candidate {
    ghost partial_cmp = { as_partial_cmp order.full_cmp };

    ghost laws = { partial_order_from_own_ties
        (partial_order_from_total {R = order.full_cmp} (Prim.search (comparing, rules)))
        (Prim.search (comparing, rules)) };

    #[inline]
    fn partial_cmp(&self, other: &Candidate) -> Option<Ordering> {
        Some(self.cmp(other))
    }
}

/// Whether `a` comes before `b`: by greater score, then smaller ID, then earlier first day.
#[inline]
pub fn precedes(a: &Candidate, b: &Candidate) -> bool
    ensures { result ≡ meaning.precedes a.now b.now }
{
    rank_cmp(a, b).is_lt()
}

/// Whether there is a score, and the bound is strictly below it.
#[inline]
pub fn bound_is_below(score: Option<i64>, bound: i64) -> bool
    ensures { result ≡ order.bound_is_below score bound }
{
    match score {
        Some(score) => bound < score,
        None => false,
    }
}

/// The order by score, ID and first day, which is what ranks candidates of one query.
#[inline]
fn rank_cmp(a: &Candidate, b: &Candidate) -> Ordering
    ensures { result ≡ meaning.rank_cmp a.now b.now }
{
    // Most pairs differ in score, and then no byte of an ID is read.
    if a.score != b.score {
        return b.score.cmp(&a.score);
    }
    tie_cmp(a, b)
}

/// The order of candidates with one score, by ID and first day.
// It isn't built into the loops that compare scores.
#[inline(never)]
fn tie_cmp(a: &Candidate, b: &Candidate) -> Ordering
    ensures { result ≡ then_cmp (on (λ c. c.id.0) (slice_cmp nat_cmp)) (on (λ c. c.first) int_cmp) a.now b.now }
{
    // Days of one station come one after another, and then no byte is compared alone.
    if a.id.is_same(&b.id) {
        return a.first.cmp(&b.first);
    }
    a.id.cmp(&b.id).then(a.first.cmp(&b.first))
}
