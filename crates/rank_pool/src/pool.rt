//! A pool of the best candidates.

ghost use Rattle.std.specs.Prelude.{◌≡◌, ◌↔◌, ◌<◌, ◌≤◌, ◌++◌, List, [], ◌∷◌, length, insert, fold, IfOk, IsSome};
ghost use Rattle.std.specs.Prelude.{◌+◌, false, slice_get, slice_index_or, take, IfSome, IsTrue};
ghost use Rattle.std.specs.Option.{option_map};
ghost use Rattle.std.specs.VecDeque.{deque_len, deque_capacity};
ghost use Rattle.ghcn_fields.specs.Sorting.{placed};
ghost use Rattle.rank_scores.specs.declared.candidate.Candidate as made;
ghost use Rattle.rank_scores.specs.Order.{AreApart, kth_score};
ghost use Rattle.rank_pool.specs.First.{comes_first, in_order, first, kth};
ghost use Rattle.rank_pool.specs.Pools as pools;

use ghcn_fields::Memory;
use rank_scores::{Candidate, FloorSink, Sink};
use std::alloc::Global;
use std::collections::VecDeque;
use std::marker::Model;

/// The best candidates of all that were offered, up to a number of places.
#[derive(Drop)]
pub struct Pool {
    /// The best first: if each is better than all before, both ends change and nothing moves.
    held: VecDeque<Candidate>,
    size: usize,
    /// The score of the last place, once each place is taken.
    last: Option<i64>,
}

impl Model for Pool {
    ghost use Rattle.rank_pool.specs.Pools.{Pool, IsPool, last_score};
    ghost use Rattle.std.specs.Prelude.{◌≡◌, ◌<◌};
    ghost use Rattle.std.specs.VecDeque.{deque_capacity};

    ghost Value = { Pool };

    ghost view = { λ p. record { size = p.size; held = p.held.items } };

    ghost invariant = { λ p. IsPool (record { size = p.size; held = p.held.items })
        × (p.last ≡ last_score (record { size = p.size; held = p.held.items })) × (p.size < deque_capacity p.held) };
}

impl Pool {
    /// An empty pool with this many places, 1 to 1000. No later call takes memory.
    pub fn new(alloc: Global, k: u64) -> Result<Pool, Memory>
        requires some { 0 < k }
        requires few { k ≤ 1000 }
        ensures { IfOk result (λ pool. pool ≡ pools.empty_pool k) }
    {
        let size = k as usize;
        // One more place, for a candidate that pushes out the last.
        let held = VecDeque::with_capacity(alloc, size + 1)?;
        Ok(Pool {
            held,
            size,
            last: None,
        })
    }

    /// The score of the last place, if each place is taken: the k-th score of all offered.
    #[inline]
    pub fn kth(&self) -> Option<i64>
        ensures last { result ≡ pools.last_score self.now }
        ensures full { IsSome result ↔ (length self.now.held ≡ self.now.size) }
        ensures all { (xs : List made.Candidate) → pools.HoldsFirst self.now xs → result ≡ kth self.now.size xs }
        ensures ranked { (xs : List made.Candidate) → AreApart xs → pools.HoldsFirst self.now xs →
            result ≡ kth_score self.now.size xs }
    {
        self.last
    }

    /// Takes all that another pool of as many places holds.
    pub fn merge(&mut self, other: Pool)
        requires { other.size ≡ self.old.size }
        ensures taken { self.new ≡ fold pools.taken self.old other.held }
        ensures all { (xs ys : List made.Candidate) → pools.HoldsFirst self.old xs → pools.HoldsFirst other ys →
            pools.HoldsFirst self.new (xs ++ ys) }
    {
        let theirs = other.into_sorted();
        for candidate in theirs.as_slice() {
            self.offer(*candidate);
        }
    }

    /// The candidates, the best first.
    pub fn into_sorted(self) -> Vec<Candidate>
        ensures held { result.items ≡ self.held }
        ensures order { in_order result.items ≡ result.items }
    {
        self.held.into_vec()
    }

    /// Whether a candidate scores more than the best one that is held.
    #[inline]
    fn is_outdone_by(&self, candidate: &Candidate) -> bool
        ensures { IsTrue result →
            (placed comes_first candidate.now self.now.held ≡ candidate.now ∷ self.now.held) }
    {
        match self.held.front() {
            Some(best) => best.score < candidate.score,
            None => false,
        }
    }

    /// Puts a candidate before all others, if each place is taken, and drops the last one.
    #[inline]
    fn lead(&mut self, candidate: Candidate)
        requires full { length self.old.held ≡ self.old.size }
        requires first { placed comes_first candidate self.old.held ≡ candidate ∷ self.old.held }
        ensures { self.new ≡ pools.taken self.old candidate }
    {
        let _ = self.held.pop_back();
        // The last one left its place, so this isn't refused.
        let _ = self.held.push_front(candidate);
        let place = self.size - 1;
        self.last = score_at(&self.held, place);
    }

    /// Puts a candidate at its place, and drops the candidate that then comes after the last place.
    #[inline(never)]
    fn place(&mut self, candidate: Candidate)
        ensures { self.new ≡ pools.taken self.old candidate }
    {
        let place = place_of(&self.held, &candidate);
        // A place was reserved, so this isn't refused.
        let _ = self.held.insert(place, candidate);
        cut(&mut self.held, self.size);
        self.last = score_at(&self.held, self.size - 1);
    }
}

impl Sink for Pool {
    ghost use Rattle.rank_pool.specs.Pools as pools;

    ghost taken = { pools.taken };

    #[inline(always)]
    fn offer(&mut self, candidate: Candidate)
        ensures taken { self.new ≡ pools.taken self.old candidate }
        ensures all { (xs : List made.Candidate) → pools.HoldsFirst self.old xs →
            pools.HoldsFirst self.new (xs ++ candidate ∷ []) }
    {
        match self.last {
            // Of a long series most candidates end here.
            Some(last) if candidate.score < last => {}
            Some(_) if self.is_outdone_by(&candidate) => self.lead(candidate),
            _ => self.place(candidate),
        }
    }
}

impl FloorSink for Pool {
    ghost use Rattle.rank_pool.specs.Pools.{IsFloor};

    ghost is_floor = { IsFloor };

    /// The score of the last place, if each place is taken.
    #[inline(always)]
    fn floor(&self) -> Option<i64>
        ensures last { result ≡ pools.last_score self.now }
        ensures floor { IfSome result (λ floor. pools.IsFloor self.now floor) }
    {
        self.last
    }

    /// What scores less than the last place falls out, and leaves the pool as it is.
    #[inline(always)]
    fn pass_over(&mut self, _floor: i64, _count: u32) {}
}

/// The place of a candidate among those in order: before the first that it isn't listed after.
fn place_of(held: &VecDeque<Candidate>, candidate: &Candidate) -> usize
    requires { in_order held.now.items ≡ held.now.items }
    ensures within { result ≤ deque_len held.now }
    ensures placed { insert held.now.items result candidate.now ≡ placed comes_first candidate.now held.now.items }
{
    let (Some(best), Some(last)) = (held.front(), held.back()) else {
        return 0;
    };
    // Scores that rise, or stay as they are, need no search.
    if candidate <= best {
        0
    } else if last < candidate {
        held.len()
    } else if candidate.score == best.score {
        place_near_front(held, candidate)
    } else {
        held.partition_point(|it| it < candidate)
    }
}

/// The place of a candidate that is listed after the first one, and probably not far after it.
///
/// If scores rise, few of the candidates that are held tie with the new one. A step is as wide as the distance from
/// the place at which the search began, but never wider than half of what is left.
fn place_near_front(held: &VecDeque<Candidate>, candidate: &Candidate) -> usize
    requires order { in_order held.now.items ≡ held.now.items }
    requires behind { comes_first candidate.now (slice_index_or held.now.items 0 candidate.now) ≡ false }
    ensures within { result ≤ deque_len held.now }
    ensures placed { insert held.now.items result candidate.now ≡ placed comes_first candidate.now held.now.items }
{
    let mut low = 1;
    let mut high = held.len();
    while low < high {
        let middle = low + (low - 1).min((high - low) / 2);
        if held[middle] < *candidate {
            low = middle + 1;
        } else {
            high = middle;
        }
    }
    low
}

/// Drops the last of some candidates, if there is one more than there are places.
fn cut(held: &mut VecDeque<Candidate>, size: usize)
    requires { deque_len held.old ≤ size + 1 }
    ensures items { held.new.items ≡ take size held.old.items }
    ensures capacity { deque_capacity held.new ≡ deque_capacity held.old }
{
    if held.len() > size {
        let _ = held.pop_back();
    }
}

/// The score at a place, if it is taken.
fn score_at(held: &VecDeque<Candidate>, place: usize) -> Option<i64>
    ensures { result ≡ option_map (λ c. c.score) (slice_get held.now.items place) }
{
    let candidate = held.get(place)?;
    Some(candidate.score)
}
