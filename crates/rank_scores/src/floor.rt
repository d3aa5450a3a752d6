//! Sinks that take low candidates by their number, and the blocks of days that have no others.

ghost use Rattle.std.specs.Prelude.{◌≡◌, true, false};
ghost use Rattle.std.specs.List.{fold};
ghost use Rattle.ghcn_files.specs.declared.station.StationId.{StationId};
ghost use Rattle.rank_scores.specs.Candidates.{contenders_among};
ghost use Rattle.rank_scores.specs.Meaning.Candidates as meaning;
ghost use Rattle.rank_scores.specs.Extremes.{score_by};

use crate::extreme::Extreme;
use crate::{Candidate, Sink};
use ghcn_series::BlockDays;

/// A sink that needs only the number of candidates that score below its floor.
pub trait FloorSink: Sink {
    ghost use Rattle.std.specs.Prelude.{◌≡◌, ℤ, ◌<ℤ◌, List, length, IfSome};
    ghost use Rattle.std.specs.List.{AllByRecursion, fold};
    ghost use Rattle.rank_scores.specs.declared.candidate.Candidate.{Candidate};

    /// Of candidates that score less than this the number alone counts.
    ghost is_floor: { Self → ℤ → Type 0 };

    /// A score, if there is one, below which the number of candidates alone counts.
    fn floor(&self) -> Option<i64>
        ensures { IfSome result (λ floor. is_floor self.now floor) };

    /// Takes that many candidates that score less than this floor.
    fn pass_over(&mut self, floor: i64, count: u32)
        requires { is_floor self.old floor }
        ensures { (candidates : List Candidate) → AllByRecursion (λ c. c.score <ℤ floor) candidates
            → length candidates ≡ count → self.new ≡ fold Self.taken self.old candidates };
}

/// A sink as one that has no floor, so each candidate is offered to it.
///
/// It could do without the candidates below a score only if its own sink ignored them, and that isn't known.
#[derive(Drop)]
pub(crate) struct Floorless<'s, S> {
    pub(crate) sink: &'s mut S,
}

impl<'s, S: Sink> Sink for Floorless<'s, S> {
    ghost use Rattle.rank_scores.specs.Floorless.{offered_to};

    ghost taken = { offered_to S.taken };

    #[inline(always)]
    fn offer(&mut self, candidate: Candidate) {
        self.sink.offer(candidate);
    }
}

impl<'s, S: Sink> FloorSink for Floorless<'s, S> {
    ghost use Rattle.rank_scores.specs.Floorless.{IgnoresBelow};

    ghost is_floor = { IgnoresBelow S.taken };

    #[inline(always)]
    fn floor(&self) -> Option<i64> {
        None
    }

    #[inline(always)]
    fn pass_over(&mut self, _floor: i64, _count: u32) {}
}

/// Whether no day of a part scores as much as the sink's floor. Then the sink is given the number of
/// these days alone.
#[inline(always)]
pub(crate) fn is_passed_over<S: FloorSink>(part: &BlockDays, extreme: Extreme, sink: &mut S) -> bool
    ensures passed { (id : StationId) → result ≡ true →
        sink.new ≡ fold S.taken sink.old (contenders_among id (meaning.Days (score_by extreme)) part.now) }
    ensures kept { result ≡ false → sink.new ≡ sink.old }
{
    let Some(floor) = sink.floor() else {
        return false;
    };
    if extreme.may_reach(part, floor) {
        return false;
    }
    sink.pass_over(floor, part.len());
    true
}
