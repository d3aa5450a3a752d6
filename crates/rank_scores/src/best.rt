//! The best of some candidates, found by putting them in order.

ghost use Rattle.std.specs.Prelude.{◌≡◌, ℕ, suc, take, IfOk, slice_get};
ghost use Rattle.std.specs.Option.{option_map};
ghost use Rattle.std.specs.List.Sorted.{IsPermutation};
ghost use Rattle.rank_scores.specs.Order.{AreApart, best, kth_score};

use crate::Candidate;
use ghcn_fields::Memory;

/// The candidates in order, so that the best k are the first k, for every k.
///
/// No two of them may begin on one day at one station. Candidates of a query never do.
pub fn best_first(mut candidates: Vec<Candidate>) -> Result<Vec<Candidate>, Memory>
    requires { AreApart candidates.items }
    ensures all { IfOk result (λ listed. IsPermutation candidates.items listed.items) }
    ensures best { IfOk result (λ listed. (k : ℕ) → best k candidates.items ≡ take k listed.items) }
    ensures kth { IfOk result (λ listed. (rank : ℕ) → kth_score (suc rank) candidates.items
        ≡ option_map (λ c. c.score) (slice_get listed.items rank)) }
{
    candidates.sort()?;
    Ok(candidates)
}
