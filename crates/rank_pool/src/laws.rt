//! What is true of pools, as laws over the definitions.

ghost use Rattle.rank_pool.specs.Laws as laws;

/// If a pool holds the first k of all that it was offered, it still does after one more offer, after many, and
/// after a merge. It keeps its size, and the score of its last place is the k-th score.
pub fn pools_hold_the_first()
    ensures one { laws.HoldsOneMore }
    ensures all { laws.HoldsAllOffered }
    ensures size { laws.KeepsItsSize }
    ensures merged { laws.HoldsMerged }
    ensures last { laws.LastIsKth }
{}

/// The first k don't depend on the order in which candidates are listed. They stay the same without those that
/// aren't among the first k of a list, and without those that don't score above a number if k others do.
pub fn first_are_the_same()
    ensures order { laws.OneOrder }
    ensures first { laws.FirstOfFirst }
    ensures low { laws.LowStayOut }
{}

/// A number is strictly below the k-th score if and only if k or more candidates score above it. If no two
/// candidates of a station begin on one day, the first in order are the best by rank.
pub fn scores_tell_places()
    ensures below { laws.BelowKth }
    ensures best { laws.BestAreFirst }
    ensures kth { laws.KthByRank }
{}
