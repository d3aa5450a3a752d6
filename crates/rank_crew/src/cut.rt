//! How places are cut into parts, so that each part has its share of what there is to measure.

ghost use Rattle.std.specs.Prelude.{◌≤◌};

use crate::places::Places;

/// The last of some places, which one worker measures.
#[derive(Clone, Copy)]
pub(crate) struct LastPart {
    /// The first of them.
    pub(crate) from: u64,
    /// What they weigh, or 2^64 - 1 if it is more.
    pub(crate) weight: u64,
}

/// Cuts off the last of the places before one, as many as weigh a share, as nearly as whole places
/// allow.
pub(crate) fn cut<P: Places>(places: &P, to: u64, share: u64) -> LastPart
    ensures { result.from ≤ to }
{
    let mut weight: u64 = 0;
    for place in (0..to).rev() {
        let more = places.weight(place);
        if weight.saturating_add(more / 2) >= share {
            return LastPart {
                from: place + 1,
                weight,
            };
        }
        weight = weight.saturating_add(more);
    }
    LastPart { from: 0, weight }
}

/// What the places before one weigh, or 2^64 - 1 if it is more.
pub(crate) fn weight_of<P: Places>(places: &P, to: u64) -> u64 {
    let mut all: u64 = 0;
    for place in 0..to {
        all = all.saturating_add(places.weight(place));
    }
    all
}
