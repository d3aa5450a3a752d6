//! What ranks single days.

ghost use Rattle.std.specs.Prelude.{◌≡◌, false, ◌<ℤ◌};
ghost use Rattle.std.specs.List.{AllByRecursion};
ghost use Rattle.rank_scores.specs.Extremes.{score_by};

use ghcn_series::BlockDays;

/// Which end of the values is looked for.
#[derive(Clone, Copy, Debug)]
pub(crate) enum Extreme {
    /// The greatest values.
    Highest,
    /// The least values.
    Lowest,
}

impl Extreme {
    /// The score of a day with this value, which is greater for a better day.
    pub(crate) fn score(self, value: i32) -> i64
        ensures { result ≡ score_by self value }
    {
        match self {
            Extreme::Highest => value as i64,
            Extreme::Lowest => -(value as i64),
        }
    }

    /// Whether one of some days may score as much as a floor.
    #[inline(always)]
    pub(crate) fn may_reach(self, days: &BlockDays, floor: i64) -> bool
        ensures { result ≡ false → AllByRecursion (λ x. score_by self x.1 <ℤ floor) days.now }
    {
        let Ok(floor) = i32::try_from(floor) else {
            return true;
        };
        let mut reaching = days.again();
        match self {
            Extreme::Highest => reaching.keep_from(floor),
            Extreme::Lowest => match 1_i32.checked_sub(floor) {
                Some(limit) => reaching.keep_below(limit),
                None => return true,
            },
        }
        !reaching.is_empty()
    }
}
