//! The blocks of a period.

ghost use Rattle.std.specs.Prelude.{◌≡◌};
ghost use Rattle.ghcn_fields.specs.Days.{IsBlock};
ghost use Rattle.rank_blocks.specs.Reached.{in_range, IsRangeOf};

use crate::window::Window;
use rank_query::Query;

/// The block of 0001-01-01.
const FIRST_BLOCK: i32 = -22_474;

/// The block of 9999-12-31.
const LAST_BLOCK: i32 = 91_653;

/// The blocks that hold a day of a period.
#[derive(Clone, Copy, Debug)]
pub(crate) struct BlockRange {
    pub(crate) first: i32,
    pub(crate) last: i32,
}

impl BlockRange {
    /// The blocks of the query's period, or of the calendar if it has none.
    pub(crate) fn of(query: &Query) -> Self
        ensures range { IsRangeOf result query.now }
        ensures first_block { IsBlock result.first }
        ensures last_block { IsBlock result.last }
    {
        match query.period() {
            None => BlockRange {
                first: FIRST_BLOCK,
                last: LAST_BLOCK,
            },
            Some((first, last)) => BlockRange {
                first: first.block(),
                last: last.block(),
            },
        }
    }

    /// Whether it has the block of this number.
    pub(crate) fn holds(self, number: i32) -> bool
        ensures { result ≡ in_range self number }
    {
        self.first <= number && number <= self.last
    }

    /// That many blocks from its last one on.
    pub(crate) fn last_window(self, width: u32) -> Window
        ensures first { result.first ≡ self.last }
        ensures width { result.width ≡ width }
    {
        Window {
            first: self.last,
            width,
        }
    }
}
