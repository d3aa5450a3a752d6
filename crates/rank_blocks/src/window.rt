//! Blocks in a row.

ghost use Rattle.std.specs.Prelude.{◌≡◌, pos, ◌+ℤ◌, int_le};
ghost use Rattle.rank_blocks.specs.Blocks.{is_among_blocks};

use crate::summary::Summary;

/// That many blocks in a row.
#[derive(Clone, Copy, Debug)]
pub(crate) struct Window {
    pub(crate) first: i32,
    pub(crate) width: u32,
}

impl Window {
    /// Whether the block of a summary is one of them.
    pub(crate) fn holds(self, block: &Summary) -> bool
        ensures { result ≡ is_among_blocks self.first self.width block.now.number }
    {
        self.first <= block.number && !self.is_before(block)
    }

    /// Whether the block of a summary comes after them.
    pub(crate) fn is_before(self, block: &Summary) -> bool
        ensures { result ≡ int_le (self.first +ℤ pos self.width) block.now.number }
    {
        self.first as i64 + self.width as i64 <= block.number as i64
    }
}
