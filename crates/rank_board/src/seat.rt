//! A seat: the right to claim numbers of one board, and what its holder knows.

use crate::rule::View;

/// The right to claim numbers of one board, which one thread holds at a time.
///
/// Contracts see its claims, the scores that it raised and saw, and its rights left.
#[derive(Drop)]
pub struct Seat {
    pub(crate) inner: atomic_table::Seat<(), View>,
    pub(crate) left: u64,
}

impl Seat {
    ghost use Rattle.std.specs.Prelude.{◌≡◌};
    ghost use Rattle.rank_board.specs.Seats.{rights_of};

    /// How many numbers the seat may still claim, at most 2^40.
    pub fn rights(&self) -> u64
        ensures { result ≡ rights_of self.now }
    {
        self.left
    }
}
