//! What the table of a board knows of each seat, and the rule that it keeps.

ghost use Rattle.std.specs.Prelude.{ℕ, ℤ, List};
ghost use Rattle.std.specs.Borrow.{ftrue};

use atomic_table::TableRule;
use std::marker::Model;

/// The word of the number that the next claim draws, from 0.
pub(crate) const NEXT: usize = 0;

/// The word of the floor.
pub(crate) const FLOOR: usize = 1;

/// What a seat knows: its claims, the scores that it raised and saw, and its rights left.
///
/// It is used in proofs alone, and no value of it is made.
pub struct View {
    pub ghost claims: { List ℕ },
    pub ghost raised: { List ℤ },
    pub ghost seen: { List ℤ },
    pub ghost rights: { ℕ },
}

impl Model for View {
    ghost also_owns = { λ _. ftrue };
}

/// What a board was opened with.
#[derive(Drop)]
pub struct Opening {
    pub rights: u64,
    pub guess: Option<i64>,
}

/// The rule of a board, which holds between any two steps of its seats.
pub struct BoardRule;

impl TableRule<(), View, Opening> for BoardRule {
    ghost use Rattle.rank_board.specs.Rule.{Keeps, first_view};

    ghost holds = { Keeps };

    ghost first = { first_view };
}
