//! The kinds of step of a seat, each named for what it does to the view.

ghost use Rattle.std.specs.Prelude.{ℕ};

use crate::rule::View;
use atomic_table::{Join, Play, Split};
use std::marker::{Brand, PhantomData};

/// A number that a step has to know, in its proof alone. A call at `Brand` picks it.
pub(crate) trait Number {
    ghost number: { ℕ };
}

impl Number for Brand {
    ghost number = { 0 };
}

/// A claim on a board that was opened with this number of rights.
pub(crate) struct Claim<Rights> {
    rights: PhantomData<Rights>,
}

impl<Rights: Number> Play<(), View> for Claim<Rights> {
    ghost use Rattle.rank_board.specs.Steps.{claim_step};

    ghost then = { claim_step Rights.number };
}

/// A look at the floor.
pub(crate) struct Look;

impl Play<(), View> for Look {
    ghost use Rattle.rank_board.specs.Steps.{look_step};

    ghost then = { look_step };
}

/// A score that the floor is raised to.
pub(crate) struct Raise;

impl Play<(), View> for Raise {
    ghost use Rattle.rank_board.specs.Steps.{raise_step};

    ghost then = { raise_step };
}

/// A load that changes nothing, and shows that the seat's rights are at most those of a board.
pub(crate) struct CountRights;

impl Play<(), View> for CountRights {
    ghost use Rattle.rank_board.specs.Steps.{rights_step};

    ghost then = { rights_step };
}

/// This number of rights goes to a new seat.
pub(crate) struct HandOver<Part> {
    part: PhantomData<Part>,
}

impl<Part: Number> Split<View> for HandOver<Part> {
    ghost use Rattle.rank_board.specs.Steps.{kept_view, handed_view};

    ghost left = { kept_view Part.number };

    ghost right = { handed_view Part.number };
}

/// One seat takes in another, which is spent.
pub(crate) struct TakeIn;

impl Join<View> for TakeIn {
    ghost use Rattle.rank_board.specs.Rule.{spent_view};
    ghost use Rattle.rank_board.specs.Steps.{joined_view};

    ghost both = { joined_view };

    ghost spent = { spent_view };
}
