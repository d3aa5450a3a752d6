//! A board of two words: the number that the next claim draws, and the floor.
//!
//! A claim is one fetch_add, a look one load, a raise one fetch_max. No call waits, locks or retries.

ghost use Rattle.std.specs.Prelude.{◌≡◌};

use crate::rule::{BoardRule, FLOOR, NEXT, Opening, View};
use crate::seat::Seat;
use crate::steps::{Claim, CountRights, HandOver, Look, Number, Raise, TakeIn};
use crate::word::{floor_of_word, word_of_score};
use atomic_table::Table;
use ghcn_fields::Memory;
use std::alloc::Global;
use std::marker::Brand;

/// What threads share: the number that the next claim draws, and the floor.
///
/// It keeps the number of rights and the guess that it was opened with. Each call takes a seat of
/// this board.
#[derive(Drop)]
pub struct Board {
    table: Table<(), View, Opening, BoardRule, Global>,
    ghost sized: { (table.shared.table_id.words ≡ 2) × (table.shared.table_id.slots ≡ 0) },
}

/// What a board held when it was closed.
#[derive(Clone, Copy, Debug, PartialEq, Eq)]
pub struct Closed {
    /// How many numbers were claimed.
    pub next: u64,
    /// The greatest of the guess and all scores raised, or `None` if there is neither.
    pub floor: Option<i64>,
}

impl Board {
    ghost use Rattle.std.specs.Prelude.{◌≡◌, ◌^◌, ◌<◌, ◌≤◌, IfOk, IfSome, length};
    ghost use Rattle.ghcn_fields.specs.Floor.{IsScore};
    ghost use Rattle.rank_board.specs.Seats.{opened, claims_of, rights_of, IsSeatOf, IsWhole};
    ghost use Rattle.rank_board.specs.Calls.{OpensBoard, Claims, Looks, Raises, Splits, Joins};
    ghost use Rattle.rank_board.specs.Calls.{ClosesUnderRule, AccountsForAll};

    /// A new board for at most 2^40 claims, and its first seat, which has the rights to all of them.
    ///
    /// The floor begins at the guess, a score from -2^31 to 2^31, or at none.
    pub fn open(alloc: Global, rights: u64, guess: Option<i64>) -> Result<(Board, Seat), Memory>
        requires rights { rights ≤ 2 ^ 40 }
        requires guess { IfSome guess IsScore }
        ensures seat { IfOk result (λ r. IsSeatOf r.0 r.1) }
        ensures opens { IfOk result (λ r. OpensBoard rights guess r.0 r.1) }
    {
        let floor = match guess {
            None => 0,
            Some(score) => word_of_score(score),
        };
        match Table::of_words(alloc, &[0, floor], &Opening { rights, guess }) {
            Ok((table, inner)) => {
                let seat = Seat {
                    inner,
                    left: rights,
                };
                Ok((Board { table }, seat))
            }
            Err(_) => Err(Memory),
        }
    }

    /// Draws the next number, from 0, for one of the seat's rights.
    pub fn claim(&self, seat: &mut Seat) -> u64
        requires seat { IsSeatOf self.now seat.old }
        requires right { 0 < rights_of seat.old }
        ensures seat { IsSeatOf self.now seat.new }
        ensures claims { Claims self.now seat.old result seat.new }
    {
        self.claim_one_of::<Brand>(seat)
    }

    fn claim_one_of<Rights: Number>(&self, seat: &mut Seat) -> u64
        requires all { opened self.now ≡ Rights.number }
        requires seat { IsSeatOf self.now seat.old }
        requires right { 0 < rights_of seat.old }
        ensures seat { IsSeatOf self.now seat.new }
        ensures claims { Claims self.now seat.old result seat.new }
    {
        seat.left -= 1;
        self.table
            .shared
            .fetch_add::<Claim<Rights>>(&mut seat.inner, NEXT, 1)
    }

    /// The floor, at least the guess and every score that the seat has seen or raised.
    pub fn look(&self, seat: &mut Seat) -> Option<i64>
        requires seat { IsSeatOf self.now seat.old }
        ensures seat { IsSeatOf self.now seat.new }
        ensures looks { Looks self.now seat.old result seat.new }
    {
        floor_of_word(self.table.shared.load::<Look>(&mut seat.inner, FLOOR))
    }

    /// From here on the floor is at least this score, which lies from -2^31 to 2^31.
    ///
    /// The seat has claimed a number, itself or through a join.
    pub fn raise(&self, seat: &mut Seat, score: i64)
        requires seat { IsSeatOf self.now seat.old }
        requires claimed { 0 < length (claims_of seat.old) }
        requires score { IsScore score }
        ensures seat { IsSeatOf self.now seat.new }
        ensures raises { Raises seat.old score seat.new }
    {
        let word = word_of_score(score);
        self.table
            .shared
            .fetch_max::<Raise>(&mut seat.inner, FLOOR, word);
    }

    /// A new seat with this many of the seat's rights, which knows the scores that the seat knows.
    pub fn split(&self, seat: &mut Seat, rights: u64) -> Seat
        requires seat { IsSeatOf self.now seat.old }
        requires rights { rights ≤ rights_of seat.old }
        ensures seat { IsSeatOf self.now seat.new }
        ensures new { IsSeatOf self.now result }
        ensures splits { Splits seat.old rights seat.new result }
    {
        self.hand_over::<Brand>(seat, rights)
    }

    fn hand_over<Part: Number>(&self, seat: &mut Seat, rights: u64) -> Seat
        requires part { rights ≡ Part.number }
        requires seat { IsSeatOf self.now seat.old }
        requires rights { rights ≤ rights_of seat.old }
        ensures seat { IsSeatOf self.now seat.new }
        ensures new { IsSeatOf self.now result }
        ensures splits { Splits seat.old rights seat.new result }
    {
        seat.left -= rights;
        Seat {
            inner: self
                .table
                .shared
                .split_seat::<HandOver<Part>>(&mut seat.inner),
            left: rights,
        }
    }

    /// Gives the first seat the claims, scores and rights of both.
    pub fn join(&self, seat: &mut Seat, other: Seat)
        requires seat { IsSeatOf self.now seat.old }
        requires other { IsSeatOf self.now other }
        ensures seat { IsSeatOf self.now seat.new }
        ensures joins { Joins seat.old other seat.new }
    {
        let Seat { inner, left } = other;
        self.table
            .shared
            .join_seat::<TakeIn>(&mut seat.inner, inner);
        // The join itself shows nothing of the rights: this load shows that their sum fits.
        self.table.shared.load::<CountRights>(&mut seat.inner, NEXT);
        seat.left += left;
    }

    /// Takes the board apart, and returns what it held.
    pub fn close(self, seat: Seat) -> Closed
        requires seat { IsSeatOf self seat }
        ensures rule { ClosesUnderRule self seat result }
        ensures whole { IsWhole self seat → AccountsForAll self seat result }
    {
        let Board { table } = self;
        let Seat { inner, left: _ } = seat;
        let words = table.close_with(inner);
        let next = words.word(NEXT);
        let floor = words.word(FLOOR);
        words.free();
        Closed {
            next,
            floor: floor_of_word(floor),
        }
    }
}
