//! Worked examples of boards, and a caller of their contracts: two threads draw all numbers.

ghost use Rattle.std.specs.Prelude.{◌≡◌, ◌+◌, ◌-◌, ◌^◌, ◌<◌, ◌≤◌, length, map, pos, Some, None, IfOk};
ghost use Rattle.rank_board.specs.Seats.{opened, claims_of, raised_of, rights_of, IsSeatOf};

use ghcn_fields::Memory;
use rank_board::{Board, Closed, Seat};
use std::alloc::Global;
use std::test::Fail;
use std::thread;
use std::thread::Threads;

#[test]
fn two_seats_in_one_thread(rt: HostRuntime) -> Result<(), Fail> {
    let (board, mut one) = Board::open(rt.alloc(), 8, None)?;
    let mut two = board.split(&mut one, 4);
    assert_eq!(rt; board.look(&mut one), None, "nothing is raised yet");
    assert_eq!(rt; board.claim(&mut one), 0);
    assert_eq!(rt; board.claim(&mut two), 1);
    assert_eq!(rt; board.claim(&mut one), 2);
    board.raise(&mut one, 45);
    assert_eq!(rt; board.look(&mut one), Some(45), "the seat that raised it");
    assert_eq!(rt; board.look(&mut two), Some(45), "the other seat");
    board.raise(&mut two, 40);
    assert_eq!(rt;
        board.look(&mut two),
        Some(45),
        "a lower score changes nothing"
    );
    assert_eq!(rt; one.rights(), 2);
    assert_eq!(rt; two.rights(), 3);
    board.join(&mut one, two);
    assert_eq!(rt; one.rights(), 5, "those of both");
    let held = Closed {
        next: 3,
        floor: Some(45),
    };
    assert_eq!(rt; board.close(one), held);
    Ok(())
}

#[test]
fn closed_while_another_seat_is_out(rt: HostRuntime) -> Result<(), Fail> {
    let (board, mut one) = Board::open(rt.alloc(), 8, Some(7))?;
    let mut two = board.split(&mut one, 4);
    assert_eq!(rt; board.claim(&mut one), 0);
    assert_eq!(rt; board.claim(&mut two), 1);
    assert_eq!(rt; board.claim(&mut two), 2);
    board.raise(&mut two, 45);
    let held = Closed {
        next: 3,
        floor: Some(45),
    };
    assert_eq!(rt; board.close(one), held);
    assert_eq!(rt; two.rights(), 2, "the other seat keeps its rights");
    Ok(())
}

#[test]
fn boards_closed_at_once(rt: HostRuntime) -> Result<(), Fail> {
    let cases = [
        (1, Some(7)),
        (1, None),
        (0, None),
        (1 << 40, Some(0)),
        (8, Some(-(1 << 31))),
        (8, Some(1 << 31)),
    ];
    for (rights, guess) in cases {
        let (board, seat) = Board::open(rt.alloc(), rights, guess)?;
        assert_eq!(rt; seat.rights(), rights, "of {rights} with {guess:?}");
        let held = Closed {
            next: 0,
            floor: guess,
        };
        assert_eq!(rt; board.close(seat), held, "{rights} rights, guess {guess:?}");
    }
    Ok(())
}

#[test]
fn two_threads(rt: HostRuntime) -> Result<(), Fail> {
    let held = Closed {
        next: 2000,
        floor: Some(1999),
    };
    assert_eq!(rt; draw_by_halves(&rt, rt.alloc(), 2000)?, held);
    Ok(())
}

/// Two threads draw a number for each right of a new board, half of them each, and raise each
/// number that they drew. That this leaves one floor follows from the contracts alone.
fn draw_by_halves(rt: &impl Threads, alloc: Global, rights: u64) -> Result<Closed, Memory>
    requires some_rights { 0 < rights }
    requires few { rights ≤ 2 ^ 31 }
    ensures next { IfOk result (λ held. held.next ≡ rights) }
    ensures floor { IfOk result (λ held. held.floor ≡ Some (pos (rights - 1))) }
{
    let (board, mut one) = Board::open(alloc, rights, None)?;
    let two = board.split(&mut one, rights / 2);
    let shared = &board;
    let (mut one, two) = thread::join(
        rt,
        move || draw_all(shared, one),
        move || draw_all(shared, two),
    );
    board.join(&mut one, two);
    Ok(board.close(one))
}

/// Claims a number for each right of the seat, and raises it as a score.
fn draw_all(board: &Board, mut seat: Seat) -> Seat
    requires seat { IsSeatOf board.now seat }
    requires few { opened board.now ≤ 2 ^ 31 }
    requires raised { raised_of seat ≡ map pos (claims_of seat) }
    ensures seat { IsSeatOf board.now result }
    ensures spent { rights_of result ≡ 0 }
    ensures count { length (claims_of result) ≡ length (claims_of seat) + rights_of seat }
    ensures raised { raised_of result ≡ map pos (claims_of result) }
{
    while seat.rights() > 0 {
        let number = board.claim(&mut seat);
        board.raise(&mut seat, number as i64);
    }
    seat
}
