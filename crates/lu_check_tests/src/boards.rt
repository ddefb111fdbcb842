ghost use Rattle.std.specs.Prelude.{◌≡◌, ◌<◌, ◌≤◌, [], ◌∷◌, length};
ghost use Rattle.lu_check_tests.specs.Boards.{HoldsNone, IsSpentSeat};

use lu_board::board_core::{CoreEvent, CoreFault, run};
use lu_board::{Board, Kind, Look, Seat};
use std::alloc::Global;
use std::process::Abort;
use std::test::*;
use std::thread;
use std::thread::Threads;

/// A worker claims pieces until none is left, and finds one of them bad.
fn work(board: &Board, mut seat: Seat, bad: u64) -> Seat
    requires { HoldsNone board.now.board seat }
    ensures { IsSpentSeat board.now.board result }
{
    while let Some(piece) = board.claim(&mut seat) {
        match board.look(&mut seat, piece) {
            Look::Skip(_) => {}
            Look::Go(_) => {
                if piece == bad {
                    board.lower(&mut seat, piece);
                } else {
                    board.settle(&mut seat, piece, Kind::Clean);
                }
            }
        }
    }
    seat
}

/// Two workers in threads of their own.
fn work_in_threads<R: Threads + Sync>(
    rt: &R,
    board: &Board,
    first: Seat,
    second: Seat,
) -> (Seat, Seat)
    requires first { HoldsNone board.now.board first }
    requires second { HoldsNone board.now.board second }
    ensures first { IsSpentSeat board.now.board result.0 }
    ensures second { IsSpentSeat board.now.board result.1 }
{
    thread::join(
        rt,
        move || -> Seat
            requires { HoldsNone board.now.board first }
            ensures { IsSpentSeat board.entry.now.board result }
        { work(board, first, 5) },
        move || -> Seat
            requires { HoldsNone board.now.board second }
            ensures { IsSpentSeat board.entry.now.board result }
        { work(board, second, 5) },
    )
}

/// The seat claims this piece, and holds it.
fn claims(rt: &impl Abort, board: &Board, seat: &mut Seat, expected: u64)
    requires { (seat.old.board ≡ board.now.board) × (seat.old.view.held ≡ []) }
    ensures { (seat.new.board ≡ seat.old.board) × (seat.new.view.held ≡ expected ∷ []) }
{
    let Some(piece) = board.claim(seat) else {
        panic!(rt; "no piece is left")
    };
    assert!(rt; piece == expected);
}

/// The seat claims this piece and skips it, since it sees piece 1 as the best.
fn skips(rt: &impl Abort, board: &Board, seat: &mut Seat, expected: u64)
    requires { (seat.old.board ≡ board.now.board) × (seat.old.view.held ≡ []) }
    ensures { (seat.new.board ≡ seat.old.board) × (seat.new.view.held ≡ []) }
{
    claims(rt, board, seat, expected);
    match board.look(seat, expected) {
        Look::Skip(best) => assert!(rt; best == 1),
        Look::Go(_) => panic!(rt; "a piece above piece 1 is not skipped"),
    }
}

/// Two seats on one thread, of which A lowers piece 1. B sees it, though B lowered none.
#[test]
fn a_seat_sees_what_another_lowered(rt: HostRuntime) -> Result<(), Fail> {
    let (board, mut seats) = Board::new(rt.alloc(), 8, 2)?;
    let (Some(mut b), Some(mut a)) = (seats.pop(), seats.pop()) else {
        panic!(rt; "a seat is missing")
    };
    claims(&rt, &board, &mut a, 0);
    board.settle(&mut a, 0, Kind::Clean);
    claims(&rt, &board, &mut a, 1);
    board.lower(&mut a, 1);
    skips(&rt, &board, &mut a, 2);
    skips(&rt, &board, &mut b, 3);
    skips(&rt, &board, &mut a, 4);
    skips(&rt, &board, &mut a, 5);
    skips(&rt, &board, &mut a, 6);
    skips(&rt, &board, &mut a, 7);
    let (None, None) = (board.claim(&mut a), board.claim(&mut b)) else {
        panic!(rt; "a piece past the last one")
    };
    seats.push(a)?;
    seats.push(b)?;
    let close = board.finish(seats);
    assert!(rt; (close.best, close.given_up) == (Some(1), false));
    Ok(())
}

#[test]
fn two_threads_share_a_board(rt: HostRuntime) -> Result<(), Fail> {
    let (board, mut seats) = Board::new(rt.alloc(), 1000, 2)?;
    let (Some(second), Some(first)) = (seats.pop(), seats.pop()) else {
        panic!(rt; "a seat is missing")
    };
    let (first, second) = work_in_threads(&rt, &board, first, second);
    seats.push(first)?;
    seats.push(second)?;
    let close = board.finish(seats);
    assert!(rt; (close.best, close.given_up) == (Some(5), false));
    Ok(())
}

#[test]
fn a_piece_is_given_up(rt: HostRuntime) -> Result<(), Fail> {
    let (board, mut seats) = Board::new(rt.alloc(), 1, 1)?;
    let Some(mut seat) = seats.pop() else {
        panic!(rt; "no seat")
    };
    claims(&rt, &board, &mut seat, 0);
    let Look::Go(None) = board.look(&mut seat, 0) else {
        panic!(rt; "the only piece is skipped, or one is better")
    };
    board.settle(&mut seat, 0, Kind::GivenUp);
    let None = board.claim(&mut seat) else {
        panic!(rt; "a piece past the last one")
    };
    seats.push(seat)?;
    let close = board.finish(seats);
    assert!(rt; (close.best, close.given_up) == (None, true));
    Ok(())
}

#[test]
fn a_board_without_pieces(rt: HostRuntime) -> Result<(), Fail> {
    let (board, mut seats) = Board::new(rt.alloc(), 0, 2)?;
    let (Some(mut b), Some(mut a)) = (seats.pop(), seats.pop()) else {
        panic!(rt; "a seat is missing")
    };
    let (None, None, None) = (
        board.claim(&mut a),
        board.claim(&mut b),
        board.claim(&mut a),
    ) else {
        panic!(rt; "a piece of a board without pieces")
    };
    seats.push(a)?;
    seats.push(b)?;
    let close = board.finish(seats);
    assert!(rt; (close.best, close.given_up) == (None, false));
    Ok(())
}

/// What a run says of these pieces, of which these are bad: the best piece, whether it is done,
/// and whether a piece was given up; or the first illegal event.
fn core_after(
    alloc: Global,
    workers: usize,
    bad: &[bool],
    events: &[CoreEvent],
) -> Result<(Option<u64>, bool, bool), CoreFault>
    requires pieces { length bad.now ≤ 65536 }
    requires workers { (0 < workers) × (workers ≤ 16) }
{
    let core = run(alloc, bad.len() as u64, workers, bad, events)?;
    Ok((core.best(), core.done(), core.given_up()))
}

/// Of three pieces 1 and 2 are bad.
const BAD: &[bool] = &[false, true, true];

/// Two workers share these out, and the last event is not legal.
const SHARED: &[CoreEvent] = &[
    CoreEvent::Claim(0),
    CoreEvent::Claim(1),
    CoreEvent::Claim(0),
    CoreEvent::Lower(1, 1),
    CoreEvent::Look(0, 2),
    CoreEvent::Settle(0, 0, Kind::Clean),
    CoreEvent::Claim(0),
    CoreEvent::Claim(1),
    CoreEvent::Claim(0),
];

#[test]
fn the_core_knows_the_least_bad_piece(rt: HostRuntime) {
    assert!(rt; core_after(rt.alloc(), 2, BAD, &SHARED[..8]) == Ok((Some(1), true, false)));
    assert!(rt; core_after(rt.alloc(), 2, BAD, &SHARED[..4]) == Ok((Some(1), false, false)));
    assert!(rt; core_after(rt.alloc(), 2, BAD, SHARED) == Err(CoreFault::BadEvent(8)));
}

const LOWERS_A_GOOD_PIECE: &[CoreEvent] = &[CoreEvent::Claim(0), CoreEvent::Lower(0, 0)];

const NO_SUCH_WORKER: &[CoreEvent] = &[CoreEvent::Claim(2)];

const SETTLES_A_BAD_PIECE: &[CoreEvent] = &[
    CoreEvent::Claim(0),
    CoreEvent::Claim(0),
    CoreEvent::Settle(0, 1, Kind::Clean),
    CoreEvent::Claim(2),
];

#[test]
fn the_core_names_the_first_illegal_event(rt: HostRuntime) {
    for (events, index) in [
        (LOWERS_A_GOOD_PIECE, 1),
        (NO_SUCH_WORKER, 0),
        (SETTLES_A_BAD_PIECE, 2),
    ] {
        assert!(rt; core_after(rt.alloc(), 2, BAD, events) == Err(CoreFault::BadEvent(index)));
    }
}

#[test]
fn a_fault_says_what_happened(rt: HostRuntime) -> Result<(), Fail> {
    let text = format!(in rt.alloc(); "{}, {}", CoreFault::BadEvent(8), CoreFault::Memory)?;
    assert!(rt; text.as_str() == "event 8 is not legal, memory ran out");
    Ok(())
}

const GIVES_UP: &[CoreEvent] = &[
    CoreEvent::Claim(0),
    CoreEvent::Settle(0, 0, Kind::GivenUp),
    CoreEvent::Claim(0),
];

#[test]
fn the_core_tells_what_was_given_up(rt: HostRuntime) {
    assert!(rt; core_after(rt.alloc(), 1, &[true], GIVES_UP) == Ok((None, true, true)));
    assert!(rt; core_after(rt.alloc(), 1, &[], &[CoreEvent::Claim(0)]) == Ok((None, true, false)));
}
