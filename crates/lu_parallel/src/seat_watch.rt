//! The watch over the search of a piece.

ghost use Rattle.std.specs.Prelude.{◌≡◌, ◌∷◌, [], true, false};
ghost use Rattle.lu_board.specs.Pieces.{is_in};
ghost use Rattle.lu_parallel.specs.Watches.{held_piece, rest_of};

use crate::counting::schedules_in;
use crate::gate::Gate;
use lu_board::view::View;
use lu_board::{Board, Look, Seat};
use lu_tree::Watch;

/// What a watch leaves as it is: the board, the piece, and what the seat knows of other pieces. No
/// value of it is made.
pub(crate) struct SeatBase {
    pub(crate) board: Board,
    pub(crate) piece: u64,
    pub(crate) rest: View,
}

/// A worker's watch over the search of a piece, which stops where the piece is beaten: a lesser one
/// was found bad. It owns the worker's seat meanwhile, which holds the piece, or has skipped it
/// where the watch has stopped.
#[derive(Drop)]
pub(crate) struct SeatWatch<'b, G> {
    pub(crate) board: &'b Board,
    pub(crate) gate: &'b G,
    pub(crate) seat: Seat,
    pub(crate) piece: u64,
    pub(crate) stopped: bool,
    ghost of: { seat.board ≡ board.now.board },
    ghost held: { seat.view.held ≡ held_piece stopped piece },
    ghost skipped: { stopped ≡ true → is_in piece seat.view.skipped ≡ true },
}

impl<'b, G: Gate> SeatWatch<'b, G> {
    /// A watch over a piece that the seat holds, and no other.
    pub(crate) fn new(board: &'b Board, gate: &'b G, seat: Seat, piece: u64) -> SeatWatch<'b, G>
        requires board { seat.board ≡ board.now.board }
        requires held { seat.view.held ≡ piece ∷ [] }
        ensures board { result.board.now ≡ board.entry.now }
        ensures seat { result.seat ≡ seat }
        ensures piece { result.piece ≡ piece }
        ensures running { result.stopped ≡ false }
    {
        SeatWatch {
            board,
            gate,
            seat,
            piece,
            stopped: false,
        }
    }

    /// The seat, where the watch is over.
    pub(crate) fn into_seat(self) -> Seat
        ensures { result ≡ self.entry.seat }
    {
        let SeatWatch {
            board: _,
            gate: _,
            seat,
            piece: _,
            stopped: _,
        } = self;
        seat
    }
}

impl<'b, G: Gate> Watch for SeatWatch<'b, G> {
    type Base = SeatBase;

    ghost base = { λ w. record {
      board = w.board.now;
      piece = w.piece;
      rest = rest_of w.piece w.seat.view;
    } };

    ghost is_stopped = { λ w. w.stopped };

    fn stop(&mut self) -> bool {
        self.gate.judge(schedules_in(1));
        match self.board.look(&mut self.seat, self.piece) {
            Look::Skip(_) => {
                self.stopped = true;
                true
            }
            Look::Go(_) => false,
        }
    }

    fn stopped(&self) -> bool {
        self.stopped
    }

    /// One look at the board tells as much as many in a row.
    fn stop_within(&mut self, times: u64) -> bool {
        self.gate.judge(schedules_in(times.saturating_sub(1)));
        times > 0 && self.stop()
    }
}
