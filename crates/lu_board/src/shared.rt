//! The board that workers share, and their seats.
ghost use Rattle.std.specs.Prelude.{◌≡◌, ◌+◌, ◌<◌, ◌≤◌, [], IsTrue, OnSome, IfSome, IfNone, IfOk, All, Contains, length, ◌↔◌};
ghost use Rattle.lu_board.specs.declared.view.TheConstants.{MAX_PIECES, MAX_WORKERS};
ghost use Rattle.lu_board.specs.Pieces.{IsLeastPiece, AllAbove};
ghost use Rattle.lu_board.specs.Views.{newcomer};
ghost use Rattle.lu_board.specs.Events.{with_held, with_spent, with_found, with_settled};
ghost use Rattle.lu_board.specs.Answer.{IsLookAnswer};
ghost use Rattle.lu_board.specs.Seats.{unused_seat, unused_seats, gathered, IsSeatOf, IsDone, TellsGiven};
ghost use Rattle.lu_board.specs.Close.{SharesOut, found_by, skipped_by, given_by};

use crate::view::{
    About, BoardRule, Claims, Deal, Gather, Kind, Look, Looks, Lowers, SettlesPiece, Size, View,
};
use atomic_table::Table;
use std::alloc::{AllocError, Global};
use std::marker::{Brand, Model};

type Token = atomic_table::Seat<(), View>;

type Words = Table<(), View, Size, BoardRule, Global>;

/// A board of pieces that are claimed one by one. Threads can share it by a `&`.
///
/// Its four words are the next piece, the least piece found bad (or the number of pieces, which
/// stands for none), the number of pieces and the number of workers. Between any two steps of any
/// threads these words and the views of all seats fit, as [`BoardRule`] says. Each step is
/// sequentially consistent (Lamport, 1979).
#[derive(Drop)]
pub struct Board {
    table: Words,
}

impl Model for Board {
    ghost use Rattle.std.specs.Prelude.{◌≡◌, ◌<◌};
    ghost use Rattle.lu_board.specs.Seats.{Board as ABoard, IsTableFor};

    ghost Value = { ABoard };

    ghost view = { λ b. record {
      board = b.table.shared.table_id;
      pieces = b.table.shared.key.pieces;
      workers = b.table.shared.key.workers;
    } };

    ghost invariant = { λ b. IsTableFor b.table.shared.key.workers b.table.shared.table_id };
}

/// A worker's right to claim pieces of one board. Contracts see what it knows as its [`View`].
#[derive(Drop)]
pub struct Seat {
    /// The number of pieces of the board.
    pieces: u64,

    /// Whether the worker was answered that no piece is left.
    spent: bool,

    /// Whether the worker gave a piece up.
    gave_up: bool,

    /// The worker's share in the board's words, which each of its steps takes.
    token: Token,
}

impl Model for Seat {
    ghost use Rattle.std.specs.Prelude.{◌≡◌, []};
    ghost use Rattle.lu_board.specs.Seats.{Seat as ASeat, IsSeatWith};

    ghost Value = { ASeat };

    ghost view = { λ s. record { board = s.token.table_id; view = s.token.me.0 } };

    ghost invariant = { λ s. IsSeatWith s.pieces s.spent s.gave_up s.token.me };
}

/// What came of a board.
#[derive(Clone, Copy, PartialEq, Eq, Debug)]
pub struct Close {
    /// The least piece that was found bad, or None where none was.
    pub best: Option<u64>,
    /// Whether some piece was given up.
    pub given_up: bool,
}

impl Seat {
    fn new(token: Token, pieces: u64) -> Seat
        requires { token.me ≡ (newcomer pieces 1, []) }
        ensures { result ≡ unused_seat token.table_id pieces }
    {
        Seat {
            pieces,
            spent: false,
            gave_up: false,
            token,
        }
    }
}

/// Takes in the views of more seats, and says whether any of them gave a piece up.
fn gather(table: &Words, mut token: Token, mut gave_up: bool, mut seats: Vec<Seat>) -> (Token, bool)
    requires words { table.now.shared.table_id.words ≡ 4 }
    requires table { token.table_id ≡ table.now.shared.table_id }
    requires view { (0 < token.me.0.weight) × TellsGiven gave_up token.me.0 }
    requires slots { token.me.1 ≡ [] }
    requires own { All (IsSeatOf table.now.shared.table_id) seats.items }
    ensures table { result.0.table_id ≡ token.table_id }
    ensures view { result.0.me.0 ≡ gathered seats.items token.me.0 }
    ensures weight { result.0.me.0.weight ≡ length seats.items + token.me.0.weight }
    ensures given_up { TellsGiven result.1 result.0.me.0 }
{
    while let Some(seat) = seats.pop() {
        let Seat {
            pieces: _,
            spent: _,
            gave_up: also,
            token: mut both,
        } = seat;
        table.shared.join_seat::<Gather>(&mut both, token);
        token = both;
        gave_up |= also;
    }
    (token, gave_up)
}

impl Board {
    /// Makes a board of at most [`MAX_PIECES`](crate::view::MAX_PIECES) pieces, and a seat for each
    /// of its workers, of which there are 1 to [`MAX_WORKERS`](crate::view::MAX_WORKERS). Each seat
    /// is unspent and without pieces.
    ///
    /// # Errors
    ///
    /// `AllocError` where memory ran out.
    pub fn new(alloc: Global, pieces: u64, workers: u64) -> Result<(Board, Vec<Seat>), AllocError>
        requires pieces { pieces ≤ MAX_PIECES }
        requires workers { (0 < workers) × (workers ≤ MAX_WORKERS) }
        ensures board { IfOk result (λ r. (r.0.pieces ≡ pieces) × (r.0.workers ≡ workers)) }
        ensures seats { IfOk result (λ r. r.1.items ≡ unused_seats workers r.0.board pieces) }
    {
        let size = Size { pieces, workers };
        let (table, mut rest) = Table::of_words(alloc, &[0, pieces, pieces, workers], &size)?;
        let mut seats = Vec::with_capacity(alloc, workers as usize)?;
        for _dealt in 0..workers - 1 {
            let token = table.shared.split_seat::<Deal>(&mut rest);
            seats.push(Seat::new(token, pieces))?;
        }
        seats.push(Seat::new(rest, pieces))?;
        Ok((Board { table }, seats))
    }

    /// Claims the next piece, which the seat then holds and no seat had before. Where none is left,
    /// `None` is returned and the seat is spent. A spent seat takes no step and is answered None again.
    ///
    /// The step is one atomic `fetch_add` on one word. It waits for nobody and takes no memory.
    pub fn claim(&self, seat: &mut Seat) -> Option<u64>
        requires board { seat.old.board ≡ self.now.board }
        ensures board { seat.new.board ≡ seat.old.board }
        ensures unspent { OnSome result (seat.old.view.spent ≡ 0) }
        ensures pieces { OnSome result (seat.old.view.pieces ≡ self.now.pieces) }
        ensures piece { IfSome result (λ i. (seat.old.view.past ≤ i) × (i < self.now.pieces)) }
        ensures held { IfSome result (λ i. seat.new.view ≡ with_held i seat.old.view) }
        ensures none { IfNone result (seat.new.view ≡ with_spent seat.old.view) }
    {
        self.claim_as::<Brand>(seat)
    }

    fn claim_as<J: About>(&self, seat: &mut Seat) -> Option<u64>
        requires board { seat.old.board ≡ self.now.board }
        requires pieces { J.pieces ≡ self.now.pieces }
        ensures board { seat.new.board ≡ seat.old.board }
        ensures unspent { OnSome result (seat.old.view.spent ≡ 0) }
        ensures pieces { OnSome result (seat.old.view.pieces ≡ self.now.pieces) }
        ensures piece { IfSome result (λ i. (seat.old.view.past ≤ i) × (i < self.now.pieces)) }
        ensures held { IfSome result (λ i. seat.new.view ≡ with_held i seat.old.view) }
        ensures none { IfNone result (seat.new.view ≡ with_spent seat.old.view) }
    {
        if seat.spent {
            return None;
        }
        let next = self
            .table
            .shared
            .fetch_add::<Claims<J>>(&mut seat.token, 0, 1);
        if next < seat.pieces {
            Some(next)
        } else {
            seat.spent = true;
            None
        }
    }

    /// Looks whether a piece that the seat holds is still worth its work. The piece is skipped
    /// where a lesser one was found bad, and else still held. The best piece that the answer tells
    /// is at most any that this seat saw or lowered before.
    ///
    /// The step is one atomic load of one word. It waits for nobody and takes no memory.
    pub fn look(&self, seat: &mut Seat, piece: u64) -> Look
        requires board { seat.old.board ≡ self.now.board }
        requires held { Contains seat.old.view.held piece }
        ensures board { seat.new.board ≡ seat.old.board }
        ensures answer { IsLookAnswer piece result seat.old.view seat.new.view }
    {
        self.look_as::<Brand>(seat, piece)
    }

    fn look_as<J: About>(&self, seat: &mut Seat, piece: u64) -> Look
        requires board { seat.old.board ≡ self.now.board }
        requires held { Contains seat.old.view.held piece }
        requires piece { J.piece ≡ piece }
        ensures board { seat.new.board ≡ seat.old.board }
        ensures answer { IsLookAnswer piece result seat.old.view seat.new.view }
    {
        let best = self.table.shared.load::<Looks<J>>(&mut seat.token, 1);
        if best < piece {
            Look::Skip(best)
        } else if best < seat.pieces {
            Look::Go(Some(best))
        } else {
            Look::Go(None)
        }
    }

    /// Says that a piece that the seat holds was found bad. The seat has then seen a best piece
    /// that is at most this one, and at most what it saw before.
    ///
    /// The step is one atomic `fetch_min` on one word. It waits for nobody and takes no memory.
    pub fn lower(&self, seat: &mut Seat, piece: u64)
        requires board { seat.old.board ≡ self.now.board }
        requires held { Contains seat.old.view.held piece }
        ensures board { seat.new.board ≡ seat.old.board }
        ensures found { seat.new.view ≡ with_found piece seat.new.view.seen seat.old.view }
        ensures piece { seat.new.view.seen ≤ piece }
        ensures seen { seat.new.view.seen ≤ seat.old.view.seen }
    {
        self.table
            .shared
            .fetch_min::<Lowers>(&mut seat.token, 1, piece);
    }

    /// Says that a piece that the seat holds is clean, or is given up.
    ///
    /// The step is one atomic load of one word, since what the seat knows changes at steps alone.
    /// It waits for nobody and takes no memory.
    pub fn settle(&self, seat: &mut Seat, piece: u64, kind: Kind)
        requires board { seat.old.board ≡ self.now.board }
        requires held { Contains seat.old.view.held piece }
        ensures board { seat.new.board ≡ seat.old.board }
        ensures settled { seat.new.view ≡ with_settled piece kind seat.old.view }
    {
        self.settle_as::<Brand>(seat, piece, kind);
    }

    fn settle_as<J: About>(&self, seat: &mut Seat, piece: u64, kind: Kind)
        requires board { seat.old.board ≡ self.now.board }
        requires held { Contains seat.old.view.held piece }
        requires piece { (J.piece ≡ piece) × (J.kind ≡ kind) }
        ensures board { seat.new.board ≡ seat.old.board }
        ensures settled { seat.new.view ≡ with_settled piece kind seat.old.view }
    {
        self.table
            .shared
            .load::<SettlesPiece<J>>(&mut seat.token, 1);
        if let Kind::GivenUp = kind {
            seat.gave_up = true;
        }
    }

    /// Says what came of the board, from all its seats, in any order. Each has to be spent and to
    /// hold no piece.
    ///
    /// The seats' clean, found, skipped and given pieces are then all pieces of the board, each
    /// exactly once. The call takes no memory and changes no word.
    pub fn finish(self, mut seats: Vec<Seat>) -> Close
        requires all { length seats.items ≡ self.workers }
        requires own { All (IsSeatOf self.board) seats.items }
        requires done { All IsDone seats.items }
        ensures pieces { SharesOut self.pieces seats.items }
        ensures best { IsLeastPiece (found_by seats.items) result.best }
        ensures skipped { AllAbove result.best (skipped_by seats.items) }
        ensures given_up { IsTrue result.given_up ↔ (0 < length (given_by seats.items)) }
    {
        let Board { table } = self;
        let last = seats.pop().unwrap();
        let Seat {
            pieces,
            spent: _,
            gave_up,
            token,
        } = last;
        let (token, given_up) = gather(&table, token, gave_up, seats);
        let closed = table.close_with(token);
        let best = closed.word(1);
        closed.free();
        Close {
            best: if best < pieces { Some(best) } else { None },
            given_up,
        }
    }
}
