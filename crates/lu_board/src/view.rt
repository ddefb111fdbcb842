//! What a seat knows of its pieces, the rule of a board, and what each step tells.
use atomic_table::{Join, Play, Split, TableRule};
use std::collections::LinkedList;
use std::marker::{Brand, PhantomData};

/// The most pieces that a board has.
pub const MAX_PIECES: u64 = 65_536;

/// The most workers that a board has.
pub const MAX_WORKERS: u64 = 16;

/// How many pieces and workers a board has.
#[derive(Clone, Copy)]
pub struct Size {
    /// The number of pieces, which are numbered from 0.
    pub pieces: u64,
    /// The number of workers, each of which has one seat.
    pub workers: u64,
}

/// What a seat knows. No value of it is made: it is what contracts say of a seat.
///
/// The five lists stand for sets, in the order in which the pieces came: each piece that was
/// claimed is in exactly one set of exactly one seat of its board, and there only once.
pub struct View {
    /// The number of pieces of the board.
    pub pieces: u64,
    /// How many workers the seat stands for: 1 while it works, more while seats are dealt and
    /// gathered, and 0 once another seat took it in.
    pub weight: u64,
    /// 1 once the seat has found no piece left, and 0 before.
    pub spent: u64,
    /// The least best piece that the seat saw, or the number of pieces, which stands for none.
    pub seen: u64,
    /// The seat will claim no piece below this number.
    pub past: u64,
    /// The pieces that the seat claimed, and has neither skipped nor found bad nor settled.
    pub held: LinkedList<u64>,
    /// The pieces that it settled as clean.
    pub clean: LinkedList<u64>,
    /// The pieces that it found bad.
    pub found: LinkedList<u64>,
    /// The pieces that it skipped, since it saw a lesser one that was found bad.
    pub skipped: LinkedList<u64>,
    /// The pieces that it gave up.
    pub given: LinkedList<u64>,
}

/// What becomes of a piece that is settled.
#[derive(Clone, Copy, PartialEq, Eq, Debug)]
pub enum Kind {
    /// The piece is not bad.
    Clean,
    /// Nobody knows whether the piece is bad.
    GivenUp,
}

/// What a look tells of a piece.
#[derive(Clone, Copy, PartialEq, Eq, Debug)]
pub enum Look {
    /// The piece is skipped, since this lesser piece was found bad.
    Skip(u64),
    /// The piece is still held. No piece below it was found bad, and this is the least one that
    /// was, if any.
    Go(Option<u64>),
}

/// The rule of a board: between any two steps of any threads, its words and the views of all its
/// seats fit.
pub struct BoardRule;

impl TableRule<(), View, Size> for BoardRule {
    ghost use Rattle.lu_board.specs.Fit.{FitsWords};
    ghost use Rattle.lu_board.specs.Views.{newcomer};

    ghost holds = { λ size s. FitsWords size.pieces size.workers s.words s.views };

    ghost first = { λ size. newcomer size.pieces size.workers };
}

/// What a step is about beyond its operands, for the proof alone. A call at `Brand` picks it.
pub(crate) trait About {
    ghost use Rattle.std.specs.Prelude.{ℕ};
    ghost use Rattle.lu_board.specs.declared.view.Kind.{Kind};

    ghost piece: { ℕ };

    ghost kind: { Kind };

    ghost pieces: { ℕ };
}

impl About for Brand {
    ghost use Rattle.lu_board.specs.declared.view.Kind.TheVariants.{Clean};

    ghost piece = { 0 };

    ghost kind = { Clean };

    ghost pieces = { 0 };
}

/// A claim, on a board of this many pieces.
pub(crate) struct Claims<J> {
    about: PhantomData<J>,
}

impl<J: About> Play<(), View> for Claims<J> {
    ghost use Rattle.lu_board.specs.Plays.{Claimed};

    ghost then = { Claimed J.pieces };
}

/// A look for a piece.
pub(crate) struct Looks<J> {
    about: PhantomData<J>,
}

impl<J: About> Play<(), View> for Looks<J> {
    ghost use Rattle.lu_board.specs.Plays.{Looked};

    ghost then = { Looked J.piece };
}

/// The operand is found bad.
pub(crate) struct Lowers;

impl Play<(), View> for Lowers {
    ghost use Rattle.lu_board.specs.Plays.{Lowered};

    ghost then = { Lowered };
}

/// A piece is settled.
pub(crate) struct SettlesPiece<J> {
    about: PhantomData<J>,
}

impl<J: About> Play<(), View> for SettlesPiece<J> {
    ghost use Rattle.lu_board.specs.Plays.{Settled};

    ghost then = { Settled J.piece J.kind };
}

/// A new seat of weight 1 is cut off.
pub(crate) struct Deal;

impl Split<View> for Deal {
    ghost use Rattle.lu_board.specs.Views.{without_newcomer, newcomer};

    ghost left = { without_newcomer };

    ghost right = { λ v. newcomer v.pieces 1 };
}

/// A seat takes in another one.
pub(crate) struct Gather;

impl Join<View> for Gather {
    ghost use Rattle.lu_board.specs.Views.{merged, blank};

    ghost both = { merged };

    ghost spent = { blank };
}
