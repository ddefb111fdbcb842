//! Moves and schedules.

ghost use Rattle.std.specs.Prelude.{◌≡◌};
ghost use Rattle.lu_test.specs.Schedule.{AreMoves};

use std::marker::Model;

/// The most moves that the text of a schedule has: 16 calls of one move, and 256 more.
pub const MOST_LISTED_MOVES: usize = 4112;

/// One move of a run: the thread that makes it, 0 to 7, and which of its picks it takes, 0 to 7.
#[derive(Clone, Copy, Debug, PartialEq, Eq)]
pub struct Move {
    pub thread: u8,
    pub pick: u8,
}

/// The moves of a run, in order: at most 4,112.
#[derive(Debug, Drop)]
pub struct Schedule {
    moves: Vec<Move>,
}

impl Model for Schedule {
    ghost use Rattle.std.specs.Prelude.{List};
    ghost use Rattle.lu_test.specs.Schedule.{AreMoves};
    ghost use Rattle.lu_test.specs.declared.schedule.Move.{Move as AMove};

    ghost Value = { List AMove };

    ghost view = { λ s. s.moves.items };

    ghost invariant = { λ s. AreMoves s.moves.items };
}

impl Schedule {
    /// The schedule of these moves. Asks for at most 4,112, each of a thread 0 to 7 and a pick 0 to
    /// 7.
    pub fn new(moves: Vec<Move>) -> Schedule
        requires { AreMoves moves.items }
        ensures { result ≡ moves.items }
    {
        Schedule { moves }
    }

    /// The moves, in order.
    pub fn moves(&self) -> &[Move]
        ensures moves { result.now ≡ self.now }
        ensures sound { AreMoves self.now }
    {
        &self.moves
    }
}
