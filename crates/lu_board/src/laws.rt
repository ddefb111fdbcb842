//! Laws of the board as a pure machine.

ghost use Rattle.lu_board.specs.Laws.{DoneIsLeastBad, LegalEventsFit};

/// Each state that legal events reach from a new board fits: it keeps the rule of a board, its
/// found pieces are bad, and its clean ones are not. The function does nothing.
pub fn legal_events_fit()
    ensures { LegalEventsFit }
{}

/// Where legal events reach a state in which all is done and nothing was given up, the best piece
/// is the least bad one. The function does nothing.
pub fn done_is_least_bad()
    ensures { DoneIsLeastBad }
{}
