//! What is found of schedules that lead to a state from which none ends.

use lu_test::Schedule;

/// Whether a schedule leads to a state from which no schedule ends.
#[derive(Drop)]
pub enum FirstLost {
    /// No schedule does, whatever its length.
    Never,

    /// This schedule is the first that does: the shortest one, and the least of that length.
    First(Schedule),

    /// It is not known: there are more states than the limit, or the first schedule that does has
    /// more than 4,112 moves.
    Unknown,
}
