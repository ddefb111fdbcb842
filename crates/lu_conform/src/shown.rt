//! What is found of recorded histories.

use lu_test::Schedule;

/// Whether a schedule of a component shows a recorded history.
#[derive(Debug, Drop)]
pub enum Shown {
    /// This schedule shows it, and no shorter one does.
    By(Schedule),

    /// No schedule shows it, of any length.
    ByNone,

    /// Not decided: there are more than 262,144 stages, or the shortest schedule that shows it has
    /// more than 4,112 moves, which are the most that the text of a schedule has.
    Undecided,
}

/// Whether schedules of a component show each of some recorded histories.
#[derive(Debug, Drop)]
pub enum Conformance {
    /// Each history is shown by the schedule of its number, and by no shorter one.
    Conforms(Vec<Schedule>),

    /// The number of the first history that is not shown, from 0: no schedule shows it, of any
    /// length.
    NoneShows(usize),

    /// The number of the first history that is not shown, from 0: whether a schedule shows it is
    /// not decided.
    Undecided(usize),
}
