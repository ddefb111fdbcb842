//! What is found where a component is held against a trusted one.

use lu_history::SerialOutcome;
use lu_report::Report;
use lu_test::{Matrix, Schedule};

/// How a component differs from a trusted one on a matrix.
#[derive(Drop)]
pub enum Difference {
    /// The least serial offence of the trusted component is this schedule, which is cut: so it
    /// says nothing of the other one.
    TrustedCut(Schedule),

    /// The least serial offence of the trusted component is this schedule, which ends with a
    /// conflict: so it says nothing of the other one.
    TrustedConflict {
        schedule: Schedule,

        /// How many operations its history has in common with that of a smaller schedule, whose
        /// next one has another outcome.
        before: usize,

        /// That outcome.
        earlier: SerialOutcome,
    },

    /// The component's least serial run that the trusted one does not have: its history is another,
    /// or it does not end within the serial bound.
    Serially(Schedule),

    /// The component's report against the serial histories of the trusted one, a failure.
    Concurrently(Report),
}

/// What a campaign finds that holds a component against a trusted one.
#[derive(Drop)]
pub enum Comparison {
    /// On every matrix the component agrees with the trusted one: how many there are.
    AllAgree(u64),

    /// The first matrix on which it does not, and how.
    First {
        matrix: Matrix,
        difference: Difference,
    },
}
