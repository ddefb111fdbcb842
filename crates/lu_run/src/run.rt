//! Runs.

use lu_machine::Outcome;
use lu_test::Call;

/// One event of a run.
#[derive(Clone, Copy, Debug)]
pub enum RunEvent {
    /// The thread, a number from 0 to 7, makes the call with this number.
    Call { thread: u8, call: u32 },

    /// The call of the thread returns with this outcome.
    Return { thread: u8, outcome: Outcome },
}

/// A history that was recorded of real code: up to 8 threads, and any number of calls.
#[derive(Debug, Drop)]
pub struct Run {
    /// The different calls. The events refer to them by their numbers, from 0.
    pub calls: Vec<Call>,

    /// The events, in the order in which they were recorded.
    pub events: Vec<RunEvent>,

    /// Whether the run is stuck: whether none of the pending calls can go on.
    pub is_stuck: bool,
}
