//! Which steps a trace shows.

/// Which steps a trace shows.
#[derive(Clone, Copy, Debug, PartialEq, Eq)]
pub enum Detail {
    /// Each step. Arithmetic in a test of a source is shown once, by the last of its steps.
    EachStep,

    /// Calls, returns, and steps on shared words and locks: those that other threads may see.
    SharedSteps,
}
