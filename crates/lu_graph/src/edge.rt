//! Edges between states, by their numbers.

/// A move leads from the state of one number to the state of another.
#[derive(Clone, Copy)]
pub(crate) struct Edge {
    pub(crate) from: usize,
    pub(crate) to: usize,
}
