//! How nodes are reached.

use lu_test::Move;

/// How a node was first reached: from the node stored at the index `parent`, by the move `by`, or by
/// a call and that move.
#[derive(Clone, Copy, Debug)]
pub struct Arrival {
    pub(crate) parent: usize,
    pub(crate) call: Option<Move>,
    pub(crate) by: Move,
}
