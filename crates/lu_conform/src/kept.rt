//! Stages, as they are kept.

use indexmap::IndexMap;
use lu_test::Move;

/// Where a machine stands ([`numbers_at`](crate::packing::numbers_at)), and how many events of the
/// recorded history are after it.
#[derive(PartialEq, Eq, Hash, Drop)]
pub(crate) struct Kept {
    pub(crate) numbers: Vec<u32>,
    pub(crate) seen: usize,
}

/// How a stage was first reached: from the stage at the place `parent`, by one move.
#[derive(Clone, Copy)]
pub(crate) struct Arrival {
    pub(crate) parent: u32,
    pub(crate) by: Move,
}

/// Stages in the order in which they were met, each with how it was first reached, which is `None`
/// for the start.
pub(crate) type Stages = IndexMap<Kept, Option<Arrival>>;
