//! What a search is given.

use lu_answers::{AnswerTable, Rounds};
use lu_horizon::DeadRegisters;
use std::alloc::Global;

/// What stays the same throughout a search.
#[derive(Clone, Copy)]
pub(crate) struct Given<'a> {
    pub(crate) alloc: Global,

    /// The table of the serial histories.
    pub(crate) table: &'a AnswerTable,

    /// The component's dead registers.
    pub(crate) dead: &'a DeadRegisters,

    /// How often threads make their lines.
    pub(crate) rounds: Rounds,
}
