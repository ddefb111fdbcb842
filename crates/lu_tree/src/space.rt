//! What is searched.

use lu_machine::Test;
use std::alloc::Global;

/// What is searched, and how far: the schedules of a component and a matrix.
#[derive(Clone, Copy, Drop)]
pub struct SearchSpace<'a> {
    /// Where a search takes its memory from.
    pub alloc: Global,

    /// The component and the matrix.
    pub test: Test<'a>,

    /// The most moves of a schedule, 0 to 256.
    pub bound: u16,
}
