//! What a campaign by thread is asked for.

use lu_component::Component;
use lu_test::Calls;

/// Threads that have candidates of their own, and how far their matrices are checked.
#[derive(Clone, Copy)]
pub struct Roles<'a> {
    pub component: &'a Component,

    /// The calls with which each matrix begins, at most 8.
    pub setup: &'a Calls,

    /// The calls that each thread draws from.
    pub candidates: &'a [Calls],

    /// How many calls a thread makes that has candidates, 1 to 8.
    pub calls: u8,

    /// The most moves of a schedule, 0 to 256.
    pub bound: u16,

    /// The most moves of an operation after its call in a serial run, 1 to 256.
    pub serial: u16,
}
