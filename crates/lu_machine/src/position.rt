//! Where a machine stands, kept apart from it.

use crate::thread::Thread;

/// The value of each cell, the owner of each lock, and where each thread stands.
#[derive(Debug, PartialEq, Eq, Hash, Drop)]
pub struct Position {
    pub(crate) cells: Vec<u32>,
    pub(crate) locks: Vec<Option<u8>>,
    pub(crate) threads: Vec<Thread>,
}
