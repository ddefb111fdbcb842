//! What a walk knows ahead of its moves.

use crate::tables::Tables;
use std::alloc::Global;

/// What a walk knows ahead of its moves.
#[derive(Clone, Copy, Drop)]
pub(crate) struct Lookahead<'a> {
    pub(crate) alloc: Global,
    pub(crate) tables: &'a Tables,

    /// How many moves are left where the walk begins.
    pub(crate) most: u16,
}
