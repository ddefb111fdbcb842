//! How much a search may take, and whom it tells.

use crate::nodes::Nodes;
use lu_certify::Progress;

/// How many nodes a search may look at, and who is shown how far it has come.
#[derive(Drop)]
#[derive_where(Clone, Copy)]
pub struct Budget<'p, P> {
    /// The most nodes that are looked at.
    pub most: usize,

    /// Who is shown how many nodes are found, and how many of them were looked at.
    pub progress: &'p P,
}

/// Shows how many nodes are found, and that this many of them were looked at.
pub(crate) fn show<P: Progress>(progress: &P, looked_at: usize, all: &Nodes) {
    progress.nodes(looked_at as u64, all.len() as u64);
}
