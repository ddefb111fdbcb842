//! The watches over the search of a cut's nodes.

ghost use Rattle.std.specs.Prelude.{◌≡◌, false};

use crate::progress::Progress;
use lu_graph::Watch;
use std::sync::atomic::{AtomicU64, Ordering};

/// Counts the nodes of a cut, and reports each. It never stops.
#[derive(Drop)]
pub(crate) struct NodeCount<'a, P> {
    progress: &'a P,
    nodes: u64,
}

impl<'a, P: Progress> NodeCount<'a, P> {
    /// Nothing is kept of a cut.
    pub(crate) fn new(progress: &'a P) -> NodeCount<'a, P> {
        NodeCount { progress, nodes: 0 }
    }

    /// Reports that the cut is done, but where that was reported when it was judged and no node was
    /// kept since.
    pub(crate) fn report_done(&self, was_judged: bool) {
        if !was_judged || self.nodes > 0 {
            self.progress.done(self.nodes);
        }
    }
}

impl<'a, P: Progress> Watch for NodeCount<'a, P> {
    type Base = ();

    ghost base = { λ _. tt };

    ghost is_stopped = { λ _. false };

    fn stop(&mut self) -> bool {
        self.nodes = self.nodes.saturating_add(1);
        self.progress.keep();
        false
    }

    fn stopped(&self) -> bool {
        false
    }
}

/// Counts the nodes of a cut, and stops where what is sought there is no longer wanted.
#[derive(Drop)]
pub(crate) struct CutWatch<'a, P> {
    count: NodeCount<'a, P>,

    /// After which position nothing is wanted, and that of what is sought.
    last_wanted: &'a AtomicU64,
    position: u64,
    stopped: bool,
}

impl<'a, P: Progress> CutWatch<'a, P> {
    /// Nothing is kept of a cut, of which something is sought that has this position among what
    /// is wanted.
    pub(crate) fn new(progress: &'a P, last_wanted: &'a AtomicU64, position: u64) -> CutWatch<'a, P>
        ensures running { result.stopped ≡ false }
    {
        CutWatch {
            count: NodeCount::new(progress),
            last_wanted,
            position,
            stopped: false,
        }
    }

    /// How many nodes were kept.
    pub(crate) fn nodes(&self) -> u64 {
        self.count.nodes
    }
}

impl<'a, P: Progress> Watch for CutWatch<'a, P> {
    type Base = ();

    ghost base = { λ _. tt };

    ghost is_stopped = { λ watch. watch.stopped };

    fn stop(&mut self) -> bool {
        self.count.nodes = self.count.nodes.saturating_add(1);
        self.count.progress.keep();
        self.stopped = self.last_wanted.load(Ordering::Relaxed) < self.position;
        self.stopped
    }

    fn stopped(&self) -> bool {
        self.stopped
    }
}
