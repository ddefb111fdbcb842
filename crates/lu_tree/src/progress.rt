//! How a walk asks its watch.

ghost use Rattle.std.specs.Prelude.{◌≡◌, ◌≤◌, true, false, vec_capacity, IfOk};
ghost use Rattle.lu_tree.specs.Walks.{IsReadyToWalk};

use crate::watch::Watch;
use lu_machine::{Counts, MOST_MOVES};
use lu_test::Move;
use std::alloc::{AllocError, Global};

/// The number of schedules that are passed before the watch is asked again.
const UNASKED: u8 = 64;

/// How far a walk has come with its watch, and the path on which it halted.
#[derive(Drop)]
pub(crate) struct WalkProgress {
    /// How many schedules were passed since the watch was asked.
    unasked: u8,

    /// The moves by which a walk that halted had gone on, the last one first. It has room for all
    /// of them.
    pub(crate) path: Vec<Move>,
}

impl WalkProgress {
    /// Nothing is passed yet.
    pub(crate) fn new(alloc: Global) -> Result<WalkProgress, AllocError>
        ensures { IfOk result IsReadyToWalk }
    {
        Ok(WalkProgress {
            unasked: 0,
            path: Vec::with_capacity(alloc, usize::from(MOST_MOVES))?,
        })
    }

    /// Nothing is passed again, with the room that there is.
    pub(crate) fn renew(&mut self)
        requires { 256 ≤ vec_capacity self.old.path }
        ensures { IsReadyToWalk self.new }
    {
        self.unasked = 0;
        self.path.clear();
    }

    /// Passes a schedule. Returns whether the walk goes on: after each 64 the watch is asked.
    #[inline(always)]
    pub(crate) fn pass<W: Watch>(&mut self, watch: &mut W) -> bool
        requires { W.is_stopped watch.old ≡ false }
        ensures base { W.base watch.new ≡ W.base watch.old }
        ensures running { result ≡ true → W.is_stopped watch.new ≡ false }
        ensures stopped { result ≡ false → W.is_stopped watch.new ≡ true }
        ensures path { self.new.path ≡ self.old.path }
    {
        if self.unasked < UNASKED - 1 {
            self.unasked += 1;
            return true;
        }
        self.unasked = 0;
        !watch.stop()
    }

    /// Passes this many schedules together. Returns whether the walk goes on: the watch is asked as
    /// often as if they had been passed one after another.
    pub(crate) fn pass_many<W: Watch>(&mut self, passed: Counts, watch: &mut W) -> bool
        requires { W.is_stopped watch.old ≡ false }
        ensures base { W.base watch.new ≡ W.base watch.old }
        ensures running { result ≡ true → W.is_stopped watch.new ≡ false }
        ensures stopped { result ≡ false → W.is_stopped watch.new ≡ true }
        ensures path { self.new.path ≡ self.old.path }
    {
        let number = passed
            .complete
            .saturating_add(passed.stuck)
            .saturating_add(passed.cut);
        let unasked = number.saturating_add(u64::from(self.unasked));
        if watch.stop_within(unasked / u64::from(UNASKED)) {
            return false;
        }
        self.unasked = (unasked % u64::from(UNASKED)) as u8;
        true
    }
}
