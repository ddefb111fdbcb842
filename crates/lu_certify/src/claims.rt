//! What workers take to do, one after the other.
//!
//! All that is to do stands in a row: each cut but the last, in order, which is judged and whose
//! livelock is sought; then the livelock of the last cut; then the last cut, which is judged. That
//! is the whole matrix, and takes longest. The calling thread takes from the end of the row: it
//! judges the whole matrix, and seeks its livelock then. The other workers take from the start; the
//! first of them that has no cut left seeks the livelock of the whole matrix meanwhile, before it
//! rests and helps.

ghost use Rattle.std.specs.Prelude.{◌<◌, IfSome};

use crate::judged::Judged;
use crate::looked::Found;
use crate::progress::Progress;
use lu_graph::Helpers;
use std::sync::atomic::{AtomicU8, AtomicU64, Ordering};

/// From which end of the row a worker takes what is to do. Small cuts stand first, and are soon
/// done, as most failures are found in them.
#[derive(Clone, Copy)]
pub(crate) enum End {
    First,
    Last,
}

/// What is to be found of a cut.
#[derive(Clone, Copy)]
pub(crate) enum Part {
    /// How it is judged, and its first lost schedule, where that is asked for.
    Both,

    /// How it is judged.
    Judged,

    /// Its first lost schedule.
    Lost,
}

/// What a worker takes: this part of the cut with this number.
#[derive(Clone, Copy)]
pub(crate) struct Task {
    pub(crate) number: u64,
    pub(crate) part: Part,
}

impl Task {
    /// Its position among what is wanted: a lost schedule comes after its cut, as it is not wanted
    /// where that fails.
    pub(crate) fn position(&self) -> u64 {
        match self.part {
            Part::Both => self.number,
            Part::Judged => self.number,
            Part::Lost => self.number.saturating_add(1),
        }
    }
}

/// How much was taken from either end, after which cut nothing is wanted, and how many workers
/// rest. What is found of a cut does not hang on that.
#[derive(Drop)]
pub(crate) struct Claims {
    first: AtomicU64,
    last: AtomicU64,
    pub(crate) last_wanted: AtomicU64,
    resting: AtomicU8,

    /// How many nodes were kept of the last cut, and how many of its two parts are done.
    nodes: AtomicU64,
    parts: AtomicU8,
}

impl Claims {
    /// Nothing is taken, all is wanted, and no worker rests.
    pub(crate) fn new() -> Claims {
        Claims {
            first: AtomicU64::new(0),
            last: AtomicU64::new(0),
            last_wanted: AtomicU64::new(u64::MAX),
            resting: AtomicU8::new(0),
            nodes: AtomicU64::new(0),
            parts: AtomicU8::new(0),
        }
    }

    /// What is to do next from this end, of this many cuts, if both ends have not met.
    pub(crate) fn next(&self, end: End, cuts: u64) -> Option<Task>
        ensures { IfSome result (λ task. task.number < cuts) }
    {
        let (mine, others) = match end {
            End::First => (&self.first, &self.last),
            End::Last => (&self.last, &self.first),
        };
        let last = cuts.checked_sub(1)?;
        let taken = mine.fetch_add(1, Ordering::SeqCst);
        let all = cuts.saturating_add(1);
        if taken >= all.saturating_sub(others.load(Ordering::SeqCst)) {
            return None;
        }
        let number = match end {
            End::First => taken,
            End::Last => cuts.saturating_sub(taken),
        };
        if number < last {
            return Some(Task {
                number,
                part: Part::Both,
            });
        }
        let part = if number == last {
            Part::Lost
        } else {
            Part::Judged
        };
        Some(Task { number: last, part })
    }

    /// Notes that nothing is wanted after the cut with this number. Where two are noted at once,
    /// the greater may stay, which costs some work and no more.
    fn end_after(&self, number: u64) {
        if number < self.last_wanted.load(Ordering::SeqCst) {
            self.last_wanted.store(number, Ordering::SeqCst);
        }
    }

    /// Notes what was found of the cut with this number, of this many cuts. Where it fails, nothing
    /// after it is wanted. Where it asks for no lost schedule, mostly since a serial run offends,
    /// the last cut will ask for none either.
    pub(crate) fn note(&self, number: u64, cuts: u64, found: &Found) {
        match &found.judged {
            None => {}
            Some(Judged::Failing(_)) => self.end_after(number),
            Some(Judged::Stands(standing)) => {
                if !standing.asks_for_lost() {
                    self.end_after(cuts.saturating_sub(1));
                }
            }
        }
    }

    /// Reports that a cut is done, with this part, for which this many nodes were kept: the last cut
    /// when both parts of it are.
    pub(crate) fn report<P: Progress>(&self, progress: &P, part: Part, nodes: u64) {
        if matches!(part, Part::Both) {
            progress.done(nodes);
            return;
        }
        self.nodes.fetch_add(nodes, Ordering::SeqCst);
        if self.parts.fetch_add(1, Ordering::SeqCst) == 1 {
            progress.done(self.nodes.load(Ordering::SeqCst));
        }
    }

    /// Notes that one worker more has nothing to take.
    pub(crate) fn rest(&self) {
        self.resting.fetch_add(1, Ordering::SeqCst);
    }
}

/// The workers that rest help those that go on.
impl Helpers for Claims {
    fn count(&self) -> u8 {
        self.resting.load(Ordering::SeqCst)
    }
}
