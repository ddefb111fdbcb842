//! What is known of the schedules that go on from a beginning.

ghost use Rattle.std.specs.Prelude.{◌≡◌, ◌<◌, [], IfOk, IfSome};
ghost use Rattle.lu_machine.specs.Sums.{plus};
ghost use Rattle.lu_test.specs.declared.matrix.TheConstants.{MOST_THREADS};
ghost use Rattle.lu_tree.specs.Known.{IsAmongOr, IsHint, IsHintOr, IsKid, TellsNoMore, counts_of, kids_of};

use crate::thread_set::ThreadSet;
use lu_machine::Counts;
use std::alloc::{AllocError, Global};

/// Which part of the room that is left, in beginnings, one may take with those that go on from it.
const SHARE: u32 = 4;

/// How many schedules go on from a beginning, and from longer ones, which are given by the threads
/// that moved. No state is kept.
#[derive(Drop)]
pub(crate) struct Known {
    pub(crate) counts: Counts,

    /// Of how many beginnings it tells.
    pub(crate) size: u32,

    /// What is known after the only moves of some threads.
    kids: Vec<(u8, Known)>,
}

/// What is known after the only moves of some threads.
#[derive(Clone, Copy)]
pub(crate) struct Hints<'k> {
    by_thread: [Option<&'k Known>; 8],
}

impl<'k> Hints<'k> {
    /// Nothing is known.
    pub(crate) const NONE: Hints<'static> = Hints {
        by_thread: [None; 8],
    };

    /// What is known after the only move of the thread.
    #[inline(always)]
    pub(crate) fn after(&self, thread: u8) -> Option<&'k Known>
        ensures { IfSome result (λ below. IsHint self.now thread below.now) }
    {
        match self.by_thread.get(usize::from(thread)) {
            Some(hint) => *hint,
            None => None,
        }
    }

    /// The same of a thread with this many moves.
    #[inline(always)]
    pub(crate) fn after_one_of(&self, picks: u8, thread: u8) -> Option<&'k Known>
        ensures only { IfSome result (λ _. picks ≡ 1) }
        ensures hint { IfSome result (λ below. IsHint self.now thread below.now) }
    {
        if picks == 1 { self.after(thread) } else { None }
    }

    /// This is known after the only move of the thread.
    #[inline(always)]
    pub(crate) fn add(&mut self, thread: u8, below: &'k Known)
        requires { thread < MOST_THREADS }
        ensures { IsHintOr thread below.entry.now self.old self.new }
    {
        let slots = &mut self.by_thread[..];
        slots[usize::from(thread)] = Some(below);
    }
}

impl Known {
    /// These numbers, and nothing of longer beginnings.
    pub(crate) fn alone(alloc: Global, counts: Counts) -> Known
        ensures counts { counts_of result ≡ counts }
        ensures kids { kids_of result ≡ [] }
    {
        Known {
            counts,
            size: 1,
            kids: Vec::new(alloc),
        }
    }

    /// What is known after the only move of the thread.
    pub(crate) fn after(&self, thread: u8) -> Option<&Known>
        ensures { IfSome result (λ below. IsKid self.now thread below.now) }
    {
        for (of, below) in &self.kids {
            if *of == thread {
                return Some(below);
            }
        }
        None
    }

    /// Adds these numbers.
    pub(crate) fn add(&mut self, below: Counts)
        ensures counts { counts_of self.new ≡ plus (counts_of self.old) below }
        ensures kids { kids_of self.new ≡ kids_of self.old }
    {
        self.counts = self.counts.plus(below);
    }

    /// Keeps what is known after a move of a thread with this many moves, where it is the only one.
    pub(crate) fn keep(&mut self, picks: u8, thread: u8, below: Known) -> Result<(), AllocError>
        ensures counts { counts_of self.new ≡ counts_of self.old }
        ensures kids { IsAmongOr (thread, below) (kids_of self.old) (kids_of self.new) }
    {
        if picks != 1 {
            return Ok(());
        }
        let size = self.size.saturating_add(below.size);
        self.kids.reserve_exact(1)?;
        self.kids.push((thread, below))?;
        self.size = size;
        Ok(())
    }

    /// Of how many beginnings it tells that are no more than this many moves longer. No clause says
    /// so: it only saves room.
    fn size_within(&self, moves: u8) -> u32 {
        let mut size: u32 = 1;
        if moves > 0 {
            for (_, below) in &self.kids {
                size = size.saturating_add(below.size_within(moves - 1));
            }
        }
        size
    }

    /// How many moves on it may tell of, where it tells of at most this many beginnings. No clause
    /// says so: it only saves room.
    fn moves_within(&self, most: u32) -> u8 {
        for moves in 0..u8::MAX {
            if self.size_within(moves + 1) > most {
                return moves;
            }
        }
        u8::MAX
    }

    /// What it tells of beginnings that are no more than this many moves longer, and in which some
    /// of these threads have not moved.
    fn within(self, alloc: Global, moves: u8, waiting: ThreadSet) -> Result<Known, AllocError>
        ensures { IfOk result (TellsNoMore self) }
    {
        let mut known = Known::alone(alloc, self.counts);
        if moves == 0 {
            return Ok(known);
        }
        for (thread, below) in self.kids {
            let others = waiting.without(thread);
            if others.is_empty() {
                continue;
            }
            let nearer = below.within(alloc, moves - 1, others)?;
            known.keep(1, thread, nearer)?;
        }
        Ok(known)
    }

    /// What of it a walk keeps as it comes back from a beginning in which these threads moved:
    /// where all would take too much of the room, what may be asked for, and of that the shortest
    /// beginnings alone. For what is known after a thread's move is asked for as long as that
    /// thread does not move again, so nothing is where all of these have.
    pub(crate) fn keep_nearest(
        self,
        alloc: Global,
        room: u32,
        moved: ThreadSet,
    ) -> Result<Known, AllocError>
        ensures { IfOk result (TellsNoMore self) }
    {
        let most = room / SHARE;
        if self.size <= most {
            return Ok(self);
        }
        let asked = self.within(alloc, u8::MAX, moved)?;
        if asked.size <= most {
            return Ok(asked);
        }
        let moves = asked.moves_within(most);
        asked.within(alloc, moves, moved)
    }
}
