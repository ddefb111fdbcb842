//! Histories that are cheap to extend, to shorten and to ask.

ghost use Rattle.std.specs.Prelude.{◌≡◌, ◌≢◌, ◌↔◌, ◌<◌, [], ◌∷◌, ◌++◌, IsTrue, OnOk, OnErr, IfOk, IsSome, slice_get};
ghost use Rattle.lu_machine.specs.declared.event.Event.{Event};
ghost use Rattle.lu_history.specs.declared.operation.OpId.{OpId};
ghost use Rattle.lu_history.specs.Histories.{Fits, HasPending, IsWellFormed, Precedes, AreBefore, calls, outcomes, pending, thread_of};
ghost use Rattle.lu_history.specs.Parts.{LeavesOutOthers, part, is_kept, keep_pending};
ghost use Rattle.lu_test.specs.declared.matrix.TheConstants.{MOST_CALLS_OF_THREAD, MOST_THREADS};

use crate::fault::HistoryFault;
use crate::operation::OpId;
use crate::serial::SerialOutcome;
use lu_machine::{Event, Outcome};
use lu_test::{MOST_CALLS_OF_THREAD, MOST_THREADS};
use std::alloc::Global;
use std::marker::Model;

/// The number of operations that a history can have.
const ROWS: usize = MOST_THREADS * MOST_CALLS_OF_THREAD;

/// The calls and returns of up to 8 threads with up to 8 calls each, in the order in which they
/// happened. In clauses it is the list of its events.
///
/// A walk over schedules extends, shortens and asks its history at every step. So the numbers of
/// calls and returns, the outcomes and what had returned at each call stand beside the events in
/// tables of fixed size. What the tables have past the numbers is never read, and nothing needs to
/// be cleared.
#[derive(Drop)]
pub struct History {
    events: Vec<Event>,

    /// The number of calls of each thread.
    called: [u8; MOST_THREADS],

    /// The number of returns of each thread.
    returned: [u8; MOST_THREADS],

    /// The outcome of each operation that has returned.
    outcomes: [Outcome; ROWS],

    /// For each operation, the number of returns of each thread before its call.
    before: [[u8; MOST_THREADS]; ROWS],
}

impl Model for History {
    ghost use Rattle.std.specs.Prelude.{List};
    ghost use Rattle.lu_machine.specs.declared.event.Event.{Event};

    ghost Value = { List Event };

    ghost use Rattle.lu_history.specs.Tables.{AreTables};

    ghost view = { λ a. a.events.items };

    ghost invariant = { λ a. AreTables a.events.items a.called a.returned a.outcomes a.before };
}

impl History {
    /// The empty history. It takes no memory until it grows, and then takes it from `alloc`.
    pub fn new(alloc: Global) -> History
        ensures { result ≡ [] }
    {
        History {
            events: Vec::new(alloc),
            called: [0; MOST_THREADS],
            returned: [0; MOST_THREADS],
            outcomes: [Outcome::Trap; ROWS],
            before: [[0; MOST_THREADS]; ROWS],
        }
    }

    /// The events, in order. Each one fits those before it.
    pub fn events(&self) -> &[Event]
        ensures events { result.now ≡ self.now }
        ensures well_formed { IsWellFormed self.now }
    {
        self.events.as_slice()
    }

    /// How thread `t`'s operations returned, in order: the outcomes of the thread's part of the
    /// history (Herlihy and Wing, 1990). A pending one is not among them.
    pub fn outcomes(&self, t: u8) -> &[Outcome]
        requires { t < MOST_THREADS }
        ensures { result.now ≡ outcomes t self.now }
    {
        let first = OpId { t, k: 0 }.row();
        &self.outcomes[first..first + usize::from(self.returned[usize::from(t)])]
    }

    /// Whether thread `t`'s last operation is pending: called, and not returned.
    pub fn pending(&self, t: u8) -> bool
        requires { t < MOST_THREADS }
        ensures number { result ≡ pending t self.now }
        ensures call { IsTrue result ↔ HasPending t self.now }
        ensures well_formed { IsWellFormed self.now }
    {
        let t = usize::from(t);
        self.returned[t] < self.called[t]
    }

    /// The number of thread `t`'s calls. A search for a serial witness is done with a thread when
    /// it has taken as many.
    pub fn calls(&self, t: u8) -> u8
        requires { t < MOST_THREADS }
        ensures { result ≡ calls t self.now }
    {
        let t = usize::from(t);
        self.called[t]
    }

    /// How the operation ended: as it returned, `Stuck` where it is pending, `None` where it is not
    /// called. It is what a serial witness has at that operation.
    pub fn ended(&self, a: OpId) -> Option<SerialOutcome>
        requires { a.t < MOST_THREADS }
        ensures ended { result ≡ slice_get (part a.t self.now) a.k }
        ensures few { IsSome result → a.k < MOST_CALLS_OF_THREAD }
        ensures well_formed { IsWellFormed self.now }
    {
        if a.k < self.returned[usize::from(a.t)] {
            Some(SerialOutcome::from(self.outcomes(a.t)[usize::from(a.k)]))
        } else if a.k < self.called[usize::from(a.t)] {
            Some(SerialOutcome::Stuck)
        } else {
            None
        }
    }

    /// How many operations of each thread return before `b` is called, which is all that a search
    /// for a serial witness needs to know of precedence. Where `b` is not called the numbers mean
    /// nothing.
    pub fn before(&self, b: OpId) -> &[u8; 8]
        requires thread { b.t < MOST_THREADS }
        requires call { b.k < MOST_CALLS_OF_THREAD }
        ensures { AreBefore self.now b result.now }
    {
        &self.before[b.row()]
    }

    /// Whether `a` returns before `b` is called (Herlihy and Wing, 1990). It is false where `a` has
    /// no return or `b` no call.
    pub fn precedes(&self, a: OpId, b: OpId) -> bool
        requires a { (a.t < MOST_THREADS) × (a.k < MOST_CALLS_OF_THREAD) }
        requires b { (b.t < MOST_THREADS) × (b.k < MOST_CALLS_OF_THREAD) }
        ensures { IsTrue result ↔ Precedes self.now a b }
    {
        b.k < self.called[usize::from(b.t)] && a.k < self.before(b)[usize::from(a.t)]
    }

    /// Whether the event may come next: it is the next call of a thread without a pending one, or
    /// the return of its pending one.
    pub fn fits(&self, event: Event) -> bool
        ensures { IsTrue result ↔ Fits self.now event }
    {
        match event {
            Event::Call { t, k } => {
                t < 8
                    && k < 8
                    && self.called[usize::from(t)] == k
                    && self.returned[usize::from(t)] == k
            }
            Event::Return { t, k, outcome: _ } => {
                t < 8
                    && k < 8
                    && self.called[usize::from(t)] == k + 1
                    && self.returned[usize::from(t)] == k
            }
        }
    }

    /// Adds an event at the end. It is asked to fit ([`History::fits`]).
    ///
    /// # Errors
    ///
    /// [`HistoryFault::Memory`]: refused memory. The history then stays as it was.
    pub fn push(&mut self, event: Event) -> Result<(), HistoryFault>
        requires { Fits self.old event }
        ensures ok { OnOk result (self.new ≡ self.old ++ event ∷ []) }
        ensures err { OnErr result (self.new ≡ self.old) }
    {
        self.events.push(event)?;
        match event {
            Event::Call { t, k } => {
                self.before[OpId { t, k }.row()] = self.returned;
                self.called[usize::from(t)] += 1;
            }
            Event::Return { t, k, outcome } => {
                self.outcomes[OpId { t, k }.row()] = outcome;
                self.returned[usize::from(t)] += 1;
            }
        }
        Ok(())
    }

    /// Takes the last event away. The history is asked not to be empty.
    pub fn pop(&mut self) -> Event
        requires { self.old ≢ [] }
        ensures { self.old ≡ self.new ++ result ∷ [] }
    {
        let event = self.events.pop().unwrap();
        match event {
            Event::Call { t, k: _ } => self.called[usize::from(t)] -= 1,
            Event::Return {
                t,
                k: _,
                outcome: _,
            } => self.returned[usize::from(t)] -= 1,
        }
        event
    }

    /// A history of the same events.
    ///
    /// # Errors
    ///
    /// [`HistoryFault::Memory`]: refused memory.
    pub fn copy(&self) -> Result<History, HistoryFault>
        ensures { IfOk result (λ copy. copy ≡ self.now) }
    {
        Ok(History {
            events: Vec::from_slice(*self.events.allocator(), &self.events)?,
            called: self.called,
            returned: self.returned,
            outcomes: self.outcomes,
            before: self.before,
        })
    }

    /// Whether the event stays where no pending call but thread `t`'s is kept.
    fn is_kept(&self, t: u8, event: Event) -> bool
        requires { thread_of event < MOST_THREADS }
        ensures { result ≡ is_kept t self.now event }
    {
        match event {
            Event::Call { t: u, k } => u == t || k < self.returned[usize::from(u)],
            Event::Return { .. } => true,
        }
    }

    /// The history without the pending calls of threads other than `t`: where `t` has a pending
    /// call, the history with that one alone, for which a stuck history has to have a witness
    /// (Burckhardt, Dern, Musuvathi and Tan, 2010). Where `t` has no pending call, it has none.
    ///
    /// # Errors
    ///
    /// [`HistoryFault::Memory`]: refused memory.
    pub fn keep_pending(&self, t: u8) -> Result<History, HistoryFault>
        ensures kept { IfOk result (λ kept. kept ≡ keep_pending t self.now) }

        // What is left out are the pending calls of other threads.
        ensures left_out { LeavesOutOthers t self.now }
    {
        let mut kept = History::new(*self.events.allocator());
        for event in self.events() {
            if self.is_kept(t, *event) {
                kept.push(*event)?;
            }
        }
        Ok(kept)
    }
}
