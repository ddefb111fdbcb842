//! A history that remembers which histories were good.

ghost use Rattle.std.specs.Prelude.{◌≡◌, ◌≢◌, ◌∷◌, [], ◌++◌, IfOk};
ghost use Rattle.lu_history.specs.Histories.{Fits, IsWellFormed};
ghost use Rattle.lu_witness.specs.Caches.{SameButEntries};
ghost use Rattle.lu_witness.specs.Witnesses.{IsMember, IsVerdict};
ghost use Rattle.lu_judge.specs.Returned.{returned};
ghost use Rattle.lu_judge.specs.Trails.{IsJudgedAs};

use crate::events::{Events, refill};
use crate::path::Path;
use crate::uses::Uses;
use lu_history::{History, SerialOp, SerialOutcome};
use lu_machine::Event;
use lu_trie::SerialTree;
use lu_witness::{Cache, Verdict};
use std::alloc::{AllocError, Global};
use std::marker::Model;

/// The history of a walk, and the tree of serial histories over which it is judged. In clauses it
/// is the two.
///
/// It remembers which histories were judged good, as long as it has room for their beginnings.
/// Where that is used up and most of what was judged was not known, it remembers none any more:
/// nearly every schedule then has a history of its own.
#[derive(Drop)]
pub struct Trail<'t, T: SerialTree> {
    tree: &'t T,
    path: Path,

    /// The events of the history where no beginnings are remembered, and else those that were
    /// written out last.
    events: Events,

    /// Whether no beginnings are remembered any more, since that was of little use.
    is_plain: bool,

    /// The history that was judged last, whose room is used again.
    judged: History,

    /// How what is remembered was of use.
    uses: Uses,
}

impl<'t, T: SerialTree> Model for Trail<'t, T> {
    ghost use Rattle.lu_judge.specs.Trails.{Trail as ATrail, IsTrail, history_in};

    ghost Value = { ATrail T };

    ghost view = { λ a. record {
      tree = a.tree.now;
      history = history_in a.is_plain a.events a.path;
    } };

    ghost invariant = { λ a. IsTrail (T.members a.tree.now) a.is_plain a.events a.path };
}

/// The verdict of a history that is not known to be good, which is written into the room of the one
/// that was judged last.
#[inline(never)]
fn verdict_of<'t, T: SerialTree>(
    tree: &'t T,
    cache: &mut Cache<'t, T>,
    events: &[Event],
    judged: &mut History,
    uses: &mut Uses,
) -> Result<Verdict, AllocError>
    requires tree { cache.old.tree ≡ tree.now }
    requires well_formed { IsWellFormed events.now }
    ensures cache { SameButEntries cache.old cache.new }
    ensures verdict { IfOk result (IsVerdict (IsMember (T.members tree.now)) events.now) }
{
    refill(judged, events)?;
    Ok(uses.verdict(tree, cache, judged))
}

/// The operations of the events that return, in the order in which they do.
fn returned(alloc: Global, events: &[Event]) -> Result<Vec<SerialOp>, AllocError>
    ensures { IfOk result (λ ops. ops.items ≡ returned events.now) }
{
    let mut ops = Vec::new(alloc);
    for event in events {
        match *event {
            Event::Call { .. } => {}
            Event::Return { t, k: _, outcome } => ops.push(SerialOp {
                thread: t,
                outcome: SerialOutcome::from(outcome),
            })?,
        }
    }
    Ok(ops)
}

impl<'t, T: SerialTree> Trail<'t, T> {
    /// The empty history, with room for all that it will remember.
    ///
    /// # Errors
    ///
    /// Memory was refused.
    pub fn new(alloc: Global, tree: &'t T) -> Result<Trail<'t, T>, AllocError>
        ensures tree { IfOk result (λ trail. trail.tree ≡ tree.entry.now) }
        ensures history { IfOk result (λ trail. trail.history ≡ []) }
    {
        Ok(Trail {
            tree,
            path: Path::new(alloc)?,
            events: Events::new(),
            is_plain: false,
            judged: History::new(alloc),
            uses: Uses::new(),
        })
    }

    /// Adds an event at the end. It is asked to fit.
    #[inline(always)]
    pub fn push(&mut self, event: Event)
        requires { Fits self.old.history event }
        ensures tree { self.new.tree ≡ self.old.tree }
        ensures history { self.new.history ≡ self.old.history ++ event ∷ [] }
    {
        if self.is_plain {
            self.events.push(event);
            return;
        }
        if self.path.follow(event) {
            return;
        }
        if self.path.is_full() {
            if !self.uses.most_are_known() {
                self.path.write(&mut self.events);
                self.events.push(event);
                self.is_plain = true;
                return;
            }
            self.path.renew();
        }
        self.path.add(event);
    }

    /// Takes the last event away. The history is asked not to be empty.
    #[inline(always)]
    pub fn pop(&mut self) -> Event
        requires { self.old.history ≢ [] }
        ensures tree { self.new.tree ≡ self.old.tree }
        ensures history { self.old.history ≡ self.new.history ++ result ∷ [] }
    {
        if self.is_plain {
            self.events.pop()
        } else {
            self.path.pop()
        }
    }

    /// Forgets the history, and remembers what was judged good.
    pub fn clear(&mut self)
        ensures tree { self.new.tree ≡ self.old.tree }
        ensures history { self.new.history ≡ [] }
    {
        self.path.clear();
        self.events.clear();
    }

    /// The verdict of the history over the tree. A cache over that tree is asked for it where the
    /// history is not known to be good; but where nearly every history is a new one the cache is
    /// asked for one of 64, since to look a history up takes longer than to search for its
    /// witnesses.
    ///
    /// # Errors
    ///
    /// `AllocError` where memory was refused, which comes only while the history is longer than
    /// each that was judged before.
    #[inline(always)]
    pub fn judge(&mut self, cache: &mut Cache<'t, T>) -> Result<Verdict, AllocError>
        requires { cache.old.tree ≡ self.old.tree }
        ensures same { self.new ≡ self.old }
        ensures cache { SameButEntries cache.old cache.new }
        ensures well_formed { IsWellFormed self.old.history }
        ensures verdict { IfOk result (IsJudgedAs T.members self.old) }
    {
        self.uses.count();
        if self.is_plain {
            let events = self.events.as_slice();
            return verdict_of(self.tree, cache, events, &mut self.judged, &mut self.uses);
        }
        if self.path.is_good() {
            return Ok(Verdict::Good);
        }
        self.path.write(&mut self.events);
        let events = self.events.as_slice();
        let verdict = verdict_of(self.tree, cache, events, &mut self.judged, &mut self.uses)?;
        if verdict == Verdict::Good {
            self.path.note_good();
        }
        Ok(verdict)
    }

    /// The operations that have returned, in the order in which they did.
    ///
    /// # Errors
    ///
    /// `AllocError` where memory was refused.
    pub fn returned(&mut self, alloc: Global) -> Result<Vec<SerialOp>, AllocError>
        ensures same { self.new ≡ self.old }
        ensures well_formed { IsWellFormed self.old.history }
        ensures returned { IfOk result (λ ops. ops.items ≡ returned self.old.history) }
    {
        if self.is_plain {
            return returned(alloc, self.events.as_slice());
        }
        self.path.write(&mut self.events);
        returned(alloc, self.events.as_slice())
    }
}
