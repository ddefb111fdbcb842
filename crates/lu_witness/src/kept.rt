//! Histories as the search reads them.

ghost use Rattle.std.specs.Prelude.{◌≡◌, ◌<◌, IsSome, slice_get};
ghost use Rattle.lu_history.specs.Histories.{IsWellFormed, AreBefore, calls};
ghost use Rattle.lu_history.specs.Parts.{part, keep_pending};
ghost use Rattle.lu_test.specs.declared.matrix.TheConstants.{MOST_CALLS_OF_THREAD, MOST_THREADS};

use lu_history::{History, OpId, SerialOutcome};
use std::marker::Model;

/// A history, whole or without the pending calls of all threads but one. It is read in place, so
/// leaving calls out takes no memory. In clauses it is the list of the events that are kept.
#[derive(Drop)]
pub(crate) struct Kept<'a> {
    history: &'a History,

    /// The thread whose pending call alone is kept, or `None` where all are.
    alone: Option<u8>,
}

impl<'a> Model for Kept<'a> {
    ghost use Rattle.std.specs.Prelude.{List};
    ghost use Rattle.lu_machine.specs.declared.event.Event.{Event};

    ghost Value = { List Event };

    ghost use Rattle.lu_history.specs.Histories.{IsWellFormed};
    ghost use Rattle.lu_witness.specs.Kept.{kept_events};

    ghost view = { λ a. kept_events a.alone a.history.now };

    ghost invariant = { λ a. IsWellFormed a.history.now };
}

impl<'a> Kept<'a> {
    /// The whole history.
    pub(crate) fn whole(history: &'a History) -> Kept<'a>
        ensures events { result ≡ history.now }
        ensures well_formed { IsWellFormed result }
    {
        // For the proof: a history's own rule is known from its calls, and no other call comes
        // before.
        let _events = history.events();
        Kept {
            history,
            alone: None,
        }
    }

    /// The history without the pending calls of threads other than `t`.
    pub(crate) fn alone(history: &'a History, t: u8) -> Kept<'a>
        requires { IsWellFormed history.now }
        ensures events { result ≡ keep_pending t history.now }
        ensures well_formed { IsWellFormed result }
    {
        Kept {
            history,
            alone: Some(t),
        }
    }

    /// The number of thread `t`'s calls.
    pub(crate) fn calls(&self, t: u8) -> u8
        requires { t < MOST_THREADS }
        ensures { result ≡ calls t self.now }
    {
        let calls = self.history.calls(t);
        match self.alone {
            Some(alone) if alone != t && self.history.pending(t) => calls - 1,
            _ => calls,
        }
    }

    /// How the operation ended: `Stuck` where it is pending, `None` where it is not called.
    pub(crate) fn ended(&self, a: OpId) -> Option<SerialOutcome>
        requires { a.t < MOST_THREADS }
        ensures ended { result ≡ slice_get (part a.t self.now) a.k }
        ensures few { IsSome result → a.k < MOST_CALLS_OF_THREAD }
    {
        if a.k < self.calls(a.t) {
            self.history.ended(a)
        } else {
            None
        }
    }

    /// How many operations of each thread return before `b` is called.
    pub(crate) fn before(&self, b: OpId) -> &'a [u8; 8]
        requires thread { b.t < MOST_THREADS }
        requires call { b.k < MOST_CALLS_OF_THREAD }
        ensures { AreBefore self.now b result.now }
    {
        self.history.before(b)
    }
}
