//! The table as an automaton.

ghost use Rattle.std.specs.Prelude.{◌≡◌, ◌↔◌, IsTrue};
ghost use Rattle.lu_linearization.specs.Monitors.{by_thread};
ghost use Rattle.lu_run.specs.Following.{NextState, question_of};
ghost use Rattle.lu_run.specs.Foreseeing.{Allows, NextForeseen};

use crate::table::{Question, Table, recall};
use lu_history::SerialOutcome;
use lu_linearization::Automaton;

/// The call of an operation.
#[derive(Clone, Copy, Debug, PartialEq, Eq)]
pub(crate) struct ThreadCall {
    pub(crate) thread: u8,

    /// The number of the call in the run.
    pub(crate) call: u32,
}

/// The question what the call answers in the state.
pub(crate) fn question_of(state: u32, call: ThreadCall) -> Question
    ensures { result ≡ question_of state call }
{
    Question {
        state,
        thread: call.thread,
        call: call.call,
    }
}

impl Automaton for Table {
    type Call = ThreadCall;

    ghost next = { NextState };

    fn step(&self, state: u32, call: ThreadCall) -> Option<(SerialOutcome, u32)> {
        match recall(self, question_of(state, call)) {
            None => None,
            Some(step) => step,
        }
    }
}

/// The automaton without the steps that contradict what pending calls return later in the run.
#[derive(Clone, Copy)]
pub(crate) struct Foreseen<'a> {
    pub(crate) table: &'a Table,

    /// For each thread, what its pending call returns, if it returns in the run.
    pub(crate) returns: &'a [Option<SerialOutcome>; 8],
}

/// Whether the thread's call may return this outcome.
pub(crate) fn is_allowed(
    returns: &[Option<SerialOutcome>; 8],
    thread: u8,
    outcome: SerialOutcome,
) -> bool
    ensures { IsTrue result ↔ Allows (by_thread returns.now thread) outcome }
{
    match returns.get(usize::from(thread)) {
        None => true,
        Some(known) => match known {
            None => true,
            Some(known) => outcome == *known,
        },
    }
}

impl<'a> Automaton for Foreseen<'a> {
    type Call = ThreadCall;

    ghost next = { NextForeseen };

    fn step(&self, state: u32, call: ThreadCall) -> Option<(SerialOutcome, u32)> {
        match self.table.step(state, call) {
            None => None,
            Some((outcome, next)) => {
                if is_allowed(self.returns, call.thread, outcome) {
                    Some((outcome, next))
                } else {
                    None
                }
            }
        }
    }
}
