//! The configurations of a history's linearizations.

ghost use Rattle.std.specs.Prelude.{◌≡◌, ◌↔◌, ◌<◌, IfOk, IsTrue, []};
ghost use Rattle.lu_history.specs.Parts.{as_serial};
ghost use Rattle.lu_linearization.specs.Configurations.{Returns};
ghost use Rattle.lu_linearization.specs.Monitors.{AreClosed, AreInitial, AreNext, CanBeStuck, by_thread};

use crate::automaton::Automaton;
use crate::closing::close;
use crate::configuration::Configuration;
use crate::returned::all_returned;
use crate::stuck::any_can_be_stuck;
use lu_history::SerialOutcome;
use lu_machine::Outcome;
use std::alloc::{AllocError, Global};
use std::marker::Model;

/// The configurations of the linearizations of a history of up to 8 threads. In clauses it is their
/// list.
#[derive(Drop)]
pub struct Monitor {
    configurations: Vec<Configuration>,
}

impl Model for Monitor {
    ghost use Rattle.std.specs.Prelude.{List};
    ghost use Rattle.lu_linearization.specs.declared.configuration.Configuration.{Configuration};

    ghost Value = { List Configuration };

    ghost view = { λ monitor. monitor.configurations.items };
}

impl Monitor {
    /// The monitor of the empty history, where `start` is the first state of the automaton.
    ///
    /// # Errors
    ///
    /// Out of memory.
    pub fn new(alloc: Global, start: u32) -> Result<Monitor, AllocError>
        ensures { IfOk result (AreInitial start) }
    {
        let mut configurations = Vec::new(alloc);
        configurations.push(Configuration {
            state: start,
            effects: [None; 8],
        })?;
        Ok(Monitor { configurations })
    }

    /// The configurations, sorted.
    pub fn configurations(&self) -> &[Configuration]
        ensures { result.now ≡ self.now }
    {
        self.configurations.as_slice()
    }

    /// A copy of the monitor.
    ///
    /// # Errors
    ///
    /// Out of memory.
    pub fn try_clone(&self, alloc: Global) -> Result<Monitor, AllocError>
        ensures { IfOk result (λ monitor. monitor ≡ self.now) }
    {
        Ok(Monitor {
            configurations: Vec::from_slice(alloc, &self.configurations)?,
        })
    }

    /// Whether the history has no linearization.
    pub fn is_empty(&self) -> bool
        ensures { IsTrue result ↔ (self.now ≡ []) }
    {
        self.configurations.is_empty()
    }

    /// The monitor after a call of the thread, a number below 8. `pending` has the pending call of
    /// each thread, with this one among them.
    ///
    /// # Errors
    ///
    /// Out of memory.
    pub fn call<A: Automaton>(
        &self,
        alloc: Global,
        automaton: &A,
        pending: &[Option<A::Call>; 8],
        thread: u8,
    ) -> Result<Monitor, AllocError>
        requires { thread < 8 }
        ensures { IfOk result (λ monitor. AreClosed
            (A.next automaton.now) (by_thread pending.now) thread self.now monitor) }
    {
        let configurations = close(
            alloc,
            automaton,
            pending,
            self.configurations.as_slice(),
            usize::from(thread),
        )?;
        Ok(Monitor { configurations })
    }

    /// The monitor after the pending operation of the thread, a number below 8, returns with this
    /// outcome.
    ///
    /// # Errors
    ///
    /// Out of memory.
    pub fn ret(&self, alloc: Global, thread: u8, outcome: Outcome) -> Result<Monitor, AllocError>
        requires { thread < 8 }
        ensures { IfOk result
            (λ monitor. AreNext (Returns thread (as_serial outcome)) self.now monitor) }
    {
        let outcome = SerialOutcome::from(outcome);
        let configurations = all_returned(
            alloc,
            self.configurations.as_slice(),
            usize::from(thread),
            outcome,
        )?;
        Ok(Monitor { configurations })
    }

    /// Whether the call can be stuck: whether it is stuck in some configuration in which no pending
    /// operation has taken effect.
    pub fn can_be_stuck<A: Automaton>(&self, automaton: &A, call: A::Call) -> bool
        ensures { IsTrue result ↔ CanBeStuck (A.next automaton.now) call self.now }
    {
        any_can_be_stuck(automaton, self.configurations.as_slice(), call)
    }
}
