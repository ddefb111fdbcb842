//! Automata that read serial histories.

ghost use Rattle.std.specs.Prelude.{◌≡◌, ◌↔◌, ℕ, List, []};
ghost use Rattle.lu_history.specs.declared.operation.OpId.{OpId};
ghost use Rattle.lu_history.specs.declared.serial.SerialOp.{SerialOp};
ghost use Rattle.lu_history.specs.declared.serial.SerialOutcome.{SerialOutcome};
ghost use Rattle.lu_linearization.specs.Configurations.{IsAutomaton};
ghost use Rattle.lu_linearization.specs.Monitors.{IsStep};

use lu_history::SerialOutcome;

/// A deterministic automaton with numbered states. In each state, a call has one outcome, or none:
/// then it is stuck there.
pub trait Automaton {
    /// What an operation calls.
    type Call: Copy;

    /// The transitions: from a state, by a call with an outcome, to a state.
    ghost next: { Self → ℕ → Self.Call → SerialOutcome → ℕ → Type 0 };

    /// The outcome of the call in this state, and the state to which it leads. None where the call
    /// is stuck.
    fn step(&self, state: u32, call: Self::Call) -> Option<(SerialOutcome, u32)>
        ensures { IsStep (next self.now) state call result };
}

/// An automaton that reads serial histories from a first state.
pub trait SerialReader: Automaton {
    /// The state to which a list of operations leads.
    ghost leads_to: { Self → List SerialOp → ℕ → Type 0 };

    /// The call of each operation.
    ghost call_of: { Self → OpId → Self.Call };

    /// The state before any operation.
    fn start(&self) -> u32
        ensures { (x : ℕ) → leads_to self.now [] x ↔ (x ≡ result) };

    ghost is_automaton: { (it : Self) → IsAutomaton (leads_to it) (Self.next it) (call_of it) };
}
