//! Calls that are stuck in a configuration.

ghost use Rattle.std.specs.Prelude.{◌≡◌, ◌↔◌, ℕ, IsTrue, None, get_or};
ghost use Rattle.lu_linearization.specs.Monitors.{CanBeStuck, CanBeStuckAt, IsStuckFrom, configuration_of};

use crate::automaton::Automaton;
use crate::configuration::Configuration;

/// Whether no pending operation has taken effect.
fn has_no_effect(one: &Configuration) -> bool
    ensures { IsTrue result ↔ ((t : ℕ) → get_or one.now.effects t None ≡ None) }
{
    for thread in 0..8 {
        if one.effects[thread].is_some() {
            return false;
        }
    }
    true
}

/// Whether the call is stuck in this state.
fn is_stuck<A: Automaton>(automaton: &A, state: u32, call: A::Call) -> bool
    ensures { IsTrue result ↔ IsStuckFrom (A.next automaton.now) state call }
{
    match automaton.step(state, call) {
        None => true,
        Some(_) => false,
    }
}

/// Whether no pending operation has taken effect, and the call is stuck in this state.
fn can_be_stuck_at<A: Automaton>(automaton: &A, one: &Configuration, call: A::Call) -> bool
    ensures { IsTrue result ↔ CanBeStuckAt (A.next automaton.now) call (configuration_of one.now) }
{
    if has_no_effect(one) {
        return is_stuck(automaton, one.state, call);
    }
    false
}

/// Whether the call can be stuck in one of these configurations.
pub(crate) fn any_can_be_stuck<A: Automaton>(
    automaton: &A,
    all: &[Configuration],
    call: A::Call,
) -> bool
    ensures { IsTrue result ↔ CanBeStuck (A.next automaton.now) call all.now }
{
    for one in all {
        if can_be_stuck_at(automaton, one, call) {
            return true;
        }
    }
    false
}
