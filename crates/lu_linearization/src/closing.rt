//! Pending operations that take effect.

ghost use Rattle.std.specs.Prelude.{◌≡◌, IfOk, ◌<◌, Some, length, set};
ghost use Rattle.lu_linearization.specs.Monitors.{AddsNext, AreClosed, AreNext, IsNextOf, SomeTakesEffect, ThreadTakesEffect, by_thread};

use crate::automaton::Automaton;
use crate::configuration::{Configuration, add_all, add_any};
use lu_history::SerialOutcome;
use std::alloc::{AllocError, Global};

/// The configuration after the thread's operation has taken effect, with this outcome and state.
fn with_effect(
    from: &Configuration,
    thread: usize,
    outcome: SerialOutcome,
    state: u32,
) -> Configuration
    requires { thread < 8 }
    ensures state { result.state ≡ state }
    ensures effects { result.effects ≡ set from.now.effects thread (Some outcome) }
    ensures long { length from.now.effects ≡ 8 }
{
    let mut to = *from;
    to.state = state;
    to.effects[thread] = Some(outcome);
    to
}

/// The configuration after the thread's pending operation takes effect. None where it has no
/// pending operation, where that has taken effect already, or where it is stuck.
pub(crate) fn take_effect<A: Automaton>(
    automaton: &A,
    pending: &[Option<A::Call>; 8],
    from: &Configuration,
    thread: usize,
) -> Option<Configuration>
    requires { thread < 8 }
    ensures { IsNextOf
        (ThreadTakesEffect (A.next automaton.now) (by_thread pending.now) thread)
        from.now result }
{
    let call = match pending[thread] {
        None => return None,
        Some(call) => call,
    };
    match from.effects[thread] {
        Some(_) => return None,
        None => {}
    }
    match automaton.step(from.state, call) {
        None => None,
        Some((outcome, state)) => Some(with_effect(from, thread, outcome, state)),
    }
}

/// Adds each configuration to which one pending operation leads.
fn add_effects<A: Automaton>(
    automaton: &A,
    pending: &[Option<A::Call>; 8],
    from: &Configuration,
    to: &mut Vec<Configuration>,
) -> Result<(), AllocError>
    ensures { IfOk result (λ _. AddsNext
        (SomeTakesEffect (A.next automaton.now) (by_thread pending.now))
        from.now to.old.items to.new.items) }
{
    for thread in 0..8 {
        let next = take_effect(automaton, pending, from, thread);
        add_any(to, next)?;
    }
    Ok(())
}

/// The configurations to which one pending operation leads from these.
fn next_layer<A: Automaton>(
    alloc: Global,
    automaton: &A,
    pending: &[Option<A::Call>; 8],
    from: &[Configuration],
) -> Result<Vec<Configuration>, AllocError>
    ensures { IfOk result (λ to. AreNext
        (SomeTakesEffect (A.next automaton.now) (by_thread pending.now))
        from.now to.items) }
{
    let mut to = Vec::new(alloc);
    for one in from {
        add_effects(automaton, pending, one, &mut to)?;
    }
    Ok(to)
}

/// The configurations to which the thread's pending operation leads from these.
fn first_layer<A: Automaton>(
    alloc: Global,
    automaton: &A,
    pending: &[Option<A::Call>; 8],
    from: &[Configuration],
    thread: usize,
) -> Result<Vec<Configuration>, AllocError>
    requires { thread < 8 }
    ensures { IfOk result (λ to. AreNext
        (ThreadTakesEffect (A.next automaton.now) (by_thread pending.now) thread)
        from.now to.items) }
{
    let mut to = Vec::new(alloc);
    for one in from {
        let next = take_effect(automaton, pending, one, thread);
        add_any(&mut to, next)?;
    }
    Ok(to)
}

/// These configurations, and those to which the thread's pending operation leads from them,
/// followed by any number of other pending operations.
pub(crate) fn close<A: Automaton>(
    alloc: Global,
    automaton: &A,
    pending: &[Option<A::Call>; 8],
    from: &[Configuration],
    thread: usize,
) -> Result<Vec<Configuration>, AllocError>
    requires { thread < 8 }
    ensures { IfOk result (λ to. AreClosed
        (A.next automaton.now) (by_thread pending.now) thread from.now to.items) }
{
    let mut all = Vec::from_slice(alloc, from)?;
    let mut layer = first_layer(alloc, automaton, pending, from, thread)?;
    add_all(&mut all, &layer)?;
    for _round in 0..8u8 {
        if layer.is_empty() {
            return Ok(all);
        }
        layer = next_layer(alloc, automaton, pending, &layer)?;
        add_all(&mut all, &layer)?;
    }
    Ok(all)
}
