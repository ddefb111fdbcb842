//! An order in which the operations of a run take effect.

ghost use Rattle.std.specs.Prelude.{◌≡◌, ◌<◌, ◌≤◌, ◌++◌, ◌+◌, ◌∷◌, [], IfErr, IfOk, IfSome, IsTrue, OnOk, length, slice_get};
ghost use Rattle.lu_machine.specs.declared.TheConstants.{MOST_MOVES};
ghost use Rattle.lu_machine.specs.Starts.{CanRun};
ghost use Rattle.lu_linearization.specs.Monitors.{by_thread};
ghost use Rattle.lu_run.specs.Finding.{IsAttempt};
ghost use Rattle.lu_run.specs.Following.{HasState};
ghost use Rattle.lu_run.specs.Offending.{IsFollowFaultOf, LearnsBy};
ghost use Rattle.lu_run.specs.Ordering.{EventsStay, FindsOrder, FollowsTo, HasOrder, IsNextEvent, IsOperationOf, IsSeated, PlacesTo, Replays, StepsTo};
ghost use Rattle.lu_run.specs.Runs.{AreEventsOf, IsRun};
ghost use Rattle.lu_run.specs.Tables.{AreCallsOf, IsTable};

use crate::automaton::ThreadCall;
use crate::finding::{
    Attempt, after_call, after_return, find_threads, first_attempt, is_outcome, take_effect,
};
use crate::following::{FollowFault, SerialRuns};
use crate::judging::{RunVerdict, thread_of};
use crate::run::{Run, RunEvent};
use crate::starting::{first_table, start_of};
use crate::table::Table;
use lu_component::Component;
use lu_history::SerialOutcome;
use lu_machine::Outcome;
use lu_test::Matrix;
use std::alloc::{AllocError, Global};

/// An operation of a run, as it takes effect in a linearization.
#[derive(Clone, Copy, Debug, PartialEq, Eq)]
pub struct RunOperation {
    pub thread: u8,

    /// The number of its call in the run.
    pub call: u32,

    pub outcome: SerialOutcome,
}

/// A linearization of the first events of a run.
#[derive(Drop)]
struct Replay {
    attempt: Attempt,
    order: Vec<RunOperation>,
}

/// The thread's pending operation in the attempt, if it has taken effect.
fn operation_of(attempt: &Attempt, thread: u8) -> Option<RunOperation>
    requires { thread < 8 }
    ensures { IfSome result (IsOperationOf attempt.now thread) }
{
    match attempt.pending[usize::from(thread)] {
        None => None,
        Some(call) => match attempt.configuration.effects[usize::from(thread)] {
            None => None,
            Some(outcome) => Some(RunOperation {
                thread,
                call: call.call,
                outcome,
            }),
        },
    }
}

/// The order with one more operation.
fn add(order: &mut Vec<RunOperation>, operation: RunOperation) -> Result<(), AllocError>
    ensures { OnOk result (order.new.items ≡ order.old.items ++ operation ∷ []) }
{
    order.push(operation)?;
    Ok(())
}

/// The linearization in which this thread's pending operation takes effect as well. None if it can't.
fn place(
    runs: SerialRuns<'_>,
    table: &mut Table,
    from: Replay,
    thread: u8,
) -> Result<Option<Replay>, FollowFault>
    requires table { IsTable runs.component.now runs.calls.now table.old }
    requires calls { AreCallsOf runs.component.now runs.calls.now }
    requires from { IsAttempt runs.calls.now table.old from.attempt }
    requires few { runs.bound ≤ MOST_MOVES }
    ensures learns { OnOk result (LearnsBy runs.entry table.old table.new) }
    ensures places { IfOk result (λ to. IfSome to (PlacesTo runs.entry table.old from table.new)) }
    ensures offends { IfErr result (IsFollowFaultOf runs.entry table.old) }
{
    if thread >= 8 {
        return Ok(None);
    }
    let Some(to) = take_effect(runs, table, &from.attempt, usize::from(thread))? else {
        return Ok(None);
    };
    let Some(operation) = operation_of(&to, thread) else {
        return Ok(None);
    };
    let mut order = from.order;
    add(&mut order, operation)?;
    Ok(Some(Replay { attempt: to, order }))
}

/// The linearization with the next event, if it is a call, or a return of an operation that has taken
/// effect with this outcome. None if it is a return of one that has taken effect with another outcome.
fn follow(event: RunEvent, next: usize, from: Replay) -> Option<Replay>
    requires event { IsSeated event }
    requires next { next ≡ from.attempt.events + 1 }
    ensures { IfSome result (FollowsTo event from) }
{
    match event {
        RunEvent::Call { thread, call } => {
            let attempt = after_call(&from.attempt, next, ThreadCall { thread, call }, None);
            Some(Replay {
                attempt,
                order: from.order,
            })
        }
        RunEvent::Return { thread, outcome } => {
            match from.attempt.configuration.effects[usize::from(thread)] {
                None => None,
                Some(effect) => {
                    if is_outcome(effect, outcome) {
                        let attempt = after_return(&from.attempt, next, thread);
                        Some(Replay {
                            attempt,
                            order: from.order,
                        })
                    } else {
                        None
                    }
                }
            }
        }
    }
}

/// The event after those of the attempt, if there is one; but not a return of an operation that has
/// not taken effect.
fn due(events: &[RunEvent], attempt: &Attempt) -> Option<RunEvent>
    ensures { IfSome result (IsNextEvent events.now attempt.now.events) }
{
    let event = *events.get(attempt.events)?;
    match event {
        RunEvent::Call { .. } => Some(event),
        RunEvent::Return { thread, .. } => {
            match attempt.configuration.effects.get(usize::from(thread)) {
                Some(Some(_)) => Some(event),
                _ => None,
            }
        }
    }
}

/// The linearization with the next event; or, where that can't follow yet or there is none, the one in
/// which this thread's operation takes effect as well. None if neither is possible.
fn step(
    runs: SerialRuns<'_>,
    table: &mut Table,
    events: &[RunEvent],
    from: Replay,
    thread: Option<u8>,
) -> Result<Option<Replay>, FollowFault>
    requires table { IsTable runs.component.now runs.calls.now table.old }
    requires calls { AreCallsOf runs.component.now runs.calls.now }
    requires events { AreEventsOf runs.calls.now events.now }
    requires from { IsAttempt runs.calls.now table.old from.attempt }
    requires few { runs.bound ≤ MOST_MOVES }
    ensures learns { OnOk result (LearnsBy runs.entry table.old table.new) }
    ensures steps { IfOk result
        (λ to. IfSome to (StepsTo runs.entry events.now table.old from table.new)) }
    ensures offends { IfErr result (IsFollowFaultOf runs.entry table.old) }
{
    match due(events, &from.attempt) {
        Some(event) => Ok(follow(event, from.attempt.events + 1, from)),
        None => match thread {
            None => Ok(None),
            Some(thread) => {
                let placed = place(runs, table, from, thread)?;
                Ok(placed)
            }
        },
    }
}

/// The thread of the operation that takes effect after `done` others, if there is one. The threads
/// are given the last first.
fn thread_at(threads: &[u8], done: usize) -> Option<u8> {
    let place = threads.len().checked_sub(done)?.checked_sub(1)?;
    threads.get(place).copied()
}

/// The linearization of these first events of a run in which operations of these threads take effect,
/// the last first. None if there is none.
fn play_threads(
    runs: SerialRuns<'_>,
    table: &mut Table,
    events: &[RunEvent],
    threads: &[u8],
) -> Result<Option<Replay>, FollowFault>
    requires table { IsTable runs.component.now runs.calls.now table.old }
    requires start { HasState table.old 0 }
    requires calls { AreCallsOf runs.component.now runs.calls.now }
    requires events { AreEventsOf runs.calls.now events.now }
    requires few { runs.bound ≤ MOST_MOVES }
    ensures learns { OnOk result (LearnsBy runs.entry table.old table.new) }
    ensures replays { IfOk result
        (λ to. IfSome to (Replays runs.entry events.now table.old table.new)) }
    ensures offends { IfErr result (IsFollowFaultOf runs.entry table.old) }
{
    let mut now = Replay {
        attempt: first_attempt(),
        order: Vec::new(runs.alloc),
    };
    let most = events.len().saturating_add(threads.len()).saturating_add(1);
    for _step in 0..most {
        let thread = thread_at(threads, now.order.len());
        if thread.is_none() && now.attempt.events >= events.len() {
            return Ok(Some(now));
        }
        match step(runs, table, events, now, thread)? {
            None => return Ok(None),
            Some(next) => now = next,
        }
    }
    Ok(None)
}

/// The events, and a return of the thread with this outcome, if there is one.
fn with_return(
    alloc: Global,
    events: &[RunEvent],
    thread: u8,
    outcome: Option<SerialOutcome>,
) -> Result<Vec<RunEvent>, AllocError>
    requires thread { thread < 8 }
    ensures { IfOk result (λ longer. EventsStay events.now longer.items) }
{
    let mut longer = Vec::from_slice(alloc, events)?;
    match outcome {
        Some(SerialOutcome::Ret(number)) => longer.push(RunEvent::Return {
            thread,
            outcome: Outcome::Ret(number),
        })?,
        Some(SerialOutcome::Trap) => longer.push(RunEvent::Return {
            thread,
            outcome: Outcome::Trap,
        })?,
        _ => {}
    }
    Ok(longer)
}

/// Whether the thread's pending operation has just this outcome in the attempt; with None, whether it
/// has not taken effect.
fn has_outcome(attempt: &Attempt, thread: u8, outcome: Option<SerialOutcome>) -> bool
    requires { thread < 8 }
    ensures { IsTrue result → by_thread attempt.now.configuration.effects thread ≡ outcome }
{
    match (attempt.configuration.effects[usize::from(thread)], outcome) {
        (None, None) => true,
        (Some(effect), Some(outcome)) => effect == outcome,
        _ => false,
    }
}

/// An order in which the operations of the first events of a run take effect, and that of this thread
/// with this outcome; with None, it does not. Empty if none is found.
///
/// # Errors
///
/// After some serial calls, a call takes more moves than the bound, or has two outcomes; or out of
/// memory.
pub(crate) fn find_order(
    runs: SerialRuns<'_>,
    table: &mut Table,
    events: &[RunEvent],
    thread: u8,
    outcome: Option<SerialOutcome>,
) -> Result<Vec<RunOperation>, FollowFault>
    requires table { IsTable runs.component.now runs.calls.now table.old }
    requires start { HasState table.old 0 }
    requires calls { AreCallsOf runs.component.now runs.calls.now }
    requires events { AreEventsOf runs.calls.now events.now }
    requires thread { thread < 8 }
    requires few { runs.bound ≤ MOST_MOVES }
    ensures order { FindsOrder runs.entry table.old events.now thread outcome result }
    ensures offends { IfErr result (IsFollowFaultOf runs.entry table.old) }
{
    let longer = with_return(runs.alloc, events, thread, outcome)?;
    let Some(threads) = find_threads(runs, table, &longer)? else {
        return Ok(Vec::new(runs.alloc));
    };
    let Some(played) = play_threads(runs, table, events, &threads)? else {
        return Ok(Vec::new(runs.alloc));
    };
    if has_outcome(&played.attempt, thread, outcome) {
        return Ok(played.order);
    }
    Ok(Vec::new(runs.alloc))
}

/// The event with this number, if there is one.
fn event_at(events: &[RunEvent], number: usize) -> Option<RunEvent>
    ensures { result ≡ slice_get events.now number }
{
    events.get(number).copied()
}

/// For a run with this verdict that has no linearization after an event, an order in which the
/// operations of the events before take effect: a linearization of these events, in which the event's
/// operation has the outcome that is expected. Empty for a run with another verdict, and where none is
/// found in a search that is bounded.
///
/// # Errors
///
/// Out of memory.
pub fn find_order_before(
    alloc: Global,
    component: &Component,
    matrix: &Matrix,
    run: &Run,
    bound: u16,
    verdict: RunVerdict,
) -> Result<Vec<RunOperation>, AllocError>
    requires of { CanRun component.now matrix.now }
    requires calls { AreCallsOf component.now run.now.calls.items }
    requires run { IsRun run.now.calls.items run.now.events.items }
    requires few { bound ≤ MOST_MOVES }
    ensures { IfOk result
        (λ order. HasOrder component.now matrix.now run.now verdict order.items) }
{
    let RunVerdict::FailsAt(failure) = verdict else {
        return Ok(Vec::new(alloc));
    };
    let Some(event) = event_at(&run.events, failure.event) else {
        return Ok(Vec::new(alloc));
    };
    let start = start_of(alloc, component, matrix)?;
    let mut table = first_table(alloc, start)?;
    let runs = SerialRuns {
        alloc,
        component,
        calls: &run.calls,
        bound,
    };
    let before = &run.events[..failure.event];
    match find_order(runs, &mut table, before, thread_of(event), failure.expected) {
        Ok(order) => Ok(order),
        Err(FollowFault::Offends(_)) => Ok(Vec::new(alloc)),
        Err(FollowFault::Memory) => Err(AllocError),
    }
}
