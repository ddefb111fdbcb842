//! Writing of runs.

ghost use Rattle.std.specs.Prelude.{◌≡◌, IfOk, string_bytes};
ghost use Rattle.lu_text.specs.Writing.{Writes};
ghost use Rattle.lu_run.specs.RunWriting as spec;
ghost use Rattle.lu_run.specs.RunWriting.{event_text, event_words, events_text, numbered_call, operation_text, operations_text, run_text, stuck_text};

use crate::ordering::RunOperation;
use crate::run::{Run, RunEvent};
use lu_component::{Component, Op};
use lu_machine::Outcome;
use lu_test::{Call, write_call};
use std::alloc::{AllocError, Global};

/// Adds the call with this number, if there is one.
pub(crate) fn put_call(
    text: &mut String,
    operations: &[Op],
    calls: &[Call],
    number: u32,
) -> Result<(), AllocError>
    ensures { Writes result text.old text.new (numbered_call operations.now calls.now number) }
{
    match calls.get(number as usize) {
        None => Ok(()),
        Some(call) => write_call(text, operations, call),
    }
}

fn put_outcome(text: &mut String, outcome: Outcome) -> Result<(), AllocError>
    ensures { Writes result text.old text.new (spec.outcome_words outcome) }
{
    match outcome {
        Outcome::Ret(n) => write!(text, "ret {n}"),
        Outcome::Trap => text.push_str("trap"),
    }
}

/// Adds the words of an event.
pub(crate) fn put_event_words(
    text: &mut String,
    operations: &[Op],
    calls: &[Call],
    event: RunEvent,
) -> Result<(), AllocError>
    ensures { Writes result text.old text.new (event_words operations.now calls.now event) }
{
    match event {
        RunEvent::Call { thread, call } => {
            write!(text, "call {thread} ")?;
            put_call(text, operations, calls, call)
        }
        RunEvent::Return { thread, outcome } => {
            write!(text, "return {thread} ")?;
            put_outcome(text, outcome)
        }
    }
}

/// Adds the line of an event.
fn put_event(
    text: &mut String,
    operations: &[Op],
    calls: &[Call],
    event: RunEvent,
) -> Result<(), AllocError>
    ensures { Writes result text.old text.new (event_text operations.now calls.now event) }
{
    put_event_words(text, operations, calls, event)?;
    text.push('\n')
}

/// Adds the lines of the events.
pub(crate) fn put_events(
    text: &mut String,
    operations: &[Op],
    calls: &[Call],
    events: &[RunEvent],
) -> Result<(), AllocError>
    ensures { Writes result text.old text.new (events_text operations.now calls.now events.now) }
{
    for event in events {
        put_event(text, operations, calls, *event)?;
    }
    Ok(())
}

/// Adds the line of an operation of a linearization.
fn put_operation(
    text: &mut String,
    operations: &[Op],
    calls: &[Call],
    operation: RunOperation,
) -> Result<(), AllocError>
    ensures { Writes result text.old text.new
        (operation_text operations.now calls.now operation) }
{
    let RunOperation {
        thread,
        call,
        outcome,
    } = operation;
    write!(text, "  {thread} ")?;
    put_call(text, operations, calls, call)?;
    write!(text, " {outcome}\n")
}

/// Adds the lines of the operations of a linearization.
pub(crate) fn put_operations(
    text: &mut String,
    operations: &[Op],
    calls: &[Call],
    order: &[RunOperation],
) -> Result<(), AllocError>
    ensures { Writes result text.old text.new (operations_text operations.now calls.now order.now) }
{
    for operation in order {
        put_operation(text, operations, calls, *operation)?;
    }
    Ok(())
}

/// Adds the line `stuck`, if the run is stuck and has at most this many events.
pub(crate) fn put_stuck(text: &mut String, run: &Run, count: usize) -> Result<(), AllocError>
    ensures { Writes result text.old text.new (stuck_text run.now count) }
{
    if run.is_stuck && run.events.len() <= count {
        text.push_str("stuck\n")
    } else {
        Ok(())
    }
}

/// The text of the first `count` events of a run, or of the whole run if it has no more. The line
/// `stuck` is part of the whole run alone.
///
/// # Errors
///
/// Out of memory.
pub fn write_run(
    alloc: Global,
    component: &Component,
    run: &Run,
    count: usize,
) -> Result<String, AllocError>
    ensures { IfOk result (λ text. string_bytes text ≡ run_text component.now run.now count) }
{
    let shown = run.events.len().min(count);
    let mut text = String::from_str(alloc, "run\n")?;
    put_events(
        &mut text,
        component.operations(),
        &run.calls,
        &run.events[..shown],
    )?;
    put_stuck(&mut text, run, count)?;
    Ok(text)
}
