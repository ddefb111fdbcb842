//! The end of a run that has no linearization.

ghost use Rattle.std.specs.Prelude.{◌≡◌, ◌<◌, ◌≤◌, ◌+◌, ◌-◌, ◌^◌, IfOk, length, string_bytes};
ghost use Rattle.lu_text.specs.Writing.{Writes};
ghost use Rattle.lu_run.specs.Endings as spec;
ghost use Rattle.lu_run.specs.Endings.{end_text, left_out_text, order_head, order_text};

use crate::ordering::RunOperation;
use crate::run::{Run, RunEvent};
use crate::writing::{put_events, put_operations, put_stuck};
use lu_component::Component;
use std::alloc::{AllocError, Global};

/// The number of pending calls after the event, given the number before it.
fn pending_after(pending: usize, event: RunEvent) -> usize
    requires { pending < 2 ^ 64 - 1 }
    ensures number { result ≡ spec.pending_after pending event }
    ensures bound { result ≤ pending + 1 }
{
    match event {
        RunEvent::Call { .. } => pending + 1,
        RunEvent::Return { .. } => pending.saturating_sub(1),
    }
}

/// The number of events since the last moment at which no call is pending.
fn since_quiet(events: &[RunEvent]) -> usize
    ensures number { result ≡ spec.since_quiet events.now }
    ensures bound { result ≤ length events.now }
{
    let mut since = 0usize;
    let mut pending = 0usize;
    for event in events {
        pending = pending_after(pending, *event);
        if pending == 0 {
            since = 0;
        } else {
            since += 1;
        }
    }
    since
}

/// The line of the event with this number in the text that [`write_end`] writes.
pub(crate) fn line_of(run: &Run, event: usize) -> usize
    requires { event < length run.now.events.items }
    ensures { result ≡ spec.line_of run.now.events.items event }
{
    let since = since_quiet(&run.events[..event]);
    if since == event { event + 2 } else { since + 3 }
}

/// Adds a comment that this many events are left out, if some are.
fn put_left_out(text: &mut String, count: usize) -> Result<(), AllocError>
    ensures { Writes result text.old text.new (left_out_text count) }
{
    if count == 0 {
        return Ok(());
    }
    write!(
        text,
        "# {count} events are left out; after them no call is pending\n"
    )
}

/// The text of a run up to the event with this number, from the last moment before at which no call is
/// pending. A comment says how many events are left out.
///
/// # Errors
///
/// Out of memory.
pub(crate) fn write_end(
    alloc: Global,
    component: &Component,
    run: &Run,
    event: usize,
) -> Result<String, AllocError>
    requires { event < length run.now.events.items }
    ensures { IfOk result (λ text. string_bytes text ≡ end_text component.now run.now event) }
{
    let left_out = event - since_quiet(&run.events[..event]);
    let shown = &run.events[..event + 1];
    let mut text = String::from_str(alloc, "run\n")?;
    put_left_out(&mut text, left_out)?;
    put_events(
        &mut text,
        component.operations(),
        &run.calls,
        &shown[left_out..],
    )?;
    put_stuck(&mut text, run, event + 1)?;
    Ok(text)
}

/// Adds what is said before the operations of a linearization, where this many events are left out.
fn put_order_head(text: &mut String, left_out: usize) -> Result<(), AllocError>
    ensures { Writes result text.old text.new (order_head left_out) }
{
    if left_out == 0 {
        text.push_str("the events before have this linearization:\n")
    } else {
        text.push_str("the events before have a linearization that ends with:\n")
    }
}

/// Adds the operations of a linearization of the events before the one with this number, in their
/// order, without those of the events that are left out.
pub(crate) fn put_order(
    text: &mut String,
    component: &Component,
    run: &Run,
    event: usize,
    order: &[RunOperation],
) -> Result<(), AllocError>
    requires { event < length run.now.events.items }
    ensures { Writes result text.old text.new (order_text component.now run.now event order.now) }
{
    let left_out = event - since_quiet(&run.events[..event]);
    let shown = &order[order.len().min(left_out / 2)..];
    if shown.is_empty() {
        return Ok(());
    }
    put_order_head(text, left_out)?;
    put_operations(text, component.operations(), &run.calls, shown)
}
