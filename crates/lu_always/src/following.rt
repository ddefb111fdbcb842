//! Monitors along the client's moves.

ghost use Rattle.std.specs.Prelude.{IfOk, IfSome, Some};
ghost use Rattle.lu_machine.specs.Events.{IsEventInRange};
ghost use Rattle.lu_always.specs.Searching.{MonitorAfter};

use crate::standing::pending;
use lu_answers::AnswerTable;
use lu_linearization::Monitor;
use lu_machine::{Event, Machine};
use std::alloc::{AllocError, Global};

/// The monitor after the event, which has led the machine to where it is.
pub(crate) fn after_event(
    alloc: Global,
    machine: &Machine<'_>,
    monitor: &Monitor,
    table: &AnswerTable,
    event: Event,
) -> Result<Monitor, AllocError>
    requires { IsEventInRange event }
    ensures { IfOk result (MonitorAfter table.now machine.now (Some event) monitor.now) }
{
    match event {
        Event::Call { t, .. } => monitor.call(alloc, table, &pending(machine), t),
        Event::Return { t, outcome, .. } => monitor.ret(alloc, t, outcome),
    }
}

/// The monitor after a move of the client with this event, or with none. The move has led the
/// machine to where it is.
///
/// # Errors
///
/// Out of memory.
pub fn after_move(
    alloc: Global,
    machine: &Machine<'_>,
    monitor: &Monitor,
    table: &AnswerTable,
    event: Option<Event>,
) -> Result<Monitor, AllocError>
    requires { IfSome event IsEventInRange }
    ensures { IfOk result (MonitorAfter table.now machine.now event monitor.now) }
{
    match event {
        None => monitor.try_clone(alloc),
        Some(event) => after_event(alloc, machine, monitor, table, event),
    }
}
