//! An operation that one thread makes alone.

ghost use Rattle.std.specs.Prelude.{◌≡◌, true, false, IfOk};
ghost use Rattle.lu_serial_graph.specs.Playing.{AddsEndings, MayGoOn, StillLasts, returned_by};

use lu_history::SerialOutcome;
use lu_machine::{Event, Machine, Position};
use lu_test::Move;
use std::alloc::{AllocError, Global};

/// How an operation ends: its outcome, and where the machine stands then.
#[derive(Drop)]
pub(crate) struct Ending {
    pub(crate) outcome: SerialOutcome,
    pub(crate) position: Position,
}

/// The outcome of an operation that returns with this event.
fn returned_by(event: Option<Event>) -> Option<SerialOutcome>
    ensures { result ≡ returned_by event }
{
    match event {
        Some(Event::Return { outcome, .. }) => Some(SerialOutcome::from(outcome)),
        _ => None,
    }
}

/// Adds all endings of the operation of thread `t`, where only that thread moves. The operation has
/// returned with the given outcome, or it is open or about to be called, and no other is open. False
/// where it may take more than `left` moves.
pub(crate) fn run_alone(
    alloc: Global,
    machine: &mut Machine<'_>,
    t: u8,
    returned: Option<SerialOutcome>,
    left: u16,
    endings: &mut Vec<Ending>,
) -> Result<bool, AllocError>
    requires { MayGoOn machine.old t returned left }
    ensures home { IfOk result (λ all. all ≡ true → machine.new ≡ machine.old) }
    ensures adds { IfOk result (λ all. all ≡ true →
        AddsEndings machine.old t returned left endings.old.items endings.new.items) }
    ensures long { IfOk result (λ all. all ≡ false → StillLasts machine.old t returned left) }
{
    if let Some(outcome) = returned {
        let position = machine.position(alloc)?;
        endings.push(Ending { outcome, position })?;
        return Ok(true);
    }
    let picks = machine.picks(t);
    if picks == 0 {
        let position = machine.position(alloc)?;
        endings.push(Ending {
            outcome: SerialOutcome::Stuck,
            position,
        })?;
        return Ok(true);
    }
    if left == 0 {
        return Ok(false);
    }
    for pick in 0..picks {
        let undo = machine.apply(Move { thread: t, pick });
        let outcome = returned_by(undo.event());
        if !run_alone(alloc, machine, t, outcome, left - 1, endings)? {
            return Ok(false);
        }
        machine.undo(undo);
    }
    Ok(true)
}
