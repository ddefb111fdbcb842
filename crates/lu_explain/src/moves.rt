//! Which moves of a schedule have events.

ghost use Rattle.std.specs.Prelude.{◌≡◌, ◌++◌, [], OnOk};
ghost use Rattle.lu_machine.specs.Schedules.{IsSchedule};
ghost use Rattle.lu_machine.specs.Starts.{CanRun, FromEachStart};
ghost use Rattle.lu_explain.specs.EventMoves.{TellsEventMoves, with_number};

use lu_component::Component;
use lu_machine::{Event, Machine};
use lu_test::{Matrix, Schedule};
use std::alloc::{AllocError, Global};

/// Adds the number of a move, if it has an event.
fn note(numbers: &mut Vec<usize>, number: usize, event: Option<Event>) -> Result<(), AllocError>
    ensures { OnOk result (numbers.new.items ≡ numbers.old.items ++ with_number event number []) }
{
    match event {
        None => Ok(()),
        Some(_event) => {
            numbers.push(number)?;
            Ok(())
        }
    }
}

/// The numbers, from 0, of the moves of a schedule that have events, in order: one for each event
/// of its history. Asks for a schedule whose moves are all feasible.
///
/// # Errors
///
/// `AllocError` where memory was refused.
pub fn event_moves(
    alloc: Global,
    component: &Component,
    matrix: &Matrix,
    schedule: &Schedule,
) -> Result<Vec<usize>, AllocError>
    requires of { CanRun component.now matrix.now }
    requires leads { FromEachStart component.now matrix.now (λ s. IsSchedule s schedule.now) }
    ensures { TellsEventMoves component.now matrix.now schedule.now result }
{
    let mut machine = Machine::start(alloc, component, matrix)?;
    let mut numbers = Vec::new(alloc);
    for (number, next) in schedule.moves().iter().enumerate() {
        let event = machine.step(*next);
        note(&mut numbers, number, event)?;
    }
    Ok(numbers)
}
