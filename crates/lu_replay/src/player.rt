//! The player of schedules.

ghost use Rattle.std.specs.Prelude.{◌≡◌, [], ◌++◌, IfOk, IfErr, IfSome, OnOk};
ghost use Rattle.lu_machine.specs.Starts.{CanRun};
ghost use Rattle.lu_machine.specs.Runs.{with_event};
ghost use Rattle.lu_history.specs.Histories.{Fits, IsWellFormed};
ghost use Rattle.lu_replay.specs.Replays.{IsReplay, IsReplayFault};

use crate::fault::ReplayFault;
use crate::shown::Replay;
use lu_component::Component;
use lu_history::{History, HistoryFault};
use lu_machine::{Event, Machine};
use lu_test::{Matrix, Schedule};
use std::alloc::Global;

/// Makes the moves of the schedule from the start of the component and the matrix. The fault is
/// `Infeasible` with the index, from 0, of the first move that is not feasible where it stands, or
/// `Memory` where memory was refused.
pub fn replay(
    alloc: Global,
    component: &Component,
    matrix: &Matrix,
    schedule: &Schedule,
) -> Result<Replay, ReplayFault>
    requires { CanRun component.now matrix.now }
    ensures shows { IfOk result (IsReplay component.now matrix.now schedule.now) }
    ensures well_formed { IfOk result (λ r. IsWellFormed r.history) }
    ensures fault { IfErr result (IsReplayFault component.now matrix.now schedule.now) }
{
    let mut machine = Machine::start(alloc, component, matrix)?;
    let mut history = History::new(alloc);
    for (index, next) in schedule.moves().iter().enumerate() {
        if !machine.feasible(*next) {
            return Err(ReplayFault::Infeasible(index));
        }
        let event = machine.step(*next);
        extend(&mut history, event)?;
    }
    let status = machine.status();
    Ok(Replay { history, status })
}

/// Adds the event, if there is one.
fn extend(history: &mut History, event: Option<Event>) -> Result<(), HistoryFault>
    requires { IfSome event (Fits history.old) }
    ensures { OnOk result (history.new ≡ history.old ++ with_event event []) }
{
    match event {
        None => Ok(()),
        Some(event) => history.push(event),
    }
}
