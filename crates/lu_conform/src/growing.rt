//! How the stages that are kept grow.

ghost use Rattle.std.specs.Prelude.{◌≡◌, OnOk};
ghost use Rattle.lu_conform.specs.Growing.{AddsAhead, AddsAfter, AddsHere};

use crate::following::seen_after;
use crate::kept::{Arrival, Kept, Stages};
use crate::packing::numbers_at;
use lu_machine::{Event, Machine};
use lu_test::Move;
use std::alloc::{AllocError, Global};

/// How far a search has come at the stage from which moves are made, which is kept at this place:
/// the first `seen` events of the history were seen.
#[derive(Clone, Copy)]
pub(crate) struct SoFar<'a> {
    pub(crate) events: &'a [Event],
    pub(crate) seen: usize,
    pub(crate) place: u32,
}

/// Adds the stage at which the machine stands, after this many events, unless it is there, and how
/// it was reached.
pub(crate) fn add(
    alloc: Global,
    machine: &Machine<'_>,
    seen: usize,
    arrival: Option<Arrival>,
    stages: &mut Stages,
) -> Result<(), AllocError>
    ensures { OnOk result (AddsHere machine.now seen arrival stages.old stages.new) }
{
    // For the proof: that a machine can stand here is known of a position.
    let _here = machine.position(alloc)?;
    let kept = Kept {
        numbers: numbers_at(alloc, machine)?,
        seen,
    };
    if stages.contains_key(&kept) {
        return Ok(());
    }
    stages.insert(kept, arrival)?;
    Ok(())
}

/// Adds the stage at which the machine stands after this move, which had this event, or none,
/// where it follows the history.
fn add_after(
    alloc: Global,
    machine: &Machine<'_>,
    so_far: SoFar<'_>,
    next: Move,
    event: Option<Event>,
    stages: &mut Stages,
) -> Result<(), AllocError>
    ensures { OnOk result (AddsAfter machine.now so_far.entry next event stages.old stages.new) }
{
    match seen_after(so_far.events, so_far.seen, event) {
        None => Ok(()),
        Some(after) => {
            let arrival = Arrival {
                parent: so_far.place,
                by: next,
            };
            add(alloc, machine, after, Some(arrival), stages)
        }
    }
}

/// Adds all stages to which the machine's moves lead that follow the history.
pub(crate) fn add_next(
    alloc: Global,
    machine: &mut Machine<'_>,
    so_far: SoFar<'_>,
    stages: &mut Stages,
) -> Result<(), AllocError>
    ensures home { OnOk result (machine.new ≡ machine.old) }
    ensures next { OnOk result (AddsAhead machine.old so_far.entry stages.old stages.new) }
{
    for thread in 0..machine.threads() {
        for pick in 0..machine.picks(thread) {
            let next = Move { thread, pick };
            let undo = machine.apply(next);
            add_after(alloc, machine, so_far, next, undo.event(), stages)?;
            machine.undo(undo);
        }
    }
    Ok(())
}
