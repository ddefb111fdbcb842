//! States with 0 in dead registers.

ghost use Rattle.std.specs.Prelude.{All, IfOk, OnOk};
ghost use Rattle.lu_machine.specs.Layout.{IsStanding, StandsIn};
ghost use Rattle.lu_graph.specs.Rows.{AreLive};
ghost use Rattle.lu_always.specs.Clearing.{IsCleared};
ghost use Rattle.lu_always.specs.Stored.{StandsWhereItCan};

use lu_horizon::DeadRegisters;
use lu_machine::{Machine, Thread};
use std::alloc::{AllocError, Global};

/// The machine's threads, each with 0 in the registers of its open operation that are dead.
fn live_threads(
    alloc: Global,
    machine: &Machine<'_>,
    dead: &DeadRegisters,
) -> Result<Vec<Thread>, AllocError>
    ensures live { IfOk result (λ threads. AreLive dead.now machine.now.threads threads.items) }
    ensures stand { IfOk result (λ threads. All IsStanding threads.items) }
    ensures in_code { IfOk result (λ threads. All (StandsIn machine.now.component) threads.items) }
{
    let mut all = Vec::new(alloc);
    for thread in 0..machine.threads() {
        match machine.standing(thread) {
            None => {}
            Some(standing) => all.push(dead.live(standing))?,
        }
    }
    Ok(all)
}

/// Writes 0 into each register of an open operation that is dead.
pub(crate) fn clear_dead(
    alloc: Global,
    machine: &mut Machine<'_>,
    dead: &DeadRegisters,
) -> Result<(), AllocError>
    ensures cleared { OnOk result (IsCleared dead.now machine.old machine.new) }
    ensures stands { OnOk result (StandsWhereItCan machine.new) }
{
    let here = machine.position(alloc)?;
    let threads = live_threads(alloc, machine, dead)?;
    let cells = Vec::from_slice(alloc, machine.cells())?;
    let locks = Vec::from_slice(alloc, machine.locks())?;
    machine.stand_with(&cells, &locks, &threads);
    Ok(())
}
