//! What the setup's own run shows.

ghost use Rattle.std.specs.Prelude.{[], IfOk};
ghost use Rattle.std.specs.List.{flat_map};
ghost use Rattle.lu_machine.specs.Runs as runs;
ghost use Rattle.lu_lint.specs.Items.{Extends};
ghost use Rattle.lu_lint.specs.Runs as spec;
ghost use Rattle.lu_lint.specs.Runs.{OfTest, ShownByRun, ShownBySetup};

use crate::remark::RunHint;
use lu_machine::{Event, Machine, Outcome, Test};
use lu_test::{Move, setup_alone};
use std::alloc::{AllocError, Global};

/// The most moves of a setup that settles: of each of its 8 calls the call and 256 more.
const MOST_MOVES_OF_SETUP: u16 = 2056;

/// The move of thread 0 with pick 0.
const FIRST_MOVE: Move = Move { thread: 0, pick: 0 };

/// The hints with that of an event of the setup's run, where a call traps.
fn with_event_hint(
    mut hints: Vec<RunHint>,
    event: Option<Event>,
) -> Result<Vec<RunHint>, AllocError>
    ensures { Extends result hints (flat_map spec.event_hints (runs.with_event event [])) }
{
    if let Some(
        Event::Return {
            k,
            outcome: Outcome::Trap,
            ..
        },
    ) = event
    {
        hints.push(RunHint::SetupTraps(k))?;
    }
    Ok(hints)
}

/// The calls that trap in as many moves of this machine as can be made, or as a setup takes.
fn run_hints(alloc: Global, mut machine: Machine<'_>) -> Result<Vec<RunHint>, AllocError>
    ensures { IfOk result (λ hints. ShownByRun machine.entry hints.items) }
{
    let mut hints = Vec::new(alloc);
    for _moved in 0..MOST_MOVES_OF_SETUP {
        if !machine.feasible(FIRST_MOVE) {
            return Ok(hints);
        }
        let event = machine.step(FIRST_MOVE);
        hints = with_event_hint(hints, event)?;
    }
    Ok(hints)
}

/// The calls of the setup that trap.
pub(crate) fn setup_hints(alloc: Global, test: Test<'_>) -> Result<Vec<RunHint>, AllocError>
    ensures { IfOk result (λ hints. OfTest ShownBySetup test.entry hints.items) }
{
    let alone = setup_alone(alloc, test.matrix)?;
    let machine = Machine::start(alloc, test.component, &alone)?;
    run_hints(alloc, machine)
}
