//! Moves of the client.

ghost use Rattle.std.specs.Prelude.{◌≡◌, ◌≤◌, All, IfOk, IfSome, None, OnOk, slice_get};
ghost use Rattle.lu_machine.specs.Events.{IsEventInRange};
ghost use Rattle.lu_machine.specs.Layout.{IsStanding, StandsIn};
ghost use Rattle.lu_machine.specs.Steps.{IsFeasible};
ghost use Rattle.lu_client.specs.Rounds.Way.{InOrder};
ghost use Rattle.lu_client.specs.Clients.{around, turned};
ghost use Rattle.lu_always.specs.Searching.{RoundStep, threads_around};

use lu_answers::Rounds;
use lu_machine::{Event, Machine, Thread};
use lu_test::Move;
use std::alloc::{AllocError, Global};

/// The number of calls, counted from the start of the line again after its last call.
fn counted(done: u8, calls: u8) -> u8
    ensures value { result ≡ turned (InOrder None) calls done }
    ensures less { result ≤ done }
{
    if calls == 0 {
        return done;
    }
    done % calls
}

/// The thread after it has come around.
fn turned(machine: &Machine<'_>, thread: u8) -> Option<Thread>
    ensures value { result ≡ slice_get (threads_around machine.now) thread }
    ensures stands { IfSome result IsStanding }
    ensures in_code { IfSome result (StandsIn machine.now.component) }
{
    match machine.standing(thread) {
        None => None,
        Some(standing) => Some(Thread {
            done: counted(standing.done, machine.matrix().calls(thread)),
            activity: standing.activity,
        }),
    }
}

/// All threads after they have come around.
fn all_turned(alloc: Global, machine: &Machine<'_>) -> Result<Vec<Thread>, AllocError>
    ensures value { IfOk result (λ threads. threads.items ≡ threads_around machine.now) }
    ensures stands { IfOk result (λ threads. All IsStanding threads.items) }
    ensures in_code { IfOk result (λ threads. All (StandsIn machine.now.component) threads.items) }
{
    let mut all = Vec::new(alloc);
    for thread in 0..machine.threads() {
        match turned(machine, thread) {
            None => {}
            Some(standing) => all.push(standing)?,
        }
    }
    Ok(all)
}

/// Each thread that has made the last call of its line is before the first one again.
fn come_around(alloc: Global, machine: &mut Machine<'_>) -> Result<(), AllocError>
    ensures { OnOk result (machine.new ≡ around (InOrder None) machine.old) }
{
    let here = machine.position(alloc)?;
    let threads = all_turned(alloc, machine)?;
    let cells = Vec::from_slice(alloc, machine.cells())?;
    let locks = Vec::from_slice(alloc, machine.locks())?;
    machine.stand_with(&cells, &locks, &threads);
    Ok(())
}

/// Makes a feasible move of the client. Returns its event, if there is one.
///
/// # Errors
///
/// Out of memory.
pub fn client_step(
    alloc: Global,
    machine: &mut Machine<'_>,
    rounds: Rounds,
    next: Move,
) -> Result<Option<Event>, AllocError>
    requires { IsFeasible machine.old next }
    ensures step { IfOk result (λ event.
        RoundStep rounds machine.old next machine.new event) }
    ensures range { IfOk result (λ event. IfSome event IsEventInRange) }
{
    let event = machine.step(next);
    match rounds {
        Rounds::One => {}
        Rounds::Any => come_around(alloc, machine)?,
    }
    Ok(event)
}
