//! What the next call of a thread answers from a stage.

ghost use Rattle.std.specs.Prelude.{◌≡◌, ◌↔◌, ◌<◌, ◌≤◌, IfErr, IfOk, IsTrue, OnOk, length, map};
ghost use Rattle.lu_machine.specs.declared.TheConstants.{MOST_MOVES};
ghost use Rattle.lu_machine.specs.Changes.{idle};
ghost use Rattle.lu_machine.specs.Positions.{CanStandAt};
ghost use Rattle.lu_test.specs.Matrix.{thread_count};
ghost use Rattle.lu_answers.specs.Asking.{IsReply, IsReplyStored, StopsFrom};
ghost use Rattle.lu_answers.specs.Stored.{AllStandSo, AreIdle, HasNextCall, HasPlacesAfter, IsStored, RestsStandFor, next_place, places_after, rest_at};

use crate::rounds::Rounds;
use crate::stage::StoredStage;
use crate::stop::Stop;
use lu_history::SerialOutcome;
use lu_machine::{Activity, Machine, Position, Thread};
use lu_serial_graph::ask;
use std::alloc::{AllocError, Global};

/// Whether the thread has a call at its place.
fn has_next(machine: &Machine<'_>, places: &[u8], thread: u8) -> bool
    requires { thread < length places.now }
    ensures { IsTrue result ↔ HasNextCall machine.now.matrix places.now thread }
{
    places[usize::from(thread)] < machine.matrix().calls(thread)
}

/// The place after this one in a line of this many calls.
fn next_place(rounds: Rounds, calls: u8, place: u8) -> u8
    requires { place < calls }
    ensures { result ≡ next_place rounds calls place }
{
    match rounds {
        Rounds::One => place + 1,
        Rounds::Any => (place + 1) % calls,
    }
}

/// The places after the thread's next call.
fn places_after(
    alloc: Global,
    machine: &Machine<'_>,
    rounds: Rounds,
    places: &[u8],
    thread: u8,
) -> Result<Vec<u8>, AllocError>
    requires there { thread < length places.now }
    requires next { HasNextCall machine.now.matrix places.now thread }
    ensures { IfOk result (λ new.
        new.items ≡ places_after rounds machine.now.matrix places.now thread) }
{
    let calls = machine.matrix().calls(thread);
    let mut after = Vec::from_slice(alloc, places)?;
    after[usize::from(thread)] = next_place(rounds, calls, places[usize::from(thread)]);
    Ok(after)
}

/// Threads that are idle at these places.
fn idle_threads(alloc: Global, places: &[u8]) -> Result<Vec<Thread>, AllocError>
    ensures { IfOk result (λ threads. threads.items ≡ map idle places.now) }
{
    places
        .iter()
        .map(|place| Thread {
            done: *place,
            activity: Activity::Idle,
        })
        .collect(alloc)
}

/// The position with the same cells and locks, where the threads stand so.
fn at_rest(
    alloc: Global,
    machine: &mut Machine<'_>,
    threads: &[Thread],
    position: &Position,
) -> Result<Position, AllocError>
    requires stand { CanStandAt machine.old.component machine.old.matrix position.now }
    requires idle { AreIdle machine.old.matrix threads.now }
    ensures component { OnOk result (machine.new.component ≡ machine.old.component) }
    ensures matrix { OnOk result (machine.new.matrix ≡ machine.old.matrix) }
    ensures rest { IfOk result (λ p. rest_at p ≡ rest_at position.now) }
    ensures threads { IfOk result (λ p. p.threads.items ≡ threads.now) }
    ensures stand { IfOk result (CanStandAt machine.old.component machine.old.matrix) }
{
    machine.stand_at(position);
    let cells = Vec::from_slice(alloc, machine.cells())?;
    let locks = Vec::from_slice(alloc, machine.locks())?;
    machine.stand_with(&cells, &locks, threads);
    machine.position(alloc)
}

/// The positions with the same cells and locks, where the threads stand so.
fn all_at_rest(
    alloc: Global,
    machine: &mut Machine<'_>,
    threads: &[Thread],
    positions: &[Position],
) -> Result<Vec<Position>, AllocError>
    requires stand { RestsStandFor machine.old positions.now }
    requires idle { AreIdle machine.old.matrix threads.now }
    ensures component { OnOk result (machine.new.component ≡ machine.old.component) }
    ensures matrix { OnOk result (machine.new.matrix ≡ machine.old.matrix) }
    ensures rests { IfOk result (λ rests. map rest_at rests.items ≡ map rest_at positions.now) }
    ensures threads { IfOk result (λ rests. AllStandSo threads.now rests.items) }
    ensures stand { IfOk result (λ rests. RestsStandFor machine.old rests.items) }
{
    let mut rests = Vec::new(alloc);
    for position in positions {
        rests.push(at_rest(alloc, machine, threads, position)?)?;
    }
    Ok(rests)
}

/// The stage after the next call of the thread, which leads to these positions.
fn next_stage(
    alloc: Global,
    machine: &mut Machine<'_>,
    rounds: Rounds,
    places: &[u8],
    thread: u8,
    positions: &[Position],
) -> Result<StoredStage, AllocError>
    requires stand { RestsStandFor machine.old positions.now }
    requires some { 0 < length positions.now }
    requires seats { length places.now ≡ thread_count machine.old.matrix }
    requires there { thread < length places.now }
    requires next { HasNextCall machine.old.matrix places.now thread }
    ensures component { OnOk result (machine.new.component ≡ machine.old.component) }
    ensures matrix { OnOk result (machine.new.matrix ≡ machine.old.matrix) }
    ensures places { IfOk result (HasPlacesAfter rounds machine.old.matrix places.now thread) }
    ensures rests { IfOk result (λ next.
        map rest_at next.rests.items ≡ map rest_at positions.now) }
    ensures stored { IfOk result (IsStored machine.old.component machine.old.matrix) }
{
    let places = places_after(alloc, machine, rounds, places, thread)?;
    let threads = idle_threads(alloc, &places)?;
    let rests = all_at_rest(alloc, machine, &threads, positions)?;
    Ok(StoredStage { places, rests })
}

/// What the next call of the thread answers from the stage: its outcome, and the stage to which it
/// leads. None where it blocks, or there is no next call.
///
/// # Errors
///
/// `Offends` where the call takes more moves than the bound, or has two outcomes. `Memory` if out of
/// memory.
pub(crate) fn ask_next(
    alloc: Global,
    machine: &mut Machine<'_>,
    rounds: Rounds,
    stage: &StoredStage,
    thread: u8,
    bound: u16,
) -> Result<Option<(SerialOutcome, StoredStage)>, Stop>
    requires stored { IsStored machine.old.component machine.old.matrix stage.now }
    requires thread { thread < thread_count machine.old.matrix }
    requires few { bound ≤ MOST_MOVES }
    ensures component { OnOk result (machine.new.component ≡ machine.old.component) }
    ensures matrix { OnOk result (machine.new.matrix ≡ machine.old.matrix) }
    ensures reply { IfOk result (IsReply rounds machine.old bound stage.now thread) }
    ensures stored { IfOk result (IsReplyStored machine.old) }
    ensures stop { IfErr result (StopsFrom rounds machine.old bound stage.now) }
{
    if !has_next(machine, &stage.places, thread) {
        return Ok(None);
    }
    let Some(answer) = ask(alloc, machine, thread, &stage.rests, bound)? else {
        return Err(Stop::Offends);
    };
    match answer.outcome {
        SerialOutcome::Stuck => Ok(None),
        outcome => {
            let next = next_stage(alloc, machine, rounds, &stage.places, thread, &answer.rests)?;
            Ok(Some((outcome, next)))
        }
    }
}
