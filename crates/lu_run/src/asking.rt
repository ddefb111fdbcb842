//! What a call answers from several rests.

ghost use Rattle.std.specs.Prelude.{◌≡◌, ◌≢◌, ◌<◌, ◌≤◌, ℕ, [], ◌∷◌, IfOk, IfSome, IsSome, OnOk, length, replicate};
ghost use Rattle.lu_component.specs.Component.{IsComponent};
ghost use Rattle.lu_history.specs.declared.serial.SerialOutcome.TheVariants.{Stuck};
ghost use Rattle.lu_machine.specs.declared.TheConstants.{MOST_MOVES};
ghost use Rattle.lu_machine.specs.Starts.{CanRun};
ghost use Rattle.lu_machine.specs.Positions.{CanStandAt};
ghost use Rattle.lu_serial_graph.specs.Answers.{RestsStand};
ghost use Rattle.lu_test.specs.Matrix.{AreArguments, IsCallOf, thread_count};
ghost use Rattle.lu_run.specs.Asking.{AreRests, HasSameRests, IsAtRest, IsReply, at_start, menu_of, rest_at};

use lu_component::Component;
use lu_history::SerialOutcome;
use lu_machine::{Activity, Machine, Position, Thread};
use lu_serial_graph::ask;
use lu_test::{Arguments, Call, Calls, Matrix};
use std::alloc::{AllocError, Global};

/// What a call answers from several rests.
#[derive(Drop)]
pub(crate) enum Reply {
    /// It ends with this outcome, in these rests.
    Ends(SerialOutcome, Vec<Position>),

    /// It is blocked.
    Blocked,
}

/// The call once more.
pub(crate) fn copy_of(alloc: Global, call: &Call) -> Result<Call, AllocError>
    ensures { IfOk result (λ copy. copy ≡ call.now) }
{
    let numbers = Vec::from_slice(alloc, call.args.as_slice())?;
    Ok(Call {
        op: call.op,
        args: Arguments::new(numbers),
    })
}

/// The line of calls that is this one.
fn line_of(alloc: Global, call: &Call) -> Result<Calls, AllocError>
    ensures { IfOk result (λ line. line ≡ call.now ∷ []) }
{
    let mut calls = Vec::new(alloc);
    calls.push(copy_of(alloc, call)?)?;
    Ok(Calls::new(calls))
}

/// Eight lines with this call.
fn lines_of(alloc: Global, call: &Call) -> Result<Vec<Calls>, AllocError>
    ensures { IfOk result (λ lines. lines.items ≡ replicate 8 (call.now ∷ [])) }
{
    let mut lines = Vec::new(alloc);
    for _line in 0..8u8 {
        lines.push(line_of(alloc, call)?)?;
    }
    Ok(lines)
}

/// The matrix in which each of eight threads makes this call.
fn menu_of(alloc: Global, component: &Component, call: &Call) -> Result<Option<Matrix>, AllocError>
    requires of { IsCallOf component.now call.now }
    requires arguments { AreArguments call.now.args }
    ensures made { IfOk result (λ menu. IsSome menu) }
    ensures menu { IfOk result (λ menu. IfSome menu (λ matrix. matrix ≡ menu_of call.now)) }
    ensures runs { IfOk result (λ menu. IfSome menu (λ matrix. CanRun component.now matrix)) }
{
    let lines = lines_of(alloc, call)?;
    Ok(Matrix::new(component, Calls::new(Vec::new(alloc)), lines))
}

/// Threads that have made no call.
fn idle_threads(alloc: Global) -> Result<Vec<Thread>, AllocError>
    ensures { IfOk result (λ threads. threads.items ≡ replicate 8 at_start) }
{
    let mut threads = Vec::new(alloc);
    for _thread in 0..8u8 {
        threads.push(Thread {
            done: 0,
            activity: Activity::Idle,
        })?;
    }
    Ok(threads)
}

/// The position with the same cells and locks, and threads that have made no call.
fn at_rest(
    alloc: Global,
    machine: &mut Machine<'_>,
    threads: &[Thread],
    position: &Position,
) -> Result<Position, AllocError>
    requires stand { CanStandAt machine.old.component machine.old.matrix position.now }
    requires eight { thread_count machine.old.matrix ≡ 8 }
    requires threads { threads.now ≡ replicate 8 at_start }
    ensures component { OnOk result (machine.new.component ≡ machine.old.component) }
    ensures matrix { OnOk result (machine.new.matrix ≡ machine.old.matrix) }
    ensures rest { IfOk result (λ p. rest_at p ≡ rest_at position.now) }
    ensures at_rest { IfOk result (IsAtRest machine.old.component) }
{
    machine.stand_at(position);
    let cells = Vec::from_slice(alloc, machine.cells())?;
    let locks = Vec::from_slice(alloc, machine.locks())?;
    machine.stand_with(&cells, &locks, threads);
    machine.position(alloc)
}

/// The positions with the same cells and locks, and threads that have made no call.
fn all_at_rest(
    alloc: Global,
    machine: &mut Machine<'_>,
    positions: &[Position],
) -> Result<Vec<Position>, AllocError>
    requires stand { RestsStand machine.old.component machine.old.matrix positions.now }
    requires eight { thread_count machine.old.matrix ≡ 8 }
    requires some { 0 < length positions.now }
    ensures same { IfOk result (λ rests. HasSameRests positions.now rests.items) }
    ensures rests { IfOk result (λ rests. AreRests machine.old.component rests.items) }
{
    let threads = idle_threads(alloc)?;
    let mut rests = Vec::new(alloc);
    for position in positions {
        rests.push(at_rest(alloc, machine, &threads, position)?)?;
    }
    Ok(rests)
}

/// What the call of the thread, a number below 8, answers from these rests. None where it takes more
/// moves than the bound from one of them, or has two outcomes.
pub(crate) fn ask_call(
    alloc: Global,
    component: &Component,
    call: &Call,
    thread: u8,
    rests: &[Position],
    bound: u16,
) -> Result<Option<Reply>, AllocError>
    requires of { IsCallOf component.now call.now }
    requires arguments { AreArguments call.now.args }
    requires thread { thread < 8 }
    requires rests { AreRests component.now rests.now }
    requires few { bound ≤ MOST_MOVES }
    ensures { IfOk result (IsReply component.now rests.now thread call.now bound) }
{
    let Some(menu) = menu_of(alloc, component, call)? else {
        unreachable!();
    };
    let mut machine = Machine::start(alloc, component, &menu)?;
    let Some(answer) = ask(alloc, &mut machine, thread, rests, bound)? else {
        return Ok(None);
    };
    match answer.outcome {
        SerialOutcome::Stuck => Ok(Some(Reply::Blocked)),
        outcome => {
            let after = all_at_rest(alloc, &mut machine, &answer.rests)?;
            Ok(Some(Reply::Ends(outcome, after)))
        }
    }
}
