//! What each thread can do next after a schedule.

ghost use Rattle.std.specs.Prelude.{IfErr, IfOk};
ghost use Rattle.lu_text.specs.Writing.{Writes};
ghost use Rattle.lu_machine.specs.Layout.{IsSound};
ghost use Rattle.lu_machine.specs.Starts.{CanRun};
ghost use Rattle.lu_trace.specs.Traces.{IsTraceFault};
ghost use Rattle.lu_diagnosis.specs.NextSteps.{IsNextStepsText, LeadsTo, all_next, move_line, moves_of, thread_next, wait_at, wait_line};

use lu_component::{Component, Instr};
use lu_machine::{Activity, Frame, Machine};
use lu_test::{Matrix, Move, Schedule};
use lu_trace::{TraceFault, Wording, write_awaited, write_step};
use std::alloc::{AllocError, Global};

/// Adds the line of a move.
fn write_move(
    text: &mut String,
    how: &Wording<'_>,
    machine: &Machine<'_>,
    next: Move,
) -> Result<(), AllocError>
    ensures { Writes result text.old text.new (move_line how.now machine.now next) }
{
    write!(text, "  T{} ", next.thread)?;
    write_step(text, how, machine, next)?;
    text.push('\n')
}

/// Adds a line for each move that thread `t` can make.
fn write_moves(
    text: &mut String,
    how: &Wording<'_>,
    machine: &Machine<'_>,
    t: u8,
) -> Result<(), AllocError>
    ensures { Writes result text.old text.new
        (moves_of how.now machine.now t) }
{
    for pick in 0..machine.picks(t) {
        write_move(text, how, machine, Move { thread: t, pick })?;
    }
    Ok(())
}

/// Adds the line of what thread `t` waits for at an instruction, where it is blocked.
fn write_instr_wait(
    text: &mut String,
    how: &Wording<'_>,
    machine: &Machine<'_>,
    t: u8,
    frame: &Frame,
    instr: &Instr,
) -> Result<(), AllocError>
    requires { IsSound machine.now frame.now instr.now }
    ensures { Writes result text.old text.new
        (wait_at how.now machine.now t frame.now instr.now) }
{
    if !machine.is_blocked(frame, instr) {
        return Ok(());
    }
    write!(text, "  T{t} ")?;
    write_awaited(text, how, machine, frame, instr)?;
    text.push('\n')
}

/// Adds the line of what thread `t` waits for, where it is blocked.
fn write_wait(
    text: &mut String,
    how: &Wording<'_>,
    machine: &Machine<'_>,
    t: u8,
) -> Result<(), AllocError>
    ensures { Writes result text.old text.new (wait_line how.now machine.now t) }
{
    let Some(standing) = machine.standing(t) else {
        return Ok(());
    };
    match &standing.activity {
        Activity::Idle => Ok(()),
        Activity::Open(frame) => match machine.instr(frame) {
            None => Ok(()),
            Some(instr) => write_instr_wait(text, how, machine, t, frame, instr),
        },
    }
}

/// Adds a line for each move that thread `t` can make, or what it waits for.
fn write_thread(
    text: &mut String,
    how: &Wording<'_>,
    machine: &Machine<'_>,
    t: u8,
) -> Result<(), AllocError>
    ensures { Writes result text.old text.new (thread_next how.now machine.now t) }
{
    write_moves(text, how, machine, t)?;
    write_wait(text, how, machine, t)
}

/// Adds the lines of all threads.
fn write_threads(
    text: &mut String,
    how: &Wording<'_>,
    machine: &Machine<'_>,
) -> Result<(), AllocError>
    ensures { Writes result text.old text.new (all_next how.now machine.now) }
{
    for t in 0..machine.threads() {
        write_thread(text, how, machine, t)?;
    }
    Ok(())
}

/// The state to which the schedule leads.
fn play<'a>(
    alloc: Global,
    component: &'a Component,
    matrix: &'a Matrix,
    schedule: &Schedule,
) -> Result<Machine<'a>, TraceFault>
    requires { CanRun component.now matrix.now }
    ensures played { IfOk result (LeadsTo component.now matrix.now schedule.now) }
    ensures fault { IfErr result (IsTraceFault component.now matrix.now schedule.now) }
{
    let mut machine = Machine::start(alloc, component, matrix)?;
    for (number, next) in schedule.moves().iter().enumerate() {
        if !machine.feasible(*next) {
            return Err(TraceFault::Infeasible(number));
        }
        machine.step(*next);
    }
    Ok(machine)
}

/// What each thread can do next after a schedule, for people to read, in these words. The matrix is
/// asked to be one of the component.
///
/// A thread that can move has a line for each of its moves, with what the first step of the move
/// does. A thread that is blocked has a line with what it waits for. A thread that has made all its
/// calls has none.
///
/// ```text
///   T0 line 5: while flag == 1 {  # = 1, continues
///   T1 waits for lock m, which thread 0 holds
/// ```
///
/// # Errors
///
/// `Infeasible` with the index, from 0, of the first move that is not feasible where it is made;
/// `Memory` where memory was refused.
pub fn write_next_steps(
    alloc: Global,
    how: &Wording<'_>,
    component: &Component,
    matrix: &Matrix,
    schedule: &Schedule,
) -> Result<String, TraceFault>
    requires { CanRun component.now matrix.now }
    ensures next { IfOk result
        (IsNextStepsText how.now component.now matrix.now schedule.now) }
    ensures fault { IfErr result (IsTraceFault component.now matrix.now schedule.now) }
{
    let machine = play(alloc, component, matrix, schedule)?;
    let mut text = String::new(alloc);
    write_threads(&mut text, how, &machine)?;
    Ok(text)
}
