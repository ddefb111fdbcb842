//! The writer of traces that begin with the setup.

ghost use Rattle.std.specs.Prelude.{◌≡◌, ◌<◌, length, IfErr, IfOk};
ghost use Rattle.lu_text.specs.Writing.{Writes};
ghost use Rattle.lu_machine.specs.Starts.{CanRun};
ghost use Rattle.lu_trace.specs.Traces.{IsTraceFault};
ghost use Rattle.lu_trace.specs.Setups.{IsDetailedFromSetup, IsTextFromSetup, WritesSetup, WritesUpTo};
ghost use Rattle.lu_trace.specs.Setups as spec;

use crate::detail::Detail;
use crate::fault::TraceFault;
use crate::lines::{is_left_out, write_step};
use crate::tracing::write_worded_trace;
use crate::wording::Wording;
use lu_component::Component;
use lu_lang::{array_name, lock_name};
use lu_machine::{Machine, Test};
use lu_test::{Matrix, Move, Schedule, setup_alone};
use std::alloc::{AllocError, Global};

/// The blanks before the words of a line without a number and a thread.
const INDENT: &str = "     ";

/// The move of thread 0 with pick 0.
const FIRST_MOVE: Move = Move { thread: 0, pick: 0 };

/// The most lines of a setup: 8 calls of at most 257 moves, each of at most 17 lines.
const MOST_LINES: u16 = 34_952;

/// What stands before the lines of the setup's calls: nothing where there are none.
fn setup_heading(matrix: &Matrix) -> &'static str
    ensures { result.now ≡ spec.setup_heading matrix.now.setup }
{
    match matrix.setup().as_slice() {
        [] => "",
        _ => "setup\n",
    }
}

/// Adds the line of what thread 0 does next, where it is shown in this detail.
fn write_setup_line(
    text: &mut String,
    detail: Detail,
    how: &Wording<'_>,
    machine: &Machine<'_>,
) -> Result<(), AllocError>
    ensures { Writes result text.old text.new (spec.setup_line detail how.now machine.now) }
{
    if is_left_out(detail, how, machine, None, FIRST_MOVE) {
        return Ok(());
    }
    text.push_str(INDENT)?;
    write_step(text, how, machine, FIRST_MOVE)?;
    text.push('\n')
}

/// Thread 0 makes calls and carries out instructions, each pick 0, as long as it can, up to
/// [`MOST_LINES`] of them. Adds their lines.
fn write_setup_lines(
    text: &mut String,
    detail: Detail,
    how: &Wording<'_>,
    machine: &mut Machine<'_>,
) -> Result<(), AllocError>
    ensures { WritesUpTo result text.old text.new detail how.now 34952 machine.old machine.new }
{
    for _line in 0..MOST_LINES {
        if !machine.feasible(FIRST_MOVE) {
            return Ok(());
        }
        write_setup_line(text, detail, how, machine)?;
        machine.step_once(FIRST_MOVE);
    }
    Ok(())
}

/// Adds the lines of the setup's calls.
fn write_setup(
    alloc: Global,
    text: &mut String,
    detail: Detail,
    how: &Wording<'_>,
    test: Test<'_>,
) -> Result<(), AllocError>
    ensures { WritesSetup result text.old text.new detail how.now test.entry }
{
    let alone = setup_alone(alloc, test.matrix)?;
    let mut machine = Machine::start(alloc, test.component, &alone)?;
    write_setup_lines(text, detail, how, &mut machine)
}

/// The number of the cells of an array.
fn cell_count(component: &Component, array: u8) -> u8
    ensures { result ≡ spec.cell_count component.now array }
{
    match component.arrays().get(usize::from(array)) {
        None => 0,
        Some(array) => array.len,
    }
}

/// Adds the value of a cell, where there is such a cell.
fn write_value(
    text: &mut String,
    machine: &Machine<'_>,
    array: u8,
    index: u8,
) -> Result<(), AllocError>
    requires { array < length machine.now.component.arrays }
    ensures { Writes result text.old text.new (spec.value_text machine.now array index) }
{
    match machine.cell(array, u32::from(index)) {
        None => Ok(()),
        Some(cell) => write!(text, " {}", machine.value_at(cell)),
    }
}

/// Adds the values of the first cells of an array.
fn write_values(
    text: &mut String,
    machine: &Machine<'_>,
    array: u8,
    count: u8,
) -> Result<(), AllocError>
    requires { array < length machine.now.component.arrays }
    ensures { Writes result text.old text.new (spec.values_text machine.now array count) }
{
    for index in 0..count {
        write_value(text, machine, array, index)?;
    }
    Ok(())
}

/// Adds the line of an array.
fn write_array(text: &mut String, machine: &Machine<'_>, array: u8) -> Result<(), AllocError>
    requires { array < length machine.now.component.arrays }
    ensures { Writes result text.old text.new (spec.array_values_line machine.now array) }
{
    let component = machine.component();
    write!(text, "{INDENT}{} is", array_name(component, array))?;
    write_values(text, machine, array, cell_count(component, array))?;
    text.push('\n')
}

/// Adds the lines of all arrays.
fn write_arrays(text: &mut String, machine: &Machine<'_>) -> Result<(), AllocError>
    ensures { Writes result text.old text.new (spec.all_array_lines machine.now) }
{
    let count = machine.component().arrays().len() as u8;
    for array in 0..count {
        write_array(text, machine, array)?;
    }
    Ok(())
}

/// Adds whether a lock is free, and else who has it.
fn write_holder(text: &mut String, owner: Option<u8>) -> Result<(), AllocError>
    ensures { Writes result text.old text.new (spec.holder_text owner) }
{
    match owner {
        None => text.push_str(" is free\n"),
        Some(thread) => write!(text, " is taken by thread {thread}\n"),
    }
}

/// Adds the line of a lock.
fn write_lock(text: &mut String, machine: &Machine<'_>, lock: u8) -> Result<(), AllocError>
    requires { lock < length machine.now.component.locks }
    ensures { Writes result text.old text.new (spec.lock_owner_line machine.now lock) }
{
    text.push_str(INDENT)?;
    text.push_str(lock_name(machine.component(), lock))?;
    write_holder(text, machine.owner(lock))
}

/// Adds the lines of all locks.
fn write_locks(text: &mut String, machine: &Machine<'_>) -> Result<(), AllocError>
    ensures { Writes result text.old text.new (spec.all_lock_lines machine.now) }
{
    let count = machine.component().locks().len() as u8;
    for lock in 0..count {
        write_lock(text, machine, lock)?;
    }
    Ok(())
}

/// Adds the cells and locks that threads find.
fn write_found(text: &mut String, machine: &Machine<'_>) -> Result<(), AllocError>
    ensures { Writes result text.old text.new (spec.found_lines machine.now) }
{
    write_arrays(text, machine)?;
    write_locks(text, machine)
}

/// The trace of a schedule as [`write_worded_trace`] has it, and before it what the setup does and
/// leaves. The matrix is asked to be one of the component, and its setup to settle.
///
/// Where the matrix has a setup, a line `setup` comes first, and a line for each call and each
/// instruction of it, as those of a trace without number and thread. Then comes a line `start`, and
/// the cells and locks as the threads find them: `x is 1 0` has the value of each cell of the array
/// `x`, in their order; `m is free` or `m is taken by thread 0` tells of the lock `m`, which thread
/// 0 has where the setup left it taken. All arrays come first, then all locks, each kind in the
/// order of their declarations. The trace stands after.
///
/// # Errors
///
/// `Infeasible` with the index, from 0, of the first move of the schedule that is not feasible
/// where it stands; `Memory` where memory was refused.
pub fn write_worded_trace_from_setup(
    alloc: Global,
    detail: Detail,
    how: &Wording<'_>,
    component: &Component,
    matrix: &Matrix,
    schedule: &Schedule,
) -> Result<String, TraceFault>
    requires { CanRun component.now matrix.now }
    ensures trace { IfOk result
        (IsDetailedFromSetup detail how.now component.now matrix.now schedule.now) }
    ensures fault { IfErr result (IsTraceFault component.now matrix.now schedule.now) }
{
    let trace = write_worded_trace(alloc, detail, how, component, matrix, schedule)?;
    let mut text = String::from_str(alloc, setup_heading(matrix))?;
    write_setup(alloc, &mut text, detail, how, Test { component, matrix })?;
    let machine = Machine::start(alloc, component, matrix)?;
    text.push_str("start\n")?;
    write_found(&mut text, &machine)?;
    text.push_str(trace.as_str())?;
    Ok(text)
}

/// The trace of a schedule from the setup on, as the component's text has its instructions
/// ([`write_worded_trace_from_setup`]).
///
/// # Errors
///
/// Those of [`write_worded_trace_from_setup`].
pub fn write_trace_from_setup(
    alloc: Global,
    component: &Component,
    matrix: &Matrix,
    schedule: &Schedule,
) -> Result<String, TraceFault>
    requires { CanRun component.now matrix.now }
    ensures trace { IfOk result (IsTextFromSetup component.now matrix.now schedule.now) }
    ensures fault { IfErr result (IsTraceFault component.now matrix.now schedule.now) }
{
    let how = Wording::Component;
    write_worded_trace_from_setup(alloc, Detail::EachStep, &how, component, matrix, schedule)
}
