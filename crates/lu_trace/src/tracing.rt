//! The writer of traces.

ghost use Rattle.std.specs.Prelude.{IfErr, IfOk};
ghost use Rattle.lu_machine.specs.Starts.{CanRun};
ghost use Rattle.lu_machine.specs.Steps.{IsFeasible};
ghost use Rattle.lu_trace.specs.Traces.{IsTraceFault, IsTraceText, IsDetailedText, WritesLocals, WritesMove};

use crate::detail::Detail;
use crate::fault::TraceFault;
use crate::lines::{status_line, write_line};
use crate::waiting::write_waits;
use crate::wording::Wording;
use lu_component::Component;
use lu_machine::Machine;
use lu_test::{Matrix, Move, Schedule};
use std::alloc::{AllocError, Global};

/// Carries out the local instructions that come next in thread `t`, up to `most` of them, and adds
/// their lines.
fn run_on(
    alloc: Global,
    text: &mut String,
    detail: Detail,
    how: &Wording<'_>,
    machine: &mut Machine<'_>,
    t: u8,
    most: u8,
) -> Result<(), AllocError>
    ensures { WritesLocals result text.old text.new detail how.now most machine.old t machine.new }
{
    if most == 0 {
        return Ok(());
    }
    if !machine.is_at_local(t) {
        return Ok(());
    }
    let next = Move { thread: t, pick: 0 };
    write_line(alloc, text, detail, how, machine, None, next)?;
    machine.step_once(next);
    run_on(alloc, text, detail, how, machine, t, most - 1)
}

/// Makes the move, which has this number, and adds its lines. It is asked to be feasible.
fn write_move(
    alloc: Global,
    text: &mut String,
    detail: Detail,
    how: &Wording<'_>,
    machine: &mut Machine<'_>,
    number: usize,
    next: Move,
) -> Result<(), AllocError>
    requires { IsFeasible machine.old next }
    ensures { WritesMove result text.old text.new detail how.now number machine.old next machine.new }
{
    let more = machine.more_local(next.thread);
    write_line(alloc, text, detail, how, machine, Some(number), next)?;
    machine.step_once(next);
    run_on(alloc, text, detail, how, machine, next.thread, more)
}

/// The trace of a schedule of the component and the matrix, for people to read, in this detail and
/// in these words. The matrix is asked to be one of the component.
///
/// The first line is `trace complete`, `trace stuck` or `trace running`. Then each move has a line:
/// its number, from 0, and in its thread's column the call that it opens, or the instruction and
/// after `#` what it did. Local instructions that run with a move stand below it, without a
/// number. Last comes a line for each thread that is blocked in the end, with what it waits for.
///
/// A test of a source is shown once, with its value: the steps that compute it have no lines. With
/// [`Detail::SharedSteps`] no step has one that only its own thread sees. The numbers of the moves
/// stay as they are.
///
/// An instruction is shown as the component's text has it, `load r1 top 0`, and its remark by
/// registers, cells and labels, which have the names that the text gives them or are shown by their
/// places; or by the line of the source that it comes from, and its remark by locals, words and
/// lines:
///
/// ```text
///    1 T0 line 7: let head = top  # head = 0
///    2 T0 line 8: next[node] = head  # next[1] = 0
///    3 T0 line 9: if cas(top, head, node) {  # top = 1
///         T0 line 9: if cas(top, head, node) {  # = 1, continues
/// ```
///
/// # Errors
///
/// `Infeasible` with the index, from 0, of the first move that is not feasible where it stands;
/// `Memory` where memory was refused.
pub fn write_worded_trace(
    alloc: Global,
    detail: Detail,
    how: &Wording<'_>,
    component: &Component,
    matrix: &Matrix,
    schedule: &Schedule,
) -> Result<String, TraceFault>
    requires { CanRun component.now matrix.now }
    ensures trace { IfOk result
        (IsDetailedText detail how.now component.now matrix.now schedule.now) }
    ensures fault { IfErr result (IsTraceFault component.now matrix.now schedule.now) }
{
    let mut machine = Machine::start(alloc, component, matrix)?;
    let mut lines = String::new(alloc);
    for (number, next) in schedule.moves().iter().enumerate() {
        if !machine.feasible(*next) {
            return Err(TraceFault::Infeasible(number));
        }
        write_move(alloc, &mut lines, detail, how, &mut machine, number, *next)?;
    }
    let mut text = String::from_str(alloc, status_line(machine.status()))?;
    text.push_str(lines.as_str())?;
    write_waits(alloc, &mut text, how, &machine)?;
    Ok(text)
}

/// The trace of a schedule of the component and the matrix, as the component's text has its
/// instructions ([`write_worded_trace`]).
///
/// # Errors
///
/// Those of [`write_worded_trace`].
pub fn write_trace(
    alloc: Global,
    component: &Component,
    matrix: &Matrix,
    schedule: &Schedule,
) -> Result<String, TraceFault>
    requires { CanRun component.now matrix.now }
    ensures trace { IfOk result (IsTraceText component.now matrix.now schedule.now) }
    ensures fault { IfErr result (IsTraceFault component.now matrix.now schedule.now) }
{
    let how = Wording::Component;
    write_worded_trace(alloc, Detail::EachStep, &how, component, matrix, schedule)
}
