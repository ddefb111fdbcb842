//! The lines of a trace.

ghost use Rattle.std.specs.Prelude.{◌≡◌};
ghost use Rattle.lu_text.specs.Writing.{Writes};
ghost use Rattle.lu_trace.specs.Lines as spec;
ghost use Rattle.lu_trace.specs.Lines.{component_line, labelled_instr, labelled_line, head_of};

use crate::detail::Detail;
use crate::effects::write_deed;
use crate::wording::{Wording, is_within_line, write_place, write_source_line};
use lu_component::{Component, Instr};
use lu_lang::{Labels, has_jump_to, write_instr, write_label};
use lu_machine::{Activity, Frame, Machine, Status, is_local};
use lu_test::{Call, Move};
use std::alloc::{AllocError, Global};

/// The blanks of one thread's column.
const COLUMN: &str = "                        ";

/// The first line: how the state stands in the end.
pub(crate) fn status_line(status: Status) -> &'static str
    ensures { result.now ≡ spec.status_line status }
{
    match status {
        Status::Running => "trace running\n",
        Status::Complete => "trace complete\n",
        Status::Stuck => "trace stuck\n",
    }
}

/// The blanks that fill up a number to four columns.
fn margin(number: usize) -> &'static str
    ensures { result.now ≡ spec.margin number }
{
    if number < 10 {
        "   "
    } else if number < 100 {
        "  "
    } else if number < 1000 {
        " "
    } else {
        ""
    }
}

/// Adds a move's number, or four blanks.
fn write_number(text: &mut String, number: Option<usize>) -> Result<(), AllocError>
    ensures { Writes result text.old text.new (spec.number_text number) }
{
    match number {
        None => text.push_str("    "),
        Some(number) => write!(text, "{}{number}", margin(number)),
    }
}

/// Adds what a line of the thread begins with: the number or none, and in the thread's column its
/// name.
pub(crate) fn write_head(
    alloc: Global,
    text: &mut String,
    number: Option<usize>,
    thread: u8,
) -> Result<(), AllocError>
    ensures { Writes result text.old text.new (spec.line_head number thread) }
{
    let indent = COLUMN.repeat(alloc, usize::from(thread))?;
    write_number(text, number)?;
    write!(text, " {}T{thread} ", indent.as_str())
}

/// The code of an operation, by its number. No call of a component names one that is not there.
fn code_of_operation(component: &Component, op: u8) -> &[Instr]
    ensures { result.now ≡ spec.code_of_operation component.now op }
{
    match component.operation(op) {
        None => &[],
        Some(op) => op.code.instrs(),
    }
}

/// Adds the instruction at the operation's place as the component's text has it, and what begins a
/// remark.
fn write_component_line(
    text: &mut String,
    component: &Component,
    frame: &Frame,
    instr: &Instr,
) -> Result<(), AllocError>
    ensures { Writes result text.old text.new
        (component_line component.now frame.now instr.now) }
{
    write_label(
        text,
        code_of_operation(component, frame.op),
        usize::from(frame.place),
    )?;
    write_instr(text, component, *instr)?;
    text.push_str("  # ")
}

/// Adds the label of a place and a space, where some jump of the code of an operation leads to the
/// place.
fn write_named_label(
    text: &mut String,
    labels: &Labels,
    op: u8,
    code: &[Instr],
    place: u8,
) -> Result<(), AllocError>
    ensures { Writes result text.old text.new (spec.named_label labels.now op code.now place) }
{
    if has_jump_to(code, usize::from(place)) {
        write_place(text, labels, op, place)?;
        text.push_str(": ")
    } else {
        Ok(())
    }
}

/// Adds an instruction of an operation, a jump with the label to which it leads.
fn write_labelled_instr(
    text: &mut String,
    labels: &Labels,
    component: &Component,
    op: u8,
    instr: Instr,
) -> Result<(), AllocError>
    ensures { Writes result text.old text.new (labelled_instr labels.now component.now op instr) }
{
    match instr {
        Instr::Jump(target) => {
            text.push_str("jump ")?;
            write_place(text, labels, op, target)
        }
        Instr::JumpIfZero { value, target } => {
            write!(text, "jz {value} ")?;
            write_place(text, labels, op, target)
        }
        _ => write_instr(text, component, instr),
    }
}

/// Adds the instruction at the operation's place with the labels that the component's text has, and
/// what begins a remark.
fn write_labelled_line(
    text: &mut String,
    labels: &Labels,
    component: &Component,
    frame: Frame,
    instr: Instr,
) -> Result<(), AllocError>
    ensures { Writes result text.old text.new (labelled_line labels.now component.now frame instr) }
{
    let code = code_of_operation(component, frame.op);
    write_named_label(text, labels, frame.op, code, frame.place)?;
    write_labelled_instr(text, labels, component, frame.op, instr)?;
    text.push_str("  # ")
}

/// Adds what the instruction at the operation's place is shown by, and what begins a remark.
pub(crate) fn write_instr_text(
    text: &mut String,
    how: &Wording<'_>,
    component: &Component,
    frame: &Frame,
    instr: &Instr,
) -> Result<(), AllocError>
    ensures { Writes result text.old text.new
        (head_of how.now component.now frame.now instr.now) }
{
    match *how {
        Wording::Component => write_component_line(text, component, frame, instr),
        Wording::Labelled(labels) => write_labelled_line(text, labels, component, *frame, *instr),
        Wording::Source { lines, origins } => write_source_line(text, lines, origins, frame),
    }
}

/// Adds a call, as a matrix has it.
fn write_call(text: &mut String, component: &Component, call: &Call) -> Result<(), AllocError>
    ensures { Writes result text.old text.new (spec.call_words component.now call.now) }
{
    text.push_str("call ")?;
    lu_test::write_call(text, component.operations(), call)
}

/// Adds the next call of an idle thread that has made `done` of them, where one is left.
fn write_next_call(
    text: &mut String,
    machine: &Machine<'_>,
    thread: u8,
    done: u8,
) -> Result<(), AllocError>
    ensures { Writes result text.old text.new (spec.next_call machine.now thread done) }
{
    let matrix = machine.matrix();
    if done < matrix.calls(thread) {
        write_call(text, machine.component(), matrix.call(thread, done))
    } else {
        Ok(())
    }
}

/// Adds the next instruction of an open operation, and what it does by the move.
fn write_next_instr(
    text: &mut String,
    how: &Wording<'_>,
    machine: &Machine<'_>,
    next: Move,
    frame: &Frame,
) -> Result<(), AllocError>
    ensures { Writes result text.old text.new
        (spec.next_instr how.now machine.now next frame.now) }
{
    match machine.instr(frame) {
        None => Ok(()),
        Some(instr) => {
            write_instr_text(text, how, machine.component(), frame, instr)?;
            write_deed(text, how, machine, next, frame, instr)
        }
    }
}

/// Adds what the thread of the move does next.
pub fn write_step(
    text: &mut String,
    how: &Wording<'_>,
    machine: &Machine<'_>,
    next: Move,
) -> Result<(), AllocError>
    ensures { Writes result text.old text.new (spec.step_words how.now machine.now next) }
{
    let Some(standing) = machine.standing(next.thread) else {
        return Ok(());
    };
    match &standing.activity {
        Activity::Idle => write_next_call(text, machine, next.thread, standing.done),
        Activity::Open(frame) => write_next_instr(text, how, machine, next, frame),
    }
}

/// Whether the instruction after this place in the code of an operation is local.
fn is_local_after(component: &Component, op: u8, place: u8) -> bool
    ensures { result ≡ spec.is_local_after component.now op place }
{
    match code_of_operation(component, op).get(usize::from(place) + 1) {
        None => false,
        Some(instr) => is_local(instr),
    }
}

/// Whether the instruction computes a value without a name, and the next one, which is local, comes
/// from the same line of a source.
fn is_partial(how: &Wording<'_>, component: &Component, frame: &Frame, instr: &Instr) -> bool
    ensures { result ≡ spec.is_partial how.now component.now frame.now instr.now }
{
    match *instr {
        Instr::Compute { to, .. } => {
            is_within_line(how, frame, to) && is_local_after(component, frame.op, frame.place)
        }
        _ => false,
    }
}

/// Whether a thread computes such a value next.
fn is_at_partial(how: &Wording<'_>, machine: &Machine<'_>, thread: u8) -> bool
    ensures { result ≡ spec.is_at_partial how.now machine.now thread }
{
    let Some(standing) = machine.standing(thread) else {
        return false;
    };
    match &standing.activity {
        Activity::Idle => false,
        Activity::Open(frame) => match machine.instr(frame) {
            None => false,
            Some(instr) => is_partial(how, machine.component(), frame, instr),
        },
    }
}

/// Whether the step of the move can go without a line: it has no number, or no step without one
/// comes after it.
fn is_dispensable(machine: &Machine<'_>, number: Option<usize>, next: Move) -> bool
    ensures { result ≡ spec.is_dispensable number machine.now next }
{
    match number {
        None => true,
        Some(_) => machine.more_local(next.thread) == 0,
    }
}

/// Whether the next step of the move's thread has no line, where the move has this number or none.
pub(crate) fn is_left_out(
    detail: Detail,
    how: &Wording<'_>,
    machine: &Machine<'_>,
    number: Option<usize>,
    next: Move,
) -> bool
    ensures { result ≡ spec.is_left_out detail how.now number machine.now next }
{
    match detail {
        Detail::EachStep => {
            is_dispensable(machine, number, next) && is_at_partial(how, machine, next.thread)
        }
        Detail::SharedSteps => machine.is_at_local(next.thread),
    }
}

/// Adds the line of the next step of the move's thread, with the number or none.
fn write_step_line(
    alloc: Global,
    text: &mut String,
    how: &Wording<'_>,
    machine: &Machine<'_>,
    number: Option<usize>,
    next: Move,
) -> Result<(), AllocError>
    ensures { Writes result text.old text.new
        (spec.step_line how.now number machine.now next) }
{
    write_head(alloc, text, number, next.thread)?;
    write_step(text, how, machine, next)?;
    text.push('\n')
}

/// Adds that line where it is shown in this detail.
pub(crate) fn write_line(
    alloc: Global,
    text: &mut String,
    detail: Detail,
    how: &Wording<'_>,
    machine: &Machine<'_>,
    number: Option<usize>,
    next: Move,
) -> Result<(), AllocError>
    ensures { Writes result text.old text.new
        (spec.shown_line detail how.now number machine.now next) }
{
    if is_left_out(detail, how, machine, number, next) {
        return Ok(());
    }
    write_step_line(alloc, text, how, machine, number, next)
}
