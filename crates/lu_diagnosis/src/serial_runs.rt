//! Two serial runs that make the same calls and differ in the outcome of the last.

ghost use Rattle.std.specs.Prelude.{◌≡◌, ◌++◌, OnOk};
ghost use Rattle.lu_text.specs.Writing.{Writes};
ghost use Rattle.lu_machine.specs.Starts.{CanRun, FromEachStart};
ghost use Rattle.lu_diagnosis.specs.SerialRuns as spec;
ghost use Rattle.lu_diagnosis.specs.SerialRuns.{AddsConflict, AddsDifference, AddsRuns, EndsSerially, TellsHistory, TellsOpen, after_words, ends_words, run_text};

use crate::writing::{write_entry, write_operation, write_order};
use lu_component::Component;
use lu_explain::count;
use lu_history::{SerialOp, SerialOutcome};
use lu_machine::{Activity, Event, Machine};
use lu_test::{Matrix, Schedule};
use std::alloc::{AllocError, Global};

/// Adds the operation that an event ends, if any.
fn note_return(entries: &mut Vec<SerialOp>, event: Option<Event>) -> Result<(), AllocError>
    ensures { OnOk result
        (entries.new.items ≡ entries.old.items ++ spec.returned event) }
{
    match event {
        None | Some(Event::Call { .. }) => Ok(()),
        Some(Event::Return { t, outcome, .. }) => {
            entries.push(SerialOp {
                thread: t,
                outcome: SerialOutcome::from(outcome),
            })?;
            Ok(())
        }
    }
}

/// Whether thread `t` has an operation open.
fn is_open(machine: &Machine<'_>, t: u8) -> bool
    ensures { result ≡ spec.is_open machine.now t }
{
    let Some(standing) = machine.standing(t) else {
        return false;
    };
    matches!(standing.activity, Activity::Open(_))
}

/// The first thread that has an operation open.
fn open_thread(machine: &Machine<'_>) -> Option<u8>
    ensures { TellsOpen machine.now result }
{
    for t in 0..machine.threads() {
        if is_open(machine, t) {
            return Some(t);
        }
    }
    None
}

/// Adds the operation of the thread that has one open, which is stuck.
fn note_stuck(entries: &mut Vec<SerialOp>, thread: Option<u8>) -> Result<(), AllocError>
    ensures { OnOk result (entries.new.items ≡ entries.old.items ++ spec.stuck_entries thread) }
{
    match thread {
        None => Ok(()),
        Some(thread) => {
            entries.push(SerialOp {
                thread,
                outcome: SerialOutcome::Stuck,
            })?;
            Ok(())
        }
    }
}

/// The history of a serial schedule: its operations in order, and last one that is stuck, where the
/// schedule ends so. Asks for a schedule that is serially ended.
///
/// # Errors
///
/// `AllocError` where memory was refused.
pub fn serial_history(
    alloc: Global,
    component: &Component,
    matrix: &Matrix,
    schedule: &Schedule,
) -> Result<Vec<SerialOp>, AllocError>
    requires of { CanRun component.now matrix.now }
    requires ended { FromEachStart component.now matrix.now (EndsSerially schedule.now) }
    ensures { TellsHistory component.now matrix.now schedule.now result }
{
    let mut machine = Machine::start(alloc, component, matrix)?;
    let mut entries = Vec::new(alloc);
    for next in schedule.moves() {
        let event = machine.step(*next);
        note_return(&mut entries, event)?;
    }
    note_stuck(&mut entries, open_thread(&machine))?;
    Ok(entries)
}

/// Adds the lines of a run: of these operations, and of the one after them.
fn write_run(
    text: &mut String,
    component: &Component,
    matrix: &Matrix,
    before: &[SerialOp],
    op: SerialOp,
) -> Result<(), AllocError>
    ensures { Writes result text.old text.new
        (run_text component.now matrix.now before.now op) }
{
    write_order(text, component, matrix, before)?;
    write_entry(text, component, matrix, before, op)
}

/// Adds how a call ends, in words.
pub(crate) fn write_end(text: &mut String, outcome: SerialOutcome) -> Result<(), AllocError>
    ensures { Writes result text.old text.new (ends_words outcome) }
{
    match outcome {
        SerialOutcome::Ret(value) => write!(text, "returns {value}"),
        SerialOutcome::Trap => text.push_str("traps"),
        SerialOutcome::Stuck => text.push_str("blocks"),
    }
}

/// Adds the calls with which both runs begin.
fn write_after(
    text: &mut String,
    component: &Component,
    matrix: &Matrix,
    before: &[SerialOp],
) -> Result<(), AllocError>
    ensures { Writes result text.old text.new
        (after_words component.now matrix.now before.now) }
{
    match before {
        [] => Ok(()),
        [op] => {
            text.push_str("after ")?;
            write_operation(text, component, matrix, op.thread, 0)?;
            text.push_str(", ")
        }
        _ => write!(text, "after the same {} calls, ", before.len()),
    }
}

/// Adds the line that says what differs.
fn write_difference(
    text: &mut String,
    component: &Component,
    matrix: &Matrix,
    before: &[SerialOp],
    op: SerialOp,
    other: SerialOutcome,
) -> Result<(), AllocError>
    ensures { AddsDifference result text.old text.new component.now matrix.now before.now op other }
{
    write_after(text, component, matrix, before)?;
    write_operation(text, component, matrix, op.thread, count(before, op.thread))?;
    text.push(' ')?;
    write_end(text, op.outcome)?;
    text.push_str(" in this serial run and ")?;
    write_end(text, other)?;
    text.push_str(" in another\n")
}

/// Adds the lines of both runs, and the one that says what differs.
fn write_both_runs(
    text: &mut String,
    component: &Component,
    matrix: &Matrix,
    before: &[SerialOp],
    op: SerialOp,
    other: SerialOutcome,
) -> Result<(), AllocError>
    ensures { AddsRuns result text.old text.new component.now matrix.now before.now op other }
{
    let thread = op.thread;
    let otherwise = SerialOp {
        thread,
        outcome: other,
    };
    text.push_str("this serial run\n")?;
    write_run(text, component, matrix, before, op)?;
    text.push_str("another serial run\n")?;
    write_run(text, component, matrix, before, otherwise)?;
    write_difference(text, component, matrix, before, op, other)
}

/// Adds two serial runs that make the same calls and differ in the outcome of the last: the
/// operations of this history up to number `at`, the same operations with the other outcome of that
/// one, and a line that says what differs.
///
/// # Errors
///
/// `AllocError` where memory was refused.
pub fn write_conflict(
    text: &mut String,
    component: &Component,
    matrix: &Matrix,
    history: &[SerialOp],
    at: usize,
    other: SerialOutcome,
) -> Result<(), AllocError>
    ensures { AddsConflict result text.old text.new component.now matrix.now history.now at other }
{
    match history.get(at) {
        None => Ok(()),
        Some(op) => write_both_runs(text, component, matrix, &history[..at], *op, other),
    }
}
