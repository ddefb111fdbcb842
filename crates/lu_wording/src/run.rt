//! The words of a warning by runs.

use lu_history::SerialOp;
use lu_lint::{Ending, MOST_STEPS, MatrixRuns, RunHint, SerialHint, operation_count};
use lu_test::Call;
use std::alloc::{AllocError, Global};
use std::fmt::Write;

/// Adds call `number` of these, in quotes: the operation and the arguments, as a matrix has them.
fn write_call(
    text: &mut String,
    runs: MatrixRuns<'_>,
    calls: &[Call],
    number: usize,
) -> Result<(), AllocError> {
    let Some(call) = calls.get(number) else {
        return text.push_str("a call");
    };
    text.push_str("`")?;
    lu_test::write_call(text, runs.component.operations(), call)?;
    text.push_str("`")
}

/// Adds call `number` of the thread.
fn write_call_of(
    text: &mut String,
    runs: MatrixRuns<'_>,
    thread: u8,
    number: usize,
) -> Result<(), AllocError> {
    match runs.matrix.as_slice().get(usize::from(thread)) {
        None => text.push_str("a call"),
        Some(calls) => write_call(text, runs, calls.as_slice(), number),
    }
}

/// Adds the operations after which a call is made.
fn write_after(
    text: &mut String,
    runs: MatrixRuns<'_>,
    ops: &[SerialOp],
) -> Result<(), AllocError> {
    if ops.is_empty() {
        return text.push_str(" when it is the first call");
    }
    text.push_str(" after ")?;
    for (position, op) in ops.iter().enumerate() {
        let (before, _) = ops.split_at(position);
        if position > 0 {
            text.push_str(", ")?;
        }
        write_call_of(text, runs, op.thread, operation_count(op.thread, before))?;
    }
    Ok(())
}

fn write_ending(text: &mut String, runs: MatrixRuns<'_>, ending: Ending) -> Result<(), AllocError> {
    let bound = runs.bound;
    match ending {
        Ending::Trap => text.push_str("traps"),
        Ending::Stuck => text.push_str("is stuck"),
        Ending::Cut => write!(text, "takes more than {bound} moves"),
    }
}

fn serial_wording(
    alloc: Global,
    runs: MatrixRuns<'_>,
    hint: &SerialHint,
) -> Result<String, AllocError> {
    let (thread, call) = (hint.thread, hint.call);
    let mut text = format!(in alloc; "thread {thread}'s call {call}, ")?;
    write_call_of(&mut text, runs, thread, call)?;
    text.push_str(", ")?;
    write_ending(&mut text, runs, hint.ending)?;
    write_after(&mut text, runs, hint.before.as_slice())?;
    if matches!(hint.ending, Ending::Cut) {
        text.push_str("; `--serial` sets the limit")?;
    }
    Ok(text)
}

fn setup_wording(
    alloc: Global,
    runs: MatrixRuns<'_>,
    call: u8,
    ends: &str,
) -> Result<String, AllocError> {
    let mut text = format!(in alloc; "the setup's call {call}, ")?;
    let calls = runs.matrix.setup().as_slice();
    write_call(&mut text, runs, calls, usize::from(call))?;
    text.push_str(ends)?;
    Ok(text)
}

/// The words of a warning that runs of the component and the matrix show.
pub(crate) fn run_wording(
    alloc: Global,
    runs: MatrixRuns<'_>,
    hint: &RunHint,
) -> Result<String, AllocError> {
    match hint {
        RunHint::SetupGoesOn(call) => {
            setup_wording(alloc, runs, *call, ", does not end within 256 moves")
        }
        RunHint::SetupTraps(call) => setup_wording(alloc, runs, *call, ", traps"),
        RunHint::Serial(hint) => serial_wording(alloc, runs, hint),
        RunHint::TooManySteps => too_many_steps_wording(alloc),
    }
}

fn too_many_steps_wording(alloc: Global) -> Result<String, AllocError> {
    format!(in alloc; "the serial runs are not checked: they have more than {MOST_STEPS} steps")
}
