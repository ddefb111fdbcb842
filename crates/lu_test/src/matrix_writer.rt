//! Writing of matrices.

ghost use Rattle.std.specs.Prelude.{◌≡◌, IfOk, string_bytes};
ghost use Rattle.lu_text.specs.Writing.{IsTextOf, Writes};
ghost use Rattle.lu_test.specs.Matrix.{IsOf};
ghost use Rattle.lu_test.specs.MatrixText as spec;
ghost use Rattle.lu_test.specs.MatrixText.{matrix_text};

use crate::matrix::{Call, Calls, Matrix};
use lu_component::{Component, Op};
use std::alloc::{AllocError, Global};

/// Adds the name of operation number `number` at the end of a text: no name where there is none, as
/// no call of a matrix of the component has it.
fn put_name(text: &mut String, operations: &[Op], number: u8) -> Result<(), AllocError>
    ensures { Writes result text.old text.new (spec.operation_name operations.now number) }
{
    match operations.get(usize::from(number)) {
        None => Ok(()),
        Some(op) => text.push_str(op.name.as_str()),
    }
}

fn put_arguments(text: &mut String, arguments: &[u32]) -> Result<(), AllocError>
    ensures { Writes result text.old text.new (spec.arguments_text arguments.now) }
{
    for argument in arguments {
        write!(text, " {argument}")?;
    }
    Ok(())
}

/// Adds a call of one of these operations at the end of a text, as a matrix has it: its name and
/// its arguments, with spaces between them.
///
/// # Errors
///
/// Memory was refused.
pub fn write_call(text: &mut String, operations: &[Op], call: &Call) -> Result<(), AllocError>
    ensures { Writes result text.old text.new (spec.call_text operations.now call.now) }
{
    put_name(text, operations, call.op)?;
    put_arguments(text, call.args.as_slice())
}

/// Adds each call after `;`.
fn put_others(text: &mut String, operations: &[Op], calls: &[Call]) -> Result<(), AllocError>
    ensures { Writes result text.old text.new (spec.others_text operations.now calls.now) }
{
    for call in calls {
        text.push(';')?;
        write_call(text, operations, call)?;
    }
    Ok(())
}

fn put_calls(text: &mut String, operations: &[Op], calls: &[Call]) -> Result<(), AllocError>
    ensures { Writes result text.old text.new (spec.calls_text operations.now calls.now) }
{
    match calls {
        [] => Ok(()),
        [first, others @ ..] => {
            text.push(' ')?;
            write_call(text, operations, first)?;
            put_others(text, operations, others)
        }
    }
}

/// Adds a line of these calls.
fn put_line(
    text: &mut String,
    operations: &[Op],
    word: &str,
    calls: &[Call],
) -> Result<(), AllocError>
    ensures { Writes result text.old text.new (spec.line_text operations.now word.now calls.now) }
{
    text.push_str(word)?;
    put_calls(text, operations, calls)?;
    text.push('\n')?;
    Ok(())
}

/// Adds the line of a setup, which is not written where it has no calls.
fn put_setup(text: &mut String, operations: &[Op], calls: &[Call]) -> Result<(), AllocError>
    ensures { Writes result text.old text.new (spec.setup_text operations.now calls.now) }
{
    match calls {
        [] => Ok(()),
        _ => put_line(text, operations, "setup", calls),
    }
}

fn put_threads(text: &mut String, operations: &[Op], threads: &[Calls]) -> Result<(), AllocError>
    ensures { Writes result text.old text.new (spec.threads_text operations.now threads.now) }
{
    for calls in threads {
        put_line(text, operations, "thread", calls.as_slice())?;
    }
    Ok(())
}

/// The canonical text of a matrix: `setup`, where it has calls, and `thread` for each thread, and
/// where there are calls a space and the calls, separated by `;` without blanks; one space before
/// each argument; each line ends with LF. Read again it is the same matrix. Asks for a matrix of
/// the component.
///
/// # Errors
///
/// There is no memory for the text.
pub fn write_matrix(
    alloc: Global,
    component: &Component,
    matrix: &Matrix,
) -> Result<String, AllocError>
    requires { IsOf matrix.now component.now }
    ensures text { IfOk result (λ text.
        string_bytes text ≡ matrix_text component.now matrix.now) }
    ensures again { IfOk result (IsTextOf (spec.matrix_grammar component.now) matrix.now) }
{
    let operations = component.operations();
    let mut text = String::new(alloc);
    put_setup(&mut text, operations, matrix.setup().as_slice())?;
    put_threads(&mut text, operations, matrix.as_slice())?;
    Ok(text)
}
