//! The lines of serial operations, as an explanation has them.

ghost use Rattle.std.specs.Prelude.{◌<◌, length};
ghost use Rattle.lu_text.specs.Writing.{Writes};
ghost use Rattle.lu_explain.specs.Lines.{entry_line, operation_words, order_line, order_text};

use lu_component::Component;
use lu_explain::{count, write_outcome};
use lu_history::SerialOp;
use lu_test::{Matrix, write_call};
use std::alloc::AllocError;

/// Adds the words of call number `k` of thread `t`: the thread alone where the matrix has no such
/// call.
pub(crate) fn write_operation(
    text: &mut String,
    component: &Component,
    matrix: &Matrix,
    t: u8,
    k: usize,
) -> Result<(), AllocError>
    ensures { Writes result text.old text.new (operation_words component.now matrix.now t k) }
{
    write!(text, "T{t}")?;
    if k < usize::from(matrix.calls(t)) {
        text.push(' ')?;
        write_call(text, component.operations(), matrix.call(t, k as u8))
    } else {
        Ok(())
    }
}

/// Adds the line of an operation with these before it.
pub(crate) fn write_entry(
    text: &mut String,
    component: &Component,
    matrix: &Matrix,
    before: &[SerialOp],
    op: SerialOp,
) -> Result<(), AllocError>
    ensures { Writes result text.old text.new
        (entry_line component.now matrix.now before.now op) }
{
    text.push_str("  ")?;
    write_operation(text, component, matrix, op.thread, count(before, op.thread))?;
    text.push_str("  # ")?;
    write_outcome(text, op.outcome)?;
    text.push('\n')
}

/// Adds the line of operation number `i` of the order.
fn write_order_line(
    text: &mut String,
    component: &Component,
    matrix: &Matrix,
    order: &[SerialOp],
    i: usize,
) -> Result<(), AllocError>
    requires { i < length order.now }
    ensures { Writes result text.old text.new
        (order_line component.now matrix.now order.now i) }
{
    write_entry(text, component, matrix, &order[..i], order[i])
}

/// Adds the lines of the order.
pub(crate) fn write_order(
    text: &mut String,
    component: &Component,
    matrix: &Matrix,
    order: &[SerialOp],
) -> Result<(), AllocError>
    ensures { Writes result text.old text.new (order_text component.now matrix.now order.now) }
{
    for i in 0..order.len() {
        write_order_line(text, component, matrix, order, i)?;
    }
    Ok(())
}
