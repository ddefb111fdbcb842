//! What an explanation says of operations: their numbers in its order, and why they are left.

ghost use Rattle.std.specs.Prelude.{◌≡◌, ◌<◌, length};
ghost use Rattle.std.specs.Option.{option_copied};
ghost use Rattle.lu_picture.specs.Reasons as spec;
ghost use Rattle.lu_picture.specs.Written.{WritesReason, WritesWhy};
ghost use Rattle.lu_test.specs.declared.matrix.TheConstants.{MOST_THREADS};

use crate::mark::End;
use lu_explain::{Explanation, count, write_outcome, write_reason};
use lu_history::{SerialOp, SerialOutcome};
use lu_machine::Machine;
use std::alloc::AllocError;

/// The number of operation `i` of the order, from 1, where it is call `k` of thread `t`.
fn number_at(order: &[SerialOp], t: u8, k: u8, i: usize) -> Option<usize>
    requires { i < length order.now }
    ensures { result ≡ spec.number_at order.now t k i }
{
    if order[i].thread == t && count(&order[..i], t) == usize::from(k) {
        Some(i + 1)
    } else {
        None
    }
}

/// The number of call `k` of thread `t` in the order, if it is there.
fn number_in_order(order: &[SerialOp], t: u8, k: u8) -> Option<usize>
    ensures { result ≡ spec.number_in_order order.now t k (length order.now) }
{
    let mut found = None;
    for i in 0..order.len() {
        found = found.or(number_at(order, t, k, i));
    }
    found
}

/// The number of call `k` of thread `t` in the explanation's order, from 1: `None` where it is not
/// there, and where there is no explanation.
pub(crate) fn explained_number(explanation: Option<&Explanation>, t: u8, k: u8) -> Option<usize>
    ensures { result ≡ spec.explained_number (option_copied explanation.entry) t k }
{
    match explanation {
        None => None,
        Some(explanation) => number_in_order(explanation.order(), t, k),
    }
}

/// Whether there is an explanation whose order lacks call `k` of thread `t`.
pub(crate) fn is_left(explanation: Option<&Explanation>, t: u8, k: u8) -> bool
    ensures { result ≡ spec.is_left (option_copied explanation.entry) t k }
{
    match explanation {
        None => false,
        Some(explanation) => number_in_order(explanation.order(), t, k).is_none(),
    }
}

fn outcome_of(end: Option<End>) -> SerialOutcome
    ensures { result ≡ spec.outcome_of end }
{
    match end {
        None => SerialOutcome::Stuck,
        Some(end) => SerialOutcome::from(end.outcome),
    }
}

/// Adds how call `k` of thread `t` ended and why it can't come next, where it is its thread's next
/// after the order.
fn write_reason_of(
    text: &mut String,
    machine: &Machine<'_>,
    explanation: &Explanation,
    t: u8,
    k: u8,
    outcome: SerialOutcome,
) -> Result<(), AllocError>
    requires { t < MOST_THREADS }
    ensures { WritesReason result text.old text.new machine.now explanation.now t k outcome }
{
    if usize::from(k) != count(explanation.order(), t) {
        return Ok(());
    }
    match explanation.reason(t) {
        None => Ok(()),
        Some(reason) => {
            write_outcome(text, outcome)?;
            let order = explanation.order();
            write_reason(text, machine.component(), machine.matrix(), order, reason)
        }
    }
}

/// Adds that, where there is an explanation.
pub(crate) fn write_why(
    text: &mut String,
    machine: &Machine<'_>,
    explanation: Option<&Explanation>,
    t: u8,
    k: u8,
    end: Option<End>,
) -> Result<(), AllocError>
    requires { t < MOST_THREADS }
    ensures { WritesWhy result text.old text.new machine.now explanation.entry t k end }
{
    match explanation {
        None => Ok(()),
        Some(explanation) => { write_reason_of(text, machine, explanation, t, k, outcome_of(end)) }
    }
}
