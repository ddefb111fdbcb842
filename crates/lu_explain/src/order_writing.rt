//! The text of an order of the calls, precedence aside.

ghost use Rattle.std.specs.Prelude.{◌≡◌};
ghost use Rattle.lu_text.specs.Writing.{Writes};
ghost use Rattle.lu_history.specs.Parts.{is_return};
ghost use Rattle.lu_explain.specs.OrderLines as spec;

use crate::orders::{AnyOrder, Precedence};
use crate::subject::Run;
use crate::writing::{write_operation, write_order};
use lu_component::Component;
use lu_history::OpId;
use lu_machine::Event;
use lu_test::Matrix;
use std::alloc::AllocError;

/// Whether the event is the return of the operation.
fn is_return(a: OpId, event: Event) -> bool
    ensures { result ≡ is_return a event }
{
    match event {
        Event::Call { .. } => false,
        Event::Return { t, k, .. } => t == a.t && k == a.k,
    }
}

/// Whether the event is the call of the operation.
fn is_call(a: OpId, event: Event) -> bool
    ensures { result ≡ spec.is_call a event }
{
    match event {
        Event::Call { t, k } => t == a.t && k == a.k,
        Event::Return { .. } => false,
    }
}

/// The number of the return of the operation, where each event has a number.
fn returned_at(a: OpId, events: &[Event], numbers: &[usize]) -> usize
    ensures { result ≡ spec.number_of (is_return a) events.now numbers.now }
{
    for i in 0..events.len().min(numbers.len()) {
        if is_return(a, events[i]) {
            return numbers[i];
        }
    }
    0
}

/// The number of its call.
fn called_at(a: OpId, events: &[Event], numbers: &[usize]) -> usize
    ensures { result ≡ spec.number_of (spec.is_call a) events.now numbers.now }
{
    for i in 0..events.len().min(numbers.len()) {
        if is_call(a, events[i]) {
            return numbers[i];
        }
    }
    0
}

/// Adds which operation comes before which.
fn write_stands(
    text: &mut String,
    component: &Component,
    matrix: &Matrix,
    broken: Precedence,
) -> Result<(), AllocError>
    ensures { Writes result text.old text.new
        (spec.stands_words component.now matrix.now broken) }
{
    let (first, second) = (broken.first, broken.second);
    write_operation(text, component, matrix, second.t, usize::from(second.k))?;
    text.push_str(" comes before ")?;
    write_operation(text, component, matrix, first.t, usize::from(first.k))
}

/// Adds that the operation returned at this move.
fn write_returned(
    text: &mut String,
    component: &Component,
    matrix: &Matrix,
    a: OpId,
    at: usize,
) -> Result<(), AllocError>
    ensures { Writes result text.old text.new
        (spec.returned_words component.now matrix.now a at) }
{
    text.push_str(" here, but ")?;
    write_operation(text, component, matrix, a.t, usize::from(a.k))?;
    write!(text, " returned (move {at})")
}

/// Adds that it returned before the operation was called, at this move.
fn write_called(
    text: &mut String,
    component: &Component,
    matrix: &Matrix,
    b: OpId,
    at: usize,
) -> Result<(), AllocError>
    ensures { Writes result text.old text.new
        (spec.called_words component.now matrix.now b at) }
{
    text.push_str(" before ")?;
    write_operation(text, component, matrix, b.t, usize::from(b.k))?;
    write!(text, " was called (move {at})")
}

/// Adds the line of a precedence that an order breaks.
fn write_broken(text: &mut String, run: &Run<'_>, broken: Precedence) -> Result<(), AllocError>
    ensures { Writes result text.old text.new (spec.broken_line run.now broken) }
{
    let events = run.history.events();
    let (component, matrix) = (run.component, run.matrix);
    let returned = returned_at(broken.first, events, run.moves);
    let called = called_at(broken.second, events, run.moves);
    write_stands(text, component, matrix, broken)?;
    write_returned(text, component, matrix, broken.first, returned)?;
    write_called(text, component, matrix, broken.second, called)?;
    text.push('\n')
}

/// Adds an order and the first precedence that it breaks, or that there is none.
pub(crate) fn write_any_order(
    text: &mut String,
    run: &Run<'_>,
    found: &Option<AnyOrder>,
) -> Result<(), AllocError>
    ensures { Writes result text.old text.new (spec.any_order_text run.now found.now) }
{
    let Some(found) = found else {
        return text.push_str("no order of the calls has these outcomes\n");
    };
    text.push_str("any order\n")?;
    write_order(text, run.component, run.matrix, found.order())?;
    match found.broken() {
        None => Ok(()),
        Some(broken) => write_broken(text, run, broken),
    }
}
