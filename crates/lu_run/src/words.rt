//! The words of a run's lines.

ghost use Rattle.std.specs.Prelude.{◌≡◌, ◌==◌, ◌<◌, ◌≤◌, IfOk, IfSome, IsTrue, is_some, length};
ghost use Rattle.std.specs.List.{filter_map, list_all};
ghost use Rattle.std.specs.Option.{option_map};
ghost use Rattle.std.specs.Str.{bytes_eq};
ghost use Rattle.lu_text.specs.Faults.{OnLine};
ghost use Rattle.lu_text.specs.Lines.{texts};
ghost use Rattle.lu_text.specs.Numbers.{value_in};
ghost use Rattle.lu_text.specs.Results.{HasItems};
ghost use Rattle.lu_text.specs.Words.{exactly_two};
ghost use Rattle.lu_component.specs.Component.{Component};
ghost use Rattle.lu_test.specs.Matrix.{AreArguments};
ghost use Rattle.lu_run.specs.RunText as spec;
ghost use Rattle.lu_run.specs.RunText.{value_return_of};
ghost use Rattle.lu_run.specs.Reading.{AreNumbersOf, HasCall, HasEvent, IsOf};
ghost use Rattle.lu_run.specs.Tables.{IsCallFor};

use crate::fault::{RunFault, RunFaultKind};
use lu_component::{Component, Op};
use lu_machine::Outcome;
use lu_test::{Arguments, Call};
use lu_text::{Fault, exactly_three, exactly_two, value_in};
use std::alloc::{AllocError, Global};

/// An event of a run, as its text says it.
#[derive(Debug, Drop)]
pub(crate) enum TextEvent {
    /// The thread, a number from 0 to 7, makes the call.
    Call { thread: u8, call: Call },

    /// The call of the thread returns with this outcome.
    Return { thread: u8, outcome: Outcome },
}

/// Whether the bytes are this text.
pub(crate) fn is_text(word: &[u8], text: &str) -> bool
    ensures { result ≡ bytes_eq word.now text.now }
{
    word == text.as_bytes()
}

/// The number of a thread, 0 to 7.
fn thread_in(word: &[u8]) -> Option<u8>
    ensures thread { result ≡ spec.thread_in word.now }
    ensures seat { IfSome result (λ t. t < 8) }
{
    let number = value_in(word)?;
    if number < 8 { Some(number as u8) } else { None }
}

/// Whether each word is a number.
fn are_values(words: &[&[u8]]) -> bool
    ensures { result ≡ list_all (λ word. is_some (value_in word.now)) words.now }
{
    words.iter().all(|word| value_in(word).is_some())
}

/// The numbers of those words that are numbers.
fn values_of(alloc: Global, words: &[&[u8]]) -> Result<Vec<u32>, AllocError>
    ensures { HasItems result (filter_map (λ w. value_in w.now) words.now) }
{
    words
        .iter()
        .filter_map(|word| value_in(word))
        .collect(alloc)
}

/// The numbers of the words, if each is one.
fn numbers_in(alloc: Global, words: &[&[u8]]) -> Result<Option<Vec<u32>>, AllocError>
    ensures { IfOk result (AreNumbersOf (texts words.now)) }
{
    if !are_values(words) {
        return Ok(None);
    }
    Ok(Some(values_of(alloc, words)?))
}

/// Whether the operation takes as many arguments.
fn takes(op: &Op, numbers: &[u32]) -> bool
    ensures takes { result ≡ (op.now.args == length numbers.now) }
    ensures few { IsTrue result → op.now.args ≤ 4 → AreArguments numbers.now }
{
    usize::from(op.args) == numbers.len()
}

/// The call of the component's operation of this name, if it takes as many arguments.
fn named_call(component: &Component, name: &[u8], numbers: Vec<u32>) -> Option<Call>
    ensures call { result ≡ spec.named_call component.now name.now numbers.items }
    ensures of { IfSome result (IsCallFor component.now) }
{
    let number = component.operation_number(name)?;
    let op = component.operations().get(usize::from(number))?;
    if !takes(op, &numbers) {
        return None;
    }
    Some(Call {
        op: number,
        args: Arguments::new(numbers),
    })
}

/// The call of the thread, if the component has it and the thread has no pending call.
fn call_next(
    component: &Component,
    line: usize,
    pending: &[bool; 8],
    thread: u8,
    name: &[u8],
    numbers: Vec<u32>,
) -> Result<TextEvent, RunFault>
    requires { thread < 8 }
    ensures event { HasCall component.now line pending.now thread name.now numbers.items result }
    ensures of { IfOk result (IsOf component.now pending.now) }
{
    let Some(call) = named_call(component, name, numbers) else {
        return Err(Fault::At(RunFaultKind::Foreign, line));
    };
    if pending[usize::from(thread)] {
        return Err(Fault::At(RunFaultKind::Order, line));
    }
    Ok(TextEvent::Call { thread, call })
}

/// What the words after `call` say.
fn call_in(
    alloc: Global,
    component: &Component,
    line: usize,
    pending: &[bool; 8],
    words: &[&[u8]],
) -> Result<TextEvent, RunFault>
    ensures event { OnLine line result (spec.called component.now pending.now (texts words.now)) }
    ensures of { IfOk result (IsOf component.now pending.now) }
{
    match words {
        [thread, name, arguments @ ..] => {
            let numbers = numbers_in(alloc, arguments)?;
            let (Some(thread), Some(numbers)) = (thread_in(thread), numbers) else {
                return Err(Fault::At(RunFaultKind::Number, line));
            };
            call_next(component, line, pending, thread, name, numbers)
        }
        _ => Err(Fault::At(RunFaultKind::Form, line)),
    }
}

/// The return of the thread with this outcome.
fn return_with(
    line: usize,
    pending: &[bool; 8],
    thread: Option<u8>,
    outcome: Option<Outcome>,
) -> Result<TextEvent, RunFault>
    requires { IfSome thread (λ t. t < 8) }
    ensures event { OnLine line result (spec.return_with pending.now thread outcome) }
    ensures of { (c : Component) → IfOk result (IsOf c pending.now) }
{
    let (Some(thread), Some(outcome)) = (thread, outcome) else {
        return Err(Fault::At(RunFaultKind::Number, line));
    };
    if !pending[usize::from(thread)] {
        return Err(Fault::At(RunFaultKind::Order, line));
    }
    Ok(TextEvent::Return { thread, outcome })
}

/// The event that the words after `return` describe, where they end with `ret N`.
fn value_return_in(line: usize, pending: &[bool; 8], words: &[&[u8]]) -> Result<TextEvent, RunFault>
    ensures event { OnLine line result (value_return_of pending.now (texts words.now)) }
    ensures of { (c : Component) → IfOk result (IsOf c pending.now) }
{
    let Some((thread, word, value)) = exactly_three(words) else {
        return Err(Fault::At(RunFaultKind::Form, line));
    };
    if !is_text(word, "ret") {
        return Err(Fault::At(RunFaultKind::Form, line));
    }
    let outcome = value_in(value).map(Outcome::Ret);
    return_with(line, pending, thread_in(thread), outcome)
}

/// The event that the words after `return` describe.
fn return_in(line: usize, pending: &[bool; 8], words: &[&[u8]]) -> Result<TextEvent, RunFault>
    ensures event { OnLine line result (spec.return_of pending.now (texts words.now)) }
    ensures of { (c : Component) → IfOk result (IsOf c pending.now) }
{
    let Some((thread, word)) = exactly_two(words) else {
        return value_return_in(line, pending, words);
    };
    if !is_text(word, "trap") {
        return Err(Fault::At(RunFaultKind::Form, line));
    }
    return_with(line, pending, thread_in(thread), Some(Outcome::Trap))
}

/// The event that a line with these words says.
pub(crate) fn event_in(
    alloc: Global,
    component: &Component,
    line: usize,
    pending: &[bool; 8],
    word: &[u8],
    words: &[&[u8]],
) -> Result<TextEvent, RunFault>
    ensures event { HasEvent component.now line pending.now word.now (texts words.now) result }
    ensures of { IfOk result (IsOf component.now pending.now) }
{
    if is_text(word, "call") {
        call_in(alloc, component, line, pending, words)
    } else if is_text(word, "return") {
        return_in(line, pending, words)
    } else {
        Err(Fault::At(RunFaultKind::Form, line))
    }
}
