//! Reading of runs.

ghost use Rattle.std.specs.Prelude.{◌≡◌, ◌<◌, IfOk, IfSome, OnOk, length};
ghost use Rattle.lu_component.specs.Component.{Component};
ghost use Rattle.lu_text.specs.Lines.{texts};
ghost use Rattle.lu_text.specs.Faults.{Gives, OnLine, TellsFirst, meaning_of};
ghost use Rattle.lu_run.specs.RunText as spec;
ghost use Rattle.lu_run.specs.RunText.{run_grammar, run_said, said_by};
ghost use Rattle.lu_run.specs.Reading.{AddsEvent, AddsEventLine, AddsLine, AddsNext, AddsWith, AddsWords, HasCallsOf, IsNumberOf, IsSound, IsSoundIf, IsWholeRun, KeepsKeys, call_of_key, calls_of_keys, seat_of, seen, seen_if};
ghost use Rattle.lu_run.specs.declared.words.TextEvent.TheVariants as text;
ghost use Rattle.lu_run.specs.Runs.{AreDistinct, IsRun};
ghost use Rattle.lu_run.specs.Tables.{AreCallsOf};

use crate::fault::{RunFault, RunFaultKind};
use crate::run::{Run, RunEvent};
use crate::words::{TextEvent, event_in, is_text};
use indexmap::IndexSet;
use lu_component::Component;
use lu_machine::Outcome;
use lu_test::{Arguments, Call};
use lu_text::{Fault, are_allowed, lines_of, words_of};
use std::alloc::{AllocError, Global};

/// A call, by which its number is found.
#[derive(PartialEq, Eq, Hash, Drop)]
pub(crate) struct CallKey {
    pub(crate) op: u8,
    pub(crate) args: Vec<u32>,
}

/// A run as far as its text is read.
#[derive(Drop)]
pub(crate) struct Draft {
    /// The different calls.
    pub(crate) keys: IndexSet<CallKey>,

    pub(crate) events: Vec<RunEvent>,

    /// Of each thread, whether it has a pending call.
    pub(crate) pending: [bool; 8],
    pub(crate) is_stuck: bool,
}

fn key_of(alloc: Global, call: &Call) -> Result<CallKey, AllocError>
    ensures { IfOk result (λ key. call_of_key key ≡ call.now) }
{
    Ok(CallKey {
        op: call.op,
        args: Vec::from_slice(alloc, call.args.as_slice())?,
    })
}

/// The number of the call, which becomes a new one unless it is there already. None where the
/// numbers don't suffice.
fn number_of(keys: &mut IndexSet<CallKey>, key: CallKey) -> Result<Option<u32>, AllocError>
    ensures keeps { OnOk result (KeepsKeys keys.old.keys key keys.new.keys) }
    ensures number { IfOk result (λ n. IfSome n (IsNumberOf keys.new.keys key)) }
{
    let (place, _) = keys.insert_full(key)?;
    Ok(u32::try_from(place).ok())
}

/// The draft with a call more.
fn with_call(alloc: Global, mut draft: Draft, thread: u8, call: &Call) -> Result<Draft, AllocError>
    requires { thread < 8 }
    ensures { AddsEvent draft (text.Call thread call.now) result }
{
    let key = key_of(alloc, call)?;
    let Some(number) = number_of(&mut draft.keys, key)? else {
        return Err(AllocError);
    };
    draft.events.push(RunEvent::Call {
        thread,
        call: number,
    })?;
    draft.pending[usize::from(thread)] = true;
    Ok(draft)
}

/// The draft with a return more.
fn with_return(mut draft: Draft, thread: u8, outcome: Outcome) -> Result<Draft, AllocError>
    requires { thread < 8 }
    ensures { AddsEvent draft (text.Return thread outcome) result }
{
    draft.events.push(RunEvent::Return { thread, outcome })?;
    draft.pending[usize::from(thread)] = false;
    Ok(draft)
}

/// The draft with an event more.
fn with_event(alloc: Global, draft: Draft, event: &TextEvent) -> Result<Draft, AllocError>
    requires { seat_of event.now < 8 }
    ensures { AddsEvent draft event.now result }
{
    match event {
        TextEvent::Call { thread, call } => with_call(alloc, draft, *thread, call),
        TextEvent::Return { thread, outcome } => with_return(draft, *thread, *outcome),
    }
}

/// Whether the line is this word alone.
fn is_alone(text: &str, word: &[u8], words: &[&[u8]]) -> bool
    ensures { result ≡ spec.is_alone text.now word.now (texts words.now) }
{
    is_text(word, text) && words.is_empty()
}

/// The draft with the event that a line of these words says.
fn event_line(
    alloc: Global,
    component: &Component,
    line: usize,
    draft: Draft,
    word: &[u8],
    words: &[&[u8]],
) -> Result<Draft, RunFault>
    requires { IsSound component.now draft }
    ensures said { AddsEventLine component.now line draft word.now (texts words.now) result }
    ensures sound { IfOk result (IsSound component.now) }
{
    let event = event_in(alloc, component, line, &draft.pending, word, words)?;
    Ok(with_event(alloc, draft, &event)?)
}

/// The draft with a line of these words more.
fn next_line(
    alloc: Global,
    component: &Component,
    line: usize,
    mut draft: Draft,
    word: &[u8],
    words: &[&[u8]],
) -> Result<Draft, RunFault>
    requires { IsSound component.now draft }
    ensures said { AddsNext component.now line draft word.now (texts words.now) result }
    ensures sound { IfOk result (IsSound component.now) }
{
    if draft.is_stuck {
        return Err(Fault::At(RunFaultKind::Order, line));
    }
    if is_alone("stuck", word, words) {
        draft.is_stuck = true;
        return Ok(draft);
    }
    event_line(alloc, component, line, draft, word, words)
}

/// The draft after the line `run`.
fn first_draft(alloc: Global) -> Draft
    ensures seen { seen result ≡ spec.first_line }
    ensures sound { (c : Component) → IsSound c result }
{
    Draft {
        keys: IndexSet::new(alloc),
        events: Vec::new(alloc),
        pending: [false; 8],
        is_stuck: false,
    }
}

/// What is read after a line with this first word and these others.
fn line_with(
    alloc: Global,
    component: &Component,
    line: usize,
    draft: Option<Draft>,
    word: &[u8],
    words: &[&[u8]],
) -> Result<Option<Draft>, RunFault>
    requires { IsSoundIf component.now draft }
    ensures said { AddsWith component.now line draft word.now (texts words.now) result }
    ensures sound { IfOk result (IsSoundIf component.now) }
{
    match draft {
        None => {
            if !is_alone("run", word, words) {
                return Err(Fault::At(RunFaultKind::Form, line));
            }
            Ok(Some(first_draft(alloc)))
        }
        Some(draft) => Ok(Some(next_line(alloc, component, line, draft, word, words)?)),
    }
}

/// What is read after a line with these words.
fn with_words(
    alloc: Global,
    component: &Component,
    line: usize,
    draft: Option<Draft>,
    words: &[&[u8]],
) -> Result<Option<Draft>, RunFault>
    requires { IsSoundIf component.now draft }
    ensures said { AddsWords component.now line draft (texts words.now) result }
    ensures sound { IfOk result (IsSoundIf component.now) }
{
    let Some((word, rest)) = words.split_first() else {
        return Ok(draft);
    };
    line_with(alloc, component, line, draft, word, rest)
}

/// What is read after one line more.
#[tactic(auto, unfolding(crate::specs::RunText::line_of))]
fn read_line(
    alloc: Global,
    component: &Component,
    line: usize,
    draft: Option<Draft>,
    text: &[u8],
) -> Result<Option<Draft>, RunFault>
    requires { IsSoundIf component.now draft }
    ensures said { AddsLine component.now line draft text.now result }
    ensures sound { IfOk result (IsSoundIf component.now) }
{
    if !are_allowed(text) {
        return Err(Fault::At(RunFaultKind::Byte, line));
    }
    let words = words_of(alloc, text)?;
    with_words(alloc, component, line, draft, &words)
}

/// The calls with these keys.
fn calls_of_keys(alloc: Global, keys: &[CallKey]) -> Result<Vec<Call>, AllocError>
    ensures { IfOk result (λ calls. calls.items ≡ calls_of_keys keys.now) }
{
    let mut calls = Vec::with_capacity(alloc, keys.len())?;
    for key in keys {
        let numbers = Vec::from_slice(alloc, &key.args)?;
        calls.push(Call {
            op: key.op,
            args: Arguments::new(numbers),
        })?;
    }
    Ok(calls)
}

/// The run at the end of a text of this many lines.
fn finish(alloc: Global, draft: Option<Draft>, lines: usize) -> Result<Run, RunFault>
    ensures said { OnLine lines (said_by result) (spec.finished (seen_if draft)) }
    ensures distinct { IfOk result (λ run. AreDistinct run.calls.items) }
    ensures calls { (c : Component) → IsSoundIf c draft → IfOk result (HasCallsOf c) }
    ensures run { (c : Component) → IsSoundIf c draft → IfOk result IsWholeRun }
{
    let Some(draft) = draft else {
        return Err(Fault::At(RunFaultKind::Form, lines));
    };
    let calls = calls_of_keys(alloc, draft.keys.as_slice())?;
    Ok(Run {
        calls,
        events: draft.events,
        is_stuck: draft.is_stuck,
    })
}

fn read_lines(alloc: Global, component: &Component, lines: &[&[u8]]) -> Result<Run, RunFault>
    ensures said { Gives (said_by result) (run_said component.now (texts lines.now)) }
    ensures distinct { IfOk result (λ run. AreDistinct run.calls.items) }
    ensures calls { IfOk result (λ run. AreCallsOf component.now run.calls.items) }
    ensures run { IfOk result (λ run. IsRun run.calls.items run.events.items) }
{
    let mut draft = None;
    for (before, text) in lines.iter().enumerate() {
        draft = read_line(alloc, component, before + 1, draft, text)?;
    }
    finish(alloc, draft, lines.len() + 1)
}

fn run_in(alloc: Global, component: &Component, text: &[u8]) -> Result<Run, RunFault>
    ensures exact { Gives (said_by result) (meaning_of (run_grammar component.now) text.now) }
    ensures distinct { IfOk result (λ run. AreDistinct run.calls.items) }
    ensures calls { IfOk result (λ run. AreCallsOf component.now run.calls.items) }
    ensures run { IfOk result (λ run. IsRun run.calls.items run.events.items) }
{
    let lines = lines_of(alloc, text)?;
    read_lines(alloc, component, &lines)
}

/// Reads a run of a component from its text.
///
/// A fault is the first one of the text: by line, and on a line by the order of [`RunFaultKind`]. A
/// text without the line `run` has its fault on the line after the last.
///
/// # Errors
///
/// The first fault of the text, or that there is no memory for the run.
pub fn read_run(alloc: Global, component: &Component, text: &[u8]) -> Result<Run, RunFault>
    // Which run, or which fault.
    ensures exact { Gives (said_by result) (meaning_of (run_grammar component.now) text.now) }
    // No line before the fault's has one.
    ensures first { TellsFirst (run_grammar component.now) text.now result }
    // No call has two numbers.
    ensures distinct { IfOk result (λ run. AreDistinct run.calls.items) }
    // The run can be judged.
    ensures calls { IfOk result (λ run. AreCallsOf component.now run.calls.items) }
    ensures run { IfOk result (λ run. IsRun run.calls.items run.events.items) }
{
    run_in(alloc, component, text)
}
