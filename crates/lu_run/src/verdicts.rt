//! The verdicts on several runs, and what is said of one that does not pass.

ghost use Rattle.std.specs.Prelude.{◌≡◌, ◌≤◌, All, IfOk, string_bytes};
ghost use Rattle.lu_machine.specs.declared.TheConstants.{MOST_MOVES};
ghost use Rattle.lu_machine.specs.Starts.{CanRun};
ghost use Rattle.lu_run.specs.Bundled.{IsRunOf};
ghost use Rattle.lu_run.specs.Verdicts as spec;
ghost use Rattle.lu_run.specs.Verdicts.{IsReason, NamesEventOf, TellsFailing, failing_text};

use crate::ending::{line_of, put_order, write_end};
use crate::judging::{RunFailure, RunVerdict, judge_run};
use crate::ordering::RunOperation;
use crate::run::{Run, RunEvent};
use crate::writing::{put_call, put_event_words, write_run};
use lu_component::Component;
use lu_history::SerialOutcome;
use lu_test::Matrix;
use std::alloc::{AllocError, Global};

/// The number of the first run that does not pass, from 0, and the verdict on it; None where all
/// pass. The runs are judged as by [`judge_run`](crate::judge_run).
///
/// # Errors
///
/// Out of memory.
pub fn first_failing(
    alloc: Global,
    component: &Component,
    matrix: &Matrix,
    runs: &[Run],
    bound: u16,
) -> Result<Option<(usize, RunVerdict)>, AllocError>
    requires of { CanRun component.now matrix.now }
    requires runs { All (IsRunOf component.now) runs.now }
    requires few { bound ≤ MOST_MOVES }
    ensures { IfOk result (TellsFailing component.now matrix.now bound runs.now) }
{
    for (number, run) in runs.iter().enumerate() {
        let verdict = judge_run(alloc, component, matrix, run, bound)?;
        match verdict {
            RunVerdict::Passes => {}
            _ => return Ok(Some((number, verdict))),
        }
    }
    Ok(None)
}

/// The number of the last call of the thread, if there is one.
fn last_call(events: &[RunEvent], thread: u8) -> Option<u32>
    ensures { result ≡ spec.last_call thread events.now }
{
    let mut last = None;
    for event in events {
        match *event {
            RunEvent::Call {
                thread: caller,
                call,
            } => {
                if caller == thread {
                    last = Some(call);
                }
            }
            RunEvent::Return { .. } => {}
        }
    }
    last
}

/// The words of an event of the run, if there is one.
fn words_at(
    alloc: Global,
    component: &Component,
    run: &Run,
    event: Option<RunEvent>,
) -> Result<String, AllocError>
    ensures { IfOk result (λ text. string_bytes text ≡ spec.words_at component.now run.now event) }
{
    let mut text = String::new(alloc);
    if let Some(event) = event {
        put_event_words(&mut text, component.operations(), &run.calls, event)?;
    }
    Ok(text)
}

/// The call of the run with this number, if there is one.
fn call_at(
    alloc: Global,
    component: &Component,
    run: &Run,
    number: Option<u32>,
) -> Result<String, AllocError>
    ensures { IfOk result (λ text. string_bytes text ≡ spec.call_at component.now run.now number) }
{
    let mut text = String::new(alloc);
    if let Some(number) = number {
        put_call(&mut text, component.operations(), &run.calls, number)?;
    }
    Ok(text)
}

/// That a run has no linearization after this line, which has these words; and what is expected.
fn lost(
    alloc: Global,
    line: usize,
    words: &str,
    expected: Option<SerialOutcome>,
) -> Result<String, AllocError>
    ensures { IfOk result (λ text. string_bytes text ≡ spec.lost_words line words.now expected) }
{
    match expected {
        None => {
            let text = format!(in alloc;
                "after line {line}, `{words}`, the run has no linearization, whatever the call returns\n"
            )?;
            Ok(text)
        }
        Some(outcome) => {
            let text = format!(in alloc;
                "after line {line}, `{words}`, the run has no linearization; with `{outcome}` it has one\n"
            )?;
            Ok(text)
        }
    }
}

/// That no serial run gets stuck in this call of the thread.
fn never_stuck(alloc: Global, call: &str, thread: u8) -> Result<String, AllocError>
    ensures { IfOk result (λ text. string_bytes text ≡ spec.never_stuck_words call.now thread) }
{
    let text = format!(in alloc;
        "the run is stuck, but `{call}` of thread {thread} is never stuck in a serial run\n"
    )?;
    Ok(text)
}

/// That a serial run offends with this call of the thread.
fn offence(alloc: Global, call: &str, thread: u8, bound: u16) -> Result<String, AllocError>
    ensures { IfOk result (λ text. string_bytes text ≡ spec.offence_words call.now thread bound) }
{
    let text = format!(in alloc;
        "in a serial run of its calls, `{call}` of thread {thread} has two outcomes or takes more than {bound} moves\n"
    )?;
    Ok(text)
}

/// Why the run does not pass, as a line of text. It counts lines in the text that [`write_failing`]
/// writes. After it come the operations of `order`, if there are some: a linearization of the events
/// that are shown, before the one after which there is none.
///
/// # Errors
///
/// Out of memory.
pub fn write_reason(
    alloc: Global,
    component: &Component,
    run: &Run,
    bound: u16,
    verdict: RunVerdict,
    order: &[RunOperation],
) -> Result<String, AllocError>
    requires { NamesEventOf run.now verdict }
    ensures { IfOk result
        (λ t. IsReason component.now bound run.now verdict order.now (string_bytes t)) }
{
    match verdict {
        RunVerdict::Passes => Ok(String::new(alloc)),
        RunVerdict::FailsAt(RunFailure { event, expected }) => {
            let words = words_at(alloc, component, run, run.events.get(event).copied())?;
            let mut text = lost(alloc, line_of(run, event), words.as_str(), expected)?;
            put_order(&mut text, component, run, event, order)?;
            Ok(text)
        }
        RunVerdict::CannotBeStuck(thread) => {
            let call = call_at(alloc, component, run, last_call(&run.events, thread))?;
            never_stuck(alloc, call.as_str(), thread)
        }
        RunVerdict::Offends { thread, call } => {
            let call = call_at(alloc, component, run, Some(call))?;
            offence(alloc, call.as_str(), thread, bound)
        }
    }
}

/// The text of a run that does not pass. Where it has no linearization any more, it is shown up to the
/// event after which it has none, from the last moment before at which no call is pending; a comment
/// says how many events are left out. Any other run is shown whole.
///
/// # Errors
///
/// Out of memory.
pub fn write_failing(
    alloc: Global,
    component: &Component,
    run: &Run,
    verdict: RunVerdict,
) -> Result<String, AllocError>
    requires { NamesEventOf run.now verdict }
    ensures { IfOk result (λ text. string_bytes text ≡ failing_text component.now run.now verdict) }
{
    match verdict {
        RunVerdict::FailsAt(failure) => write_end(alloc, component, run, failure.event),
        _ => write_run(alloc, component, run, run.events.len()),
    }
}
