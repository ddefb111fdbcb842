//! The foot of a picture: why operations are left.

ghost use Rattle.std.specs.Prelude.{◌≡◌, ◌+◌, ◌*◌, ◌<◌, ◌≤◌, ◌^◌, IfOk, length};
ghost use Rattle.std.specs.Option.{option_copied};
ghost use Rattle.lu_test.specs.declared.matrix.TheConstants.{MOST_THREADS};
ghost use Rattle.lu_text.specs.Writing.{Writes};
ghost use Rattle.lu_machine.specs.Events.{IsEventInRange};
ghost use Rattle.lu_history.specs.Histories.{IsWellFormed};
ghost use Rattle.lu_picture.specs.Pictures.{events};
ghost use Rattle.lu_picture.specs.Shapes as spec;
ghost use Rattle.lu_picture.specs.Written.{IsLineLength, IsLongestLine, WritesFootHead, WritesFootLine, WritesWhyOf};

use crate::calls::write_call;
use crate::coordinates::write_words;
use crate::ends::end_of;
use crate::mark::Mark;
use crate::reasons::write_why;
use lu_explain::Explanation;
use lu_machine::{Event, Machine};
use std::alloc::{AllocError, Global};

/// Whether an explanation says why the next operation of the thread is left.
fn has_reason(explanation: Option<&Explanation>, t: u8) -> bool
    requires { t < MOST_THREADS }
    ensures { result ≡ spec.has_reason (option_copied explanation.entry) t }
{
    match explanation {
        None => false,
        Some(explanation) => explanation.reason(t).is_some(),
    }
}

/// How many of the first `t` threads have such a line.
pub(crate) fn lines_before(explanation: Option<&Explanation>, t: u8) -> u8
    requires { t ≤ MOST_THREADS }
    ensures { result ≡ spec.lines_before (option_copied explanation.entry) t }
{
    let mut lines = 0u8;
    for u in 0..t {
        if has_reason(explanation, u) {
            lines += 1;
        }
    }
    lines
}

/// Where the line of a thread is, with this many above it.
pub(crate) fn foot(edge: u128, above: u8) -> u128
    requires { edge < 2 ^ 80 }
    ensures { result ≡ spec.foot edge above }
{
    edge + 66 + 18 * (above as u128)
}

/// Adds what an explanation says of call `k` of thread `t`.
pub(crate) fn write_why_of(
    text: &mut String,
    machine: &Machine<'_>,
    marks: &[Mark],
    explanation: Option<&Explanation>,
    t: u8,
    k: u8,
) -> Result<(), AllocError>
    requires { t < MOST_THREADS }
    ensures { WritesWhyOf result text.old text.new machine.now marks.now explanation.entry t k }
{
    write_why(text, machine, explanation, t, k, end_of(marks, t, k))
}

/// Adds a call, and why it is left, if that is said.
fn write_reason_line(
    text: &mut String,
    machine: &Machine<'_>,
    t: u8,
    k: u8,
    why: &str,
) -> Result<(), AllocError>
    ensures { Writes result text.old text.new (spec.reason_line machine.now t k why.now) }
{
    if why.len() == 0 {
        return Ok(());
    }
    write!(text, "T{t} ")?;
    write_call(text, machine, t, k)?;
    write!(text, ": {why}")
}

/// Adds a line of the foot, if there are words.
fn write_foot_text(
    text: &mut String,
    class: &str,
    down: u128,
    words: &str,
) -> Result<(), AllocError>
    ensures { Writes result text.old text.new (spec.foot_text class.now down words.now) }
{
    if words.len() == 0 {
        Ok(())
    } else {
        write_words(text, class, 12, down, words)
    }
}

/// Adds the line of a call that is left for this reason, if that is said, with this many above it.
pub(crate) fn write_foot_line(
    alloc: Global,
    text: &mut String,
    machine: &Machine<'_>,
    edge: u128,
    above: u8,
    t: u8,
    k: u8,
    why: &str,
) -> Result<(), AllocError>
    requires { edge < 2 ^ 80 }
    ensures { WritesFootLine result text.old text.new machine.now edge above t k why.now }
{
    let mut words = String::new(alloc);
    write_reason_line(&mut words, machine, t, k, why)?;
    write_foot_text(text, "r", foot(edge, above), words.as_str())
}

/// The line above those.
fn foot_words(explanation: Option<&Explanation>) -> &'static str
    ensures { result.now ≡ spec.foot_words (option_copied explanation.entry) }
{
    match explanation {
        None => "",
        Some(explanation) => {
            if explanation.is_witnessed() {
                "Numbered calls: a serial order with the same outcomes"
            } else {
                "Numbered calls: the longest serial order that agrees with the run. Not in it:"
            }
        }
    }
}

/// Adds the line above those, if there is an explanation.
pub(crate) fn write_foot_head(
    text: &mut String,
    edge: u128,
    explanation: Option<&Explanation>,
) -> Result<(), AllocError>
    requires { edge < 2 ^ 80 }
    ensures { WritesFootHead result text.old text.new edge explanation.entry }
{
    write_foot_text(text, "f", edge + 48, foot_words(explanation))
}

/// The length of the line for the call that is this event.
fn line_length(
    alloc: Global,
    machine: &Machine<'_>,
    marks: &[Mark],
    explanation: Option<&Explanation>,
    event: Event,
) -> Result<usize, AllocError>
    requires { IsEventInRange event }
    ensures { IsLineLength result machine.now marks.now explanation.entry event }
{
    match event {
        Event::Call { t, k } => {
            let mut why = String::new(alloc);
            write_why_of(&mut why, machine, marks, explanation, t, k)?;
            let mut words = String::new(alloc);
            write_reason_line(&mut words, machine, t, k, why.as_str())?;
            Ok(words.len())
        }
        Event::Return {
            t: _,
            k: _,
            outcome: _,
        } => Ok(0),
    }
}

/// The length of the longest line. Each event is asked to fit those before it.
pub(crate) fn longest_line(
    alloc: Global,
    machine: &Machine<'_>,
    marks: &[Mark],
    explanation: Option<&Explanation>,
) -> Result<usize, AllocError>
    requires { IsWellFormed (events marks.now) }
    ensures { IsLongestLine result machine.now marks.now explanation.entry }
{
    let mut longest = foot_words(explanation).len();
    for mark in marks {
        let long = line_length(alloc, machine, marks, explanation, mark.event)?;
        longest = longest.max(long);
    }
    Ok(longest)
}
