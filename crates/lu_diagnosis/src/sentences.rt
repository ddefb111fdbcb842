//! One sentence about what happened in a history that has no serial witness.

ghost use Rattle.std.specs.Prelude.{◌≡◌, ◌<◌, slice_get};
ghost use Rattle.lu_test.specs.declared.matrix.TheConstants.{MOST_THREADS};
ghost use Rattle.lu_text.specs.Writing.{Writes};
ghost use Rattle.lu_history.specs.Parts.{part};
ghost use Rattle.lu_diagnosis.specs.Sentences as spec;
ghost use Rattle.lu_diagnosis.specs.Sentences.{AddsBy, AddsThread, Says, SaysOf, SaysWhy, TellsBroken, TellsFirstOwn, happened, late, order_words, past_words, why_left};

use crate::serial_runs::write_end;
use crate::writing::write_operation;
use lu_component::Component;
use lu_explain::{Explanation, Precedence, Reason, any_order, count, explain, write_reason};
use lu_history::{History, OpId, SerialOp, SerialOutcome};
use lu_test::Matrix;
use lu_trie::SerialTree;
use lu_witness::Verdict;
use std::alloc::{AllocError, Global};

/// How call `k` of thread `t` ended in the history; `None` where it is not in it.
fn ended(history: &History, t: u8, k: usize) -> Option<SerialOutcome>
    ensures { result ≡ slice_get (part t history.now) k }
{
    // For the proof: a history's own rule is known from its calls.
    let _events = history.events();
    if t >= 8 {
        return None;
    }
    if k < usize::from(history.calls(t)) {
        history.ended(OpId { t, k: k as u8 })
    } else {
        None
    }
}

/// Adds how a call of the run ended.
fn write_past(text: &mut String, outcome: SerialOutcome) -> Result<(), AllocError>
    ensures { Writes result text.old text.new (past_words outcome) }
{
    match outcome {
        SerialOutcome::Ret(value) => write!(text, " returned {value}"),
        SerialOutcome::Trap => text.push_str(" trapped"),
        SerialOutcome::Stuck => text.push_str(" blocks"),
    }
}

/// Adds call `k` of thread `t`, and how it ended in the history.
fn write_happened(
    text: &mut String,
    component: &Component,
    matrix: &Matrix,
    history: &History,
    t: u8,
    k: usize,
) -> Result<(), AllocError>
    ensures { Writes result text.old text.new
        (happened component.now matrix.now history.now t k) }
{
    write_operation(text, component, matrix, t, k)?;
    match ended(history, t, k) {
        None => Ok(()),
        Some(outcome) => write_past(text, outcome),
    }
}

/// Adds the sentence about a precedence that every order of the calls with these outcomes breaks.
fn write_late(
    text: &mut String,
    component: &Component,
    matrix: &Matrix,
    history: &History,
    broken: Precedence,
) -> Result<(), AllocError>
    ensures { Writes result text.old text.new
        (late component.now matrix.now history.now broken) }
{
    let Precedence { first, second } = broken;
    write_happened(
        text,
        component,
        matrix,
        history,
        second.t,
        usize::from(second.k),
    )?;
    text.push_str(", although ")?;
    write_operation(text, component, matrix, first.t, usize::from(first.k))?;
    text.push_str(" had returned before it was called\n")
}

/// Adds the calls of the order.
fn write_order_words(
    text: &mut String,
    component: &Component,
    matrix: &Matrix,
    order: &[SerialOp],
) -> Result<(), AllocError>
    ensures { Writes result text.old text.new
        (order_words component.now matrix.now order.now) }
{
    match order {
        [] => Ok(()),
        [op] => {
            text.push_str(" after ")?;
            write_operation(text, component, matrix, op.thread, 0)
        }
        _ => write!(text, " after the {} calls below", order.len()),
    }
}

/// Adds why an operation can't come next after an order.
fn write_but(
    text: &mut String,
    component: &Component,
    matrix: &Matrix,
    order: &[SerialOp],
    reason: Reason,
) -> Result<(), AllocError>
    ensures { Writes result text.old text.new
        (why_left component.now matrix.now order.now reason) }
{
    match reason {
        Reason::Outcome(outcome) => {
            text.push_str(", but in a serial run it ")?;
            write_end(text, outcome)?;
            write_order_words(text, component, matrix, order)
        }
        Reason::After(_) | Reason::Nothing => {
            write_reason(text, component, matrix, order, reason)
        }
    }
}

/// Whether an outcome is the reason, or that nothing continues, and not another operation that is
/// left.
fn is_own(reason: Option<Reason>) -> bool
    ensures { result ≡ spec.is_own reason }
{
    match reason {
        None | Some(Reason::After(_)) => false,
        Some(Reason::Outcome(_)) | Some(Reason::Nothing) => true,
    }
}

/// The least thread whose next operation is left for such a reason.
fn first_own(explanation: &Explanation) -> Option<u8>
    ensures { TellsFirstOwn explanation.now result }
{
    for t in 0..8 {
        if is_own(explanation.reason(t)) {
            return Some(t);
        }
    }
    None
}

/// Adds the sentence about thread `t`, where an operation of it is left.
fn write_thread(
    text: &mut String,
    component: &Component,
    matrix: &Matrix,
    history: &History,
    why: &Explanation,
    t: u8,
) -> Result<(), AllocError>
    requires { t < MOST_THREADS }
    ensures { AddsThread result text.old text.new component.now matrix.now history.now why.now t }
{
    let Some(reason) = why.reason(t) else {
        return Ok(());
    };
    let order = why.order();
    write_happened(text, component, matrix, history, t, count(order, t))?;
    write_but(text, component, matrix, order, reason)?;
    text.push('\n')
}

/// Adds what is said of a history without a witness: the sentence about the precedence that is
/// broken, or else about the first thread whose next operation is left for a reason of its own.
fn write_sentence(
    text: &mut String,
    component: &Component,
    matrix: &Matrix,
    history: &History,
    why: &Explanation,
    broken: Option<Precedence>,
) -> Result<(), AllocError>
    ensures { AddsBy result text.old text.new component.now matrix.now history.now why.now broken }
{
    match broken {
        Some(broken) => write_late(text, component, matrix, history, broken),
        None => match first_own(why) {
            None => Ok(()),
            Some(t) => write_thread(text, component, matrix, history, why, t),
        },
    }
}

/// The first precedence that the least order of the calls with these outcomes breaks; `None` where no
/// order has them. The sentence about a history without a witness names it
/// ([`write_what_happened`]).
pub fn broken_precedence<T: SerialTree>(tree: &T, history: &History) -> Option<Precedence>
    ensures { TellsBroken (T.members tree.now) history.now result }
{
    match any_order(tree, history) {
        None => None,
        Some(order) => order.broken(),
    }
}

/// What is said of a history without a witness, by its explanation.
fn say_of<T: SerialTree>(
    alloc: Global,
    component: &Component,
    matrix: &Matrix,
    tree: &T,
    history: &History,
    why: &Explanation,
) -> Result<String, AllocError>
    ensures { SaysOf (T.members tree.now) component.now matrix.now history.now why.now
        result }
{
    let broken = broken_precedence(tree, history);
    let mut text = String::new(alloc);
    write_sentence(&mut text, component, matrix, history, why, broken)?;
    Ok(text)
}

/// What is said of a history: nothing, where it has a witness.
fn say<T: SerialTree>(
    alloc: Global,
    component: &Component,
    matrix: &Matrix,
    tree: &T,
    history: &History,
) -> Result<String, AllocError>
    ensures { Says (T.members tree.now) component.now matrix.now history.now result }
{
    let explanation = explain(tree, history);
    if explanation.is_witnessed() {
        Ok(String::new(alloc))
    } else {
        say_of(alloc, component, matrix, tree, history, &explanation)
    }
}

/// One sentence about what happened in a history with this verdict over the serial histories of a
/// tree, for people to read. Of a history that has its witnesses nothing is said. Of one with
/// pending calls the sentence is about the history with that pending call alone that has none.
///
/// - Where only precedence refuses the outcomes, it names two calls of which the first had returned
///   before the second was called.
/// - Else it names the first call that can't come next after the longest partial witness
///   ([`explain`]), how it ended, and how it ends in a serial run.
///
/// ```text
/// T2 take returned 0, although T1 put 2 had returned before it was called
/// T1 inc returned 1, but in a serial run it returns 2 after T0 inc
/// ```
///
/// # Errors
///
/// `AllocError` where memory was refused.
pub fn write_what_happened<T: SerialTree>(
    alloc: Global,
    component: &Component,
    matrix: &Matrix,
    tree: &T,
    history: &History,
    verdict: Verdict,
) -> Result<String, AllocError>
    ensures { SaysWhy (T.members tree.now) component.now matrix.now history.now verdict result }
{
    match verdict {
        Verdict::Good => Ok(String::new(alloc)),
        Verdict::NoWitness => say(alloc, component, matrix, tree, history),
        Verdict::NoWitnessFor(t) => match history.keep_pending(t) {
            Ok(kept) => say(alloc, component, matrix, tree, &kept),
            Err(_) => Err(AllocError),
        },
    }
}
