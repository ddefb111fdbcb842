//! The lines of the histories that a specification lists.

ghost use Rattle.std.specs.Prelude.{◌≡◌, ◌↔◌, IsTrue, IfOk, IfSome, IfNone, All};
ghost use Rattle.lu_text.specs.Lines.{texts};
ghost use Rattle.lu_history.specs.declared.serial.SerialOp.{SerialOp};
ghost use Rattle.lu_history.specs.Serial.{IsOutcome, IsSerial};
ghost use Rattle.lu_spec.specs.SpecText.{ComesAfter, IsEntry, IsListable, SayEntries, SayHistory, SayNoEntries, SayNoHistory, SaysHistory, SaysNoHistory, SaysNoOutcome, entry_text, listed_outcome_text};

use lu_history::{SerialOp, SerialOutcome};
use lu_test::MOST_CALLS;
use lu_text::{parts_of, value_in};
use std::alloc::{AllocError, Global};

/// Whether these bytes are this text.
pub(crate) fn is_word(word: &[u8], text: &str) -> bool
    ensures { IsTrue result ↔ (word.now ≡ text.now) }
{
    word == text.as_bytes()
}

/// The outcome that a word says.
fn outcome_in(word: &[u8]) -> Option<SerialOutcome>
    ensures some { IfSome result (λ o. IsOutcome o × (word.now ≡ listed_outcome_text o)) }
    ensures none { IfNone result (SaysNoOutcome word.now) }
{
    if is_word(word, "trap") {
        return Some(SerialOutcome::Trap);
    }
    if is_word(word, "stuck") {
        return Some(SerialOutcome::Stuck);
    }
    let number = value_in(word)?;
    Some(SerialOutcome::Ret(number))
}

/// The operation that a word says.
pub(crate) fn entry_in(word: &[u8]) -> Option<SerialOp>
    ensures some { IfSome result (λ op. IsEntry op × (word.now ≡ entry_text op)) }
    ensures none { IfNone result ((op : SerialOp) →
        IsEntry op → word.now ≡ entry_text op → ⊥) }
{
    match word {
        [digit, equals, outcome @ ..] => {
            if *digit < b'0' || *digit > b'7' || *equals != b'=' {
                return None;
            }
            let outcome = outcome_in(outcome)?;
            Some(SerialOp {
                thread: *digit - b'0',
                outcome,
            })
        }
        _ => None,
    }
}

/// The operations that words say, where each says one.
fn entries_in(alloc: Global, words: &[&[u8]]) -> Result<Option<Vec<SerialOp>>, AllocError>
    ensures some { IfOk result (λ o. IfSome o (λ q. SayEntries (texts words.now) q.items)) }
    ensures none { IfOk result (λ o. IfNone o (SayNoEntries (texts words.now))) }
{
    let mut entries = Vec::with_capacity(alloc, words.len())?;
    for word in words {
        match entry_in(word) {
            None => return Ok(None),
            Some(op) => entries.push(op)?,
        }
    }
    Ok(Some(entries))
}

/// Whether `Stuck` stands only last.
fn is_serial(history: &[SerialOp]) -> bool
    ensures { IsTrue result ↔ IsSerial history.now }
{
    match history {
        [] => true,
        [op, rest @ ..] => {
            (op.outcome != SerialOutcome::Stuck || rest.is_empty()) && is_serial(rest)
        }
    }
}

/// Whether the history has the greater operation at the first one in which it differs from `last`.
pub(crate) fn comes_after(last: &[SerialOp], history: &[SerialOp]) -> bool
    ensures { IsTrue result ↔ ComesAfter last.now history.now }
{
    match last {
        [] => false,
        [a, p @ ..] => match history {
            [] => false,
            [b, q @ ..] => { if a == b { comes_after(p, q) } else { a < b } }
        },
    }
}

/// Whether a specification may list a history of these entries: 1 to 16 of them, and `Stuck` stands
/// only last.
pub(crate) fn is_listable(entries: &[SerialOp]) -> bool
    requires { All IsEntry entries.now }
    ensures { IsTrue result ↔ IsListable entries.now }
{
    !entries.is_empty() && entries.len() <= MOST_CALLS && is_serial(entries)
}

/// The history that words say after `history`, where a specification may list it.
pub(crate) fn history_of(
    alloc: Global,
    words: &[&[u8]],
) -> Result<Option<Vec<SerialOp>>, AllocError>
    ensures some { IfOk result (λ read. IfSome read (λ q. SayHistory (texts words.now) q.items)) }
    ensures none { IfOk result (λ read. IfNone read (SayNoHistory (texts words.now))) }
{
    match words {
        [] => Ok(None),
        [first, rest @ ..] => {
            if !is_word(first, "history") {
                return Ok(None);
            }
            match entries_in(alloc, rest)? {
                None => Ok(None),
                Some(entries) => {
                    if is_listable(&entries) {
                        Ok(Some(entries))
                    } else {
                        Ok(None)
                    }
                }
            }
        }
    }
}

/// The history that a line says, with its LF, where a specification may list it.
pub(crate) fn history_in(alloc: Global, line: &[u8]) -> Result<Option<Vec<SerialOp>>, AllocError>
    ensures some { IfOk result (λ read. IfSome read (λ q. SaysHistory line.now q.items)) }
    ensures none { IfOk result (λ read. IfNone read (SaysNoHistory line.now)) }
{
    match line.strip_suffix(b"\n") {
        None => Ok(None),
        Some(text) => {
            let words = parts_of(alloc, b' ', text)?;
            history_of(alloc, &words)
        }
    }
}
