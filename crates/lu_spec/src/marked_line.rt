//! The lines of histories whose entries may have marks.

ghost use Rattle.std.specs.Prelude.{◌≡◌, ◌↔◌, All, IsTrue, IfOk, IfSome, IfNone};
ghost use Rattle.lu_text.specs.Lines.{texts};
ghost use Rattle.lu_spec.specs.FreeSpecs as spec;
ghost use Rattle.lu_spec.specs.MarkedEntries.{IsMarkedEntry, SayMarked, SayMarkedEntries, SayNoMarked, SayNoMarkedEntries, erased, marked_text};
ghost use Rattle.lu_spec.specs.SpecText.{IsListable};
ghost use Rattle.lu_spec.specs.declared.marked_line.MarkedOp.{MarkedOp};

use crate::history_line::{entry_in, is_listable, is_word};
use lu_history::SerialOp;
use lu_text::{lines_of, words_of};
use std::alloc::{AllocError, Global};

/// A serial operation, and whether it has the mark, which leaves its outcome free.
#[derive(Clone, Copy, Drop)]
pub struct MarkedOp {
    pub op: SerialOp,
    pub marked: bool,
}

/// The operations, without their marks.
pub(crate) fn erased(alloc: Global, entries: &[MarkedOp]) -> Result<Vec<SerialOp>, AllocError>
    ensures { IfOk result (λ ops. ops.items ≡ erased entries.now) }
{
    entries.iter().map(|entry| entry.op).collect(alloc)
}

/// The entry that a word says.
fn marked_entry_in(word: &[u8]) -> Option<MarkedOp>
    ensures some { IfSome result (λ e. IsMarkedEntry e × (word.now ≡ marked_text e)) }
    ensures none { IfNone result ((e : MarkedOp) →
        IsMarkedEntry e → word.now ≡ marked_text e → ⊥) }
{
    match word.strip_suffix(b"?") {
        None => {
            let op = entry_in(word)?;
            Some(MarkedOp { op, marked: false })
        }
        Some(entry) => {
            let op = entry_in(entry)?;
            Some(MarkedOp { op, marked: true })
        }
    }
}

/// The entries that words say, where each says one.
fn marked_entries_in(alloc: Global, words: &[&[u8]]) -> Result<Option<Vec<MarkedOp>>, AllocError>
    ensures some { IfOk result (λ o. IfSome o (λ q. SayMarkedEntries (texts words.now) q.items)) }
    ensures none { IfOk result (λ o. IfNone o (SayNoMarkedEntries (texts words.now))) }
{
    let mut entries = Vec::with_capacity(alloc, words.len())?;
    for word in words {
        match marked_entry_in(word) {
            None => return Ok(None),
            Some(entry) => entries.push(entry)?,
        }
    }
    Ok(Some(entries))
}

/// Whether a specification may list the operations of these entries.
fn are_listable(alloc: Global, entries: &[MarkedOp]) -> Result<bool, AllocError>
    requires { All IsMarkedEntry entries.now }
    ensures { IfOk result (λ b. IsTrue b ↔ IsListable (erased entries.now)) }
{
    let history = erased(alloc, entries)?;
    Ok(is_listable(&history))
}

/// The entries that words say after `history`, where a specification may list their operations.
pub(crate) fn marked_history_of(
    alloc: Global,
    words: &[&[u8]],
) -> Result<Option<Vec<MarkedOp>>, AllocError>
    ensures some { IfOk result (λ read. IfSome read (λ q. SayMarked (texts words.now) q.items)) }
    ensures none { IfOk result (λ read. IfNone read (SayNoMarked (texts words.now))) }
{
    match words {
        [] => Ok(None),
        [first, rest @ ..] => {
            if !is_word(first, "history") {
                return Ok(None);
            }
            match marked_entries_in(alloc, rest)? {
                None => Ok(None),
                Some(entries) => {
                    if are_listable(alloc, &entries)? {
                        Ok(Some(entries))
                    } else {
                        Ok(None)
                    }
                }
            }
        }
    }
}

/// Whether a word ends with the mark.
fn ends_marked(word: &[u8]) -> bool
    ensures { result ≡ spec.ends_marked word.now }
{
    word.ends_with(b"?")
}

/// Whether one of the words ends with the mark.
fn have_mark(words: &[&[u8]]) -> bool
    ensures { result ≡ spec.have_mark (texts words.now) }
{
    for word in words {
        if ends_marked(word) {
            return true;
        }
    }
    false
}

/// Whether a word of the line ends with the mark.
fn has_mark(alloc: Global, line: &[u8]) -> Result<bool, AllocError>
    ensures { IfOk result (λ b. b ≡ spec.has_mark line.now) }
{
    let words = words_of(alloc, line)?;
    Ok(have_mark(&words))
}

/// Whether a text has entries that leave their outcomes free: whether a word of it, which is not in
/// a comment, ends with `?`.
///
/// # Errors
///
/// `AllocError` where memory was refused.
pub fn has_free_entries(alloc: Global, text: &[u8]) -> Result<bool, AllocError>
    ensures { IfOk result (λ b. b ≡ spec.has_free_entries text.now) }
{
    let lines = lines_of(alloc, text)?;
    for line in &lines {
        if has_mark(alloc, line)? {
            return Ok(true);
        }
    }
    Ok(false)
}
