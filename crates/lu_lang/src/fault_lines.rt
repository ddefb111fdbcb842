//! Where the messages of a fault stand, where that is not the fault's line.

ghost use Rattle.std.specs.Prelude.{◌≡◌, ◌-◌, None};
ghost use Rattle.lu_text.specs.Lines.{text_if, texts};
ghost use Rattle.lu_lang.specs.Grammar as grammar;
ghost use Rattle.lu_lang.specs.FaultLines as spec;
ghost use Rattle.lu_lang.specs.FaultLines.{backs};
ghost use Rattle.lu_text.specs.Results.{HasItems};

use crate::after_fault::{closes, next_words, split_label};
use crate::draft::{ComponentDraft, OpenOp, Statement};
use crate::fault::LangFaultKind;
use crate::reading::is_there;
use lu_text::words_of;
use std::alloc::{AllocError, Global};

/// Whether a statement jumps to this label.
fn jumps_to(statement: &Statement, label: Option<&[u8]>) -> bool
    ensures { result ≡ spec.is_used (text_if label.entry) (grammar.label_used statement.now) }
{
    match (statement, label) {
        (Statement::Jump(used), Some(label)) => used.is(label),
        (Statement::JumpIfZero(_, used), Some(label)) => used.is(label),
        _ => false,
    }
}

/// For each jump to a label that the operation does not have, nor the line that closes it, how many
/// instructions stand from it on.
fn jump_backs(alloc: Global, op: &OpenOp, label: Option<&[u8]>) -> Result<Vec<usize>, AllocError>
    ensures { HasItems result (spec.jump_backs op.now (text_if label.entry)) }
{
    let all = op.statements.len();
    op.statements
        .iter()
        .enumerate()
        .filter(|(_, statement)| {
            !(is_there(&op.labels, statement) || jumps_to(statement, label))
        })
        .map(|(before, _)| all.saturating_sub(before))
        .collect(alloc)
}

/// By how many lines with words each message of a fault of this kind stands before the line: a jump
/// to a label that is not there is a fault of `end`, and its message stands on the jump's line.
/// Where this is empty, the one message stands on the line itself.
///
/// # Errors
///
/// There is no memory for the numbers.
pub fn message_backs(
    alloc: Global,
    draft: &ComponentDraft,
    text: &[u8],
    kind: LangFaultKind,
) -> Result<Vec<usize>, AllocError>
    ensures { HasItems result (backs draft.now text.now kind) }
{
    match kind {
        LangFaultKind::Name => {
            let words = words_of(alloc, text)?;
            match words.split_first() {
                Some((word, _)) if *word == b"end".as_slice() => open_backs(alloc, draft),
                _ => Ok(Vec::new(alloc)),
            }
        }
        _ => Ok(Vec::new(alloc)),
    }
}

/// By how many lines with words each jump to a label that is not there stands before a line that
/// has a fault of this kind and closes the operation nevertheless; `lines` are those after it.
/// Where the fault is that a label is not there, [`message_backs`] has these numbers.
///
/// # Errors
///
/// There is no memory for the numbers.
pub fn left_backs(
    alloc: Global,
    draft: &ComponentDraft,
    text: &[u8],
    lines: &[&[u8]],
    kind: LangFaultKind,
) -> Result<Vec<usize>, AllocError>
    ensures { HasItems result (spec.left_backs draft.now text.now (texts lines.now) kind) }
{
    match (kind, &draft.begun) {
        (LangFaultKind::Name, _) | (_, None) => Ok(Vec::new(alloc)),
        (_, Some(op)) => {
            let words = words_of(alloc, text)?;
            let next = next_words(alloc, lines)?;
            let (label, rest) = split_label(&words);
            if closes(rest, &next) {
                jump_backs(alloc, op, label)
            } else {
                Ok(Vec::new(alloc))
            }
        }
    }
}

/// By how many lines with words each jump to a label that is not there stands before the end of the
/// text, where an operation is open there.
///
/// # Errors
///
/// There is no memory for the numbers.
pub fn open_backs(alloc: Global, draft: &ComponentDraft) -> Result<Vec<usize>, AllocError>
    ensures { HasItems result (spec.open_backs draft.now.begun) }
{
    match &draft.begun {
        None => Ok(Vec::new(alloc)),
        Some(op) => jump_backs(alloc, op, None),
    }
}
