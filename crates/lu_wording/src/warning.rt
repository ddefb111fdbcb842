//! The words of a warning.

use crate::component::shown;
use lu_lang::{ComponentDraft, OpenOp};
use lu_lint::Hint;
use lu_text::words_of;
use std::alloc::{AllocError, Global};

/// The second word of a line.
fn second_word(alloc: Global, text: &[u8]) -> Result<&[u8], AllocError> {
    let words = words_of(alloc, text)?;
    match words.as_slice() {
        [_, word, ..] => Ok(*word),
        _ => Ok(b"_"),
    }
}

/// The label at the instruction that this many of the operation follow with it.
fn label_at(op: &OpenOp, back: usize) -> &str {
    let place = op.statements.len().saturating_sub(back);
    match op
        .labels
        .iter()
        .find(|label| usize::from(label.place) == place)
    {
        None => "?",
        Some(label) => label.name.as_str(),
    }
}

/// The name of the open operation.
fn operation_name(draft: &ComponentDraft) -> &str {
    match &draft.begun {
        None => "?",
        Some(op) => op.name.as_str(),
    }
}

/// The label at the instruction of the open operation that this many of it follow with it.
fn open_label_at(draft: &ComponentDraft, back: usize) -> &str {
    match &draft.begun {
        None => "?",
        Some(op) => label_at(op, back),
    }
}

/// That no instruction uses what this line declares, of this kind.
fn unnamed_wording(alloc: Global, text: &[u8], kind: &str) -> Result<String, AllocError> {
    let name = shown(second_word(alloc, text)?);
    format!(in alloc; "unused {kind} `{name}`")
}

/// That no jump leads to the label at the instruction that this many follow with it.
fn unused_label_wording(
    alloc: Global,
    draft: &ComponentDraft,
    back: usize,
) -> Result<String, AllocError> {
    let (name, label) = (operation_name(draft), open_label_at(draft, back));
    format!(in alloc; "unused label `{label}` in `{name}`")
}

/// What the open operation does.
fn operation_wording(
    alloc: Global,
    draft: &ComponentDraft,
    does: &str,
) -> Result<String, AllocError> {
    let name = operation_name(draft);
    format!(in alloc; "`{name}` {does}")
}

/// The words of a warning that is found at a line after this draft, and stands this many lines with
/// words before it.
pub(crate) fn warning_wording(
    alloc: Global,
    draft: &ComponentDraft,
    text: &[u8],
    hint: Hint,
    back: usize,
) -> Result<String, AllocError> {
    match hint {
        Hint::UnnamedArray => unnamed_wording(alloc, text, "array"),
        Hint::UnnamedLock => unnamed_wording(alloc, text, "lock"),
        Hint::UnusedLabel => unused_label_wording(alloc, draft, back),
        Hint::NoReturn => operation_wording(alloc, draft, "never returns"),
        Hint::Spin => operation_wording(
            alloc,
            draft,
            "loops without waiting; help: write `await` where it waits",
        ),
    }
}
