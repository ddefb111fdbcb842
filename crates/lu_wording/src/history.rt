//! The words for a fault of a recorded history.

use crate::component::{counted, shown, unknown_byte};
use crate::third::FoundLine;
use lu_recorded::RecordedFaultKind;
use lu_test::Matrix;
use lu_text::{value_in, words_of};
use std::alloc::{AllocError, Global};

/// Whether a word says whether a number or none is returned.
fn is_outcome(word: &[u8]) -> bool {
    word == b"ret".as_slice() || word == b"trap".as_slice()
}

/// The words for a line that says no step of a run.
fn step_wording(alloc: Global, line: Option<&[u8]>) -> Result<String, AllocError> {
    let found = FoundLine { line };
    format!(in alloc;
        "expected `call T K`, `return T K ret N`, `return T K trap` or a last line `stuck`, found {found}"
    )
}

/// The words for a line of a step with a word in it that is no number.
fn number_wording(alloc: Global, line: &[u8]) -> Result<String, AllocError> {
    let words = words_of(alloc, line.strip_suffix(b"\n").unwrap_or(line))?;
    let (_, numbers) = words.split_at(words.len().min(1));
    let found = numbers
        .iter()
        .find(|word| !is_outcome(word) && value_in(word).is_none());
    match found {
        None => String::from_str(
            alloc,
            "expected a number (0 to 4294967295) for the thread, the call and the value",
        ),
        Some(word) => {
            let word = shown(word);
            format!(in alloc;
                "expected a number (0 to 4294967295) for the thread, the call and the value, found `{word}`"
            )
        }
    }
}

/// The words for a step of a run that is out of order.
fn order_wording(alloc: Global, line: &[u8]) -> Result<String, AllocError> {
    let words = words_of(alloc, line.strip_suffix(b"\n").unwrap_or(line))?;
    match words.as_slice() {
        [first, thread, call, ..] if *first == b"return".as_slice() => {
            let (thread, call) = (shown(thread), shown(call));
            format!(in alloc;
                "`return {thread} {call}` without an open `call {thread} {call}`; a call returns once, after it is made"
            )
        }
        [first, thread, call, ..] if *first == b"call".as_slice() => {
            let (thread, call) = (shown(thread), shown(call));
            format!(in alloc;
                "`call {thread} {call}` is out of order; a thread makes its calls in order, and each call returns before the next one"
            )
        }
        _ => String::from_str(
            alloc,
            "out of order; a thread makes its calls in order, and each call returns before the next one",
        ),
    }
}

/// The words for a fault of a recorded history of this matrix, on this line.
pub(crate) fn recorded_wording(
    alloc: Global,
    matrix: &Matrix,
    kind: RecordedFaultKind,
    line: Option<&[u8]>,
) -> Result<String, AllocError> {
    match kind {
        RecordedFaultKind::Byte => match line {
            None => String::from_str(alloc, "invalid byte"),
            Some(line) => unknown_byte(alloc, line),
        },
        RecordedFaultKind::Form => step_wording(alloc, line),
        RecordedFaultKind::Number => number_wording(alloc, line.unwrap_or(b"")),
        RecordedFaultKind::Foreign => {
            let threads = matrix.threads();
            let many = counted(usize::from(threads), "thread", "threads");
            format!(in alloc;
                "the matrix has no such call; it has {threads} {many}, and threads and their calls are numbered from 0"
            )
        }
        RecordedFaultKind::Order => order_wording(alloc, line.unwrap_or(b"")),
    }
}
