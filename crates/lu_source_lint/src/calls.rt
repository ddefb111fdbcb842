//! What a line calls of a cell: `cas`, or an update.

use crate::meaning::word_is;
use crate::naming::shown;
use crate::operand::operand_count;
use crate::spelling::is_near;
use std::alloc::{AllocError, Global};

/// What may be called, the number of its operands, and how a call looks.
const CALLS: [(&str, usize, &str); 7] = [
    ("cas", 3, "`cas(CELL, OLD, NEW)`"),
    ("compare_exchange", 3, "`compare_exchange(CELL, OLD, NEW)`"),
    ("swap", 2, "`swap(CELL, EXPR)`"),
    ("fetch_add", 2, "`fetch_add(CELL, EXPR)`"),
    ("fetch_sub", 2, "`fetch_sub(CELL, EXPR)`"),
    ("fetch_max", 2, "`fetch_max(CELL, EXPR)`"),
    ("fetch_min", 2, "`fetch_min(CELL, EXPR)`"),
];

/// How a call of this name looks.
pub(crate) fn call_form(name: &[u8]) -> Option<&'static str> {
    let call = CALLS.iter().find(|(known, _, _)| name == known.as_bytes());
    call.map(|(_, _, form)| *form)
}

/// Whether a word of the line calls something of a cell, so that `(` follows it.
pub(crate) fn calls_at(words: &[&[u8]], index: usize) -> bool {
    let is_known = words
        .get(index)
        .is_some_and(|name| call_form(name).is_some());
    is_known && word_is(words, index.saturating_add(1), b"(")
}

/// The first word after `(` of the first call, where the cell is expected.
pub(crate) fn called_cell<'a>(words: &[&'a [u8]]) -> Option<&'a [u8]> {
    for index in 0..words.len() {
        if calls_at(words, index) {
            return words.get(index.saturating_add(2)).copied();
        }
    }
    None
}

/// The cell of the first call and the word after it, where that is not the `,` that must follow, and
/// how the call looks.
fn after_cell<'a>(words: &[&'a [u8]]) -> Option<(&'a [u8], &'a [u8], &'static str)> {
    for index in 0..words.len() {
        if !calls_at(words, index) {
            continue;
        }
        let (_, operands) = words.split_at(index.saturating_add(2).min(words.len()));
        let form = call_form(words[index])?;
        return match operands {
            [cell, next, ..] if *next != b",".as_slice() && *next != b"[".as_slice() => {
                Some((*cell, *next, form))
            }
            _ => None,
        };
    }
    None
}

/// A call whose cell is not followed by `,`.
pub(crate) fn cell_words(alloc: Global, words: &[&[u8]]) -> Result<Option<String>, AllocError> {
    match after_cell(words) {
        Some((cell, next, form)) if next != b")".as_slice() => {
            let (cell, next) = (shown(cell), shown(next));
            Ok(Some(format!(in alloc;
                "expected `,` after the cell `{cell}`, found `{next}`; help: write {form}"
            )?))
        }
        _ => Ok(None),
    }
}

/// How the first call of the line looks.
pub(crate) fn first_call(words: &[&[u8]]) -> Option<&'static str> {
    for index in 0..words.len() {
        if calls_at(words, index) {
            return call_form(words[index]);
        }
    }
    None
}

/// A call with too few or too many operands.
pub(crate) fn call_count_words(
    alloc: Global,
    words: &[&[u8]],
) -> Result<Option<String>, AllocError> {
    for (name, wanted, form) in &CALLS {
        if let Some(count) = operand_count(words, name) {
            if count != *wanted {
                return Ok(Some(format!(in alloc;
                    "`{name}` takes {wanted} operands, found {count}; help: write {form}"
                )?));
            }
        }
    }
    Ok(None)
}

/// A call that is written as a method, `x.fetch_add(1)`.
pub(crate) fn method_words(alloc: Global, words: &[&[u8]]) -> Result<Option<String>, AllocError> {
    for pair in words.windows(2) {
        if let [sign, name] = pair {
            if *sign == b".".as_slice() {
                if let Some(form) = call_form(name) {
                    return Ok(Some(format!(in alloc; "unexpected `.`; help: write {form}")?));
                }
            }
        }
    }
    Ok(None)
}

/// A name that is not declared, and is that of a call, or near to it.
pub(crate) fn unknown_call_words(
    alloc: Global,
    name: &[u8],
    is_called: bool,
) -> Result<Option<String>, AllocError> {
    let said = shown(name);
    if let Some(form) = call_form(name) {
        return Ok(Some(format!(in alloc; "expected `(` after `{said}`; help: write {form}")?));
    }
    let near = CALLS
        .iter()
        .find(|(known, _, _)| is_near(name, known.as_bytes()));
    match near {
        Some((_, _, form)) if is_called => Ok(Some(format!(in alloc;
            "cannot find `{said}`; help: write {form}"
        )?)),
        _ => Ok(None),
    }
}
