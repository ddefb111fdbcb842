//! What is said of a line that passes a limit.

use crate::meaning::word_is;
use crate::naming::shown;
use crate::scope::Scope;
use lu_source_text::{MOST_NESTING, is_free_name, nesting};
use lu_text::is_long;
use std::alloc::{AllocError, Global};

/// The first name that is too long.
fn long_name<'a>(words: &[&'a [u8]]) -> Option<&'a [u8]> {
    words
        .iter()
        .find(|word| is_free_name(word) && is_long(word))
        .copied()
}

/// The first number after `pick(`, or constant, that is out of its range.
fn large_pick<'a>(scope: &Scope<'_>, words: &[&'a [u8]]) -> Option<&'a [u8]> {
    for three in words.windows(3) {
        if let [pick, _, count] = three {
            let is_large = matches!(scope.number(count), Some(number) if number == 0 || number > 8);
            if *pick == b"pick".as_slice() && is_large {
                return Some(*count);
            }
        }
    }
    None
}

/// How many names follow the name of an operation.
fn argument_count(words: &[&[u8]]) -> usize {
    words
        .iter()
        .skip(2)
        .filter(|word| is_free_name(word))
        .count()
}

/// A declaration of an operation that passes a limit.
fn operation_words(alloc: Global, words: &[&[u8]]) -> Result<String, AllocError> {
    let count = argument_count(words);
    if count > 4 {
        return format!(in alloc; "an operation takes at most 4 arguments, found {count}");
    }
    String::from_str(alloc, "too many operations; a source has at most 16")
}

/// The length of the array that a line declares, where it is out of its range.
fn length_out_of_range(scope: &Scope<'_>, words: &[&[u8]]) -> Option<u32> {
    if !word_is(words, 0, b"word") || !word_is(words, 2, b"[") {
        return None;
    }
    match scope.number(words.get(3)?) {
        Some(length) if length == 0 || length > 64 => Some(length),
        _ => None,
    }
}

/// The limit that another line passes, by its first word.
fn other_words(scope: &Scope<'_>, words: &[&[u8]]) -> &'static str {
    if word_is(words, 0, b"word") {
        if scope.shared_count() < 16 {
            "array length is out of range (1 to 64)"
        } else {
            "too many shared words; a source has at most 16"
        }
    } else if word_is(words, 0, b"lock") && !scope.is_in_operation() {
        "too many locks; a source has at most 8"
    } else if word_is(words, 0, b"local") {
        "`local` is out of range (0 to 16)"
    } else if scope.lines() >= 256 {
        "too many lines in this operation; at most 256 are allowed"
    } else if word_is(words, 0, b"}") && words.len() == 1 {
        "this operation needs more than 64 instructions; help: split it into two operations, or simplify it"
    } else {
        "too many nested blocks; at most 16 are allowed"
    }
}

/// The limit that a line passes.
pub(crate) fn limit_words(
    alloc: Global,
    scope: &Scope<'_>,
    words: &[&[u8]],
) -> Result<String, AllocError> {
    if words.len() > 256 {
        return String::from_str(
            alloc,
            "too many words on this line; at most 256 are allowed",
        );
    }
    if nesting(words) > MOST_NESTING {
        return String::from_str(
            alloc,
            "too many operators, `(` and `[` on this line; at most 64 are allowed; help: store a part in a local",
        );
    }
    if let Some(name) = long_name(words) {
        let (length, name) = (name.len(), shown(name));
        return format!(in alloc; "name `{name}` has {length} bytes; at most 32 are allowed");
    }
    if let Some(count) = large_pick(scope, words) {
        let count = shown(count);
        return format!(in alloc; "`pick` takes a number from 1 to 8, found `{count}`");
    }
    if let Some(length) = length_out_of_range(scope, words) {
        return format!(in alloc; "array length {length} is out of range (1 to 64)");
    }
    if word_is(words, 0, b"op") {
        return operation_words(alloc, words);
    }
    String::from_str(alloc, other_words(scope, words))
}
