//! What is wrong with the operands and operators of an expression, by the words of its line.

use crate::calls::call_form;
use crate::meaning::word_is;
use lu_source_text::is_free_name;
use lu_text::value_in;

/// Whether the word is one of these.
fn is_one_of(word: &[u8], texts: &[&str]) -> bool {
    texts.iter().any(|text| word == text.as_bytes())
}

/// Whether the word compares.
fn compares(word: &[u8]) -> bool {
    is_one_of(word, &["==", "!=", "<", ">", "<=", ">="])
}

/// Whether the word is an operator between two operands.
fn is_infix(word: &[u8]) -> bool {
    compares(word) || is_one_of(word, &["+", "-", "*", "&&", "||"])
}

/// Whether an operand must follow the word.
fn wants_operand(word: &[u8]) -> bool {
    is_infix(word)
        || is_one_of(
            word,
            &[
                "=", "+=", "-=", "(", "[", ",", "!", "return", "if", "while", "assert",
            ],
        )
}

/// Whether an operand may begin with the word.
fn begins_operand(word: &[u8]) -> bool {
    is_free_name(word)
        || value_in(word).is_some()
        || is_one_of(word, &["!", "-", "(", "cas", "pick", "true", "false"])
}

/// Whether an operand may end with the word.
fn ends_operand(word: &[u8]) -> bool {
    is_free_name(word) || value_in(word).is_some() || is_one_of(word, &[")", "]", "true", "false"])
}

/// Whether no operand ends before this word, so that it is none between two operands.
pub(crate) fn is_prefix(words: &[&[u8]], index: usize) -> bool {
    let (before, _) = words.split_at(index.min(words.len()));
    match before.last() {
        Some(word) => !ends_operand(word),
        None => true,
    }
}

/// Whether an expression may continue with the word, or end before it.
fn follows_operand(word: &[u8]) -> bool {
    is_infix(word) || is_one_of(word, &[")", "]", "[", ",", "{", "}", ";", "=", "+=", "-="])
}

/// The first word that is no operand where one must be.
pub(crate) fn no_operand<'a>(words: &[&'a [u8]]) -> Option<&'a [u8]> {
    for pair in words.windows(2) {
        if let [left, right] = pair {
            if wants_operand(left) && !begins_operand(right) {
                return Some(*right);
            }
        }
    }
    None
}

/// The last word, where an operand must follow it.
pub(crate) fn last_operator<'a>(words: &[&'a [u8]]) -> Option<&'a [u8]> {
    match words.last() {
        Some(word) if is_infix(word) || is_one_of(word, &["=", "+=", "-=", "!", "if", "while"]) => {
            Some(*word)
        }
        _ => None,
    }
}

/// Where the expression of a line begins that assigns, returns or tests.
fn expression_start(words: &[&[u8]]) -> Option<usize> {
    if is_one_of(words.first()?, &["return", "if", "while", "assert"]) {
        return Some(1);
    }
    let equals = words
        .iter()
        .position(|word| is_one_of(word, &["=", "+=", "-="]));
    Some(equals?.saturating_add(1))
}

/// Whether the first word calls something of a cell, and the second is the `(` after it.
fn calls(first: &[u8], second: &[u8]) -> bool {
    second == b"(".as_slice() && call_form(first).is_some()
}

/// The first word that follows an operand without an operator between them.
pub(crate) fn after_operand<'a>(words: &[&'a [u8]]) -> Option<&'a [u8]> {
    let start = expression_start(words)?;
    let (_, expression) = words.split_at(start.min(words.len()));
    for pair in expression.windows(2) {
        if let [left, right] = pair {
            if ends_operand(left) && !follows_operand(right) && !calls(left, right) {
                return Some(*right);
            }
        }
    }
    None
}

/// Whether one comparison is an operand of another.
pub(crate) fn chains_comparisons(words: &[&[u8]]) -> bool {
    let mut compared = false;
    for word in words {
        if compares(word) {
            if compared {
                return true;
            }
            compared = true;
        } else if is_one_of(word, &["&&", "||", "(", ")", "[", "]", ","]) {
            compared = false;
        }
    }
    false
}

/// How many operands a call of this name has, where the words have one.
pub(crate) fn operand_count(words: &[&[u8]], name: &str) -> Option<usize> {
    let place = words.iter().position(|word| *word == name.as_bytes())?;
    if !word_is(words, place.saturating_add(1), b"(") {
        return None;
    }
    let (mut depth, mut count) = (0usize, 0usize);
    for word in words.iter().skip(place.saturating_add(2)) {
        if is_one_of(word, &[")", "]"]) {
            if depth == 0 {
                return Some(count);
            }
            depth = depth.saturating_sub(1);
        } else if is_one_of(word, &["(", "["]) {
            depth = depth.saturating_add(1);
        }
        if count == 0 || (depth == 0 && is_one_of(word, &[","])) {
            count = count.saturating_add(1);
        }
    }
    None
}

/// Whether there is a comma among the words that is not in parentheses or brackets.
pub(crate) fn has_outer_comma(words: &[&[u8]]) -> bool {
    let mut depth = 0usize;
    for word in words {
        if is_one_of(word, &["(", "["]) {
            depth = depth.saturating_add(1);
        } else if is_one_of(word, &[")", "]"]) {
            depth = depth.saturating_sub(1);
        } else if depth == 0 && is_one_of(word, &[","]) {
            return true;
        }
    }
    false
}

/// How often a sign is among the words.
fn count_of(words: &[&[u8]], sign: &str) -> usize {
    words
        .iter()
        .filter(|word| **word == sign.as_bytes())
        .count()
}

/// What is wrong with the parentheses and brackets of a line.
pub(crate) fn unbalanced(words: &[&[u8]]) -> Option<&'static str> {
    let (opened, closed) = (count_of(words, "("), count_of(words, ")"));
    if opened > closed {
        return Some("`(` is not closed on this line; help: add a `)`");
    }
    if closed > opened {
        return Some("unexpected `)`; help: remove it, or add a `(` before it");
    }
    let (opened, closed) = (count_of(words, "["), count_of(words, "]"));
    if opened > closed {
        return Some("`[` is not closed on this line; help: add a `]`");
    }
    if closed > opened {
        return Some("unexpected `]`; help: remove it, or add a `[` before it");
    }
    None
}
