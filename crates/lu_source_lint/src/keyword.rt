//! The keywords of sources, for messages.

use crate::spelling::is_near;
use lu_source_text::is_free_name;
use lu_text::has_name_form;

/// The keywords for which a word may be a slip.
const KEYWORDS: [&str; 21] = [
    "object", "local", "const", "word", "lock", "op", "unlock", "let", "if", "else", "while",
    "loop", "break", "continue", "return", "await", "assert", "cas", "pick", "true", "false",
];

/// Whether the word is a keyword.
pub(crate) fn is_keyword(word: &[u8]) -> bool {
    has_name_form(word) && !is_free_name(word)
}

/// Whether a word may be a slip for this keyword. A word of one or two bytes is near to too many, so
/// that only its capitals may differ.
fn may_mean(word: &[u8], keyword: &[u8]) -> bool {
    if word.len() < 3 {
        word.eq_ignore_ascii_case(keyword)
    } else {
        is_near(word, keyword)
    }
}

/// A keyword for which the word, which is none, may be a slip.
pub(crate) fn near_keyword(word: &[u8]) -> Option<&'static str> {
    if is_keyword(word) {
        return None;
    }
    KEYWORDS
        .iter()
        .find(|keyword| may_mean(word, keyword.as_bytes()))
        .copied()
}
