//! Words and signs of other languages, and what sources have in their place.

use crate::foreign_table::{
    Foreign, beginning, begins_operation, called, is_declaring, is_modifier, is_type, valued,
};
use crate::meaning::word_is;
use crate::naming::{declares, shown};
use crate::operand::is_prefix;
use crate::scope::Scope;
use lu_source_text::is_free_name;
use lu_text::{has_name_form, value_in};
use std::alloc::{AllocError, Global};

/// Signs of other languages.
const SIGNS: [(&str, &str); 9] = [
    (
        "?",
        "unexpected `?`; help: there is no conditional operator, so write `if EXPR {`",
    ),
    ("%", "there is no `%` operator; help: subtract in a loop"),
    ("/", "there is no `/` operator; help: subtract in a loop"),
    (
        "&",
        "there is no `&` operator; help: model each bit as a word of its own",
    ),
    (
        "|",
        "there is no `|` operator; help: model each bit as a word of its own",
    ),
    (
        "^",
        "there is no `^` operator; help: write `!=` for values that are 0 or 1",
    ),
    (
        "~",
        "there is no `~` operator; help: write `!` for values that are 0 or 1",
    ),
    (
        "\"",
        "unexpected `\"`, since there are no strings; help: choose a number, as in `const NAME = N`",
    ),
    (
        "'",
        "unexpected `'`, since every value is a number; help: choose one, as in `const NAME = N`",
    ),
];

/// Signs of other languages for comments, ranges and the like, as two words.
const PAIRS: [(&str, &str, &str); 5] = [
    (
        "/",
        "*",
        "unexpected `/*`; help: a comment begins with `//` or `#`",
    ),
    ("\\", "/", "there is no `\\/` operator; help: write `||`"),
    ("/", "\\", "there is no `/\\` operator; help: write `&&`"),
    (
        "=",
        ">",
        "unexpected `=>`; help: write `>=` to compare, or `if EXPR {` for a case",
    ),
    (
        ".",
        ".",
        "unexpected `..`, since there are no ranges; help: write `while EXPR {`",
    ),
];

/// Operators of other languages, as two words.
const OPERATORS: [(&str, &str, &str); 10] = [
    (
        ":",
        "=",
        "there is no `:=` operator; help: write `NAME = EXPR`, or `let NAME = EXPR` for a new local",
    ),
    (
        "<",
        "<",
        "there is no `<<` operator; help: multiply by a power of two",
    ),
    (
        ">",
        ">",
        "there is no `>>` operator; help: subtract in a loop",
    ),
    (
        "<",
        "<=",
        "there is no `<<=` operator; help: multiply by a power of two",
    ),
    (
        ">",
        ">=",
        "there is no `>>=` operator; help: subtract in a loop",
    ),
    ("<", ">", "there is no `<>` operator; help: write `!=`"),
    ("=", "<", "there is no `=<` operator; help: write `<=`"),
    ("==", "=", "there is no `===` operator; help: write `==`"),
    ("!=", "=", "there is no `!==` operator; help: write `!=`"),
    (
        "*",
        "*",
        "there is no `**` operator; help: multiply in a loop",
    ),
];

/// Operators of other languages that assign, as two words.
const ASSIGNMENTS: [(&str, &str, &str); 5] = [
    (
        "+",
        "+",
        "there is no `++` operator; help: write `NAME += 1`",
    ),
    (
        "-",
        "-",
        "there is no `--` operator; help: write `NAME -= 1`, or `//` before a comment",
    ),
    (
        "*",
        "=",
        "there is no `*=` operator; help: write `NAME = NAME * EXPR`",
    ),
    (
        "&&",
        "=",
        "there is no `&&=` operator; help: write `NAME = NAME && EXPR`",
    ),
    (
        "||",
        "=",
        "there is no `||=` operator; help: write `NAME = NAME || EXPR`",
    ),
];

/// Whether a word is this sign.
fn is_sign(word: Option<&&[u8]>, sign: &[u8]) -> bool {
    word.is_some_and(|word| *word == sign)
}

/// Whether the word is a name that nothing declares.
fn is_unknown(scope: &Scope<'_>, word: &[u8]) -> bool {
    is_free_name(word) && scope.declared(word).is_none()
}

/// What to write in place of a word of another language.
fn row_words(alloc: Global, word: &[u8], row: &Foreign) -> Result<String, AllocError> {
    let (word, help) = (shown(word), row.help);
    format!(in alloc; "there is no `{word}`; help: {help}")
}

/// Whether a word before these is assigned to, or has an index, a field or a path after it.
fn is_accessed(rest: &[&[u8]]) -> bool {
    word_is(rest, 0, b"=")
        || word_is(rest, 0, b"+=")
        || word_is(rest, 0, b"-=")
        || word_is(rest, 0, b"[")
        || word_is(rest, 0, b".")
        || (word_is(rest, 0, b":") && !rest.is_empty() && word_is(rest, 1, b":"))
}

/// A type, or another word before a name that is declared.
fn declaring_words(
    alloc: Global,
    scope: &Scope<'_>,
    word: &[u8],
    rest: &[&[u8]],
) -> Result<String, AllocError> {
    let word = shown(word);
    let help = if scope.is_in_operation() {
        "write `let NAME = EXPR`"
    } else if rest.contains(&b"(".as_slice()) {
        "write `op NAME(A, B) {`"
    } else if rest.contains(&b"[".as_slice()) {
        "write `word NAME[LEN]`"
    } else {
        "write `word NAME`, or `const NAME = N`"
    };
    format!(in alloc; "there is no `{word}`; help: {help}")
}

/// A word of another language that begins a line, before the others.
fn beginning_words(
    alloc: Global,
    scope: &Scope<'_>,
    word: &[u8],
    rest: &[&[u8]],
) -> Result<Option<String>, AllocError> {
    if !is_unknown(scope, word) || is_accessed(rest) {
        return Ok(None);
    }
    if begins_operation(word) {
        let word = shown(word);
        return Ok(Some(format!(in alloc;
            "expected an operation, found `{word}`; help: write `op NAME(A, B) {{`"
        )?));
    }
    let is_declared = rest.first().is_some_and(|name| has_name_form(name));
    if is_type(word) || (is_declaring(word) && is_declared) {
        return Ok(Some(declaring_words(alloc, scope, word, rest)?));
    }
    match beginning(word) {
        Some(row) => Ok(Some(row_words(alloc, word, row)?)),
        None => Ok(None),
    }
}

/// A word of another language that begins a line, after a `}` and words that may be left out.
fn first_words(
    alloc: Global,
    scope: &Scope<'_>,
    words: &[&[u8]],
) -> Result<Option<String>, AllocError> {
    let start = words
        .iter()
        .position(|word| *word != b"}".as_slice()
            && !(is_modifier(word) && is_unknown(scope, word)))
        .unwrap_or(words.len());
    let (before, line) = words.split_at(start.min(words.len()));
    if let Some((word, rest)) = line.split_first() {
        if let Some(said) = beginning_words(alloc, scope, word, rest)? {
            return Ok(Some(said));
        }
    }
    match before.first() {
        Some(word) if is_modifier(word) => {
            let word = shown(word);
            Ok(Some(format!(in alloc; "unexpected `{word}`; help: remove it")?))
        }
        _ => Ok(None),
    }
}

/// What is said of the first of these pairs that is among the words.
fn pair_among(
    pairs: &'static [(&'static str, &'static str, &'static str)],
    words: &[&[u8]],
) -> Option<&'static str> {
    for (first, second, said) in pairs {
        if words.windows(2).any(|pair| word_is(pair, 0, first.as_bytes())
            && word_is(pair, 1, second.as_bytes()))
        {
            return Some(*said);
        }
    }
    None
}

/// What is said of two signs that are one in other languages.
fn pair_words(words: &[&[u8]]) -> Option<&'static str> {
    if word_is(words, 0, b"(") && word_is(words, 1, b"*") {
        return Some("unexpected `(*`; help: a comment begins with `//` or `#`");
    }
    pair_among(&PAIRS, words)
        .or(pair_among(&OPERATORS, words))
        .or(pair_among(&ASSIGNMENTS, words))
}

/// Whether this word is called, as a function, a macro or a method.
fn is_called_at(scope: &Scope<'_>, words: &[&[u8]], index: usize) -> bool {
    let (before, from) = words.split_at(index.min(words.len()));
    let is_method = is_sign(before.last(), b".") || is_sign(before.last(), b":");
    let is_function = word_is(from, 1, b"(") || word_is(from, 1, b"!");
    is_method || (is_function && from.first().is_some_and(|word| is_unknown(scope, word)))
}

/// A value or a type of another language.
fn value_words(alloc: Global, word: &[u8]) -> Result<Option<String>, AllocError> {
    if let Some(row) = valued(word) {
        return Ok(Some(row_words(alloc, word, row)?));
    }
    if !is_type(word) {
        return Ok(None);
    }
    let word = shown(word);
    Ok(Some(format!(in alloc;
        "unexpected type `{word}`; help: leave types out, since every value is a number from 0 to 4294967295"
    )?))
}

/// A function, a value or a type of another language among the words.
fn inner_words(
    alloc: Global,
    scope: &Scope<'_>,
    words: &[&[u8]],
) -> Result<Option<String>, AllocError> {
    for (index, word) in words.iter().enumerate() {
        let is_declared = index == 1 && declares(words);
        if is_called_at(scope, words, index) && !is_declared {
            if let Some(row) = called(word) {
                return Ok(Some(row_words(alloc, word, row)?));
            }
        }
    }
    for word in words {
        if is_unknown(scope, word) {
            if let Some(said) = value_words(alloc, word)? {
                return Ok(Some(said));
            }
        }
    }
    Ok(None)
}

/// A field of a name, or a method that is called: the sign before it, and the words on both sides.
fn member_words(
    alloc: Global,
    sign: &str,
    before: &[u8],
    after: &[&[u8]],
) -> Result<String, AllocError> {
    let Some((member, rest)) = after.split_first() else {
        return format!(in alloc; "unexpected `{sign}`");
    };
    if let Some(row) = beginning(member) {
        return row_words(alloc, member, row);
    }
    let (object, name) = (shown(before), shown(member));
    if sign == "." && value_in(before).is_some() {
        return format!(in alloc;
            "invalid number `{object}.{name}`; expected 0 to 4294967295, without a fraction"
        );
    }
    if !has_name_form(member) {
        return format!(in alloc; "unexpected `{sign}`, since there are no fields");
    }
    if word_is(rest, 0, b"(") {
        return format!(in alloc;
            "unexpected `{sign}`, since there are no methods; help: write what `{name}` does as statements"
        );
    }
    let index = if has_name_form(before) {
        object
    } else {
        "EXPR"
    };
    format!(in alloc;
        "unexpected `{sign}`, since there are no fields; help: declare `word {name}[LEN]`, and write `{name}[{index}]`"
    )
}

/// A field or a method, after `.` or `->`.
fn members_among(alloc: Global, words: &[&[u8]]) -> Result<Option<String>, AllocError> {
    for index in 0..words.len() {
        let (before, from) = words.split_at(index);
        let (sign, count) = if word_is(from, 0, b".") {
            (".", 1)
        } else if word_is(from, 0, b"-") && word_is(from, 1, b">") {
            ("->", 2)
        } else {
            continue;
        };
        if let Some(before) = before.last() {
            let (_, after) = from.split_at(from.len().min(count));
            return Ok(Some(member_words(alloc, sign, before, after)?));
        }
    }
    Ok(None)
}

/// What is said of a `:` that is not that of a conditional operator.
fn colon_words(words: &[&[u8]]) -> Option<&'static str> {
    let place = words.iter().position(|word| *word == b":".as_slice())?;
    let next = place.saturating_add(1);
    let is_last = next == words.len();
    if words.contains(&b"?".as_slice()) {
        None
    } else if word_is(words, next, b":") {
        Some("unexpected `::`, since there are no modules; help: write the name alone")
    } else if place == 1 && !word_is(words, 0, b"else") && !word_is(words, 0, b"loop") {
        Some(
            "unexpected `:`, since there are no labels; help: write a loop with `break` and `continue`",
        )
    } else if is_last {
        Some("unexpected `:`; help: begin a block with `{`")
    } else {
        Some(
            "unexpected `:`; help: leave types out, since every value is a number from 0 to 4294967295",
        )
    }
}

/// What is said of a sign before a pointer.
fn pointer_words(words: &[&[u8]]) -> Option<&'static str> {
    for (index, word) in words.iter().enumerate() {
        if is_prefix(words, index) {
            if *word == b"&".as_slice() {
                return Some("unexpected `&`, since there are no pointers; help: leave it out");
            }
            if *word == b"*".as_slice() {
                return Some("unexpected `*`, since there are no pointers; help: leave it out");
            }
        }
    }
    None
}

/// What is said of the first sign of another language; but for the label that a loop may have there.
fn sign_words(words: &[&[u8]]) -> Option<&'static str> {
    if word_is(words, 0, b"break") || word_is(words, 0, b"continue") {
        return None;
    }
    for word in words {
        for (sign, said) in &SIGNS {
            if *word == sign.as_bytes() {
                return Some(*said);
            }
        }
    }
    None
}

/// A type after the name of an operation.
const NO_TYPES: &str =
    "unexpected type; help: leave types out, since every value is a number from 0 to 4294967295";

/// Whether a line declares an operation, with `:` or `->` before a type.
fn has_types(words: &[&[u8]]) -> bool {
    word_is(words, 0, b"op")
        && (words.contains(&b":".as_slice())
            || words
                .windows(2)
                .any(|pair| word_is(pair, 0, b"-") && word_is(pair, 1, b">")))
}

/// What to write in place of words of another language, where a name may be at fault.
pub(crate) fn foreign_names(
    alloc: Global,
    scope: &Scope<'_>,
    words: &[&[u8]],
) -> Result<Option<String>, AllocError> {
    if let Some(said) = first_words(alloc, scope, words)? {
        return Ok(Some(said));
    }
    if has_types(words) {
        return Ok(Some(String::from_str(alloc, NO_TYPES)?));
    }
    if let Some(said) = pair_words(words) {
        return Ok(Some(String::from_str(alloc, said)?));
    }
    if let Some(said) = inner_words(alloc, scope, words)? {
        return Ok(Some(said));
    }
    if let Some(said) = members_among(alloc, words)? {
        return Ok(Some(said));
    }
    match pointer_words(words).or(colon_words(words)) {
        Some(said) => Ok(Some(String::from_str(alloc, said)?)),
        None => Ok(None),
    }
}

/// What to write in place of words or signs of another language.
pub(crate) fn foreign_words(
    alloc: Global,
    scope: &Scope<'_>,
    words: &[&[u8]],
) -> Result<Option<String>, AllocError> {
    if let Some(said) = foreign_names(alloc, scope, words)? {
        return Ok(Some(said));
    }
    match sign_words(words) {
        Some(said) => Ok(Some(String::from_str(alloc, said)?)),
        None => Ok(None),
    }
}
