//! What is said of a line that has no form of a source, or a word that is no number in it.

use crate::calls::{call_count_words, calls_at, cell_words, first_call, method_words};
use crate::foreign::foreign_words;
use crate::keyword::{is_keyword, near_keyword};
use crate::meaning::{begins_matrix, word_is};
use crate::naming::{called_lock_words, declares, misused_among, shown};
use crate::operand::{
    after_operand, chains_comparisons, has_outer_comma, last_operator, no_operand, operand_count,
    unbalanced,
};
use crate::scope::{Declared, Scope};
use lu_source_text::is_free_name;
use lu_text::value_in;
use std::alloc::{AllocError, Global};

/// Where a line is allowed.
#[derive(Clone, Copy, PartialEq, Eq)]
enum Place {
    Operation,
    Outside,
    Anywhere,
}

/// The word that begins a line, where such a line is allowed, and how it looks.
const FORMS: [(&str, Place, &str); 19] = [
    ("let", Place::Operation, "`let NAME = EXPR`"),
    (
        "const",
        Place::Outside,
        "`const NAME = EXPR`, with numbers and constants alone",
    ),
    (
        "word",
        Place::Outside,
        "`word NAME`, `word NAME = EXPR`, `word NAME[LEN]` or `word NAME[LEN] = EXPR`",
    ),
    ("lock", Place::Anywhere, "`lock NAME`"),
    ("unlock", Place::Operation, "`unlock NAME`"),
    (
        "local",
        Place::Outside,
        "`local EXPR`, with numbers and constants alone",
    ),
    ("object", Place::Outside, "`object NAME`"),
    ("op", Place::Outside, "`op NAME(A, B) {`"),
    ("if", Place::Operation, "`if EXPR {`"),
    ("while", Place::Operation, "`while EXPR {`"),
    ("loop", Place::Operation, "`loop {`"),
    (
        "}",
        Place::Anywhere,
        "`}` alone at the end of a block, or `} else {` or `} else if EXPR {` after an `if`",
    ),
    ("return", Place::Operation, "`return` or `return EXPR`"),
    (
        "await",
        Place::Operation,
        "`await CELL == EXPR` or `await CELL != EXPR`",
    ),
    (
        "assert",
        Place::Operation,
        "`assert EXPR`, in a source with a shared word",
    ),
    ("cas", Place::Operation, "`cas(CELL, OLD, NEW)`"),
    (
        "pick",
        Place::Operation,
        "`pick(K)` in an expression, such as `let k = pick(K)`",
    ),
    ("break", Place::Operation, "`break` alone on its line"),
    ("continue", Place::Operation, "`continue` alone on its line"),
];

/// Where the block of a line opens.
fn brace_in(words: &[&[u8]]) -> Option<usize> {
    words.iter().position(|word| *word == b"{".as_slice())
}

/// Whether the line begins with `if`, `while` or `} else if`.
fn tests(words: &[&[u8]]) -> bool {
    word_is(words, 0, b"if")
        || word_is(words, 0, b"while")
        || (word_is(words, 1, b"else") && word_is(words, 2, b"if"))
}

/// Whether the condition of a line assigns: up to its `{`, or else before any comparison.
fn assigns_in_condition(words: &[&[u8]]) -> bool {
    let Some(equals) = words.iter().position(|word| *word == b"=".as_slice()) else {
        return false;
    };
    match brace_in(words) {
        Some(brace) => equals < brace,
        None => {
            let (before, _) = words.split_at(equals.min(words.len()));
            !before.contains(&b"==".as_slice()) && !before.contains(&b"!=".as_slice())
        }
    }
}

/// Whether the line should end with `{` and has none.
fn lacks_brace(scope: &Scope<'_>, words: &[&[u8]]) -> bool {
    if brace_in(words).is_some() {
        return false;
    }
    if word_is(words, 0, b"op") {
        return words.last().is_some_and(|word| *word == b")".as_slice());
    }
    scope.is_in_operation()
        && ((tests(words) && words.len() > 1)
            || word_is(words, 1, b"else")
            || (word_is(words, 0, b"loop") && words.len() == 1))
}

/// What a line lacks that should end with `{`: that alone, or also a line for what follows it.
fn brace_words(scope: &Scope<'_>, words: &[&[u8]]) -> &'static str {
    if scope.has_brace_below() {
        return "expected `{` at the end of the line; help: move it here from the next line";
    }
    let is_followed = if tests(words) {
        after_operand(words).is_some()
    } else {
        word_is(words, 1, b"else") && words.len() > 2
    };
    if is_followed {
        "expected `{` at the end of the line; help: write what follows it on lines of its own"
    } else {
        "expected `{` at the end of the line; help: add a `{`"
    }
}

/// `} else` after a block that is not that of an `if`.
fn else_words(
    alloc: Global,
    scope: &Scope<'_>,
    words: &[&[u8]],
) -> Result<Option<String>, AllocError> {
    if !word_is(words, 0, b"}") || !word_is(words, 1, b"else") {
        return Ok(None);
    }
    let said = match scope.innermost() {
        Some(("if" | "else if", _)) => return Ok(None),
        Some(("else", _)) => String::from_str(
            alloc,
            "`else` without an `if` block above; help: an `if` has one `else`, as its last block",
        )?,
        Some((word, line)) if word != "op" => format!(in alloc;
            "`else` without an `if` block above; help: close the `{word}` on line {line} with a `}}` alone"
        )?,
        _ => String::from_str(
            alloc,
            "`else` without an `if` block above; help: `} else {` itself closes the block of the `if`",
        )?,
    };
    Ok(Some(said))
}

/// A word in the place of what is expected, where there is one, and what to do.
fn found_words(
    alloc: Global,
    expected: &str,
    found: Option<&[u8]>,
    help: &str,
) -> Result<Option<String>, AllocError> {
    let Some(word) = found else {
        return Ok(None);
    };
    let word = shown(word);
    Ok(Some(format!(in alloc; "expected {expected}, found `{word}`{help}")?))
}

/// A line that begins with `op` in an operation, or `else` without `}`, or whose `{` is missing or on a
/// line of its own.
fn block_words(
    alloc: Global,
    scope: &Scope<'_>,
    words: &[&[u8]],
) -> Result<Option<String>, AllocError> {
    if word_is(words, 0, b"op") && scope.other_block().is_none() {
        if let Some(line) = scope.unclosed() {
            return Ok(Some(format!(in alloc;
                "`op` is not allowed in an operation; help: close the block that begins on line {line} with a `}}`"
            )?));
        }
    }
    if let Some(said) = else_words(alloc, scope, words)? {
        return Ok(Some(said));
    }
    let said = if word_is(words, 0, b"else") {
        "expected `}` before `else`; help: write `} else {` on one line"
    } else if tests(words) && assigns_in_condition(words) {
        "expected a condition, found `=`; help: write `==` to compare"
    } else if words.len() == 1 && word_is(words, 0, b"{") {
        "unexpected `{` alone on a line; help: write it at the end of the line above"
    } else if words.len() == 1 && word_is(words, 0, b"}") {
        "unexpected `}`, since no block is open; help: remove it, or add the line that opens its block"
    } else if lacks_brace(scope, words) {
        brace_words(scope, words)
    } else {
        return Ok(None);
    };
    Ok(Some(String::from_str(alloc, said)?))
}

/// What a name is, as help.
const NAME_HELP: &str = "; help: a name is a letter or `_`, followed by letters, digits or `_`";

/// A word in the place of the name that a line declares.
fn no_name_words(alloc: Global, words: &[&[u8]]) -> Result<Option<String>, AllocError> {
    let Some(name) = words.get(1) else {
        return Ok(None);
    };
    if !declares(words) || is_free_name(name) {
        return Ok(None);
    }
    if !is_keyword(name) {
        return found_words(alloc, "a name", Some(*name), NAME_HELP);
    }
    let said = shown(name);
    Ok(Some(format!(in alloc;
        "expected a name, found keyword `{said}`; help: choose another name"
    )?))
}

/// The name with which a line should end that declares the object, or that declares, locks or unlocks
/// a lock; and the word after it.
fn after_name<'a>(words: &[&'a [u8]]) -> Option<(&'a [u8], &'a [u8])> {
    match words {
        [first, name, next, ..]
            if is_free_name(name)
                && (word_is(words, 0, b"object")
                    || word_is(words, 0, b"lock")
                    || word_is(words, 0, b"unlock")) => Some((*name, *next)),
        _ => None,
    }
}

/// A word after the name with which a line should end.
fn after_name_words(
    alloc: Global,
    words: &[&[u8]],
    name: &[u8],
    next: &[u8],
) -> Result<String, AllocError> {
    let (name, said) = (shown(name), shown(next));
    let is_lock = !word_is(words, 0, b"object");
    match said {
        "[" if is_lock => format!(in alloc;
            "a lock has no index; help: declare `word {name}[LEN]`, and lock with `cas({name}[EXPR], 0, 1)`"
        ),
        "=" if is_lock => format!(in alloc; "a lock has no value; help: write `lock {name}`"),
        "{" if is_lock => format!(in alloc;
            "unexpected `{{`, since a lock has no block; help: write `lock {name}` alone, and `unlock {name}` after the statements"
        ),
        "{" => format!(in alloc;
            "unexpected `{{`, since an object has no braces; help: write `object {name}` alone on its line"
        ),
        "," => String::from_str(
            alloc,
            "unexpected `,`; help: write each name on a line of its own",
        ),
        _ => format!(in alloc; "expected the end of the line after the name, found `{said}`"),
    }
}

/// A name with `-` in it that a line declares, locks or unlocks.
fn hyphen_words(alloc: Global, words: &[&[u8]]) -> Result<Option<String>, AllocError> {
    match words {
        [_, name, sign, rest, ..]
            if (declares(words) || word_is(words, 0, b"unlock"))
                && *sign == b"-".as_slice()
                && is_free_name(name)
                && is_free_name(rest) => {
            let (name, rest) = (shown(name), shown(rest));
            Ok(Some(format!(in alloc; "unexpected `-` in a name; help: write `{name}_{rest}`")?))
        }
        _ => Ok(None),
    }
}

/// A keyword in the place of an argument of an operation.
fn keyword_argument<'a>(words: &[&'a [u8]]) -> Option<&'a [u8]> {
    if word_is(words, 0, b"op") {
        words.iter().skip(2).find(|word| is_keyword(word)).copied()
    } else {
        None
    }
}

/// A word after the whole declaration of a shared word or a constant, and what to do.
fn after_declaration<'a>(
    scope: &Scope<'_>,
    words: &[&'a [u8]],
) -> Option<(&'a [u8], &'static str)> {
    let is_word = word_is(words, 0, b"word");
    if !is_word && !word_is(words, 0, b"const") || !is_free_name(words.get(1)?) {
        return None;
    }
    match words {
        [_, _, next, ..] if *next == b",".as_slice() || is_free_name(next) => Some((
            *next,
            "declare each name on a line of its own",
        )),
        [_, _, sign, value, next, ..]
            if *sign == b"=".as_slice()
                && is_constant(scope, value)
                && (is_free_name(next) || value_in(next).is_some()) => Some((
            *next,
            "a declaration takes one number or constant",
        )),
        [_, _, opens, _, closes, _, _, next, ..]
            if *opens == b"[".as_slice()
                && *closes == b"]".as_slice()
                && *next == b",".as_slice() => Some((
            *next,
            "each cell of an array begins with the same number",
        )),
        [_, _, next, ..] if *next == b"=".as_slice() || *next == b"[".as_slice() => None,
        [_, _, next, ..] if is_word => Some((
            *next,
            "write `word NAME = N`, or `word NAME[LEN]` for an array",
        )),
        [_, _, next, ..] => Some((*next, "write `const NAME = N`")),
        _ => None,
    }
}

/// A `let` of a name without `=` after it.
fn unassigned_words(alloc: Global, words: &[&[u8]]) -> Result<Option<String>, AllocError> {
    let Some(name) = words.get(1) else {
        return Ok(None);
    };
    if !word_is(words, 0, b"let") || !is_free_name(name) || word_is(words, 2, b"=") {
        return Ok(None);
    }
    let name = shown(name);
    match words.get(2) {
        None => Ok(Some(format!(in alloc;
            "expected `=` after `{name}`; help: write `let {name} = EXPR`"
        )?)),
        Some(next) if *next == b"[".as_slice() => Ok(Some(format!(in alloc;
            "unexpected `[`, since a local is not an array; help: declare `word {name}[LEN]` outside of the operations"
        )?)),
        Some(next) => {
            let next = shown(next);
            Ok(Some(format!(in alloc;
                "expected `=`, found `{next}`; help: write `let {name} = EXPR`"
            )?))
        }
    }
}

/// A word after a whole declaration, or a keyword in the place of an argument.
fn declaration_words(
    alloc: Global,
    scope: &Scope<'_>,
    words: &[&[u8]],
) -> Result<Option<String>, AllocError> {
    if let Some(keyword) = keyword_argument(words) {
        let keyword = shown(keyword);
        return Ok(Some(format!(in alloc;
            "expected a name, found keyword `{keyword}`; help: choose another name"
        )?));
    }
    let Some((next, help)) = after_declaration(scope, words) else {
        return unassigned_words(alloc, words);
    };
    let next = shown(next);
    Ok(Some(format!(in alloc; "unexpected `{next}`; help: {help}")?))
}

/// A `cas` or a `pick` without `(` after it.
fn uncalled(words: &[&[u8]]) -> Option<&'static str> {
    for (index, word) in words.iter().enumerate() {
        if !word_is(words, index.saturating_add(1), b"(") {
            if *word == b"cas".as_slice() {
                return Some("expected `(` after `cas`; help: write `cas(CELL, OLD, NEW)`");
            }
            if *word == b"pick".as_slice() {
                return Some("expected `(` after `pick`; help: write `pick(K)`");
            }
        }
    }
    None
}

/// A comma that separates nothing, by the first word of its line, or a second index.
fn comma_words(words: &[&[u8]]) -> Option<&'static str> {
    let has_comma = words.contains(&b",".as_slice()) && first_call(words).is_none();
    if words
        .windows(2)
        .any(|pair| word_is(pair, 0, b"]") && word_is(pair, 1, b"["))
    {
        Some("unexpected `][`, since an array has one index; help: write `NAME[I * LEN + J]`")
    } else if word_is(words, 0, b"let") && has_outer_comma(words) {
        Some("unexpected `,`; help: declare each local on a line of its own")
    } else if word_is(words, 0, b"return") && (has_comma || has_outer_comma(words)) {
        Some("unexpected `,`; help: return one value")
    } else if has_comma && words.contains(&b"[".as_slice()) {
        Some("unexpected `,`, since an array has one index; help: write `NAME[I * LEN + J]`")
    } else {
        None
    }
}

/// What is wrong with the expression of a line.
fn expression_words(alloc: Global, words: &[&[u8]]) -> Result<Option<String>, AllocError> {
    if let Some(said) = uncalled(words).or(unbalanced(words)) {
        return Ok(Some(String::from_str(alloc, said)?));
    }
    if chains_comparisons(words) {
        let said = "comparisons do not chain; help: write `A < B && B < C`";
        return Ok(Some(String::from_str(alloc, said)?));
    }
    if let Some(said) = comma_words(words) {
        return Ok(Some(String::from_str(alloc, said)?));
    }
    if let Some(word) = last_operator(words) {
        let word = shown(word);
        return Ok(Some(format!(in alloc; "expected an expression after `{word}`")?));
    }
    found_words(
        alloc,
        "an operator or the end of the line",
        after_operand(words),
        "",
    )
}

/// A word that may be a slip for a keyword.
fn slip_words(alloc: Global, word: &[u8], keyword: &str) -> Result<String, AllocError> {
    let word = shown(word);
    format!(in alloc; "unexpected `{word}`; help: a similar keyword exists: `{keyword}`")
}

/// What to do with a line outside of operations, where that can be told.
fn outside_help(scope: &Scope<'_>, words: &[&[u8]], first: &[u8]) -> &'static str {
    if first == b"component".as_slice() {
        "; help: write a component and a source into files of their own"
    } else if scope.declared(first) == Some(Declared::Operation) {
        "; help: list the calls of each thread in the matrix, after a line `---`"
    } else if word_is(words, 1, b"=") || scope.declared(first).is_some() {
        "; help: statements belong in an operation"
    } else {
        ""
    }
}

/// A line that begins with a name that may be assigned to.
fn unfinished_words(alloc: Global, name: &str, words: &[&[u8]]) -> Result<String, AllocError> {
    if has_outer_comma(words) {
        let said = "unexpected `,`; help: write each assignment on a line of its own";
        return String::from_str(alloc, said);
    }
    match words.get(1) {
        None => format!(in alloc; "expected `=` after `{name}`; help: write `{name} = EXPR`"),
        Some(next) if *next == b"=".as_slice() => String::from_str(
            alloc,
            "expected `NAME = EXPR`; help: assign to one name on a line",
        ),
        Some(next) => {
            let next = shown(next);
            format!(in alloc; "expected `=` after `{name}`, found `{next}`")
        }
    }
}

/// What is expected in place of a line with this first word, which begins no form.
fn no_form_words(
    alloc: Global,
    scope: &Scope<'_>,
    words: &[&[u8]],
    first: &[u8],
) -> Result<String, AllocError> {
    if let Some(keyword) = near_keyword(first) {
        return slip_words(alloc, first, keyword);
    }
    let said = shown(first);
    if !scope.is_in_operation() {
        let help = outside_help(scope, words, first);
        return format!(in alloc;
            "expected `word`, `lock`, `const`, `local` or `op`, found `{said}`{help}"
        );
    }
    if word_is(words, 1, b"=") && !is_free_name(first) {
        return format!(in alloc; "cannot assign to `{said}`");
    }
    if word_is(words, 1, b"==") {
        return format!(in alloc;
            "expected a statement, found a comparison of `{said}`; help: write `=` to assign"
        );
    }
    if scope.is_assigned(first) {
        return unfinished_words(alloc, said, words);
    }
    format!(in alloc; "expected a statement, such as `NAME = EXPR`, found `{said}`")
}

/// A `cas` without operands, or a `pick`, in a line that begins with another word.
fn call_words(words: &[&[u8]]) -> Option<&'static str> {
    if words.contains(&b"cas".as_slice()) && !word_is(words, 0, b"cas") {
        Some("`cas(CELL, OLD, NEW)` in this expression")
    } else if words.contains(&b"pick".as_slice()) && !word_is(words, 0, b"pick") {
        Some("`pick(K)` in this expression")
    } else {
        None
    }
}

/// A call with too few or too many operands.
fn count_words(alloc: Global, words: &[&[u8]]) -> Result<Option<String>, AllocError> {
    if let Some(said) = cell_words(alloc, words)? {
        return Ok(Some(said));
    }
    if let Some(said) = call_count_words(alloc, words)? {
        return Ok(Some(said));
    }
    if let Some(count) = operand_count(words, "pick") {
        if count != 1 {
            return Ok(Some(format!(in alloc;
                "`pick` takes 1 operand, found {count}; help: write `pick(K)`"
            )?));
        }
    }
    Ok(None)
}

/// The row of the word that begins a line.
fn form_in(words: &[&[u8]]) -> Option<&'static (&'static str, Place, &'static str)> {
    FORMS
        .iter()
        .find(|(word, _, _)| word_is(words, 0, word.as_bytes()))
}

/// How a line that begins with this word looks.
fn form_of(words: &[&[u8]]) -> Option<&'static str> {
    let form = form_in(words).map(|(_, _, looks)| *looks);
    if word_is(words, 0, b"loop") {
        return form;
    }
    call_words(words).or(first_call(words)).or(form)
}

/// A line that is not allowed where it is.
fn place_words(
    alloc: Global,
    scope: &Scope<'_>,
    words: &[&[u8]],
) -> Result<Option<String>, AllocError> {
    if let Some(word) = words.first() {
        if calls_at(words, 0) && !scope.is_in_operation() {
            let word = shown(word);
            return Ok(Some(format!(in alloc; "`{word}` is only allowed in an operation")?));
        }
    }
    if let (Some((word, Place::Outside, _)), Some(line)) = (form_in(words), scope.other_block()) {
        return Ok(Some(format!(in alloc;
            "`{word}` is only allowed outside of blocks; help: remove line {line} and the `}}` of its block"
        )?));
    }
    match form_in(words) {
        Some((word, Place::Operation, _)) if !scope.is_in_operation() => {
            let help = if *word == "let" {
                "; help: write `word NAME = N` for a shared word"
            } else {
                ""
            };
            Ok(Some(format!(in alloc; "`{word}` is only allowed in an operation{help}")?))
        }
        Some((word, Place::Outside, _)) if scope.is_in_operation() => {
            let help = match *word {
                "const" | "word" | "local" => "; help: write `let NAME = EXPR` for a local",
                _ => "",
            };
            Ok(Some(format!(in alloc; "`{word}` is only allowed outside of operations{help}")?))
        }
        _ => Ok(None),
    }
}

/// A line of two words that would be right above: a second `object`, or a `local` that is not the
/// first or comes after an operation.
fn late_words(scope: &Scope<'_>, words: &[&[u8]]) -> Option<&'static str> {
    if word_is(words, 0, b"object") && scope.has_object() {
        Some("`object` is declared twice; a source has one object")
    } else if !word_is(words, 0, b"local") || words.len() != 2 {
        None
    } else if scope.has_local() {
        Some("`local` is declared twice")
    } else {
        Some("`local` must come before the first `op`")
    }
}

/// A word after `}` that may be a slip for `else`.
fn slip_for_else<'a>(words: &[&'a [u8]]) -> Option<&'a [u8]> {
    let word = *words.get(1)?;
    if word_is(words, 0, b"}") && near_keyword(word) == Some("else") {
        Some(word)
    } else {
        None
    }
}

/// Whether two names are side by side after the name of the operation that a line begins.
fn lacks_comma(words: &[&[u8]]) -> bool {
    let (_, arguments) = words.split_at(words.len().min(2));
    arguments
        .windows(2)
        .any(|pair| { pair.iter().all(|word| is_free_name(word)) })
}

/// The first word in the place of the name of an argument.
fn no_argument<'a>(words: &[&'a [u8]]) -> Option<&'a [u8]> {
    let (_, arguments) = words.split_at(words.len().min(2));
    for pair in arguments.windows(2) {
        if let [before, word] = pair {
            let opens = *before == b"(".as_slice() && *word != b")".as_slice();
            if (opens || *before == b",".as_slice()) && !is_free_name(word) {
                return Some(*word);
            }
        }
    }
    None
}

/// A line that begins an operation of a right name.
fn operation_words(alloc: Global, words: &[&[u8]]) -> Result<Option<String>, AllocError> {
    let is_named = words.get(1).is_some_and(|name| is_free_name(name));
    if !word_is(words, 0, b"op") || !is_named {
        return Ok(None);
    }
    if lacks_comma(words) {
        let said = "expected `op NAME(A, B) {`; help: separate arguments by `,`";
        return Ok(Some(String::from_str(alloc, said)?));
    }
    if let Some(said) = unbalanced(words) {
        return Ok(Some(String::from_str(alloc, said)?));
    }
    match no_argument(words) {
        Some(word) => found_words(alloc, "the name of an argument", Some(word), ""),
        None => Ok(Some(String::from_str(alloc, "expected `op NAME(A, B) {`")?)),
    }
}

/// A line that opens or closes its block wrongly, or is not allowed where it is.
fn line_words(
    alloc: Global,
    scope: &Scope<'_>,
    words: &[&[u8]],
) -> Result<Option<String>, AllocError> {
    match block_words(alloc, scope, words)? {
        Some(said) => Ok(Some(said)),
        None => place_words(alloc, scope, words),
    }
}

/// A line whose keyword is right where it is, but is misspelt further on, or has no name.
fn keyword_words(
    alloc: Global,
    scope: &Scope<'_>,
    words: &[&[u8]],
) -> Result<Option<String>, AllocError> {
    if let Some(said) = late_words(scope, words) {
        return Ok(Some(String::from_str(alloc, said)?));
    }
    if let Some(said) = hyphen_words(alloc, words)? {
        return Ok(Some(said));
    }
    if let Some(said) = declaration_words(alloc, scope, words)? {
        return Ok(Some(said));
    }
    if let Some(said) = operation_words(alloc, words)? {
        return Ok(Some(said));
    }
    if let Some(word) = slip_for_else(words) {
        return Ok(Some(slip_words(alloc, word, "else")?));
    }
    match after_name(words) {
        Some((name, next)) => Ok(Some(after_name_words(alloc, words, name, next)?)),
        None => no_name_words(alloc, words),
    }
}

/// What is wrong with the names or the expression of a line.
fn inner_words(
    alloc: Global,
    scope: &Scope<'_>,
    words: &[&[u8]],
) -> Result<Option<String>, AllocError> {
    if !scope.is_in_operation() && form_in(words).is_none() {
        return Ok(None);
    }
    let from = if declares(words) { 2 } else { 0 };
    if let Some(said) = misused_among(alloc, scope, words, from)? {
        return Ok(Some(said));
    }
    match expression_words(alloc, words)? {
        Some(said) => Ok(Some(said)),
        None => count_words(alloc, words),
    }
}

/// What is expected in place of a line that has no form of a source.
pub(crate) fn form_words(
    alloc: Global,
    scope: &Scope<'_>,
    words: &[&[u8]],
) -> Result<String, AllocError> {
    if begins_matrix(words) {
        let first = words.first().map_or("?", |word| shown(word));
        return format!(in alloc;
            "expected a line `---` before the matrix, found `{first}`; help: end the source with a line `---`"
        );
    }
    if let Some(said) = called_lock_words(alloc, words)? {
        return Ok(said);
    }
    if let Some(said) = method_words(alloc, words)? {
        return Ok(said);
    }
    if let Some(said) = foreign_words(alloc, scope, words)? {
        return Ok(said);
    }
    if let Some(said) = line_words(alloc, scope, words)? {
        return Ok(said);
    }
    if let Some(said) = keyword_words(alloc, scope, words)? {
        return Ok(said);
    }
    if let Some(said) = inner_words(alloc, scope, words)? {
        return Ok(said);
    }
    match (form_of(words), words.first()) {
        (Some(form), _) => format!(in alloc; "expected {form}"),
        (None, Some(first)) => no_form_words(alloc, scope, words, first),
        (None, None) => String::from_str(alloc, "expected a statement or a declaration"),
    }
}

/// Whether the word is a number or a constant.
fn is_constant(scope: &Scope<'_>, word: &[u8]) -> bool {
    value_in(word).is_some() || scope.value_declared(word) == Some(Declared::Constant)
}

/// The first word that is neither a number nor a constant where only these are allowed: the name of
/// something else in a declaration, what follows `[` or `=` there and begins no expression, and in
/// `pick`.
fn no_constant<'a>(scope: &Scope<'_>, words: &[&'a [u8]]) -> Option<&'a [u8]> {
    let declares = !word_is(words, 0, b"let") && declares(words) || word_is(words, 0, b"local");
    for (index, word) in words.iter().enumerate() {
        let (before, _) = words.split_at(index);
        let wanted = match before {
            [.., pick, opens] if *pick == b"pick".as_slice() => *opens == b"(".as_slice(),
            [_, _, ..] if declares && is_free_name(word) => true,
            [.., sign] => {
                declares
                    && !begins_more(word)
                    && (*sign == b"[".as_slice()
                        || *sign == b"=".as_slice()
                        || *sign == b"local".as_slice())
            }
            [] => false,
        };
        if wanted && !is_constant(scope, word) {
            return Some(*word);
        }
    }
    None
}

/// Whether an expression may begin with the word, and go on.
fn begins_more(word: &[u8]) -> bool {
    word == b"(".as_slice() || word == b"-".as_slice() || word == b"!".as_slice()
}

/// The first word that begins with a digit and is no number.
fn no_value<'a>(words: &[&'a [u8]]) -> Option<&'a [u8]> {
    words
        .iter()
        .find(|word| matches!(**word, [b'0'..=b'9', ..]) && value_in(word).is_none())
        .copied()
}

/// A word that is no operand where one must be.
fn no_operand_words(alloc: Global, words: &[&[u8]], word: &[u8]) -> Result<String, AllocError> {
    let said = shown(word);
    let help = match said {
        "if" => "; help: assign in each branch of an `if` statement",
        "let" => "; help: declare the local on the line above",
        "await" => "; help: write `await` on a line of its own",
        _ => "",
    };
    let expected = if said == "{" && tests(words) {
        "a condition"
    } else {
        "an expression"
    };
    if is_keyword(word) {
        return format!(in alloc; "expected {expected}, found keyword `{said}`{help}");
    }
    format!(in alloc; "expected {expected}, found `{said}`")
}

/// A word where a number is expected that is none.
pub(crate) fn number_words(
    alloc: Global,
    scope: &Scope<'_>,
    words: &[&[u8]],
) -> Result<String, AllocError> {
    if let Some(said) = foreign_words(alloc, scope, words)? {
        return Ok(said);
    }
    if let Some(word) = no_value(words) {
        let word = shown(word);
        return format!(in alloc;
            "invalid number `{word}`; expected 0 to 4294967295, in decimal and without leading zeros"
        );
    }
    if let Some(word) = no_constant(scope, words) {
        let said = shown(word);
        if let Some(line) = scope.line_below(word) {
            return format!(in alloc;
                "`{said}` is declared below, on line {line}; help: move that line above this one"
            );
        }
        let help = if said == "{" || said == "[" {
            "; help: each cell of an array begins with the same number"
        } else {
            ""
        };
        return format!(in alloc; "expected a number or a constant, found `{said}`{help}");
    }
    match no_operand(words) {
        Some(word) => no_operand_words(alloc, words, word),
        None => String::from_str(alloc, "expected a number (0 to 4294967295) or a constant"),
    }
}
