//! What is said of a name that is not declared, is declared twice, or is not used as what it is.

use crate::calls::{called_cell, calls_at, method_words, unknown_call_words};
use crate::foreign::foreign_names;
use crate::keyword::{is_keyword, near_keyword};
use crate::meaning::word_is;
use crate::scope::{Declared, Scope};
use lu_source_text::is_free_name;
use std::alloc::{AllocError, Global};
use std::str;

/// A word as text; what is no ASCII is no word of a source.
pub(crate) fn shown(word: &[u8]) -> &str {
    str::from_utf8(word).unwrap_or("?")
}

/// Whether the line begins with a word that declares a name, which is its second word.
pub(crate) fn declares(words: &[&[u8]]) -> bool {
    word_is(words, 0, b"let")
        || word_is(words, 0, b"const")
        || word_is(words, 0, b"word")
        || word_is(words, 0, b"lock")
        || word_is(words, 0, b"op")
        || word_is(words, 0, b"object")
}

/// The first name among these words that is not declared.
fn unknown_among<'a>(scope: &Scope<'_>, words: &[&'a [u8]]) -> Option<&'a [u8]> {
    for (index, word) in words.iter().enumerate() {
        if is_free_name(word) && scope.declared(word).is_none() && !calls_at(words, index) {
            return Some(*word);
        }
    }
    None
}

/// Whether the line begins with this name, and neither assigns to it nor to a cell of it.
fn begins_statement(words: &[&[u8]], name: &[u8]) -> bool {
    word_is(words, 0, name) && !word_is(words, 1, b"=") && !word_is(words, 1, b"[")
}

/// A keyword for which this name may be a slip: one that begins a statement, or else one that is
/// near to no name.
fn meant_keyword(scope: &Scope<'_>, words: &[&[u8]], name: &[u8]) -> Option<&'static str> {
    if begins_statement(words, name) || scope.near(name).is_none() {
        near_keyword(name)
    } else {
        None
    }
}

/// Whether the word after the first `name` among these is `(`.
fn is_called(words: &[&[u8]], name: &[u8]) -> bool {
    let place = words.iter().position(|word| *word == name);
    place.is_some_and(|place| word_is(words, place.saturating_add(1), b"("))
}

/// Whether the line locks or unlocks.
fn locks(words: &[&[u8]]) -> bool {
    word_is(words, 0, b"lock") || word_is(words, 0, b"unlock")
}

/// A name that is declared below, or nowhere and is that of a lock.
fn outer_words(
    alloc: Global,
    scope: &Scope<'_>,
    words: &[&[u8]],
    name: &[u8],
) -> Result<Option<String>, AllocError> {
    let said = shown(name);
    if let Some(line) = scope.line_below(name) {
        return Ok(Some(format!(in alloc;
            "`{said}` is declared below, on line {line}; help: move that line above the operation"
        )?));
    }
    if !locks(words) || scope.near(name).is_some() {
        return Ok(None);
    }
    Ok(Some(format!(in alloc;
        "cannot find lock `{said}`; help: declare it with `lock {said}` outside of the operations"
    )?))
}

/// A name that is not declared, in a line with these words.
fn unknown_words(
    alloc: Global,
    scope: &Scope<'_>,
    words: &[&[u8]],
    name: &[u8],
) -> Result<String, AllocError> {
    let said = shown(name);
    if let Some(said) = outer_words(alloc, scope, words, name)? {
        return Ok(said);
    }
    if let Some(said) = unknown_call_words(alloc, name, is_called(words, name))? {
        return Ok(said);
    }
    if let Some(keyword) = meant_keyword(scope, words, name) {
        return format!(in alloc;
            "cannot find `{said}` in this scope; help: a similar keyword exists: `{keyword}`"
        );
    }
    if is_called(words, name) {
        return format!(in alloc;
            "cannot call `{said}`; help: there are no functions, and an operation cannot call another one"
        );
    }
    if let Some(near) = scope.near(name) {
        let near = shown(near);
        return format!(in alloc;
            "cannot find `{said}` in this scope; help: a similar name exists: `{near}`"
        );
    }
    if word_is(words, 0, name) && word_is(words, 1, b"=") {
        return format!(in alloc;
            "cannot find `{said}` in this scope; help: declare it with `let {said} = ..`"
        );
    }
    format!(in alloc; "cannot find `{said}` in this scope")
}

/// What is wrong with the use of a name that is declared so, before the word `next`, where the line
/// begins with it or not.
fn misuse_words(
    alloc: Global,
    name: &str,
    declared: Declared,
    is_first: bool,
    next: &[u8],
) -> Result<Option<String>, AllocError> {
    let is_indexed = next == b"[".as_slice();
    let is_assigned = is_first
        && (next == b"=".as_slice() || next == b"+=".as_slice() || next == b"-=".as_slice());
    let said = match declared {
        Declared::Operation if next == b"(".as_slice() => format!(in alloc;
            "cannot call `{name}`: an operation cannot call another one"
        )?,
        Declared::Operation if is_assigned => format!(in alloc;
            "cannot assign to operation `{name}`"
        )?,
        Declared::Operation => format!(in alloc; "`{name}` is an operation and has no value")?,
        Declared::Object if is_assigned => format!(in alloc; "cannot assign to object `{name}`")?,
        Declared::Object => format!(in alloc; "`{name}` is the object and has no value")?,
        Declared::Array if !is_indexed => format!(in alloc;
            "`{name}` is an array; help: write `{name}[EXPR]`"
        )?,
        Declared::Lock => format!(in alloc;
            "`{name}` is a lock and has no value; help: write `lock {name}` and `unlock {name}`"
        )?,
        Declared::Constant if is_assigned => format!(in alloc;
            "cannot assign to constant `{name}`"
        )?,
        Declared::Word if is_indexed => format!(in alloc;
            "`{name}` is not an array and has no index; help: declare it as `word {name}[LEN]`"
        )?,
        Declared::Constant | Declared::Argument | Declared::Local if is_indexed => {
            format!(in alloc; "`{name}` is not an array and has no index")?
        }
        _ => return Ok(None),
    };
    Ok(Some(said))
}

/// The first name among these words, which are those of a line from word `from` on, that is not used
/// as what it is.
pub(crate) fn misused_among(
    alloc: Global,
    scope: &Scope<'_>,
    words: &[&[u8]],
    from: usize,
) -> Result<Option<String>, AllocError> {
    for index in from..words.len() {
        let word = words[index];
        let Some(declared) = scope.declared(word) else {
            continue;
        };
        if calls_at(words, index) {
            continue;
        }
        let next = words.get(index.saturating_add(1)).copied().unwrap_or(&[]);
        if let Some(said) = misuse_words(alloc, shown(word), declared, index == 0, next)? {
            return Ok(Some(said));
        }
    }
    Ok(None)
}

/// A word after `lock` or `unlock` in an operation that is not a lock.
fn no_lock<'a>(scope: &Scope<'_>, words: &[&'a [u8]]) -> Option<&'a [u8]> {
    let name = *words.get(1)?;
    match scope.declared(name) {
        Some(Declared::Lock | Declared::Lost) => None,
        _ if locks(words) && scope.is_in_operation() => Some(name),
        _ => None,
    }
}

/// A word after `await`, or in place of the cell of a call, that is no name, or that of a value of the thread's own or of a
/// constant.
fn no_cell<'a>(scope: &Scope<'_>, words: &[&'a [u8]]) -> Option<&'a [u8]> {
    let name = match called_cell(words) {
        Some(name) => name,
        None if word_is(words, 0, b"await") => *words.get(1)?,
        None => return None,
    };
    match scope.value_declared(name) {
        Some(Declared::Constant | Declared::Argument | Declared::Local) => Some(name),
        None if !is_free_name(name) => Some(name),
        _ => None,
    }
}

/// A name of another kind than the line needs.
fn other_kind_words(
    alloc: Global,
    scope: &Scope<'_>,
    words: &[&[u8]],
) -> Result<Option<String>, AllocError> {
    let (name, expected) = match (no_lock(scope, words), no_cell(scope, words)) {
        (Some(name), _) => (name, "a lock"),
        (None, Some(name)) => (name, "a shared word"),
        (None, None) => return Ok(None),
    };
    let said = shown(name);
    if is_keyword(name) {
        return Ok(Some(format!(in alloc; "expected {expected}, found keyword `{said}`")?));
    }
    if !is_free_name(name) {
        return Ok(Some(format!(in alloc; "expected {expected}, found `{said}`")?));
    }
    let Some(declared) = scope.declared(name) else {
        return Ok(None);
    };
    let kind = declared.words();
    Ok(Some(format!(in alloc; "expected {expected}, found `{said}`, which is {kind}")?))
}

/// What a method of this name, or a function, does with a lock.
fn lock_verb(word: &[u8]) -> Option<&'static str> {
    if word.eq_ignore_ascii_case(b"lock") {
        Some("lock")
    } else if word.eq_ignore_ascii_case(b"unlock") {
        Some("unlock")
    } else {
        None
    }
}

/// Whether the word may name a lock, and is not the object of a method.
fn names_lock(word: &[u8]) -> bool {
    is_free_name(word) && word != b"self".as_slice() && word != b"this".as_slice()
}

/// A lock that is called as in other languages, `m.lock()` or `lock(m)`: the sign, and the words that
/// lock it.
fn called_lock<'a>(words: &[&'a [u8]]) -> Option<(&'a [u8], &'static str, &'a [u8])> {
    for three in words.windows(3) {
        if let [first, sign, last] = three {
            if *sign == b".".as_slice() && names_lock(first) {
                if let Some(verb) = lock_verb(last) {
                    return Some((*sign, verb, *first));
                }
            }
            if *sign == b"(".as_slice() && names_lock(last) {
                if let Some(verb) = lock_verb(first) {
                    return Some((*sign, verb, *last));
                }
            }
        }
    }
    None
}

/// A line in which a lock is called as in other languages.
pub(crate) fn called_lock_words(
    alloc: Global,
    words: &[&[u8]],
) -> Result<Option<String>, AllocError> {
    let Some((sign, verb, name)) = called_lock(words) else {
        return Ok(None);
    };
    let (sign, name) = (shown(sign), shown(name));
    Ok(Some(format!(in alloc; "unexpected `{sign}`; help: write `{verb} {name}`")?))
}

/// The first name among these words for which there is no room, or else the first argument.
fn lost_among<'a>(scope: &Scope<'_>, words: &[&'a [u8]]) -> Option<&'a [u8]> {
    let lost = words.iter().find(|word| scope.is_beyond_limit(word));
    lost.or(words.iter().find(|word| scope.is_argument(word)))
        .copied()
}

/// A line in which each name is declared above as what it is used for, but where one may have been
/// declared in error.
fn last_words(alloc: Global, scope: &Scope<'_>, words: &[&[u8]]) -> Result<String, AllocError> {
    if let Some(name) = lost_among(scope, words) {
        let name = shown(name);
        return format!(in alloc;
            "cannot use `{name}`, since the line that declares it has an error"
        );
    }
    String::from_str(
        alloc,
        "a name on this line is not declared, perhaps because of an error above, or cannot be used here",
    )
}

/// A name that is declared above as this, and declared again.
fn declared_again(alloc: Global, name: &[u8], declared: Declared) -> Result<String, AllocError> {
    let (name, kind) = (shown(name), declared.words());
    format!(in alloc; "`{name}` is already declared, as {kind}; help: choose another name")
}

/// A line that declares an operation: an argument that is declared already or stands twice, or else
/// the operation's name.
fn operation_words(
    alloc: Global,
    scope: &Scope<'_>,
    words: &[&[u8]],
) -> Result<String, AllocError> {
    let (_, arguments) = words.split_at(words.len().min(2));
    for (index, argument) in arguments.iter().enumerate() {
        if !is_free_name(argument) {
            continue;
        }
        if let Some(declared) = scope.value_declared(argument) {
            return declared_again(alloc, argument, declared);
        }
        let (before, _) = arguments.split_at(index);
        if before.contains(argument) {
            return declared_again(alloc, argument, Declared::Argument);
        }
    }
    let name = words.get(1).copied().unwrap_or(&[]);
    declared_again(alloc, name, Declared::Operation)
}

/// The name that a line declares, where it is declared above.
fn again_words(
    alloc: Global,
    scope: &Scope<'_>,
    words: &[&[u8]],
) -> Result<Option<String>, AllocError> {
    let Some(name) = words.get(1) else {
        return Ok(None);
    };
    match scope.value_declared(name) {
        Some(declared) => Ok(Some(declared_again(alloc, name, declared)?)),
        None => Ok(None),
    }
}

/// The name that is at fault in a line, where it can be found.
pub(crate) fn name_words(
    alloc: Global,
    scope: &Scope<'_>,
    words: &[&[u8]],
) -> Result<String, AllocError> {
    if word_is(words, 0, b"op") {
        return operation_words(alloc, scope, words);
    }
    if let Some(said) = called_lock_words(alloc, words)? {
        return Ok(said);
    }
    if let Some(said) = method_words(alloc, words)? {
        return Ok(said);
    }
    let declares = declares(words) && !(scope.is_in_operation() && word_is(words, 0, b"lock"));
    if declares {
        if let Some(said) = again_words(alloc, scope, words)? {
            return Ok(said);
        }
    }
    let from = if declares { 2 } else { 0 };
    let (_, read) = words.split_at(from.min(words.len()));
    if let Some(said) = foreign_names(alloc, scope, words)? {
        return Ok(said);
    }
    if let Some(name) = unknown_among(scope, read) {
        return unknown_words(alloc, scope, words, name);
    }
    if let Some(said) = other_kind_words(alloc, scope, words)? {
        return Ok(said);
    }
    if let Some(said) = misused_among(alloc, scope, words, from)? {
        return Ok(said);
    }
    last_words(alloc, scope, read)
}
