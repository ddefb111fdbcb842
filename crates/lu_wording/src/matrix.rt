//! The words for a fault of a matrix's line: what was found, and what was expected.

use crate::component::{
    Slip, begins_comment, counted, first_no_number, is_register, shown, unknown_byte,
};
use crate::spelling::near;
use lu_source_lint::is_near;
use lu_test::{MatrixDraft, MatrixFaultKind, Signature};
use lu_text::{Name, before_comment, has_name_form, parts_of, position_of, value_in, words_of};
use std::alloc::{AllocError, Global};

/// The words of a call: those of a part, without the line's first word.
fn call_words<'a>(
    alloc: Global,
    number: usize,
    part: &'a [u8],
) -> Result<Vec<&'a [u8]>, AllocError> {
    let words = words_of(alloc, part)?;
    if number > 0 {
        return Ok(words);
    }
    match words.split_first() {
        None => Ok(Vec::new(alloc)),
        Some((_, rest)) => Vec::from_slice(alloc, rest),
    }
}

fn signature<'a, 'b>(signatures: &'a [Signature<'b>], name: &[u8]) -> Option<&'a Signature<'b>> {
    signatures.iter().find(|signature| signature.is(name))
}

/// The first word of a matrix's line for which this may be a slip.
fn near_first(word: &[u8]) -> Option<&'static str> {
    if is_near(word, b"thread") {
        Some("thread")
    } else if is_near(word, b"setup") {
        Some("setup")
    } else {
        None
    }
}

/// What to write in place of a line that begins with this word, where that can be told.
fn first_help(
    alloc: Global,
    signatures: &[Signature<'_>],
    first: &[u8],
) -> Result<String, AllocError> {
    if begins_comment(first) {
        return String::from_str(alloc, "; help: a comment begins with `#`");
    }
    let said = shown(first);
    if signature(signatures, first).is_some() {
        return format!(in alloc; "; help: write `thread {said}`");
    }
    if first == b"call".as_slice() || first == b"return".as_slice() {
        return String::from_str(alloc, "; help: recorded runs begin with a line `run`");
    }
    match first.strip_suffix(b":") {
        Some(before) if before == b"thread".as_slice() || before == b"setup".as_slice() => {
            let before = shown(before);
            format!(in alloc; "; help: write `{before}` without the `:`")
        }
        _ => {
            let slip = Slip {
                name: near_first(first),
            };
            format!(in alloc; "{slip}")
        }
    }
}

/// A line that begins with none of the words of a matrix.
fn no_first(
    alloc: Global,
    signatures: &[Signature<'_>],
    first: &[u8],
) -> Result<String, AllocError> {
    if first == b"run".as_slice() {
        return String::from_str(
            alloc,
            "recorded runs are not read by `lint`; help: write `lineup witness`",
        );
    }
    let help = first_help(alloc, signatures, first)?;
    let (first, help) = (shown(first), help.as_str());
    format!(in alloc;
        "expected `thread CALL; CALL ..`, or on the first line `setup CALL; CALL ..`, found `{first}`{help}"
    )
}

/// The first words of a line that are none of a matrix's.
fn form(
    alloc: Global,
    signatures: &[Signature<'_>],
    draft: &MatrixDraft,
    words: &[&[u8]],
) -> Result<String, AllocError> {
    let first = first_word(words);
    let setup = first == b"setup".as_slice();
    if setup && (draft.setup.is_some() || !draft.threads.is_empty()) {
        return String::from_str(
            alloc,
            "`setup` may appear only once, as the first line of the matrix",
        );
    }
    if words.is_empty() || setup || first == b"thread".as_slice() {
        return String::from_str(
            alloc,
            "empty call next to `;`; help: `;` separates two calls, and does not end a call",
        );
    }
    no_first(alloc, signatures, first)
}

/// The operations that there are, each in quotes, separated by commas; not `_`, as which an
/// operation is read whose line does not name it.
fn names(alloc: Global, signatures: &[Signature<'_>]) -> Result<String, AllocError> {
    let mut out = String::new(alloc);
    for signature in signatures {
        let name = signature.name.as_str();
        if name == "_" {
            continue;
        }
        let before = if out.is_empty() { "`" } else { ", `" };
        out.push_str(before)?;
        out.push_str(name)?;
        out.push_str("`")?;
    }
    Ok(out)
}

/// The operation that a word calls as other languages do, and the arguments, which are words here.
fn called<'a>(signatures: &[Signature<'_>], word: &'a [u8]) -> Option<(&'a [u8], &'a [u8])> {
    let opens = position_of(b'(', word)?;
    let (name, arguments) = word.split_at(opens.min(word.len()));
    signature(signatures, name)?;
    let arguments = arguments.strip_prefix(b"(")?;
    Some((name, arguments.strip_suffix(b")").unwrap_or(arguments)))
}

/// A call as other languages write it.
fn called_wording(
    alloc: Global,
    said: &str,
    name: &[u8],
    arguments: &[u8],
) -> Result<String, AllocError> {
    let name = shown(name);
    if arguments.is_empty() {
        return format!(in alloc; "cannot find operation `{said}`; help: write `{name}`");
    }
    if value_in(arguments).is_none() {
        return format!(in alloc;
            "cannot find operation `{said}`; help: write `{name}` and its arguments, separated by spaces"
        );
    }
    let arguments = shown(arguments);
    format!(in alloc; "cannot find operation `{said}`; help: write `{name} {arguments}`")
}

/// An operation that there is not, and for whose name no other may be meant.
fn other_operations(
    alloc: Global,
    signatures: &[Signature<'_>],
    said: &str,
) -> Result<String, AllocError> {
    if signatures.is_empty() {
        return format!(in alloc; "cannot find operation `{said}`; the component has no operations");
    }
    let names = names(alloc, signatures)?;
    if names.is_empty() {
        return format!(in alloc; "cannot find operation `{said}`");
    }
    format!(in alloc; "cannot find operation `{said}`; help: the component has {names}")
}

/// A word in the place of an operation that is one in another place, as the number of a thread, or
/// one with a comma after it.
fn misplaced(
    alloc: Global,
    signatures: &[Signature<'_>],
    name: &[u8],
) -> Result<Option<String>, AllocError> {
    let said = shown(name);
    if value_in(name).is_some() {
        return Ok(Some(format!(in alloc;
            "cannot find operation `{said}`; help: leave the number out, since threads are numbered by their lines"
        )?));
    }
    if name.strip_suffix(b":").is_some() {
        return Ok(Some(format!(in alloc;
            "cannot find operation `{said}`; help: leave it out, since threads are numbered by their lines"
        )?));
    }
    match name.strip_suffix(b",") {
        Some(before) if signature(signatures, before).is_some() => Ok(Some(format!(in alloc;
            "cannot find operation `{said}`; help: separate calls with `;`"
        )?)),
        _ => Ok(None),
    }
}

fn no_operation(
    alloc: Global,
    signatures: &[Signature<'_>],
    name: &[u8],
) -> Result<String, AllocError> {
    let said = shown(name);
    if let Some(said) = misplaced(alloc, signatures, name)? {
        return Ok(said);
    }
    if let Some((name, arguments)) = called(signatures, name) {
        return called_wording(alloc, said, name, arguments);
    }
    match near(signatures, name) {
        Some(near) => format!(in alloc;
            "cannot find operation `{said}`; help: an operation with a similar name exists: `{near}`"
        ),
        None => other_operations(alloc, signatures, said),
    }
}

/// Whether one of the words in the place of arguments begins another call.
fn has_call(signatures: &[Signature<'_>], words: &[&[u8]]) -> bool {
    words
        .iter()
        .any(|word| signature(signatures, word).is_some())
}

/// A call of an operation that takes another number of arguments than these.
fn arguments(
    alloc: Global,
    signatures: &[Signature<'_>],
    name: &Name,
    takes: u8,
    given: &[&[u8]],
) -> Result<String, AllocError> {
    let (name, count) = (name.as_str(), given.len());
    let many = counted(usize::from(takes), "argument", "arguments");
    let help = if given.iter().any(|word| begins_comment(word)) {
        "; help: a comment begins with `#`"
    } else if has_call(signatures, given) {
        "; help: separate calls with `;`"
    } else {
        ""
    };
    format!(in alloc; "`{name}` takes {takes} {many}, found {count}{help}")
}

fn no_number(alloc: Global, word: &[u8]) -> Result<String, AllocError> {
    let said = shown(word);
    if word
        .strip_suffix(b",")
        .is_some_and(|before| value_in(before).is_some())
    {
        return format!(in alloc;
            "invalid number `{said}`; help: separate arguments with spaces, and calls with `;`"
        );
    }
    if is_register(word) || has_name_form(word) {
        return format!(in alloc; "expected a number (0 to 4294967295), found `{said}`");
    }
    format!(in alloc; "invalid number `{said}`; expected 0 to 4294967295, without leading zeros")
}

/// How many arguments the operation of this name takes, where that is known.
fn arity<'a>(signatures: &[Signature<'a>], name: &[u8]) -> Option<(&'a Name, u8)> {
    let signature = signature(signatures, name)?;
    Some((signature.name, signature.arity?))
}

/// The words for the first of these that is no number, where one is none.
fn of_numbers(alloc: Global, words: &[&[u8]]) -> Result<Option<String>, AllocError> {
    match first_no_number(words) {
        Some(word) => Ok(Some(no_number(alloc, word)?)),
        None => Ok(None),
    }
}

/// The words for the first call that has a fault of this kind, where one has.
fn of_call(
    alloc: Global,
    signatures: &[Signature<'_>],
    kind: MatrixFaultKind,
    words: &[&[u8]],
) -> Result<Option<String>, AllocError> {
    let Some((name, rest)) = words.split_first() else {
        return Ok(None);
    };
    match kind {
        MatrixFaultKind::UnknownOp => match signature(signatures, name) {
            Some(_) => Ok(None),
            None => Ok(Some(no_operation(alloc, signatures, name)?)),
        },
        MatrixFaultKind::Arguments => match arity(signatures, name) {
            Some((name, takes)) if usize::from(takes) != rest.len() => {
                Ok(Some(arguments(alloc, signatures, name, takes, rest)?))
            }
            _ => Ok(None),
        },
        _ => match arity(signatures, name) {
            Some(_) => of_numbers(alloc, rest),
            None => Ok(None),
        },
    }
}

fn of_calls(
    alloc: Global,
    signatures: &[Signature<'_>],
    kind: MatrixFaultKind,
    parts: &[&[u8]],
) -> Result<String, AllocError> {
    for (number, part) in parts.iter().enumerate() {
        let words = call_words(alloc, number, part)?;
        if let Some(said) = of_call(alloc, signatures, kind, &words)? {
            return Ok(said);
        }
    }
    String::from_str(alloc, "invalid call")
}

/// A line for which there is no room: of this many calls.
fn limit(
    alloc: Global,
    draft: &MatrixDraft,
    first: &[u8],
    calls: usize,
) -> Result<String, AllocError> {
    if first == b"setup".as_slice() {
        return format!(in alloc; "a setup has at most 8 calls, found {calls}");
    }
    if draft.threads.len() >= 8 {
        return String::from_str(alloc, "too many threads; a matrix has at most 8");
    }
    if calls > 8 {
        return format!(in alloc; "a thread has at most 8 calls, found {calls}");
    }
    String::from_str(alloc, "too many calls; a matrix has at most 16")
}

/// The words of the first of these parts of a line.
fn first_words<'a>(alloc: Global, parts: &[&'a [u8]]) -> Result<Vec<&'a [u8]>, AllocError> {
    match parts.split_first() {
        None => Ok(Vec::new(alloc)),
        Some((part, _)) => words_of(alloc, part),
    }
}

fn first_word<'a>(words: &[&'a [u8]]) -> &'a [u8] {
    match words.split_first() {
        None => b"",
        Some((word, _)) => *word,
    }
}

/// The words for a fault of this kind on a line, after this draft.
pub(crate) fn matrix_wording(
    alloc: Global,
    signatures: &[Signature<'_>],
    draft: &MatrixDraft,
    kind: MatrixFaultKind,
    text: &[u8],
) -> Result<String, AllocError> {
    let parts = parts_of(alloc, b';', before_comment(text))?;
    let first = first_words(alloc, &parts)?;
    let word = first_word(&first);
    match kind {
        MatrixFaultKind::Byte => unknown_byte(alloc, text),
        MatrixFaultKind::Form => form(alloc, signatures, draft, &first),
        MatrixFaultKind::Limit => limit(alloc, draft, word, parts.len()),
        _ => of_calls(alloc, signatures, kind, &parts),
    }
}

/// The words for a fault at the end of the text.
pub(crate) fn end_wording(alloc: Global) -> Result<String, AllocError> {
    String::from_str(alloc, "no thread found; help: write `thread CALL; CALL ..`")
}
