//! The words for a fault of a component's line: what was found, and what was expected.

use crate::shape::{
    Shape, declaration, foreign_instruction, instruction, near_declaration, near_instruction,
};
use crate::spelling::near;
use lu_lang::{ComponentDraft, LangFaultKind, OpenOp, Statement};
use lu_source_lint::is_near;
use lu_text::{Name, are_allowed, has_name_form, is_long, value_in, words_of};
use std::alloc::{AllocError, Global};
use std::{fmt, str};

/// A word as text; a fault is reported of words in ASCII alone.
pub(crate) fn shown(word: &[u8]) -> &str {
    match str::from_utf8(word) {
        Ok(text) => text,
        Err(_) => "?",
    }
}

/// The word for which another may be a slip, if there is one: the help at the end of a message.
#[derive(Clone, Copy)]
pub(crate) struct Slip<'a> {
    pub(crate) name: Option<&'a str>,
}

impl fmt::Display for Slip<'_> {
    fn fmt<W: fmt::Write>(&self, f: &mut fmt::Formatter<W>) -> fmt::Result {
        match self.name {
            None => Ok(()),
            Some(name) => write!(f, "; help: a similar word exists: `{name}`"),
        }
    }
}

/// The name of an operation; one whose line does not name it is read as `_`.
#[derive(Clone, Copy)]
struct Named<'a> {
    /// What is before the name.
    before: &'static str,

    name: &'a str,
}

impl fmt::Display for Named<'_> {
    fn fmt<W: fmt::Write>(&self, f: &mut fmt::Formatter<W>) -> fmt::Result {
        let (before, name) = (self.before, self.name);
        if name == "_" {
            return write!(f, "this operation");
        }
        write!(f, "{before}`{name}`")
    }
}

fn operation_name(op: &OpenOp) -> Named<'_> {
    Named {
        before: "",
        name: op.name.as_str(),
    }
}

/// The same, as an operation.
fn operation_title(op: &OpenOp) -> Named<'_> {
    Named {
        before: "operation ",
        name: op.name.as_str(),
    }
}

/// Whether a word ends with a comma or a semicolon, which part no words here.
fn is_comma(word: &[u8]) -> bool {
    matches!(word, [_front @ .., b',' | b';'])
}

/// `one`, or `many` for another number.
pub(crate) fn counted(count: usize, one: &'static str, many: &'static str) -> &'static str {
    if count == 1 { one } else { many }
}

pub(crate) fn is_register(word: &[u8]) -> bool {
    matches!(word, [b'r', b'0'..=b'7'])
}

fn is_operand(word: &[u8]) -> bool {
    is_register(word) || value_in(word).is_some()
}

pub(crate) fn unknown_byte(alloc: Global, text: &[u8]) -> Result<String, AllocError> {
    match text
        .iter()
        .position(|byte| !matches!(*byte, 32..=126 | b'\t' | b'\r'))
    {
        None => String::from_str(alloc, "invalid byte"),
        Some(before) => {
            let byte = text[before];
            format!(in alloc;
                "invalid byte {byte} after {before} bytes of the line; only printable ASCII, tabs and carriage returns are allowed, even in comments"
            )
        }
    }
}

/// That another number of words follows a line's first word than its form has.
fn count_of(alloc: Global, shape: &Shape, given: usize) -> Result<String, AllocError> {
    let (word, count, form) = (shape.word, shape.count, shape.form);
    let operands = if count == 1 { "operand" } else { "operands" };
    format!(in alloc; "`{word}` takes {count} {operands}, found {given}; help: write `{form}`")
}

fn no_name(alloc: Global, words: &[&[u8]]) -> Result<String, AllocError> {
    match words.iter().find(|word| !has_name_form(word)) {
        None => String::from_str(alloc, "expected a name"),
        Some(word) => {
            let word = shown(word);
            format!(in alloc;
                "invalid name `{word}`; help: a name is a letter or `_`, followed by letters, digits or `_`"
            )
        }
    }
}

/// Whether a word is a brace, or has parentheses in it, as in a source.
fn is_of_source(word: &[u8]) -> bool {
    word == b"{".as_slice() || word.contains(&b'(')
}

/// Outside an operation, a line of no form that begins as a declaration.
fn form_declaration(
    alloc: Global,
    draft: &ComponentDraft,
    shape: &Shape,
    rest: &[&[u8]],
) -> Result<String, AllocError> {
    if shape.word == "component" && draft.name.is_some() {
        return String::from_str(
            alloc,
            "`component` is given twice; a text has one component",
        );
    }
    if shape.word == "op" && rest.iter().any(|word| is_of_source(word)) {
        return String::from_str(
            alloc,
            "expected `op NAME N`, found the `op NAME(A, B) {` of a source; help: a source begins with `object NAME`",
        );
    }
    if rest.len() != shape.count {
        return count_of(alloc, shape, rest.len());
    }
    if shape.word == "local" {
        return match draft.local {
            Some(most) => format!(in alloc; "`local` is declared twice; the first value is {most}"),
            None => String::from_str(alloc, "`local` must come before the first `op`"),
        };
    }
    no_name(alloc, rest)
}

/// Whether a line of a matrix may begin with the word.
fn begins_matrix(word: &[u8]) -> bool {
    word == b"thread".as_slice() || word == b"setup".as_slice()
}

/// Outside an operation, a line that begins with no declaration.
fn no_declaration(alloc: Global, word: &[u8]) -> Result<String, AllocError> {
    let said = shown(word);
    if instruction(word).is_some() {
        return format!(in alloc;
            "`{said}` is only allowed inside an operation; help: begin one with `op NAME N`, where N is the number of arguments"
        );
    }
    if begins_matrix(word) {
        return format!(in alloc;
            "expected a line `---` before the matrix, found `{said}`; help: end the component with a line `---`"
        );
    }
    let slip = Slip {
        name: near_declaration(word),
    };
    format!(in alloc; "expected `word`, `lock`, `op` or `local`, found `{said}`{slip}")
}

/// Outside an operation, a line of no form.
fn form_outside(
    alloc: Global,
    draft: &ComponentDraft,
    word: &[u8],
    rest: &[&[u8]],
) -> Result<String, AllocError> {
    match declaration(word) {
        Some(shape) => form_declaration(alloc, draft, shape, rest),
        None => no_declaration(alloc, word),
    }
}

/// Inside an operation, a line that begins with no instruction, by the word after the first.
fn no_instruction_before(
    alloc: Global,
    said: &str,
    next: &[u8],
) -> Result<Option<String>, AllocError> {
    match shown(next) {
        "=" => Ok(Some(format!(in alloc;
            "unknown instruction `{said}`; help: write `set rD v`, `load rD W i` or `store W i v` to assign"
        )?)),
        ":" => Ok(Some(format!(in alloc;
            "unknown instruction `{said}`; help: write the label `{said}:` as one word"
        )?)),
        _ => Ok(None),
    }
}

/// Inside an operation, a line that begins with no instruction.
fn no_instruction(
    alloc: Global,
    op: &OpenOp,
    word: &[u8],
    rest: &[&[u8]],
) -> Result<String, AllocError> {
    let said = shown(word);
    if let Some(next) = rest.first() {
        if let Some(said) = no_instruction_before(alloc, said, next)? {
            return Ok(said);
        }
    }
    if word == b"}".as_slice() {
        return String::from_str(alloc, "unexpected `}`; help: an operation ends with `end`");
    }
    if begins_matrix(word) {
        return format!(in alloc;
            "unexpected `{said}` in an operation; help: write `end` and a line `---` before the matrix"
        );
    }
    if let Some(form) = foreign_instruction(word) {
        return format!(in alloc; "unknown instruction `{said}`; help: write `{form}`");
    }
    if declaration(word).is_some() {
        let name = operation_title(op);
        return format!(in alloc;
            "`{said}` is not allowed inside {name}; help: close the operation with `end`"
        );
    }
    let slip = Slip {
        name: near_instruction(word),
    };
    format!(in alloc; "unknown instruction `{said}`; docs/LANGUAGE.md lists all 17{slip}")
}

fn no_register(alloc: Global, shape: &Shape, first: &[u8]) -> Result<String, AllocError> {
    let (first, form) = (shown(first), shape.form);
    format!(in alloc; "expected a register (`r0` to `r7`), found `{first}`; help: write `{form}`")
}

/// An instruction with no name where its array or its label is to be.
fn no_label_or_name(alloc: Global, shape: &Shape, first: &[u8]) -> Result<String, AllocError> {
    let (array, word, form) = (shown(first), shape.word, shape.form);
    if form.as_bytes().contains(&b'W') {
        return format!(in alloc; "expected the name of an array in `{word}`; help: write `{form}`");
    }
    format!(in alloc; "expected a label in `{word} {array}`; help: write `{form}`")
}

/// An instruction of no form, with as many words after it as it takes.
fn form_of_words(alloc: Global, shape: &Shape, rest: &[&[u8]]) -> Result<String, AllocError> {
    let Some((first, _)) = rest.split_first() else {
        return String::from_str(
            alloc,
            "a label must come before an instruction, not before `end`",
        );
    };
    if shape.form.as_bytes().contains(&b'D') && !is_register(first) {
        return no_register(alloc, shape, first);
    }
    match shape.word {
        "lock" | "unlock" | "jump" => no_name(alloc, rest),
        _ => no_label_or_name(alloc, shape, first),
    }
}

fn form_instruction(
    alloc: Global,
    op: &OpenOp,
    word: &[u8],
    rest: &[&[u8]],
) -> Result<String, AllocError> {
    let Some(shape) = instruction(word) else {
        return no_instruction(alloc, op, word, rest);
    };
    if rest.len() != shape.count {
        return count_of(alloc, shape, rest.len());
    }
    form_of_words(alloc, shape, rest)
}

/// The first of these words that is no number.
pub(crate) fn first_no_number<'a>(words: &[&'a [u8]]) -> Option<&'a [u8]> {
    words.iter().find(|word| value_in(word).is_none()).copied()
}

fn no_number(alloc: Global, words: &[&[u8]]) -> Result<String, AllocError> {
    match first_no_number(words) {
        None => String::from_str(alloc, "expected a number (0 to 4294967295)"),
        Some(word) => {
            let said = shown(word);
            if has_name_form(word) {
                return format!(in alloc; "expected a number (0 to 4294967295), found `{said}`");
            }
            format!(in alloc;
                "invalid number `{said}`; expected 0 to 4294967295, without leading zeros"
            )
        }
    }
}

/// The operands among the words after an instruction's first.
fn operands<'a, 'b>(word: &[u8], rest: &'b [&'a [u8]]) -> &'b [&'a [u8]] {
    let others = match shown(word) {
        "load" | "cas" => 2,
        "return" | "jz" => 0,
        _ => 1,
    };
    rest.split_at(others.min(rest.len())).1
}

/// A word in the place of an operand of an instruction of this form.
fn other_operand(alloc: Global, form: &str, other: &[u8]) -> Result<String, AllocError> {
    let said = shown(other);
    let expected = "expected a register (`r0` to `r7`) or a number (0 to 4294967295)";
    match other {
        [b'0'..=b'9' | b'-', ..] | [b'r', b'0'..=b'9', ..] => {
            format!(in alloc; "{expected}, found `{said}`")
        }
        // A name in place of an operand is mostly an array.
        _ if has_name_form(other) && form != "jz v LABEL" => {
            format!(in alloc; "{expected}, found `{said}`; help: read a cell with `load`")
        }
        _ => format!(in alloc; "{expected}, found `{said}`; help: write `{form}`"),
    }
}

/// The word in place of the number of a `pick`.
fn no_pick(alloc: Global, rest: &[&[u8]]) -> Result<String, AllocError> {
    let count = second(rest);
    format!(in alloc; "expected a number (1 to 8), found `{count}`; help: write `pick rD K`")
}

/// Whether an array comes first after the word of an instruction.
fn is_array_first(word: &[u8]) -> bool {
    word == b"store".as_slice() || word == b"await".as_slice() || word == b"awaitne".as_slice()
}

fn no_operand(alloc: Global, word: &[u8], rest: &[&[u8]]) -> Result<String, AllocError> {
    if word == b"pick".as_slice() {
        return no_pick(alloc, rest);
    }
    let form = instruction(word).map_or("return v", |shape| shape.form);
    if is_array_first(word) && rest.first().is_some_and(|first| is_register(first)) {
        return format!(in alloc; "expected the name of an array; help: write `{form}`");
    }
    match operands(word, rest).iter().find(|word| !is_operand(word)) {
        None => String::from_str(alloc, "expected a register or a number"),
        Some(other) => other_operand(alloc, form, other),
    }
}

/// The name that a word is, or its label.
fn without_colon<'a>(word: &'a [u8]) -> &'a [u8] {
    match word {
        [label @ .., b':'] => label,
        _ => word,
    }
}

fn long_name(alloc: Global, word: &[u8]) -> Result<String, AllocError> {
    let (length, word) = (word.len(), shown(word));
    format!(in alloc; "name `{word}` has {length} bytes; at most 32 are allowed")
}

/// The second of these words, which is to be a number.
fn second<'a>(words: &[&'a [u8]]) -> &'a str {
    match words {
        [_, number, ..] => shown(number),
        _ => "0"
    }
}

fn array_limit(
    alloc: Global,
    draft: &ComponentDraft,
    rest: &[&[u8]],
) -> Result<String, AllocError> {
    if draft.arrays.len() >= 16 {
        return String::from_str(alloc, "too many arrays; a component has at most 16");
    }
    let len = second(rest);
    format!(in alloc; "array length {len} is out of range (1 to 64)")
}

fn operation_limit(
    alloc: Global,
    draft: &ComponentDraft,
    rest: &[&[u8]],
) -> Result<String, AllocError> {
    if draft.operations.len() >= 16 {
        return String::from_str(alloc, "too many operations; a component has at most 16");
    }
    let args = second(rest);
    format!(in alloc; "an operation takes at most 4 arguments, found {args}")
}

/// Outside an operation, a line for which there is no room.
fn limit_outside(
    alloc: Global,
    draft: &ComponentDraft,
    word: &[u8],
    rest: &[&[u8]],
) -> Result<String, AllocError> {
    match shown(word) {
        "word" => array_limit(alloc, draft, rest),
        "lock" => String::from_str(alloc, "too many locks; a component has at most 8"),
        "op" => operation_limit(alloc, draft, rest),
        _ => String::from_str(alloc, "`local` is out of range (0 to 16)"),
    }
}

/// Inside an operation, a line for which there is no room.
fn limit_inside(alloc: Global, op: &OpenOp) -> Result<String, AllocError> {
    if op.statements.len() >= 64 {
        let name = operation_name(op);
        return format!(in alloc; "too many instructions in {name}; an operation has at most 64");
    }
    String::from_str(alloc, "the number after `pick` is out of range (1 to 8)")
}

/// Whether a word is a name with too many bytes, or the label of one.
fn is_long_name(word: &[u8]) -> bool {
    let name = without_colon(word);
    has_name_form(name) && is_long(name)
}

/// The first of these words that is too long a name.
fn long_word<'a>(words: &[&'a [u8]]) -> Option<&'a [u8]> {
    words.iter().find(|word| is_long_name(word)).copied()
}

fn limit(alloc: Global, draft: &ComponentDraft, words: &[&[u8]]) -> Result<String, AllocError> {
    if let Some(word) = long_word(words) {
        return long_name(alloc, without_colon(word));
    }
    let Some((word, rest)) = words.split_first() else {
        return String::from_str(alloc, "limit exceeded");
    };
    match &draft.begun {
        Some(op) => limit_inside(alloc, op),
        None => limit_outside(alloc, draft, word, rest),
    }
}

fn is_declared(names: &[Name], word: &[u8]) -> bool {
    names.iter().any(|name| name.is(word))
}

fn declared_before(alloc: Global, kind: &[u8], name: &[u8]) -> Result<String, AllocError> {
    let (kind, name) = (shown(kind), shown(name));
    format!(in alloc; "`{kind} {name}` is declared twice")
}

fn no_lock(alloc: Global, draft: &ComponentDraft, lock: &[u8]) -> Result<String, AllocError> {
    let said = shown(lock);
    match near(&draft.locks, lock) {
        Some(name) => format!(in alloc;
            "cannot find lock `{said}`; help: a lock with a similar name exists: `{name}`"
        ),
        None => format!(in alloc;
            "cannot find lock `{said}`; help: declare it with `lock {said}` before the operations"
        ),
    }
}

fn no_array(alloc: Global, draft: &ComponentDraft, array: &str) -> Result<String, AllocError> {
    if is_declared(&draft.locks, array.as_bytes()) {
        return format!(in alloc; "expected an array, found lock `{array}`");
    }
    match near(&draft.arrays, array.as_bytes()) {
        Some(name) => format!(in alloc;
            "cannot find array `{array}`; help: an array with a similar name exists: `{name}`"
        ),
        None => format!(in alloc;
            "cannot find array `{array}`; help: declare it with `word {array} LEN INIT` before the operations"
        ),
    }
}

/// Where an array stands in an instruction, of which this is the second word.
fn array_named<'a>(words: &[&'a [u8]], second: &'a [u8]) -> &'a str {
    match words {
        [_, to, array, ..] if is_register(to) => shown(array),
        _ => shown(second),
    }
}

/// A name that is there already, or is not there.
fn name(alloc: Global, draft: &ComponentDraft, words: &[&[u8]]) -> Result<String, AllocError> {
    let (first, second) = match words {
        [first, second, ..] => (*first, *second),
        [first] => (*first, *first),
        [] => return String::from_str(alloc, "invalid name"),
    };
    if draft.begun.is_none() {
        return declared_before(alloc, first, second);
    }
    match shown(first) {
        "lock" | "unlock" => no_lock(alloc, draft, second),
        _ => no_array(alloc, draft, array_named(words, second)),
    }
}

/// A fault of a name on a line with a label, before these words.
fn labelled_name(
    alloc: Global,
    draft: &ComponentDraft,
    label: &[u8],
    words: &[&[u8]],
) -> Result<String, AllocError> {
    if let Some(op) = &draft.begun {
        if op.labels.iter().any(|other| other.name.is(label)) {
            let (label, operation) = (shown(label), operation_name(op));
            return format!(in alloc; "label `{label}` is defined twice in {operation}");
        }
    }
    name(alloc, draft, words)
}

/// A line's label, where an operation is open and more words follow, and the words after it.
fn after_label<'a, 'b>(
    draft: &ComponentDraft,
    words: &'b [&'a [u8]],
) -> (Option<&'a [u8]>, &'b [&'a [u8]]) {
    let Some((first, rest)) = words.split_first() else {
        return (None, words);
    };
    match *first {
        [label @ .., b':'] if draft.begun.is_some() && !rest.is_empty() => (Some(label), rest),
        _ => (None, words),
    }
}

fn comma(alloc: Global, word: &[u8]) -> Result<String, AllocError> {
    if let Some(before) = word.strip_suffix(b";") {
        let before = shown(before);
        return format!(in alloc;
            "unexpected `;` after `{before}`; help: write each instruction on a line of its own"
        );
    }
    let before = shown(word.strip_suffix(b",").unwrap_or(word));
    format!(in alloc; "unexpected `,` after `{before}`; help: separate words by spaces")
}

/// A word that begins a comment in other languages.
fn comment(alloc: Global, word: &[u8]) -> Result<String, AllocError> {
    let word = shown(word);
    format!(in alloc; "unexpected `{word}`; help: a comment begins with `#`")
}

/// The first word of a component or a source for which this may be a slip.
fn near_first(word: &[u8]) -> Option<&'static str> {
    if is_near(word, b"component") {
        Some("component")
    } else if is_near(word, b"object") {
        Some("object")
    } else {
        None
    }
}

/// Whether a word begins a comment in other languages.
pub(crate) fn begins_comment(word: &[u8]) -> bool {
    word.starts_with(b"//") || word.starts_with(b"/*") || word.starts_with(b"--")
}

fn missing(alloc: Global, word: &[u8]) -> Result<String, AllocError> {
    if begins_comment(word) {
        let word = shown(word);
        return format!(in alloc;
            "expected `component NAME` or `object NAME` first, found `{word}`; help: a comment begins with `#`"
        );
    }
    let slip = Slip {
        name: near_first(word),
    };
    let word = shown(word);
    format!(in alloc; "expected `component NAME` or `object NAME` first, found `{word}`{slip}")
}

/// Inside an operation, a line of no form after its label.
fn form_inside(
    alloc: Global,
    op: &OpenOp,
    word: &[u8],
    rest: &[&[u8]],
) -> Result<String, AllocError> {
    match word {
        [_front @ .., b':'] => {
            let word = shown(word);
            format!(in alloc; "label `{word}` must be followed by an instruction on the same line")
        }
        _ => form_instruction(alloc, op, word, rest),
    }
}

fn form(
    alloc: Global,
    draft: &ComponentDraft,
    label: Option<&[u8]>,
    word: &[u8],
    rest: &[&[u8]],
) -> Result<String, AllocError> {
    match &draft.begun {
        None => form_outside(alloc, draft, word, rest),
        Some(op) => match label {
            Some(label) if !has_name_form(label) => no_name(alloc, &[label]),
            _ => form_inside(alloc, op, word, rest),
        },
    }
}

/// A word in the place of the number of an operation's arguments.
fn no_count(alloc: Global, word: &[u8]) -> Result<String, AllocError> {
    let word = shown(word);
    format!(in alloc;
        "expected the number of arguments (0 to 4), found `{word}`; help: write `op NAME N`"
    )
}

fn number(
    alloc: Global,
    draft: &ComponentDraft,
    word: &[u8],
    rest: &[&[u8]],
) -> Result<String, AllocError> {
    if draft.begun.is_some() || declaration(word).is_none() {
        return no_operand(alloc, word, rest);
    }
    match rest {
        [_, count] if word == b"op".as_slice() => no_count(alloc, count),
        [name, sign, ..] if *sign == b"=".as_slice() => {
            let name = shown(name);
            format!(in alloc; "unexpected `=`; help: write `word {name} LEN INIT`")
        }
        [_, numbers @ ..] if word != b"local".as_slice() => no_number(alloc, numbers),
        _ => no_number(alloc, rest),
    }
}

fn flow(alloc: Global, draft: &ComponentDraft) -> Result<String, AllocError> {
    match &draft.begun {
        Some(op) if op.statements.is_empty() => {
            let name = operation_title(op);
            format!(in alloc; "{name} is empty; help: write at least `return 0`")
        }
        _ => String::from_str(
            alloc,
            "operation may run past its end; help: add `return 0` before `end`",
        ),
    }
}

/// A word with a comma or a semicolon at its end, which is reported before other faults.
fn comma_in<'a>(kind: LangFaultKind, words: &[&'a [u8]]) -> Option<&'a [u8]> {
    if kind == LangFaultKind::Missing {
        return None;
    }
    words.iter().find(|word| is_comma(word)).copied()
}

/// The words for a fault of this kind on a line of these words.
fn wording_of_words(
    alloc: Global,
    draft: &ComponentDraft,
    kind: LangFaultKind,
    text: &[u8],
    words: &[&[u8]],
) -> Result<String, AllocError> {
    let (label, after) = after_label(draft, words);
    let Some((word, rest)) = after.split_first() else {
        return String::from_str(alloc, "invalid line");
    };
    match kind {
        LangFaultKind::Byte => unknown_byte(alloc, text),
        LangFaultKind::Missing => missing(alloc, word),
        LangFaultKind::Form => form(alloc, draft, label, word, rest),
        LangFaultKind::Number => number(alloc, draft, word, rest),
        LangFaultKind::Limit => limit(alloc, draft, words),
        LangFaultKind::Flow => flow(alloc, draft),
        LangFaultKind::Name => match label {
            Some(label) => labelled_name(alloc, draft, label, after),
            None => name(alloc, draft, after),
        },
    }
}

/// The words for a fault of this kind on a line, after this draft.
pub(crate) fn component_wording(
    alloc: Global,
    draft: &ComponentDraft,
    kind: LangFaultKind,
    text: &[u8],
) -> Result<String, AllocError> {
    if !are_allowed(text) {
        return unknown_byte(alloc, text);
    }
    let words = words_of(alloc, text)?;
    if kind != LangFaultKind::Missing {
        if let Some(word) = words.iter().find(|word| begins_comment(word)) {
            return comment(alloc, word);
        }
    }
    match comma_in(kind, &words) {
        Some(word) => comma(alloc, word),
        None => wording_of_words(alloc, draft, kind, text, &words),
    }
}

/// The words for a jump to a label that is not there, which this many instructions of the open
/// operation follow with it.
pub(crate) fn jump_wording(
    alloc: Global,
    draft: &ComponentDraft,
    back: usize,
) -> Result<String, AllocError> {
    let Some(op) = &draft.begun else {
        return String::from_str(alloc, "undefined label");
    };
    let place = op.statements.len().saturating_sub(back);
    match op.statements.get(place) {
        Some(Statement::Jump(label)) => no_label(alloc, op, label),
        Some(Statement::JumpIfZero(_, label)) => no_label(alloc, op, label),
        _ => String::from_str(alloc, "undefined label"),
    }
}

fn no_label(alloc: Global, op: &OpenOp, label: &Name) -> Result<String, AllocError> {
    let (name, said) = (operation_name(op), label.as_str());
    match near(&op.labels, label.as_bytes()) {
        Some(near) => format!(in alloc;
            "undefined label `{said}` in {name}; help: a similar label exists: `{near}`"
        ),
        None => format!(in alloc; "undefined label `{said}` in {name}"),
    }
}

/// The words for a fault at the end of the text.
pub(crate) fn end_wording(alloc: Global, draft: &ComponentDraft) -> Result<String, AllocError> {
    match &draft.begun {
        Some(op) => {
            let name = operation_title(op);
            format!(in alloc; "{name} is not closed; help: add `end`")
        }
        None => String::from_str(
            alloc,
            "no component found; help: begin with `component NAME` or `object NAME`",
        ),
    }
}
