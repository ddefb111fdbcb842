//! What a faulty line may have meant.

ghost use Rattle.std.specs.Prelude.{◌≡◌};
ghost use Rattle.lu_text.specs.Lines.{texts};
ghost use Rattle.lu_text.specs.Results.{HasItems};
ghost use Rattle.lu_source_lint.specs.Faults as spec;

use lu_source_text::{SourceFaultKind, source_words};
use lu_text::has_name_form;
use std::alloc::{AllocError, Global};

/// What a faulty line may have meant.
#[derive(Clone, Copy, Drop)]
struct Mending {
    /// How many of its words stay.
    kept: usize,

    /// What stands after them in place of the others.
    after: &'static [u8],
}

/// Whether this word of a line, counted from 0, is that one.
pub(crate) fn word_is(words: &[&[u8]], position: usize, text: &[u8]) -> bool
    ensures { result ≡ spec.word_is (texts words.now) position text.now }
{
    words.get(position).is_some_and(|word| *word == text)
}

fn keep(kept: usize, after: &'static [u8]) -> Mending
    ensures kept { result.kept ≡ kept }
    ensures after { result.after.now ≡ after.now }
{
    Mending { kept, after }
}

/// Whether the last word of a line opens a block.
pub(crate) fn opens(words: &[&[u8]]) -> bool
    ensures { result ≡ spec.opens (texts words.now) }
{
    words.last().is_some_and(|word| *word == b"{".as_slice())
}

/// Whether a line opens a block and closes it again.
pub(crate) fn is_whole_block(words: &[&[u8]]) -> bool
    ensures { result ≡ spec.is_whole_block (texts words.now) }
{
    !word_is(words, 0, b"}") && words.last().is_some_and(|word| *word == b"}".as_slice())
}

/// Whether a word leaves a block.
fn jumps(word: &[u8]) -> bool
    ensures { result ≡ spec.jumps word.now }
{
    word == b"return".as_slice() || word == b"break".as_slice() || word == b"continue".as_slice()
}

/// Whether one of the words leaves a block.
fn has_jump(words: &[&[u8]]) -> bool
    ensures { result ≡ spec.has_jump (texts words.now) }
{
    words.iter().any(|word| jumps(word))
}

/// Whether a line is an `if` or a `while` with what it does, and without braces.
pub(crate) fn is_inline(words: &[&[u8]]) -> bool
    ensures { result ≡ spec.is_inline (texts words.now) }
{
    (word_is(words, 0, b"if") || word_is(words, 0, b"while")) && has_jump(words) && !opens(words)
}

/// Whether a line is only a `{`, which belongs at the end of the line above.
fn is_brace_alone(words: &[&[u8]]) -> bool
    ensures { result ≡ spec.is_brace_alone (texts words.now) }
{
    words.len() == 1 && word_is(words, 0, b"{")
}

/// Whether a word is another than `-`.
fn is_no_dash(word: &[u8]) -> bool
    ensures { result ≡ spec.is_no_dash word.now }
{
    word != b"-".as_slice()
}

/// Whether one of the words is another than `-`.
fn has_no_dash(words: &[&[u8]]) -> bool
    ensures { result ≡ spec.has_no_dash (texts words.now) }
{
    words.iter().any(|word| is_no_dash(word))
}

/// Whether a line is nearly `---`, which separates parts: two dashes or more, and nothing else.
pub(crate) fn is_dashes(words: &[&[u8]]) -> bool
    ensures { result ≡ spec.is_dashes (texts words.now) }
{
    words.len() > 1 && !has_no_dash(words)
}

/// Whether a line begins as one of a matrix does.
pub(crate) fn begins_matrix(words: &[&[u8]]) -> bool
    ensures { result ≡ spec.begins_matrix (texts words.now) }
{
    (word_is(words, 0, b"thread") || word_is(words, 0, b"setup")) && !named_by(words).is_empty()
}

/// A line that begins with `}`.
fn meant_end(words: &[&[u8]]) -> Mending
    ensures { (result.kept, result.after.now) ≡ spec.meant_end (texts words.now) }
{
    if !(opens(words) || word_is(words, 1, b"else")) {
        keep(1, b"")
    } else if word_is(words, 2, b"if") {
        keep(1, b"else if 1 {")
    } else {
        keep(1, b"else {")
    }
}

/// Where the arguments of an operation end.
fn arguments_end(words: &[&[u8]]) -> usize
    ensures { result ≡ spec.arguments_end (texts words.now) }
{
    words
        .iter()
        .position(|word| *word == b")".as_slice() || *word == b"{".as_slice())
        .unwrap_or(words.len())
}

/// A line that begins with `op`, of which the first 4 arguments stay, where `(` is before them.
fn meant_op(words: &[&[u8]]) -> Mending
    ensures { (result.kept, result.after.now) ≡ spec.meant_op (texts words.now) }
{
    let end = arguments_end(words);
    if end < 3 || !word_is(words, 2, b"(") {
        keep(2, b"() {")
    } else {
        keep(end.min(10), b") {")
    }
}

/// A line with this fault, by its first word.
fn meant(kind: SourceFaultKind, words: &[&[u8]]) -> Mending
    ensures { (result.kept, result.after.now) ≡ spec.meant kind (texts words.now) }
{
    if matches!(kind, SourceFaultKind::Missing) || word_is(words, 0, b"object") {
        keep(0, b"object a")
    } else if is_whole_block(words) || is_brace_alone(words) || is_inline(words) {
        keep(0, b"")
    } else if word_is(words, 0, b"let") || word_is(words, 0, b"const") {
        keep(2, b"= 1")
    } else if word_is(words, 0, b"word") && word_is(words, 2, b"[") {
        keep(2, b"[1]")
    } else if word_is(words, 0, b"word") || word_is(words, 0, b"lock") {
        keep(2, b"")
    } else if word_is(words, 0, b"op") {
        meant_op(words)
    } else if word_is(words, 0, b"if") || word_is(words, 0, b"while") {
        keep(1, b"1 {")
    } else if word_is(words, 0, b"loop") {
        keep(1, b"{")
    } else if word_is(words, 0, b"}") {
        meant_end(words)
    } else if opens(words) || word_is(words, 0, b"else") {
        keep(0, b"if 1 {")
    } else {
        keep(0, b"")
    }
}

/// Each word, and a blank after it.
pub(crate) fn spelled(alloc: Global, words: &[&[u8]]) -> Result<Vec<u8>, AllocError>
    ensures { HasItems result (spec.spelled (texts words.now)) }
{
    let mut text = Vec::new(alloc);
    for word in words {
        text.extend_from_slice(word)?;
        text.push(b' ')?;
    }
    Ok(text)
}

/// The line that one with this fault may have meant.
pub(crate) fn meant_line(
    alloc: Global,
    kind: SourceFaultKind,
    line: &[u8],
) -> Result<Vec<u8>, AllocError>
    ensures { HasItems result (spec.meant_line kind line.now) }
{
    let words = source_words(alloc, line)?;
    let mending = meant(kind, &words);
    let (kept, _) = words.split_at(mending.kept.min(words.len()));
    let mut text = spelled(alloc, kept)?;
    text.extend_from_slice(mending.after)?;
    Ok(text)
}

/// The second word of a line, where it has the form of a name.
fn named_by<'a>(words: &[&'a [u8]]) -> &'a [u8]
    ensures { result.now ≡ spec.named_by (texts words.now) }
{
    match words.get(1) {
        Some(word) if has_name_form(word) => *word,
        _ => &[],
    }
}

/// The line of an operation without arguments, whose name ends so.
fn unnamed(alloc: Global, name: &[u8]) -> Result<Vec<u8>, AllocError>
    ensures { HasItems result (spec.unnamed name.now) }
{
    let mut text = Vec::from_slice(alloc, b"op unnamed_".as_slice())?;
    text.extend_from_slice(name)?;
    text.extend_from_slice(b"() {")?;
    Ok(text)
}

/// What a line that opens a block may have meant outside of operations: an operation of a name that
/// no other line has.
pub(crate) fn meant_outside(alloc: Global, line: &[u8]) -> Result<Vec<u8>, AllocError>
    ensures { HasItems result (spec.meant_outside line.now) }
{
    let words = source_words(alloc, line)?;
    if opens(&words) {
        unnamed(alloc, named_by(&words))
    } else {
        Ok(Vec::new(alloc))
    }
}
