//! What a line with a fault leaves, so that the lines after it are reported for their own faults
//! alone.

ghost use Rattle.std.specs.Prelude.{◌≡◌, IfOk, OnOk};
ghost use Rattle.lu_text.specs.Lines.{text_if, texts};
ghost use Rattle.lu_lang.specs.Mend as spec;
ghost use Rattle.lu_lang.specs.Mend.{Mends, mend, mend_inside};
ghost use Rattle.lu_text.specs.Results.{Builds};

use crate::draft::{ComponentDraft, Label, OpenOp, Statement};
use crate::keyword::keyword_in;
use crate::reading::{label_in, op_of};
use lu_component::{Array, Instr, MOST_ARRAYS, MOST_LOCKS, Operand};
use lu_text::{Name, has_name_form, is_long, words_of};
use std::alloc::{AllocError, Global};

/// The most labels of an operation with faults that are kept.
const MOST_LABELS: usize = 1024;

/// The word without a comma or a semicolon after it.
pub(crate) fn bare(word: &[u8]) -> &[u8]
    ensures { result.now ≡ spec.bare word.now }
{
    match word {
        [front @ .., b','] => front,
        [front @ .., b';'] => front,
        _ => word,
    }
}

/// The word, where it is a name, and else `_`.
fn name_or_blank(alloc: Global, word: &[u8]) -> Result<Name, AllocError>
    ensures { Builds result (spec.name_or_blank word.now) }
{
    if has_name_form(word) && !is_long(word) {
        Name::new(alloc, word)
    } else {
        Name::new(alloc, b"_")
    }
}

/// The name that the first word is to be.
fn first_name(alloc: Global, words: &[&[u8]]) -> Result<Name, AllocError>
    ensures { Builds result (spec.first_name (texts words.now)) }
{
    match words.split_first() {
        None => Name::new(alloc, b"_"),
        Some((word, _)) => name_or_blank(alloc, bare(word)),
    }
}

/// Adds the array that these words declare, where there is room.
fn add_array(alloc: Global, draft: &mut ComponentDraft, words: &[&[u8]]) -> Result<(), AllocError>
    ensures { OnOk result (draft.new ≡ spec.with_array draft.old (texts words.now)) }
{
    if draft.arrays.len() >= MOST_ARRAYS {
        return Ok(());
    }
    let name = first_name(alloc, words)?;
    draft.arrays.push(Array {
        name,
        len: 64,
        init: 0,
    })?;
    Ok(())
}

/// Adds the lock that these words declare, where there is room.
fn add_lock(alloc: Global, draft: &mut ComponentDraft, words: &[&[u8]]) -> Result<(), AllocError>
    ensures { OnOk result (draft.new ≡ spec.with_lock draft.old (texts words.now)) }
{
    if draft.locks.len() >= MOST_LOCKS {
        return Ok(());
    }
    draft.locks.push(first_name(alloc, words)?)?;
    Ok(())
}

/// Begins the operation that these words begin.
fn begin_op(alloc: Global, draft: &mut ComponentDraft, words: &[&[u8]]) -> Result<(), AllocError>
    ensures { OnOk result (draft.new ≡ spec.with_op draft.old (texts words.now)) }
{
    draft.begun = Some(OpenOp::new(alloc, first_name(alloc, words)?, 0));
    Ok(())
}

/// Adds a line's label, where it has one, to the operation.
fn add_label(alloc: Global, op: &mut OpenOp, label: Option<&[u8]>) -> Result<(), AllocError>
    ensures { OnOk result (op.new ≡ spec.op_labelled op.old (text_if label.entry)) }
{
    match label {
        Some(label) if op.labels.len() < MOST_LABELS => {
            let name = name_or_blank(alloc, label)?;
            op.labels.push(Label { name, place: 0 })?;
            Ok(())
        }
        _ => Ok(()),
    }
}

/// Goes on with this operation, which has one more instruction.
fn add_return(draft: &mut ComponentDraft, mut op: OpenOp) -> Result<(), AllocError>
    ensures { OnOk result (draft.new ≡ spec.with_return draft.old op) }
{
    op.statements
        .push(Statement::Plain(Instr::Return(Operand::Num(0))))?;
    draft.begun = Some(op);
    Ok(())
}

/// The label of a line of these words, where it has one, and its words after it.
pub(crate) fn split_label<'a>(words: &'a [&'a [u8]]) -> (Option<&'a [u8]>, &'a [&'a [u8]])
    ensures label { text_if result.0 ≡ spec.line_label (texts words.now) }
    ensures after { texts result.1.now ≡ spec.after_label (texts words.now) }
{
    match words.split_first() {
        None => (None, words),
        Some((word, rest)) => match label_in(bare(word)) {
            None => (None, words),
            Some(label) => (Some(label), rest),
        },
    }
}

/// The words of the first of these lines that has any.
pub(crate) fn next_words<'a>(alloc: Global, lines: &[&'a [u8]]) -> Result<Vec<&'a [u8]>, AllocError>
    ensures { IfOk result (λ words. texts words.items ≡ spec.next_words (texts lines.now)) }
{
    for line in lines {
        let words = words_of(alloc, line)?;
        if !words.is_empty() {
            return Ok(words);
        }
    }
    Ok(Vec::new(alloc))
}

/// Whether a word is a label, or begins an instruction and no declaration.
fn is_code(word: &[u8]) -> bool
    ensures { result ≡ spec.is_code word.now }
{
    label_in(word).is_some() || keyword_in(word).is_some() && word != b"lock".as_slice()
}

/// Whether a line of these words stands inside an operation alone.
fn begins_code(words: &[&[u8]]) -> bool
    ensures { result ≡ spec.begins_code (texts words.now) }
{
    match words.split_first() {
        None => false,
        Some((word, _)) => is_code(word) || *word == b"end".as_slice(),
    }
}

/// Whether a line of these words stands outside operations alone.
fn begins_outside(words: &[&[u8]]) -> bool
    ensures { result ≡ spec.begins_outside (texts words.now) }
{
    match words.split_first() {
        None => false,
        Some((word, _)) => *word == b"op".as_slice() || *word == b"word".as_slice(),
    }
}

/// Whether a line of these words, after its label, closes the operation that is open before it.
pub(crate) fn closes(words: &[&[u8]], next: &[&[u8]]) -> bool
    ensures { result ≡ spec.closes (texts words.now) (texts next.now) }
{
    match words.split_first() {
        None => false,
        Some((word, _)) => {
            let word = bare(word);
            word == b"op".as_slice()
                || word == b"end".as_slice()
                || word == b"word".as_slice() && begins_outside(next)
        }
    }
}

/// What a line of these words leaves outside an operation.
fn mend_outside(
    alloc: Global,
    draft: &mut ComponentDraft,
    words: &[&[u8]],
    next: &[&[u8]],
) -> Result<(), AllocError>
    ensures { OnOk result (Mends spec.mend_outside draft.old draft.new words.now next.now) }
{
    let Some((word, rest)) = words.split_first() else {
        return Ok(());
    };
    let word = bare(word);
    if word == b"word".as_slice() {
        add_array(alloc, draft, rest)
    } else if word == b"lock".as_slice() {
        add_lock(alloc, draft, rest)
    } else if word == b"op".as_slice() {
        begin_op(alloc, draft, rest)
    } else if !begins_code(next) || word == b"end".as_slice() {
        Ok(())
    } else if is_code(word) {
        let mut op = OpenOp::new(alloc, Name::new(alloc, b"_")?, 0);
        add_label(alloc, &mut op, label_in(word))?;
        add_return(draft, op)
    } else {
        begin_op(alloc, draft, rest)
    }
}

/// What a line of these words, after its label, leaves in this operation.
fn mend_inside(
    alloc: Global,
    draft: &mut ComponentDraft,
    op: OpenOp,
    words: &[&[u8]],
    next: &[&[u8]],
) -> Result<(), AllocError>
    ensures { OnOk result (Mends (λ d. mend_inside d op) draft.old draft.new words.now next.now) }
{
    let Some((word, rest)) = words.split_first() else {
        return add_return(draft, op);
    };
    if closes(words, next) {
        draft.operations.push(op_of(alloc, op)?)?;
        return mend_outside(alloc, draft, words, next);
    }
    if bare(word) == b"word".as_slice() {
        add_array(alloc, draft, rest)?;
    }
    add_return(draft, op)
}

/// Makes the draft the one from which the lines after a line with a fault are read; `lines` are
/// these.
///
/// # Errors
///
/// There is no memory for what the line leaves.
pub(crate) fn mend_draft(
    alloc: Global,
    draft: &mut ComponentDraft,
    text: &[u8],
    lines: &[&[u8]],
) -> Result<(), AllocError>
    ensures { OnOk result (draft.new ≡ mend draft.old text.now (texts lines.now)) }
{
    let words = words_of(alloc, text)?;
    let next = next_words(alloc, lines)?;
    let Some(_) = words.split_first() else {
        return Ok(());
    };
    let begun = draft.begun.take();
    if draft.name.is_none() {
        draft.name = Some(Name::new(alloc, b"_")?);
        return mend_outside(alloc, draft, &words, &next);
    }
    match begun {
        None => mend_outside(alloc, draft, &words, &next),
        Some(mut op) => {
            let (label, rest) = split_label(&words);
            add_label(alloc, &mut op, label)?;
            mend_inside(alloc, draft, op, rest, &next)
        }
    }
}
