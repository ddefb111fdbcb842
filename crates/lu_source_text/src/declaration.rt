//! Reading of declarations.

ghost use Rattle.std.specs.Prelude.{◌≡◌, ◌<◌, ◌≤◌, ◌^◌, length, map, IfOk, Ok};
ghost use Rattle.lu_text.specs.Names.{IsName};
ghost use Rattle.lu_source_text.specs.Drafts.{block_of, drafted_of, opening_of};
ghost use Rattle.lu_text.specs.Lines.{texts};
ghost use Rattle.lu_source.specs.Programs.{operation_of};
ghost use Rattle.lu_source_text.specs.Grammar as spec;
ghost use Rattle.lu_source_text.specs.Reads.{DraftIs, ReadsAlone, ReadsBegun, ReadsNames, ReadsSize, in_draft, in_line};

use crate::constants::Constants;
use crate::draft::{Begun, Block, Draft, Opening, Shared};
use crate::expression::{after_word, first_word, last_word, nothing_left};
use crate::fault::{Refusal, SourceFaultKind};
use crate::folding::first_constant;
use crate::names::{is_free_name, position_from, shared_from};
use lu_component::{
    Array, MOST_ARGUMENTS, MOST_ARRAYS, MOST_CELLS, MOST_LOCAL, MOST_LOCKS, MOST_OPS,
};
use lu_source::{Operation, Stmt};
use lu_text::{Name, exactly_one, is_long};
use std::alloc::Global;

/// Whether the name means something already.
fn is_taken(draft: &Draft, locals: &[Name], word: &[u8]) -> bool
    ensures { result ≡ spec.is_taken (drafted_of draft.now) locals.now word.now }
{
    draft.constants.get(word).is_some()
        || shared_from(0, &draft.words, word).is_some()
        || position_from(0, &draft.locks, word).is_some()
        || position_from(0, locals, word).is_some()
}

/// The name that a word is.
fn name_of(alloc: Global, word: &[u8]) -> Result<Name, Refusal>
    ensures { ReadsAlone result (spec.name_of word.now) }
{
    if !is_free_name(word) {
        return Err(Refusal::Kind(SourceFaultKind::Form));
    }
    if is_long(word) {
        return Err(Refusal::Kind(SourceFaultKind::Limit));
    }
    Ok(Name::new(alloc, word)?)
}

/// A new name.
pub(crate) fn new_name(
    alloc: Global,
    draft: &Draft,
    locals: &[Name],
    word: &[u8],
) -> Result<Name, Refusal>
    ensures { ReadsAlone result (spec.new_name (drafted_of draft.now) locals.now word.now) }
{
    let name = name_of(alloc, word)?;
    if is_taken(draft, locals, word) {
        return Err(Refusal::Kind(SourceFaultKind::Name));
    }
    Ok(name)
}

/// `object NAME`
pub(crate) fn object_line(alloc: Global, draft: &mut Draft, words: &[&[u8]]) -> Result<(), Refusal>
    ensures { DraftIs result draft.new (in_draft spec.object_line draft.old words.now) }
{
    let word = exactly_one(words).ok_or(Refusal::Kind(SourceFaultKind::Form))?;
    draft.name = Some(name_of(alloc, word)?);
    Ok(())
}

/// A constant expression, after which no word is left.
fn last_number(alloc: Global, constants: &Constants, words: &[&[u8]]) -> Result<u32, Refusal>
    ensures { ReadsAlone result (spec.last_number constants.now (texts words.now)) }
{
    let (number, rest) = first_constant(alloc, constants, words)?;
    nothing_left(rest)?;
    Ok(number)
}

/// `local L`
fn local_line(alloc: Global, draft: &mut Draft, words: &[&[u8]]) -> Result<(), Refusal>
    ensures { DraftIs result draft.new (in_draft spec.local_line draft.old words.now) }
{
    let most = last_number(alloc, &draft.constants, words)?;
    if draft.local.is_some() || !draft.operations.is_empty() {
        return Err(Refusal::Kind(SourceFaultKind::Form));
    }
    if most > MOST_LOCAL {
        return Err(Refusal::Kind(SourceFaultKind::Limit));
    }
    draft.local = Some(most as u8);
    Ok(())
}

/// `const NAME = EXPR`, with a constant expression
fn const_line(alloc: Global, draft: &mut Draft, words: &[&[u8]]) -> Result<(), Refusal>
    ensures { DraftIs result draft.new (in_draft spec.const_line draft.old words.now) }
{
    let (word, rest) = first_word(words)?;
    let name = new_name(alloc, draft, &[], word)?;
    let more = after_word(b"=".as_slice(), rest)?;
    let value = last_number(alloc, &draft.constants, more)?;
    draft.constants.declare(alloc, &name, value)?;
    Ok(())
}

/// `[LEN]` or nothing: the length, whether it is written, and the words after it.
fn len_in<'a>(
    alloc: Global,
    draft: &Draft,
    words: &'a [&'a [u8]],
) -> Result<(u32, bool, &'a [&'a [u8]]), Refusal>
    ensures { ReadsSize result (spec.len_in (drafted_of draft.now) (texts words.now)) }
{
    let Some((word, rest)) = words.split_first() else {
        return Ok((1, false, words));
    };
    if *word != b"[".as_slice() {
        return Ok((1, false, words));
    }
    let (len, more) = first_constant(alloc, &draft.constants, rest)?;
    let end = after_word(b"]".as_slice(), more)?;
    Ok((len, true, end))
}

/// `= INIT` or nothing.
fn init_in(alloc: Global, draft: &Draft, words: &[&[u8]]) -> Result<u32, Refusal>
    ensures { ReadsAlone result (spec.init_in (drafted_of draft.now) (texts words.now)) }
{
    if words.is_empty() {
        return Ok(0);
    }
    let rest = after_word(b"=".as_slice(), words)?;
    last_number(alloc, &draft.constants, rest)
}

/// `word NAME`, `word NAME = INIT`, `word NAME[LEN]` or `word NAME[LEN] = INIT`
fn word_line(alloc: Global, draft: &mut Draft, words: &[&[u8]]) -> Result<(), Refusal>
    ensures { DraftIs result draft.new (in_draft spec.word_line draft.old words.now) }
{
    let (word, rest) = first_word(words)?;
    let name = new_name(alloc, draft, &[], word)?;
    let (len, indexed, more) = len_in(alloc, draft, rest)?;
    let init = init_in(alloc, draft, more)?;
    if draft.words.len() >= MOST_ARRAYS || len < 1 || len > MOST_CELLS {
        return Err(Refusal::Kind(SourceFaultKind::Limit));
    }
    let array = Array {
        name,
        len: len as u8,
        init,
    };
    draft.words.push(Shared { array, indexed })?;
    Ok(())
}

/// `lock NAME`, outside an operation
fn lock_line(alloc: Global, draft: &mut Draft, words: &[&[u8]]) -> Result<(), Refusal>
    ensures { DraftIs result draft.new (in_draft spec.lock_line draft.old words.now) }
{
    let (word, rest) = first_word(words)?;
    let name = new_name(alloc, draft, &[], word)?;
    nothing_left(rest)?;
    if draft.locks.len() >= MOST_LOCKS {
        return Err(Refusal::Kind(SourceFaultKind::Limit));
    }
    draft.locks.push(name)?;
    Ok(())
}

/// Names separated by commas and then `)`, after the names that were there; and the words after.
fn names_from<'a>(
    alloc: Global,
    draft: &Draft,
    mut names: Vec<Name>,
    words: &'a [&'a [u8]],
) -> Result<(Vec<Name>, &'a [&'a [u8]]), Refusal>
    ensures { ReadsNames result (in_draft (spec.names_from names.items) draft.now words.now) }
{
    let Some((word, rest)) = words.split_first() else {
        return Err(Refusal::Kind(SourceFaultKind::Form));
    };
    let Some((sign, more)) = rest.split_first() else {
        return Err(Refusal::Kind(SourceFaultKind::Form));
    };
    names.push(new_name(alloc, draft, &names, word)?)?;
    if *sign == b",".as_slice() {
        names_from(alloc, draft, names, more)
    } else if *sign == b")".as_slice() {
        Ok((names, more))
    } else {
        Err(Refusal::Kind(SourceFaultKind::Form))
    }
}

/// `)`, or names and then `)`; and the words after.
fn names_in<'a>(
    alloc: Global,
    draft: &Draft,
    words: &'a [&'a [u8]],
) -> Result<(Vec<Name>, &'a [&'a [u8]]), Refusal>
    ensures { ReadsNames result (spec.names_in (drafted_of draft.now) (texts words.now)) }
{
    let (word, rest) = first_word(words)?;
    if word == b")".as_slice() {
        return Ok((Vec::new(alloc), rest));
    }
    names_from(alloc, draft, Vec::new(alloc), words)
}

/// Whether an operation has the name.
fn is_operation(operations: &[Operation], word: &[u8]) -> bool
    ensures { result ≡ spec.is_operation (map operation_of operations.now) word.now }
{
    match operations {
        [] => false,
        [first, rest @ ..] => first.name.is(word) || is_operation(rest, word),
    }
}

/// `op NAME(A, B) {`
fn op_line(alloc: Global, draft: &mut Draft, words: &[&[u8]]) -> Result<(), Refusal>
    ensures { DraftIs result draft.new (in_draft spec.op_line draft.old words.now) }
{
    let (word, rest) = first_word(words)?;
    if !is_free_name(word) {
        return Err(Refusal::Kind(SourceFaultKind::Form));
    }
    let inside = after_word(b"(".as_slice(), rest)?;
    let (locals, more) = names_in(alloc, draft, inside)?;
    last_word(b"{".as_slice(), more)?;
    if is_long(word)
        || draft.operations.len() >= MOST_OPS
        || locals.len() > MOST_ARGUMENTS as usize
    {
        return Err(Refusal::Kind(SourceFaultKind::Limit));
    }
    if is_operation(&draft.operations, word) {
        return Err(Refusal::Kind(SourceFaultKind::Name));
    }
    draft.begun = Some(begin(alloc, word, locals)?);
    Ok(())
}

/// An operation that does nothing yet.
fn begin(alloc: Global, word: &[u8], locals: Vec<Name>) -> Result<Begun, Refusal>
    requires named { IsName word.now }
    requires few { length locals.items ≤ 4 }
    ensures { ReadsBegun result (Ok (spec.begun_as word.now locals.items)) }
{
    let name = Name::new(alloc, word)?;
    let mut blocks = Vec::new(alloc);
    blocks.push(open_block(Opening::Whole, 0, false))?;
    Ok(Begun {
        name,
        args: locals.len() as u8,
        lines: 0,
        locals,
        blocks,
    })
}

/// A block that does nothing yet.
pub(crate) fn open_block(opening: Opening, locals: usize, chained: bool) -> Block
    ensures { block_of result ≡ spec.opened (opening_of opening) locals chained }
{
    Block {
        opening,
        does: Stmt::Nothing,
        locals,
        chained,
    }
}

/// A line outside of operations.
pub(crate) fn declaration(
    alloc: Global,
    draft: &mut Draft,
    word: &[u8],
    words: &[&[u8]],
) -> Result<(), Refusal>
    ensures { DraftIs result draft.new (in_line spec.declaration draft.old word.now words.now) }
{
    if word == b"local".as_slice() {
        local_line(alloc, draft, words)
    } else if word == b"const".as_slice() {
        const_line(alloc, draft, words)
    } else if word == b"word".as_slice() {
        word_line(alloc, draft, words)
    } else if word == b"lock".as_slice() {
        lock_line(alloc, draft, words)
    } else if word == b"op".as_slice() {
        op_line(alloc, draft, words)
    } else {
        Err(Refusal::Kind(SourceFaultKind::Form))
    }
}
