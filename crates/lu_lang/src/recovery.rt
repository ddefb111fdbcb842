//! Lines as their writer meant them: a declaration with a fault was to declare a name, and the
//! lines after it may use that name.

ghost use Rattle.std.specs.Prelude.{◌≡◌, ◌≤◌, ◌<◌, ◌++◌, length};
ghost use Rattle.lu_text.specs.Lines.{text_if, texts};
ghost use Rattle.lu_text.specs.Faults.{going_on};
ghost use Rattle.lu_lang.specs.Meant as spec;
ghost use Rattle.lu_lang.specs.Meant.{faulty_grammar, mend_faulty};
ghost use Rattle.lu_text.specs.Results.{Builds, HasItems};
ghost use Rattle.lu_lang.specs.Results.{BuildsLine};
ghost use Rattle.lu_lang.specs.declared.recovery.Family.TheVariants.{Operation};

use crate::after_fault::{bare, mend_draft, split_label};
use crate::draft::{ComponentDraft, Label, OpenOp};
use crate::fault::LangFaultKind;
use crate::instructions::{array_number, lock_number};
use crate::keyword::{Keyword, keyword_in};
use crate::reading::{find_label, label_in};
use lu_text::{are_allowed, words_of};
use std::alloc::{AllocError, Global};
use std::marker::Model;

/// The most names that are kept of those that faulty declarations were to declare.
const MOST_MEANT: usize = 256;

/// What a name is a name of. Each stands once in its family.
#[derive(Clone, Copy, Debug, Drop, PartialEq, Eq)]
pub enum Family {
    Array,
    Lock,

    /// A label of the operation of this number, from 0.
    Label(usize),
    Operation,
}

impl Family {
    fn is_same(self, other: Family) -> bool
        ensures { result ≡ spec.same_family self other }
    {
        match (self, other) {
            (Family::Array, Family::Array) => true,
            (Family::Lock, Family::Lock) => true,
            (Family::Label(left), Family::Label(right)) => left == right,
            (Family::Operation, Family::Operation) => true,
            _ => false,
        }
    }
}

/// A name that a faulty declaration was to declare; the word need be no name.
#[derive(Debug, Drop)]
pub struct MeantName {
    family: Family,
    word: Vec<u8>,
}

impl Model for MeantName {
    ghost use Rattle.lu_lang.specs.Faulty.{MeantName as AMeantName};

    ghost Value = { AMeantName };

    ghost view = { λ m. record { family = m.family; word = m.word.items } };
}

/// What lines of which some have faults have declared.
#[derive(Debug, Drop)]
pub struct FaultyDraft {
    pub draft: ComponentDraft,

    /// The names that faulty declarations were to declare, and that are not declared.
    pub meant: Vec<MeantName>,
}

impl Model for FaultyDraft {
    ghost use Rattle.lu_lang.specs.Faulty.{FaultyDraft as AFaultyDraft};

    ghost Value = { AFaultyDraft };

    ghost view = { λ f. record { draft = f.draft; meant = f.meant.items } };
}

impl FaultyDraft {
    /// Nothing is declared yet.
    pub fn new(alloc: Global) -> FaultyDraft
        ensures { result ≡ faulty_grammar.nothing }
    {
        FaultyDraft {
            draft: ComponentDraft::new(alloc),
            meant: Vec::new(alloc),
        }
    }

    /// Whether a line that begins an operation of this name has a fault: how many arguments it
    /// takes is then not known.
    pub fn is_unsure(&self, name: &[u8]) -> bool
        ensures { result ≡ spec.is_meant self.now.meant Operation name.now }
    {
        is_meant(&self.meant, Family::Operation, name)
    }
}

fn is_meant(meant: &[MeantName], family: Family, word: &[u8]) -> bool
    ensures { result ≡ spec.is_meant meant.now family word.now }
{
    meant.iter().any(|name| name.family.is_same(family) && name.word.as_slice() == word)
}

/// The labels of the open operation, where one is.
fn open_labels(begun: &Option<OpenOp>) -> &[Label]
    ensures { result.now ≡ spec.open_labels begun.now }
{
    match begun {
        None => &[],
        Some(op) => op.labels.as_slice(),
    }
}

fn is_declared(draft: &ComponentDraft, family: Family, word: &[u8]) -> bool
    ensures { result ≡ spec.is_declared draft.now family word.now }
{
    match family {
        Family::Array => array_number(draft, word).is_some(),
        Family::Lock => lock_number(draft, word).is_some(),
        Family::Label(_) => find_label(open_labels(&draft.begun), word).is_some(),
        Family::Operation => false,
    }
}

/// The first declared name of a family.
fn first_of(draft: &ComponentDraft, family: Family) -> Option<&[u8]>
    ensures { text_if result ≡ spec.first_of draft.now family }
{
    match family {
        Family::Array => Some(draft.arrays.first()?.name.as_bytes()),
        Family::Lock => Some(draft.locks.first()?.as_bytes()),
        Family::Label(_) => Some(open_labels(&draft.begun).first()?.name.as_bytes()),
        Family::Operation => None,
    }
}

/// What an instruction of this operation names, and which of its line's words is the name, where so
/// many words stand before the instruction.
fn named_by(operation: usize, before: usize, keyword: Keyword) -> Option<(Family, usize)>
    requires { before ≤ 1 }
    ensures { result ≡ spec.named_by operation before keyword }
{
    match keyword {
        Keyword::Load | Keyword::Cas => Some((Family::Array, before + 2)),
        Keyword::Store | Keyword::Await | Keyword::AwaitNot => Some((Family::Array, before + 1)),
        Keyword::Lock | Keyword::Unlock => Some((Family::Lock, before + 1)),
        Keyword::Jump => Some((Family::Label(operation), before + 1)),
        Keyword::JumpIfZero => Some((Family::Label(operation), before + 2)),
        Keyword::Set | Keyword::Compute(_) | Keyword::Pick | Keyword::Return => None,
    }
}

fn name_of_code(operation: usize, before: usize, words: &[&[u8]]) -> Option<(Family, usize)>
    requires { before ≤ 1 }
    ensures { result ≡ spec.name_of_code operation before (texts words.now) }
{
    let (word, _) = words.split_first()?;
    named_by(operation, before, keyword_in(word)?)
}

/// The same of a line of this operation.
fn name_of_line(operation: usize, words: &[&[u8]]) -> Option<(Family, usize)>
    ensures { result ≡ spec.name_of_line operation (texts words.now) }
{
    let (word, rest) = words.split_first()?;
    if label_in(word).is_some() {
        name_of_code(operation, 1, rest)
    } else {
        name_of_code(operation, 0, words)
    }
}

/// The text with these words, each with a space after it.
///
/// # Errors
///
/// There is no memory for the words.
pub fn with_spaced_words(mut text: Vec<u8>, words: &[&[u8]]) -> Result<Vec<u8>, AllocError>
    ensures { HasItems result (text.items ++ spec.spaced (texts words.now)) }
{
    for word in words {
        text.extend_from_slice(word)?;
        text.push(b' ')?;
    }
    Ok(text)
}

/// The line of these words, with another for the one at this position.
fn line_with(
    alloc: Global,
    words: &[&[u8]],
    position: usize,
    other: &[u8],
) -> Result<Vec<u8>, AllocError>
    requires { position < length words.now }
    ensures { HasItems result (spec.line_with (texts words.now) position other.now) }
{
    let mut text = with_spaced_words(Vec::new(alloc), &words[..position])?;
    text.extend_from_slice(other)?;
    text.push(b' ')?;
    with_spaced_words(text, &words[position + 1..])
}

/// The line of these words, with a declared name for the one that it uses, where that was only
/// meant.
#[tactic(auto, using(crate::proofs::Understood::text_at))]
fn renamed(
    alloc: Global,
    draft: &FaultyDraft,
    words: &[&[u8]],
) -> Result<Option<Vec<u8>>, AllocError>
    ensures { BuildsLine result (spec.renamed draft.now (texts words.now)) }
{
    if draft.draft.begun.is_none() {
        return Ok(None);
    }
    let Some((family, position)) = name_of_line(draft.draft.operations.len(), words) else {
        return Ok(None);
    };
    let Some(word) = words.get(position) else {
        return Ok(None);
    };
    if !is_meant(&draft.meant, family, word) {
        return Ok(None);
    }
    match first_of(&draft.draft, family) {
        None => Ok(None),
        Some(other) => Ok(Some(line_with(alloc, words, position, other)?)),
    }
}

/// The line as it was meant, where it uses a name that was only meant: with a declared name of the
/// family for it.
///
/// # Errors
///
/// There is no memory for the line.
pub fn meant_line(
    alloc: Global,
    draft: &FaultyDraft,
    text: &[u8],
) -> Result<Option<Vec<u8>>, AllocError>
    ensures { BuildsLine result (spec.meant_line draft.now text.now) }
{
    if draft.meant.is_empty() {
        return Ok(None);
    }
    if !are_allowed(text) {
        return Ok(None);
    }
    let words = words_of(alloc, text)?;
    renamed(alloc, draft, &words)
}

/// The draft after one more line, and no fault; or the draft before it, and what is wrong with the
/// line. The line is read as it was meant.
///
/// # Errors
///
/// There is no memory for what the line declares.
#[tactic(auto, using(crate::proofs::Understood::faulty_going))]
pub fn read_or_fault(
    alloc: Global,
    draft: FaultyDraft,
    text: &[u8],
) -> Result<(FaultyDraft, Option<LangFaultKind>), AllocError>
    ensures { Builds result (going_on draft (faulty_grammar.line draft text.now)) }
{
    let line = meant_line(alloc, &draft, text)?;
    let FaultyDraft { mut draft, meant } = draft;
    let fault = draft.line(alloc, line.as_deref().unwrap_or(text))?;
    Ok((FaultyDraft { draft, meant }, fault))
}

/// The names with this one, where it is not declared and there is room.
fn with_name(
    alloc: Global,
    draft: &ComponentDraft,
    mut meant: Vec<MeantName>,
    family: Family,
    word: &[u8],
) -> Result<Vec<MeantName>, AllocError>
    ensures { HasItems result (spec.with_name draft.now meant.items family word.now) }
{
    if is_declared(draft, family, word) || meant.len() >= MOST_MEANT {
        return Ok(meant);
    }
    let word = Vec::from_slice(alloc, word)?;
    meant.push(MeantName { family, word })?;
    Ok(meant)
}

/// What a line of this first word declares: an array, or outside operations a lock.
fn declared_by(draft: &ComponentDraft, first: &[u8]) -> Option<Family>
    ensures { result ≡ spec.declared_by draft.now first.now }
{
    if first == b"word".as_slice() {
        Some(Family::Array)
    } else if first == b"lock".as_slice() && draft.begun.is_none() {
        Some(Family::Lock)
    } else {
        None
    }
}

/// The names with those that a line of these words was to declare, where it leaves this draft.
fn with_names(
    alloc: Global,
    draft: &ComponentDraft,
    meant: Vec<MeantName>,
    words: &[&[u8]],
) -> Result<Vec<MeantName>, AllocError>
    ensures { HasItems result (spec.with_names draft.now meant.items (texts words.now)) }
{
    let (label, words) = split_label(words);
    let meant = match label {
        Some(label) if draft.begun.is_some() => {
            let family = Family::Label(draft.operations.len());
            with_name(alloc, draft, meant, family, label)?
        }
        _ => meant,
    };
    let Some((first, rest)) = words.split_first() else {
        return Ok(meant);
    };
    match (declared_by(draft, bare(first)), rest.split_first()) {
        (Some(family), Some((name, _))) => with_name(alloc, draft, meant, family, bare(name)),
        _ => Ok(meant),
    }
}

/// How many operations are begun, the open one too.
fn operations_begun(draft: &ComponentDraft) -> usize
    ensures { result ≡ spec.operations_begun draft.now }
{
    if draft.begun.is_some() {
        draft.operations.len() + 1
    } else {
        draft.operations.len()
    }
}

/// The names with that of the open operation, where it is more than this many, which were begun
/// before the line.
fn with_operation(
    alloc: Global,
    draft: &ComponentDraft,
    meant: Vec<MeantName>,
    before: usize,
) -> Result<Vec<MeantName>, AllocError>
    ensures { HasItems result (spec.with_operation draft.now meant.items draft.now.begun before) }
{
    match &draft.begun {
        Some(op) if operations_begun(draft) != before => {
            with_name(alloc, draft, meant, Family::Operation, op.name.as_bytes())
        }
        _ => Ok(meant),
    }
}

/// The draft from which the lines after a line with a fault are read; `lines` are these.
///
/// # Errors
///
/// There is no memory for what the line leaves.
pub fn mended(
    alloc: Global,
    draft: FaultyDraft,
    text: &[u8],
    lines: &[&[u8]],
) -> Result<FaultyDraft, AllocError>
    ensures { Builds result (mend_faulty draft text.now (texts lines.now)) }
{
    let FaultyDraft { mut draft, meant } = draft;
    let before = operations_begun(&draft);
    mend_draft(alloc, &mut draft, text, lines)?;
    let words = words_of(alloc, text)?;
    let meant = with_names(alloc, &draft, meant, &words)?;
    let meant = with_operation(alloc, &draft, meant, before)?;
    Ok(FaultyDraft { draft, meant })
}
