//! Reading of sources, line by line.

ghost use Rattle.std.specs.Prelude.{◌≡◌, ◌<◌, ◌≤◌, map, Ok, IfOk};
ghost use Rattle.lu_text.specs.Faults.{Gives, TellsFirst, meaning_of, meaning_of_lines, on_line};
ghost use Rattle.lu_text.specs.Lines.{texts};
ghost use Rattle.lu_text.specs.Results.{HasItems};
ghost use Rattle.lu_source_text.specs.Drafts.{drafted_of};
ghost use Rattle.lu_source_text.specs.Grammar as spec;
ghost use Rattle.lu_source_text.specs.Grammar.{source_grammar};
ghost use Rattle.lu_source_text.specs.Readers.{GivesDraft, GivesSource, IsCompiledFrom, component_meant};
ghost use Rattle.lu_source_text.specs.Reads.{DraftIs, DraftTakes, in_draft, in_line};
ghost use Rattle.lu_source_text.specs.Statements.{lists};

use crate::closing::close_line;
use crate::constants::Constants;
use crate::declaration::{declaration, object_line};
use crate::depth::{MOST_NESTING, nesting};
use crate::draft::{Begun, Draft};
use crate::fault::{Refusal, SourceFault, SourceFaultKind};
use crate::source::Source;
use crate::statement::statement;
use crate::words::{source_words, statements_of};
use lu_component::{Array, Component};
use lu_source::compile;
use lu_text::{Fault, are_allowed, lines_of};
use std::alloc::{AllocError, Global};

/// The most statements that an operation has, each `}` counted.
const MOST_STATEMENTS: u16 = 256;

/// The most words that a line has.
const MOST_WORDS: usize = 256;

/// Nothing is declared yet.
pub(crate) fn new_draft(alloc: Global) -> Draft
    ensures { drafted_of result ≡ spec.nothing }
{
    Draft {
        name: None,
        local: None,
        constants: Constants::new(alloc),
        words: Vec::new(alloc),
        locks: Vec::new(alloc),
        operations: Vec::new(alloc),
        begun: None,
    }
}

/// A statement of an operation, which has at most 256 of them, each `}` counted.
fn inside(
    alloc: Global,
    draft: &mut Draft,
    mut begun: Begun,
    word: &[u8],
    words: &[&[u8]],
) -> Result<(), Refusal>
    ensures { DraftTakes result (spec.inside word.now) draft.old begun words.now draft.new }
{
    if begun.lines >= MOST_STATEMENTS {
        return Err(Refusal::Kind(SourceFaultKind::Limit));
    }
    begun.lines += 1;
    if word == b"}".as_slice() {
        return close_line(alloc, draft, begun, words);
    }
    statement(alloc, draft, &mut begun, word, words)?;
    draft.begun = Some(begun);
    Ok(())
}

/// A line with words: the first is the `object` line. Then come declarations, and in an open
/// operation statements.
fn worded_line(
    alloc: Global,
    draft: &mut Draft,
    word: &[u8],
    words: &[&[u8]],
) -> Result<(), Refusal>
    ensures { DraftIs result draft.new (in_line spec.worded_line draft.old word.now words.now) }
{
    if draft.name.is_none() {
        if word == b"object".as_slice() {
            return object_line(alloc, draft, words);
        }
        return Err(Refusal::Kind(SourceFaultKind::Missing));
    }
    match draft.begun.take() {
        None => declaration(alloc, draft, word, words),
        Some(begun) => inside(alloc, draft, begun, word, words),
    }
}

/// Whether a line has more words, or more operators, `(` and `[`, than it may have.
fn is_too_long(words: &[&[u8]]) -> bool
    ensures { result ≡ spec.is_too_long (texts words.now) }
{
    words.len() > MOST_WORDS || nesting(words) > MOST_NESTING
}

/// A statement, which may have no words.
fn read_statement(alloc: Global, draft: &mut Draft, words: &[&[u8]]) -> Result<(), Refusal>
    ensures { DraftIs result draft.new (in_draft spec.by_words draft.old words.now) }
{
    match words.split_first() {
        None => Ok(()),
        Some((word, rest)) => worded_line(alloc, draft, word, rest),
    }
}

/// One statement after the other.
fn read_statements(
    alloc: Global,
    draft: &mut Draft,
    statements: &[Vec<&[u8]>],
) -> Result<(), Refusal>
    ensures { DraftIs result draft.new
        (spec.by_statements (drafted_of draft.old) (lists statements.now)) }
{
    let Some((first, rest)) = statements.split_first() else {
        return Ok(());
    };
    read_statement(alloc, draft, first)?;
    read_statements(alloc, draft, rest)
}

#[tactic(auto, unfolding(crate::specs::Grammar::line_of))]
fn read_line(alloc: Global, draft: &mut Draft, text: &[u8]) -> Result<(), Refusal>
    ensures { DraftIs result draft.new (spec.line_of (drafted_of draft.old) text.now) }
{
    if !are_allowed(text) {
        return Err(Refusal::Kind(SourceFaultKind::Byte));
    }
    let words = source_words(alloc, text)?;
    if is_too_long(&words) {
        return Err(Refusal::Kind(SourceFaultKind::Limit));
    }
    let statements = statements_of(alloc, &words)?;
    read_statements(alloc, draft, &statements)
}

/// The draft takes in a line; a fault has the line's number.
pub(crate) fn take_line(
    alloc: Global,
    line: usize,
    draft: &mut Draft,
    text: &[u8],
) -> Result<(), SourceFault>
    ensures { GivesDraft line result draft.new (spec.line_of (drafted_of draft.old) text.now) }
{
    match read_line(alloc, draft, text) {
        Ok(()) => Ok(()),
        Err(Refusal::Kind(kind)) => Err(Fault::At(kind, line)),
        Err(Refusal::Memory) => Err(Fault::Memory),
    }
}

/// What is declared at the end of the text.
pub(crate) fn finish(alloc: Global, line: usize, draft: Draft) -> Result<Source, SourceFault>
    ensures { GivesSource result (on_line line (source_grammar.finish (drafted_of draft))) }
{
    let Draft {
        name,
        local,
        words,
        locks,
        operations,
        begun,
        ..
    } = draft;
    let (Some(name), None) = (name, begun) else {
        return Err(Fault::At(SourceFaultKind::Missing, line));
    };
    Ok(Source {
        name,
        local: local.unwrap_or(16),
        arrays: words.into_iter().map(|word| word.array).collect(alloc)?,
        locks,
        operations,
    })
}

/// Reads a source from its lines, without their LFs.
///
/// A fault is the first one by line, and on a line the first from left to right. One at the end
/// carries the number of lines plus one.
///
/// # Errors
///
/// The first fault of the lines, or that there is no memory for the source.
pub fn read_source_lines(alloc: Global, lines: &[&[u8]]) -> Result<Source, SourceFault>
    ensures { GivesSource result (meaning_of_lines source_grammar (texts lines.now)) }
{
    let mut draft = new_draft(alloc);
    for (before, text) in lines.iter().enumerate() {
        take_line(alloc, before + 1, &mut draft, text)?;
    }
    finish(alloc, lines.len() + 1, draft)
}

/// Reads a source from its text.
///
/// A fault is the first one of the text by line, and on a line the first from left to right. One at
/// the end of the text carries the number of lines plus one.
///
/// # Errors
///
/// The first fault of the text, or that there is no memory for the source.
pub fn read_source(alloc: Global, text: &[u8]) -> Result<Source, SourceFault>
    // Which source, or which fault.
    ensures { GivesSource result (meaning_of source_grammar text.now) }
{
    let lines = lines_of(alloc, text)?;
    read_source_lines(alloc, &lines)
}

/// The component that a source's text is compiled to. It does as the source: of each matrix, the
/// schedules of the one are those of the other, with the same histories.
///
/// A fault is the first one of the text by line, and on a line the first from left to right. One at
/// the end of the text carries the number of lines plus one.
///
/// # Errors
///
/// The first fault of the text, or that there is no memory for the component.
pub fn compile_text(alloc: Global, text: &[u8]) -> Result<Component, SourceFault>
    // The component of the source that the text spells, which does as that source.
    ensures read { IfOk result (λ c. IsCompiledFrom text.now c) }
    // Which component, or which fault.
    ensures exact { Gives result (component_meant text.now) }
    // No line before the fault's has one.
    ensures first { TellsFirst source_grammar text.now result }
{
    let source = read_source(alloc, text)?;
    let component = compile(
        alloc,
        source.name,
        source.local,
        source.arrays,
        source.locks,
        &source.operations,
    )?;
    Ok(component)
}
