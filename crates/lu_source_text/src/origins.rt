//! Where the instructions of a compiled source come from.

ghost use Rattle.std.specs.Prelude.{◌≡◌, ◌<◌, ◌≤◌, length, map, min, All, IfOk, IfSome, OnOk};
ghost use Rattle.lu_component.specs.declared.component.TheConstants.{MOST_INSTRS};
ghost use Rattle.lu_text.specs.Names.{IsName};
ghost use Rattle.lu_source.specs.Code.{operation_code};
ghost use Rattle.lu_source.specs.Programs.{operation_of};
ghost use Rattle.lu_source.specs.Shapes.{tree_of};
ghost use Rattle.lu_text.specs.Faults.{TellsFirst, meaning_of, meaning_of_lines, on_line};
ghost use Rattle.lu_text.specs.Lines.{lines_of, texts};
ghost use Rattle.lu_text.specs.Results.{HasItems};
ghost use Rattle.lu_source_text.specs.Drafts.{block_of, blocks_of, drafted_of, opening_of};
ghost use Rattle.lu_source_text.specs.Grammar.{source_grammar};
ghost use Rattle.lu_source_text.specs.Origins as spec;
ghost use Rattle.lu_source_text.specs.Origins.{AreOrigins, FailsAs, Fills, HasEach, IsFilled, alone_at, are_indexed, closed_at, standing_at};

use crate::closing::code_len;
use crate::draft::{Block, Draft, Opening, Shared};
use crate::fault::SourceFault;
use crate::reading::{finish, new_draft, take_line};
use lu_component::MOST_INSTRS;
use lu_source::{Operation, Origin, Origins, falls, size};
use lu_text::{Name, lines_of};
use std::alloc::{AllocError, Global};

/// How many instructions stand in front of what a block does, up to 64.
fn opening_size(opening: &Opening) -> usize
    ensures { result ≡ min (spec.opening_size (opening_of opening.now)) MOST_INSTRS }
{
    match opening {
        Opening::Whole | Opening::Turns => 0,
        Opening::Test(_) => 1,
        Opening::Other(_, first) => {
            (1 + size(first) + usize::from(falls(first))).min(MOST_INSTRS)
        }
    }
}

/// How many instructions open blocks make so far, up to 64.
fn size_so_far(blocks: &[Block]) -> usize
    ensures { result ≡ min (spec.size_so_far (blocks_of blocks.now)) MOST_INSTRS }
{
    match blocks {
        [] => 0,
        [outer, inner @ ..] => {
            let len = opening_size(&outer.opening) + size(&outer.does);
            (len + size_so_far(inner)).min(MOST_INSTRS)
        }
    }
}

fn copied(alloc: Global, names: &[Name]) -> Result<Vec<Name>, AllocError>
    requires { All IsName names.now }
    ensures { HasItems result names.now }
{
    let mut copies = Vec::new(alloc);
    for name in names {
        copies.push(Name::new(alloc, name.as_bytes())?)?;
    }
    Ok(copies)
}

/// Adds entries of this line until there are this many.
fn fill(
    alloc: Global,
    row: &mut Vec<Origin>,
    line: usize,
    len: usize,
    locals: &[Name],
) -> Result<(), AllocError>
    requires { All IsName locals.now }
    ensures { OnOk result (IsFilled line (len, locals.now) row.old.items row.new.items) }
{
    while row.len() < len {
        let locals = copied(alloc, locals)?;
        row.push(Origin { line, locals })?;
    }
    Ok(())
}

/// Adds the missing entries of one operation.
fn fill_at(
    alloc: Global,
    rows: &mut Vec<Vec<Origin>>,
    number: usize,
    line: usize,
    len: usize,
    locals: &[Name],
) -> Result<(), AllocError>
    requires few { number ≤ length rows.old.items }
    requires named { All IsName locals.now }
    ensures filled { Fills result line (alone_at number (len, locals.now)) rows.old rows.new }
    ensures there { OnOk result (number < length rows.new.items) }
{
    if number < rows.len() {
        fill(alloc, &mut rows[number], line, len, locals)
    } else {
        let mut row = Vec::new(alloc);
        fill(alloc, &mut row, line, len, locals)?;
        rows.push(row)?;
        Ok(())
    }
}

/// Adds the missing entries of closed operations.
fn fill_closed(
    alloc: Global,
    rows: &mut Vec<Vec<Origin>>,
    line: usize,
    closed: &[Operation],
) -> Result<(), AllocError>
    ensures filled { Fills result line
        (closed_at (map operation_of closed.now)) rows.old rows.new }
    ensures there { OnOk result (length closed.now ≤ length rows.new.items) }
{
    for (number, operation) in closed.iter().enumerate() {
        let len = code_len(&operation.body).min(MOST_INSTRS);
        fill_at(alloc, rows, number, line, len, &[])?;
    }
    Ok(())
}

/// Adds the entries that are missing after this line.
fn fill_all(
    alloc: Global,
    rows: &mut Vec<Vec<Origin>>,
    line: usize,
    draft: &Draft,
) -> Result<(), AllocError>
    requires { IfSome draft.now.begun (λ b. All IsName b.locals.items) }
    ensures { Fills result line (standing_at (drafted_of draft.now)) rows.old rows.new }
{
    fill_closed(alloc, rows, line, &draft.operations)?;
    match &draft.begun {
        None => Ok(()),
        Some(begun) => {
            let len = size_so_far(&begun.blocks);
            fill_at(
                alloc,
                rows,
                draft.operations.len(),
                line,
                len,
                &begun.locals,
            )
        }
    }
}

/// Of each shared word, whether it is written with an index.
fn indexed_of(alloc: Global, words: &[Shared]) -> Result<Vec<bool>, AllocError>
    ensures { HasItems result (map (λ w. w.indexed) words.now) }
{
    words.iter().map(|word| word.indexed).collect(alloc)
}

/// These origins, where the text may end here.
fn origins_of(
    alloc: Global,
    line: usize,
    draft: Draft,
    operations: Vec<Vec<Origin>>,
) -> Result<Origins, SourceFault>
    ensures operations { IfOk result (λ o. o.operations.items ≡ operations.items) }
    ensures indexed { IfOk result (λ o. o.indexed.items ≡ are_indexed (drafted_of draft)) }
    ensures fault { FailsAs result (on_line line (source_grammar.finish (drafted_of draft))) }
{
    let indexed = indexed_of(alloc, &draft.words)?;
    let _source = finish(alloc, line, draft)?;
    Ok(Origins {
        operations,
        indexed,
    })
}

fn origins_of_lines(alloc: Global, lines: &[&[u8]]) -> Result<Origins, SourceFault>
    ensures origins { IfOk result (λ origins. AreOrigins (texts lines.now) origins) }
    ensures each { IfOk result (λ origins. HasEach (texts lines.now) origins) }
    ensures fault { FailsAs result (meaning_of_lines source_grammar (texts lines.now)) }
{
    let mut draft = new_draft(alloc);
    let mut operations = Vec::new(alloc);
    for (before, text) in lines.iter().enumerate() {
        take_line(alloc, before + 1, &mut draft, text)?;
        fill_all(alloc, &mut operations, before + 1, &draft)?;
    }
    origins_of(alloc, lines.len() + 1, draft, operations)
}

/// Where the instructions of the component come from that a source's text is compiled to
/// (`compile_text`). An instruction comes from the first line after which its operation has it;
/// in scope are the locals after that line, and none where it closes the operation.
///
/// A fault is that of `compile_text`.
///
/// # Errors
///
/// The first fault of the text, or that there is no memory for the origins.
pub fn source_origins(alloc: Global, text: &[u8]) -> Result<Origins, SourceFault>
    // Of each operation, each instruction; and of each shared word, whether it has an index.
    ensures origins { IfOk result (λ origins. AreOrigins (lines_of text.now) origins) }
    // No instruction of the component is left out.
    ensures each { IfOk result (λ origins. HasEach (lines_of text.now) origins) }
    // Which fault; and none where the text has none.
    ensures fault { FailsAs result (meaning_of source_grammar text.now) }
    // No line before the fault's has one.
    ensures first { TellsFirst source_grammar text.now result }
{
    let lines = lines_of(alloc, text)?;
    origins_of_lines(alloc, &lines)
}
