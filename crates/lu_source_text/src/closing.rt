//! Reading of the lines that close a block.

ghost use Rattle.std.specs.Prelude.{◌≡◌, length, min};
ghost use Rattle.lu_source.specs.Code.{operation_code};
ghost use Rattle.lu_source.specs.Shapes.{tree_of};
ghost use Rattle.lu_source_text.specs.Drafts.{block_of};
ghost use Rattle.lu_source_text.specs.Grammar as spec;
ghost use Rattle.lu_source_text.specs.Reads.{Becomes, DraftIs, DraftTakes, ReadsLine, within};

use crate::blocks::{close_into, closed_by, pop_block, push_block};
use crate::declaration::open_block;
use crate::draft::{Begun, Block, Draft, Opening};
use crate::expression::{first_word, nothing_left};
use crate::fault::{Refusal, SourceFaultKind};
use crate::statement::if_line;
use lu_component::MOST_INSTRS;
use lu_source::{Operation, Stmt, comes_out, size};
use std::alloc::Global;

/// How many instructions the statement has as an operation, up to 65.
pub(crate) fn code_len(body: &Stmt) -> usize
    ensures { result ≡ min (length (operation_code (tree_of body.now))) 65 }
{
    (size(body) + usize::from(comes_out(body))).min(MOST_INSTRS + 1)
}

/// The operation is there, where it has at most 64 instructions.
fn whole_line(draft: &mut Draft, begun: Begun, body: Stmt) -> Result<(), Refusal>
    ensures { DraftIs result draft.new (within draft.old begun spec.whole_line (tree_of body)) }
{
    if code_len(&body) > MOST_INSTRS {
        return Err(Refusal::Kind(SourceFaultKind::Limit));
    }
    draft.operations.push(Operation {
        name: begun.name,
        args: begun.args,
        body,
    })?;
    draft.begun = None;
    Ok(())
}

/// `}`: a block ends, and with it its locals; the blocks around do what it did.
fn end_line(alloc: Global, draft: &mut Draft, mut begun: Begun, block: Block) -> Result<(), Refusal>
    ensures { DraftIs result draft.new (within draft.old begun spec.end_line (block_of block)) }
{
    if matches!(block.opening, Opening::Whole) {
        return whole_line(draft, begun, block.does);
    }
    begun.locals.truncate(block.locals);
    let whole = closed_by(alloc, block.opening, block.does)?;
    close_into(alloc, &mut begun.blocks, whole, block.chained)?;
    draft.begun = Some(begun);
    Ok(())
}

/// The other side of the test of a block, where it was opened by one.
fn other_side(begun: &mut Begun, block: Block) -> Result<(), Refusal>
    ensures { Becomes result begun.old begun.new (λ b. spec.other_side b (block_of block)) }
{
    let Opening::Test(value) = block.opening else {
        return Err(Refusal::Kind(SourceFaultKind::Form));
    };
    begun.locals.truncate(block.locals);
    let other = Opening::Other(value, block.does);
    push_block(
        &mut begun.blocks,
        open_block(other, block.locals, block.chained),
    )?;
    Ok(())
}

/// `{` and `if EXPR {`, after `} else`.
fn else_line(
    alloc: Global,
    draft: &Draft,
    begun: &mut Begun,
    words: &[&[u8]],
) -> Result<(), Refusal>
    ensures { ReadsLine result spec.else_line draft.now words.now begun.old begun.new }
{
    let (word, rest) = first_word(words)?;
    if word == b"{".as_slice() {
        nothing_left(rest)
    } else if word == b"if".as_slice() {
        if_line(alloc, draft, begun, true, rest)
    } else {
        Err(Refusal::Kind(SourceFaultKind::Form))
    }
}

/// A line that begins with `}`, and the words after it.
pub(crate) fn close_line(
    alloc: Global,
    draft: &mut Draft,
    mut begun: Begun,
    words: &[&[u8]],
) -> Result<(), Refusal>
    ensures { DraftTakes result spec.close_line draft.old begun words.now draft.new }
{
    let Some(block) = pop_block(&mut begun.blocks) else {
        return Err(Refusal::Kind(SourceFaultKind::Flow));
    };
    let Some((word, rest)) = words.split_first() else {
        return end_line(alloc, draft, begun, block);
    };
    if *word != b"else".as_slice() {
        return Err(Refusal::Kind(SourceFaultKind::Form));
    }
    other_side(&mut begun, block)?;
    else_line(alloc, draft, &mut begun, rest)?;
    draft.begun = Some(begun);
    Ok(())
}
