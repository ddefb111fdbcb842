//! The open blocks of an operation, the innermost last.

ghost use Rattle.std.specs.Prelude.{◌≡◌, ◌<◌, length, IfOk, IfSome, Ok};
ghost use Rattle.lu_source.specs.Shapes.{tree_of};
ghost use Rattle.lu_source_text.specs.Drafts.{block_of, opening_of};
ghost use Rattle.lu_source_text.specs.Grammar as spec;
ghost use Rattle.lu_source_text.specs.Reads.{BlocksBecome, HasInside, ReadsBlock, ReadsTree, TakesInnermost};

use crate::draft::{Block, Opening};
use crate::fault::{Refusal, SourceFaultKind};
use lu_source::{Stmt, falls, then};
use std::alloc::{AllocError, Global};

/// One block more, inside of the others.
pub(crate) fn push_block(blocks: &mut Vec<Block>, block: Block) -> Result<(), AllocError>
    ensures { IfOk result (λ _. HasInside blocks.new block blocks.old) }
{
    blocks.push(block)?;
    Ok(())
}

/// The innermost block, which is taken out.
pub(crate) fn pop_block(blocks: &mut Vec<Block>) -> Option<Block>
    ensures taken { TakesInnermost result blocks.old blocks.new }
    ensures fewer { IfSome result (λ _. length blocks.new.items < length blocks.old.items) }
{
    blocks.pop()
}

/// The block does this too.
pub(crate) fn does_too(alloc: Global, block: Block, stmt: Stmt) -> Result<Block, Refusal>
    ensures { ReadsBlock result (spec.does_too (block_of block) (tree_of stmt)) }
{
    if !falls(&block.does) {
        return Err(Refusal::Kind(SourceFaultKind::Flow));
    }
    let does = then(alloc, block.does, stmt)?;
    Ok(Block { does, ..block })
}

/// What a block does that a `}` closes, after which nothing else stands.
pub(crate) fn closed_by(alloc: Global, opening: Opening, does: Stmt) -> Result<Stmt, Refusal>
    ensures { ReadsTree result (Ok (spec.closed_by (opening_of opening) (tree_of does))) }
{
    match opening {
        Opening::Whole => Ok(does),
        Opening::Test(value) => Ok(Stmt::If(value, Box::new(alloc, does)?)),
        Opening::Other(value, first) => {
            let first = Box::new(alloc, first)?;
            Ok(Stmt::IfElse(value, first, Box::new(alloc, does)?))
        }
        Opening::Turns => Ok(Stmt::Loop(Box::new(alloc, does)?)),
    }
}

/// The block around does this too, which a block in it did; and it is closed itself where that
/// block closes it.
pub(crate) fn close_into(
    alloc: Global,
    blocks: &mut Vec<Block>,
    stmt: Stmt,
    both: bool,
) -> Result<(), Refusal>
    ensures { BlocksBecome result blocks.old blocks.new (spec.closing (tree_of stmt) both) }
{
    let Some(block) = pop_block(blocks) else {
        return Err(Refusal::Kind(SourceFaultKind::Flow));
    };
    let now = does_too(alloc, block, stmt)?;
    if both {
        let chained = now.chained;
        let whole = closed_by(alloc, now.opening, now.does)?;
        close_into(alloc, blocks, whole, chained)
    } else {
        push_block(blocks, now)?;
        Ok(())
    }
}
