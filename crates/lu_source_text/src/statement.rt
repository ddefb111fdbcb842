//! Reading of the lines of an operation.

ghost use Rattle.std.specs.Prelude.{◌≡◌, ◌<◌, length, IfOk};
ghost use Rattle.lu_text.specs.Lines.{texts};
ghost use Rattle.lu_source.specs.Shapes.{tree_of};
ghost use Rattle.lu_source_text.specs.Drafts.{begun_of, opening_of};
ghost use Rattle.lu_source_text.specs.Grammar as spec;
ghost use Rattle.lu_source_text.specs.Reads.{Becomes, ReadsLine, ReadsTest, ReadsTree, in_begun};

use crate::blocks::{does_too, pop_block, push_block};
use crate::declaration::{new_name, open_block};
use crate::draft::{Begun, Draft, Opening};
use crate::expression::{first_word, last_word};
use crate::fault::{Refusal, SourceFaultKind};
use crate::simple::{as_test, assigned_in, expr_before_brace, set_local, simple, value_of};
use lu_component::Operand;
use lu_source::{Expr, REGISTERS, Stmt};
use std::alloc::Global;

/// The innermost block does this too.
fn add(alloc: Global, begun: &mut Begun, stmt: Stmt) -> Result<(), Refusal>
    ensures { Becomes result begun.old begun.new (λ b. spec.added b (tree_of stmt)) }
{
    let Some(block) = pop_block(&mut begun.blocks) else {
        return Err(Refusal::Kind(SourceFaultKind::Flow));
    };
    let block = does_too(alloc, block, stmt)?;
    push_block(&mut begun.blocks, block)?;
    Ok(())
}

/// The most blocks that are open at a time.
const MOST_BLOCKS: usize = 16;

/// One block more, with what opened it.
fn deeper(begun: &mut Begun, opening: Opening, chained: bool) -> Result<(), Refusal>
    ensures { Becomes result begun.old begun.new
        (λ b. spec.deeper b (opening_of opening) chained) }
{
    if begun.blocks.len() >= MOST_BLOCKS {
        return Err(Refusal::Kind(SourceFaultKind::Limit));
    }
    let block = open_block(opening, begun.locals.len(), chained);
    push_block(&mut begun.blocks, block)?;
    Ok(())
}

/// The statement that gives a new local its value, by `= EXPR`, where there is a register for it.
fn first_value(
    alloc: Global,
    draft: &Draft,
    begun: &Begun,
    words: &[&[u8]],
) -> Result<Stmt, Refusal>
    ensures read { ReadsTree result (in_begun spec.first_value draft.now begun.now words.now) }
    ensures room { IfOk result (λ _. length begun.now.locals.items < REGISTERS) }
{
    let expr = assigned_in(alloc, draft, begun, words)?;
    if begun.locals.len() >= REGISTERS as usize {
        return Err(Refusal::Kind(SourceFaultKind::Registers));
    }
    set_local(alloc, begun, begun.locals.len() as u8, &expr)
}

/// `let NAME = EXPR`: a local more.
fn let_line(alloc: Global, draft: &Draft, begun: &mut Begun, words: &[&[u8]]) -> Result<(), Refusal>
    ensures { ReadsLine result spec.let_line draft.now words.now begun.old begun.new }
{
    let (word, rest) = first_word(words)?;
    let name = new_name(alloc, draft, &begun.locals, word)?;
    let stmt = first_value(alloc, draft, begun, rest)?;
    add(alloc, begun, stmt)?;
    begun.locals.push(name)?;
    Ok(())
}

/// What is tested by an expression.
fn tested(alloc: Global, begun: &mut Begun, expr: Expr) -> Result<Operand, Refusal>
    ensures { ReadsTest result begun.old begun.new expr }
{
    let test = as_test(expr);
    let value = value_of(alloc, begun, &test)?;
    add(alloc, begun, value.code)?;
    Ok(value.at)
}

/// `if EXPR {`
pub(crate) fn if_line(
    alloc: Global,
    draft: &Draft,
    begun: &mut Begun,
    chained: bool,
    words: &[&[u8]],
) -> Result<(), Refusal>
    ensures { ReadsLine result (spec.if_line chained) draft.now words.now begun.old begun.new }
{
    let expr = expr_before_brace(alloc, draft, begun, words)?;
    let value = tested(alloc, begun, expr)?;
    deeper(begun, Opening::Test(value), chained)
}

/// `while EXPR {`, after what a jump back leads to.
fn while_line(
    alloc: Global,
    draft: &Draft,
    begun: &mut Begun,
    words: &[&[u8]],
) -> Result<(), Refusal>
    ensures { ReadsLine result spec.while_line draft.now words.now begun.old begun.new }
{
    add(alloc, begun, Stmt::Nothing)?;
    let expr = expr_before_brace(alloc, draft, begun, words)?;
    deeper(begun, Opening::Turns, false)?;
    let value = tested(alloc, begun, expr)?;
    add(alloc, begun, Stmt::BreakUnless(value))
}

/// `loop {`, after what a jump back leads to.
fn loop_line(alloc: Global, begun: &mut Begun, words: &[&[u8]]) -> Result<(), Refusal>
    ensures { Becomes result begun.old begun.new (λ b. spec.loop_line b (texts words.now)) }
{
    add(alloc, begun, Stmt::Nothing)?;
    last_word(b"{".as_slice(), words)?;
    deeper(begun, Opening::Turns, false)
}

/// A line of an operation that closes no block.
pub(crate) fn statement(
    alloc: Global,
    draft: &Draft,
    begun: &mut Begun,
    word: &[u8],
    words: &[&[u8]],
) -> Result<(), Refusal>
    ensures { ReadsLine result
        (spec.statement word.now) draft.now words.now begun.old begun.new }
{
    if word == b"let".as_slice() {
        let_line(alloc, draft, begun, words)
    } else if word == b"if".as_slice() {
        if_line(alloc, draft, begun, false, words)
    } else if word == b"while".as_slice() {
        while_line(alloc, draft, begun, words)
    } else if word == b"loop".as_slice() {
        loop_line(alloc, begun, words)
    } else {
        let stmt = simple(alloc, draft, begun, word, words)?;
        add(alloc, begun, stmt)
    }
}
