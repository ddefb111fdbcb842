//! Reading of statements that open no block and declare no local.

ghost use Rattle.std.specs.Prelude.{◌≡◌, ◌<◌, ◌≤◌, IfOk};
ghost use Rattle.std.specs.List.{list_any};
ghost use Rattle.lu_text.specs.Lines.{texts};
ghost use Rattle.lu_source.specs.Evaluations.{coded_of, expr_of};
ghost use Rattle.lu_source.specs.Expressions as expressions;
ghost use Rattle.lu_source.specs.Shapes.{tree_of};
ghost use Rattle.lu_source_text.specs.Drafts.{begun_of, blocks_of, drafted_of, opening_of};
ghost use Rattle.lu_source_text.specs.Grammar as spec;
ghost use Rattle.lu_source_text.specs.Reads.{Reads, ReadsBoth, ReadsCell, ReadsChanged, ReadsCode, ReadsCompared, ReadsTree, ReadsWhole, cell_of, in_begun, meanings, within, on_cell};

use crate::draft::{Begun, Block, Draft, Opening};
use crate::expression::{
    after_word, call_with, cell_with, expr_from, first_word, last_word, local_in, nothing_left,
};
use crate::fault::{Refusal, SourceFaultKind};
use crate::names::{is_free_name, position_from};
use crate::scope::{Cell, Scope};
use crate::updates::{CellCall, call_in};
use lu_component::Operand;
use lu_source::{Action, Evaluation, Expr, Operator, Stmt, coded, past, put, then};
use lu_text::exactly_one;
use std::alloc::{AllocError, Global};

/// What names mean in an open operation.
fn scope_of<'a>(draft: &'a Draft, begun: &'a Begun) -> Scope<'a>
    ensures { meanings result ≡ within draft.now begun.now spec.scope_of }
{
    Scope {
        constants: &draft.constants,
        words: &draft.words,
        locals: &begun.locals,
    }
}

/// An expression that all the words are.
pub(crate) fn expr_in(
    alloc: Global,
    draft: &Draft,
    begun: &Begun,
    words: &[&[u8]],
) -> Result<Expr, Refusal>
    ensures { ReadsWhole result (in_begun spec.expr_in draft.now begun.now words.now) }
{
    let scope = scope_of(draft, begun);
    let (expr, rest) = expr_from(alloc, words.len() + 2, scope, 1, words)?;
    nothing_left(rest)?;
    Ok(expr)
}

/// An expression in front of `{`, which is the last word.
pub(crate) fn expr_before_brace(
    alloc: Global,
    draft: &Draft,
    begun: &Begun,
    words: &[&[u8]],
) -> Result<Expr, Refusal>
    ensures { ReadsWhole result (in_begun spec.expr_before_brace draft.now begun.now words.now) }
{
    let scope = scope_of(draft, begun);
    let (expr, rest) = expr_from(alloc, words.len() + 2, scope, 1, words)?;
    last_word(b"{".as_slice(), rest)?;
    Ok(expr)
}

/// A cell of a shared word, and the words after it.
fn cell_in<'a>(
    alloc: Global,
    draft: &Draft,
    begun: &Begun,
    word: &[u8],
    words: &'a [&'a [u8]],
) -> Result<(Cell, &'a [&'a [u8]]), Refusal>
    ensures { ReadsCell result (in_begun (spec.cell_in word.now) draft.now begun.now words.now) }
{
    let scope = scope_of(draft, begun);
    cell_with(alloc, words.len() + 2, scope, word, words)
}

/// An expression's code, where there are registers enough.
fn code_for(alloc: Global, expr: &Expr, to: u8, free: u8) -> Result<Evaluation, Refusal>
    ensures { ReadsCode result (spec.code_for (expr_of expr.now) to free) }
{
    coded(alloc, expr, to, free)?.ok_or(Refusal::Kind(SourceFaultKind::Registers))
}

/// The same after the locals.
pub(crate) fn value_of(alloc: Global, begun: &Begun, expr: &Expr) -> Result<Evaluation, Refusal>
    ensures { ReadsCode result (spec.value_of (begun_of begun.now) (expr_of expr.now)) }
{
    let free = begun.locals.len() as u8;
    code_for(alloc, expr, free, free)
}

/// The same after the locals and a value.
fn value_after(
    alloc: Global,
    begun: &Begun,
    at: Operand,
    expr: &Expr,
) -> Result<Evaluation, Refusal>
    ensures { ReadsCode result (spec.value_after (begun_of begun.now) at (expr_of expr.now)) }
{
    let free = past(begun.locals.len() as u8, at);
    code_for(alloc, expr, free, free)
}

/// The code of an index, and of a value after it.
fn both_of(
    alloc: Global,
    begun: &Begun,
    index: &Expr,
    expr: &Expr,
) -> Result<(Evaluation, Evaluation), Refusal>
    ensures { ReadsBoth result begun.now index.now expr.now }
{
    let first = value_of(alloc, begun, index)?;
    let second = value_after(alloc, begun, first.at, expr)?;
    Ok((first, second))
}

/// The codes, and then the action.
fn both_then(alloc: Global, first: Stmt, second: Stmt, last: Action) -> Result<Stmt, AllocError>
    ensures { IfOk result
        (λ t. tree_of t ≡ spec.both_then (tree_of first) (tree_of second) last) }
{
    let rest = then(alloc, second, Stmt::Plain(last))?;
    then(alloc, first, rest)
}

/// `= EXPR`, which all the words are.
pub(crate) fn assigned_in(
    alloc: Global,
    draft: &Draft,
    begun: &Begun,
    words: &[&[u8]],
) -> Result<Expr, Refusal>
    ensures { ReadsWhole result (in_begun spec.assigned_in draft.now begun.now words.now) }
{
    let more = after_word(b"=".as_slice(), words)?;
    expr_in(alloc, draft, begun, more)
}

/// The local becomes the value of the expression.
pub(crate) fn set_local(
    alloc: Global,
    begun: &Begun,
    register: u8,
    expr: &Expr,
) -> Result<Stmt, Refusal>
    ensures { ReadsTree result (spec.set_local register (begun_of begun.now) (expr_of expr.now)) }
{
    let value = code_for(alloc, expr, register, begun.locals.len() as u8)?;
    Ok(then(alloc, value.code, put(register, value.at))?)
}

/// The operator by which a word changes a value, besides `=`; none where it is `=`.
fn changing(word: &[u8]) -> Result<Option<Operator>, Refusal>
    ensures { Reads (λ by. by) result (spec.changing word.now) }
{
    if word == b"=".as_slice() {
        Ok(None)
    } else if word == b"+=".as_slice() {
        Ok(Some(Operator::Plus))
    } else if word == b"-=".as_slice() {
        Ok(Some(Operator::Minus))
    } else {
        Err(Refusal::Kind(SourceFaultKind::Form))
    }
}

/// `= EXPR`, `+= EXPR` or `-= EXPR`, which all the words are.
fn changed_in(
    alloc: Global,
    draft: &Draft,
    begun: &Begun,
    words: &[&[u8]],
) -> Result<(Option<Operator>, Expr), Refusal>
    ensures { ReadsChanged result (in_begun spec.changed_in draft.now begun.now words.now) }
{
    let (word, rest) = first_word(words)?;
    let by = changing(word)?;
    let expr = expr_in(alloc, draft, begun, rest)?;
    Ok((by, expr))
}

/// What a value becomes by an expression: that, or what the operator makes of it and that.
fn changed(alloc: Global, by: Option<Operator>, old: Expr, expr: Expr) -> Result<Expr, AllocError>
    ensures { IfOk result
        (λ e. expr_of e ≡ spec.changed by (expr_of old) (expr_of expr)) }
{
    match by {
        None => Ok(expr),
        Some(operator) => {
            let old = Box::new(alloc, old)?;
            Ok(Expr::Binary(operator, old, Box::new(alloc, expr)?))
        }
    }
}

/// The expression that stands for a value.
fn expr_at(at: Operand) -> Expr
    ensures { expr_of result ≡ spec.expr_at at }
{
    match at {
        Operand::Reg(register) => Expr::Local(register),
        Operand::Num(number) => Expr::Number(number),
    }
}

/// The cell becomes the value of the expression, or what the operator makes of its value and that,
/// by a load and a store. Its index is evaluated once.
fn set_cell(
    alloc: Global,
    begun: &Begun,
    by: Option<Operator>,
    cell: &Cell,
    expr: Expr,
) -> Result<Stmt, Refusal>
    ensures { ReadsTree result
        (spec.set_cell by (begun_of begun.now) (cell_of cell.now) (expr_of expr)) }
{
    let index = value_of(alloc, begun, &cell.index)?;
    let old = Expr::Read(cell.array, Box::new(alloc, expr_at(index.at))?);
    let new = changed(alloc, by, old, expr)?;
    let value = value_after(alloc, begun, index.at, &new)?;
    let action = Action::Store {
        array: cell.array,
        index: index.at,
        value: value.at,
    };
    Ok(both_then(alloc, index.code, value.code, action)?)
}

/// Neither reads what is shared nor changes it.
fn is_still(expr: &Expr) -> bool
    ensures { result ≡ spec.is_still (expr_of expr.now) }
{
    match expr {
        Expr::Number(_) | Expr::Local(_) => true,
        Expr::Binary(_, left, right) => is_still(left) && is_still(right),
        Expr::Not(inner) => is_still(inner),
        Expr::And(left, right) => is_still(left) && is_still(right),
        Expr::Or(left, right) => is_still(left) && is_still(right),
        Expr::Read(_, _) | Expr::Swap(_, _, _, _, _) | Expr::Fetch(_, _, _, _) | Expr::Pick(_) => {
            false
        }
    }
}

/// The action by which a cell is awaited.
fn awaiting(equal: bool, array: u8, index: Operand, value: Operand) -> Action
    ensures { result ≡ spec.awaiting equal array index value }
{
    if equal {
        Action::Await {
            array,
            index,
            value,
        }
    } else {
        Action::AwaitNot {
            array,
            index,
            value,
        }
    }
}

/// `== EXPR` or `!= EXPR` after the cell: whether it is to be equal, and what to.
fn compared(
    alloc: Global,
    draft: &Draft,
    begun: &Begun,
    words: &[&[u8]],
) -> Result<(bool, Expr), Refusal>
    ensures { ReadsCompared result (in_begun spec.compared draft.now begun.now words.now) }
{
    let (by, rest) = first_word(words)?;
    let equal = by == b"==".as_slice();
    if !equal && by != b"!=".as_slice() {
        return Err(Refusal::Kind(SourceFaultKind::Form));
    }
    Ok((equal, expr_in(alloc, draft, begun, rest)?))
}

/// A thread goes on where the cell is equal to the value, or where it is not. Neither the index nor
/// the value may read or change what is shared.
fn await_cell(
    alloc: Global,
    begun: &Begun,
    cell: &Cell,
    equal: bool,
    expr: &Expr,
) -> Result<Stmt, Refusal>
    ensures { ReadsTree result (on_cell (spec.await_cell equal) begun.now cell.now expr.now) }
{
    if !is_still(&cell.index) || !is_still(expr) {
        return Err(Refusal::Kind(SourceFaultKind::Flow));
    }
    let (index, value) = both_of(alloc, begun, &cell.index, expr)?;
    let action = awaiting(equal, cell.array, index.at, value.at);
    Ok(both_then(alloc, index.code, value.code, action)?)
}

/// `await CELL == EXPR` and `await CELL != EXPR`.
fn await_tree(alloc: Global, draft: &Draft, begun: &Begun, words: &[&[u8]]) -> Result<Stmt, Refusal>
    ensures { ReadsTree result (in_begun spec.await_tree draft.now begun.now words.now) }
{
    let (word, rest) = first_word(words)?;
    if !is_free_name(word) {
        return Err(Refusal::Kind(SourceFaultKind::Form));
    }
    let (cell, more) = cell_in(alloc, draft, begun, word, rest)?;
    let (equal, expr) = compared(alloc, draft, begun, more)?;
    await_cell(alloc, begun, &cell, equal, &expr)
}

/// Whether some open block is a loop.
fn in_loop(blocks: &[Block]) -> bool
    ensures { result ≡ list_any (λ b. spec.is_loop (opening_of b.opening)) blocks.now }
{
    blocks
        .iter()
        .any(|block| matches!(block.opening, Opening::Turns))
}

/// `break` or `continue`.
#[tactic(auto, using(crate::proofs::Innermost::any_loop))]
fn leave(begun: &Begun, stmt: Stmt, words: &[&[u8]]) -> Result<Stmt, Refusal>
    ensures { ReadsTree result (spec.leave (begun_of begun.now) (tree_of stmt) (texts words.now)) }
{
    nothing_left(words)?;
    if !in_loop(&begun.blocks) {
        return Err(Refusal::Kind(SourceFaultKind::Flow));
    }
    Ok(stmt)
}

/// `return` and `return EXPR`.
fn return_tree(
    alloc: Global,
    draft: &Draft,
    begun: &Begun,
    words: &[&[u8]],
) -> Result<Stmt, Refusal>
    ensures { ReadsTree result (in_begun spec.return_tree draft.now begun.now words.now) }
{
    if words.is_empty() {
        return Ok(Stmt::Plain(Action::Return(Operand::Num(0))));
    }
    let expr = expr_in(alloc, draft, begun, words)?;
    let value = value_of(alloc, begun, &expr)?;
    Ok(then(alloc, value.code, Stmt::Plain(Action::Return(value.at)))?)
}

/// The number of the lock of `lock NAME` and `unlock NAME`.
fn lock_number(draft: &Draft, words: &[&[u8]]) -> Result<u8, Refusal>
    ensures { Reads (λ l. l) result (spec.lock_number (drafted_of draft.now) (texts words.now)) }
{
    let word = exactly_one(words).ok_or(Refusal::Kind(SourceFaultKind::Form))?;
    let lock = position_from(0, &draft.locks, word);
    Ok(lock.ok_or(Refusal::Kind(SourceFaultKind::Name))? as u8)
}

/// `(CELL, OLD, NEW)` or `(CELL, EXPR)` after the word that calls it, whose value nobody asks for.
fn call_tree(
    alloc: Global,
    draft: &Draft,
    begun: &Begun,
    called: CellCall,
    words: &[&[u8]],
) -> Result<Stmt, Refusal>
    ensures { ReadsTree result (in_begun (spec.call_tree called) draft.now begun.now words.now) }
{
    let scope = scope_of(draft, begun);
    let (expr, rest) = call_with(alloc, words.len() + 2, scope, called, words)?;
    nothing_left(rest)?;
    Ok(value_of(alloc, begun, &expr)?.code)
}

/// `NAME = EXPR` and `NAME[EXPR] = EXPR`, and the same with `+=` and `-=`.
fn assign(
    alloc: Global,
    draft: &Draft,
    begun: &Begun,
    word: &[u8],
    words: &[&[u8]],
) -> Result<Stmt, Refusal>
    ensures { ReadsTree result
        (in_begun (spec.assign word.now) draft.now begun.now words.now) }
{
    if let Some(register) = local_in(&begun.locals, word) {
        let (by, expr) = changed_in(alloc, draft, begun, words)?;
        let new = changed(alloc, by, Expr::Local(register), expr)?;
        return set_local(alloc, begun, register, &new);
    }
    let (cell, rest) = cell_in(alloc, draft, begun, word, words)?;
    let (by, expr) = changed_in(alloc, draft, begun, rest)?;
    set_cell(alloc, begun, by, &cell, expr)
}

/// An expression of which only counts whether it is 0: a difference serves for `!=`.
pub(crate) fn as_test(expr: Expr) -> Expr
    ensures { expr_of result ≡ expressions.as_test (expr_of expr) }
{
    match expr {
        Expr::Binary(Operator::Differs, left, right) => {
            Expr::Binary(Operator::Minus, left, right)
        }
        other => other,
    }
}

/// A load of a cell that no array has, by which an operation traps.
const TRAPPING: Action = Action::Load {
    to: 0,
    array: 0,
    index: Operand::Num(64),
};

/// `assert EXPR`: the operation traps where the expression is 0, by a load of the first shared word,
/// which a source has to have.
fn assert_tree(
    alloc: Global,
    draft: &Draft,
    begun: &Begun,
    words: &[&[u8]],
) -> Result<Stmt, Refusal>
    ensures { ReadsTree result (in_begun spec.assert_tree draft.now begun.now words.now) }
{
    if draft.words.is_empty() {
        return Err(Refusal::Kind(SourceFaultKind::Form));
    }
    let test = as_test(expr_in(alloc, draft, begun, words)?);
    let value = value_of(alloc, begun, &test)?;
    let holds = Box::new(alloc, Stmt::Nothing)?;
    let fails = Box::new(alloc, Stmt::Plain(TRAPPING))?;
    Ok(then(alloc, value.code, Stmt::IfElse(value.at, holds, fails))?)
}

/// A statement that opens no block, declares no local, and calls nothing of a cell.
fn plain(
    alloc: Global,
    draft: &Draft,
    begun: &Begun,
    word: &[u8],
    words: &[&[u8]],
) -> Result<Stmt, Refusal>
    ensures { ReadsTree result (in_begun (spec.plain word.now) draft.now begun.now words.now) }
{
    if word == b"break".as_slice() {
        leave(begun, Stmt::Break, words)
    } else if word == b"continue".as_slice() {
        leave(begun, Stmt::Continue, words)
    } else if word == b"return".as_slice() {
        return_tree(alloc, draft, begun, words)
    } else if word == b"lock".as_slice() {
        Ok(Stmt::Plain(Action::Lock(lock_number(draft, words)?)))
    } else if word == b"unlock".as_slice() {
        Ok(Stmt::Plain(Action::Unlock(lock_number(draft, words)?)))
    } else if word == b"await".as_slice() {
        await_tree(alloc, draft, begun, words)
    } else if word == b"assert".as_slice() {
        assert_tree(alloc, draft, begun, words)
    } else if is_free_name(word) {
        assign(alloc, draft, begun, word, words)
    } else {
        Err(Refusal::Kind(SourceFaultKind::Form))
    }
}

/// The same, or a call.
pub(crate) fn simple(
    alloc: Global,
    draft: &Draft,
    begun: &Begun,
    word: &[u8],
    words: &[&[u8]],
) -> Result<Stmt, Refusal>
    ensures { ReadsTree result (in_begun (spec.simple word.now) draft.now begun.now words.now) }
{
    match call_in(word, words) {
        Some(called) => call_tree(alloc, draft, begun, called, words),
        None => plain(alloc, draft, begun, word, words),
    }
}
