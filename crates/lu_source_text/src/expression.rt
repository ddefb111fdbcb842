//! Reading of expressions.

ghost use Rattle.std.specs.Prelude.{◌≡◌, ◌<◌, ◌≤◌, IfOk, length};
ghost use Rattle.std.specs.Option.{option_map};
ghost use Rattle.lu_text.specs.Lines.{texts};
ghost use Rattle.lu_source.specs.declared.expr.TheConstants.{REGISTERS};
ghost use Rattle.lu_source.specs.Evaluations.{expr_of};
ghost use Rattle.lu_source_text.specs.Cells.{after_cell};
ghost use Rattle.lu_source_text.specs.Grammar as spec;
ghost use Rattle.lu_source_text.specs.Reads.{ReadsCell, ReadsExpr, ReadsAlone, ReadsNumber, ReadsWord, ReadsWords, by_steps, infix_after, meanings};

use crate::constants::Constants;
use crate::fault::{Refusal, SourceFaultKind};
use crate::infix::{Infix, binding, infix_in, most_after};
use crate::names::{is_free_name, position_from, shared_from};
use crate::scope::{Cell, Scope};
use crate::updates::{CellCall, call_in};
use lu_source::{Answer, Expr, Operator, Update};
use lu_text::{Name, value_in};
use std::alloc::{AllocError, Global};

/// An expression, and the words after it.
type Parsed<'a> = (Expr, &'a [&'a [u8]]);

/// The first word, and the words after it.
pub(crate) fn first_word<'a>(words: &'a [&'a [u8]]) -> Result<(&'a [u8], &'a [&'a [u8]]), Refusal>
    ensures { ReadsWord result (spec.first_word (texts words.now)) }
{
    match words.split_first() {
        None => Err(Refusal::Kind(SourceFaultKind::Form)),
        Some((word, rest)) => Ok((word, rest)),
    }
}

/// The words after this one, which stands first.
pub(crate) fn after_word<'a>(text: &[u8], words: &'a [&'a [u8]]) -> Result<&'a [&'a [u8]], Refusal>
    ensures { ReadsWords result (spec.after_word text.now (texts words.now)) }
{
    let (word, rest) = first_word(words)?;
    if word == text {
        Ok(rest)
    } else {
        Err(Refusal::Kind(SourceFaultKind::Form))
    }
}

/// Nothing stands after what was read.
pub(crate) fn nothing_left(words: &[&[u8]]) -> Result<(), Refusal>
    ensures { ReadsAlone result (spec.nothing_left (texts words.now)) }
{
    if !words.is_empty() {
        return Err(Refusal::Kind(SourceFaultKind::Form));
    }
    Ok(())
}

/// This word stands first, and nothing after it.
pub(crate) fn last_word(text: &[u8], words: &[&[u8]]) -> Result<(), Refusal>
    ensures { ReadsAlone result (spec.last_word text.now (texts words.now)) }
{
    nothing_left(after_word(text, words)?)
}

/// A number, and the words after it.
pub(crate) fn first_number<'a>(
    constants: &Constants,
    words: &'a [&'a [u8]],
) -> Result<(u32, &'a [&'a [u8]]), Refusal>
    ensures { ReadsNumber result (spec.first_number constants.now (texts words.now)) }
{
    let (word, rest) = first_word(words)?;
    let number = value_in(word).or(constants.get(word));
    let number = number.ok_or(Refusal::Kind(SourceFaultKind::Number))?;
    Ok((number, rest))
}

/// The register of a local.
pub(crate) fn local_in(locals: &[Name], word: &[u8]) -> Option<u8>
    requires { length locals.now ≤ REGISTERS }
    ensures { result ≡ spec.local_in locals.now word.now }
{
    Some(position_from(0, locals, word)? as u8)
}

/// The expression that an operator makes of two.
fn joined(alloc: Global, by: Infix, left: Expr, right: Expr) -> Result<Expr, AllocError>
    ensures { IfOk result
        (λ expr. expr_of expr ≡ spec.joined by (expr_of left) (expr_of right)) }
{
    let left = Box::new(alloc, left)?;
    let right = Box::new(alloc, right)?;
    Ok(match by {
        Infix::Or => Expr::Or(left, right),
        Infix::And => Expr::And(left, right),
        Infix::Joins(operator) => Expr::Binary(operator, left, right),
    })
}

/// `(K)` after `pick`.
fn pick_from<'a>(constants: &Constants, words: &'a [&'a [u8]]) -> Result<Parsed<'a>, Refusal>
    ensures { ReadsExpr result (spec.pick_from constants.now (texts words.now)) }
{
    let inside = after_word(b"(".as_slice(), words)?;
    let (count, rest) = first_number(constants, inside)?;
    if count < 1 || count > 8 {
        return Err(Refusal::Kind(SourceFaultKind::Limit));
    }
    let more = after_word(b")".as_slice(), rest)?;
    Ok((Expr::Pick(count as u8), more))
}

/// An expression, and then a word.
#[cycle(expression)]
fn closed_with<'a>(
    alloc: Global,
    steps: usize,
    scope: Scope<'_>,
    text: &[u8],
    words: &'a [&'a [u8]],
) -> Result<Parsed<'a>, Refusal>
    ensures { ReadsExpr result (by_steps (spec.closed_with text.now) steps scope.entry words.now) }
{
    let (expr, rest) = expr_from(alloc, steps, scope, 1, words)?;
    let more = after_word(text, rest)?;
    Ok((expr, more))
}

/// A cell of a shared word, with an index where it has many.
#[cycle(expression)]
pub(crate) fn cell_with<'a>(
    alloc: Global,
    steps: usize,
    scope: Scope<'_>,
    word: &[u8],
    words: &'a [&'a [u8]],
) -> Result<(Cell, &'a [&'a [u8]]), Refusal>
    ensures { ReadsCell result (by_steps (spec.cell_with word.now) steps scope.entry words.now) }
{
    let found = shared_from(0, scope.words, word);
    let (number, indexed) = found.ok_or(Refusal::Kind(SourceFaultKind::Name))?;
    let array = number as u8;
    if indexed {
        let inside = after_word(b"[".as_slice(), words)?;
        let (index, rest) = closed_with(alloc, steps, scope, b"]".as_slice(), inside)?;
        Ok((Cell { array, index }, rest))
    } else {
        let index = Expr::Number(0);
        Ok((Cell { array, index }, words))
    }
}

/// A local, a constant or a cell.
#[cycle(expression)]
fn name_with<'a>(
    alloc: Global,
    steps: usize,
    scope: Scope<'_>,
    word: &[u8],
    words: &'a [&'a [u8]],
) -> Result<Parsed<'a>, Refusal>
    ensures { ReadsExpr result (by_steps (spec.name_with word.now) steps scope.entry words.now) }
{
    if let Some(register) = local_in(scope.locals, word) {
        return Ok((Expr::Local(register), words));
    }
    if let Some(value) = scope.constants.get(word) {
        return Ok((Expr::Number(value), words));
    }
    let (cell, rest) = cell_with(alloc, steps, scope, word, words)?;
    let index = Box::new(alloc, cell.index)?;
    Ok((Expr::Read(cell.array, index), rest))
}

/// `OLD, NEW)` after the cell of a compare-and-swap.
#[cycle(expression)]
fn swap_with<'a>(
    alloc: Global,
    steps: usize,
    scope: Scope<'_>,
    answer: Answer,
    cell: Cell,
    words: &'a [&'a [u8]],
) -> Result<Parsed<'a>, Refusal>
    ensures { ReadsExpr result
        (after_cell (spec.swap_with answer) cell steps scope.entry words.now) }
{
    let (old, rest) = closed_with(alloc, steps, scope, b",".as_slice(), words)?;
    let (new, rest) = closed_with(alloc, steps, scope, b")".as_slice(), rest)?;
    let index = Box::new(alloc, cell.index)?;
    let old = Box::new(alloc, old)?;
    let new = Box::new(alloc, new)?;
    Ok((Expr::Swap(answer, cell.array, index, old, new), rest))
}

/// `EXPR)` after the cell of an update.
#[cycle(expression)]
fn fetch_with<'a>(
    alloc: Global,
    steps: usize,
    scope: Scope<'_>,
    by: Update,
    cell: Cell,
    words: &'a [&'a [u8]],
) -> Result<Parsed<'a>, Refusal>
    ensures { ReadsExpr result
        (after_cell (spec.fetch_with by) cell steps scope.entry words.now) }
{
    let (operand, rest) = closed_with(alloc, steps, scope, b")".as_slice(), words)?;
    let index = Box::new(alloc, cell.index)?;
    let operand = Box::new(alloc, operand)?;
    Ok((Expr::Fetch(by, cell.array, index, operand), rest))
}

/// `(CELL, OLD, NEW)` or `(CELL, EXPR)` after the word that calls it.
#[cycle(expression)]
pub(crate) fn call_with<'a>(
    alloc: Global,
    steps: usize,
    scope: Scope<'_>,
    called: CellCall,
    words: &'a [&'a [u8]],
) -> Result<Parsed<'a>, Refusal>
    ensures { ReadsExpr result (by_steps (spec.call_with called) steps scope.entry words.now) }
{
    let inside = after_word(b"(".as_slice(), words)?;
    let (word, rest) = first_word(inside)?;
    let (cell, rest) = cell_with(alloc, steps, scope, word, rest)?;
    let rest = after_word(b",".as_slice(), rest)?;
    match called {
        CellCall::Swap(answer) => swap_with(alloc, steps, scope, answer, cell, rest),
        CellCall::Fetch(by) => fetch_with(alloc, steps, scope, by, cell, rest),
    }
}

/// 0 minus an expression.
fn negative(alloc: Global, expr: Expr) -> Result<Expr, AllocError>
    ensures { IfOk result (λ e. expr_of e ≡ spec.negative (expr_of expr)) }
{
    match expr {
        Expr::Number(number) => Ok(Expr::Number(0_u32.wrapping_sub(number))),
        other => {
            let zero = Box::new(alloc, Expr::Number(0))?;
            let other = Box::new(alloc, other)?;
            Ok(Expr::Binary(Operator::Minus, zero, other))
        }
    }
}

/// An expression without operators between two values in it, but for those in parentheses, where it
/// calls nothing of a cell.
#[cycle(expression)]
fn plain_with<'a>(
    alloc: Global,
    steps: usize,
    scope: Scope<'_>,
    word: &[u8],
    words: &'a [&'a [u8]],
) -> Result<Parsed<'a>, Refusal>
    ensures { ReadsExpr result (by_steps (spec.plain_with word.now) steps scope.entry words.now) }
{
    if word == b"!".as_slice() {
        let (expr, rest) = expr_from(alloc, steps, scope, 6, words)?;
        Ok((Expr::Not(Box::new(alloc, expr)?), rest))
    } else if word == b"-".as_slice() {
        let (expr, rest) = expr_from(alloc, steps, scope, 6, words)?;
        Ok((negative(alloc, expr)?, rest))
    } else if word == b"(".as_slice() {
        closed_with(alloc, steps, scope, b")".as_slice(), words)
    } else if word == b"pick".as_slice() {
        pick_from(scope.constants, words)
    } else if word == b"true".as_slice() {
        Ok((Expr::Number(1), words))
    } else if word == b"false".as_slice() {
        Ok((Expr::Number(0), words))
    } else if is_free_name(word) {
        name_with(alloc, steps, scope, word, words)
    } else {
        let value = value_in(word).ok_or(Refusal::Kind(SourceFaultKind::Number))?;
        Ok((Expr::Number(value), words))
    }
}

/// The same, or a call.
#[cycle(expression)]
fn unary_with<'a>(
    alloc: Global,
    steps: usize,
    scope: Scope<'_>,
    word: &[u8],
    words: &'a [&'a [u8]],
) -> Result<Parsed<'a>, Refusal>
    ensures { ReadsExpr result (by_steps (spec.unary_with word.now) steps scope.entry words.now) }
{
    match call_in(word, words) {
        Some(called) => call_with(alloc, steps, scope, called, words),
        None => plain_with(alloc, steps, scope, word, words),
    }
}

/// An expression with operators in it that bind at least so tightly, by this many steps at most.
#[cycle(expression)]
pub(crate) fn expr_from<'a>(
    alloc: Global,
    steps: usize,
    scope: Scope<'_>,
    least: u8,
    words: &'a [&'a [u8]],
) -> Result<Parsed<'a>, Refusal>
    ensures { ReadsExpr result
        (by_steps (λ inner. inner.read least) steps scope.entry words.now) }
{
    if steps == 0 {
        return Err(Refusal::Kind(SourceFaultKind::Form));
    }
    let Some((word, rest)) = words.split_first() else {
        return Err(Refusal::Kind(SourceFaultKind::Form));
    };
    let (left, more) = unary_with(alloc, steps - 1, scope, word, rest)?;
    infix_from(alloc, steps - 1, scope, least, 5, left, more)
}

/// Operators after a left side, which bind at least and at most so tightly.
#[cycle(expression)]
fn infix_from<'a>(
    alloc: Global,
    steps: usize,
    scope: Scope<'_>,
    least: u8,
    most: u8,
    left: Expr,
    words: &'a [&'a [u8]],
) -> Result<Parsed<'a>, Refusal>
    ensures { ReadsExpr result (infix_after left least most steps scope.entry words.now) }
{
    if steps == 0 {
        return Err(Refusal::Kind(SourceFaultKind::Form));
    }
    let Some((word, rest)) = words.split_first() else {
        return Ok((left, words));
    };
    let Some(by) = infix_in(word) else {
        return Ok((left, words));
    };
    let binds = binding(by);
    if binds < least {
        return Ok((left, words));
    }
    if most < binds {
        return Err(Refusal::Kind(SourceFaultKind::Form));
    }
    let (right, more) = expr_from(alloc, steps - 1, scope, binds + 1, rest)?;
    let both = joined(alloc, by, left, right)?;
    infix_from(alloc, steps - 1, scope, least, most_after(by), both, more)
}
