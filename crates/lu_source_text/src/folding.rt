//! Constant expressions.

ghost use Rattle.std.specs.Prelude.{◌≡◌};
ghost use Rattle.lu_text.specs.Lines.{texts};
ghost use Rattle.lu_source.specs.Evaluations.{expr_of};
ghost use Rattle.lu_source.specs.Expressions as expressions;
ghost use Rattle.lu_source_text.specs.Grammar as spec;
ghost use Rattle.lu_source_text.specs.Reads.{ReadsExpr, ReadsNumber};

use crate::constants::Constants;
use crate::expression::expr_from;
use crate::fault::{Refusal, SourceFaultKind};
use crate::scope::Scope;
use lu_source::{Expr, Operator};
use std::alloc::Global;

/// What an operator gives of two values.
fn result_of(by: Operator, left: u32, right: u32) -> u32
    ensures { result ≡ expressions.result by left right }
{
    match by {
        Operator::Plus => left.wrapping_add(right),
        Operator::Minus => left.wrapping_sub(right),
        Operator::Times => left.wrapping_mul(right),
        Operator::Equals => u32::from(left == right),
        Operator::Differs => u32::from(left != right),
        Operator::Below => u32::from(left < right),
        Operator::Above => u32::from(left > right),
        Operator::AtMost => u32::from(left <= right),
        Operator::AtLeast => u32::from(left >= right),
    }
}

/// The value of an expression that is made of numbers alone, by operators and `!`.
fn folded(expr: &Expr) -> Option<u32>
    ensures { result ≡ spec.folded (expr_of expr.now) }
{
    match expr {
        Expr::Number(number) => Some(*number),
        Expr::Binary(by, left, right) => {
            let left = folded(left)?;
            let right = folded(right)?;
            Some(result_of(*by, left, right))
        }
        Expr::Not(inner) => {
            let value = folded(inner)?;
            Some(u32::from(value == 0))
        }
        _ => None,
    }
}

/// A constant expression, and the words after it. A name that is no constant is no number.
pub(crate) fn first_constant<'a>(
    alloc: Global,
    constants: &Constants,
    words: &'a [&'a [u8]],
) -> Result<(u32, &'a [&'a [u8]]), Refusal>
    ensures { ReadsNumber result (spec.first_constant constants.now (texts words.now)) }
{
    let (expr, rest) = alone(alloc, constants, words)?;
    let number = folded(&expr).ok_or(Refusal::Kind(SourceFaultKind::Number))?;
    Ok((number, rest))
}

/// An expression in which only constants have names, and the words after it.
fn alone<'a>(
    alloc: Global,
    constants: &Constants,
    words: &'a [&'a [u8]],
) -> Result<(Expr, &'a [&'a [u8]]), Refusal>
    ensures { ReadsExpr result (spec.alone constants.now (texts words.now)) }
{
    let scope = Scope {
        constants,
        words: &[],
        locals: &[],
    };
    match expr_from(alloc, words.len() + 2, scope, 1, words) {
        Err(Refusal::Kind(SourceFaultKind::Name)) => { Err(Refusal::Kind(SourceFaultKind::Number)) }
        read => read,
    }
}
