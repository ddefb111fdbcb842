//! The rule below a return, where a precedence is broken.

ghost use Rattle.std.specs.Prelude.{◌≡◌, ◌<◌, ◌^◌, IfOk, length};
ghost use Rattle.lu_text.specs.Writing.{Writes};
ghost use Rattle.lu_picture.specs.Shapes as spec;

use crate::calls::write_call;
use crate::coordinates::column;
use crate::ends::end_of;
use crate::mark::Mark;
use crate::rows::write_in_column;
use lu_explain::Precedence;
use lu_history::OpId;
use lu_machine::Machine;
use std::alloc::{AllocError, Global};

/// Adds that a call had returned.
fn write_returned(text: &mut String, machine: &Machine<'_>, op: OpId) -> Result<(), AllocError>
    ensures { Writes result text.old text.new (spec.returned_words machine.now op) }
{
    write!(text, "T{} ", op.t)?;
    write_call(text, machine, op.t, op.k)?;
    text.push_str(" had returned")?;
    Ok(())
}

/// Where words with this many letters end that stand right of all columns.
fn rule_end(threads: u8, letters: usize) -> u128
    ensures value { result ≡ spec.rule_end threads letters }
    ensures few { result < 2 ^ 80 }
{
    column(threads) + 8 + 8 * (letters as u128)
}

/// How wide a picture is at least, so that the words of the rule fit.
pub(crate) fn rule_width(
    alloc: Global,
    machine: &Machine<'_>,
    broken: Option<Precedence>,
) -> Result<u128, AllocError>
    ensures { IfOk result (λ wide. wide ≡ spec.rule_width machine.now broken) }
{
    match broken {
        None => Ok(0),
        Some(broken) => {
            let mut words = String::new(alloc);
            write_returned(&mut words, machine, broken.first)?;
            Ok(rule_end(machine.threads(), words.len()) + 12)
        }
    }
}

/// Adds a dashed line below the row that begins there.
fn write_rule_line(text: &mut String, right: u128, top: u128) -> Result<(), AllocError>
    ensures { Writes result text.old text.new (spec.rule_line right top) }
{
    write!(text, "<path class='o' d='M12 {top}m0 18H{right}'/>\n")
}

/// Adds that line across all columns, and these words above its right end.
fn write_rule_at(text: &mut String, threads: u8, top: u128, words: &str) -> Result<(), AllocError>
    ensures { Writes result text.old text.new (spec.rule_at threads top words.now) }
{
    write_rule_line(text, rule_end(threads, words.len()), top)?;
    write_in_column(text, "r", threads, top, words)?;
    text.push('\n')
}

/// Adds the rule below the return of a call.
fn write_rule_of(
    alloc: Global,
    text: &mut String,
    machine: &Machine<'_>,
    marks: &[Mark],
    op: OpId,
) -> Result<(), AllocError>
    ensures { Writes result text.old text.new (spec.rule_of machine.now marks.now op) }
{
    match end_of(marks, op.t, op.k) {
        None => Ok(()),
        Some(end) => {
            let mut words = String::new(alloc);
            write_returned(&mut words, machine, op)?;
            write_rule_at(text, machine.threads(), end.top, words.as_str())
        }
    }
}

/// Adds the rule of a precedence that is broken, if any: below the return of its first call.
pub(crate) fn write_rule(
    alloc: Global,
    text: &mut String,
    machine: &Machine<'_>,
    marks: &[Mark],
    broken: Option<Precedence>,
) -> Result<(), AllocError>
    ensures { Writes result text.old text.new (spec.rule machine.now marks.now broken) }
{
    match broken {
        None => Ok(()),
        Some(broken) => write_rule_of(alloc, text, machine, marks, broken.first),
    }
}
