//! The lines in which lint says what it says.

ghost use Rattle.std.specs.Prelude.{◌≡◌};
ghost use Rattle.lu_text.specs.Writing.{Writes};
ghost use Rattle.lu_lint.specs.Messages as spec;
ghost use Rattle.lu_lint.specs.Messages.{remarks_text};

use crate::remark::{Cause, FaultKind, Remark};
use std::alloc::AllocError;

/// What stands before the words.
fn remark_word(cause: &Cause) -> &'static str
    ensures { result.now ≡ spec.remark_word cause.now }
{
    if cause.is_fault() { "" } else { "warning: " }
}

/// The words before the number of the line on which the remark is reported.
fn line_word(kind: FaultKind, shown: usize, line: usize) -> &'static str
    ensures { result.now ≡ spec.line_word kind shown line }
{
    match kind {
        FaultKind::Component(_) if shown != line => "reported at line",
        _ => "line",
    }
}

/// Adds the line of one remark: of a fault with its code and its line in the part.
fn write_remark(text: &mut String, remark: &Remark) -> Result<(), AllocError>
    ensures { Writes result text.old text.new (spec.remark_text remark.now) }
{
    let cause = &remark.said.cause;
    write!(
        text,
        "line {}: {}{}",
        remark.said.line,
        remark_word(cause),
        remark.words.as_str()
    )?;
    match cause {
        Cause::Fault(kind, line) => {
            let (code, part) = (kind.code(), kind.part());
            let word = line_word(*kind, remark.said.line, *line);
            write!(text, " ({code}, {word} {line} of the {part})\n")
        }
        Cause::FifthPart => text.push_str(" (B1)\n"),
        Cause::Separator | Cause::Warning(_) | Cause::Run(_) => text.push_str("\n"),
    }
}

/// Adds a line for each remark.
///
/// # Errors
///
/// There is no memory for the text.
pub fn write_remarks(text: &mut String, remarks: &[Remark]) -> Result<(), AllocError>
    ensures { Writes result text.old text.new (remarks_text remarks.now) }
{
    for remark in remarks {
        write_remark(text, remark)?;
    }
    Ok(())
}
