//! The lines between the parts of a bundle.

ghost use Rattle.std.specs.Prelude.{◌≡◌, IfOk};
ghost use Rattle.lu_text.specs.Lines.{texts};
ghost use Rattle.lu_lint.specs.Bundle as spec;
ghost use Rattle.lu_lint.specs.Bundle.{separators_from};
ghost use Rattle.lu_lint.specs.Said as said;
ghost use Rattle.lu_lint.specs.Said.{SaysAlso};

use crate::remark::{Cause, Remark, Said, line_below, with_remark};
use crate::words::Wording;
use lu_text::{is_meant_as_separator, is_separator, kept_lines};
use std::alloc::{AllocError, Global};

/// Whether a line is meant to part, and parts nothing.
fn is_blurred(line: &[u8]) -> bool
    ensures { result ≡ spec.is_blurred line.now }
{
    is_meant_as_separator(line) && !is_separator(line)
}

/// The number of lines of the bundle before the part after this one.
pub(crate) fn above_next(alloc: Global, above: usize, part: &[u8]) -> Result<usize, AllocError>
    ensures { IfOk result (λ n. n ≡ said.above_next above part.now) }
{
    let lines = kept_lines(alloc, part)?;
    Ok(line_below(above, lines.len() + 1))
}

/// The remarks with one on each line that is nearly `---`.
pub(crate) fn with_separators<W: Wording>(
    alloc: Global,
    wording: &W,
    mut all: Vec<Remark>,
    lines: &[&[u8]],
) -> Result<Vec<Remark>, AllocError>
    ensures { SaysAlso result all (separators_from 1 (texts lines.now)) }
{
    for (before, line) in lines.iter().enumerate() {
        if !is_blurred(line) {
            continue;
        }
        let said = Said {
            line: before + 1,
            cause: Cause::Separator,
        };
        all = with_remark(all, said, wording.separator(alloc, line)?)?;
    }
    Ok(all)
}
