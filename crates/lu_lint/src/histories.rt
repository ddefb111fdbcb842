//! Recorded histories, each a part of a bundle.

ghost use Rattle.std.specs.Prelude.{◌≡◌};
ghost use Rattle.lu_text.specs.Lines.{texts};
ghost use Rattle.lu_lint.specs.Lint as lint;
ghost use Rattle.lu_lint.specs.Said.{SaysAlso, message_said};
ghost use Rattle.lu_lint.specs.Parts as spec;
ghost use Rattle.lu_lint.specs.declared.remark.FaultKind.TheVariants as part;

use crate::bundle::above_next;
use crate::remark::{Cause, FaultKind, Remark, Said, line_below, line_of, with_remark};
use crate::words::Wording;
use lu_recorded::{RecordedFaultKind, read_recorded};
use lu_test::Matrix;
use lu_text::{Fault, kept_lines};
use std::alloc::{AllocError, Global};

/// What is said of a fault of a recorded history.
fn said(above: usize, kind: RecordedFaultKind, line: usize) -> Said
    ensures { result ≡ message_said part.History above (lint.message_here line kind) }
{
    Said {
        line: line_below(above, line),
        cause: Cause::Fault(FaultKind::History(kind), line),
    }
}

/// The remarks with that on the first fault of a recorded history, where it has one.
fn with_history<W: Wording>(
    alloc: Global,
    wording: &W,
    all: Vec<Remark>,
    matrix: &Matrix,
    above: usize,
    text: &[u8],
) -> Result<Vec<Remark>, AllocError>
    ensures { SaysAlso result all (spec.recorded_said matrix.now above text.now) }
{
    match read_recorded(alloc, matrix, text) {
        Ok(_) => Ok(all),
        Err(Fault::At(kind, line)) => {
            let lines = kept_lines(alloc, text)?;
            let words = wording.history_fault(alloc, matrix, kind, line_of(&lines, line))?;
            with_remark(all, said(above, kind, line), words)
        }
        Err(Fault::Memory) => Err(AllocError),
    }
}

/// The remarks with those on recorded histories, where there is a matrix. Before the first of them
/// stand `above` lines of the bundle.
pub(crate) fn with_histories<W: Wording>(
    alloc: Global,
    wording: &W,
    mut all: Vec<Remark>,
    matrix: &Option<Matrix>,
    mut above: usize,
    parts: &[&[u8]],
) -> Result<Vec<Remark>, AllocError>
    ensures { SaysAlso result all (spec.histories_of matrix.now above (texts parts.now)) }
{
    let Some(matrix) = matrix else {
        return Ok(all);
    };
    for text in parts {
        all = with_history(alloc, wording, all, matrix, above, text)?;
        above = above_next(alloc, above, text)?;
    }
    Ok(all)
}
