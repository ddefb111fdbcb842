//! The faults of a specification's text.

ghost use Rattle.std.specs.Prelude.{◌≡◌};
ghost use Rattle.lu_lint.specs.Said.{SaysSuch};
ghost use Rattle.lu_lint.specs.Parts as spec;

use crate::remark::{Cause, FaultKind, Remark, Said, line_below, line_of, with_remark};
use crate::words::Wording;
use lu_spec::{Marks, SpecLineFault, given_spec_faults, has_free_entries};
use lu_test::Matrix;
use lu_text::kept_lines;
use std::alloc::{AllocError, Global};

/// What is said of a fault of a specification.
fn specification_said(above: usize, fault: &SpecLineFault) -> Said
    ensures { result ≡ spec.specification_said above fault.now }
{
    Said {
        line: line_below(above, fault.line),
        cause: Cause::Fault(FaultKind::Specification(fault.kind), fault.line),
    }
}

/// The remarks with those on a specification, where there is a matrix.
pub(crate) fn with_specification<W: Wording>(
    alloc: Global,
    wording: &W,
    mut all: Vec<Remark>,
    matrix: &Option<Matrix>,
    marks: Marks,
    above: usize,
    text: &[u8],
) -> Result<Vec<Remark>, AllocError>
    ensures { SaysSuch result all (spec.SaidOfSome marks matrix.now above text.now) }
{
    let Some(matrix) = matrix else {
        return Ok(all);
    };
    let lines = kept_lines(alloc, text)?;
    let free = marks == Marks::Allowed && has_free_entries(alloc, text)?;
    let faults = given_spec_faults(alloc, matrix, text, marks)?;
    for fault in &faults {
        let line = line_of(&lines, fault.line);
        let words = wording.specification_fault(alloc, matrix, free, fault, line)?;
        all = with_remark(all, specification_said(above, fault), words)?;
    }
    Ok(all)
}
