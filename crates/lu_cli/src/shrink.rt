//! Matrices that fail, with fewer calls.

ghost use Rattle.lu_text.specs.Lines.{texts};
ghost use Rattle.lu_cli.specs.Refusals.{Answered};
ghost use Rattle.lu_cli.specs.Shrink as spec;
ghost use Rattle.lu_cli.specs.Shrink.{Shrinks};

use crate::answer::{Answer, show_matrix, show_report};
use crate::refusal::Refusal;
use crate::texts::read_texts;
use lu_machine::Test;
use lu_refine::{ShrinkFault, shrink};
use lu_report::Bounds;
use lu_text::exactly_two;
use std::alloc::{AllocError, Global};

/// The last matrix of the chain of removals, with its report; or the report of a matrix that does
/// not fail.
fn shrink_matrix(alloc: Global, test: Test<'_>, bounds: Bounds) -> Result<Answer, AllocError>
    ensures { Shrinks test.entry bounds result }
{
    let Test { component, matrix } = test;
    match shrink(alloc, component, matrix, bounds.bound(), bounds.serial()) {
        Ok((smaller, report)) => show_matrix(alloc, component, &smaller, &report),
        Err(ShrinkFault::NotFailing(report)) => show_report(alloc, &report),
        Err(ShrinkFault::Memory) => Err(AllocError),
    }
}

/// `lineup shrink`: component and matrix.
pub(crate) fn answer_shrink(
    alloc: Global,
    bounds: Bounds,
    parts: &[&[u8]],
) -> Result<Answer, Refusal>
    ensures { Answered (spec.IsAnswerToShrink bounds (texts parts.now)) result }
{
    let (component, matrix) = exactly_two(parts).ok_or(Refusal::Parts)?;
    let case = read_texts(alloc, component, matrix)?;
    let test = Test {
        component: &case.component,
        matrix: &case.matrix,
    };
    Ok(shrink_matrix(alloc, test, bounds)?)
}
