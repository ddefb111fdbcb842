//! Matrices that fail, with fewer calls.

ghost use Rattle.std.specs.Prelude.{◌≡◌, ◌≤◌, ◌↔◌, IfOk, IfErr};
ghost use Rattle.lu_report.specs.Limits.{IsSerialBound, most_moves};
ghost use Rattle.lu_test.specs.Matrix.{IsOf};
ghost use Rattle.lu_machine.specs.Starts.{CanRun};
ghost use Rattle.lu_refine.specs.Removals.{IsRound, IsShrinkFault, IsShrunk};

use crate::arena::check_in_arena;
use crate::shrink_fault::ShrinkFault;
use lu_component::Component;
use lu_report::{Finding, Report};
use lu_test::{Matrix, copy_matrix, remove};
use std::alloc::{AllocError, Global};

/// The matrix without the first call, by thread and then by number, without which it still fails,
/// and its report.
fn take_least(
    alloc: Global,
    component: &Component,
    matrix: &Matrix,
    bound: u16,
    serial: u16,
) -> Result<Option<(Matrix, Report)>, AllocError>
    requires of { CanRun component.now matrix.now }
    requires bound { bound ≤ most_moves }
    requires serial { IsSerialBound serial }
    ensures round { IfOk result (IsRound component.now matrix.now bound serial) }
{
    for t in 0..matrix.threads() {
        for k in 0..matrix.calls(t) {
            let smaller = remove(alloc, matrix, t, k)?;
            let report = check_in_arena(alloc, component, &smaller, bound, serial)?;
            if report.is_failure() {
                return Ok(Some((smaller, report)));
            }
        }
    }
    Ok(None)
}

/// Takes calls away from a matrix that fails: as long as the matrix without some call has a report
/// that is a failure or nondeterministic, the first such call is taken away, by thread and then by
/// number. The answer is the last matrix, with its report. Its setup stays, and so do its threads,
/// also those without calls. `bound` is 0 to 256 moves of a schedule, and `serial` 1 to 256 moves
/// of an operation after its call that is run serially. Asks for a matrix of the component, whose
/// setup settles.
///
/// # Errors
///
/// [`ShrinkFault::NotFailing`] with the report of the given matrix, where that is neither a failure
/// nor nondeterministic. [`ShrinkFault::Memory`] where memory was refused.
pub fn shrink(
    alloc: Global,
    component: &Component,
    matrix: &Matrix,
    bound: u16,
    serial: u16,
) -> Result<(Matrix, Report), ShrinkFault>
    requires of { CanRun component.now matrix.now }
    requires bound { bound ≤ most_moves }
    requires serial { IsSerialBound serial }
    ensures shrunk { IfOk result (IsShrunk component.now matrix.now bound serial) }
    ensures of { IfOk result (λ shrunk. IsOf shrunk.0 component.now) }
    ensures fault { IfErr result (IsShrinkFault component.now matrix.now bound serial) }
{
    let report = check_in_arena(alloc, component, matrix, bound, serial)?;
    if !report.is_failure() {
        return Err(ShrinkFault::NotFailing(report));
    }
    let mut shrunk = (copy_matrix(alloc, matrix)?, report);
    while let Some(smaller) = take_least(alloc, component, &shrunk.0, bound, serial)? {
        shrunk = smaller;
    }
    Ok(shrunk)
}
