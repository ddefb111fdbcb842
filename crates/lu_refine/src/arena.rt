//! Checks whose serial histories lie in an arena.

ghost use Rattle.std.specs.Prelude.{◌≤◌, IfOk};
ghost use Rattle.lu_machine.specs.Starts.{CanRun};
ghost use Rattle.lu_replay.specs.Reports.{IsReport};
ghost use Rattle.lu_report.specs.Limits.{IsSerialBound, most_moves};

use bumpalo::Bump;
use lu_component::Component;
use lu_parallel::check_one;
use lu_report::Report;
use lu_test::Matrix;
use std::alloc::{AllocError, Global};

/// The report of the matrix. The set of its serial histories lies in an arena, which is given up
/// with them.
pub(crate) fn check_in_arena(
    alloc: Global,
    component: &Component,
    matrix: &Matrix,
    bound: u16,
    serial: u16,
) -> Result<Report, AllocError>
    requires of { CanRun component.now matrix.now }
    requires bound { bound ≤ most_moves }
    requires serial { IsSerialBound serial }
    ensures { IfOk result (IsReport component.now matrix.now bound serial) }
{
    let arena = Bump::new(alloc);
    check_one(alloc, &arena, component, matrix, bound, serial)
}
