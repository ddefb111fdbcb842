//! What is gone through, and how far.

ghost use Rattle.std.specs.Prelude.{◌≤◌};
ghost use Rattle.std.proofs.Props.{props};
ghost use Rattle.lu_machine.specs.Starts.{CanRun};
ghost use Rattle.lu_report.specs.Limits.{IsSerialBound, most_moves};

use crate::limits::Limits;
use lu_component::Component;
use lu_test::Matrix;

/// A component with a matrix that it can run, and how far its schedules are gone through: the
/// matrix that is certified, or a cut of it. Whoever knows that it can be run, and that the limits
/// are within their ranges, writes `LimitedTest { component, matrix, limits }`.
#[derive(Clone, Copy)]
pub(crate) struct LimitedTest<'a> {
    /// What is tested.
    pub(crate) component: &'a Component,

    /// The calls that are made.
    pub(crate) matrix: &'a Matrix,

    /// How far it is gone through.
    pub(crate) limits: Limits,

    pub ghost can_run: { CanRun component.now matrix.now } by { Prim.hlevel props },
    pub ghost bound: { limits.bound ≤ most_moves },
    pub ghost serial: { IsSerialBound limits.serial } by { Prim.hlevel props },
}
