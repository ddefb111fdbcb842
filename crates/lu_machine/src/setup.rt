//! Whether a setup settles.

ghost use Rattle.std.specs.Prelude.{IfOk};
ghost use Rattle.lu_test.specs.Matrix.{IsOf};
ghost use Rattle.lu_machine.specs.Starts.{IsFirstUnsettled};

use crate::machine::Machine;
use lu_component::Component;
use lu_test::{Matrix, setup_alone};
use std::alloc::{AllocError, Global};

/// Whether the setup settles: each of its calls, made alone by thread 0 with pick 0, ends within
/// 256 moves after the call. None where it does, else the number of the first call that does not
/// end, from 0. The matrix is asked to be one of the component ([`Matrix::of`]).
///
/// # Errors
///
/// Memory was refused.
pub fn settles(
    alloc: Global,
    component: &Component,
    matrix: &Matrix,
) -> Result<Option<u8>, AllocError>
    requires { IsOf matrix.now component.now }
    ensures { IfOk result (IsFirstUnsettled component.now matrix.now) }
{
    let alone = setup_alone(alloc, matrix)?;
    let mut setup = Machine::empty(alloc, component, &alone)?;
    Ok(setup.make_all())
}
