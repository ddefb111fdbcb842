//! What is tested.

ghost use Rattle.std.specs.Prelude.{IfOk};
ghost use Rattle.std.proofs.Props.{props};
ghost use Rattle.lu_test.specs.Matrix.{IsOf};
ghost use Rattle.lu_machine.specs.Starts.{CanRun};

use crate::setup::settles;
use lu_component::Component;
use lu_test::Matrix;
use std::alloc::{AllocError, Global};

/// A component with a matrix that it can run: the matrix is one of the component, and its setup
/// settles (Burckhardt, Dern, Musuvathi and Tan, 2010, call the two a test). Whoever knows this of
/// the two writes `Test { component, matrix }`; [`Test::of`] looks whether it is so.
#[derive(Clone, Copy, Debug)]
pub struct Test<'a> {
    /// What is tested.
    pub component: &'a Component,

    /// The calls that are made.
    pub matrix: &'a Matrix,

    pub ghost can_run: { CanRun component.now matrix.now } by { Prim.hlevel props },
}

impl<'a> Test<'a> {
    ghost use Rattle.lu_machine.specs.Tests.{IsTestOrUnsettled};

    /// The test of the component and the matrix, or the number of the first call of the setup that
    /// does not end within 256 moves after it, from 0. The matrix is asked to be one of the
    /// component ([`Matrix::of`]).
    ///
    /// # Errors
    ///
    /// Memory was refused.
    pub fn of(
        alloc: Global,
        component: &'a Component,
        matrix: &'a Matrix,
    ) -> Result<Result<Test<'a>, u8>, AllocError>
        requires { IsOf matrix.now component.now }
        ensures { IfOk result (IsTestOrUnsettled component.now matrix.now) }
    {
        Ok(match settles(alloc, component, matrix)? {
            None => Ok(Test { component, matrix }),
            Some(k) => Err(k),
        })
    }
}
