//! Where a run starts.

ghost use Rattle.std.specs.Prelude.{◌≡◌, [], ◌∷◌, IfOk, IfSome, IsSome, replicate};
ghost use Rattle.lu_machine.specs.Starts.{CanRun};
ghost use Rattle.lu_run.specs.Judging.{IsFirstTable, IsStartPosition, idle_matrix};

use crate::asking::copy_of;
use crate::table::{Rests, Table};
use indexmap::{IndexMap, IndexSet};
use lu_component::Component;
use lu_machine::{Machine, Position};
use lu_test::{Call, Calls, Matrix};
use std::alloc::{AllocError, Global};

/// The calls once more.
fn copies_of(alloc: Global, calls: &[Call]) -> Result<Vec<Call>, AllocError>
    ensures { IfOk result (λ copies. copies.items ≡ calls.now) }
{
    let mut copies = Vec::new(alloc);
    for call in calls {
        copies.push(copy_of(alloc, call)?)?;
    }
    Ok(copies)
}

/// Eight lines without calls.
fn empty_lines(alloc: Global) -> Result<Vec<Calls>, AllocError>
    ensures { IfOk result (λ lines. lines.items ≡ replicate 8 []) }
{
    let mut lines = Vec::new(alloc);
    for _line in 0..8u8 {
        lines.push(Calls::new(Vec::new(alloc)))?;
    }
    Ok(lines)
}

/// The matrix with the same setup, in which eight threads make no calls.
fn without_calls(
    alloc: Global,
    component: &Component,
    matrix: &Matrix,
) -> Result<Option<Matrix>, AllocError>
    requires { CanRun component.now matrix.now }
    ensures made { IfOk result (λ new. IsSome new) }
    ensures calls { IfOk result (λ new. IfSome new (λ idle. idle ≡ idle_matrix matrix.now.setup)) }
    ensures runs { IfOk result (λ new. IfSome new (λ idle. CanRun component.now idle)) }
{
    let setup = Calls::new(copies_of(alloc, matrix.setup().as_slice())?);
    let lines = empty_lines(alloc)?;
    Ok(Matrix::new(component, setup, lines))
}

/// The position before any call of the run.
pub(crate) fn start_of(
    alloc: Global,
    component: &Component,
    matrix: &Matrix,
) -> Result<Position, AllocError>
    requires { CanRun component.now matrix.now }
    ensures { IfOk result (IsStartPosition component.now matrix.now.setup) }
{
    let Some(idle) = without_calls(alloc, component, matrix)? else {
        unreachable!();
    };
    let machine = Machine::start(alloc, component, &idle)?;
    let position = machine.position(alloc)?;
    Ok(position)
}

/// The table with the state of this position, and no answers.
pub(crate) fn first_table(alloc: Global, position: Position) -> Result<Table, AllocError>
    ensures { IfOk result (IsFirstTable position) }
{
    let mut positions = Vec::new(alloc);
    positions.push(position)?;
    let mut states = IndexSet::new(alloc);
    states.insert(Rests { positions })?;
    Ok(Table {
        states,
        answers: IndexMap::new(alloc),
    })
}
