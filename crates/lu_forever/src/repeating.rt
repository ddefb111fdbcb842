//! The matrix in which each thread makes its line a number of times.

ghost use Rattle.std.specs.Prelude.{◌≡◌, ◌≤◌, IfOk, IfSome, length, map};
ghost use Rattle.lu_machine.specs.Starts.{CanRun};
ghost use Rattle.lu_client.specs.Rounds.{repeated, times};

use crate::unrolling::{fit, push_all};
use lu_component::Component;
use lu_test::{Calls, MOST_CALLS_OF_THREAD, Matrix, copy_calls};
use std::alloc::{AllocError, Global};

/// Whether no line, made this many times, has too many calls for a thread. It saves the work.
fn may_repeat(lines: &[Calls], rounds: u16) -> bool {
    for line in lines {
        let calls = line.as_slice();
        if !calls.is_empty() && usize::from(rounds) > MOST_CALLS_OF_THREAD {
            return false;
        }
    }
    true
}

/// The line, this many times.
fn repeat(alloc: Global, line: &Calls, rounds: u16) -> Result<Calls, AllocError>
    ensures { IfOk result (λ calls. calls ≡ repeated rounds line.now) }
{
    let mut calls = Vec::new(alloc);
    for _round in 0..rounds {
        push_all(alloc, line.as_slice(), &mut calls)?;
    }
    Ok(Calls::new(calls))
}

/// Each of these lines, this many times.
fn repeat_each(alloc: Global, lines: &[Calls], rounds: u16) -> Result<Vec<Calls>, AllocError>
    ensures { IfOk result (λ rows. rows.items ≡ map (repeated rounds) lines.now) }
{
    let mut rows = Vec::new(alloc);
    for line in lines {
        rows.push(repeat(alloc, line, rounds)?)?;
    }
    Ok(rows)
}

/// The matrix with each line this many times. None where a thread would have more than 8 calls, or
/// all together more than 16.
///
/// # Errors
///
/// Out of memory.
pub fn with_rounds(
    alloc: Global,
    component: &Component,
    matrix: &Matrix,
    rounds: u16,
) -> Result<Option<Matrix>, AllocError>
    requires { CanRun component.now matrix.now }
    ensures made { IfOk result (λ m. IfSome m (λ big. big ≡ times rounds matrix.now)) }
    ensures runs { IfOk result (λ m. IfSome m (λ big. CanRun component.now big)) }
{
    if !may_repeat(matrix.as_slice(), rounds) {
        return Ok(None);
    }
    let rows = repeat_each(alloc, matrix.as_slice(), rounds)?;
    if !fit(&rows) {
        return Ok(None);
    }
    let setup = copy_calls(alloc, matrix.setup().as_slice())?;
    Ok(Matrix::new(component, setup, rows))
}
