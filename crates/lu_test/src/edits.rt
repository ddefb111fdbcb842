//! Matrices made from others: copies, and those with fewer calls.

ghost use Rattle.std.specs.Prelude.{◌≡◌, ◌<◌, ◌≤◌, length, remove};
ghost use Rattle.std.specs.List.{AllZip};
ghost use Rattle.lu_test.specs.Matrix.{alone, calls_of, without, cut};
ghost use Rattle.lu_text.specs.Results.{Builds, HasItems};

use crate::matrix::{Arguments, Call, Calls, Matrix};
use std::alloc::{AllocError, Global};

/// A copy of the call.
///
/// # Errors
///
/// There is no memory for the copy.
pub fn copy_call(alloc: Global, call: &Call) -> Result<Call, AllocError>
    ensures { Builds result call.now }
{
    let numbers = Vec::from_slice(alloc, call.args.as_slice())?;
    Ok(Call {
        op: call.op,
        args: Arguments::new(numbers),
    })
}

/// A copy of the calls.
///
/// # Errors
///
/// There is no memory for the copy.
pub fn copy_calls(alloc: Global, calls: &[Call]) -> Result<Calls, AllocError>
    ensures { Builds result calls.now }
{
    let mut copies = Vec::with_capacity(alloc, calls.len())?;
    for call in calls {
        copies.push(copy_call(alloc, call)?)?;
    }
    Ok(Calls::new(copies))
}

fn copies_of(alloc: Global, threads: &[Calls]) -> Result<Vec<Calls>, AllocError>
    ensures { HasItems result threads.now }
{
    let mut copies = Vec::with_capacity(alloc, threads.len())?;
    for calls in threads {
        copies.push(copy_calls(alloc, calls.as_slice())?)?;
    }
    Ok(copies)
}

/// A copy of the matrix.
///
/// # Errors
///
/// There is no memory for the copy.
pub fn copy_matrix(alloc: Global, matrix: &Matrix) -> Result<Matrix, AllocError>
    ensures { Builds result matrix.now }
{
    let setup = copy_calls(alloc, matrix.setup().as_slice())?;
    let threads = copies_of(alloc, matrix.as_slice())?;
    Ok(Matrix::of_calls(setup, threads))
}

/// The matrix without call number `k` of thread `t`, both from 0. The thread stays, also with no
/// calls, and so does the setup. Asks for a call that is there.
///
/// # Errors
///
/// There is no memory for the smaller matrix.
pub fn remove(alloc: Global, matrix: &Matrix, t: u8, k: u8) -> Result<Matrix, AllocError>
    requires { k < length (calls_of matrix.now t) }
    ensures { Builds result (without matrix.now t k) }
{
    let setup = copy_calls(alloc, matrix.setup().as_slice())?;
    let mut threads = copies_of(alloc, matrix.as_slice())?;
    threads[usize::from(t)].remove(usize::from(k));
    Ok(Matrix::of_calls(setup, threads))
}

/// The matrix of each thread's first calls: of thread `t` as many as `lengths[t]` says. The setup
/// stays. Asks for a length of each thread, at most its number of calls.
///
/// # Errors
///
/// There is no memory for the smaller matrix.
pub fn cut_to(alloc: Global, matrix: &Matrix, lengths: &[u8]) -> Result<Matrix, AllocError>
    requires { AllZip (λ calls n. n ≤ length calls) matrix.now.threads lengths.now }
    ensures { Builds result (cut matrix.now lengths.now) }
{
    let setup = copy_calls(alloc, matrix.setup().as_slice())?;
    let mut threads = Vec::with_capacity(alloc, lengths.len())?;
    for (t, calls) in matrix.as_slice().iter().enumerate() {
        threads.push(copy_calls(alloc, &calls.as_slice()[..usize::from(lengths[t])])?)?;
    }
    Ok(Matrix::of_calls(setup, threads))
}

/// The matrix of one thread that makes the calls of the setup, before which no calls are made.
///
/// # Errors
///
/// There is no memory for the matrix.
pub fn setup_alone(alloc: Global, matrix: &Matrix) -> Result<Matrix, AllocError>
    ensures { Builds result (alone matrix.now.setup) }
{
    let mut threads = Vec::with_capacity(alloc, 1)?;
    threads.push(copy_calls(alloc, matrix.setup().as_slice())?)?;
    Ok(Matrix::of_calls(Calls::new(Vec::new(alloc)), threads))
}
