//! Unrolled matrices.

ghost use Rattle.std.specs.Prelude.{◌≡◌, ◌++◌, ◌≤◌, ◌↔◌, All, IfOk, IfSome, IsTrue, OnOk, length, sum_by};
ghost use Rattle.lu_machine.specs.Starts.{CanRun};
ghost use Rattle.lu_answers.specs.declared.rounds.Rounds.TheVariants.{One};
ghost use Rattle.lu_client.specs.Rounds.{IsUnrolledFrom};
ghost use Rattle.lu_answers.specs.Ways.{way_of};
ghost use Rattle.lu_forever.specs.Unrolled.{AreWithin, count_at, first_of_rounds, rows_from, unrolled};

use lu_answers::Rounds;
use lu_component::Component;
use lu_test::{Call, Calls, MOST_CALLS, MOST_CALLS_OF_THREAD, Matrix, copy_call, copy_calls};
use std::alloc::{AllocError, Global};

/// Adds copies of the calls.
pub(crate) fn push_all(
    alloc: Global,
    line: &[Call],
    calls: &mut Vec<Call>,
) -> Result<(), AllocError>
    ensures { OnOk result (calls.new.items ≡ calls.old.items ++ line.now) }
{
    for call in line {
        calls.push(copy_call(alloc, call)?)?;
    }
    Ok(())
}

/// The first `count` calls of the line, made over and over: none where the line is empty.
fn rounds_of(alloc: Global, line: &[Call], count: u8) -> Result<Calls, AllocError>
    ensures { IfOk result (λ calls. calls ≡ first_of_rounds line.now count) }
{
    let mut calls = Vec::new(alloc);
    for _round in 0..count {
        push_all(alloc, line, &mut calls)?;
    }
    calls.truncate(usize::from(count));
    Ok(Calls::new(calls))
}

/// Number `t` of these, or 0 where there is none.
fn count_at(counts: &[u8], t: usize) -> u8
    ensures { result ≡ count_at counts.now t }
{
    counts.get(t).copied().unwrap_or(0)
}

/// Of each line, that of thread 0 first, as many calls as its count says.
fn rows_of(alloc: Global, lines: &[Calls], counts: &[u8]) -> Result<Vec<Calls>, AllocError>
    ensures { IfOk result (λ rows. rows.items ≡ rows_from counts.now lines.now 0) }
{
    let mut rows = Vec::new(alloc);
    for t in 0..lines.len() {
        let row = rounds_of(alloc, lines[t].as_slice(), count_at(counts, t))?;
        rows.push(row)?;
    }
    Ok(rows)
}

/// Whether no thread has more than 8 calls.
fn are_short(rows: &[Calls]) -> bool
    ensures { IsTrue result ↔ All (λ calls. length calls ≤ 8) rows.now }
{
    rows.iter()
        .all(|calls| calls.as_slice().len() <= MOST_CALLS_OF_THREAD)
}

/// The number of calls of all threads.
fn total_of(rows: &[Calls]) -> usize
    requires { sum_by length rows.now ≤ 64 }
    ensures { result ≡ sum_by length rows.now }
{
    rows.iter().map(|calls| calls.as_slice().len()).sum()
}

/// Whether a matrix may have these rows.
pub(crate) fn fit(rows: &[Calls]) -> bool
    requires { length rows.now ≤ 8 }
    ensures short { IsTrue result → All (λ calls. length calls ≤ 8) rows.now }
    ensures few { IsTrue result → sum_by length rows.now ≤ 16 }
{
    are_short(rows) && total_of(rows) <= MOST_CALLS
}

/// Whether no thread makes more calls than its line has.
fn are_few(matrix: &Matrix, counts: &[u8; 8]) -> bool
    ensures { IsTrue result → AreWithin One counts.now matrix.now }
{
    for t in 0..8u8 {
        if counts[usize::from(t)] > matrix.calls(t) {
            return false;
        }
    }
    true
}

/// Whether threads may make this many calls of their lines.
pub(crate) fn are_within(matrix: &Matrix, rounds: Rounds, counts: &[u8; 8]) -> bool
    ensures { IsTrue result → AreWithin rounds counts.now matrix.now }
{
    match rounds {
        Rounds::One => are_few(matrix, counts),
        Rounds::Any => true,
    }
}

/// The matrix in which thread t makes the first `counts[t]` calls of its line, made over and over,
/// after the same setup. A thread for which there is no count makes none, and so does one whose line
/// is empty. None where a thread would have more than 8 calls, or all together more than 16.
///
/// # Errors
///
/// Out of memory.
pub fn unroll(
    alloc: Global,
    component: &Component,
    matrix: &Matrix,
    rounds: Rounds,
    counts: &[u8],
) -> Result<Option<Matrix>, AllocError>
    requires runs { CanRun component.now matrix.now }
    requires within { AreWithin rounds counts.now matrix.now }
    ensures made { IfOk result (λ m. IfSome m (λ big. big ≡ unrolled matrix.now counts.now)) }
    ensures unrolled { IfOk result
        (λ m. IfSome m (λ big. IsUnrolledFrom (way_of rounds) matrix.now big)) }
    ensures runs { IfOk result (λ m. IfSome m (λ big. CanRun component.now big)) }
{
    let rows = rows_of(alloc, matrix.as_slice(), counts)?;
    if !fit(&rows) {
        return Ok(None);
    }
    let setup = copy_calls(alloc, matrix.setup().as_slice())?;
    Ok(Matrix::new(component, setup, rows))
}
