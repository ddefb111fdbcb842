//! Choices of candidates: a number for each position of a matrix.

ghost use Rattle.std.specs.Prelude.{◌≡◌, ◌<◌, ◌≤◌, IfOk, length, map, replicate, All};
ghost use Rattle.lu_refine.specs.Choices.{candidate_at};
ghost use Rattle.lu_refine.specs.Roles.{AreWithinLimits, bases, calls_per_thread};
ghost use Rattle.lu_refine.specs.ByThread.{CanAsk, IsRoleChoice, asked_of, role_matrix};
ghost use Rattle.lu_test.specs.declared.matrix.TheConstants.{MOST_CALLS_OF_THREAD};

use crate::roles::Roles;
use lu_test::{Call, Calls, MOST_CALLS, Matrix, copy_call, copy_calls};
use smallvec::SmallVec;
use std::alloc::{AllocError, Global};

/// A number for each position of a matrix, thread 0's positions first.
pub(crate) type Positions = SmallVec<u8, MOST_CALLS>;

/// How many calls a thread makes that has these candidates: none where it has none.
fn calls_per_thread(calls: u8, candidates: &Calls) -> u8
    ensures { result ≡ calls_per_thread calls candidates.now }
{
    if candidates.as_slice().is_empty() {
        0
    } else {
        calls
    }
}

/// How many candidates each position has.
pub(crate) fn bases_of(
    alloc: Global,
    candidates: &[Calls],
    calls: u8,
) -> Result<Positions, AllocError>
    requires { All (λ thread. length thread ≤ MOST_CALLS_OF_THREAD) candidates.now }
    ensures { IfOk result (λ found. found.items ≡ bases calls candidates.now) }
{
    let mut found = Positions::new(alloc);
    for thread in candidates {
        let base = thread.as_slice().len() as u8;
        let row = Positions::from_elem(alloc, base, usize::from(calls_per_thread(calls, thread)))?;
        found.extend_from_slice(row.as_slice())?;
    }
    Ok(found)
}

/// The calls of the candidates with these numbers.
fn calls_of(alloc: Global, candidates: &[Call], numbers: &[u8]) -> Result<Calls, AllocError>
    requires { All (λ n. n < length candidates.now) numbers.now }
    ensures { IfOk result (λ calls. calls ≡ map (candidate_at candidates.now) numbers.now) }
{
    let mut calls = Vec::with_capacity(alloc, numbers.len())?;
    for number in numbers {
        calls.push(copy_call(alloc, &candidates[usize::from(*number)])?)?;
    }
    Ok(Calls::new(calls))
}

/// The component's matrix of this setup, in which each thread makes the calls that the choice takes
/// from its candidates.
pub(crate) fn fill(alloc: Global, roles: Roles<'_>, choice: &[u8]) -> Result<Matrix, AllocError>
    requires asked { CanAsk (asked_of roles) }
    requires limits { AreWithinLimits roles.calls roles.candidates.now }
    requires choice { IsRoleChoice (asked_of roles) choice.now }
    ensures { IfOk result (λ m. m ≡ role_matrix (asked_of roles.entry) choice.now) }
{
    let mut chosen_calls = Vec::with_capacity(alloc, roles.candidates.len())?;
    let mut rest = choice;
    for thread in roles.candidates {
        let (row, others) = rest.split_at(usize::from(calls_per_thread(roles.calls, thread)));
        chosen_calls.push(calls_of(alloc, thread.as_slice(), row)?)?;
        rest = others;
    }
    let setup = copy_calls(alloc, roles.setup.as_slice())?;
    Ok(Matrix::new(roles.component, setup, chosen_calls).unwrap())
}

/// The same candidates for each of this many threads, as [`campaign`](crate::campaign) has them.
///
/// # Errors
///
/// `AllocError` where memory was refused.
pub fn same_lists(alloc: Global, candidates: &[Call], threads: u8) -> Result<Vec<Calls>, AllocError>
    ensures { IfOk result (λ lists. lists.items ≡ replicate threads candidates.now) }
{
    let mut lists = Vec::with_capacity(alloc, usize::from(threads))?;
    for _thread in 0..threads {
        lists.push(copy_calls(alloc, candidates)?)?;
    }
    Ok(lists)
}
