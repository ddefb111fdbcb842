//! The unrolled matrix whose calls are made in some moves.

ghost use Rattle.std.specs.Prelude.{IfOk, IfSome};
ghost use Rattle.lu_machine.specs.Starts.{CanRun};
ghost use Rattle.lu_client.specs.Rounds.{IsUnrolledFrom};
ghost use Rattle.lu_answers.specs.Ways.{way_of};

use crate::unrolling::{are_within, unroll};
use lu_always::client_step;
use lu_answers::Rounds;
use lu_component::Component;
use lu_machine::{Event, Machine};
use lu_test::{Matrix, Move};
use std::alloc::{AllocError, Global};

/// How many calls each thread makes in these moves, thread 0 first. No more than 255 are counted,
/// and none after a move that is not feasible.
fn calls_made(
    alloc: Global,
    machine: &mut Machine<'_>,
    rounds: Rounds,
    moves: &[Move],
) -> Result<[u8; 8], AllocError> {
    let mut counts = [0; 8];
    for next in moves {
        if !machine.feasible(*next) {
            return Ok(counts);
        }
        if let Some(Event::Call { t, .. }) = client_step(alloc, machine, rounds, *next)? {
            if let Some(count) = counts.get_mut(usize::from(t)) {
                *count = count.saturating_add(1);
            }
        }
    }
    Ok(counts)
}

/// The matrix that is unrolled from this one, in which each thread makes as many calls as in these
/// moves. None where these are too many for a matrix. For the moves that
/// [`certify_rounds`](crate::certify_rounds) gives, it is meant to be the matrix of which they are
/// a schedule; that it is so is not proved, so whoever relies on it certifies the matrix.
///
/// # Errors
///
/// Out of memory.
pub fn unroll_for(
    alloc: Global,
    component: &Component,
    matrix: &Matrix,
    rounds: Rounds,
    moves: &[Move],
) -> Result<Option<Matrix>, AllocError>
    requires { CanRun component.now matrix.now }
    ensures unrolled { IfOk result
        (λ m. IfSome m (λ big. IsUnrolledFrom (way_of rounds) matrix.now big)) }
    ensures runs { IfOk result (λ m. IfSome m (λ big. CanRun component.now big)) }
{
    let mut machine = Machine::start(alloc, component, matrix)?;
    let counts = calls_made(alloc, &mut machine, rounds, moves)?;
    if !are_within(matrix, rounds, &counts) {
        return Ok(None);
    }
    unroll(alloc, component, matrix, rounds, &counts)
}
