//! Which members of a set are possible still: witnesses of histories that go on.

ghost use Rattle.std.specs.Prelude.{◌≡◌, ◌↔◌, IfOk, IsTrue, false, get_or};
ghost use Rattle.lu_history.specs.Parts.{as_serial};
ghost use Rattle.lu_graph.specs.Judging.{AreCalled, StayPossibleIn, TellsAdmits, TellsStays};

use crate::members::position_of;
use crate::possibilities::ReturnAt;
use lu_history::{SerialOp, SerialOutcome};
use lu_machine::Outcome;
use std::alloc::{AllocError, Global};

/// Whether there are no more operations of any thread than are called.
fn are_called(front: &[SerialOp], called: &[u16; 8]) -> bool
    ensures { IsTrue result ↔ AreCalled called.now front.now }
{
    let mut left = *called;
    for op in front {
        let thread = usize::from(op.thread);
        if thread >= left.len() || left[thread] == 0 {
            return false;
        }
        left[thread] -= 1;
    }
    true
}

/// Whether an operation that returns with this outcome ended so.
fn is_ended_so(ended: SerialOutcome, outcome: Outcome) -> bool
    ensures { IsTrue result ↔ (ended ≡ as_serial outcome) }
{
    ended == SerialOutcome::from(outcome)
}

/// Whether a member that was possible stays so after the return.
fn admits(member: &[SerialOp], at: &ReturnAt) -> bool
    ensures { TellsAdmits member.now at.now result }
{
    let position = match position_of(member, at.operation.t, usize::from(at.operation.k)) {
        None => return false,
        Some(position) => position,
    };
    if !is_ended_so(member[position].outcome, at.outcome) {
        return false;
    }
    are_called(&member[..position], &at.calls)
}

/// Whether a member stays possible after the return, if it was.
fn stays(member: &[SerialOp], was: bool, at: &ReturnAt) -> bool
    ensures { TellsStays member.now at.now was result }
{
    if was {
        return admits(member, at);
    }
    false
}

/// Whether the member of this number was possible. One of which nothing is said was not.
pub(crate) fn was_alive(alive: &[bool], number: usize) -> bool
    ensures { result ≡ get_or alive.now number false }
{
    match alive.get(number) {
        None => false,
        Some(was) => *was,
    }
}

/// Which of the members stay possible after the return, where these were before.
pub(crate) fn still_alive(
    alloc: Global,
    members: &[Vec<SerialOp>],
    alive: &[bool],
    at: &ReturnAt,
) -> Result<Vec<bool>, AllocError>
    ensures { IfOk result (StayPossibleIn members.now at.now alive.now) }
{
    let mut now = Vec::with_capacity(alloc, members.len())?;
    for number in 0..members.len() {
        let stays = stays(&members[number], was_alive(alive, number), at);
        now.push_reserved(stays);
    }
    Ok(now)
}
