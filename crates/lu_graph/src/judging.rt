//! How an ended state is judged, by the members that are alive.

ghost use Rattle.std.specs.Prelude.{◌≡◌, ◌↔◌, Some, IsTrue};
ghost use Rattle.lu_history.specs.declared.serial.SerialOutcome.TheVariants.{Stuck};
ghost use Rattle.lu_machine.specs.Ends.{IsEnded};
ghost use Rattle.lu_graph.specs.Judging.{AllHaveWhole, HasWhole, IsStuckIn, IsWhole, JudgesGood, ended, room};

use crate::alive::was_alive;
use crate::members::{count, position_of};
use crate::standing::{called, ended, is_waiting};
use lu_history::{SerialOp, SerialOutcome};
use lu_machine::{Machine, Status};

/// Whether the machine has ended.
pub(crate) fn has_ended(machine: &Machine<'_>) -> bool
    ensures { IsTrue result ↔ IsEnded machine.now }
{
    match machine.status() {
        Status::Running => false,
        Status::Complete => true,
        Status::Stuck => true,
    }
}

/// How many operations of the thread can stand in a witness: those that ended, or, of the thread
/// that waits, those that are called.
fn room(machine: &Machine<'_>, waiting: Option<u8>, thread: u8) -> usize
    ensures { result ≡ room machine.now waiting thread }
{
    match waiting {
        None => ended(machine, thread),
        Some(waits) => {
            if waits == thread {
                called(machine, thread)
            } else {
                ended(machine, thread)
            }
        }
    }
}

/// Whether an operation that ended so is stuck.
fn is_stuck_so(outcome: SerialOutcome) -> bool
    ensures { IsTrue result ↔ (outcome ≡ Stuck) }
{
    outcome == SerialOutcome::Stuck
}

/// Whether the thread's operation after those that ended is stuck in the member.
fn is_stuck(machine: &Machine<'_>, member: &[SerialOp], thread: u8) -> bool
    ensures { IsTrue result ↔ IsStuckIn machine.now member.now thread }
{
    match position_of(member, thread, ended(machine, thread)) {
        None => false,
        Some(position) => is_stuck_so(member[position].outcome),
    }
}

/// Whether the member has of each thread no more than there is room for, and its operation of the
/// thread that waits, if any, is stuck.
fn is_whole(machine: &Machine<'_>, member: &[SerialOp], waiting: Option<u8>) -> bool
    ensures { IsTrue result ↔ IsWhole machine.now waiting member.now }
{
    for op in member {
        if count(member, op.thread) > room(machine, waiting, op.thread) {
            return false;
        }
    }
    match waiting {
        None => true,
        Some(thread) => is_stuck(machine, member, thread),
    }
}

/// Whether some member that is alive is whole.
fn has_whole(
    machine: &Machine<'_>,
    members: &[Vec<SerialOp>],
    alive: &[bool],
    waiting: Option<u8>,
) -> bool
    ensures { IsTrue result ↔ HasWhole machine.now waiting members.now alive.now }
{
    for number in 0..members.len() {
        if was_alive(alive, number) {
            if is_whole(machine, &members[number], waiting) {
                return true;
            }
        }
    }
    false
}

/// Whether for each thread that waits some member that is alive is whole.
fn all_have_whole(machine: &Machine<'_>, members: &[Vec<SerialOp>], alive: &[bool]) -> bool
    ensures { IsTrue result ↔ AllHaveWhole machine.now members.now alive.now }
{
    for thread in 0..machine.threads() {
        if is_waiting(machine, thread) {
            if !has_whole(machine, members, alive, Some(thread)) {
                return false;
            }
        }
    }
    true
}

/// Whether a schedule that ends where the machine stands is good, where these members are alive;
/// true where the machine has not ended.
pub(crate) fn is_good(machine: &Machine<'_>, members: &[Vec<SerialOp>], alive: &[bool]) -> bool
    ensures { JudgesGood members.now machine.now alive.now result }
{
    match machine.status() {
        Status::Running => true,
        Status::Complete => has_whole(machine, members, alive, None),
        Status::Stuck => all_have_whole(machine, members, alive),
    }
}
