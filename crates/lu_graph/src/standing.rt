//! How many operations of a thread have ended, and are called.

ghost use Rattle.std.specs.Prelude.{◌≡◌, ◌≤◌};
ghost use Rattle.lu_graph.specs.Judging.{called, ended, is_waiting};
ghost use Rattle.lu_machine.specs.declared.TheConstants.{MOST_MOVES};

use lu_machine::{Activity, Machine};

/// How many of the thread's operations have ended.
pub(crate) fn ended(machine: &Machine<'_>, thread: u8) -> usize
    ensures { result ≡ ended machine.now thread }
{
    match machine.standing(thread) {
        None => 0,
        Some(standing) => usize::from(standing.done),
    }
}

/// Whether one more is open.
pub(crate) fn is_waiting(machine: &Machine<'_>, thread: u8) -> bool
    ensures { result ≡ is_waiting machine.now thread }
{
    match machine.standing(thread) {
        None => false,
        Some(standing) => match standing.activity {
            Activity::Idle => false,
            Activity::Open(_) => true,
        },
    }
}

/// How many are called.
pub(crate) fn called(machine: &Machine<'_>, thread: u8) -> usize
    ensures value { result ≡ called machine.now thread }
    ensures few { result ≤ MOST_MOVES }
{
    match machine.standing(thread) {
        None => 0,
        Some(standing) => match standing.activity {
            Activity::Idle => usize::from(standing.done),
            Activity::Open(_) => usize::from(standing.done) + 1,
        },
    }
}
