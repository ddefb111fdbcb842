//! Open operations.

ghost use Rattle.std.specs.Prelude.{◌≡◌, ◌↔◌, ℕ, IsTrue};
ghost use Rattle.lu_machine.specs.Steps.{picks_of};
ghost use Rattle.lu_serial.specs.Serial.{HasOpen};
ghost use Rattle.lu_client.specs.Clients.{AllBlocked};
ghost use Rattle.lu_linearization.specs.Monitors.{by_thread};
ghost use Rattle.lu_always.specs.Nodes.{is_waiting, waits_in};

use lu_machine::{Activity, Machine};

/// Whether the thread has an open operation.
pub(crate) fn is_waiting(machine: &Machine<'_>, thread: u8) -> bool
    ensures { result ≡ is_waiting machine.now thread }
{
    match machine.standing(thread) {
        None => false,
        Some(standing) => match standing.activity {
            Activity::Idle => false,
            Activity::Open(_) => true,
        },
    }
}

/// The thread, if an operation of it is open.
fn pending_of(machine: &Machine<'_>, thread: u8) -> Option<u8>
    ensures { result ≡ waits_in machine.now thread }
{
    if is_waiting(machine, thread) {
        return Some(thread);
    }
    None
}

/// The threads with open operations.
pub(crate) fn pending(machine: &Machine<'_>) -> [Option<u8>; 8]
    ensures { (t : ℕ) → waits_in machine.now t ≡ by_thread result t }
{
    let few = machine.threads();
    [
        pending_of(machine, 0),
        pending_of(machine, 1),
        pending_of(machine, 2),
        pending_of(machine, 3),
        pending_of(machine, 4),
        pending_of(machine, 5),
        pending_of(machine, 6),
        pending_of(machine, 7),
    ]
}

/// Whether the thread has no open operation, or one that is blocked.
fn is_at_stop(machine: &Machine<'_>, thread: u8) -> bool
    ensures { IsTrue result ↔ (HasOpen machine.now thread → picks_of machine.now thread ≡ 0) }
{
    if is_waiting(machine, thread) {
        return machine.picks(thread) == 0;
    }
    true
}

/// Whether each open operation is blocked.
pub(crate) fn is_blocked(machine: &Machine<'_>) -> bool
    ensures { IsTrue result ↔ AllBlocked machine.now }
{
    for thread in 0..machine.threads() {
        if !is_at_stop(machine, thread) {
            return false;
        }
    }
    true
}

/// Whether no operation is open.
pub(crate) fn is_quiet(machine: &Machine<'_>) -> bool
    ensures { IsTrue result ↔ ((t : ℕ) → HasOpen machine.now t → ⊥) }
{
    for thread in 0..machine.threads() {
        if is_waiting(machine, thread) {
            return false;
        }
    }
    true
}
