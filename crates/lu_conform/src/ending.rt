//! Whether a stage shows a recorded history.

ghost use Rattle.std.specs.Prelude.{◌↔◌, IsTrue};
ghost use Rattle.lu_machine.specs.Ends.{IsStuck};
ghost use Rattle.lu_conform.specs.Showing.{HasPendingCall, IsEndOf};
ghost use Rattle.lu_conform.specs.Stages.{stage_of};

use lu_history::History;
use lu_machine::{Machine, Status};
use lu_recorded::Recorded;

/// Whether some call is pending.
fn has_pending(history: &History) -> bool
    ensures { IsTrue result ↔ HasPendingCall history.now }
{
    for t in 0..8 {
        if history.pending(t) {
            return true;
        }
    }
    false
}

/// Whether the machine is stuck.
fn is_stuck(machine: &Machine<'_>) -> bool
    ensures { IsTrue result ↔ IsStuck machine.now }
{
    match machine.status() {
        Status::Running => false,
        Status::Complete => false,
        Status::Stuck => true,
    }
}

/// Whether a schedule that leads where the machine stands, with this many first events of the
/// history, shows it: all were seen, and the machine is stuck where the recorded run was.
pub(crate) fn is_end(machine: &Machine<'_>, recorded: &Recorded, seen: usize) -> bool
    ensures { IsTrue result ↔ IsEndOf recorded.now (stage_of machine.now seen) }
{
    if seen != recorded.history.events().len() {
        return false;
    }
    if recorded.is_stuck && has_pending(&recorded.history) {
        return is_stuck(machine);
    }
    true
}
