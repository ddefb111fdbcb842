//! Which nodes are good.

ghost use Rattle.std.specs.Prelude.{◌≡◌, ◌↔◌, IfOk, IsTrue, OnOk, [], false, true};
ghost use Rattle.lu_machine.specs.Positions.{CanStandAt, at_position};
ghost use Rattle.lu_always.specs.Nodes.{IsGoodNode};
ghost use Rattle.lu_always.specs.Searching.{AllCanBeStuck, CanBeStuckIfOpen, node_at};
ghost use Rattle.lu_always.specs.StepSearch.{IsBadCallOf, IsFineCallOf, IsFirstBadCall, IsJudgedAt};
ghost use Rattle.lu_answers.specs.Tables.{table_of};

use crate::given::Given;
use crate::standing::{is_blocked, is_quiet, is_waiting};
use crate::stepping::client_step;
use lu_answers::AnswerTable;
use lu_linearization::Monitor;
use lu_machine::{Machine, Position};
use lu_test::Move;
use std::alloc::AllocError;

/// How a node is judged.
#[derive(Clone, Copy)]
pub(crate) enum Judged {
    /// One of its open operations is not blocked. Or all are blocked, it is good, and each call that
    /// would be blocked at once can be stuck.
    Good,

    /// All its open operations are blocked, and it is not good.
    Bad,

    /// All its open operations are blocked. This call would be blocked at once, and cannot be stuck.
    BadAfterCall(Move),
}

/// Whether the thread has no open operation, or one that can be stuck.
fn can_be_stuck(machine: &Machine<'_>, monitor: &Monitor, table: &AnswerTable, thread: u8) -> bool
    ensures { IsTrue result ↔ CanBeStuckIfOpen table.now machine.now monitor.now thread }
{
    if is_waiting(machine, thread) {
        return monitor.can_be_stuck(table, thread);
    }
    true
}

/// Whether each open operation can be stuck.
fn all_can_be_stuck(machine: &Machine<'_>, monitor: &Monitor, table: &AnswerTable) -> bool
    ensures { IsTrue result ↔ AllCanBeStuck table.now machine.now monitor.now }
{
    for thread in 0..machine.threads() {
        if !can_be_stuck(machine, monitor, table, thread) {
            return false;
        }
    }
    true
}

/// Whether the node of this state and this monitor is good: where no operation is open, the history
/// has a linearization; and each open operation can be stuck.
pub fn is_good(machine: &Machine<'_>, monitor: &Monitor, table: &AnswerTable) -> bool
    ensures { IsTrue result
        ↔ IsGoodNode (table_of [] table.now) (node_at machine.now monitor.now) }
{
    if is_quiet(machine) {
        return !monitor.is_empty();
    }
    all_can_be_stuck(machine, monitor, table)
}

/// Whether the idle thread's next call would be blocked at once, and cannot be stuck.
fn is_bad_call(
    given: Given<'_>,
    machine: &mut Machine<'_>,
    home: &Position,
    monitor: &Monitor,
    thread: u8,
) -> Result<bool, AllocError>
    requires stands { CanStandAt machine.old.component machine.old.matrix home.now }
    requires here { at_position machine.old home.now ≡ machine.old }
    ensures home { OnOk result (machine.new ≡ machine.old) }
    ensures bad { IfOk result (λ bad.
        bad ≡ true → IsBadCallOf given.entry machine.old monitor.now thread) }
    ensures fine { IfOk result (λ bad.
        bad ≡ false → IsFineCallOf given.entry machine.old monitor.now thread) }
{
    if is_waiting(machine, thread) || machine.picks(thread) == 0 {
        return Ok(false);
    }
    client_step(given.alloc, machine, given.rounds, Move { thread, pick: 0 })?;
    let is_blocked = machine.picks(thread) == 0;
    machine.stand_at(home);
    if is_blocked {
        return Ok(!monitor.can_be_stuck(given.table, thread));
    }
    Ok(false)
}

/// The first call that would be blocked at once, and cannot be stuck.
fn first_bad_call(
    given: Given<'_>,
    machine: &mut Machine<'_>,
    home: &Position,
    monitor: &Monitor,
) -> Result<Option<Move>, AllocError>
    requires stands { CanStandAt machine.old.component machine.old.matrix home.now }
    requires here { at_position machine.old home.now ≡ machine.old }
    ensures home { OnOk result (machine.new ≡ machine.old) }
    ensures first { IfOk result (IsFirstBadCall given.entry machine.old monitor.now) }
{
    for thread in 0..machine.threads() {
        let bad = is_bad_call(given, machine, home, monitor, thread)?;
        if bad {
            return Ok(Some(Move { thread, pick: 0 }));
        }
    }
    Ok(None)
}

/// How the node of this state and this monitor is judged. The machine returns to the state.
pub(crate) fn judge(
    given: Given<'_>,
    machine: &mut Machine<'_>,
    home: &Position,
    monitor: &Monitor,
) -> Result<Judged, AllocError>
    requires stands { CanStandAt machine.old.component machine.old.matrix home.now }
    requires here { at_position machine.old home.now ≡ machine.old }
    ensures home { OnOk result (machine.new ≡ machine.old) }
    ensures judged { IfOk result (IsJudgedAt given.entry machine.old monitor.now) }
{
    if !is_blocked(machine) {
        return Ok(Judged::Good);
    }
    if !is_good(machine, monitor, given.table) {
        return Ok(Judged::Bad);
    }
    match first_bad_call(given, machine, home, monitor)? {
        None => Ok(Judged::Good),
        Some(call) => Ok(Judged::BadAfterCall(call)),
    }
}
