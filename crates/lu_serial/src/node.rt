//! A node of the tree of serial schedules.

ghost use Rattle.std.specs.Prelude.{◌≡◌, ◌↔◌, [], IsTrue, IfOk};
ghost use Rattle.lu_machine.specs.Ends.{HasMove};
ghost use Rattle.lu_machine.specs.Tests.{IsWithinLimits, IsStartOf};
ghost use Rattle.lu_machine.specs.Steps.{IsFeasible};
ghost use Rattle.lu_machine.specs.Undoes.{CanTake, restored};
ghost use Rattle.lu_serial.specs.Walks.{AreTurns, HasEntered, HasLeft, HasCountRoom, HasMoved, HasSerialMove, IsFull, IsOpenIn, open_after};

use lu_history::{SerialOp, SerialOutcome};
use lu_machine::{Event, Machine, Status, Test, Undo};
use lu_test::Move;
use std::alloc::{AllocError, Global};

/// The open operation: its thread, and how many moves it has taken after its call.
#[derive(Clone, Copy)]
pub(crate) struct OpenCall {
    pub(crate) thread: u8,
    pub(crate) taken: u16,
}

/// A machine, with the serial operations of the path that led to its state.
#[derive(Drop)]
pub(crate) struct SerialNode<'a> {
    pub(crate) machine: Machine<'a>,
    pub(crate) entries: Vec<SerialOp>,
}

impl<'a> SerialNode<'a> {
    /// The start of a run.
    pub(crate) fn start(alloc: Global, test: Test<'a>) -> Result<SerialNode<'a>, AllocError>
        ensures machine { IfOk result (λ node. IsStartOf test.entry node.machine) }
        ensures entries { IfOk result (λ node. node.entries.items ≡ []) }
        ensures limits { IsWithinLimits test.entry }
    {
        Ok(SerialNode {
            machine: Machine::start(alloc, test.component, test.matrix)?,
            entries: Vec::new(alloc),
        })
    }

    /// Makes the move here.
    pub(crate) fn enter(&mut self, next: Move) -> Result<Undo, AllocError>
        requires { IsFeasible self.old.machine next }
        ensures step { IfOk result (λ undo. HasMoved next undo self.old self.new) }
        ensures entries { IfOk result (λ undo. HasEntered undo self.old self.new) }
        ensures back { IfOk result (λ undo. restored undo self.new.machine ≡ self.old.machine) }
        ensures fits { IfOk result (λ undo. CanTake self.new.machine undo) }
    {
        let undo = self.machine.apply(next);
        if let Some(Event::Return { t, outcome, k: _ }) = undo.event() {
            self.entries.push(SerialOp {
                thread: t,
                outcome: SerialOutcome::from(outcome),
            })?;
        }
        Ok(undo)
    }

    /// Takes back the move that was made last.
    pub(crate) fn leave(&mut self, undo: Undo)
        requires { CanTake self.old.machine undo }
        ensures machine { self.new.machine ≡ restored undo self.old.machine }
        ensures entries { HasLeft undo self.old self.new }
    {
        if let Some(Event::Return { .. }) = undo.event() {
            self.entries.pop();
        }
        self.machine.undo(undo);
    }
}

/// The operation that is open after a move of the thread with this event.
pub(crate) fn open_after(
    current: Option<OpenCall>,
    thread: u8,
    event: Option<Event>,
) -> Option<OpenCall>
    requires { HasCountRoom current }
    ensures { result ≡ open_after current thread event }
{
    match event {
        Some(Event::Call { .. }) => Some(OpenCall { thread, taken: 0 }),
        Some(Event::Return { .. }) => None,
        None => current.map(|open| OpenCall {
            thread: open.thread,
            taken: open.taken + 1,
        }),
    }
}

/// Whether the open operation has taken as many moves as it may.
pub(crate) fn is_full(current: Option<OpenCall>, bound: u16) -> bool
    ensures { IsTrue result ↔ IsFull current bound }
{
    current.is_some_and(|open| open.taken == bound)
}

/// Whether some thread is enabled.
fn is_running(machine: &Machine) -> bool
    ensures { IsTrue result ↔ HasMove machine.now }
{
    matches!(machine.status(), Status::Running)
}

/// Whether some move goes on serially.
pub(crate) fn goes_on(machine: &Machine, current: Option<OpenCall>) -> bool
    requires { IsOpenIn machine.now current }
    ensures { IsTrue result ↔ HasSerialMove machine.now }
{
    match current {
        None => is_running(machine),
        Some(current) => machine.enabled(current.thread),
    }
}

/// The threads whose moves may go on serially: from the first to before the second.
pub(crate) fn turns(machine: &Machine, current: Option<OpenCall>) -> (u8, u8)
    requires { IsOpenIn machine.now current }
    ensures { AreTurns machine.now result.0 result.1 }
{
    let threads = machine.threads();
    match current {
        None => (0, threads),
        Some(current) => (current.thread, current.thread + 1),
    }
}
