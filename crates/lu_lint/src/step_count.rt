//! How many steps the serial runs of a test have.

ghost use Rattle.std.specs.Prelude.{◌≡◌, ◌≤◌, ◌-◌};
ghost use Rattle.lu_lint.specs.Steps as spec;
ghost use Rattle.lu_lint.specs.Steps.{AreTurns, FindsManySteps, HasSteps};

use lu_machine::{Event, Machine, Test};
use lu_test::Move;
use std::alloc::{AllocError, Global};

/// The greatest number of serial steps that are looked at.
pub const MOST_STEPS: u32 = 100_000;

/// The open operation: its thread, and how many moves it may still take.
#[derive(Clone, Copy)]
pub(crate) struct OpenCall {
    pub(crate) thread: u8,
    pub(crate) left: u16,
}

/// The operation that is open after a move of the thread with this event.
fn open_after(
    bound: u16,
    current: Option<OpenCall>,
    thread: u8,
    event: Option<Event>,
) -> Option<OpenCall>
    ensures { result ≡ spec.open_after bound current thread event }
{
    match event {
        Some(Event::Call { .. }) => Some(OpenCall {
            thread,
            left: bound,
        }),
        Some(Event::Return { .. }) => None,
        None => current.map(|open| OpenCall {
            thread: open.thread,
            left: open.left.saturating_sub(1),
        }),
    }
}

/// The threads that may go on serially: from the first to before the second.
fn turns(machine: &Machine<'_>, current: Option<OpenCall>) -> (u8, u8)
    ensures { AreTurns current result.0 result.1 }
{
    match current {
        None => (0, machine.threads()),
        Some(open) => {
            if open.left == 0 {
                (0, 0)
            } else {
                (open.thread, open.thread.saturating_add(1))
            }
        }
    }
}

/// How many of `left` steps are left after those of the serial runs that go on from here. No more
/// than `left` are made.
fn steps_left(bound: u16, machine: &mut Machine<'_>, current: Option<OpenCall>, left: u32) -> u32
    ensures home { machine.new ≡ machine.old }
    ensures few { result ≤ left }
    ensures steps { HasSteps bound machine.old current (left - result) }
{
    if left == 0 {
        return 0;
    }
    let mut rest = left;
    let (first, end) = turns(machine, current);
    for thread in first..end {
        for pick in 0..machine.picks(thread) {
            let undo = machine.apply(Move { thread, pick });
            let below = open_after(bound, current, thread, undo.event());
            rest = steps_left(bound, machine, below, rest.saturating_sub(1));
            machine.undo(undo);
        }
    }
    rest
}

/// Whether the serial runs have too many steps to look at them. An operation may take `bound` moves
/// after its call.
pub(crate) fn has_many_steps(alloc: Global, test: Test<'_>, bound: u16) -> Result<bool, AllocError>
    ensures { FindsManySteps result test.entry bound }
{
    let mut machine = Machine::start(alloc, test.component, test.matrix)?;
    Ok(steps_left(bound, &mut machine, None, MOST_STEPS + 1) == 0)
}
