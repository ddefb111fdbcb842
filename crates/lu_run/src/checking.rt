//! Whether a list of events is a run.

ghost use Rattle.std.specs.Prelude.{◌≡◌, ◌↔◌, IsTrue, length};
ghost use Rattle.lu_test.specs.Matrix.{AreArguments};
ghost use Rattle.lu_run.specs.Checking.{Accepts};
ghost use Rattle.lu_run.specs.Runs.{IsRun};
ghost use Rattle.lu_run.specs.Tables.{AreCallsOf, IsCallFor};

use crate::run::{Run, RunEvent};
use lu_component::{Component, Op};
use lu_test::Call;

/// The threads that have a pending call after the event. None where the event may not come next.
fn accept(calls: &[Call], pending: &[bool; 8], event: RunEvent) -> Option<[bool; 8]>
    ensures { Accepts calls.now pending.now event result }
{
    let mut next = *pending;
    match event {
        RunEvent::Call { thread, call } => {
            if thread >= 8 {
                return None;
            }
            if call as usize >= calls.len() {
                return None;
            }
            if pending[usize::from(thread)] {
                return None;
            }
            next[usize::from(thread)] = true;
            Some(next)
        }
        RunEvent::Return { thread, .. } => {
            if thread >= 8 {
                return None;
            }
            if !pending[usize::from(thread)] {
                return None;
            }
            next[usize::from(thread)] = false;
            Some(next)
        }
    }
}

/// Whether the events are those of a run: they refer to calls and to threads 0 to 7, and each thread
/// makes one call at a time.
pub fn is_run(run: &Run) -> bool
    ensures { IsTrue result ↔ IsRun run.now.calls.items run.now.events.items }
{
    let mut pending = [false; 8];
    for event in &run.events {
        match accept(&run.calls, &pending, *event) {
            None => return false,
            Some(next) => pending = next,
        }
    }
    true
}

/// Whether the call has as many arguments as the operation, at most 4.
fn fits(op: &Op, call: &Call) -> bool
    ensures { IsTrue result ↔ ((length call.now.args ≡ op.now.args) × AreArguments call.now.args) }
{
    let numbers = call.args.as_slice();
    if numbers.len() != usize::from(op.args) {
        return false;
    }
    numbers.len() <= 4
}

/// Whether the component has the call's operation, with as many arguments.
fn is_call_for(component: &Component, call: &Call) -> bool
    ensures { IsTrue result ↔ IsCallFor component.now call.now }
{
    match component.operations().get(usize::from(call.op)) {
        None => false,
        Some(op) => fits(op, call),
    }
}

/// Whether the component has the operation of each call, with as many arguments.
pub fn are_calls_of(component: &Component, calls: &[Call]) -> bool
    ensures { IsTrue result ↔ AreCallsOf component.now calls.now }
{
    for call in calls {
        if !is_call_for(component, call) {
            return false;
        }
    }
    true
}
