//! The walk over the serial schedules.

ghost use Rattle.std.specs.Prelude.{◌≡◌, List, IfOk, OnOk};
ghost use Rattle.lu_history.specs.declared.serial.SerialOp.{SerialOp};
ghost use Rattle.lu_history.specs.Serial.{IsSerial};
ghost use Rattle.lu_serial.specs.Walks.{CanWalk, Gathers, GathersHistory, IsHome, Walks, ended_entries};

use crate::node::{OpenCall, SerialNode, goes_on, is_full, open_after, turns};
use lu_history::{SerialOp, SerialOutcome};
use lu_test::Move;
use std::alloc::AllocError;

/// What a walk shows the history of each serially ended schedule to.
pub(crate) trait HistoryVisitor {
    /// Why it stops the walk.
    type Stop: Copy;

    /// What is known of a visitor, the first value, which was once the second, and to which these
    /// histories were shown since then. The last one stands first.
    ghost was_shown: { Self → Self → List (List SerialOp) → Type 0 };

    /// What holds where it stops at this history.
    ghost stops: { Self → List SerialOp → Self.Stop → Type 0 };

    /// Takes the history of a schedule that ends, or stops the walk there.
    ///
    /// # Errors
    ///
    /// `AllocError` where memory was refused.
    fn at_end(&mut self, history: &[SerialOp]) -> Result<Option<Self::Stop>, AllocError>
        requires serial { IsSerial history.now }
        requires begun { (first : Self) × (shown : _) × was_shown self.old first shown }
        ensures { IfOk result (GathersHistory was_shown stops self.old self.new history.now) };
}

/// Where a walk halts before it has passed all schedules of its part.
#[derive(Clone, Copy)]
pub(crate) enum EarlyEnd<S> {
    /// At a schedule that is cut.
    Cut,

    /// At one that ends, where the visitor stopped it.
    Stopped(S),
}

/// What a walk takes along: the node where it stands, the path that led there, and the visitor.
#[derive(Drop)]
pub(crate) struct WalkState<'a, H> {
    pub(crate) node: SerialNode<'a>,
    pub(crate) path: Vec<Move>,
    pub(crate) visitor: H,
}

impl<H: HistoryVisitor> WalkState<'_, H> {
    /// Shows the history of a schedule that ends here.
    fn end(&mut self, current: Option<OpenCall>) -> Result<Option<H::Stop>, AllocError>
        requires serial { IsSerial (ended_entries self.old.node.entries.items current) }
        requires begun { (first : H) × (shown : _) × H.was_shown self.old.visitor first shown }
        ensures path { self.new.path ≡ self.old.path }
        ensures machine { self.new.node.machine ≡ self.old.node.machine }
        ensures entries { OnOk result (self.new.node.entries.items ≡ self.old.node.entries.items) }
        ensures takes { IfOk result (Gathers H.was_shown H.stops self.old current self.new) }
    {
        let Some(current) = current else {
            return self.visitor.at_end(&self.node.entries);
        };
        self.node.entries.push(SerialOp {
            thread: current.thread,
            outcome: SerialOutcome::Stuck,
        })?;
        let stop = self.visitor.at_end(&self.node.entries)?;
        self.node.entries.pop();
        Ok(stop)
    }
}

/// Walks the serial schedules that begin with the walk's path, in order, and shows those that end
/// to its visitor. It halts at one that is cut, or where the visitor stops it.
pub(crate) fn walk<H: HistoryVisitor>(
    bound: u16,
    state: &mut WalkState<'_, H>,
    current: Option<OpenCall>,
) -> Result<Option<EarlyEnd<H::Stop>>, AllocError>
    requires { CanWalk H.was_shown bound state.old current }
    ensures home { IfOk result (λ halt. IsHome state.old halt state.new) }
    ensures walks { IfOk result (Walks H.was_shown H.stops bound state.old current state.new) }
{
    if !goes_on(&state.node.machine, current) {
        let stop = state.end(current)?;
        return Ok(stop.map(EarlyEnd::Stopped));
    }
    if is_full(current, bound) {
        return Ok(Some(EarlyEnd::Cut));
    }
    let (first, end) = turns(&state.node.machine, current);
    for thread in first..end {
        for pick in 0..state.node.machine.picks(thread) {
            let next = Move { thread, pick };
            let undo = state.node.enter(next)?;
            state.path.push(next)?;
            let below = open_after(current, thread, undo.event());
            if let Some(halt) = walk(bound, state, below)? {
                return Ok(Some(halt));
            }
            state.path.pop();
            state.node.leave(undo);
        }
    }
    Ok(None)
}
