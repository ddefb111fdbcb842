//! The serial histories of a matrix, or its least serial offence.

ghost use Rattle.std.specs.Prelude.{◌≤◌, IfOk};
ghost use Rattle.lu_component.specs.Component.{IsComponent};
ghost use Rattle.lu_machine.specs.declared.TheConstants.{MOST_MOVES};
ghost use Rattle.lu_test.specs.Matrix.{IsMatrix};
ghost use Rattle.lu_machine.specs.Starts.{CanRun, FromEachStart};
ghost use Rattle.lu_trie.specs.Conflicts.{HasConflict};
ghost use Rattle.lu_serial.specs.Offences.{IsLearnt};
ghost use Rattle.lu_serial.specs.Walks.{Learns};

use crate::node::SerialNode;
use crate::walk::{EarlyEnd, HistoryVisitor, WalkState, walk};
use lu_component::Component;
use lu_history::{SerialOp, SerialOutcome};
use lu_machine::Test;
use lu_test::{Matrix, Schedule};
use lu_trie::Trie;
use std::alloc::{AllocError, Allocator, Global};

/// What the serial runs of a matrix show.
#[derive(Drop)]
pub enum Learnt<A: Allocator> {
    /// There is no serial offence, and these are the histories of all serially ended schedules.
    Set(Trie<A>),

    /// The least serial offence is this schedule, which is cut.
    Cut(Schedule),

    /// The least serial offence is this schedule, which ends with a conflict.
    Conflict {
        schedule: Schedule,

        /// The number of operations, from the first on, at which its history agrees with that of a
        /// smaller serially ended schedule. Its next operation and that of the smaller one are of
        /// the same thread, with different outcomes.
        before: usize,

        /// The outcome of the smaller one's next operation.
        earlier: SerialOutcome,
    },
}

impl<A: Allocator + Clone> HistoryVisitor for Trie<A> {
    type Stop = (usize, SerialOutcome);

    ghost was_shown = { λ set _ shown. Learns set shown };

    ghost stops = { λ set history found. HasConflict set history found.0 found.1 };

    fn at_end(
        &mut self,
        history: &[SerialOp],
    ) -> Result<Option<(usize, SerialOutcome)>, AllocError> {
        let found = self.conflict(history);
        if found.is_none() {
            self.insert(history)?;
        }
        Ok(found)
    }
}

/// What the serial runs of the component and the matrix show: the histories of all serially ended
/// schedules, or else the least serial offence. `bound`, 1 to 256, is the number of moves that an
/// operation may take after its call (Burckhardt, Dern, Musuvathi and Tan, 2010). `set_alloc` is
/// the allocator of the set, and all else is taken from `alloc`. The matrix has to be one of the
/// component (`Matrix::of`).
///
/// # Errors
///
/// `AllocError` where memory was refused.
pub fn learn<A: Allocator + Clone>(
    alloc: Global,
    set_alloc: A,
    component: &Component,
    matrix: &Matrix,
    bound: u16,
) -> Result<Learnt<A>, AllocError>
    requires of { CanRun component.now matrix.now }
    requires some { 1 ≤ bound }
    requires few { bound ≤ MOST_MOVES }
    ensures learnt { FromEachStart component.now matrix.now (λ s. IfOk result (IsLearnt s bound)) }
    ensures limits { IsComponent component.now × IsMatrix matrix.now }
{
    let node = SerialNode::start(alloc, Test { component, matrix })?;
    let path = Vec::new(alloc);
    let set = Trie::new(set_alloc);
    let mut walk_state = WalkState {
        node,
        path,
        visitor: set,
    };
    match walk(bound, &mut walk_state, None)? {
        None => Ok(Learnt::Set(walk_state.visitor)),
        Some(EarlyEnd::Cut) => Ok(Learnt::Cut(Schedule::new(walk_state.path))),
        Some(EarlyEnd::Stopped((before, earlier))) => Ok(Learnt::Conflict {
            schedule: Schedule::new(walk_state.path),
            before,
            earlier,
        }),
    }
}
