//! Serial histories that are not in a set.

ghost use Rattle.std.specs.Prelude.{◌≡◌, ◌≤◌, false};
ghost use Rattle.lu_machine.specs.Starts.{CanRun};
ghost use Rattle.lu_machine.specs.declared.TheConstants.{MOST_MOVES};
ghost use Rattle.lu_trie.specs.Members.{contains};
ghost use Rattle.lu_serial.specs.Offences.{FindsOutside};
ghost use Rattle.lu_serial.specs.Walks.{Seeks};

use crate::node::SerialNode;
use crate::walk::{EarlyEnd, HistoryVisitor, WalkState, walk};
use lu_component::Component;
use lu_history::SerialOp;
use lu_machine::Test;
use lu_test::{Matrix, Schedule};
use lu_trie::{SerialTree, Trie};
use std::alloc::{AllocError, Allocator, Global};

/// Whether the history is a member below a place.
fn contains_below<T: SerialTree>(tree: &T, place: T::Place, history: &[SerialOp]) -> bool
    requires { T.is_place tree.now place }
    ensures { result ≡ contains (T.below tree.now place) history.now }
{
    match history {
        [] => tree.ends(place),
        [op, rest @ ..] => {
            for i in 0..tree.kid_count(place) {
                let (label, below) = tree.kid(place, i);
                if label == *op {
                    return contains_below(tree, below, rest);
                }
            }
            false
        }
    }
}

/// A search for a history outside the tree. It stops at the first one.
#[derive(Drop)]
struct Search<'a, T: SerialTree> {
    tree: &'a T,
}

impl<'a, T: SerialTree> HistoryVisitor for Search<'a, T> {
    type Stop = ();

    ghost was_shown = { λ search first shown.
        Seeks (T.members first.tree.now) (T.members search.tree.now) shown };

    ghost stops = { λ search history _. contains (T.members search.tree.now) history ≡ false };

    fn at_end(&mut self, history: &[SerialOp]) -> Result<Option<()>, AllocError> {
        let tree = self.tree;
        if contains_below(tree, tree.root(), history) {
            return Ok(None);
        }
        Ok(Some(()))
    }
}

/// The least serially ended schedule whose history is not in the set, among those with no smaller
/// schedule that is serially cut. `bound`, 1 to 256, is the number of moves that an operation may
/// take after its call. The matrix has to be one of the component (`Matrix::of`).
///
/// # Errors
///
/// `AllocError` where memory was refused.
pub fn first_outside<A: Allocator>(
    alloc: Global,
    component: &Component,
    matrix: &Matrix,
    bound: u16,
    set: &Trie<A>,
) -> Result<Option<Schedule>, AllocError>
    requires of { CanRun component.now matrix.now }
    requires some { 1 ≤ bound }
    requires few { bound ≤ MOST_MOVES }
    ensures { FindsOutside component.now matrix.now bound set.now result }
{
    first_outside_tree(alloc, component, matrix, bound, &set)
}

/// The least serially ended schedule whose history is not in the tree's set, as [`first_outside`]
/// finds it for a trie.
///
/// # Errors
///
/// `AllocError` where memory was refused.
pub fn first_outside_tree<T: SerialTree>(
    alloc: Global,
    component: &Component,
    matrix: &Matrix,
    bound: u16,
    tree: &T,
) -> Result<Option<Schedule>, AllocError>
    requires of { CanRun component.now matrix.now }
    requires some { 1 ≤ bound }
    requires few { bound ≤ MOST_MOVES }
    ensures { FindsOutside component.now matrix.now bound (T.members tree.now) result }
{
    let node = SerialNode::start(alloc, Test { component, matrix })?;
    let path = Vec::new(alloc);
    let mut walk_state = WalkState {
        node,
        path,
        visitor: Search { tree },
    };
    match walk(bound, &mut walk_state, None)? {
        Some(EarlyEnd::Stopped(())) => Ok(Some(Schedule::new(walk_state.path))),
        Some(EarlyEnd::Cut) => Ok(None),
        None => Ok(None),
    }
}
