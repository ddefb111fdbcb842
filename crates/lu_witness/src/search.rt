//! The search for a witness.
//!
//! It descends the tree with one count for each thread, of the operations that it has taken. A
//! label is taken only where it is its thread's next outcome and all operations that precede it are
//! taken.

ghost use Rattle.std.specs.Prelude.{◌↔◌, ◌<◌, ◌≤◌, ℕ, IsTrue, get_or};
ghost use Rattle.lu_history.specs.Histories.{IsWellFormed};
ghost use Rattle.lu_test.specs.declared.matrix.TheConstants.{MOST_CALLS_OF_THREAD, MOST_THREADS};
ghost use Rattle.lu_witness.specs.Witnesses.{IsMember, HasWitness};
ghost use Rattle.lu_witness.specs.Search.{AreAllTaken, Finds, FindsEnd, TakesOne, TellsNext};

use crate::kept::Kept;
use lu_history::{History, OpId, SerialOp};
use lu_trie::SerialTree;

/// Whether some serial history of the tree is a witness of the history. Pending calls count as
/// stuck.
pub fn has_witness<T: SerialTree>(tree: &T, history: &History) -> bool
    ensures { IsTrue result ↔ HasWitness (IsMember (T.members tree.now)) history.now }
{
    is_witnessed(tree, &Kept::whole(history))
}

/// The same of what is kept of a history.
pub(crate) fn is_witnessed<T: SerialTree>(tree: &T, history: &Kept<'_>) -> bool
    requires { IsWellFormed history.now }
    ensures { IsTrue result ↔ HasWitness (IsMember (T.members tree.now)) history.now }
{
    finds(tree, tree.root(), history, &[0; 8])
}

/// Whether what was taken goes on to a witness, below a place.
fn finds<T: SerialTree>(tree: &T, place: T::Place, history: &Kept<'_>, taken: &[u8; 8]) -> bool
    requires history { IsWellFormed history.now }
    requires place { T.is_place tree.now place }
    ensures { Finds (IsMember (T.below tree.now place)) taken.now history.now result }
{
    if ends(tree, place, history, taken) {
        return true;
    }
    for i in 0..tree.kid_count(place) {
        let (op, below) = tree.kid(place, i);
        if is_next(history, taken, op) && finds(tree, below, history, &one_more(taken, op.thread)) {
            return true;
        }
    }
    false
}

/// Whether what was taken is a witness, and a member.
fn ends<T: SerialTree>(tree: &T, place: T::Place, history: &Kept<'_>, taken: &[u8; 8]) -> bool
    requires history { IsWellFormed history.now }
    requires place { T.is_place tree.now place }
    ensures { FindsEnd (IsMember (T.below tree.now place)) taken.now history.now result }
{
    tree.ends(place) && all_taken(history, taken)
}

/// Whether each thread's operations are all taken.
fn all_taken(history: &Kept<'_>, taken: &[u8; 8]) -> bool
    requires { IsWellFormed history.now }
    ensures { IsTrue result ↔ AreAllTaken taken.now history.now }
{
    for t in 0..8 {
        if taken[usize::from(t)] != history.calls(t) {
            return false;
        }
    }
    true
}

/// Whether the operation can be taken next: it is its thread's next outcome, and all operations
/// that precede it are taken.
fn is_next(history: &Kept<'_>, taken: &[u8; 8], op: SerialOp) -> bool
    requires { IsWellFormed history.now }
    ensures next { TellsNext taken.now history.now op result }
    ensures thread { IsTrue result → op.thread < MOST_THREADS }
    ensures room { IsTrue result → get_or taken.now op.thread 0 < MOST_CALLS_OF_THREAD }
{
    if op.thread >= 8 {
        return false;
    }
    let next = OpId {
        t: op.thread,
        k: taken[usize::from(op.thread)],
    };
    history.ended(next) == Some(op.outcome) && are_at_most(history.before(next), taken)
}

/// Whether each number is at most the other one in its place.
fn are_at_most(few: &[u8; 8], many: &[u8; 8]) -> bool
    ensures { IsTrue result ↔ ((t : ℕ) → get_or few.now t 0 ≤ get_or many.now t 0) }
{
    few.iter().zip(many).all(|(few, many)| few <= many)
}

/// The numbers with one more for the thread.
fn one_more(taken: &[u8; 8], thread: u8) -> [u8; 8]
    requires thread { thread < MOST_THREADS }
    requires room { get_or taken.now thread 0 < MOST_CALLS_OF_THREAD }
    ensures { TakesOne thread taken.now result }
{
    let mut more = *taken;
    more[usize::from(thread)] += 1;
    more
}
