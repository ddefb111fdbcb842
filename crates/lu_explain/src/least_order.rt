//! The search for the least serial history that has a history's outcomes.
//!
//! It descends the tree with one count for each thread, of the operations that it has taken. A
//! label is taken where it is its thread's next outcome; the first way that comes to a member which
//! leaves nothing is the least.

ghost use Rattle.std.specs.Prelude.{◌≡◌, ◌↔◌, ◌+◌, [], ◌∷◌, ◌≤◌, ◌<◌, IfSome, IsTrue, length, get_or};
ghost use Rattle.lu_history.specs.Histories.{IsWellFormed};
ghost use Rattle.lu_explain.specs.declared.operations.TheConstants.{MOST_OPERATIONS};
ghost use Rattle.lu_explain.specs.AnyOrders.{TellsLeast};
ghost use Rattle.lu_explain.specs.Search.{AreFewTaken, Completes, HasRestOfParts, IsNextOutcome, number};
ghost use Rattle.lu_test.specs.declared.matrix.TheConstants.{MOST_CALLS_OF_THREAD, MOST_THREADS};

use crate::operations::Order;
use crate::search::one_more;
use lu_history::{History, OpId, SerialOp};
use lu_test::MOST_THREADS;
use lu_trie::SerialTree;

/// The least history below a place in which each thread has the outcomes that are left of its part.
pub(crate) fn least<T: SerialTree>(
    tree: &T,
    place: T::Place,
    history: &History,
    taken: &[u8; MOST_THREADS],
) -> Option<Order>
    requires history { IsWellFormed history.now }
    requires place { T.is_place tree.now place }
    requires few { AreFewTaken taken.now }
    ensures count { IfSome result (λ order. length order + number taken.now ≤ MOST_OPERATIONS) }
    ensures least { TellsLeast (Completes (T.below tree.now place) history.now taken.now) result }
{
    if is_done(tree, place, history, taken) {
        return Some(Order::new());
    }
    for i in 0..tree.kid_count(place) {
        let (op, below) = tree.kid(place, i);
        if is_next_outcome(history, taken, op) {
            match least(tree, below, history, &one_more(taken, op.thread)) {
                Some(order) => return Some(in_front(op, order)),
                None => {}
            }
        }
    }
    None
}

/// The order with the operation in front.
fn in_front(op: SerialOp, mut order: Order) -> Order
    requires { length order < MOST_OPERATIONS }
    ensures { result ≡ op ∷ order }
{
    order.put_first(op);
    order
}

/// Whether the place ends a member that leaves nothing.
fn is_done<T: SerialTree>(
    tree: &T,
    place: T::Place,
    history: &History,
    taken: &[u8; MOST_THREADS],
) -> bool
    requires history { IsWellFormed history.now }
    requires place { T.is_place tree.now place }
    ensures { IsTrue result ↔ Completes (T.below tree.now place) history.now taken.now [] }
{
    tree.ends(place) && is_nothing_left(history, taken)
}

/// Whether each thread's operations are all taken.
fn is_nothing_left(history: &History, taken: &[u8; MOST_THREADS]) -> bool
    requires { IsWellFormed history.now }
    ensures { IsTrue result ↔ HasRestOfParts history.now taken.now [] }
{
    for t in 0..8 {
        if taken[usize::from(t)] < history.calls(t) {
            return false;
        }
    }
    true
}

/// Whether the operation has its thread's next outcome.
fn is_next_outcome(history: &History, taken: &[u8; MOST_THREADS], op: SerialOp) -> bool
    requires { IsWellFormed history.now }
    ensures next { IsTrue result ↔ IsNextOutcome taken.now history.now op }
    ensures thread { IsTrue result → op.thread < MOST_THREADS }
    ensures room { IsTrue result → get_or taken.now op.thread 0 < MOST_CALLS_OF_THREAD }
{
    if op.thread >= 8 {
        return false;
    }
    let next = OpId {
        t: op.thread,
        k: taken[usize::from(op.thread)],
    };
    history.ended(next) == Some(op.outcome)
}
