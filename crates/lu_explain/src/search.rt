//! The search for the longest partial witness.
//!
//! It descends the tree with one count for each thread, of the operations that it has taken. A
//! label is taken only where it is its thread's next outcome and all operations that precede it are
//! taken. Below each place it keeps the longest way on, and of those as long the first.

ghost use Rattle.std.specs.Prelude.{◌≡◌, ◌+◌, ◌<◌, ◌∷◌, IsTrue, length, get_or};
ghost use Rattle.lu_history.specs.Histories.{IsWellFormed};
ghost use Rattle.lu_test.specs.declared.matrix.TheConstants.{MOST_CALLS_OF_THREAD, MOST_THREADS};
ghost use Rattle.lu_witness.specs.Search.{TakesOne, TellsNext};
ghost use Rattle.lu_explain.specs.declared.operations.TheConstants.{MOST_OPERATIONS};
ghost use Rattle.lu_explain.specs.Search.{AreFewTaken, IsLongestWay, IsOneMoreTaken, number};

use crate::left_calls::blocker;
use crate::operations::Order;
use lu_history::{History, OpId, SerialOp};
use lu_test::MOST_THREADS;
use lu_trie::SerialTree;

/// A way on in a tree: its operations, how many of each thread are then taken, and where it leads.
#[derive(Drop)]
pub(crate) struct Way<P: Copy> {
    pub(crate) order: Order,
    pub(crate) taken: [u8; MOST_THREADS],
    pub(crate) place: P,
}

/// The longest way on from what was taken, below a place, and of the longest the first.
pub(crate) fn longest<T: SerialTree>(
    tree: &T,
    place: T::Place,
    history: &History,
    taken: &[u8; MOST_THREADS],
) -> Way<T::Place>
    requires history { IsWellFormed history.now }
    requires place { T.is_place tree.now place }
    requires few { AreFewTaken taken.now }
    ensures place { T.is_place tree.now result.place }
    ensures few { AreFewTaken result.taken }
    ensures count { length result.order + number taken.now ≡ number result.taken }
    ensures longest { IsLongestWay (T.below tree.now) place history.now taken.now result }
{
    let mut best = Way {
        order: Order::new(),
        taken: *taken,
        place,
    };
    for i in 0..tree.kid_count(place) {
        let (op, below) = tree.kid(place, i);
        if is_next(history, taken, op) {
            let way = longest(tree, below, history, &one_more(taken, op.thread));
            if best.order.as_slice().len() <= way.order.as_slice().len() {
                best = in_front(op, way);
            }
        }
    }
    best
}

/// The way with the operation in front.
fn in_front<P: Copy>(op: SerialOp, mut way: Way<P>) -> Way<P>
    requires { length way.order < MOST_OPERATIONS }
    ensures order { result.order ≡ op ∷ way.order }
    ensures taken { result.taken ≡ way.taken }
    ensures place { result.place ≡ way.place }
{
    way.order.put_first(op);
    way
}

/// Whether the operation can be taken next: it is its thread's next outcome, and all operations
/// that precede it are taken.
fn is_next(history: &History, taken: &[u8; MOST_THREADS], op: SerialOp) -> bool
    requires { IsWellFormed history.now }
    ensures next { TellsNext taken.now history.now op result }
    ensures thread { IsTrue result → op.thread < MOST_THREADS }
    ensures room { IsTrue result → get_or taken.now op.thread 0 < MOST_CALLS_OF_THREAD }
{
    if op.thread >= 8 {
        return false;
    }
    let next = OpId {
        t: op.thread,
        k: taken[usize::from(op.thread)],
    };
    history.ended(next) == Some(op.outcome) && blocker(history, taken, next).is_none()
}

/// The numbers with one more for the thread.
pub(crate) fn one_more(taken: &[u8; MOST_THREADS], thread: u8) -> [u8; MOST_THREADS]
    requires thread { thread < MOST_THREADS }
    requires room { get_or taken.now thread 0 < MOST_CALLS_OF_THREAD }
    ensures takes { TakesOne thread taken.now result }
    ensures one { IsOneMoreTaken thread taken.now result }
    ensures few { AreFewTaken taken.now → AreFewTaken result }
    ensures count { number result ≡ number taken.now + 1 }
{
    let mut more = *taken;
    more[usize::from(thread)] += 1;
    more
}
