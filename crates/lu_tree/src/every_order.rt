//! Sets that have operations in every order.

ghost use Rattle.std.specs.Prelude.{◌≡◌, ◌≢◌, ◌<◌, ◌+◌, [], ◌∷◌, ◌++◌, IfOk, IfSome, IsTrue, length, take, drop};
ghost use Rattle.lu_witness.specs.Witnesses.{IsMember, entries};
ghost use Rattle.lu_tree.specs.Tails.{HasEveryOrder, HasOrders, IsLedTo, IsPlaceAfter};

use lu_history::SerialOp;
use lu_judge::Trail;
use lu_trie::SerialTree;
use std::alloc::{AllocError, Global};

/// At how many places of a tree one answer may look.
const MOST_PLACES: u16 = 4096;

/// Whether one of the operations is of the thread.
fn has_thread(ops: &[SerialOp], thread: u8) -> bool
    ensures { IsTrue result → entries thread ops.now ≢ [] }
{
    for op in ops {
        if op.thread == thread {
            return true;
        }
    }
    false
}

/// The operations but number `i`.
fn without(alloc: Global, ops: &[SerialOp], i: usize) -> Result<Vec<SerialOp>, AllocError>
    requires { i < length ops.now }
    ensures { IfOk result (λ rest. rest.items ≡ take i ops.now ++ drop (i + 1) ops.now) }
{
    let mut rest = Vec::from_slice(alloc, ops)?;
    rest.remove(i);
    Ok(rest)
}

/// The kid of a place with this label.
fn kid_with<T: SerialTree>(tree: &T, place: T::Place, label: SerialOp) -> Option<T::Place>
    requires { T.is_place tree.now place }
    ensures place { IfSome result (T.is_place tree.now) }
    ensures after { IfSome result (IsLedTo (T.below tree.now) (label ∷ []) place) }
{
    for i in 0..tree.kid_count(place) {
        let (op, kid) = tree.kid(place, i);
        if op == label {
            return Some(kid);
        }
    }
    None
}

/// The place to which the operations lead from the root.
fn place_after<T: SerialTree>(tree: &T, ops: &[SerialOp]) -> Option<T::Place>
    ensures place { IfSome result (T.is_place tree.now) }
    ensures after { IfSome result (IsPlaceAfter (T.below tree.now) ops.now (T.members tree.now)) }
{
    let mut place = tree.root();
    for op in ops {
        place = kid_with(tree, place, *op)?;
    }
    Some(place)
}

/// Whether the operations stand below the place in every order, those of each thread in their own.
/// It may say no where there is no room to look at more places.
fn has_every_order<T: SerialTree>(
    alloc: Global,
    tree: &T,
    place: T::Place,
    ops: &[SerialOp],
    room: &mut u16,
) -> bool
    requires { T.is_place tree.now place }
    ensures { IsTrue result → HasEveryOrder (IsMember (T.below tree.now place)) [] ops.now }
{
    if ops.is_empty() {
        return tree.ends(place);
    }
    if *room == 0 {
        return false;
    }
    *room -= 1;
    for i in 0..ops.len() {
        if !has_thread(&ops[..i], ops[i].thread) {
            let Some(kid) = kid_with(tree, place, ops[i]) else {
                return false;
            };
            let Ok(rest) = without(alloc, ops, i) else {
                return false;
            };
            if !has_every_order(alloc, tree, kid, &rest, room) {
                return false;
            }
        }
    }
    true
}

/// Whether the tree has the operations of the history in every order after this many first ones to
/// return.
pub(crate) fn has_orders<'t, T: SerialTree>(
    alloc: Global,
    tree: &T,
    first: usize,
    trail: &mut Trail<'t, T>,
) -> bool
    ensures same { trail.new ≡ trail.old }
    ensures judged { IsTrue result → HasOrders (T.members tree.now) first trail.old.history }
{
    let Ok(ops) = trail.returned(alloc) else {
        return false;
    };
    if ops.len() < first {
        return false;
    }
    let Some(place) = place_after(tree, &ops[..first]) else {
        return false;
    };
    let mut room = MOST_PLACES;
    has_every_order(alloc, tree, place, &ops[first..], &mut room)
}
