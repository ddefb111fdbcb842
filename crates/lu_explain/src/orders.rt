//! Orders of the calls that have a history's outcomes, precedence aside.

ghost use Rattle.std.specs.Prelude.{◌≡◌};
ghost use Rattle.lu_history.specs.Histories.{IsWellFormed};
ghost use Rattle.lu_witness.specs.Witnesses.{IsMember};
ghost use Rattle.lu_explain.specs.AnyOrders.{HasEachPart, TellsAnyOrder, TellsFirstBroken};

use crate::least_order::least;
use crate::left_calls::blocker;
use crate::operations::Order;
use crate::search::one_more;
use lu_history::{History, OpId, SerialOp};
use lu_test::MOST_THREADS;
use lu_trie::SerialTree;
use std::marker::Model;

/// Two operations, of which the first returns before the second is called.
#[derive(Clone, Copy, Debug, PartialEq, Eq)]
pub struct Precedence {
    pub first: OpId,
    pub second: OpId,
}

/// An order of the calls in which each ends as in the history. In clauses it is the order, and the
/// first precedence that it breaks.
#[derive(Drop)]
pub struct AnyOrder {
    order: Order,
    broken: Option<Precedence>,
}

impl Model for AnyOrder {
    ghost use Rattle.lu_explain.specs.AnyOrders.{AnyOrder as AnAnyOrder};

    ghost Value = { AnAnyOrder };

    ghost view = { λ a. record { order = a.order; broken = a.broken } };
}

impl AnyOrder {
    /// The operations, in order.
    pub fn order(&self) -> &[SerialOp]
        ensures { result.now ≡ self.now.order }
    {
        self.order.as_slice()
    }

    /// The first precedence that the order breaks: of the first operation before which one that
    /// precedes it does not stand, the least thread of which there is such a one, and its first.
    /// `None` where it breaks none, so that it is a witness.
    pub fn broken(&self) -> Option<Precedence>
        ensures { result ≡ self.now.broken }
    {
        self.broken
    }
}

/// The first precedence of the history that an order of its operations breaks.
fn first_broken(history: &History, order: &[SerialOp]) -> Option<Precedence>
    requires history { IsWellFormed history.now }
    requires parts { HasEachPart history.now order.now }
    ensures { TellsFirstBroken history.now order.now result }
{
    let mut taken = [0; MOST_THREADS];
    for op in order {
        let second = OpId {
            t: op.thread,
            k: taken[usize::from(op.thread)],
        };
        match blocker(history, &taken, second) {
            Some(first) => return Some(Precedence { first, second }),
            None => taken = one_more(&taken, op.thread),
        }
    }
    None
}

/// The least of the serial histories of a tree in which each thread has the outcomes of its part of
/// the history, whatever precedes what, and the first precedence that it breaks; `None` where no
/// order of the calls has these outcomes. Pending calls count as stuck. It takes no memory.
pub fn any_order<T: SerialTree>(tree: &T, history: &History) -> Option<AnyOrder>
    ensures { TellsAnyOrder (IsMember (T.members tree.now)) history.now result }
{
    // For the proof: a history's own rule is known from its calls, and no other call comes before.
    let _events = history.events();
    let order = least(tree, tree.root(), history, &[0; MOST_THREADS])?;
    let broken = first_broken(history, order.as_slice());
    Some(AnyOrder { order, broken })
}
