//! Graphs whose members another graph has too.

ghost use Rattle.std.specs.Prelude.{◌≡◌, ◌↔◌, IfNone, IfOk, IfSome, IsTrue, OnOk};
ghost use Rattle.lu_serial_graph.specs.Graphs.{IsPlaceIn, members_of};
ghost use Rattle.lu_serial_graph.specs.Playing.{IsAmong};
ghost use Rattle.lu_serial_graph.specs.Subsets.{AddsPair, AreWithin, HasNoneAfter, IsChildWith, IsSubset, IsWithin};

use crate::graph::SerialGraph;
use indexmap::IndexSet;
use lu_history::SerialOp;
use lu_trie::SerialTree;
use std::alloc::{AllocError, Allocator, Global};

/// Whether the pair is among those that were looked at.
fn is_known(known: &IndexSet<(usize, usize)>, pair: (usize, usize)) -> bool
    ensures { IsTrue result ↔ IsAmong pair known.now.keys }
{
    known.contains(&pair)
}

/// Adds a pair to those that were looked at.
fn add_known(known: &mut IndexSet<(usize, usize)>, pair: (usize, usize)) -> Result<(), AllocError>
    ensures { OnOk result (AddsPair pair known.old.keys known.new.keys) }
{
    known.insert(pair)?;
    Ok(())
}

/// The child of a place with this label.
fn child_with<T: SerialTree>(tree: &T, place: T::Place, label: SerialOp) -> Option<T::Place>
    requires { T.is_place tree.now place }
    ensures place { IfSome result (T.is_place tree.now) }
    ensures child { IfSome result (IsChildWith (T.below tree.now) label place) }
    ensures none { IfNone result (HasNoneAfter label (T.below tree.now place)) }
{
    for i in 0..tree.kid_count(place) {
        let (op, child) = tree.kid(place, i);
        if op == label {
            return Some(child);
        }
    }
    None
}

/// Whether the members below a place of the one graph are members below a place of the other. Pairs
/// that are known to be so are not looked at again.
fn is_within<A: Allocator, B: Allocator>(
    one: &SerialGraph<A>,
    other: &SerialGraph<B>,
    here: usize,
    there: usize,
    known: &mut IndexSet<(usize, usize)>,
) -> Result<bool, AllocError>
    requires place { IsPlaceIn one.now.0 here }
    requires other_place { IsPlaceIn other.now.0 there }
    requires known { AreWithin one.now.0 other.now.0 known.old.keys }
    ensures known { OnOk result (AreWithin one.now.0 other.now.0 known.new.keys) }
    ensures within { IfOk result (λ is. IsTrue is ↔ IsWithin one.now.0 other.now.0 (here, there)) }
{
    if is_known(known, (here, there)) {
        return Ok(true);
    }
    if one.ends(here) && !other.ends(there) {
        return Ok(false);
    }
    for i in 0..one.kid_count(here) {
        let (label, below) = one.kid(here, i);
        let Some(beside) = child_with(&other, there, label) else {
            return Ok(false);
        };
        if !is_within(one, other, below, beside, known)? {
            return Ok(false);
        }
    }
    add_known(known, (here, there))?;
    Ok(true)
}

impl<A: Allocator> SerialGraph<A> {
    /// Whether each member is a member of the other graph. Two nodes are compared once, however many
    /// prefixes lead to them.
    ///
    /// # Errors
    ///
    /// `AllocError` where memory was refused.
    pub fn is_subset<B: Allocator>(
        &self,
        alloc: Global,
        other: &SerialGraph<B>,
    ) -> Result<bool, AllocError>
        ensures { IfOk result (λ is.
            IsTrue is ↔ IsSubset (members_of self.now) (members_of other.now)) }
    {
        is_within(
            self,
            other,
            self.root(),
            other.root(),
            &mut IndexSet::new(alloc),
        )
    }
}
