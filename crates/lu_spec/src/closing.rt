//! Beginnings of the histories of a tree.

ghost use Rattle.std.specs.Prelude.{◌≡◌, OnOk};
ghost use Rattle.lu_history.specs.Serial.{IsSerial};
ghost use Rattle.lu_spec.specs.Beginnings.{AddsBelow, AreSerialAfter};
ghost use Rattle.lu_spec.specs.Specs.{AllHaveOutcomes};

use lu_history::SerialOp;
use lu_trie::{SerialTree, Trie};
use std::alloc::{AllocError, Allocator};

/// Adds the path, which leads to this place, and all beginnings of histories that go on from it.
pub(crate) fn add_below<A: Allocator + Clone, T: SerialTree>(
    set: &mut Trie<A>,
    tree: &T,
    place: T::Place,
    path: &mut Vec<SerialOp>,
) -> Result<(), AllocError>
    requires place { T.is_place tree.now place }
    requires path { IsSerial path.old.items }
    requires serial { AreSerialAfter path.old.items (T.below tree.now place) }
    ensures path { OnOk result (path.new.items ≡ path.old.items) }
    ensures outcomes { OnOk result (AllHaveOutcomes (T.below tree.now place)) }
    ensures adds { OnOk result (AddsBelow set.old set.new path.old.items (T.below tree.now place)) }
{
    set.insert(path)?;
    for i in 0..tree.kid_count(place) {
        let (op, below) = tree.kid(place, i);
        path.push(op)?;
        add_below(set, tree, below, path)?;
        path.pop();
    }
    Ok(())
}
