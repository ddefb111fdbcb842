//! The members of a tree, as a list.

ghost use Rattle.std.specs.Prelude.{◌≡◌, ◌++◌, [], IfOk, OnOk};
ghost use Rattle.lu_graph.specs.Alive.{ArePossible};
ghost use Rattle.lu_graph.specs.Listing.{ListsMore, histories};

use lu_history::SerialOp;
use lu_trie::SerialTree;
use std::alloc::{AllocError, Global};

/// Adds the members below a place, to which this path leads.
fn list_below<T: SerialTree>(
    alloc: Global,
    tree: &T,
    place: T::Place,
    path: &mut Vec<SerialOp>,
    found: &mut Vec<Vec<SerialOp>>,
) -> Result<(), AllocError>
    requires { T.is_place tree.now place }
    ensures home { OnOk result (path.new.items ≡ path.old.items) }
    ensures found { OnOk result (ListsMore found.old path.old (T.below tree.now place) found.new) }
{
    if tree.ends(place) {
        found.push(Vec::from_slice(alloc, path)?)?;
    }
    for i in 0..tree.kid_count(place) {
        let (op, below) = tree.kid(place, i);
        path.push(op)?;
        list_below(alloc, tree, below, path, found)?;
        path.pop();
    }
    Ok(())
}

/// All members of the tree.
pub(crate) fn list_members<T: SerialTree>(
    alloc: Global,
    tree: &T,
) -> Result<Vec<Vec<SerialOp>>, AllocError>
    ensures { IfOk result (λ members. histories members.items ≡ T.members tree.now) }
{
    let mut path = Vec::new(alloc);
    let mut found = Vec::new(alloc);
    list_below(alloc, tree, tree.root(), &mut path, &mut found)?;
    Ok(found)
}

/// That all members are possible: before any event they are.
pub(crate) fn all_possible(
    alloc: Global,
    members: &[Vec<SerialOp>],
) -> Result<Vec<bool>, AllocError>
    ensures { IfOk result (λ alive. ArePossible members.now [] alive.items) }
{
    let mut alive = Vec::new(alloc);
    for _member in members {
        alive.push(true)?;
    }
    Ok(alive)
}
