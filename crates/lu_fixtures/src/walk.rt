//! Walks down any tree of serial histories.

ghost use Rattle.std.specs.Prelude.{◌≡◌, ◌↔◌, IsTrue, min, length};
ghost use Rattle.lu_trie.specs.Members as members;

use lu_history::SerialOp;
use lu_trie::SerialTree;

/// Whether the history is a member, below a place.
pub fn contains<T: SerialTree>(tree: &T, place: T::Place, history: &[SerialOp]) -> bool
    requires { T.is_place tree.now place }
    ensures { result ≡ members.contains (T.below tree.now place) history.now }
{
    match history {
        [] => tree.ends(place),
        [op, rest @ ..] => {
            for i in 0..tree.kid_count(place) {
                let (label, below) = tree.kid(place, i);
                if label == *op {
                    return contains(tree, below, rest);
                }
            }
            false
        }
    }
}

/// The number of members below a place, or `u64::MAX` where there are more.
pub fn count<T: SerialTree>(tree: &T, place: T::Place) -> u64
    requires { T.is_place tree.now place }
    ensures { result ≡ min (length (T.below tree.now place)) u64.MAX }
{
    let mut count = u64::from(tree.ends(place));
    for i in 0..tree.kid_count(place) {
        let (_, below) = tree.kid(place, i);
        count = count.saturating_add(self::count(tree, below));
    }
    count
}

/// Whether two trees have the same members below two places.
pub fn same_members<S: SerialTree, T: SerialTree>(
    left: &S,
    here: S::Place,
    right: &T,
    there: T::Place,
) -> bool
    requires left { S.is_place left.now here }
    requires right { T.is_place right.now there }
    ensures { IsTrue result ↔ (S.below left.now here ≡ T.below right.now there) }
{
    if left.ends(here) != right.ends(there) || left.kid_count(here) != right.kid_count(there) {
        return false;
    }
    for i in 0..left.kid_count(here) {
        let (label, below) = left.kid(here, i);
        let (other, beside) = right.kid(there, i);
        if label != other || !same_members(left, below, right, beside) {
            return false;
        }
    }
    true
}
