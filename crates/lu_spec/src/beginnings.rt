//! The beginnings of the histories of a tree, read from that tree.

ghost use Rattle.std.specs.Prelude.{◌≡◌};
ghost use Rattle.lu_trie.specs.Branches.{IsBranching};
ghost use Rattle.lu_spec.specs.Beginnings.{IsClosureOf};
ghost use Rattle.lu_spec.specs.BeginningsInOrder.{beginnings_of};

use lu_history::SerialOp;
use lu_trie::SerialTree;
use std::marker::Model;

/// All beginnings of the members of a tree, and the empty history, as a tree. Nothing is copied: it
/// has the places of that tree, and a history ends at each of them. In clauses it is that tree.
#[derive(Drop)]
pub struct Beginnings<'a, T: SerialTree> {
    tree: &'a T,
}

impl<'a, T: SerialTree> Model for Beginnings<'a, T> {
    ghost Value = { T };

    ghost view = { λ b. b.tree.now };
}

impl<'a, T: SerialTree> Beginnings<'a, T> {
    /// The beginnings of the members of this tree.
    pub fn of(tree: &'a T) -> Beginnings<'a, T>
        ensures tree { result ≡ tree.entry.now }
        ensures closure { IsClosureOf (T.members result) (beginnings_of (T.members result)) }
    {
        Beginnings { tree }
    }
}

impl<'a, T: SerialTree> SerialTree for Beginnings<'a, T> {
    type Place = T::Place;

    ghost members = { λ b. beginnings_of (T.members b) };

    ghost below = { λ b place. beginnings_of (T.below b place) };

    ghost is_place = { λ b place.
        T.is_place b place × IsBranching (beginnings_of (T.below b place)) };

    ghost branching = { λ b place is. is.1 };

    fn root(&self) -> T::Place {
        self.tree.root()
    }

    fn ends(&self, _place: T::Place) -> bool {
        true
    }

    fn kid_count(&self, place: T::Place) -> usize {
        self.tree.kid_count(place)
    }

    fn kid(&self, place: T::Place, i: usize) -> (SerialOp, T::Place) {
        self.tree.kid(place, i)
    }
}
