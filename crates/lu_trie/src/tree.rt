//! Sets of serial histories, read as trees.

ghost use Rattle.std.specs.Prelude.{◌≡◌, ◌<◌, List, [], length};
ghost use Rattle.lu_history.specs.declared.serial.SerialOp.{SerialOp};
ghost use Rattle.lu_trie.specs.Members.{AllSerial, contains};
ghost use Rattle.lu_trie.specs.Branches.{branches_of, IsBranchOf, IsBranching};

use crate::trie::Trie;
use lu_history::SerialOp;
use std::alloc::Allocator;

/// A set of serial histories as a tree, whose places stand for the beginnings of its members.
///
/// The laws that are asked of a tree, at each of its places:
///
/// - the members below the place are the empty history, where the place ends one, and those below
///   its kids, in the order of the kids and each after its kid's label;
/// - the labels of the kids rise strictly, by thread and then by outcome;
/// - below each kid there is a member.
///
/// Whoever implements the trait owes all three. The third is more than a set of histories needs to
/// be read: a tree keeps no place below which nothing is, so what can be reached begins a member.
///
/// Places are cheap to copy. They are asked to come from `root` or `kid` of the same tree.
///
/// To read a tree from several threads ask for `T: SerialTree + Sync` where `T::Place: Send +
/// Sync`.
pub trait SerialTree {
    /// A place in the tree.
    type Place: Copy;

    /// The members.
    ghost members: { Self → List (List SerialOp) };

    /// The members below a place: what follows, in the members, the operations that lead to the
    /// place.
    ghost below: { Self → Self.Place → List (List SerialOp) };

    /// The place is one of the tree.
    ghost is_place: { Self → Self.Place → Type 0 };

    /// The place of the empty history, below which are all members.
    fn root(&self) -> Self::Place
        ensures place { is_place self.now result }
        ensures all { below self.now result ≡ members self.now };

    /// Whether the operations that lead to the place are a member.
    fn ends(&self, place: Self::Place) -> bool
        requires { is_place self.now place }
        ensures { result ≡ contains (below self.now place) [] };

    /// The number of kids of a place.
    fn kid_count(&self, place: Self::Place) -> usize
        requires { is_place self.now place }
        ensures { result ≡ length (branches_of (below self.now place)) };

    /// Kid number i of a place, from 0: its label, which is the next operation, and its place.
    fn kid(&self, place: Self::Place, i: usize) -> (SerialOp, Self::Place)
        requires place { is_place self.now place }
        requires in_range { i < length (branches_of (below self.now place)) }
        ensures place { is_place self.now result.1 }
        ensures kid { IsBranchOf (below self.now place) i (result.0, below self.now result.1) };

    /// The laws: what is below a place is the empty history, where the place ends one, and what is
    /// below its kids, each after its label; the labels rise strictly; and below each kid there is
    /// a member.
    ghost branching: { (tree : Self) (place : Self.Place) →
        is_place tree place → IsBranching (below tree place) };
}

/// A reference to a trie lends its nodes: nothing is copied.
impl<'a, A: Allocator> SerialTree for &'a Trie<A> {
    type Place = &'a Trie<A>;

    ghost members = { λ tree. tree.now };

    ghost below = { λ tree place. place.now };

    ghost is_place = { λ tree place. IsBranching place.now };

    ghost branching = { λ tree place is. is };

    fn root(&self) -> &'a Trie<A>
        ensures place { IsBranching result.now }
        ensures all { result.now ≡ self.now.now }
        ensures serial { AllSerial self.now.now }
    {
        let trie: &'a Trie<A> = *self;
        // What holds of every trie is known where its kids are named.
        let _ = &trie.kids;
        trie
    }

    fn ends(&self, place: &'a Trie<A>) -> bool {
        place.ends
    }

    fn kid_count(&self, place: &'a Trie<A>) -> usize {
        place.kids.len()
    }

    fn kid(&self, place: &'a Trie<A>, i: usize) -> (SerialOp, &'a Trie<A>) {
        let (label, below) = &place.kids[i];
        // What holds of every trie is known where its kids are named.
        let _ = &below.kids;
        (*label, below)
    }
}
