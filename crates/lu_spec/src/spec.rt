//! Specifications.

ghost use Rattle.std.specs.Prelude.{◌≡◌, ◌↔◌, IsTrue, IfOk};
ghost use Rattle.lu_trie.specs.Members.{AllSerial, contains};
ghost use Rattle.lu_trie.specs.Conflicts.{IsDeterministic};
ghost use Rattle.lu_spec.specs.Beginnings.{IsClosureOf};
ghost use Rattle.lu_spec.specs.Specs.{AreOf, IsSpec};

use crate::closing::add_below;
use crate::fitting::{all_fit, calls_of};
use lu_history::SerialOp;
use lu_test::Matrix;
use lu_trie::{SerialTree, Trie};
use std::alloc::{AllocError, Allocator, Global};
use std::marker::Model;

/// A specification: a set of serial histories without conflict, closed under beginnings, which
/// holds the empty one. In clauses it is the list of its members, in order.
#[derive(Drop)]
pub struct Spec {
    set: Trie<Global>,
}

impl Model for Spec {
    ghost use Rattle.std.specs.Prelude.{List};
    ghost use Rattle.lu_history.specs.declared.serial.SerialOp.{SerialOp as AnOp};
    ghost use Rattle.lu_spec.specs.Specs.{IsSpec};

    ghost Value = { List (List AnOp) };

    ghost view = { λ s. s.set };

    ghost invariant = { λ s. IsSpec s.set };
}

impl Spec {
    /// The specification of all beginnings of the members, and of the empty history. It is one of
    /// the matrix. Asks for members of this matrix that do not conflict, as those of the set that
    /// `learn` returns.
    ///
    /// # Errors
    ///
    /// `AllocError` where memory was refused.
    pub fn closure<A: Allocator>(
        alloc: Global,
        matrix: &Matrix,
        set: &Trie<A>,
    ) -> Result<Spec, AllocError>
        requires deterministic { IsDeterministic set.now }
        requires of { AreOf matrix.now set.now }
        ensures closure { IfOk result (IsClosureOf set.now) }
        ensures of { IfOk result (AreOf matrix.now) }
    {
        let tree = &set;
        // That each member is serial is known where the root is read.
        let _ = tree.root();
        Self::closure_of(alloc, matrix, tree)
    }

    /// The specification of all beginnings of a tree's members, as [`Spec::closure`] makes it of a
    /// trie. Asks for serial histories.
    ///
    /// # Errors
    ///
    /// `AllocError` where memory was refused.
    pub fn closure_of<T: SerialTree>(
        alloc: Global,
        matrix: &Matrix,
        tree: &T,
    ) -> Result<Spec, AllocError>
        requires deterministic { IsDeterministic (T.members tree.now) }
        requires serial { AllSerial (T.members tree.now) }
        requires of { AreOf matrix.now (T.members tree.now) }
        ensures closure { IfOk result (IsClosureOf (T.members tree.now)) }
        ensures of { IfOk result (AreOf matrix.now) }
    {
        let mut closed = Trie::new(alloc);
        add_below(&mut closed, tree, tree.root(), &mut Vec::new(alloc))?;
        Ok(Spec { set: closed })
    }

    /// The specification of a set that is one.
    pub(crate) fn of_closed(set: Trie<Global>) -> Spec
        requires { IsSpec set }
        ensures { result ≡ set }
    {
        Spec { set }
    }

    /// The set.
    pub(crate) fn into_set(self) -> Trie<Global>
        ensures set { result ≡ self }
        ensures sound { IsSpec self }
    {
        self.set
    }

    /// Whether this is a specification of the matrix: no history has more operations of a thread
    /// than the thread has calls, nor any of a thread that the matrix does not have.
    pub fn of(&self, matrix: &Matrix) -> bool
        ensures { IsTrue result ↔ AreOf matrix.now self.now }
    {
        let tree = &&self.set;
        all_fit(tree, tree.root(), calls_of(matrix))
    }

    /// Whether the history is a member.
    pub fn contains(&self, history: &[SerialOp]) -> bool
        ensures { result ≡ contains self.now history.now }
    {
        self.set.contains(history)
    }

    /// The set, to be read as a tree.
    pub fn tree(&self) -> &Trie<Global>
        ensures set { result.now ≡ self.now }
        ensures sound { IsSpec self.now }
    {
        &self.set
    }
}
