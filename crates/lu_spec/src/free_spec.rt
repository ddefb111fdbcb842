//! Specifications that leave outcomes free.

ghost use Rattle.std.specs.Prelude.{◌≡◌};
ghost use Rattle.lu_spec.specs.FreeSpecs.{IsFreeSpec};

use crate::spec::Spec;
use lu_trie::Trie;
use std::alloc::Global;
use std::marker::Model;

/// A specification that may leave outcomes free: a set of serial histories, closed under
/// beginnings, which holds the empty one; two of them may conflict. In clauses it is the list of
/// its members, in order.
#[derive(Drop)]
pub struct FreeSpec {
    set: Trie<Global>,
}

impl Model for FreeSpec {
    ghost use Rattle.std.specs.Prelude.{List};
    ghost use Rattle.lu_history.specs.declared.serial.SerialOp.{SerialOp as AnOp};
    ghost use Rattle.lu_spec.specs.FreeSpecs.{IsFreeSpec};

    ghost Value = { List (List AnOp) };

    ghost view = { λ s. s.set };

    ghost invariant = { λ s. IsFreeSpec s.set };
}

impl FreeSpec {
    /// The specification of a set that is one.
    pub(crate) fn of_closed(set: Trie<Global>) -> FreeSpec
        requires { IsFreeSpec set }
        ensures { result ≡ set }
    {
        FreeSpec { set }
    }

    /// The same histories, of which no two conflict.
    pub fn of_spec(spec: Spec) -> FreeSpec
        ensures { result ≡ spec }
    {
        FreeSpec {
            set: spec.into_set(),
        }
    }

    /// The set, to be read as a tree.
    pub fn tree(&self) -> &Trie<Global>
        ensures set { result.now ≡ self.now }
        ensures sound { IsFreeSpec self.now }
    {
        &self.set
    }
}
