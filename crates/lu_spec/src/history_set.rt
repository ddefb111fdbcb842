//! Sets of serial histories that grow in any order.

ghost use Rattle.std.specs.Prelude.{◌≡◌, [], IfOk, OnOk};
ghost use Rattle.lu_trie.specs.Members.{Adds, AllSerial, contains};
ghost use Rattle.lu_spec.specs.Beginnings.{AddsBeginnings, HaveTheSame};

use lu_history::SerialOp;
use lu_trie::Trie;
use std::alloc::{AllocError, Global};
use std::collections::BTreeSet;
use std::marker::Model;

/// A set of serial histories. A history is added in the same time wherever it comes in their order;
/// a [`Trie`] moves those that come after it. In clauses it is the list of its members.
#[derive(Drop)]
pub(crate) struct HistorySet {
    members: BTreeSet<Vec<SerialOp>>,
}

impl Model for HistorySet {
    ghost use Rattle.std.specs.Prelude.{List, map};
    ghost use Rattle.lu_history.specs.declared.serial.SerialOp.{SerialOp as AnOp};

    ghost Value = { List (List AnOp) };

    ghost view = { λ s. map (λ history. history.items) s.members.keys };
}

impl HistorySet {
    /// The empty set.
    pub(crate) fn new(alloc: Global) -> HistorySet
        ensures { result ≡ [] }
    {
        HistorySet {
            members: BTreeSet::new(alloc),
        }
    }

    /// Whether the history is a member.
    pub(crate) fn contains(&self, history: &[SerialOp]) -> bool
        ensures { result ≡ contains self.now history.now }
    {
        self.members.contains(history)
    }

    /// Adds a history.
    pub(crate) fn insert(&mut self, history: Vec<SerialOp>) -> Result<(), AllocError>
        ensures { OnOk result (Adds self.old self.new history.items) }
    {
        self.members.insert(history)?;
        Ok(())
    }

    /// The same set as a trie, to which the histories are added in order.
    pub(crate) fn into_trie(self, alloc: Global) -> Result<Trie<Global>, AllocError>
        requires { AllSerial self }
        ensures { IfOk result (HaveTheSame self) }
    {
        let mut trie = Trie::new(alloc);
        for history in &self.members {
            trie.insert(history)?;
        }
        Ok(trie)
    }
}

/// Adds all beginnings of a history, and the history.
pub(crate) fn add_with_beginnings(
    alloc: Global,
    set: &mut HistorySet,
    history: &[SerialOp],
) -> Result<(), AllocError>
    ensures { OnOk result (AddsBeginnings set.old set.new history.now) }
{
    for end in 0..history.len() {
        let beginning = Vec::from_slice(alloc, &history[..end])?;
        set.insert(beginning)?;
    }
    let whole = Vec::from_slice(alloc, history)?;
    set.insert(whole)?;
    Ok(())
}
