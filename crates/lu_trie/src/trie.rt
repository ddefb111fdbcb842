//! Sets of serial histories, in a trie over any allocator.

ghost use Rattle.std.specs.Prelude.{◌≡◌, ◌≢◌, ◌↔◌, ◌<◌, min, [], ◌∷◌, length, not, IsTrue, IfOk, IfErr, OnOk, OnErr, IfSome, IfNone};
ghost use Rattle.std.specs.List.{All};
ghost use Rattle.std.specs.List.Sorted.{IsStrictlySortedBy};
ghost use Rattle.lu_history.specs.Serial.{IsSerial};
ghost use Rattle.lu_trie.specs.Members.{contains, Adds, history_cmp};
ghost use Rattle.lu_trie.specs.Conflicts.{IsConflict, IsDeterministic};
ghost use Rattle.lu_trie.specs.Branches.{AreBranches, IsBranchAt, IsGapFor, IsKidOf};

use lu_history::{SerialOp, SerialOutcome};
use std::alloc::{AllocError, Allocator};
use std::marker::Model;

/// A set of serial histories. In clauses it is the list of its members, in order.
///
/// Histories are ordered operation by operation, and a proper beginning is smaller. All memory is
/// taken from the trie's allocator, so a trie over a borrowed arena can't outlive the arena.
#[derive(Drop)]
pub struct Trie<A: Allocator> {
    /// Whether the empty history is a member.
    pub(crate) ends: bool,

    /// The members that are not empty, by their first operations, in order.
    pub(crate) kids: Vec<(SerialOp, Trie<A>), A>,
}

impl<A: Allocator> Model for Trie<A> {
    ghost use Rattle.std.specs.Prelude.{List};
    ghost use Rattle.std.proofs.Common.{arith};
    ghost use Rattle.lu_history.specs.declared.serial.SerialOp.{SerialOp};
    ghost use Rattle.lu_trie.specs.Members.{weight};
    ghost use Rattle.lu_trie.specs.Branches.{members_from, IsNode};
    ghost use Rattle.lu_trie.specs.Weights.{node_lighter};

    ghost Value = { List (List SerialOp) };

    ghost view = { λ a. members_from a.ends a.kids.items };

    ghost invariant = { λ a. IsNode a.ends a.kids.items };

    ghost size = { weight };

    ghost size_decreases = { λ a h.
        node_lighter _ (λ kid. Prim.omega arith) a.ends a.kids.items h.are };
}

impl<A: Allocator> Trie<A> {
    /// The empty set. It takes no memory until a history is inserted.
    pub fn new(alloc: A) -> Trie<A>
        ensures { result ≡ [] }
    {
        Trie {
            ends: false,
            kids: Vec::new(alloc),
        }
    }

    /// Whether the history is a member. A beginning of a member is none unless it was inserted.
    pub fn contains(&self, history: &[SerialOp]) -> bool
        ensures { result ≡ contains self.now history.now }
    {
        match history {
            [] => self.ends,
            [label, rest @ ..] => match find_kid(&self.kids, *label) {
                Ok(i) => self.kids[i].1.contains(rest),
                Err(_) => false,
            },
        }
    }

    /// The number of members, or `u64::MAX` where there are more.
    pub fn len(&self) -> u64
        ensures count { result ≡ min (length self.now) u64.MAX }
        ensures sorted { IsStrictlySortedBy history_cmp self.now }
    {
        let mut count = u64::from(self.ends);
        for (_, below) in &self.kids {
            count = count.saturating_add(below.len());
        }
        count
    }

    /// Whether the set has no member.
    pub fn is_empty(&self) -> bool
        ensures { IsTrue result ↔ (self.now ≡ []) }
    {
        !self.ends && self.kids.is_empty()
    }

    /// Where the history conflicts with a member: the number i of operations at which they agree,
    /// and the outcome of the member's next one, where the histories go on with the same thread and
    /// different outcomes (Burckhardt, Dern, Musuvathi and Tan, 2010). The set is asked to be one
    /// without conflicts between its members, and then there is at most one such pair.
    pub fn conflict(&self, history: &[SerialOp]) -> Option<(usize, SerialOutcome)>
        requires { IsDeterministic self.now }
        ensures { IsConflict self.now history.now result }
    {
        match history {
            [] => None,
            [op, rest @ ..] => {
                let (label, below) = &self.kids[of_thread(&self.kids, op.thread)?];
                if label.outcome == op.outcome {
                    let (i, outcome) = below.conflict(rest)?;
                    Some((i + 1, outcome))
                } else {
                    Some((0, label.outcome))
                }
            }
        }
    }
}

impl<A: Allocator + Clone> Trie<A> {
    /// The set of one history.
    fn of_one(alloc: &A, history: &[SerialOp]) -> Result<Trie<A>, AllocError>
        requires { IsSerial history.now }
        ensures { IfOk result (λ trie. trie ≡ history.now ∷ []) }
    {
        let mut kids = Vec::new(alloc.clone()?);
        match history {
            [] => Ok(Trie { ends: true, kids }),
            [label, rest @ ..] => {
                let below = Self::of_one(alloc, rest)?;
                kids.push((*label, below))?;
                Ok(Trie { ends: false, kids })
            }
        }
    }

    /// Adds a history, in which `Stuck` may stand only last, and returns whether it was no member
    /// before.
    ///
    /// # Errors
    ///
    /// Memory was refused. The set then stays as it was: the nodes of the new operations are built
    /// first, and linked by one growth.
    pub fn insert(&mut self, history: &[SerialOp]) -> Result<bool, AllocError>
        requires { IsSerial history.now }
        ensures ok { OnOk result (Adds self.old self.new history.now) }
        ensures fresh { IfOk result (λ fresh. fresh ≡ not (contains self.old history.now)) }
        ensures err { OnErr result (self.new ≡ self.old) }
    {
        match history {
            [] => {
                let fresh = !self.ends;
                self.ends = true;
                Ok(fresh)
            }
            [label, rest @ ..] => match find_kid(&self.kids, *label) {
                Ok(i) => self.kids[i].1.insert(rest),
                Err(i) => {
                    let below = Self::of_one(self.kids.allocator(), rest)?;
                    self.kids.insert(i, (*label, below))?;
                    Ok(true)
                }
            },
        }
    }
}

/// Where the kid with a label is, or where it would go.
fn find_kid<A: Allocator>(kids: &[(SerialOp, Trie<A>)], label: SerialOp) -> Result<usize, usize>
    requires { AreBranches kids.now }
    ensures found { IfOk result (IsBranchAt kids.now label) }
    ensures absent { IfErr result (IsGapFor kids.now label) }
{
    kids.binary_search_by_key(&label, |(label, _)| *label)
}

/// The first kid of a thread.
fn of_thread<A: Allocator>(kids: &[(SerialOp, Trie<A>)], thread: u8) -> Option<usize>
    ensures some { IfSome result (IsKidOf kids.now thread) }
    ensures none { IfNone result (All (λ kid. kid.0.thread ≢ thread) kids.now) }
{
    kids.iter().position(|(label, _)| label.thread == thread)
}
