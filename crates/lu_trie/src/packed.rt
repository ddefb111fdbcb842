//! Sets of serial histories in flat vectors.

ghost use Rattle.std.specs.Prelude.{◌≡◌, ◌<◌, ◌++◌, List, [], length, slice_index_or, IfOk};
ghost use Rattle.lu_history.specs.declared.serial.SerialOp.{SerialOp};
ghost use Rattle.lu_trie.specs.Members.{AllSerial};
ghost use Rattle.lu_trie.specs.Branches.{AreBranches, members_from};
ghost use Rattle.lu_trie.specs.Packed.{AllBelow, HoldsFrom, IsPlaceIn, members_of, resolve};

use crate::tree::SerialTree;
use crate::trie::Trie;
use lu_history::SerialOp;
use std::alloc::{AllocError, Allocator};
use std::marker::Model;

/// A node, whose links to its kids stand in a row.
#[derive(Clone, Copy)]
struct PackedNode {
    /// Whether the operations that lead to the node are a member.
    ends: bool,

    /// The place of its first link.
    first: usize,

    /// The number of its links.
    count: usize,
}

/// Nodes, each after its kids. In clauses it is the list of the sets of members below each node.
#[derive(Drop)]
struct Table<A: Allocator> {
    nodes: Vec<PackedNode, A>,

    /// The labels of kids and the kids' places among the nodes, for each node in a row.
    links: Vec<(SerialOp, usize), A>,
}

impl<A: Allocator> Model for Table<A> {
    ghost use Rattle.std.specs.Prelude.{List, []};
    ghost use Rattle.lu_history.specs.declared.serial.SerialOp.{SerialOp};
    ghost use Rattle.lu_trie.specs.Packed.{table_from, ArePacked};

    ghost Value = { List (List (List SerialOp)) };

    ghost view = { λ t. table_from t.links.items [] t.nodes.items };

    ghost invariant = { λ t. ArePacked t.links.items [] t.nodes.items };
}

impl<A: Allocator> Table<A> {
    /// Adds a node that has these links, and returns its place.
    fn push_node(&mut self, ends: bool, links: &[(SerialOp, usize)]) -> Result<usize, AllocError>
        requires below { AllBelow (length self.old) links.now }
        requires branches { AreBranches (resolve self.old links.now) }
        requires serial { AllSerial (members_from ends (resolve self.old links.now)) }
        ensures grows { (more : List (List (List SerialOp))) × (self.new ≡ self.old ++ more) }
        ensures place { IfOk result (λ place. place < length self.new) }
        ensures members { IfOk result (HoldsFrom self.old ends links.now self.new) }
    {
        let first = self.links.len();
        self.links.extend_from_slice(links)?;
        let place = self.nodes.len();
        self.nodes.push(PackedNode {
            ends,
            first,
            count: links.len(),
        })?;
        Ok(place)
    }
}

impl<B: Allocator> Trie<B> {
    /// Adds the trie's nodes to a table, and returns the place of its root. It may have added some
    /// where memory is refused.
    fn add_to<A: Allocator + Clone>(&self, table: &mut Table<A>) -> Result<usize, AllocError>
        ensures grows { (more : List (List (List SerialOp))) × (table.new ≡ table.old ++ more) }
        ensures place { IfOk result (λ place. place < length table.new) }
        ensures members { IfOk result (λ place. slice_index_or table.new place [] ≡ self.now) }
    {
        let mut links = Vec::with_capacity(table.links.allocator().clone()?, self.kids.len())?;
        for (label, below) in &self.kids {
            let place = below.add_to(table)?;
            links.push((*label, place))?;
        }
        table.push_node(self.ends, &links)
    }
}

/// A set of serial histories in flat vectors, made from a trie and only read. A step down the tree
/// reads two nodes and the link between them, and takes no memory. In clauses it is the sets below
/// its places and the place of its root.
#[derive(Drop)]
pub struct PackedTrie<A: Allocator> {
    table: Table<A>,
    root: usize,
}

impl<A: Allocator> Model for PackedTrie<A> {
    ghost use Rattle.std.specs.Prelude.{ℕ, ◌<◌, List, length};
    ghost use Rattle.lu_history.specs.declared.serial.SerialOp.{SerialOp};

    ghost Value = { List (List (List SerialOp)) × ℕ };

    ghost view = { λ p. (p.table, p.root) };

    ghost invariant = { λ p. p.root < length p.table };
}

impl<A: Allocator + Clone> PackedTrie<A> {
    /// The same set as the trie's, under an allocator of its own.
    ///
    /// # Errors
    ///
    /// Memory was refused.
    pub fn pack<B: Allocator>(alloc: A, trie: &Trie<B>) -> Result<PackedTrie<A>, AllocError>
        ensures { IfOk result (λ packed. members_of packed ≡ trie.now) }
    {
        let mut table = Table {
            nodes: Vec::new(alloc.clone()?),
            links: Vec::new(alloc),
        };
        let root = trie.add_to(&mut table)?;
        Ok(PackedTrie { table, root })
    }
}

/// A place is the number of a node.
impl<'a, A: Allocator> SerialTree for &'a PackedTrie<A> {
    type Place = usize;

    ghost members = { λ tree. members_of tree.now };

    ghost below = { λ tree place. slice_index_or tree.now.0 place [] };

    ghost is_place = { λ tree place. IsPlaceIn tree.now.0 place };

    ghost branching = { λ tree place is. is.1 };

    fn root(&self) -> usize {
        let packed: &'a PackedTrie<A> = *self;
        let table = &packed.table;
        // What holds of every node is known where the node is read.
        let _ = table.nodes[packed.root];
        packed.root
    }

    fn ends(&self, place: usize) -> bool {
        let packed: &'a PackedTrie<A> = *self;
        let table = &packed.table;
        table.nodes[place].ends
    }

    fn kid_count(&self, place: usize) -> usize {
        let packed: &'a PackedTrie<A> = *self;
        let table = &packed.table;
        table.nodes[place].count
    }

    fn kid(&self, place: usize, i: usize) -> (SerialOp, usize) {
        let packed: &'a PackedTrie<A> = *self;
        let table = &packed.table;
        let (label, below) = table.links[table.nodes[place].first + i];
        // What holds of every node is known where the node is read.
        let _ = table.nodes[below];
        (label, below)
    }
}
