//! Sets of serial histories as graphs without cycles.

ghost use Rattle.std.specs.Prelude.{◌≡◌, ◌<◌, ◌++◌, List, [], length, slice_index_or, IfOk};
ghost use Rattle.lu_history.specs.declared.serial.SerialOp.{SerialOp};
ghost use Rattle.std.specs.List.Sorted.{IsStrictlySortedBy};
ghost use Rattle.lu_trie.specs.Members.{AllSerial, history_cmp};
ghost use Rattle.lu_trie.specs.Branches.{AreBranches, members_from};
ghost use Rattle.lu_serial_graph.specs.Graphs.{AllBelow, HoldsFrom, IsPlaceIn, count_of, members_of, node_count_of, resolve};

use lu_history::SerialOp;
use lu_trie::SerialTree;
use std::alloc::{AllocError, Allocator};
use std::marker::Model;

/// A node. Its links to its children are stored in a row.
#[derive(Clone, Copy)]
struct GraphNode {
    /// Whether the operations that lead to the node are a member.
    ends: bool,

    /// The place of its first link.
    first: usize,

    /// The number of its links.
    count: usize,

    /// The number of members below it, or `u64::MAX` where there are more.
    member_count: u64,
}

/// Nodes, each after its children, which it may share with other nodes. In clauses it is the list of
/// the sets of members below each node.
#[derive(Drop)]
pub(crate) struct Table<A: Allocator> {
    nodes: Vec<GraphNode, A>,

    /// The labels of the children and their places among the nodes, for each node in a row.
    links: Vec<(SerialOp, usize), A>,
}

impl<A: Allocator> Model for Table<A> {
    ghost use Rattle.std.specs.Prelude.{List, []};
    ghost use Rattle.lu_history.specs.declared.serial.SerialOp.{SerialOp};
    ghost use Rattle.lu_serial_graph.specs.Graphs.{table_from, AreLinked};

    ghost Value = { List (List (List SerialOp)) };

    ghost view = { λ t. table_from t.links.items [] t.nodes.items };

    ghost invariant = { λ t. AreLinked t.links.items [] t.nodes.items };
}

impl<A: Allocator + Clone> Table<A> {
    /// A table without nodes.
    pub(crate) fn new(alloc: A) -> Result<Table<A>, AllocError>
        ensures { IfOk result (λ table. table ≡ []) }
    {
        Ok(Table {
            nodes: Vec::new(alloc.clone()?),
            links: Vec::new(alloc),
        })
    }
}

impl<A: Allocator> Table<A> {
    /// The number of nodes.
    fn len(&self) -> usize
        ensures { result ≡ length self.now }
    {
        self.nodes.len()
    }

    /// The number of members of a node with these links, or `u64::MAX` where there are more.
    fn count(&self, ends: bool, links: &[(SerialOp, usize)]) -> u64
        requires { AllBelow (length self.now) links.now }
        ensures { result ≡ count_of (members_from ends (resolve self.now links.now)) }
    {
        let mut count = u64::from(ends);
        for (_, place) in links {
            count = count.saturating_add(self.nodes[*place].member_count);
        }
        count
    }

    /// Adds a node that has these links, and returns its place.
    pub(crate) fn push_node(
        &mut self,
        ends: bool,
        links: &[(SerialOp, usize)],
    ) -> Result<usize, AllocError>
        requires below { AllBelow (length self.old) links.now }
        requires branches { AreBranches (resolve self.old links.now) }
        requires serial { AllSerial (members_from ends (resolve self.old links.now)) }
        ensures grows { (more : List (List (List SerialOp))) × (self.new ≡ self.old ++ more) }
        ensures place { IfOk result (λ place. place < length self.new) }
        ensures members { IfOk result (HoldsFrom self.old ends links.now self.new) }
    {
        let member_count = self.count(ends, links);
        let first = self.links.len();
        self.links.extend_from_slice(links)?;
        let place = self.nodes.len();
        self.nodes.push(GraphNode {
            ends,
            first,
            count: links.len(),
            member_count,
        })?;
        Ok(place)
    }
}

/// A set of serial histories, in which prefixes with the same continuations share one node. In
/// clauses it is the sets below its places and the place of its root.
#[derive(Drop)]
pub struct SerialGraph<A: Allocator> {
    table: Table<A>,
    root: usize,
}

impl<A: Allocator> Model for SerialGraph<A> {
    ghost use Rattle.std.specs.Prelude.{ℕ, ◌<◌, List, length};
    ghost use Rattle.lu_history.specs.declared.serial.SerialOp.{SerialOp};

    ghost Value = { List (List (List SerialOp)) × ℕ };

    ghost view = { λ p. (p.table, p.root) };

    ghost invariant = { λ p. p.root < length p.table };
}

impl<A: Allocator> SerialGraph<A> {
    /// The set below this place of the table, which has to have that place.
    pub(crate) fn of(table: Table<A>, root: usize) -> SerialGraph<A>
        requires { root < length table }
        ensures { members_of result ≡ slice_index_or table root [] }
    {
        SerialGraph { table, root }
    }

    /// The number of members, or `u64::MAX` where there are more.
    pub fn member_count(&self) -> u64
        ensures count { result ≡ count_of (members_of self.now) }
        ensures sorted { IsStrictlySortedBy history_cmp (members_of self.now) }
    {
        let table = &self.table;
        table.nodes[self.root].member_count
    }

    /// The number of nodes.
    pub fn node_count(&self) -> usize
        ensures { result ≡ node_count_of self.now }
    {
        self.table.len()
    }
}

/// A place is the number of a node.
impl<'a, A: Allocator> SerialTree for &'a SerialGraph<A> {
    type Place = usize;

    ghost members = { λ tree. members_of tree.now };

    ghost below = { λ tree place. slice_index_or tree.now.0 place [] };

    ghost is_place = { λ tree place. IsPlaceIn tree.now.0 place };

    ghost branching = { λ tree place is. is.1 };

    fn root(&self) -> usize {
        let graph: &'a SerialGraph<A> = *self;
        let table = &graph.table;
        // What holds of every node is known where the node is read.
        let _ = table.nodes[graph.root];
        graph.root
    }

    fn ends(&self, place: usize) -> bool {
        let graph: &'a SerialGraph<A> = *self;
        let table = &graph.table;
        table.nodes[place].ends
    }

    fn kid_count(&self, place: usize) -> usize {
        let graph: &'a SerialGraph<A> = *self;
        let table = &graph.table;
        table.nodes[place].count
    }

    fn kid(&self, place: usize, i: usize) -> (SerialOp, usize) {
        let graph: &'a SerialGraph<A> = *self;
        let table = &graph.table;
        let (label, below) = table.links[table.nodes[place].first + i];
        // What holds of every node is known where the node is read.
        let _ = table.nodes[below];
        (label, below)
    }
}
