//! Searches one after the other.

ghost use Rattle.std.specs.Prelude.{◌≡◌, false, IfOk};
ghost use Rattle.lu_machine.specs.Tests.{IsStartOf, IsWithinLimits};
ghost use Rattle.lu_witness.specs.Caches.{SameButEntries};
ghost use Rattle.lu_tree.specs.Trees.{CanSearch, MayFind, is_abandoned};

use crate::found::Found;
use crate::node::Node;
use crate::progress::WalkProgress;
use crate::searching::{follow, search_below};
use crate::space::SearchSpace;
use crate::tables::Tables;
use crate::watch::Watch;
use lu_machine::{Machine, Position};
use lu_test::Schedule;
use lu_trie::SerialTree;
use lu_witness::Cache;
use std::alloc::AllocError;

/// What searches of one space over one tree need, made once for any number of them: the tables of
/// the component and the matrix, a machine, the history of its run, and room for a path.
///
/// Between searches the machine is at the start of a run. What one search judged good the next one
/// knows.
#[derive(Drop)]
pub struct Searcher<'a, 't, T: SerialTree> {
    space: SearchSpace<'a>,
    tables: Tables,
    node: Node<'a, 't, T>,

    /// The start of a run.
    start: Position,

    tally: WalkProgress,
}

impl<'a, 't, T: SerialTree> Searcher<'a, 't, T> {
    ghost use Rattle.lu_tree.specs.Searchers.{IsReadyToSearch, space_of, tree_of};

    /// A searcher of this space over the tree.
    ///
    /// # Errors
    ///
    /// `AllocError` where memory was refused.
    pub fn new(space: SearchSpace<'a>, tree: &'t T) -> Result<Searcher<'a, 't, T>, AllocError>
        ensures ready { IfOk result IsReadyToSearch }
        ensures space { IfOk result (λ searcher. space_of searcher ≡ space.entry) }
        ensures tree { IfOk result (λ searcher. tree_of searcher ≡ tree.entry.now) }
        ensures limits { IsWithinLimits space.entry.test }
    {
        let test = space.test;
        let machine = Machine::start(space.alloc, test.component, test.matrix)?;
        Searcher::from_start(space, machine, tree)
    }

    /// A searcher of this space over the tree, by a machine that is at the start of a run.
    ///
    /// # Errors
    ///
    /// `AllocError` where memory was refused.
    pub fn from_start(
        space: SearchSpace<'a>,
        machine: Machine<'a>,
        tree: &'t T,
    ) -> Result<Searcher<'a, 't, T>, AllocError>
        requires start { IsStartOf space.test machine }
        ensures ready { IfOk result IsReadyToSearch }
        ensures space { IfOk result (λ searcher. space_of searcher ≡ space.entry) }
        ensures tree { IfOk result (λ searcher. tree_of searcher ≡ tree.entry.now) }
    {
        let SearchSpace { alloc, test, bound } = space;
        let node = Node::start(alloc, machine, tree)?;
        let tables = Tables::new(alloc, test.component, test.matrix, bound)?;
        let start = node.machine.position(alloc)?;
        let tally = WalkProgress::new(alloc)?;
        Ok(Searcher {
            space: SearchSpace { alloc, test, bound },
            tables,
            node,
            start,
            tally,
        })
    }

    /// Searches as [`search`](crate::search) does, over the tree of the cache, until the watch stops
    /// it. The watch is asked after each 64 further schedules that were judged good, or that are cut.
    ///
    /// # Errors
    ///
    /// `AllocError` where memory was refused.
    pub fn search<W: Watch>(
        &mut self,
        cache: &mut Cache<'t, T>,
        from: &Schedule,
        watch: &mut W,
    ) -> Result<Found, AllocError>
        requires ready { IsReadyToSearch self.old }
        requires of { CanSearch (space_of self.old) from.now }
        requires tree { cache.old.tree ≡ tree_of self.old }
        requires running { W.is_stopped watch.old ≡ false }
        ensures ready { IsReadyToSearch self.new }
        ensures space { space_of self.new ≡ space_of self.old }
        ensures tree { tree_of self.new ≡ tree_of self.old }
        ensures found { MayFind (space_of self.old) (T.members cache.old.tree) from.now result }
        ensures base { W.base watch.new ≡ W.base watch.old }
        ensures cache { SameButEntries cache.old cache.new }
        ensures stopped { W.is_stopped watch.new ≡ is_abandoned result }
        ensures limits { IsWithinLimits (space_of self.old).test }
    {
        let moves = from.moves();
        follow(&mut self.node, moves);
        let found = search_below(
            &self.space,
            &self.tables,
            cache,
            moves,
            &mut self.node,
            &mut self.tally,
            watch,
        );
        self.node.machine.stand_at(&self.start);
        self.node.trail.clear();
        self.tally.renew();
        found
    }
}
