//! The search below a schedule.

ghost use Rattle.std.specs.Prelude.{◌≡◌, ◌≤◌, ◌++◌, [], false, length, reverse, vec_capacity, IfOk, OnOk};
ghost use Rattle.lu_component.specs.Component.{IsComponent};
ghost use Rattle.lu_machine.specs.declared.TheConstants.{MOST_MOVES};
ghost use Rattle.lu_test.specs.Matrix.{IsMatrix};
ghost use Rattle.lu_test.specs.Schedule.{AreMoves};
ghost use Rattle.lu_machine.specs.Ends.{IsEnded};
ghost use Rattle.lu_machine.specs.States.{State, progress};
ghost use Rattle.lu_machine.specs.Runs.{Leads};
ghost use Rattle.lu_machine.specs.Schedules.{IsSchedule};
ghost use Rattle.lu_machine.specs.Starts.{CanRun, IsStart};
ghost use Rattle.lu_machine.specs.Tests.{IsWithinLimits};
ghost use Rattle.lu_history.specs.Standing.{Agree};
ghost use Rattle.lu_witness.specs.Caches.{SameButEntries};
ghost use Rattle.lu_tree.specs.Tables.{AreTablesOf};
ghost use Rattle.lu_tree.specs.Trees.{CanSearch, FindsBelow, MayFind, MayFindOver, is_abandoned};
ghost use Rattle.lu_tree.specs.Walked.{IsBadFound, IsOfOneRun};
ghost use Rattle.lu_tree.specs.Walks.{IsReadyToWalk, LeadsToNode};

use crate::found::Found;
use crate::halt::Halt;
use crate::lookahead::Lookahead;
use crate::node::Node;
use crate::progress::WalkProgress;
use crate::searcher::Searcher;
use crate::space::SearchSpace;
use crate::tables::Tables;
use crate::walk::walk;
use crate::watch::{Unwatched, Watch};
use lu_component::Component;
use lu_machine::Test;
use lu_test::{Matrix, Move, Schedule};
use lu_trie::SerialTree;
use lu_witness::Cache;
use std::alloc::{AllocError, Global};

/// How many verdicts a search remembers beside those of its own histories.
const REMEMBERED: usize = 1024;

/// Makes the moves of a schedule.
pub(crate) fn follow<T: SerialTree>(node: &mut Node<'_, '_, T>, schedule: &[Move])
    requires feasible { IsSchedule node.old.machine schedule.now }
    requires silent { node.old.trail.history ≡ [] }
    requires agree { Agree (progress node.old.machine) [] }
    ensures leads { Leads node.old.machine schedule.now node.new.machine node.new.trail.history }
    ensures agree { Agree (progress node.new.machine) node.new.trail.history }
    ensures tree { node.new.trail.tree ≡ node.old.trail.tree }
{
    for next in schedule {
        node.enter::<true>(*next);
    }
}

/// The schedule of these moves, and then of those of the path, the last one of which comes first.
fn join(alloc: Global, from: &[Move], path: &[Move]) -> Result<Vec<Move>, AllocError>
    ensures { IfOk result (λ moves. moves.items ≡ from.now ++ reverse path.now) }
{
    let mut moves = Vec::from_slice(alloc, from)?;
    for next in path.iter().rev() {
        moves.push(*next)?;
    }
    Ok(moves)
}

/// The schedule of these moves and of the path, at whose end a walk halted, and why it is bad.
fn found_bad<'t, T: SerialTree>(
    alloc: Global,
    cache: &mut Cache<'t, T>,
    from: &[Move],
    path: &[Move],
    node: &mut Node<'_, 't, T>,
) -> Result<Found, AllocError>
    requires agree { Agree (progress node.old.machine) node.old.trail.history }
    requires tree { cache.old.tree ≡ node.old.trail.tree }
    requires ended { IsEnded node.old.machine }
    requires moves { AreMoves (from.now ++ reverse path.now) }
    ensures same { node.new ≡ node.old }
    ensures cache { SameButEntries cache.old cache.new }
    ensures bad { IfOk result (IsBadFound T.members node.old (from.now ++ reverse path.now)) }
{
    let why = node.why_bad(cache)?;
    let moves = join(alloc, from, path)?;
    Ok(Found::Bad {
        schedule: Schedule::new(moves),
        why,
    })
}

/// Searches below the node to which the moves lead. It may end at another.
pub(crate) fn search_below<'t, T: SerialTree, W: Watch>(
    space: &SearchSpace<'_>,
    tables: &Tables,
    cache: &mut Cache<'t, T>,
    from: &[Move],
    node: &mut Node<'_, 't, T>,
    tally: &mut WalkProgress,
    watch: &mut W,
) -> Result<Found, AllocError>
    requires of { CanSearch space.now from.now }
    requires tables { AreTablesOf space.now.test tables.now }
    requires leads { LeadsToNode space.now from.now node.old }
    requires agree { Agree (progress node.old.machine) node.old.trail.history }
    requires tree { cache.old.tree ≡ node.old.trail.tree }
    requires running { W.is_stopped watch.old ≡ false }
    requires limits { IsWithinLimits space.now.test }
    requires ready { IsReadyToWalk tally.old }
    ensures found { MayFind space.now (T.members node.old.trail.tree) from.now result }
    ensures base { W.base watch.new ≡ W.base watch.old }
    ensures cache { SameButEntries cache.old cache.new }
    ensures stopped { W.is_stopped watch.new ≡ is_abandoned result }
    ensures run { IsOfOneRun node.old node.new }
    ensures room { 256 ≤ vec_capacity tally.new.path }
{
    let left = space.bound - from.len() as u16;
    let ahead = Lookahead {
        alloc: space.alloc,
        tables,
        most: left,
    };
    match walk(cache, watch, &ahead, left, node, tally) {
        Ok(known) => Ok(Found::Clean(known.counts)),
        Err(Halt::NotGood) => found_bad(space.alloc, cache, from, &tally.path, node),
        Err(Halt::Stopped) => Ok(Found::Abandoned),
        Err(Halt::Memory) => Err(AllocError),
    }
}

/// Searches as [`search`] does, over the tree of the cache, until the watch stops it. The watch is
/// asked after each 64 further schedules that were judged good, or that are cut. What a search
/// needs is made for this one alone: a [`Searcher`] makes it once for many.
///
/// # Errors
///
/// `AllocError` where memory was refused.
pub fn search_watched<'t, T: SerialTree, W: Watch>(
    alloc: Global,
    component: &Component,
    matrix: &Matrix,
    cache: &mut Cache<'t, T>,
    from: &Schedule,
    bound: u16,
    watch: &mut W,
) -> Result<Found, AllocError>
    requires of { CanRun component.now matrix.now }
    requires few { bound ≤ MOST_MOVES }
    requires short { length from.now ≤ bound }
    requires leads { (s : State) → IsStart component.now matrix.now s → IsSchedule s from.now }
    requires running { W.is_stopped watch.old ≡ false }
    ensures found { MayFindOver component.now matrix.now T.members cache.old from.now bound result }
    ensures base { W.base watch.new ≡ W.base watch.old }
    ensures cache { SameButEntries cache.old cache.new }
    ensures stopped { W.is_stopped watch.new ≡ is_abandoned result }
    ensures limits { OnOk result (IsComponent component.now × IsMatrix matrix.now) }
{
    let space = SearchSpace {
        alloc,
        test: Test { component, matrix },
        bound,
    };
    let mut searcher = Searcher::new(space, cache.tree())?;
    searcher.search(cache, from, watch)
}

/// Searches the schedules that begin with `from`: returns the least one that is ended within the
/// bound, 0 to 256 moves, and not good for the set of the tree, and why it is not good; or, where
/// all are good, how many are complete, stuck and cut. The matrix has to be one of the component
/// (`Matrix::of`), and `from` has to be feasible and to have at most `bound` moves.
///
/// # Errors
///
/// `AllocError` where memory was refused.
pub fn search<T: SerialTree>(
    alloc: Global,
    component: &Component,
    matrix: &Matrix,
    tree: &T,
    from: &Schedule,
    bound: u16,
) -> Result<Found, AllocError>
    requires of { CanRun component.now matrix.now }
    requires few { bound ≤ MOST_MOVES }
    requires short { length from.now ≤ bound }
    requires leads { (s : State) → IsStart component.now matrix.now s → IsSchedule s from.now }
    ensures found { FindsBelow component.now matrix.now (T.members tree.now) from.now bound result }
    ensures limits { OnOk result (IsComponent component.now × IsMatrix matrix.now) }
{
    let mut cache = Cache::new(alloc, tree, REMEMBERED)?;
    search_watched(
        alloc,
        component,
        matrix,
        &mut cache,
        from,
        bound,
        &mut Unwatched,
    )
}
