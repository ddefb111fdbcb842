//! The walk over the schedules below a node.

ghost use Rattle.std.specs.Prelude.{◌≡◌, ◌≢◌, ◌≤◌, ◌-◌, false, [], Err, IfOk};
ghost use Rattle.lu_machine.specs.States.{progress};
ghost use Rattle.lu_machine.specs.Ends.{IsEnded};
ghost use Rattle.lu_horizon.specs.Dead.{IsDeadTable};
ghost use Rattle.lu_history.specs.Standing.{Agree};
ghost use Rattle.lu_machine.specs.declared.TheConstants.{MOST_MOVES};
ghost use Rattle.lu_witness.specs.Caches.{SameButEntries};
ghost use Rattle.lu_tree.specs.declared.halt.Halt.TheVariants.{NotGood};
ghost use Rattle.lu_tree.specs.Known.{AreHints, TellsAlone};
ghost use Rattle.lu_tree.specs.Tables.{ServesAhead};
ghost use Rattle.lu_tree.specs.Walked.{IsCountedAlone, IsWalked, StaysBelow, was_stopped};
ghost use Rattle.lu_tree.specs.Walks.{IsReadyToWalk};

use crate::commuting::hints_after;
use crate::halt::Halt;
use crate::known::{Hints, Known};
use crate::lookahead::Lookahead;
use crate::node::Node;
use crate::progress::WalkProgress;
use crate::tail::counted_below;
use crate::thread_set::ThreadSet;
use crate::watch::Watch;
use lu_machine::{Counts, Status};
use lu_test::Move;
use lu_trie::SerialTree;
use lu_witness::Cache;
use std::alloc::Global;

/// The most beginnings of schedules of which a walk keeps what is known.
const MOST_BEGINNINGS: u32 = 98_304;

/// What a walk brings to a node.
#[derive(Clone, Copy)]
struct Visit<'h> {
    /// How many moves are left.
    left: u16,

    /// What is known after the only moves of some threads.
    hints: Hints<'h>,

    /// Of how many beginnings what is known may be kept.
    room: u32,

    /// The threads that have moved already.
    moved: ThreadSet,
}

/// Ends a schedule here, which is cut, or is ended and has to be good. Returns what is then known,
/// or why the walk halts here.
#[inline(always)]
fn end<'t, T: SerialTree, W: Watch>(
    alloc: Global,
    cache: &mut Cache<'t, T>,
    watch: &mut W,
    node: &mut Node<'_, 't, T>,
    tally: &mut WalkProgress,
) -> Result<Known, Halt>
    requires agree { Agree (progress node.old.machine) node.old.trail.history }
    requires tree { cache.old.tree ≡ node.old.trail.tree }
    requires running { W.is_stopped watch.old ≡ false }
    ensures node { node.new ≡ node.old }
    ensures cache { SameButEntries cache.old cache.new }
    ensures base { W.base watch.new ≡ W.base watch.old }
    ensures path { tally.new.path ≡ tally.old.path }
    ensures stopped { W.is_stopped watch.new ≡ was_stopped result }
    ensures counted { IfOk result (IsCountedAlone T.members node.old) }
    ensures ended { result ≡ Err NotGood → IsEnded node.old.machine }
{
    let counts = match node.machine.status() {
        Status::Running => Counts {
            cut: 1,
            ..Counts::NONE
        },
        Status::Complete => {
            if !node.is_good(cache) {
                return Err(Halt::NotGood);
            }
            Counts {
                complete: 1,
                ..Counts::NONE
            }
        }
        Status::Stuck => {
            if !node.is_good(cache) {
                return Err(Halt::NotGood);
            }
            Counts {
                stuck: 1,
                ..Counts::NONE
            }
        }
    };
    if tally.pass(watch) {
        Ok(Known::alone(alloc, counts))
    } else {
        Err(Halt::Stopped)
    }
}

/// Passes the schedules below a node, which are this many. Returns what is then known, or that the
/// watch stopped the walk.
#[inline(always)]
fn pass<W: Watch>(
    alloc: Global,
    counts: Counts,
    watch: &mut W,
    tally: &mut WalkProgress,
) -> Result<Known, Halt>
    requires running { W.is_stopped watch.old ≡ false }
    ensures base { W.base watch.new ≡ W.base watch.old }
    ensures path { tally.new.path ≡ tally.old.path }
    ensures stopped { W.is_stopped watch.new ≡ was_stopped result }
    ensures alone { IfOk result (TellsAlone counts) }
    ensures halts { result ≢ Err NotGood }
{
    if tally.pass_many(counts, watch) {
        Ok(Known::alone(alloc, counts))
    } else {
        Err(Halt::Stopped)
    }
}

/// Walks the schedules below the node, of no more than `left` moves, in order. Returns what is then
/// known; or why the walk halts: at the first that is not found good, where the watch stops it, or
/// where memory is refused. It is then still there.
pub(crate) fn walk<'a, 't, T: SerialTree, W: Watch>(
    cache: &mut Cache<'t, T>,
    watch: &mut W,
    ahead: &Lookahead<'_>,
    left: u16,
    node: &mut Node<'a, 't, T>,
    tally: &mut WalkProgress,
) -> Result<Known, Halt>
    requires few { left ≤ MOST_MOVES }
    requires serves { ServesAhead ahead.now node.old.machine }
    requires dead { IsDeadTable node.old.machine.component ahead.now.tables.now.dead }
    requires agree { Agree (progress node.old.machine) node.old.trail.history }
    requires tree { cache.old.tree ≡ node.old.trail.tree }
    requires running { W.is_stopped watch.old ≡ false }
    requires ready { IsReadyToWalk tally.old }
    ensures cache { SameButEntries cache.old cache.new }
    ensures base { W.base watch.new ≡ W.base watch.old }
    ensures stays { StaysBelow node.old left tally.new node.new }
    ensures stopped { W.is_stopped watch.new ≡ was_stopped result }
    ensures walked { IsWalked T.members node.old left tally.new node.new result }
{
    let first = Visit {
        left,
        hints: Hints::NONE,
        room: MOST_BEGINNINGS,
        moved: ThreadSet::NONE,
    };
    if node.machine.local() == 0 {
        walk_as::<false, T, W>(cache, watch, ahead, &first, node, tally)
    } else {
        walk_as::<true, T, W>(cache, watch, ahead, &first, node, tally)
    }
}

/// Walks as [`walk`] does, but counts what is known after a thread's only move by a hint. With
/// `RUNS_LOCAL` false no local instructions run with a move.
fn walk_as<'a, 't, const RUNS_LOCAL: bool, T: SerialTree, W: Watch>(
    cache: &mut Cache<'t, T>,
    watch: &mut W,
    ahead: &Lookahead<'_>,
    visit: &Visit<'_>,
    node: &mut Node<'a, 't, T>,
    tally: &mut WalkProgress,
) -> Result<Known, Halt>
    requires few { visit.now.left ≤ MOST_MOVES }
    requires one { RUNS_LOCAL ≡ false → node.old.machine.component.local ≡ 0 }
    requires serves { ServesAhead ahead.now node.old.machine }
    requires dead { IsDeadTable node.old.machine.component ahead.now.tables.now.dead }
    requires agree { Agree (progress node.old.machine) node.old.trail.history }
    requires tree { cache.old.tree ≡ node.old.trail.tree }
    requires running { W.is_stopped watch.old ≡ false }
    requires ready { IsReadyToWalk tally.old }
    requires hints { AreHints T.members node.old (visit.now.left - 1) visit.now.hints }
    ensures cache { SameButEntries cache.old cache.new }
    ensures base { W.base watch.new ≡ W.base watch.old }
    ensures stays { StaysBelow node.old visit.now.left tally.new node.new }
    ensures stopped { W.is_stopped watch.new ≡ was_stopped result }
    ensures walked { IsWalked T.members node.old visit.now.left tally.new node.new result }
{
    let left = visit.left;
    if left == 0 {
        return end(ahead.alloc, cache, watch, node, tally);
    }
    let counted = counted_below::<RUNS_LOCAL, T>(cache, ahead, left, node)?;
    if let Some(counts) = counted {
        return pass(ahead.alloc, counts, watch, tally);
    }
    let mut is_ended = true;
    let mut known = Known::alone(ahead.alloc, Counts::NONE);
    for thread in 0..node.machine.threads() {
        let picks = node.machine.picks(thread);
        for pick in 0..picks {
            is_ended = false;
            if let Some(hinted) = visit.hints.after_one_of(picks, thread) {
                if !tally.pass_many(hinted.counts, watch) {
                    return Err(Halt::Stopped);
                }
                known.add(hinted.counts);
                continue;
            }
            let dead = &ahead.tables.dead;
            let hints = &visit.hints;
            let further = Visit {
                left: left - 1,
                hints: hints_after::<RUNS_LOCAL>(thread, hints, &known, dead, &mut node.machine),
                room: visit.room.saturating_sub(known.size),
                moved: visit.moved.with(thread),
            };
            let next = Move { thread, pick };
            let undo = node.enter::<RUNS_LOCAL>(next);
            let walked = walk_as::<RUNS_LOCAL, T, W>(cache, watch, ahead, &further, node, tally);
            let below = match walked {
                Ok(below) => below,
                Err(halt) => {
                    tally.path.push_reserved(next);
                    return Err(halt);
                }
            };
            node.leave(undo);
            known.add(below.counts);
            known.keep(picks, thread, below)?;
        }
    }
    if is_ended {
        return end(ahead.alloc, cache, watch, node, tally);
    }
    let nearest = known.keep_nearest(ahead.alloc, visit.room, visit.moved)?;
    Ok(nearest)
}
