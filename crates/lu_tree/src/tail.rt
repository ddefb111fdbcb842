//! The last moves of a run, in any order.

ghost use Rattle.std.specs.Prelude.{◌≡◌, ◌≢◌, ◌+◌, ◌<◌, ◌≤◌, ◌^◌, false, IfOk, IfSome, IsTrue, length, get_or, slice_set};
ghost use Rattle.lu_machine.specs.States.{progress};
ghost use Rattle.lu_history.specs.Standing.{Agree};
ghost use Rattle.lu_witness.specs.Caches.{SameButEntries};
ghost use Rattle.lu_machine.specs.Ends.{IsFinished};
ghost use Rattle.lu_tree.specs.declared.tail_question.Judging.TheVariants.{OneVerdict};
ghost use Rattle.lu_tree.specs.Tails.{StartsAfter, IsCutBelow, IsGoodTailOf, IsJudgedEnd, IsRestOf, IsRestOfNone, MayMove, RespectsSharing, sharing_of};
ghost use Rattle.lu_tree.specs.Tables.{ServesAhead};
ghost use Rattle.lu_tree.specs.Walks.{AreBelowNode};

use crate::every_order::has_orders;
use crate::lookahead::Lookahead;
use crate::node::Node;
use crate::tail_question::{Judging, TailQuestion};
use lu_horizon::{Sharers, is_unseen_at, only_reads_at, stand_at};
use lu_machine::{Counts, Machine, Status};
use lu_test::Move;
use lu_trie::SerialTree;
use lu_witness::Cache;
use std::alloc::{AllocError, Global};

/// One move more of thread `t`.
fn one_more(lengths: Vec<usize>, t: u8) -> Vec<usize>
    requires there { t < length lengths.items }
    requires few { get_or lengths.items t 0 + 1 < 2 ^ 64 }
    ensures { result.items ≡ slice_set lengths.items t (get_or lengths.items t 0 + 1) }
{
    let mut lengths = lengths;
    lengths[usize::from(t)] += 1;
    lengths
}

/// Whether thread `t` has made all its calls.
#[inline(always)]
fn is_over(machine: &Machine<'_>, t: u8) -> bool
    ensures { IsTrue result → IsFinished machine.now t }
{
    match stand_at(machine, t) {
        None => false,
        Some(stand) => match stand.place {
            None => machine.picks(t) == 0,
            Some(_place) => false,
        },
    }
}

/// Whether what an open operation of thread `t` does next is among what the thread may touch.
#[inline(always)]
fn stays_within(sharers: Sharers, machine: &Machine<'_>, t: u8) -> bool
    ensures { IsTrue result → RespectsSharing (sharing_of sharers) machine.now t }
{
    match sharers {
        Sharers::Only(special) => t == special || is_unseen_at(machine, t),
        Sharers::Readers => only_reads_at(machine, t),
    }
}

/// Whether a call may be opened.
#[inline(always)]
fn lets_call(judging: Judging) -> bool
    ensures { IsTrue result → judging ≢ OneVerdict }
{
    match judging {
        Judging::OneVerdict => false,
        Judging::EveryOrder(_) => true,
    }
}

/// Whether thread `t` has one move, and it is one of those that are looked for.
#[inline(always)]
fn may_move(question: TailQuestion, machine: &Machine<'_>, t: u8) -> bool
    ensures { IsTrue result → MayMove question machine.now t }
{
    if machine.picks(t) != 1 {
        return false;
    }
    match stand_at(machine, t) {
        None => false,
        Some(stand) => match stand.place {
            None => lets_call(question.judging),
            Some(_place) => stays_within(question.sharers, machine, t),
        },
    }
}

/// Whether a schedule is complete here and its history is judged so.
fn is_judged_end<'t, T: SerialTree>(
    alloc: Global,
    cache: &mut Cache<'t, T>,
    judging: Judging,
    node: &mut Node<'_, 't, T>,
) -> bool
    requires agree { Agree (progress node.old.machine) node.old.trail.history }
    requires tree { cache.old.tree ≡ node.old.trail.tree }
    ensures cache { SameButEntries cache.old cache.new }
    ensures same { node.new ≡ node.old }
    ensures judged { IsTrue result → IsJudgedEnd T.members judging node.old }
{
    match judging {
        Judging::OneVerdict => node.ends_well(cache),
        Judging::EveryOrder(first) => match node.machine.status() {
            Status::Complete => has_orders(alloc, cache.tree(), first, &mut node.trail),
            Status::Running | Status::Stuck => false,
        },
    }
}

/// No moves of any thread, where all of them are over and the end is good.
#[inline(always)]
fn no_moves<'t, T: SerialTree>(
    alloc: Global,
    cache: &mut Cache<'t, T>,
    question: TailQuestion,
    node: &mut Node<'_, 't, T>,
) -> Result<Option<Vec<usize>>, AllocError>
    requires agree { Agree (progress node.old.machine) node.old.trail.history }
    requires tree { cache.old.tree ≡ node.old.trail.tree }
    ensures cache { SameButEntries cache.old cache.new }
    ensures same { node.new ≡ node.old }
    ensures rest { IfOk result (λ found.
        IfSome found (λ ns. IsRestOfNone T.members node.old question ns.items)) }
{
    if !is_judged_end(alloc, cache, question.judging, node) {
        return Ok(None);
    }
    let lengths = vec![in alloc; 0; usize::from(node.machine.threads())]?;
    Ok(Some(lengths))
}

/// Runs thread `t` and those after it to their ends, one after the other, and takes it back. Where
/// that is all that the order of their moves could change, and the end is good, it returns how many
/// moves each thread makes: none where it is not certain, or takes more than `left` moves, or a
/// thread touches more than it may.
fn finish<'t, const RUNS_LOCAL: bool, T: SerialTree>(
    alloc: Global,
    cache: &mut Cache<'t, T>,
    question: TailQuestion,
    t: u8,
    left: usize,
    node: &mut Node<'_, 't, T>,
) -> Result<Option<Vec<usize>>, AllocError>
    requires one { RUNS_LOCAL ≡ false → node.old.machine.component.local ≡ 0 }
    requires agree { Agree (progress node.old.machine) node.old.trail.history }
    requires tree { cache.old.tree ≡ node.old.trail.tree }
    requires within { t ≤ length node.old.machine.threads }
    ensures cache { SameButEntries cache.old cache.new }
    ensures same { node.new ≡ node.old }
    ensures rest { IfOk result (λ found.
        IfSome found (λ ns. IsRestOf T.members node.old question t left ns.items)) }
{
    let threads = node.machine.threads();
    if t == threads {
        return no_moves(alloc, cache, question, node);
    }
    if is_over(&node.machine, t) {
        return finish::<RUNS_LOCAL, T>(alloc, cache, question, t + 1, left, node);
    }
    if left == 0 || !may_move(question, &node.machine, t) {
        return Ok(None);
    }
    let undo = node.enter::<RUNS_LOCAL>(Move { thread: t, pick: 0 });
    let found = finish::<RUNS_LOCAL, T>(alloc, cache, question, t, left - 1, node);
    node.leave(undo);
    match found {
        Ok(Some(lengths)) => Ok(Some(one_more(lengths, t))),
        Ok(None) => Ok(None),
        Err(refused) => Err(refused),
    }
}

/// What to ask of the moves below the node, where a question may serve.
fn question_at<'t, T: SerialTree>(
    ahead: &Lookahead<'_>,
    left: usize,
    node: &mut Node<'_, 't, T>,
) -> Result<Option<TailQuestion>, AllocError>
    ensures same { node.new ≡ node.old }
    ensures after { IfOk result (λ found.
        IfSome found (λ q. StartsAfter q.judging node.old.trail.history)) }
{
    let horizon = &ahead.tables.horizon;
    if let Some(sharers) = horizon.last_sharers(&node.machine, left) {
        return Ok(Some(TailQuestion {
            sharers,
            judging: Judging::OneVerdict,
        }));
    }
    let is_first = left == usize::from(ahead.most);
    let Some(sharers) = horizon.sharers(&node.machine, is_first) else {
        return Ok(None);
    };
    let ops = node.trail.returned(ahead.alloc)?;
    Ok(Some(TailQuestion {
        sharers,
        judging: Judging::EveryOrder(ops.len()),
    }))
}

/// Where all schedules below the node end within `left` moves, complete and good, how many there
/// are: none where that is not certain.
fn complete_below<'t, const RUNS_LOCAL: bool, T: SerialTree>(
    cache: &mut Cache<'t, T>,
    ahead: &Lookahead<'_>,
    left: usize,
    node: &mut Node<'_, 't, T>,
) -> Result<Option<u64>, AllocError>
    requires one { RUNS_LOCAL ≡ false → node.old.machine.component.local ≡ 0 }
    requires agree { Agree (progress node.old.machine) node.old.trail.history }
    requires tree { cache.old.tree ≡ node.old.trail.tree }
    ensures cache { SameButEntries cache.old cache.new }
    ensures same { node.new ≡ node.old }
    ensures tail { IfOk result (λ n. IfSome n (IsGoodTailOf T.members node.old left)) }
{
    let Some(question) = question_at(ahead, left, node)? else {
        return Ok(None);
    };
    let found = finish::<RUNS_LOCAL, T>(ahead.alloc, cache, question, 0, left, node)?;
    let Some(lengths) = found else {
        return Ok(None);
    };
    Ok(ahead.tables.orders.interleavings(&lengths))
}

/// Where no schedule from the machine's state ends within `left` moves, how many are cut: none
/// where that is not certain.
fn cut_below(ahead: &Lookahead<'_>, left: usize, machine: &Machine<'_>) -> Option<u64>
    ensures { ServesAhead ahead.now machine.now → IfSome result (IsCutBelow machine.now left) }
{
    let caps = ahead.tables.horizon.caps(machine, left)?;
    ahead.tables.orders.orders_within(left, &caps)
}

/// How many schedules there are below the node, by a law: all of them are cut, or all end complete
/// and good. None where neither is certain.
pub(crate) fn counted_below<'t, const RUNS_LOCAL: bool, T: SerialTree>(
    cache: &mut Cache<'t, T>,
    ahead: &Lookahead<'_>,
    left: u16,
    node: &mut Node<'_, 't, T>,
) -> Result<Option<Counts>, AllocError>
    requires one { RUNS_LOCAL ≡ false → node.old.machine.component.local ≡ 0 }
    requires serves { ServesAhead ahead.now node.old.machine }
    requires agree { Agree (progress node.old.machine) node.old.trail.history }
    requires tree { cache.old.tree ≡ node.old.trail.tree }
    ensures cache { SameButEntries cache.old cache.new }
    ensures same { node.new ≡ node.old }
    ensures below { IfOk result (λ found. IfSome found (AreBelowNode T.members node.old left)) }
{
    let left = usize::from(left);
    if let Some(cut) = cut_below(ahead, left, &node.machine) {
        return Ok(Some(Counts {
            cut,
            ..Counts::NONE
        }));
    }
    let found = complete_below::<RUNS_LOCAL, T>(cache, ahead, left, node)?;
    let Some(complete) = found else {
        return Ok(None);
    };
    Ok(Some(Counts {
        complete,
        ..Counts::NONE
    }))
}
