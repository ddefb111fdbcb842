//! How all schedules end, of any length.

ghost use Rattle.std.specs.Prelude.{◌≡◌, true, false, IfErr, OnOk};
ghost use Rattle.lu_machine.specs.Starts.{CanRun, IsStart};
ghost use Rattle.lu_graph.specs.declared.halted.Halted.TheVariants.{Stopped};
ghost use Rattle.lu_graph.specs.Expanding.{GoesAhead, PutsAhead, StayFound, WereFound};
ghost use Rattle.lu_graph.specs.Guards.{TellsGuarded};
ghost use Rattle.lu_graph.specs.Holding.{AreFewAsSaid, AreVisitedBy, EndsSo, HoldsNone, HoldsStart};
ghost use Rattle.lu_graph.specs.Nodes.{TellsEndings};
ghost use Rattle.lu_graph.specs.Rows.{KnowsDead};

use crate::ending::Ending;
use crate::expanders::{Alone, Expanders};
use crate::expanding::{Expansions, Frontier};
use crate::guards::Guards;
use crate::halted::{Halted, unhalted};
use crate::holding::{Nodes, add_first};
use crate::level::Level;
use crate::listing::{all_possible, list_members};
use crate::row_table::RowTable;
use crate::traversal::go_through;
use lu_component::Component;
use lu_history::SerialOp;
use lu_horizon::DeadRegisters;
use lu_machine::Machine;
use lu_test::Matrix;
use lu_tree::{Unwatched, Watch};
use lu_trie::SerialTree;
use std::alloc::{AllocError, Global};
use std::mem;

/// Puts all rows in that were found ahead, at once, where there are then no more than `most` nodes.
/// Else they wait, and are put in as the search comes to the nodes that lead there.
fn put_ahead<E: Expanders>(
    alloc: Global,
    nodes: &mut Nodes,
    most: usize,
    ahead: &mut Expansions,
    expanders: &E,
) -> Result<(), AllocError>
    ensures { OnOk result (PutsAhead ahead.old ahead.new nodes.old nodes.new) }
{
    let room = most.saturating_sub(nodes.rows.len());
    if ahead.rows.is_empty() || ahead.rows.len() > room {
        return Ok(());
    }
    let table = mem::replace(&mut nodes.rows, RowTable::new(alloc));
    nodes.rows = expanders.put_in(table, ahead.rows.make_contiguous())?;
    ahead.rows.clear();
    Ok(())
}

/// Finds more of nodes of which this many were gone through, and none from number `end` on, where
/// nothing is left of what was found before.
fn look_ahead<E: Expanders>(
    alloc: Global,
    machine: &Machine<'_>,
    members: &[Vec<SerialOp>],
    guards: &Guards,
    nodes: &mut Nodes,
    visited: usize,
    end: usize,
    most: usize,
    ahead: &mut Expansions,
    expanders: &E,
) -> Result<(), AllocError>
    requires runs { CanRun machine.now.component machine.now.matrix }
    requires visited { AreVisitedBy members.now machine.now nodes.old visited }
    requires ahead { WereFound machine.now members.now nodes.old ahead.old }
    requires guards { TellsGuarded machine.now.component guards.now }
    ensures more { OnOk result (GoesAhead members.now machine.now visited end nodes.old nodes.new) }
    ensures left { OnOk result (StayFound machine.now members.now nodes.old nodes.new ahead.new) }
{
    if ahead.nodes.is_empty() {
        *ahead = expanders.expand(Frontier {
            alloc,
            component: machine.component(),
            matrix: machine.matrix(),
            members,
            guards,
            nodes,
            visited,
            end,
        })?;
        put_ahead(alloc, nodes, most, ahead, expanders)?;
    }
    Ok(())
}

/// Whether the component of the machine has no more than `most` nodes on its matrix, where those
/// before this one were gone through.
fn are_few<W: Watch, E: Expanders>(
    alloc: Global,
    machine: &mut Machine<'_>,
    members: &[Vec<SerialOp>],
    guards: &Guards,
    nodes: &mut Nodes,
    ahead: &mut Expansions,
    number: usize,
    most: usize,
    watch: &mut W,
    expanders: &E,
) -> Result<bool, Halted>
    requires runs { CanRun machine.old.component machine.old.matrix }
    requires visited { AreVisitedBy members.now machine.old nodes.old number }
    requires ahead { WereFound machine.old members.now nodes.old ahead.old }
    requires guards { TellsGuarded machine.old.component guards.now }
    requires running { W.is_stopped watch.old ≡ false }
    ensures few { AreFewAsSaid members.now most machine.old result }
    ensures base { W.base watch.new ≡ W.base watch.old }
    ensures stopped { IfErr result (λ halted. halted ≡ Stopped → W.is_stopped watch.new ≡ true) }
    ensures running { OnOk result (W.is_stopped watch.new ≡ false) }
{
    for at in number..most {
        if watch.stop() {
            return Err(Halted::Stopped);
        }
        if nodes.rows.len() > most {
            return Ok(false);
        }
        let row = match nodes.row(at) {
            None => return Ok(true),
            Some(row) => row,
        };
        // Levels do not matter here.
        let end = usize::MAX;
        look_ahead(
            alloc, machine, members, guards, nodes, at, end, most, ahead, expanders,
        )?;
        go_through(alloc, machine, members, guards, at, &row, ahead, nodes)?;
    }
    Ok(nodes.rows.len() <= most)
}

/// How all schedules of the machine's component on its matrix end. It stands at the start, which
/// alone is kept.
fn search<W: Watch, E: Expanders>(
    alloc: Global,
    machine: &mut Machine<'_>,
    members: &[Vec<SerialOp>],
    guards: &Guards,
    nodes: &mut Nodes,
    bound: u16,
    most: usize,
    watch: &mut W,
    expanders: &E,
) -> Result<Ending, Halted>
    requires runs { CanRun machine.old.component machine.old.matrix }
    requires starts { IsStart machine.old.component machine.old.matrix machine.old }
    requires first { HoldsStart members.now machine.old nodes.old }
    requires guards { TellsGuarded machine.old.component guards.now }
    requires running { W.is_stopped watch.old ≡ false }
    ensures ends { EndsSo members.now bound most machine.old result }
    ensures base { W.base watch.new ≡ W.base watch.old }
    ensures stopped { IfErr result (λ halted. halted ≡ Stopped → W.is_stopped watch.new ≡ true) }
    ensures running { OnOk result (W.is_stopped watch.new ≡ false) }
{
    let mut level = Level {
        moves: 0,
        first: 0,
        end: nodes.rows.len(),
    };
    let mut ahead = Expansions::new(alloc);
    for at in 0..most {
        if watch.stop() {
            return Err(Halted::Stopped);
        }
        let known = nodes.rows.len();
        if known > most {
            return Ok(Ending::TooMany);
        }
        let row = match nodes.row(at) {
            None => return Ok(Ending::Well),
            Some(row) => row,
        };
        level = level.at(at, known);
        let end = level.batch_end(at);
        look_ahead(
            alloc, machine, members, guards, nodes, at, end, most, &mut ahead, expanders,
        )?;
        let is_good = go_through(alloc, machine, members, guards, at, &row, &mut ahead, nodes)?;
        if !is_good {
            let is_far = level.moves > usize::from(bound);
            let next = at + 1;
            if is_far
                && !are_few(
                    alloc, machine, members, guards, nodes, &mut ahead, next, most, watch,
                    expanders,
                )?
            {
                return Ok(Ending::TooMany);
            }
            return Ok(Ending::Badly(level.moves));
        }
    }
    if nodes.rows.len() > most {
        return Ok(Ending::TooMany);
    }
    Ok(Ending::Well)
}

/// How all schedules of the machine's component on its matrix end. It stands at the start, and no
/// node is kept.
fn search_from<W: Watch, E: Expanders>(
    alloc: Global,
    machine: &mut Machine<'_>,
    members: &[Vec<SerialOp>],
    guards: &Guards,
    nodes: &mut Nodes,
    bound: u16,
    most: usize,
    watch: &mut W,
    expanders: &E,
) -> Result<Ending, Halted>
    requires runs { CanRun machine.old.component machine.old.matrix }
    requires starts { IsStart machine.old.component machine.old.matrix machine.old }
    requires none { HoldsNone nodes.old }
    requires dead { KnowsDead machine.old.component nodes.old.parts.dead }
    requires guards { TellsGuarded machine.old.component guards.now }
    requires running { W.is_stopped watch.old ≡ false }
    ensures ends { EndsSo members.now bound most machine.old result }
    ensures base { W.base watch.new ≡ W.base watch.old }
    ensures stopped { IfErr result (λ halted. halted ≡ Stopped → W.is_stopped watch.new ≡ true) }
    ensures running { OnOk result (W.is_stopped watch.new ≡ false) }
{
    let alive = all_possible(alloc, members)?;
    add_first(alloc, machine, &alive, nodes)?;
    search(
        alloc, machine, members, guards, nodes, bound, most, watch, expanders,
    )
}

/// How all schedules of the machine's component on its matrix end. It stands at the start.
fn search_all<W: Watch, E: Expanders>(
    alloc: Global,
    machine: &mut Machine<'_>,
    members: &[Vec<SerialOp>],
    bound: u16,
    most: usize,
    watch: &mut W,
    expanders: &E,
) -> Result<Ending, Halted>
    requires runs { CanRun machine.old.component machine.old.matrix }
    requires starts { IsStart machine.old.component machine.old.matrix machine.old }
    requires running { W.is_stopped watch.old ≡ false }
    ensures ends { EndsSo members.now bound most machine.old result }
    ensures base { W.base watch.new ≡ W.base watch.old }
    ensures stopped { IfErr result (λ halted. halted ≡ Stopped → W.is_stopped watch.new ≡ true) }
    ensures running { OnOk result (W.is_stopped watch.new ≡ false) }
{
    let dead = DeadRegisters::new(alloc, machine.component())?;
    let guards = Guards::new(alloc, machine.component())?;
    let mut nodes = Nodes::new(alloc, dead);
    search_from(
        alloc, machine, members, &guards, &mut nodes, bound, most, watch, expanders,
    )
}

/// As [`ends_well`], but the watch is asked before each node that is gone through, and stops the
/// search where it says so; and the expanders find where nodes lead before these are gone through,
/// which takes less time where they are several threads, and gives the same ending. Only where the
/// limit is passed in the level of the first bad node, the one or the other may be reported, too
/// many nodes or the bad one: nodes of a level can stand in another order then. Asks for a watch
/// that has not stopped; where there is an ending, it has not stopped either.
///
/// # Errors
///
/// `Memory` where memory was refused, `Stopped` where the watch stopped the search.
pub fn ends_well_watched<T: SerialTree, W: Watch, E: Expanders>(
    alloc: Global,
    component: &Component,
    matrix: &Matrix,
    tree: &T,
    bound: u16,
    most: u32,
    watch: &mut W,
    expanders: &E,
) -> Result<Ending, Halted>
    requires runs { CanRun component.now matrix.now }
    requires running { W.is_stopped watch.old ≡ false }
    ensures endings { TellsEndings component.now matrix.now (T.members tree.now) bound most result }
    ensures base { W.base watch.new ≡ W.base watch.old }
    ensures stopped { IfErr result (λ halted. halted ≡ Stopped → W.is_stopped watch.new ≡ true) }
    ensures running { OnOk result (W.is_stopped watch.new ≡ false) }
{
    let members = list_members(alloc, tree)?;
    let mut machine = Machine::start(alloc, component, matrix)?;
    search_all(
        alloc,
        &mut machine,
        &members,
        bound,
        most as usize,
        watch,
        expanders,
    )
}

/// How all schedules of the component on the matrix end, of any length, for the set of the tree. A
/// node is a state, with the history of a schedule that leads there; those of states that differ in
/// dead registers alone, where the same members of the set can still become witnesses, are alike,
/// and count as one. At most `most` are kept, each as a row of 52 bytes with its number, and the
/// parts that they share. Where a schedule of no more moves than the bound ends badly, the nodes
/// after it are not counted. Asks for a matrix of the component, whose setup settles.
///
/// # Errors
///
/// `AllocError` where memory was refused.
pub fn ends_well<T: SerialTree>(
    alloc: Global,
    component: &Component,
    matrix: &Matrix,
    tree: &T,
    bound: u16,
    most: u32,
) -> Result<Ending, AllocError>
    requires { CanRun component.now matrix.now }
    ensures { TellsEndings component.now matrix.now (T.members tree.now) bound most result }
{
    unhalted(ends_well_watched(
        alloc,
        component,
        matrix,
        tree,
        bound,
        most,
        &mut Unwatched,
        &Alone,
    ))
}
