//! Nodes of which it is found where they lead, before they are gone through.

ghost use Rattle.std.specs.Prelude.{◌≡◌, IfOk, OnOk, []};
ghost use Rattle.lu_machine.specs.Starts.{CanRun};
ghost use Rattle.lu_graph.specs.Expanding.{AllCanStand, AreExpanded, FindsAt, FindsMore, HasMore, IsFrontier, IsInSameRuns, ListsNext};
ghost use Rattle.lu_graph.specs.Guards.{TellsGuarded};
ghost use Rattle.lu_graph.specs.Rows.{IsSized};

use crate::growing::turns_at;
use crate::guards::Guards;
use crate::holding::Nodes;
use crate::judging::is_good;
use crate::possibilities::known_after;
use crate::row::{Row, known_row, stand_at};
use lu_component::Component;
use lu_history::SerialOp;
use lu_machine::{Event, Machine};
use lu_test::{Matrix, Move};
use std::alloc::{AllocError, Global};
use std::collections::VecDeque;

/// What is found of a node before it is gone through.
#[derive(Clone, Copy)]
pub(crate) struct Expansion {
    /// Its number among all nodes, from 0.
    pub(crate) number: usize,

    /// Whether a schedule that ends there is good.
    pub(crate) is_good: bool,

    /// How many rows there are of nodes to which it leads.
    pub(crate) count: usize,
}

/// What is found of nodes, in their order, and the rows of the nodes to which they lead that were
/// not there: those of the first, then those of the next. Or no rows, where all were put in.
#[derive(Drop)]
pub struct Expansions {
    pub(crate) nodes: VecDeque<Expansion>,
    pub(crate) rows: VecDeque<Row>,
}

/// What is lent to find where nodes lead: all nodes of a search, as they are.
#[derive(Drop, Clone, Copy)]
pub struct Frontier<'a> {
    pub(crate) alloc: Global,
    pub(crate) component: &'a Component,
    pub(crate) matrix: &'a Matrix,
    pub(crate) members: &'a [Vec<SerialOp>],
    pub(crate) guards: &'a Guards,
    pub(crate) nodes: &'a Nodes,

    /// How many nodes were gone through.
    pub(crate) visited: usize,

    /// Where the nodes end of which it may be found.
    pub(crate) end: usize,
}

/// What is found of the node to which a move leads.
#[derive(Clone, Copy)]
enum Found {
    /// It is there.
    Known,

    /// It is a new one.
    New(Row),

    /// Not all its parts are known.
    Unsure,
}

impl Expansions {
    /// Nothing was found.
    pub(crate) fn new(alloc: Global) -> Expansions
        ensures nodes { result.nodes.items ≡ [] }
        ensures rows { result.rows.items ≡ [] }
    {
        Expansions {
            nodes: VecDeque::new(alloc),
            rows: VecDeque::new(alloc),
        }
    }

    /// Adds what was found of the node of this number.
    fn add(&mut self, number: usize, is_good: bool, next: &[Row]) -> Result<(), AllocError>
        ensures { OnOk result (HasMore number is_good next.now self.old self.new) }
    {
        for row in next {
            self.rows.push_back(*row)?;
        }
        self.nodes.push_back(Expansion {
            number,
            is_good,
            count: next.len(),
        })?;
        Ok(())
    }
}

/// Finds the node at which the machine stands, where it came by this event, or by none, from the
/// node of the row `from`.
fn find(machine: &Machine<'_>, nodes: &Nodes, from: &Row, event: Option<Event>) -> Found
    requires { IsSized machine.now }
    ensures { FindsAt machine.now from.now event nodes.now result }
{
    let Some(alive) = known_after(machine, from.alive, event, &nodes.parts.alive) else {
        return Found::Unsure;
    };
    let likely = Row { alive, ..*from };
    let Some(row) = known_row(machine, &likely, &nodes.parts) else {
        return Found::Unsure;
    };
    if nodes.rows.contains(&row) {
        return Found::Known;
    }
    Found::New(row)
}

/// Lists the rows of the nodes to which those of the machine's moves lead that go first, without
/// those that are there. It stands at the node of the row `from`. False where not all parts of
/// these nodes are known.
fn find_next(
    machine: &mut Machine<'_>,
    guards: &Guards,
    nodes: &Nodes,
    from: &Row,
    next: &mut Vec<Row>,
) -> Result<bool, AllocError>
    requires sized { IsSized machine.old }
    requires guards { TellsGuarded machine.old.component guards.now }
    ensures home { OnOk result (machine.new ≡ machine.old) }
    ensures next { IfOk result (ListsNext machine.old from.now nodes.now next.new.items) }
{
    next.clear();
    let turns = turns_at(machine, guards);
    for thread in turns.first..turns.end {
        for pick in 0..machine.picks(thread) {
            let undo = machine.apply(Move { thread, pick });
            let found = find(machine, nodes, from, undo.event());
            machine.undo(undo);
            match found {
                Found::Known => {}
                Found::New(row) => next.push(row)?,
                Found::Unsure => return Ok(false),
            }
        }
    }
    Ok(true)
}

/// Finds where the node of this number leads, and adds that to all that was found, unless not all
/// parts of the nodes to which it leads are known. `next` is for these.
fn expand(
    machine: &mut Machine<'_>,
    members: &[Vec<SerialOp>],
    guards: &Guards,
    nodes: &Nodes,
    number: usize,
    next: &mut Vec<Row>,
    all: &mut Expansions,
) -> Result<(), AllocError>
    requires stand { AllCanStand machine.old.component machine.old.matrix nodes.now }
    requires guards { TellsGuarded machine.old.component guards.now }
    ensures home { OnOk result (IsInSameRuns machine.old machine.new) }
    ensures all { OnOk result (FindsMore machine.old members.now nodes.now number all.old all.new) }
{
    let Some(row) = nodes.row(number) else {
        return Ok(());
    };
    stand_at(machine, &row, &nodes.parts);
    let is_good = is_good(machine, members, nodes.parts.alive.list(row.alive));
    if find_next(machine, guards, nodes, &row, next)? {
        all.add(number, is_good, next)?;
    }
    Ok(())
}

/// What is found of this many nodes from number `from` on, each on its own: of those of which it
/// may be found.
fn expand_each(frontier: Frontier<'_>, from: usize, count: usize) -> Result<Expansions, AllocError>
    requires { IsFrontier frontier }
    ensures { IfOk result (AreExpanded frontier.entry) }
{
    let Frontier {
        alloc,
        component,
        matrix,
        members,
        guards,
        nodes,
        visited,
        end,
    } = frontier;
    let mut found = Expansions::new(alloc);
    let mut next = Vec::new(alloc);
    let mut machine = Machine::start(alloc, component, matrix)?;
    for number in from.max(visited)..from.saturating_add(count).min(end) {
        expand(
            &mut machine,
            members,
            guards,
            nodes,
            number,
            &mut next,
            &mut found,
        )?;
    }
    Ok(found)
}

/// What is found of this many nodes from number `from` on, each on its own: of those of which it
/// may be found. Nothing is, where memory is refused.
pub(crate) fn expand_range(frontier: Frontier<'_>, from: usize, count: usize) -> Expansions
    requires { IsFrontier frontier }
    ensures { AreExpanded frontier.entry result }
{
    match expand_each(frontier, from, count) {
        Ok(found) => found,
        Err(_) => Expansions::new(frontier.alloc),
    }
}
