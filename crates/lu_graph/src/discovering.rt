//! States, in the order in which a search discovers them.

ghost use Rattle.std.specs.Prelude.{◌≡◌, OnOk};
ghost use Rattle.lu_component.specs.Component.{IsComponent};
ghost use Rattle.lu_graph.specs.Discovering.{Discovers, Extends, SearchesNext};

use crate::edge::Edge;
use indexmap::IndexSet;
use lu_machine::{Machine, Position};
use lu_test::Move;
use std::alloc::{AllocError, Global};

/// How a state was discovered: by this move of an earlier state. That of the start
/// says nothing.
#[derive(Clone, Copy)]
pub(crate) struct Discovery {
    pub(crate) from: usize,
    pub(crate) made: Move,
}

/// The states that were discovered, in order, how each was, and the edges between them.
#[derive(Drop)]
pub(crate) struct Discovered {
    pub(crate) positions: IndexSet<Position>,
    pub(crate) discoveries: Vec<Discovery>,
    pub(crate) edges: Vec<Edge>,
}

/// Adds the state at which the machine stands, if it is not there, and the edge that leads to it:
/// by this move of state number `from`.
fn discover(
    alloc: Global,
    machine: &Machine<'_>,
    from: usize,
    made: Move,
    found: &mut Discovered,
) -> Result<(), AllocError>
    ensures { OnOk result (Discovers machine.now from made found.old found.new) }
{
    let position = machine.position(alloc)?;
    let (to, is_new) = found.positions.insert_full(position)?;
    if is_new {
        found.discoveries.push(Discovery { from, made })?;
    }
    found.edges.push(Edge { from, to })?;
    Ok(())
}

/// Discovers all states to which the machine's moves lead. It stands at the state of this number.
pub(crate) fn discover_next(
    alloc: Global,
    machine: &mut Machine<'_>,
    number: usize,
    found: &mut Discovered,
) -> Result<(), AllocError>
    requires { IsComponent machine.old.component }
    ensures home { OnOk result (machine.new ≡ machine.old) }
    ensures stay { OnOk result (Extends found.old.positions.keys found.new.positions.keys) }
    ensures next { OnOk result (SearchesNext machine.old number found.old found.new) }
{
    for thread in 0..machine.threads() {
        for pick in 0..machine.picks(thread) {
            let made = Move { thread, pick };
            let undo = machine.apply(made);
            discover(alloc, machine, number, made, found)?;
            machine.undo(undo);
        }
    }
    Ok(())
}
