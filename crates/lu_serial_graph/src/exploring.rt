//! The nodes of the graph, each made once.

ghost use Rattle.std.specs.Prelude.{◌≡◌, ◌≤◌, IfOk, IfSome, OnOk};
ghost use Rattle.lu_machine.specs.declared.TheConstants.{MOST_MOVES};
ghost use Rattle.lu_test.specs.Matrix.{IsMatrix};
ghost use Rattle.lu_serial_graph.specs.Exploring.{AllKnown, CanStandAtEach, ExploresOrOffends, IsKept, Keeps, Reaches, is_stuck};

use crate::answering::ask;
use crate::graph::Table;
use indexmap::IndexMap;
use lu_history::{SerialOp, SerialOutcome};
use lu_machine::{Machine, Position};
use std::alloc::{AllocError, Allocator, Global};

/// The rests after some entries, in order.
#[derive(PartialEq, Eq, Hash, Drop)]
pub(crate) struct Rests {
    pub(crate) positions: Vec<Position>,
}

/// The rests whose nodes are made, each with its node's place.
pub(crate) type Known = IndexMap<Rests, usize>;

/// A machine, how many moves an operation may take after its call, and the nodes so far.
#[derive(Drop)]
pub(crate) struct Search<'a, A: Allocator> {
    pub(crate) alloc: Global,
    pub(crate) machine: Machine<'a>,
    pub(crate) bound: u16,
    pub(crate) table: Table<A>,
    pub(crate) known: Known,
}

/// Whether the outcome is that of a call that is blocked.
fn is_stuck(outcome: SerialOutcome) -> bool
    ensures { result ≡ is_stuck outcome }
{
    match outcome {
        SerialOutcome::Ret(_) => false,
        SerialOutcome::Trap => false,
        SerialOutcome::Stuck => true,
    }
}

/// The place of the node of these rests, if it has been made.
fn recall(known: &Known, rests: &Rests) -> Option<usize>
    ensures { IfSome result (IsKept known.now.entries rests.now) }
{
    known.get(rests).copied()
}

/// Records the place of the node of these rests.
fn keep(known: &mut Known, rests: Rests, place: usize) -> Result<(), AllocError>
    ensures { OnOk result (Keeps known.old.entries rests place known.new.entries) }
{
    known.insert(rests, place)?;
    Ok(())
}

/// The place of the node for these rests: below it are the histories that follow them, and nothing
/// where the last call is stuck. None where some serial run offends: an operation takes more moves
/// than the bound, or a call has two outcomes. With `left` more calls there are more calls than in
/// any matrix.
pub(crate) fn explore<A: Allocator>(
    search: &mut Search<'_, A>,
    stuck: bool,
    rests: Rests,
    left: u16,
) -> Result<Option<usize>, AllocError>
    requires known { AllKnown search.old }
    requires few { search.old.bound ≤ MOST_MOVES }
    requires limits { IsMatrix search.old.machine.matrix }
    requires reached { Reaches search.old stuck rests.positions.items left }
    requires stand { CanStandAtEach search.old rests.positions.items }
    ensures { IfOk result (ExploresOrOffends search.old stuck rests.positions.items search.new) }
{
    if stuck {
        let place = search.table.push_node(true, &[])?;
        return Ok(Some(place));
    }
    if let Some(place) = recall(&search.known, &rests) {
        return Ok(Some(place));
    }
    if left == 0 {
        return Ok(None);
    }
    let mut links = Vec::new(search.alloc);
    search.machine.stand_at(&rests.positions[0]);
    for t in 0..search.machine.threads() {
        search.machine.stand_at(&rests.positions[0]);
        if search.machine.picks(t) == 0 {
            continue;
        }
        let Some(answer) = ask(
            search.alloc,
            &mut search.machine,
            t,
            &rests.positions,
            search.bound,
        )?
        else {
            return Ok(None);
        };
        let outcome = answer.outcome;
        let after = Rests {
            positions: answer.rests,
        };
        let Some(place) = explore(search, is_stuck(outcome), after, left - 1)? else {
            return Ok(None);
        };
        links.push((SerialOp { thread: t, outcome }, place))?;
    }
    let place = search.table.push_node(links.is_empty(), &links)?;
    keep(&mut search.known, rests, place)?;
    Ok(Some(place))
}
