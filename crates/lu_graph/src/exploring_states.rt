//! All states of a component on a matrix.

ghost use Rattle.std.specs.Prelude.{◌≡◌, ◌<◌, true, false, IfErr, IfOk, OnOk};
ghost use Rattle.lu_machine.specs.Starts.{CanRun};
ghost use Rattle.lu_graph.specs.declared.halted.Halted.TheVariants.{Stopped};
ghost use Rattle.lu_graph.specs.Discovering.{HasOnly};
ghost use Rattle.lu_graph.specs.Exploring.{TellsExplored};

use crate::discovering::{Discovered, Discovery, discover_next};
use crate::halted::Halted;
use crate::judging::has_ended;
use indexmap::IndexSet;
use lu_component::Component;
use lu_machine::Machine;
use lu_test::{Matrix, Move};
use lu_tree::Watch;
use std::alloc::{AllocError, Global};

/// All states of a component on a matrix, and for each whether it has ended.
#[derive(Drop)]
pub(crate) struct StateGraph {
    pub(crate) found: Discovered,
    pub(crate) ended: Vec<bool>,
}

/// The state at which the machine stands, as the start of a search.
fn begin(alloc: Global, machine: &Machine<'_>) -> Result<Discovered, AllocError>
    ensures { IfOk result (HasOnly machine.now) }
{
    let mut positions = IndexSet::new(alloc);
    positions.insert(machine.position(alloc)?)?;
    let mut discoveries = Vec::new(alloc);
    discoveries.push(Discovery {
        from: 0,
        made: Move { thread: 0, pick: 0 },
    })?;
    Ok(Discovered {
        positions,
        discoveries,
        edges: Vec::new(alloc),
    })
}

/// The graph of all states, where there are no more than `most`. Asks for a matrix of the
/// component, whose setup settles.
pub(crate) fn explore<W: Watch>(
    alloc: Global,
    component: &Component,
    matrix: &Matrix,
    most: usize,
    watch: &mut W,
) -> Result<Option<StateGraph>, Halted>
    requires runs { CanRun component.now matrix.now }
    requires running { W.is_stopped watch.old ≡ false }
    ensures explored { TellsExplored component.now matrix.now most result }
    ensures base { W.base watch.new ≡ W.base watch.old }
    ensures stopped { IfErr result (λ halted. halted ≡ Stopped → W.is_stopped watch.new ≡ true) }
    ensures running { OnOk result (W.is_stopped watch.new ≡ false) }
{
    let mut machine = Machine::start(alloc, component, matrix)?;
    let mut found = begin(alloc, &machine)?;
    let mut ended = Vec::new(alloc);
    for at in 0..most {
        if watch.stop() {
            return Err(Halted::Stopped);
        }
        if found.positions.len() > most {
            return Ok(None);
        }
        let position = match found.positions.get_index(at) {
            None => return Ok(Some(StateGraph { found, ended })),
            Some(position) => position,
        };
        machine.stand_at(position);
        ended.push(has_ended(&machine))?;
        discover_next(alloc, &mut machine, at, &mut found)?;
    }
    if found.positions.len() > most {
        return Ok(None);
    }
    Ok(Some(StateGraph { found, ended }))
}
