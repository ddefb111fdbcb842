//! Nodes that are stored as moves lead to them, and the verdict.

ghost use Rattle.std.specs.Prelude.{◌≡◌, IfOk, IfSome, None, OnOk, Some};
ghost use Rattle.lu_machine.specs.Events.{IsEventInRange};
ghost use Rattle.lu_machine.specs.Positions.{CanStandAt, at_position};
ghost use Rattle.lu_machine.specs.Starts.{CanRun};
ghost use Rattle.lu_machine.specs.Steps.{IsFeasible};
ghost use Rattle.lu_always.specs.Searching.{AddsByOf, AddsOnly, Grows, HasNextBy, IsCoveredOf, IsVerdict, MovesToBy, StoresAfterBy};
ghost use Rattle.lu_always.specs.Stored.{ComesFromMonitor, StandsWhereItCan};

use crate::budget::Budget;
use crate::clearing::clear_dead;
use crate::following::after_event;
use crate::given::Given;
use crate::nodes::Nodes;
use crate::stepping::client_step;
use crate::steps::search;
use crate::stored::Arrival;
use crate::verdicts::Verdict;
use lu_answers::{AnswerTable, Rounds};
use lu_certify::Progress;
use lu_component::Component;
use lu_horizon::DeadRegisters;
use lu_linearization::Monitor;
use lu_machine::{Event, Machine, Position};
use lu_test::Matrix;
use std::alloc::{AllocError, Global};

/// Stores the node of this state and this monitor, with this arrival, unless it is stored already.
/// Returns its index.
fn store(
    alloc: Global,
    machine: &Machine<'_>,
    monitor: &Monitor,
    arrival: Option<Arrival>,
    all: &mut Nodes,
) -> Result<usize, AllocError>
    requires { StandsWhereItCan machine.now }
    ensures grows { OnOk result (Grows machine.now all.old all.new) }
    ensures there { IfOk result (IsCoveredOf machine.now monitor.now all.new) }
    ensures only { OnOk result (AddsOnly machine.now monitor.now arrival all.old all.new) }
{
    all.store(alloc, machine, monitor, arrival)
}

/// Stores the node of this state and this monitor, to which a move without an event has led. If no
/// call was made first, the node at the arrival's parent has this monitor. Returns the index.
fn store_same(
    alloc: Global,
    machine: &Machine<'_>,
    monitor: &Monitor,
    arrival: Arrival,
    all: &mut Nodes,
) -> Result<usize, AllocError>
    requires stands { StandsWhereItCan machine.now }
    requires beside { ComesFromMonitor all.old monitor.now arrival }
    ensures grows { OnOk result (Grows machine.now all.old all.new) }
    ensures there { IfOk result (IsCoveredOf machine.now monitor.now all.new) }
    ensures only { OnOk result
        (AddsOnly machine.now monitor.now (Some arrival) all.old all.new) }
{
    match arrival.call {
        None => all.store_beside(alloc, machine, arrival.parent, Some(arrival)),
        Some(_) => store(alloc, machine, monitor, Some(arrival), all),
    }
}

/// Stores the node of this state and this monitor, which was not reached from another, unless it is
/// stored already. Returns its index.
pub(crate) fn store_first(
    alloc: Global,
    machine: &Machine<'_>,
    monitor: &Monitor,
    all: &mut Nodes,
) -> Result<usize, AllocError>
    ensures grows { OnOk result (Grows machine.now all.old all.new) }
    ensures there { IfOk result (IsCoveredOf machine.now monitor.now all.new) }
    ensures only { OnOk result (AddsOnly machine.now monitor.now None all.old all.new) }
{
    let here = machine.position(alloc)?;
    store(alloc, machine, monitor, None, all)
}

/// Stores the node to which a move with this event, or with none, has led from this monitor, with 0
/// in dead registers. Returns its index.
fn store_after(
    given: Given<'_>,
    machine: &mut Machine<'_>,
    monitor: &Monitor,
    event: Option<Event>,
    arrival: Arrival,
    all: &mut Nodes,
) -> Result<usize, AllocError>
    requires range { IfSome event IsEventInRange }
    requires beside { ComesFromMonitor all.old monitor.now arrival }
    ensures { IfOk result (StoresAfterBy given.entry machine.old event monitor.now arrival
        machine.new all.old all.new) }
{
    match event {
        None => {
            clear_dead(given.alloc, machine, given.dead)?;
            store_same(given.alloc, machine, monitor, arrival, all)
        }
        Some(event) => {
            let after = after_event(given.alloc, machine, monitor, given.table, event)?;
            clear_dead(given.alloc, machine, given.dead)?;
            store(given.alloc, machine, &after, Some(arrival), all)
        }
    }
}

/// Stores the node to which the arrival's move leads from this state and this monitor, with 0 in dead
/// registers. The machine returns to the state. Returns the index of the node.
pub(crate) fn store_next(
    given: Given<'_>,
    machine: &mut Machine<'_>,
    home: &Position,
    monitor: &Monitor,
    arrival: Arrival,
    all: &mut Nodes,
) -> Result<usize, AllocError>
    requires feasible { IsFeasible machine.old arrival.by }
    requires stands { CanStandAt machine.old.component machine.old.matrix home.now }
    requires here { at_position machine.old home.now ≡ machine.old }
    requires beside { ComesFromMonitor all.old monitor.now arrival }
    ensures home { OnOk result (machine.new ≡ machine.old) }
    ensures grows { OnOk result (Grows machine.old all.old all.new) }
    ensures next { OnOk result
        (HasNextBy given.entry machine.old monitor.now arrival.by all.new) }
    ensures leads { IfOk result (MovesToBy given.entry machine.old arrival.by all.new) }
    ensures new { OnOk result
        (AddsByOf given.entry machine.old monitor.now arrival all.old all.new) }
{
    let event = client_step(given.alloc, machine, given.rounds, arrival.by)?;
    let to = store_after(given, machine, monitor, event, arrival, all)?;
    machine.stand_at(home);
    Ok(to)
}

/// Whether all matrices that are unrolled from this one are linearizable, and none has a livelock:
/// each thread makes its line of calls this often, and may stop anywhere. `table` is the table of
/// the serial histories; if it is not, only what the verdict says of livelocks is right. No more nodes
/// are looked at than the budget has.
///
/// # Errors
///
/// Out of memory.
pub fn find_verdict<P: Progress>(
    alloc: Global,
    component: &Component,
    matrix: &Matrix,
    table: &AnswerTable,
    rounds: Rounds,
    budget: Budget<'_, P>,
) -> Result<Verdict, AllocError>
    requires of { CanRun component.now matrix.now }
    ensures { IfOk result (IsVerdict component.now rounds matrix.now table.now) }
{
    let dead = DeadRegisters::new(alloc, component)?;
    let given = Given {
        alloc,
        table,
        dead: &dead,
        rounds,
    };
    search(given, component, matrix, budget)
}
