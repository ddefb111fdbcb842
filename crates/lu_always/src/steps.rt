//! The search of nodes by steps.

ghost use Rattle.std.specs.Prelude.{◌≡◌, ◌<◌, [], IfOk, OnOk, length};
ghost use Rattle.lu_graph.specs.Guards.{TellsGuarded};
ghost use Rattle.lu_horizon.specs.Dead.{IsDeadTable};
ghost use Rattle.lu_machine.specs.Positions.{CanStandAt, at_position};
ghost use Rattle.lu_machine.specs.Starts.{CanRun, IsStart};
ghost use Rattle.lu_machine.specs.Steps.{IsFeasible};
ghost use Rattle.lu_always.specs.Searching.{AddsAtBy, AddsOf, AllCanStand, Grows};
ghost use Rattle.lu_always.specs.StepSearch.{AddsMovesBy, AreExitsBy, AreExitsByThread, AreReachedByThread, HasAllStepsBy, HasCallBy, HasMovesBy, HasStepsBy, IsBegunBy, IsFromMonitor, IsStepVisitBy, IsVerdictBy};
ghost use Rattle.lu_always.specs.Stored.{HasMonitorAt};
ghost use Rattle.lu_always.specs.Ways.{HasParentsBefore, IsWayWith};

use crate::budget::{Budget, show};
use crate::following::after_move;
use crate::given::Given;
use crate::judging::{Judged, judge};
use crate::livelock::way_to_livelock;
use crate::nodes::Nodes;
use crate::searching::{store_first, store_next};
use crate::standing::is_waiting;
use crate::stepping::client_step;
use crate::stored::Arrival;
use crate::verdicts::Verdict;
use crate::ways::way_to;
use lu_certify::Progress;
use lu_component::Component;
use lu_graph::{Guards, turns_at};
use lu_linearization::Monitor;
use lu_machine::{Machine, Position};
use lu_test::{Matrix, Move};
use std::alloc::AllocError;

/// What the visit of a node finds.
#[derive(Drop)]
pub(crate) enum Visited {
    /// The node is good, and the nodes to which steps lead from it are stored. These are the indexes of
    /// its exits.
    Exits(Vec<usize>),

    /// All its open operations are blocked, and it is not good. Or this call would be blocked at once,
    /// and cannot be stuck.
    Fails(Option<Move>),
}

/// From where nodes are reached: from the node stored at the index, or by a call from there.
#[derive(Clone, Copy)]
struct Origin {
    index: usize,
    call: Option<Move>,
}

/// Stores the nodes to which the thread's moves lead from this state and this monitor, which are
/// those of the origin. The machine returns to the state. Returns the indexes of these nodes.
fn store_moves(
    given: Given<'_>,
    machine: &mut Machine<'_>,
    home: &Position,
    monitor: &Monitor,
    origin: Origin,
    thread: u8,
    all: &mut Nodes,
) -> Result<Vec<usize>, AllocError>
    requires stands { CanStandAt machine.old.component machine.old.matrix home.now }
    requires here { at_position machine.old home.now ≡ machine.old }
    requires beside { IsFromMonitor all.old monitor.now origin }
    ensures home { OnOk result (machine.new ≡ machine.old) }
    ensures grows { OnOk result (Grows machine.old all.old all.new) }
    ensures moves { OnOk result
        (HasMovesBy given.entry machine.old monitor.now thread all.new) }
    ensures reached { IfOk result
        (AreReachedByThread given.entry machine.old thread all.new) }
    ensures new { OnOk result
        (AddsMovesBy given.entry machine.old monitor.now origin all.old all.new) }
{
    let mut indexes = Vec::new(given.alloc);
    for pick in 0..machine.picks(thread) {
        let arrival = Arrival {
            parent: origin.index,
            call: origin.call,
            by: Move { thread, pick },
        };
        let index = store_next(given, machine, home, monitor, arrival, all)?;
        indexes.push(index)?;
    }
    Ok(indexes)
}

/// Stores the nodes to which the idle thread's next call leads from this state and this monitor, with
/// each first move of its operation. They are stored at the index `at`. The machine returns to the
/// state.
fn store_call(
    given: Given<'_>,
    machine: &mut Machine<'_>,
    home: &Position,
    monitor: &Monitor,
    at: usize,
    call: Move,
    all: &mut Nodes,
) -> Result<(), AllocError>
    requires feasible { IsFeasible machine.old call }
    requires stands { CanStandAt machine.old.component machine.old.matrix home.now }
    requires here { at_position machine.old home.now ≡ machine.old }
    ensures home { OnOk result (machine.new ≡ machine.old) }
    ensures grows { OnOk result (Grows machine.old all.old all.new) }
    ensures next { OnOk result
        (HasCallBy given.entry machine.old monitor.now call all.new) }
    ensures new { OnOk result
        (AddsOf given.entry machine.old monitor.now at all.old all.new) }
{
    let event = client_step(given.alloc, machine, given.rounds, call)?;
    let after = after_move(given.alloc, machine, monitor, given.table, event)?;
    let there = machine.position(given.alloc)?;
    let origin = Origin {
        index: at,
        call: Some(call),
    };
    store_moves(given, machine, &there, &after, origin, call.thread, all)?;
    machine.stand_at(home);
    Ok(())
}

/// Stores the nodes to which the thread's steps lead from this state and this monitor, which are
/// stored at the index `at`. The machine returns to the state. Returns the exits by moves of the thread.
fn store_steps(
    given: Given<'_>,
    machine: &mut Machine<'_>,
    home: &Position,
    monitor: &Monitor,
    at: usize,
    thread: u8,
    all: &mut Nodes,
) -> Result<Vec<usize>, AllocError>
    requires stands { CanStandAt machine.old.component machine.old.matrix home.now }
    requires here { at_position machine.old home.now ≡ machine.old }
    requires at { HasMonitorAt all.old at monitor.now }
    ensures home { OnOk result (machine.new ≡ machine.old) }
    ensures grows { OnOk result (Grows machine.old all.old all.new) }
    ensures steps { OnOk result
        (HasStepsBy given.entry machine.old monitor.now thread all.new) }
    ensures exits { IfOk result
        (AreExitsByThread given.entry machine.old thread all.new) }
    ensures new { OnOk result
        (AddsOf given.entry machine.old monitor.now at all.old all.new) }
{
    if is_waiting(machine, thread) {
        let origin = Origin {
            index: at,
            call: None,
        };
        let exits = store_moves(given, machine, home, monitor, origin, thread, all)?;
        return Ok(exits);
    }
    if machine.picks(thread) == 0 {
        return Ok(Vec::new(given.alloc));
    }
    let call = Move { thread, pick: 0 };
    store_call(given, machine, home, monitor, at, call, all)?;
    Ok(Vec::new(given.alloc))
}

/// Stores all nodes to which steps lead from this state and this monitor, which are stored at the
/// index `at`. The machine returns to the state. Returns the exits.
fn store_all_steps(
    given: Given<'_>,
    machine: &mut Machine<'_>,
    guards: &Guards,
    home: &Position,
    monitor: &Monitor,
    at: usize,
    all: &mut Nodes,
) -> Result<Vec<usize>, AllocError>
    requires guards { TellsGuarded machine.old.component guards.now }
    requires stands { CanStandAt machine.old.component machine.old.matrix home.now }
    requires here { at_position machine.old home.now ≡ machine.old }
    requires at { HasMonitorAt all.old at monitor.now }
    ensures home { OnOk result (machine.new ≡ machine.old) }
    ensures grows { OnOk result (Grows machine.old all.old all.new) }
    ensures steps { OnOk result
        (HasAllStepsBy given.entry machine.old monitor.now all.new) }
    ensures exits { IfOk result (AreExitsBy given.entry machine.old all.new) }
    ensures new { OnOk result
        (AddsOf given.entry machine.old monitor.now at all.old all.new) }
{
    let mut exits = Vec::new(given.alloc);
    let turns = turns_at(machine, guards);
    for thread in turns.first..turns.end {
        let more = store_steps(given, machine, home, monitor, at, thread, all)?;
        exits.extend_from_slice(&more)?;
    }
    Ok(exits)
}

/// Judges the node at this index, and, if it is good, stores all nodes to which steps lead from it.
fn visit(
    given: Given<'_>,
    machine: &mut Machine<'_>,
    guards: &Guards,
    index: usize,
    all: &mut Nodes,
) -> Result<Visited, AllocError>
    requires guards { TellsGuarded machine.old.component guards.now }
    requires there { index < length all.old }
    requires stand { AllCanStand machine.old all.old }
    ensures component { OnOk result (machine.new.component ≡ machine.old.component) }
    ensures matrix { OnOk result (machine.new.matrix ≡ machine.old.matrix) }
    ensures grows { OnOk result (Grows machine.old all.old all.new) }
    ensures visit { IfOk result (IsStepVisitBy given.entry machine.old all.old index all.new) }
    ensures new { OnOk result (AddsAtBy given.entry machine.old index all.old all.new) }
{
    let monitor = all.monitor(index).try_clone(given.alloc)?;
    all.stand_at(machine, index);
    let home = machine.position(given.alloc)?;
    let judged = judge(given, machine, &home, &monitor)?;
    match judged {
        Judged::Good => {
            let exits = store_all_steps(given, machine, guards, &home, &monitor, index, all)?;
            Ok(Visited::Exits(exits))
        }
        Judged::Bad => Ok(Visited::Fails(None)),
        Judged::BadAfterCall(call) => Ok(Visited::Fails(Some(call))),
    }
}

/// The moves that lead to the node at this index, and then the call, if there is one.
fn way_with(
    given: Given<'_>,
    all: &Nodes,
    index: usize,
    call: Option<Move>,
) -> Result<Vec<Move>, AllocError>
    requires within { index < length all.now }
    requires parents { HasParentsBefore all.now }
    ensures { IfOk result (λ moves. IsWayWith all.now index call moves.items) }
{
    let mut moves = way_to(given.alloc, all, index)?;
    if let Some(call) = call {
        moves.push(call)?;
    }
    Ok(moves)
}

/// Stores the first node.
fn begin(given: Given<'_>, machine: &Machine<'_>, all: &mut Nodes) -> Result<(), AllocError>
    requires { all.old ≡ [] }
    ensures { OnOk result (IsBegunBy given.entry machine.now all.new) }
{
    let first = Monitor::new(given.alloc, 0)?;
    store_first(given.alloc, machine, &first, all)?;
    Ok(())
}

/// The verdict of the search of all nodes that are reached by steps, of which the first is stored. The
/// machine is asked to be at the start of a run.
fn search_from<P: Progress>(
    given: Given<'_>,
    machine: &mut Machine<'_>,
    guards: &Guards,
    budget: Budget<'_, P>,
    all: &mut Nodes,
) -> Result<Verdict, AllocError>
    requires starts { IsStart machine.old.component machine.old.matrix machine.old }
    requires dead { IsDeadTable machine.old.component given.dead.now }
    requires guards { TellsGuarded machine.old.component guards.now }
    requires begun { IsBegunBy given machine.old all.old }
    ensures { IfOk result
        (IsVerdictBy given.entry machine.old.component machine.old.matrix) }
{
    let mut exits = Vec::new(given.alloc);
    for index in 0..budget.most {
        show(budget.progress, index, all);
        if index >= all.len() {
            let Some(moves) = way_to_livelock(given.alloc, all, exits.as_slice())? else {
                return Ok(Verdict::AlwaysLinearizable);
            };
            return Ok(Verdict::Livelock(moves));
        }
        match visit(given, machine, guards, index, all)? {
            Visited::Exits(found) => exits.push(found)?,
            Visited::Fails(call) => {
                let moves = way_with(given, all, index, call)?;
                return Ok(Verdict::Fails(moves));
            }
        }
    }
    Ok(Verdict::Undecided)
}

/// The verdict of the search of all nodes that are reached by steps.
pub(crate) fn search<P: Progress>(
    given: Given<'_>,
    component: &Component,
    matrix: &Matrix,
    budget: Budget<'_, P>,
) -> Result<Verdict, AllocError>
    requires runs { CanRun component.now matrix.now }
    requires dead { IsDeadTable component.now given.dead.now }
    ensures { IfOk result (IsVerdictBy given.entry component.now matrix.now) }
{
    let mut machine = Machine::start(given.alloc, component, matrix)?;
    let guards = Guards::new(given.alloc, component)?;
    let mut all = Nodes::new(given.alloc);
    begin(given, &machine, &mut all)?;
    search_from(given, &mut machine, &guards, budget, &mut all)
}
