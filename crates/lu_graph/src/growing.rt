//! How the nodes that were found grow.

ghost use Rattle.std.specs.Prelude.{◌≡◌, OnOk};
ghost use Rattle.lu_graph.specs.Growing.{TakeTurns};
ghost use Rattle.lu_graph.specs.Guards.{TellsGuarded};
ghost use Rattle.lu_graph.specs.Holding.{HoldsHere, HoldsNext};
ghost use Rattle.lu_graph.specs.Rows.{IsSized};
ghost use Rattle.lu_graph.specs.Turns.{is_aside, is_aside_at};

use crate::guards::Guards;
use crate::holding::{Nodes, add_at};
use crate::possibilities::number_after;
use crate::row::Row;
use lu_component::Instr;
use lu_history::SerialOp;
use lu_machine::{Activity, Event, Machine};
use lu_test::Move;
use std::alloc::{AllocError, Global};

/// Adds the node at which the machine stands, where it came by this event, or by none, from the
/// node of the row `from`.
fn add(
    alloc: Global,
    machine: &Machine<'_>,
    members: &[Vec<SerialOp>],
    from: &Row,
    event: Option<Event>,
    nodes: &mut Nodes,
) -> Result<(), AllocError>
    requires { IsSized machine.now }
    ensures { OnOk result (HoldsHere members.now machine.now from.now event nodes.old nodes.new) }
{
    let possible = &mut nodes.parts.alive;
    let alive = number_after(alloc, machine, members, from.alive, event, possible)?;
    add_at(alloc, machine, &Row { alive, ..*from }, nodes)
}

/// Whether the instruction stands aside: it is never blocked, and it and what other threads do
/// before it come out the same in the other order. So it is of what no other thread sees, of
/// `unlock`, and of an access, other than a wait, to an array that is guarded.
fn is_aside(instr: &Instr, guards: &Guards) -> bool
    ensures { result ≡ is_aside guards.now instr.now }
{
    match *instr {
        Instr::Load { array, .. } | Instr::Store { array, .. } | Instr::Cas { array, .. } => {
            guards.has(array)
        }
        Instr::Set { .. }
        | Instr::Compute { .. }
        | Instr::Unlock(_)
        | Instr::Jump(_)
        | Instr::JumpIfZero { .. }
        | Instr::Return(_) => true,
        Instr::Lock(_) | Instr::Await { .. } | Instr::AwaitNot { .. } | Instr::Pick { .. } => false,
    }
}

/// Whether the thread is at an instruction that stands aside.
fn is_aside_at(machine: &Machine<'_>, thread: u8, guards: &Guards) -> bool
    ensures { result ≡ is_aside_at guards.now machine.now thread }
{
    let Some(standing) = machine.standing(thread) else {
        return false;
    };
    match &standing.activity {
        Activity::Idle => false,
        Activity::Open(frame) => match machine.instr(frame) {
            None => false,
            Some(instr) => is_aside(instr, guards),
        },
    }
}

/// The threads whose moves go first.
#[derive(Clone, Copy)]
pub struct Turns {
    /// The first of them.
    pub first: u8,

    /// The thread after the last of them.
    pub end: u8,
}

/// The threads whose moves go first in this state: the first thread that is at a left mover (Lipton,
/// 1975), or all threads if none is. What the others do meanwhile is the same, and where a return
/// comes earlier, a history only has more precedence.
pub fn turns_at(machine: &Machine<'_>, guards: &Guards) -> Turns
    requires { TellsGuarded machine.now.component guards.now }
    ensures { TakeTurns machine.now result.first result.end }
{
    for thread in 0..machine.threads() {
        if is_aside_at(machine, thread, guards) {
            return Turns {
                first: thread,
                end: thread + 1,
            };
        }
    }
    Turns {
        first: 0,
        end: machine.threads(),
    }
}

/// Adds all nodes to which those of the machine's moves lead that go first. It stands at the node
/// of the row `from`.
pub(crate) fn add_next(
    alloc: Global,
    machine: &mut Machine<'_>,
    members: &[Vec<SerialOp>],
    guards: &Guards,
    from: &Row,
    nodes: &mut Nodes,
) -> Result<(), AllocError>
    requires sized { IsSized machine.old }
    requires guards { TellsGuarded machine.old.component guards.now }
    ensures home { OnOk result (machine.new ≡ machine.old) }
    ensures next { OnOk result (HoldsNext members.now machine.old from.now nodes.old nodes.new) }
{
    let turns = turns_at(machine, guards);
    for thread in turns.first..turns.end {
        for pick in 0..machine.picks(thread) {
            let undo = machine.apply(Move { thread, pick });
            add(alloc, machine, members, from, undo.event(), nodes)?;
            machine.undo(undo);
        }
    }
    Ok(())
}
