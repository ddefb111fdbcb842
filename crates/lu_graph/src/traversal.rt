//! Nodes that are gone through.

ghost use Rattle.std.specs.Prelude.{◌≡◌, IfOk, OnOk, take, drop};
ghost use Rattle.lu_graph.specs.Guards.{TellsGuarded};
ghost use Rattle.lu_graph.specs.Expanding.{IsInSameRuns, PutsNext, StayFound, Takes, Visits, WereFound};
ghost use Rattle.lu_graph.specs.Rows.{CanStandAtRow};

use crate::expanding::{Expansion, Expansions};
use crate::growing::add_next;
use crate::guards::Guards;
use crate::holding::Nodes;
use crate::judging::is_good;
use crate::row::{Row, stand_at};
use lu_history::SerialOp;
use lu_machine::Machine;
use std::alloc::{AllocError, Global};
use std::collections::VecDeque;

/// Takes out what was found of the node of this number, if that stands first.
fn take_at(found: &mut VecDeque<Expansion>, number: usize) -> Option<Expansion>
    ensures { Takes number found.old.items found.new.items result }
{
    if found.front()?.number == number {
        return found.pop_front();
    }
    None
}

/// Takes the first rows out, this many, and puts those to the others that are not there.
fn put_next(rows: &mut VecDeque<Row>, count: usize, nodes: &mut Nodes) -> Result<(), AllocError>
    ensures put { OnOk result (PutsNext (take count rows.old.items) nodes.old nodes.new) }
    ensures rest { OnOk result (rows.new.items ≡ drop count rows.old.items) }
{
    for _ in 0..count {
        let Some(row) = rows.pop_front() else {
            return Ok(());
        };
        nodes.rows.insert(row)?;
    }
    Ok(())
}

/// Goes through the node of this number, of this row: adds all to which its moves lead that go
/// first, and says whether it is good. Where that was found before, nothing is found again.
pub(crate) fn go_through(
    alloc: Global,
    machine: &mut Machine<'_>,
    members: &[Vec<SerialOp>],
    guards: &Guards,
    number: usize,
    row: &Row,
    ahead: &mut Expansions,
    nodes: &mut Nodes,
) -> Result<bool, AllocError>
    requires can { CanStandAtRow machine.old.component machine.old.matrix nodes.old.parts row.now }
    requires guards { TellsGuarded machine.old.component guards.now }
    requires ahead { WereFound machine.old members.now nodes.old ahead.old }
    ensures home { OnOk result (IsInSameRuns machine.old machine.new) }
    ensures done { IfOk result (Visits members.now machine.old number row.now nodes.old nodes.new) }
    ensures left { OnOk result (StayFound machine.old members.now nodes.old nodes.new ahead.new) }
{
    match take_at(&mut ahead.nodes, number) {
        Some(found) => {
            put_next(&mut ahead.rows, found.count, nodes)?;
            Ok(found.is_good)
        }
        None => {
            stand_at(machine, row, &nodes.parts);
            let is_good = is_good(machine, members, nodes.parts.alive.list(row.alive));
            add_next(alloc, machine, members, guards, row, nodes)?;
            Ok(is_good)
        }
    }
}
