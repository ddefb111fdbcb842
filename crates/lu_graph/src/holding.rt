//! The nodes that were found.

ghost use Rattle.std.specs.Prelude.{◌≡◌, OnOk, slice_get};
ghost use Rattle.lu_graph.specs.Holding.{HoldsNone, HoldsOne, HoldsOneMore};
ghost use Rattle.lu_graph.specs.Rows.{IsSized, KnowsDead};

use crate::row::{Parts, Row, row_at};
use crate::row_table::RowTable;
use crate::tables::number_of_list;
use lu_horizon::DeadRegisters;
use lu_machine::Machine;
use std::alloc::{AllocError, Global};

/// The nodes that were found, each once, in order: those that were gone through stand first.
#[derive(Drop)]
pub(crate) struct Nodes {
    pub(crate) rows: RowTable,
    pub(crate) parts: Parts,
}

impl Nodes {
    /// No nodes, of a component with these dead registers.
    pub(crate) fn new(alloc: Global, dead: DeadRegisters) -> Nodes
        ensures none { HoldsNone result }
        ensures dead { result.parts.dead ≡ dead }
    {
        Nodes {
            rows: RowTable::new(alloc),
            parts: Parts::new(alloc, dead),
        }
    }

    /// The row of the node of this number, if there is one.
    pub(crate) fn row(&self, number: usize) -> Option<Row>
        ensures { result ≡ slice_get self.now.rows.keys number }
    {
        self.rows.row(number)
    }
}

/// Adds the node at which the machine stands, where these members are possible, as the first.
pub(crate) fn add_first(
    alloc: Global,
    machine: &Machine<'_>,
    alive: &[bool],
    nodes: &mut Nodes,
) -> Result<(), AllocError>
    requires sized { IsSized machine.now }
    requires none { HoldsNone nodes.old }
    requires dead { KnowsDead machine.now.component nodes.old.parts.dead }
    ensures { OnOk result (HoldsOne machine.now alive.now nodes.new) }
{
    let number = number_of_list(alloc, &mut nodes.parts.alive.lists, alive, 0)?;
    let row = row_at(alloc, machine, &Row::of_alive(number), &mut nodes.parts)?;
    nodes.rows.insert(row)?;
    Ok(())
}

/// Adds the node at which the machine stands, if it is not there. What is possible has the number
/// that is in `likely`, and so have the other parts, if they are the same as there.
pub(crate) fn add_at(
    alloc: Global,
    machine: &Machine<'_>,
    likely: &Row,
    nodes: &mut Nodes,
) -> Result<(), AllocError>
    requires { IsSized machine.now }
    ensures { OnOk result (HoldsOneMore machine.now likely.now nodes.old nodes.new) }
{
    let row = row_at(alloc, machine, likely, &mut nodes.parts)?;
    nodes.rows.insert(row)?;
    Ok(())
}
