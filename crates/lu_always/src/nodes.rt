//! The list of nodes, with an index.

ghost use Rattle.std.specs.Prelude.{◌≡◌, ◌<◌, [], IfOk, IfSome, IsTrue, length};
ghost use Rattle.lu_always.specs.Rows.{AddsEntry, HasRow, IsCoveredBy, IsRowAt, StandsForRow};
ghost use Rattle.lu_always.specs.Stored.{CanStandAtNode, HasMonitorAt, StandsAt, Stores, StoresBeside, arrival_at as its_arrival};

use crate::rows::{Parts, Row};
use crate::stored::Arrival;
use indexmap::IndexMap;
use lu_linearization::Monitor;
use lu_machine::Machine;
use std::alloc::{AllocError, Global};
use std::marker::Model;

/// The nodes in the order in which they were reached, by the numbers of their parts. In clauses it is
/// the list of nodes.
#[derive(Drop)]
pub(crate) struct Nodes {
    parts: Parts,
    rows: IndexMap<Row, Option<Arrival>>,

    /// The indexes of the rows of each position, by the row with monitor 0.
    places: IndexMap<Row, Vec<u32>>,
}

impl Model for Nodes {
    ghost use Rattle.std.specs.Prelude.{List};
    ghost use Rattle.lu_always.specs.Rows.{AreWhole, stored_in};
    ghost use Rattle.lu_always.specs.Stored.{StoredNode};

    ghost Value = { List StoredNode };

    ghost view = { λ nodes. stored_in nodes.parts nodes.rows.entries };

    ghost invariant = { λ nodes. AreWhole nodes.parts nodes.rows.entries };
}

/// The index of the row, which is added with this arrival if it is not there.
fn add_row(
    rows: &mut IndexMap<Row, Option<Arrival>>,
    row: Row,
    arrival: Option<Arrival>,
) -> Result<usize, AllocError>
    ensures only { AddsEntry row arrival rows.old.entries rows.new.entries }
    ensures there { IfOk result (HasRow rows.new.entries row) }
{
    if let Some((index, _, _)) = rows.get_full(&row) {
        return Ok(index);
    }
    let index = rows.len();
    rows.insert(row, arrival)?;
    Ok(index)
}

/// Whether the first row has the position of the second, and no configuration that the second does
/// not have.
fn stands_for(parts: &Parts, one: &Row, row: &Row) -> bool
    ensures { IsTrue result → StandsForRow parts.now one.now row.now }
{
    one.cells == row.cells
        && one.locks == row.locks
        && one.threads == row.threads
        && parts.monitors.are_within(one.monitor, row.monitor)
}

/// Whether the row at this index stands for the given one.
fn is_covered_by(
    parts: &Parts,
    rows: &IndexMap<Row, Option<Arrival>>,
    row: &Row,
    index: usize,
) -> bool
    ensures { IsTrue result → IsCoveredBy parts.now rows.now.entries row.now index }
{
    match rows.get_index(index) {
        None => false,
        Some((one, _)) => stands_for(parts, one, row),
    }
}

/// The index of a row that stands for the given one, if one is found.
fn find_covering(
    parts: &Parts,
    rows: &IndexMap<Row, Option<Arrival>>,
    places: &IndexMap<Row, Vec<u32>>,
    row: &Row,
) -> Option<usize>
    ensures { IfSome result (IsCoveredBy parts.now rows.now.entries row.now) }
{
    let Some(indexes) = places.get(&place_of(row)) else {
        return None;
    };
    for number in indexes {
        let index = *number as usize;
        if is_covered_by(parts, rows, row, index) {
            return Some(index);
        }
    }
    None
}

/// The row with monitor 0, which stands for its position.
fn place_of(row: &Row) -> Row {
    Row {
        cells: row.cells,
        locks: row.locks,
        threads: row.threads,
        monitor: 0,
    }
}

/// Notes the index of a row among those of its position. Indexes of 4,294,967,296 and more are not
/// noted: that is reported as out of memory.
fn note(
    alloc: Global,
    places: &mut IndexMap<Row, Vec<u32>>,
    row: &Row,
    index: usize,
) -> Result<(), AllocError> {
    let number = u32::try_from(index).map_err(|_| AllocError)?;
    let place = place_of(row);
    match places.get_mut(&place) {
        Some(indexes) => {
            indexes.push(number)?;
            Ok(())
        }
        None => {
            let mut indexes = Vec::new(alloc);
            indexes.push(number)?;
            places.insert(place, indexes)?;
            Ok(())
        }
    }
}

/// The index of a row that stands for this one, which is added with this arrival if none is found.
fn store_row(
    alloc: Global,
    parts: &Parts,
    rows: &mut IndexMap<Row, Option<Arrival>>,
    places: &mut IndexMap<Row, Vec<u32>>,
    row: Row,
    arrival: Option<Arrival>,
) -> Result<usize, AllocError>
    ensures only { AddsEntry row arrival rows.old.entries rows.new.entries }
    ensures there { IfOk result (IsCoveredBy parts.now rows.new.entries row) }
{
    if let Some(index) = find_covering(parts, rows, places, &row) {
        return Ok(index);
    }
    let index = add_row(rows, row, arrival)?;
    note(alloc, places, &row, index)?;
    Ok(index)
}

/// The row at this index. Where there is none, it is that of no node.
fn row_at(rows: &IndexMap<Row, Option<Arrival>>, index: usize) -> Row
    ensures { IsRowAt rows.now.entries index result }
{
    match rows.get_index(index) {
        None => Row::NOTHING,
        Some((row, _)) => *row,
    }
}

/// The row from which the arrival is: a node that is reached from another mostly has the same parts.
fn likely_row(rows: &IndexMap<Row, Option<Arrival>>, arrival: Option<Arrival>) -> Row {
    match arrival {
        None => Row::NOTHING,
        Some(arrival) => row_at(rows, arrival.parent),
    }
}

impl Nodes {
    /// No nodes.
    pub(crate) fn new(alloc: Global) -> Nodes
        ensures { result ≡ [] }
    {
        Nodes {
            parts: Parts::new(alloc),
            rows: IndexMap::new(alloc),
            places: IndexMap::new(alloc),
        }
    }

    /// The number of nodes.
    pub(crate) fn len(&self) -> usize
        ensures { result ≡ length self.now }
    {
        self.rows.len()
    }

    /// How the node at this index was first reached. None for the first node.
    pub(crate) fn arrival(&self, index: usize) -> Option<Arrival>
        ensures { result ≡ its_arrival self.now index }
    {
        match self.rows.get_index(index) {
            None => None,
            Some((_, arrival)) => *arrival,
        }
    }

    /// Puts the machine at the position of the node at this index.
    pub(crate) fn stand_at(&self, machine: &mut Machine<'_>, index: usize)
        requires there { index < length self.now }
        requires can { CanStandAtNode self.now index machine.old }
        ensures { StandsAt self.now index machine.old machine.new }
    {
        let (row, _) = self.rows.get_index(index).unwrap();
        self.parts.stand_at(machine, row);
    }

    /// The monitor of the node at this index.
    pub(crate) fn monitor(&self, index: usize) -> &Monitor
        requires { index < length self.now }
        ensures { HasMonitorAt self.now index result.now }
    {
        let (row, _) = self.rows.get_index(index).unwrap();
        self.parts.monitor(row.monitor)
    }

    /// Stores the node of this state and this monitor, with this arrival, unless a node is stored that
    /// stands for it: one with the same state, and with no other configurations. Returns the index.
    pub(crate) fn store(
        &mut self,
        alloc: Global,
        machine: &Machine<'_>,
        monitor: &Monitor,
        arrival: Option<Arrival>,
    ) -> Result<usize, AllocError>
        ensures { IfOk result (Stores machine.now monitor.now arrival self.old self.new) }
    {
        let likely = likely_row(&self.rows, arrival);
        let number = self
            .parts
            .number_of_monitor(alloc, monitor, likely.monitor)?;
        let row = self.parts.row_at(alloc, machine, number, &likely)?;
        store_row(
            alloc,
            &self.parts,
            &mut self.rows,
            &mut self.places,
            row,
            arrival,
        )
    }

    /// Does the same with the monitor of the node at the index `beside`.
    pub(crate) fn store_beside(
        &mut self,
        alloc: Global,
        machine: &Machine<'_>,
        beside: usize,
        arrival: Option<Arrival>,
    ) -> Result<usize, AllocError>
        requires { beside < length self.old }
        ensures { IfOk result (StoresBeside machine.now beside arrival self.old self.new) }
    {
        let likely = row_at(&self.rows, beside);
        let row = self.parts.row_at(alloc, machine, likely.monitor, &likely)?;
        store_row(
            alloc,
            &self.parts,
            &mut self.rows,
            &mut self.places,
            row,
            arrival,
        )
    }
}
