//! Nodes as rows of numbers.

ghost use Rattle.std.specs.Prelude.{◌≡◌, IfOk};
ghost use Rattle.lu_always.specs.Numbered.{Extends};
ghost use Rattle.lu_always.specs.Rows.{CanStandAtRow, Grow, HaveNumbers, HaveRead, IsMonitorOf, IsPositionOf, list_at, monitor_at, position_at};
ghost use Rattle.lu_always.specs.Stored.{at_stored};

use crate::monitors::Monitors;
use crate::tables::{number_of, number_of_list, value_with};
use indexmap::IndexSet;
use lu_linearization::Monitor;
use lu_machine::{Activity, Machine, Thread};
use std::alloc::{AllocError, Global};
use std::hash::Hash;

/// A node: the number of each of its parts. Those of cells, locks and threads are counted from 1,
/// those of monitors from 0.
#[derive(Clone, Copy, PartialEq, Eq, Hash)]
pub(crate) struct Row {
    pub(crate) cells: u32,
    pub(crate) locks: u32,

    /// The number of where each thread is, and 0 for each that is not there.
    pub(crate) threads: [u32; 8],
    pub(crate) monitor: u32,
}

impl Row {
    /// The row of no node: no cells and locks have the number 0.
    pub(crate) const NOTHING: Row = Row {
        cells: 0,
        locks: 0,
        threads: [0; 8],
        monitor: 0,
    };
}

/// The parts of nodes: each different one is stored once, and has a number.
#[derive(Drop)]
pub(crate) struct Parts {
    pub(crate) cells: IndexSet<Vec<u32>>,
    pub(crate) locks: IndexSet<Vec<Option<u8>>>,
    pub(crate) threads: IndexSet<Thread>,
    pub(crate) monitors: Monitors,
}

/// The number of where each thread is, and 0 for each that is not there. The likely ones are looked at
/// first.
fn number_threads(
    machine: &Machine<'_>,
    table: &mut IndexSet<Thread>,
    likely: &[u32; 8],
) -> Result<[u32; 8], AllocError>
    ensures grows { Extends table.old.keys table.new.keys }
    ensures numbers { IfOk result (HaveNumbers table.new.keys machine.now.threads) }
{
    let mut numbers = [0; 8];
    for thread in 0..machine.threads() {
        if let Some(standing) = machine.standing(thread) {
            let index = usize::from(thread);
            numbers[index] = number_of(table, *standing, likely[index])?;
        }
    }
    Ok(numbers)
}

/// The list with this number. What is no number has an empty one.
fn list_with<T: Eq + Hash>(table: &IndexSet<Vec<T>>, number: u32) -> &[T]
    ensures { result.now ≡ list_at table.now.keys number }
{
    match value_with(table, number) {
        None => &[],
        Some(list) => list,
    }
}

/// Where the threads are that have these numbers. What is no number has an idle one.
fn threads_with(table: &IndexSet<Thread>, numbers: &[u32; 8]) -> [Thread; 8]
    ensures { HaveRead table.now.keys numbers.now result }
{
    let idle = Thread {
        done: 0,
        activity: Activity::Idle,
    };
    let mut threads = [idle; 8];
    for index in 0..8 {
        if let Some(thread) = value_with(table, numbers[index]) {
            threads[index] = *thread;
        }
    }
    threads
}

impl Parts {
    /// No parts.
    pub(crate) fn new(alloc: Global) -> Parts {
        Parts {
            cells: IndexSet::new(alloc),
            locks: IndexSet::new(alloc),
            threads: IndexSet::new(alloc),
            monitors: Monitors::new(alloc),
        }
    }

    /// The number of the monitor, of which a copy is added if it is not there. `likely` is looked at
    /// first.
    pub(crate) fn number_of_monitor(
        &mut self,
        alloc: Global,
        monitor: &Monitor,
        likely: u32,
    ) -> Result<u32, AllocError>
        ensures grows { Grow self.old self.new }
        ensures number { IfOk result (λ n. IsMonitorOf self.new n monitor.now) }
    {
        if let Some(number) = self.monitors.find(monitor, likely) {
            return Ok(number);
        }
        self.monitors.push(alloc, monitor)
    }

    /// The monitor with this number.
    pub(crate) fn monitor(&self, number: u32) -> &Monitor
        requires { IsMonitorOf self.now number (monitor_at self.now number) }
        ensures { result.now ≡ monitor_at self.now number }
    {
        self.monitors.get(number).unwrap()
    }

    /// The row of the node at which the machine is, with the monitor of this number. The other parts
    /// of `likely` are looked at first. Those that are new are added.
    pub(crate) fn row_at(
        &mut self,
        alloc: Global,
        machine: &Machine<'_>,
        monitor: u32,
        likely: &Row,
    ) -> Result<Row, AllocError>
        ensures grows { Grow self.old self.new }
        ensures position { IfOk result (IsPositionOf self.new machine.now) }
        ensures monitor { IfOk result (λ row. row.monitor ≡ monitor) }
    {
        Ok(Row {
            cells: number_of_list(alloc, &mut self.cells, machine.cells(), likely.cells)?,
            locks: number_of_list(alloc, &mut self.locks, machine.locks(), likely.locks)?,
            threads: number_threads(machine, &mut self.threads, &likely.threads)?,
            monitor,
        })
    }

    /// Puts the machine at the position of the row.
    pub(crate) fn stand_at(&self, machine: &mut Machine<'_>, row: &Row)
        requires { CanStandAtRow self.now row.now machine.old }
        ensures { machine.new ≡ at_stored machine.old (position_at self.now row.now) }
    {
        let cells = list_with(&self.cells, row.cells);
        let locks = list_with(&self.locks, row.locks);
        let threads = threads_with(&self.threads, &row.threads);
        let count = usize::from(machine.matrix().threads());
        machine.stand_with(cells, locks, &threads[..count]);
    }
}
