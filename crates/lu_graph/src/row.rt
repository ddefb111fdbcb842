//! Nodes as rows of numbers.

ghost use Rattle.std.specs.Prelude.{◌≡◌, [], IfOk, IfSome};
ghost use Rattle.lu_graph.specs.Rows.{CanStandAtRow, HaveNumbers, IsRowAmong, IsRowAt, IsSized, NumbersThreads, StandsAtRow};

use crate::possibilities::Possibilities;
use crate::tables::{known_number, list_with, number_of, number_of_list, value_with};
use indexmap::IndexSet;
use lu_horizon::DeadRegisters;
use lu_machine::{Activity, Machine, Thread};
use std::alloc::{AllocError, Global};

/// A node: the number of each of its parts, from 1. 0 stands for none.
#[derive(Clone, Copy, PartialEq, Eq, Hash)]
pub struct Row {
    pub(crate) cells: u32,
    pub(crate) locks: u32,

    /// Where each thread stands.
    pub(crate) threads: [u32; 8],

    /// Which members are possible.
    pub(crate) alive: u32,
}

/// The parts of nodes, each different one once: those with number 1 stand first.
#[derive(Drop)]
pub(crate) struct Parts {
    pub(crate) cells: IndexSet<Vec<u32>>,
    pub(crate) locks: IndexSet<Vec<Option<u8>>>,

    /// Where threads stand, with 0 in their dead registers: these tell no two nodes apart.
    pub(crate) threads: IndexSet<Thread>,

    pub(crate) alive: Possibilities,
    pub(crate) dead: DeadRegisters,
}

impl Row {
    /// The row of no node, with this number of what is possible.
    pub(crate) fn of_alive(alive: u32) -> Row
        ensures { result.alive ≡ alive }
    {
        Row {
            cells: 0,
            locks: 0,
            threads: [0; 8],
            alive,
        }
    }
}

impl Parts {
    /// No parts, of a component with these dead registers.
    pub(crate) fn new(alloc: Global, dead: DeadRegisters) -> Parts
        ensures returns { result.alive.returns.entries ≡ [] }
        ensures dead { result.dead ≡ dead }
    {
        Parts {
            cells: IndexSet::new(alloc),
            locks: IndexSet::new(alloc),
            threads: IndexSet::new(alloc),
            alive: Possibilities::new(alloc),
            dead,
        }
    }
}

/// The number of where each thread stands, with 0 in its dead registers, and 0 for each that is not
/// there. The likely ones are looked at first.
fn number_threads(
    machine: &Machine<'_>,
    dead: &DeadRegisters,
    table: &mut IndexSet<Thread>,
    likely: &[u32; 8],
) -> Result<[u32; 8], AllocError>
    ensures { IfOk result (NumbersThreads dead.now machine.now table.old.keys table.new.keys) }
{
    let mut numbers = [0; 8];
    for thread in 0..machine.threads() {
        if let Some(standing) = machine.standing(thread) {
            let index = usize::from(thread);
            numbers[index] = number_of(table, dead.live(standing), likely[index])?;
        }
    }
    Ok(numbers)
}

/// The row of the node at which the machine stands. What is possible has the number that is in
/// `likely`, and so have the other parts, if they are the same as there. Parts that are new join
/// the others.
pub(crate) fn row_at(
    alloc: Global,
    machine: &Machine<'_>,
    likely: &Row,
    parts: &mut Parts,
) -> Result<Row, AllocError>
    requires { IsSized machine.now }
    ensures { IfOk result (IsRowAt machine.now likely.now.alive parts.old parts.new) }
{
    Ok(Row {
        cells: number_of_list(alloc, &mut parts.cells, machine.cells(), likely.cells)?,
        locks: number_of_list(alloc, &mut parts.locks, machine.locks(), likely.locks)?,
        threads: number_threads(machine, &parts.dead, &mut parts.threads, &likely.threads)?,
        alive: likely.alive,
    })
}

/// The number of where each thread stands, with 0 in its dead registers, and 0 for each that is not
/// there, if all these are known. The likely ones are looked at first.
fn known_threads(
    machine: &Machine<'_>,
    dead: &DeadRegisters,
    table: &IndexSet<Thread>,
    likely: &[u32; 8],
) -> Option<[u32; 8]>
    ensures { IfSome result (NumbersThreads dead.now machine.now table.now.keys table.now.keys) }
{
    let mut numbers = [0; 8];
    for thread in 0..machine.threads() {
        if let Some(standing) = machine.standing(thread) {
            let index = usize::from(thread);
            numbers[index] = known_number(table, &dead.live(standing), likely[index])?;
        }
    }
    Some(numbers)
}

/// The row of the node at which the machine stands, if all its parts are there. What is possible
/// has the number that is in `likely`, and so have the other parts, if they are the same as there.
pub(crate) fn known_row(machine: &Machine<'_>, likely: &Row, parts: &Parts) -> Option<Row>
    requires { IsSized machine.now }
    ensures { IfSome result (IsRowAmong parts.now machine.now likely.now.alive) }
{
    Some(Row {
        cells: known_number(&parts.cells, machine.cells(), likely.cells)?,
        locks: known_number(&parts.locks, machine.locks(), likely.locks)?,
        threads: known_threads(machine, &parts.dead, &parts.threads, &likely.threads)?,
        alive: likely.alive,
    })
}

/// Where the threads stand that have these numbers. What is no number has an idle one.
fn threads_with(table: &IndexSet<Thread>, numbers: &[u32; 8]) -> [Thread; 8]
    ensures { HaveNumbers table.now.keys numbers.now result }
{
    let idle = Thread {
        done: 0,
        activity: Activity::Idle,
    };
    let mut threads = [idle; 8];
    for index in 0..8 {
        if let Some(thread) = value_with(table, numbers[index]) {
            threads[index] = *thread;
        }
    }
    threads
}

/// Stands the machine at the node of the row.
pub(crate) fn stand_at(machine: &mut Machine<'_>, row: &Row, parts: &Parts)
    requires { CanStandAtRow machine.old.component machine.old.matrix parts.now row.now }
    ensures { StandsAtRow parts.now row.now machine.old machine.new }
{
    let cells = list_with(&parts.cells, row.cells);
    let locks = list_with(&parts.locks, row.locks);
    let threads = threads_with(&parts.threads, &row.threads);
    let count = usize::from(machine.matrix().threads());
    machine.stand_with(cells, locks, &threads[..count]);
}
