//! Which members are possible: each different list once, with what returns leave of it.

ghost use Rattle.std.specs.Prelude.{◌≡◌, [], IfOk, IfSome};
ghost use Rattle.lu_graph.specs.Possibilities.{Gives, HaveCalls, NumbersAfter, NumbersStay, RecallsAfter, TellsReturn};

use crate::alive::still_alive;
use crate::standing::called;
use crate::tables::{list_with, number_of_list};
use indexmap::{IndexMap, IndexSet};
use lu_history::{OpId, SerialOp};
use lu_machine::{Event, Machine, Outcome};
use std::alloc::{AllocError, Global};

/// What tells which members stay possible after a return: the number of the list of those that
/// were, how many operations of each thread are called, which operation returns, and how.
#[derive(Clone, Copy, PartialEq, Eq, Hash)]
pub(crate) struct ReturnAt {
    pub(crate) alive: u32,
    pub(crate) calls: [u16; 8],
    pub(crate) operation: OpId,
    pub(crate) outcome: Outcome,
}

/// The lists of members that were possible, each different one once, with its number; and the
/// numbers of what stayed possible after the returns that were met.
#[derive(Drop)]
pub(crate) struct Possibilities {
    pub(crate) lists: IndexSet<Vec<bool>>,
    pub(crate) returns: IndexMap<ReturnAt, u32>,
}

impl Possibilities {
    /// No lists, and no returns.
    pub(crate) fn new(alloc: Global) -> Possibilities
        ensures { result.returns.entries ≡ [] }
    {
        Possibilities {
            lists: IndexSet::new(alloc),
            returns: IndexMap::new(alloc),
        }
    }

    /// The list with this number. What is no number has an empty one.
    pub(crate) fn list(&self, number: u32) -> &[bool]
        ensures { Gives self.now number result.now }
    {
        list_with(&self.lists, number)
    }
}

/// How many operations of each thread are called.
fn calls_of(machine: &Machine<'_>) -> [u16; 8]
    ensures { HaveCalls machine.now result }
{
    let mut calls = [0; 8];
    for thread in 0..machine.threads() {
        calls[usize::from(thread)] = called(machine, thread) as u16;
    }
    calls
}

/// The number of what stays possible after the return. It is looked up, and remembered where it was
/// not there.
fn number_of_return(
    alloc: Global,
    members: &[Vec<SerialOp>],
    at: ReturnAt,
    known: &mut Possibilities,
) -> Result<u32, AllocError>
    ensures { IfOk result (NumbersStay members.now at known.old known.new) }
{
    if let Some(number) = known.returns.get(&at) {
        return Ok(*number);
    }
    let now = still_alive(alloc, members, known.list(at.alive), &at)?;
    let number = number_of_list(alloc, &mut known.lists, &now, at.alive)?;
    known.returns.insert(at, number)?;
    Ok(number)
}

/// The return that this event is, if it is one, by which the machine came where it stands, where
/// before it what has the number `alive` was possible.
fn return_at(machine: &Machine<'_>, alive: u32, event: Option<Event>) -> Option<ReturnAt>
    ensures { TellsReturn machine.now alive event result }
{
    match event? {
        Event::Call { .. } => None,
        Event::Return { t, k, outcome } => Some(ReturnAt {
            alive,
            calls: calls_of(machine),
            operation: OpId { t, k },
            outcome,
        }),
    }
}

/// The number of what is possible after the event, if there is one, by which the machine came
/// where it stands, where before it what has the number `was` was possible.
pub(crate) fn number_after(
    alloc: Global,
    machine: &Machine<'_>,
    members: &[Vec<SerialOp>],
    was: u32,
    event: Option<Event>,
    known: &mut Possibilities,
) -> Result<u32, AllocError>
    ensures { IfOk result (NumbersAfter members.now machine.now event was known.old known.new) }
{
    match return_at(machine, was, event) {
        None => Ok(was),
        Some(at) => number_of_return(alloc, members, at, known),
    }
}

/// The number of what is possible after the event, as [`number_after`] gives it, if that was met.
pub(crate) fn known_after(
    machine: &Machine<'_>,
    was: u32,
    event: Option<Event>,
    known: &Possibilities,
) -> Option<u32>
    ensures { IfSome result (RecallsAfter machine.now event was known.now) }
{
    match return_at(machine, was, event) {
        None => Some(was),
        Some(at) => known.returns.get(&at).copied(),
    }
}
