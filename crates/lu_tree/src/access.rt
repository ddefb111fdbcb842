//! What a thread's next move accesses of what all threads share.

ghost use Rattle.std.specs.Prelude.{◌≡◌, ◌<◌, ◌↔◌, true, IfSome, length};
ghost use Rattle.lu_component.specs.Component.{IsOperand};
ghost use Rattle.lu_tree.specs.Accesses as spec;
ghost use Rattle.lu_tree.specs.Accesses.{HasLocation};
ghost use Rattle.lu_tree.specs.Alike.{AreActivitiesAlike, AreFramesAlike, AreLeftAlike, AreStandingAlike};

use lu_component::{Instr, Operand};
use lu_horizon::DeadRegisters;
use lu_machine::{Activity, Frame, Machine, Thread};

/// A cell or a lock.
#[derive(Clone, Copy)]
pub(crate) enum Location {
    /// The cell of this number among all cells.
    Cell(usize),

    Lock(u8),
}

/// An access of a location.
#[derive(Clone, Copy)]
pub(crate) struct Access {
    pub(crate) location: Location,

    /// Whether it may change what the location holds.
    pub(crate) writes: bool,
}

/// What a location holds.
#[derive(Clone, Copy, PartialEq, Eq)]
pub(crate) enum Held {
    /// A cell, this value.
    Value(u32),

    /// A lock, this owner, or none.
    Owner(Option<u8>),
}

/// Where two threads stand, and what a location holds.
#[derive(Clone, Copy)]
pub(crate) struct Left {
    pub(crate) first: Option<Thread>,
    pub(crate) second: Option<Thread>,
    pub(crate) held: Held,
}

/// How many registers an operation has.
const REGISTERS: u8 = 8;

/// The access of a cell of the array, if it has one at this index.
#[inline(always)]
fn cell_access(
    machine: &Machine<'_>,
    frame: &Frame,
    array: u8,
    index: Operand,
    writes: bool,
) -> Option<Access>
    requires array { array < length machine.now.component.arrays }
    requires index { IsOperand index }
    ensures access { result ≡
        spec.cell_access writes machine.now.component frame.now array index }
    ensures there { IfSome result (λ access. HasLocation machine.now access.location) }
{
    let cell = machine.cell(array, frame.value(index))?;
    Some(Access {
        location: Location::Cell(cell),
        writes,
    })
}

/// What the next move of the thread accesses, if anything.
#[inline(always)]
pub(crate) fn next_access(machine: &Machine<'_>, thread: u8) -> Option<Access>
    ensures access { result ≡ spec.next_access machine.now thread }
    ensures there { IfSome result (λ access. HasLocation machine.now access.location) }
{
    let standing = machine.standing(thread)?;
    match &standing.activity {
        Activity::Idle => None,
        Activity::Open(frame) => match *machine.instr(frame)? {
            Instr::Load { array, index, .. }
            | Instr::Await { array, index, .. }
            | Instr::AwaitNot { array, index, .. } => {
                cell_access(machine, frame, array, index, false)
            }
            Instr::Store { array, index, .. } | Instr::Cas { array, index, .. } => {
                cell_access(machine, frame, array, index, true)
            }
            Instr::Lock(lock) | Instr::Unlock(lock) => Some(Access {
                location: Location::Lock(lock),
                writes: true,
            }),
            Instr::Set { .. }
            | Instr::Compute { .. }
            | Instr::Pick { .. }
            | Instr::Jump(_)
            | Instr::JumpIfZero { .. }
            | Instr::Return(_) => None,
        },
    }
}

/// Whether two locations are one.
#[inline(always)]
fn are_one(one: Location, other: Location) -> bool
    ensures { result ≡ spec.are_one one other }
{
    match (one, other) {
        (Location::Cell(cell), Location::Cell(other)) => cell == other,
        (Location::Lock(lock), Location::Lock(other)) => lock == other,
        (Location::Cell(_), Location::Lock(_)) | (Location::Lock(_), Location::Cell(_)) => false,
    }
}

/// The location that both access, where one of them may change it.
#[inline(always)]
pub(crate) fn conflict(one: Option<Access>, other: Option<Access>) -> Option<Location>
    ensures { result ≡ spec.conflict one other }
{
    let (Some(one), Some(other)) = (one, other) else {
        return None;
    };
    if are_one(one.location, other.location) && (one.writes || other.writes) {
        Some(one.location)
    } else {
        None
    }
}

/// What the location holds.
fn held_at(machine: &Machine<'_>, location: Location) -> Held
    requires { HasLocation machine.now location }
    ensures { result ≡ spec.held_at machine.now location }
{
    match location {
        Location::Cell(cell) => Held::Value(machine.value_at(cell)),
        Location::Lock(lock) => Held::Owner(machine.owner(lock)),
    }
}

/// Where two threads stand, and what the location holds.
pub(crate) fn left_at(machine: &Machine<'_>, first: u8, second: u8, location: Location) -> Left
    requires { HasLocation machine.now location }
    ensures { result ≡ spec.left_at machine.now first second location }
{
    Left {
        first: machine.standing(first).copied(),
        second: machine.standing(second).copied(),
        held: held_at(machine, location),
    }
}

/// Whether two operations are one, at one place, with the same in each register that is not dead
/// there.
fn are_frames_alike(dead: &DeadRegisters, one: &Frame, other: &Frame) -> bool
    ensures { result ≡ true ↔ AreFramesAlike dead.now one.now other.now }
{
    if one.op != other.op || one.place != other.place {
        return false;
    }
    for register in 0..REGISTERS {
        let operand = Operand::Reg(register);
        let same = one.value(operand) == other.value(operand);
        if !same && !dead.is_dead(one.op, one.place, register) {
            return false;
        }
    }
    true
}

/// Whether both are idle, or are at operations that are alike.
fn are_activities_alike(dead: &DeadRegisters, one: &Activity, other: &Activity) -> bool
    ensures { result ≡ true ↔ AreActivitiesAlike dead.now one.now other.now }
{
    match (one, other) {
        (Activity::Idle, Activity::Idle) => true,
        (Activity::Open(frame), Activity::Open(next)) => are_frames_alike(dead, frame, next),
        (Activity::Idle, Activity::Open(_)) | (Activity::Open(_), Activity::Idle) => false,
    }
}

/// Whether two threads stand alike, or neither is there.
fn are_standing_alike(dead: &DeadRegisters, one: Option<Thread>, other: Option<Thread>) -> bool
    ensures { result ≡ true ↔ AreStandingAlike dead.now one other }
{
    match (one, other) {
        (None, None) => true,
        (Some(one), Some(other)) => {
            one.done == other.done && are_activities_alike(dead, &one.activity, &other.activity)
        }
        (None, Some(_)) | (Some(_), None) => false,
    }
}

/// Whether two threads stand alike, but for dead registers, and the location holds the same.
pub(crate) fn are_left_alike(dead: &DeadRegisters, one: Left, other: Left) -> bool
    ensures { result ≡ true ↔ AreLeftAlike dead.now one other }
{
    are_standing_alike(dead, one.first, other.first)
        && are_standing_alike(dead, one.second, other.second)
        && other.held == one.held
}
