//! States and events as numbers.

ghost use Rattle.std.specs.Prelude.{◌≡◌, ◌<◌, ◌≤◌, ◌+◌, [], ◌∷◌, length};
ghost use Rattle.lineup_c.specs.Numbers.{Adds};
ghost use Rattle.lineup_c.specs.Numbers as spec;

use lu_component::{Component, Operand};
use lu_machine::{Activity, Event, Frame, Machine, Outcome, Status, Thread};
use std::alloc::AllocError;

/// The number, up to 2^32 - 1.
pub(crate) fn number_of(count: usize) -> u32
    ensures { result ≡ spec.number_of count }
{
    count.min(0xffff_ffff) as u32
}

/// Adds a number.
fn push(numbers: &mut Vec<u32>, number: u32) -> Result<(), AllocError>
    ensures { Adds result numbers.old numbers.new (number ∷ []) }
{
    numbers.push(number)?;
    Ok(())
}

/// Adds the registers of an open operation.
fn push_registers(numbers: &mut Vec<u32>, frame: &Frame) -> Result<(), AllocError>
    ensures { Adds result numbers.old numbers.new (spec.registers frame.now 8) }
{
    for register in 0..8 {
        push(numbers, frame.value(Operand::Reg(register)))?;
    }
    Ok(())
}

/// Adds what stands for no open operation.
fn push_zeros(numbers: &mut Vec<u32>) -> Result<(), AllocError>
    ensures { Adds result numbers.old numbers.new (spec.zeros 10) }
{
    for _zero in 0..10u8 {
        push(numbers, 0)?;
    }
    Ok(())
}

/// Adds the number of an open operation from 1, the place of its next instruction, and its
/// registers; zeros where none is open.
fn push_activity(numbers: &mut Vec<u32>, activity: &Activity) -> Result<(), AllocError>
    ensures { Adds result numbers.old numbers.new (spec.activity_numbers activity.now) }
{
    match activity {
        Activity::Idle => push_zeros(numbers),
        Activity::Open(frame) => {
            push(numbers, u32::from(frame.op) + 1)?;
            push(numbers, u32::from(frame.place))?;
            push_registers(numbers, frame)
        }
    }
}

/// Adds how many operations of a thread have ended, and which is open.
fn push_standing(numbers: &mut Vec<u32>, thread: &Thread) -> Result<(), AllocError>
    ensures { Adds result numbers.old numbers.new (spec.standing_numbers thread.now) }
{
    push(numbers, u32::from(thread.done))?;
    push_activity(numbers, &thread.activity)
}

/// Adds how many picks a thread has, and where it stands.
fn push_thread(numbers: &mut Vec<u32>, machine: &Machine<'_>, t: u8) -> Result<(), AllocError>
    ensures { Adds result numbers.old numbers.new (spec.thread_numbers machine.now t) }
{
    push(numbers, u32::from(machine.picks(t)))?;
    match machine.standing(t) {
        None => Ok(()),
        Some(thread) => push_standing(numbers, thread),
    }
}

/// Adds each thread.
fn push_threads(numbers: &mut Vec<u32>, machine: &Machine<'_>) -> Result<(), AllocError>
    ensures { Adds result numbers.old numbers.new (spec.all_threads machine.now) }
{
    for t in 0..machine.threads() {
        push_thread(numbers, machine, t)?;
    }
    Ok(())
}

/// The number of the cells of an array.
fn cell_count(component: &Component, array: u8) -> u8
    ensures { result ≡ spec.cell_count component.now array }
{
    match component.arrays().get(usize::from(array)) {
        None => 0,
        Some(array) => array.len,
    }
}

/// Adds the value of a cell, where there is such a cell.
fn push_cell(
    numbers: &mut Vec<u32>,
    machine: &Machine<'_>,
    array: u8,
    index: u8,
) -> Result<(), AllocError>
    requires { array < length machine.now.component.arrays }
    ensures { Adds result numbers.old numbers.new (spec.cell_number machine.now array index) }
{
    match machine.cell(array, u32::from(index)) {
        None => Ok(()),
        Some(cell) => push(numbers, machine.value_at(cell)),
    }
}

/// Adds the values of the first cells of an array.
fn push_cells(
    numbers: &mut Vec<u32>,
    machine: &Machine<'_>,
    array: u8,
    count: u8,
) -> Result<(), AllocError>
    requires { array < length machine.now.component.arrays }
    ensures { Adds result numbers.old numbers.new (spec.cells_numbers machine.now array count) }
{
    for index in 0..count {
        push_cell(numbers, machine, array, index)?;
    }
    Ok(())
}

/// Adds the values of all cells.
fn push_arrays(numbers: &mut Vec<u32>, machine: &Machine<'_>) -> Result<(), AllocError>
    ensures { Adds result numbers.old numbers.new (spec.all_arrays machine.now) }
{
    let component = machine.component();
    let count = component.arrays().len() as u8;
    for array in 0..count {
        push_cells(numbers, machine, array, cell_count(component, array))?;
    }
    Ok(())
}

/// The number of an owner from 1, and 0 for nobody.
fn owner_number(owner: Option<u8>) -> u32
    ensures { result ≡ spec.owner_number owner }
{
    match owner {
        None => 0,
        Some(thread) => u32::from(thread) + 1,
    }
}

/// Adds the owner of each lock.
fn push_locks(numbers: &mut Vec<u32>, machine: &Machine<'_>) -> Result<(), AllocError>
    ensures { Adds result numbers.old numbers.new (spec.all_locks machine.now) }
{
    let count = machine.component().locks().len() as u8;
    for lock in 0..count {
        push(numbers, owner_number(machine.owner(lock)))?;
    }
    Ok(())
}

/// Adds each thread, each cell and each lock.
pub(crate) fn push_state(numbers: &mut Vec<u32>, machine: &Machine<'_>) -> Result<(), AllocError>
    ensures { Adds result numbers.old numbers.new (spec.state_numbers machine.now) }
{
    push_threads(numbers, machine)?;
    push_arrays(numbers, machine)?;
    push_locks(numbers, machine)
}

/// Adds four numbers.
fn push_four(numbers: &mut Vec<u32>, a: u32, b: u32, c: u32, d: u32) -> Result<(), AllocError>
    ensures { Adds result numbers.old numbers.new (a ∷ b ∷ c ∷ d ∷ []) }
{
    push(numbers, a)?;
    push(numbers, b)?;
    push(numbers, c)?;
    push(numbers, d)
}

/// Adds an event: 0 for a call, 1 for a returned value, 2 for a trap; its thread, its call, and the
/// value or 0.
fn push_event(numbers: &mut Vec<u32>, event: Event) -> Result<(), AllocError>
    ensures { Adds result numbers.old numbers.new (spec.event_numbers event) }
{
    match event {
        Event::Call { t, k } => push_four(numbers, 0, u32::from(t), u32::from(k), 0),
        Event::Return {
            t,
            k,
            outcome: Outcome::Ret(value),
        } => push_four(numbers, 1, u32::from(t), u32::from(k), value),
        Event::Return {
            t,
            k,
            outcome: Outcome::Trap,
        } => push_four(numbers, 2, u32::from(t), u32::from(k), 0),
    }
}

/// Adds the event at this index, where there is one.
fn push_event_at(numbers: &mut Vec<u32>, events: &[Event], index: usize) -> Result<(), AllocError>
    ensures { Adds result numbers.old numbers.new (spec.event_at events.now index) }
{
    match events.get(index) {
        None => Ok(()),
        Some(event) => push_event(numbers, *event),
    }
}

/// Adds each event.
pub(crate) fn push_events(numbers: &mut Vec<u32>, events: &[Event]) -> Result<(), AllocError>
    ensures { Adds result numbers.old numbers.new (spec.events_numbers events.now) }
{
    for index in 0..events.len() {
        push_event_at(numbers, events, index)?;
    }
    Ok(())
}

/// How a state stands: 0 where some thread is enabled, 1 where all is complete, 2 where it is
/// stuck.
fn status_number(status: Status) -> u32
    ensures { result ≡ spec.status_number status }
{
    match status {
        Status::Running => 0,
        Status::Complete => 1,
        Status::Stuck => 2,
    }
}

/// The number of the cells of the first arrays.
fn cells_of_first(component: &Component, count: u8) -> u32
    ensures { result ≡ spec.cells_of_first component.now count }
{
    let mut cells = 0u32;
    for array in 0..count {
        cells = cells.saturating_add(u32::from(cell_count(component, array)));
    }
    cells
}

/// Adds how the state stands, which is reported, how many moves were made of how many, and how many
/// threads, cells and locks there are.
pub(crate) fn push_shape(
    numbers: &mut Vec<u32>,
    machine: &Machine<'_>,
    status: Status,
    made: u32,
    all: u32,
) -> Result<(), AllocError>
    ensures { Adds result numbers.old numbers.new (spec.shape machine.now status made all) }
{
    let component = machine.component();
    let arrays = component.arrays().len() as u8;
    push_four(
        numbers,
        status_number(status),
        made,
        all,
        u32::from(machine.threads()),
    )?;
    push(numbers, cells_of_first(component, arrays))?;
    push(numbers, u32::from(component.locks().len() as u8))
}
