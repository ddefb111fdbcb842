//! What an instruction does, in words.

ghost use Rattle.std.specs.Prelude.{◌≡◌, ◌<◌, length};
ghost use Rattle.lu_text.specs.Writing.{Writes};
ghost use Rattle.lu_component.specs.Component.{IsOperand};
ghost use Rattle.lu_machine.specs.Layout.{IsSound};
ghost use Rattle.lu_trace.specs.Deeds.{deed, loaded, looked, of_cell, register_after, swapped};
ghost use Rattle.lu_trace.specs.Deeds as spec;

use crate::wording::{Wording, has_name, is_indexed, write_jump, write_register, write_tested};
use lu_component::{Component, Instr, Operand};
use lu_lang::{array_name, lock_name};
use lu_machine::{Frame, Machine, compute};
use lu_test::Move;
use std::alloc::AllocError;

/// A cell of an array.
#[derive(Clone, Copy)]
pub(crate) struct Cell {
    array: u8,
    index: u32,
}

/// A read of a cell into a register.
#[derive(Clone, Copy)]
pub(crate) struct Read {
    to: u8,
    cell: Cell,
}

/// A compare-and-swap of a cell, with the values of its operands.
#[derive(Clone, Copy)]
pub(crate) struct Swap {
    to: u8,
    cell: Cell,
    expected: u32,
    desired: u32,
}

/// Adds the name of a cell, with its index where the cells of its array are shown with it.
fn write_cell_name(
    text: &mut String,
    how: &Wording<'_>,
    component: &Component,
    cell: Cell,
) -> Result<(), AllocError>
    ensures { Writes result text.old text.new (spec.cell_word how.now component.now cell) }
{
    let Cell { array, index } = cell;
    text.push_str(array_name(component, array))?;
    if is_indexed(how, array) {
        write!(text, "[{index}]")
    } else {
        Ok(())
    }
}

/// Adds a cell, what is said of it, and a value.
pub(crate) fn write_cell(
    text: &mut String,
    how: &Wording<'_>,
    component: &Component,
    cell: Cell,
    said: &str,
    value: u32,
) -> Result<(), AllocError>
    ensures { Writes result text.old text.new
        (of_cell how.now component.now cell said.now value) }
{
    write_cell_name(text, how, component, cell)?;
    write!(text, "{said}{value}")
}

/// Adds what a register becomes after what else is said, where it has a name.
fn write_register_after(
    text: &mut String,
    how: &Wording<'_>,
    frame: &Frame,
    register: u8,
    value: u32,
) -> Result<(), AllocError>
    ensures { Writes result text.old text.new (register_after how.now frame.now register value) }
{
    if has_name(how, frame, register) {
        text.push_str(", ")?;
        write_register(text, how, frame, register, value)
    } else {
        Ok(())
    }
}

/// Adds what a compare-and-swap does of a cell with this value.
fn write_swap(
    text: &mut String,
    how: &Wording<'_>,
    component: &Component,
    frame: &Frame,
    swap: Swap,
    value: u32,
) -> Result<(), AllocError>
    ensures { Writes result text.old text.new
        (swapped how.now component.now frame.now swap value) }
{
    let Swap {
        to,
        cell,
        expected,
        desired,
    } = swap;
    if value == expected {
        write_cell(text, how, component, cell, " = ", desired)?;
        write_register_after(text, how, frame, to, 1)
    } else {
        write_cell(text, how, component, cell, " is ", value)?;
        write_register_after(text, how, frame, to, 0)
    }
}

/// The cell of an array that the operation names.
pub(crate) fn named_cell(frame: &Frame, array: u8, index: Operand) -> Cell
    requires { IsOperand index }
    ensures { result ≡ spec.named_cell frame.now array index }
{
    Cell {
        array,
        index: frame.value(index),
    }
}

/// The value of the cell that the operation names: none at or past the array's length.
pub(crate) fn value_in(
    machine: &Machine<'_>,
    frame: &Frame,
    array: u8,
    index: Operand,
) -> Option<u32>
    requires array { array < length machine.now.component.arrays }
    requires index { IsOperand index }
    ensures { result ≡ spec.seen machine.now frame.now array index }
{
    let cell = machine.cell(array, frame.value(index))?;
    Some(machine.value_at(cell))
}

/// Adds what a read of this value does.
fn write_loaded(
    text: &mut String,
    how: &Wording<'_>,
    component: &Component,
    frame: &Frame,
    read: Read,
    value: u32,
) -> Result<(), AllocError>
    ensures { Writes result text.old text.new
        (loaded how.now component.now frame.now read value) }
{
    if has_name(how, frame, read.to) {
        write_register(text, how, frame, read.to, value)
    } else {
        write_cell(text, how, component, read.cell, " is ", value)
    }
}

/// Adds what the cell that the operation names is.
fn write_seen(
    text: &mut String,
    how: &Wording<'_>,
    machine: &Machine<'_>,
    frame: &Frame,
    array: u8,
    index: Operand,
) -> Result<(), AllocError>
    requires array { array < length machine.now.component.arrays }
    requires index { IsOperand index }
    ensures { Writes result text.old text.new (looked how.now machine.now frame.now array index) }
{
    let cell = named_cell(frame, array, index);
    match value_in(machine, frame, array, index) {
        None => text.push_str("trap"),
        Some(value) => write_cell(text, how, machine.component(), cell, " is ", value),
    }
}

/// Adds what an unlock does.
fn write_unlock(
    text: &mut String,
    machine: &Machine<'_>,
    next: Move,
    lock: u8,
) -> Result<(), AllocError>
    requires { lock < length machine.now.component.locks }
    ensures { Writes result text.old text.new (spec.unlock_deed machine.now next.thread lock) }
{
    if machine.owner(lock) == Some(next.thread) {
        write!(text, "{} is free", lock_name(machine.component(), lock))
    } else {
        text.push_str("trap")
    }
}

/// Adds what a jump does that is taken where the value is 0, and in a source the value.
fn write_jump_if_zero(
    text: &mut String,
    how: &Wording<'_>,
    frame: &Frame,
    value: u32,
    target: u8,
) -> Result<(), AllocError>
    ensures { Writes result text.old text.new (spec.jump_deed how.now frame.now target value) }
{
    write_tested(text, how, value)?;
    if value == 0 {
        write_jump(text, how, frame, target)
    } else {
        text.push_str("continues")
    }
}

/// Adds what the instruction does by the move.
pub(crate) fn write_deed(
    text: &mut String,
    how: &Wording<'_>,
    machine: &Machine<'_>,
    next: Move,
    frame: &Frame,
    instr: &Instr,
) -> Result<(), AllocError>
    requires { IsSound machine.now frame.now instr.now }
    ensures { Writes result text.old text.new (deed how.now machine.now next frame.now instr.now) }
{
    let component = machine.component();
    match *instr {
        Instr::Set { to, value } => write_register(text, how, frame, to, frame.value(value)),
        Instr::Compute {
            arithmetic,
            to,
            left,
            right,
        } => {
            let value = compute(arithmetic, frame.value(left), frame.value(right));
            write_register(text, how, frame, to, value)
        }
        Instr::Load { to, array, index } => match value_in(machine, frame, array, index) {
            None => text.push_str("trap"),
            Some(value) => {
                let cell = named_cell(frame, array, index);
                write_loaded(text, how, component, frame, Read { to, cell }, value)
            }
        },
        Instr::Store {
            array,
            index,
            value,
        } => match value_in(machine, frame, array, index) {
            None => text.push_str("trap"),
            Some(_) => {
                let cell = named_cell(frame, array, index);
                write_cell(text, how, component, cell, " = ", frame.value(value))
            }
        },
        Instr::Cas {
            to,
            array,
            index,
            expected,
            desired,
        } => match value_in(machine, frame, array, index) {
            None => text.push_str("trap"),
            Some(value) => {
                let swap = Swap {
                    to,
                    cell: named_cell(frame, array, index),
                    expected: frame.value(expected),
                    desired: frame.value(desired),
                };
                write_swap(text, how, component, frame, swap, value)
            }
        },
        Instr::Lock(lock) => write!(text, "{} is taken", lock_name(component, lock)),
        Instr::Unlock(lock) => write_unlock(text, machine, next, lock),
        Instr::Await { array, index, .. } | Instr::AwaitNot { array, index, .. } => {
            write_seen(text, how, machine, frame, array, index)
        }
        Instr::Pick { to, .. } => write_register(text, how, frame, to, u32::from(next.pick)),
        Instr::Jump(target) => write_jump(text, how, frame, target),
        Instr::JumpIfZero { value, target } => {
            write_jump_if_zero(text, how, frame, frame.value(value), target)
        }
        Instr::Return(value) => write!(text, "ret {}", frame.value(value)),
    }
}
