//! What blocked threads wait for.

ghost use Rattle.std.specs.Prelude.{◌<◌, length};
ghost use Rattle.lu_text.specs.Writing.{Writes};
ghost use Rattle.lu_machine.specs.Layout.{IsSound};
ghost use Rattle.lu_trace.specs.Deeds as words;
ghost use Rattle.lu_trace.specs.Deeds.{awaited, awaited_is, awaited_is_not};
ghost use Rattle.lu_trace.specs.Lines as spec;
ghost use Rattle.lu_trace.specs.Lines.{waiting};

use crate::effects::{Cell, named_cell, value_in, write_cell};
use crate::lines::{write_head, write_instr_text};
use crate::wording::Wording;
use lu_component::{Component, Instr};
use lu_lang::lock_name;
use lu_machine::{Activity, Frame, Machine};
use std::alloc::{AllocError, Global};

/// Adds which thread holds a lock, if one does.
fn write_owner(text: &mut String, owner: Option<u8>) -> Result<(), AllocError>
    ensures { Writes result text.old text.new (words.owned_by owner) }
{
    match owner {
        None => Ok(()),
        Some(thread) => write!(text, ", which thread {thread} holds"),
    }
}

/// Adds what a cell's value is, if there is such a cell.
fn write_present(text: &mut String, present: Option<u32>) -> Result<(), AllocError>
    ensures { Writes result text.old text.new (words.present present) }
{
    match present {
        None => Ok(()),
        Some(value) => write!(text, ", but it is {value}"),
    }
}

/// Adds what a blocked `lock` waits for.
fn write_lock_wait(text: &mut String, machine: &Machine<'_>, lock: u8) -> Result<(), AllocError>
    requires { lock < length machine.now.component.locks }
    ensures { Writes result text.old text.new (words.awaited_lock machine.now lock) }
{
    text.push_str("waits for lock ")?;
    text.push_str(lock_name(machine.component(), lock))?;
    write_owner(text, machine.owner(lock))
}

/// Adds what a blocked `await` of a cell waits for. This value is seen there, if there is a cell.
fn write_await(
    text: &mut String,
    how: &Wording<'_>,
    component: &Component,
    cell: Cell,
    value: u32,
    seen: Option<u32>,
) -> Result<(), AllocError>
    ensures { Writes result text.old text.new
        (awaited_is how.now component.now cell value seen) }
{
    text.push_str("waits until ")?;
    write_cell(text, how, component, cell, " is ", value)?;
    write_present(text, seen)
}

/// Adds what a blocked `awaitne` of a cell waits for.
fn write_await_not(
    text: &mut String,
    how: &Wording<'_>,
    component: &Component,
    cell: Cell,
    value: u32,
) -> Result<(), AllocError>
    ensures { Writes result text.old text.new (awaited_is_not how.now component.now cell value) }
{
    text.push_str("waits until ")?;
    write_cell(text, how, component, cell, " is not ", value)
}

/// Adds what a blocked instruction waits for.
pub fn write_awaited(
    text: &mut String,
    how: &Wording<'_>,
    machine: &Machine<'_>,
    frame: &Frame,
    instr: &Instr,
) -> Result<(), AllocError>
    requires { IsSound machine.now frame.now instr.now }
    ensures { Writes result text.old text.new (awaited how.now machine.now frame.now instr.now) }
{
    let component = machine.component();
    match *instr {
        Instr::Lock(lock) => write_lock_wait(text, machine, lock),
        Instr::Await {
            array,
            index,
            value,
        } => {
            let cell = named_cell(frame, array, index);
            let seen = value_in(machine, frame, array, index);
            write_await(text, how, component, cell, frame.value(value), seen)
        }
        Instr::AwaitNot {
            array,
            index,
            value,
        } => {
            let cell = named_cell(frame, array, index);
            write_await_not(text, how, component, cell, frame.value(value))
        }
        _ => Ok(()),
    }
}

/// Adds the line of an instruction of thread `t` with what it waits for, where it is blocked.
fn write_instr_wait(
    alloc: Global,
    text: &mut String,
    how: &Wording<'_>,
    machine: &Machine<'_>,
    t: u8,
    frame: &Frame,
    instr: &Instr,
) -> Result<(), AllocError>
    requires { IsSound machine.now frame.now instr.now }
    ensures { Writes result text.old text.new
        (waiting how.now machine.now t frame.now instr.now) }
{
    if !machine.is_blocked(frame, instr) {
        return Ok(());
    }
    write_head(alloc, text, None, t)?;
    write_instr_text(text, how, machine.component(), frame, instr)?;
    write_awaited(text, how, machine, frame, instr)?;
    text.push('\n')
}

/// Adds the line of what thread `t` waits for, where it is blocked.
fn write_wait(
    alloc: Global,
    text: &mut String,
    how: &Wording<'_>,
    machine: &Machine<'_>,
    t: u8,
) -> Result<(), AllocError>
    ensures { Writes result text.old text.new (spec.thread_wait how.now machine.now t) }
{
    let Some(standing) = machine.standing(t) else {
        return Ok(());
    };
    match &standing.activity {
        Activity::Idle => Ok(()),
        Activity::Open(frame) => match machine.instr(frame) {
            None => Ok(()),
            Some(instr) => write_instr_wait(alloc, text, how, machine, t, frame, instr),
        },
    }
}

/// Adds a line for each blocked thread, with what it waits for.
pub(crate) fn write_waits(
    alloc: Global,
    text: &mut String,
    how: &Wording<'_>,
    machine: &Machine<'_>,
) -> Result<(), AllocError>
    ensures { Writes result text.old text.new
        (spec.all_waits how.now machine.now) }
{
    for t in 0..machine.threads() {
        write_wait(alloc, text, how, machine, t)?;
    }
    Ok(())
}
