//! Registers that don't matter any more.
//!
//! A register is dead at a place of an operation where it is written before it is read again, or
//! not read again, whichever way the operation goes on from there.

ghost use Rattle.std.specs.Prelude.{◌≡◌, ◌<◌, ◌≤◌, true, false, IfOk, [], get_or, length};
ghost use Rattle.lu_component.specs.declared.component.TheConstants.{MOST_INSTRS};
ghost use Rattle.lu_horizon.specs.Dead as spec;
ghost use Rattle.lu_horizon.specs.Dead.{AreDead, AreDeadAt, IsDeadTable, TellsDead, is_dead};
ghost use Rattle.lu_horizon.specs.Rounds.{AreLiveIn, AreWithin, IsRound, IsSettledAt, with_live};

use crate::code::code_of;
use lu_component::{Component, Instr, Operand};
use std::alloc::{AllocError, Global};
use std::marker::Model;

/// How many registers an operation has.
pub(crate) const REGISTERS: u8 = 8;

/// Whether each of the registers `r0` to `r7` is dead.
type Dead = [bool; 8];

/// Whether the operand is the register.
fn names_register(register: u8, operand: Operand) -> bool
    ensures { result ≡ spec.names_register register operand }
{
    match operand {
        Operand::Reg(other) => other == register,
        Operand::Num(_) => false,
    }
}

/// Whether the instruction reads the register.
fn reads(instr: &Instr, register: u8) -> bool
    ensures { result ≡ spec.reads instr.now register }
{
    match *instr {
        Instr::Set { value, .. } | Instr::JumpIfZero { value, .. } | Instr::Return(value) => {
            names_register(register, value)
        }
        Instr::Compute { left, right, .. } => {
            names_register(register, left) || names_register(register, right)
        }
        Instr::Load { index, .. } => names_register(register, index),
        Instr::Store { index, value, .. }
        | Instr::Await { index, value, .. }
        | Instr::AwaitNot { index, value, .. } => {
            names_register(register, index) || names_register(register, value)
        }
        Instr::Cas {
            index,
            expected,
            desired,
            ..
        } => {
            names_register(register, index)
                || names_register(register, expected)
                || names_register(register, desired)
        }
        Instr::Lock(_) | Instr::Unlock(_) | Instr::Pick { .. } | Instr::Jump(_) => false,
    }
}

/// Whether the instruction writes the register, where the operation goes on.
fn writes(instr: &Instr, register: u8) -> bool
    ensures { result ≡ spec.writes instr.now register }
{
    match *instr {
        Instr::Set { to, .. }
        | Instr::Compute { to, .. }
        | Instr::Load { to, .. }
        | Instr::Cas { to, .. }
        | Instr::Pick { to, .. } => to == register,
        _ => false,
    }
}

/// Whether the register is said to be dead at the place.
fn dead_at(known: &[Dead], place: usize, register: u8) -> bool
    ensures value { result ≡ spec.dead_at known.now place register }
    ensures eight { length (get_or known.now place []) ≤ 8 }
{
    match known.get(place) {
        None => false,
        Some(dead) => dead.get(usize::from(register)).copied().unwrap_or(false),
    }
}

/// Whether the register is said to be dead wherever the operation may go from the instruction.
fn dead_after(instr: &Instr, place: usize, register: u8, known: &[Dead]) -> bool
    requires { place < MOST_INSTRS }
    ensures { result ≡ spec.dead_after (spec.dead_at known.now) place instr.now register }
{
    match *instr {
        Instr::Jump(target) => dead_at(known, usize::from(target), register),
        Instr::JumpIfZero { target, .. } => {
            dead_at(known, usize::from(target), register) && dead_at(known, place + 1, register)
        }
        Instr::Return(_) => true,
        _ => dead_at(known, place + 1, register),
    }
}

/// Whether the register is not read by the instruction, and is written, or dead after it.
fn dead_before(instr: &Instr, place: usize, register: u8, known: &[Dead]) -> bool
    requires { place < MOST_INSTRS }
    ensures { result ≡ spec.dead_before (spec.dead_at known.now) place instr.now register }
{
    !reads(instr, register)
        && (writes(instr, register) || dead_after(instr, place, register, known))
}

/// Says no more that the register is dead at the place.
fn say_live(known: &mut Vec<Dead>, place: usize, register: u8)
    requires { spec.dead_at known.old.items place register ≡ true }
    ensures { known.new.items ≡ with_live known.old.items place register }
{
    known[place][usize::from(register)] = false;
}

/// Says no more that the register is dead at the place, where it is not by what is said of the
/// places that may come next. Says whether that was so.
fn look_at(code: &[Instr], place: usize, register: u8, known: &mut Vec<Dead>) -> bool
    requires within { place < length code.now }
    requires few { length code.now ≤ MOST_INSTRS }
    ensures round { IsRound code.now known.old.items known.new.items result }
    ensures settled { result ≡ false → IsSettledAt code.now known.new.items place register }
    ensures eight { length (get_or known.new.items place []) ≤ 8 }
{
    if dead_at(known, place, register) && !dead_before(&code[place], place, register, known) {
        say_live(known, place, register);
        return true;
    }
    false
}

/// Looks at each register at the place, and says whether less is dead there than was said.
fn look_at_place(code: &[Instr], place: usize, known: &mut Vec<Dead>) -> bool
    requires within { place < length code.now }
    requires few { length code.now ≤ MOST_INSTRS }
    ensures round { IsRound code.now known.old.items known.new.items result }
    ensures settled { result ≡ false → AreDeadAt code.now known.new.items place }
{
    let mut less = false;
    for register in 0..REGISTERS {
        less |= look_at(code, place, register, known);
    }
    less
}

/// Goes through the code from its end, and says whether less is dead than was said.
fn go_through(code: &[Instr], known: &mut Vec<Dead>) -> bool
    requires { length code.now ≤ MOST_INSTRS }
    ensures round { IsRound code.now known.old.items known.new.items result }
    ensures settled { result ≡ false → AreDead code.now known.new.items }
{
    let mut less = false;
    for back in 0..code.len() {
        less |= look_at_place(code, code.len() - 1 - back, known);
    }
    less
}

/// The dead registers at each place of one operation.
#[derive(Debug, Drop)]
struct DeadInOperation {
    dead: Vec<Dead>,
}

impl Model for DeadInOperation {
    ghost use Rattle.std.specs.Prelude.{Bool, List};

    ghost Value = { List (List Bool) };

    ghost view = { λ p. p.dead.items };
}

impl DeadInOperation {
    /// Whether the register is dead at the place.
    fn is_dead(&self, place: u8, register: u8) -> bool
        ensures { result ≡ spec.dead_at self.now place register }
    {
        dead_at(&self.dead, usize::from(place), register)
    }
}

/// The dead registers at each place of the code: all at first, and less with each round, until one
/// finds all to be so.
fn dead_in(alloc: Global, code: &[Instr]) -> Result<DeadInOperation, AllocError>
    requires { length code.now ≤ MOST_INSTRS }
    ensures sound { IfOk result (AreDead code.now) }
    ensures exact { IfOk result (AreLiveIn code.now) }
    ensures within { IfOk result (AreWithin code.now) }
{
    let mut dead = vec![in alloc; [true; 8]; code.len()]?;
    while go_through(code, &mut dead) {}
    Ok(DeadInOperation { dead })
}

/// Of each operation of a component and each place of its code, the registers that are dead there:
/// whichever way the operation goes on, they are written before they are read again, or not read
/// again.
#[derive(Debug, Drop)]
pub struct DeadRegisters {
    operations: Vec<DeadInOperation>,
}

impl Model for DeadRegisters {
    ghost use Rattle.std.specs.Prelude.{Bool, List};

    ghost Value = { List (List (List Bool)) };

    ghost view = { λ d. d.operations.items };
}

impl DeadRegisters {
    /// The dead registers of a component's operations: at each place all that are dead, and no
    /// others.
    ///
    /// # Errors
    ///
    /// `AllocError` where memory was refused.
    pub fn new(alloc: Global, component: &Component) -> Result<DeadRegisters, AllocError>
        ensures sound { IfOk result (IsDeadTable component.now) }
        ensures exact { IfOk result (TellsDead component.now) }
    {
        let mut operations = Vec::new(alloc);
        for op in 0..component.operations().len() as u8 {
            operations.push(dead_in(alloc, code_of(component, op))?)?;
        }
        Ok(DeadRegisters { operations })
    }

    /// Whether register 0 to 7 of the operation is dead at the place.
    pub fn is_dead(&self, op: u8, place: u8, register: u8) -> bool
        ensures { result ≡ is_dead self.now op place register }
    {
        match self.operations.get(usize::from(op)) {
            None => false,
            Some(places) => places.is_dead(place, register),
        }
    }
}
