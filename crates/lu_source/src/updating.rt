//! Updates of a cell, and the code of their loop.

ghost use Rattle.std.specs.Prelude.{◌≡◌, ◌<◌, IfOk};
ghost use Rattle.lu_source.specs.Shapes.{tree_of};
ghost use Rattle.lu_source.specs.Updates as spec;

use crate::expr::then;
use crate::tree::{Action, Stmt};
use lu_component::{Arithmetic, Operand};
use std::alloc::{AllocError, Global};

/// What an update by an operand stores.
#[derive(Clone, Copy, Debug)]
pub enum Update {
    /// The sum of the value before and the operand.
    Add,

    /// The value before minus the operand.
    Sub,

    /// The operand.
    Swap,

    /// The operand, where it is greater than the value before.
    Max,

    /// The operand, where it is less than the value before.
    Min,
}

/// What a compare-and-swap gives.
#[derive(Clone, Copy, Debug)]
pub enum Answer {
    /// 1 where it took place, else 0.
    Success,

    /// The value before.
    Before,
}

/// The array and the registers of an update.
#[derive(Clone, Copy)]
pub(crate) struct Site {
    pub array: u8,

    /// The register that gets the value.
    pub to: u8,

    /// The first of the two registers that its loop uses.
    pub spare: u8,
}

/// Leaves the loop around unless this gives 1, which the register becomes.
pub(crate) fn only_where(
    alloc: Global,
    arithmetic: Arithmetic,
    register: u8,
    left: Operand,
    right: Operand,
) -> Result<Stmt, AllocError>
    ensures { IfOk result (λ t. tree_of t ≡ spec.only_where arithmetic register left right) }
{
    let computed = Stmt::Plain(Action::Compute {
        arithmetic,
        to: register,
        left,
        right,
    });
    then(alloc, computed, Stmt::BreakUnless(Operand::Reg(register)))
}

/// What is stored is made of the value in a register and of an operand, in the register after it.
/// Where the value stays, this leaves the loop around.
pub(crate) fn making(
    alloc: Global,
    by: Update,
    register: u8,
    operand: Operand,
) -> Result<Stmt, AllocError>
    requires { register < 255 }
    ensures { IfOk result (λ t. tree_of t ≡ spec.making by register operand) }
{
    let before = Operand::Reg(register);
    let to = register + 1;
    match by {
        Update::Add => Ok(Stmt::Plain(Action::Compute {
            arithmetic: Arithmetic::Add,
            to,
            left: before,
            right: operand,
        })),
        Update::Sub => Ok(Stmt::Plain(Action::Compute {
            arithmetic: Arithmetic::Sub,
            to,
            left: before,
            right: operand,
        })),
        Update::Swap => Ok(Stmt::Nothing),
        Update::Max => only_where(alloc, Arithmetic::Lt, to, before, operand),
        Update::Min => only_where(alloc, Arithmetic::Lt, to, operand, before),
    }
}

/// Where it is then.
pub(crate) fn made_at(by: Update, register: u8, operand: Operand) -> Operand
    requires { register < 255 }
    ensures { result ≡ spec.made_at by register operand }
{
    match by {
        Update::Add | Update::Sub => Operand::Reg(register + 1),
        Update::Swap | Update::Max | Update::Min => operand,
    }
}

/// The loop of an update, after which the value before is in the spare register. A turn loads it,
/// makes what is stored, and leaves the loop where a `cas` from the one to the other takes place.
pub(crate) fn attempts(
    alloc: Global,
    array: u8,
    index: Operand,
    spare: u8,
    make: Stmt,
    made: Operand,
) -> Result<Stmt, AllocError>
    requires { spare < 255 }
    ensures { IfOk result
        (λ t. tree_of t ≡ spec.attempts array index spare (tree_of make) made) }
{
    let load = Stmt::Plain(Action::Load {
        to: spare,
        array,
        index,
    });
    let swap = Stmt::Plain(Action::Cas {
        to: spare + 1,
        array,
        index,
        expected: Operand::Reg(spare),
        desired: made,
    });
    let leave = Stmt::If(Operand::Reg(spare + 1), Box::new(alloc, Stmt::Break)?);
    let last = then(alloc, swap, leave)?;
    let rest = then(alloc, make, last)?;
    let turn = then(alloc, load, rest)?;
    Ok(Stmt::Loop(Box::new(alloc, turn)?))
}
