//! Instructions.

ghost use Rattle.std.specs.Prelude.{◌≡◌};
ghost use Rattle.lu_component.specs.Operands.{arithmetic_word};

use std::fmt;

/// The most choices that a `pick` has.
pub const MOST_PICKS: u32 = 8;

/// What an instruction reads: a register, or a number that stands in the text.
#[derive(Clone, Copy, Debug, PartialEq, Eq)]
pub enum Operand {
    /// The value of this register, 0 to 7.
    Reg(u8),

    /// This number.
    Num(u32),
}

/// As it stands in a text: `r0` to `r7`, or the number.
impl fmt::Display for Operand {
    ghost use Rattle.std.specs.Prelude.{Some};
    ghost use Rattle.lu_component.specs.Operands.{operand_word};

    ghost output = { λ o. Some (operand_word o) };

    fn fmt<W: fmt::Write>(&self, f: &mut fmt::Formatter<W>) -> fmt::Result {
        match *self {
            Operand::Reg(register) => write!(f, "r{register}"),
            Operand::Num(number) => write!(f, "{number}"),
        }
    }
}

/// What an arithmetic instruction computes of two values. Arithmetic is modulo 2^32, and values are
/// compared as unsigned numbers.
#[derive(Clone, Copy, Debug, PartialEq, Eq)]
pub enum Arithmetic {
    Add,
    Sub,
    Mul,

    /// 1 where the values are equal, else 0.
    Eq,

    /// 1 where the left value is below the right one, else 0.
    Lt,
}

impl Arithmetic {
    /// The keyword of the instruction that computes it: `add`, `sub`, `mul`, `eq` or `lt`.
    pub fn word(self) -> &'static str
        ensures { result.now ≡ arithmetic_word self }
    {
        match self {
            Arithmetic::Add => "add",
            Arithmetic::Sub => "sub",
            Arithmetic::Mul => "mul",
            Arithmetic::Eq => "eq",
            Arithmetic::Lt => "lt",
        }
    }
}

/// An instruction. Arrays and locks go by their numbers in the component, jump targets by their
/// places in the operation's code, all from 0. Operands are read before a register is written.
#[derive(Clone, Copy, Debug, PartialEq, Eq)]
pub enum Instr {
    /// `set rD v`: register `to` is the value.
    Set {
        to: u8,
        value: Operand,
    },

    /// `add rD a b` and its kin: register `to` is what they compute.
    Compute {
        arithmetic: Arithmetic,
        to: u8,
        left: Operand,
        right: Operand,
    },

    /// `load rD W i`: register `to` is cell `index` of the array.
    Load {
        to: u8,
        array: u8,
        index: Operand,
    },

    /// `store W i v`: cell `index` of the array is the value.
    Store {
        array: u8,
        index: Operand,
        value: Operand,
    },

    /// `cas rD W i old new`: where cell `index` of the array equals `expected` it becomes `desired`
    /// and register `to` is 1; else register `to` is 0 and the cell stays.
    Cas {
        to: u8,
        array: u8,
        index: Operand,
        expected: Operand,
        desired: Operand,
    },

    /// `lock L`: the thread becomes the owner of the lock; blocked while the lock has one.
    Lock(u8),

    /// `unlock L`: the lock is free; a trap where the thread does not own it.
    Unlock(u8),

    /// `await W i v`: goes on where cell `index` of the array equals the value, else blocked.
    Await {
        array: u8,
        index: Operand,
        value: Operand,
    },

    /// `awaitne W i v`: goes on where cell `index` of the array differs from the value, else
    /// blocked.
    AwaitNot {
        array: u8,
        index: Operand,
        value: Operand,
    },

    /// `pick rD K`: register `to` is the move's pick, one of `count` choices, 1 to 8.
    Pick {
        to: u8,
        count: u8,
    },

    /// `jump LABEL`: goes on at the target.
    Jump(u8),

    /// `jz v LABEL`: goes on at the target where the value is 0, else at the next place.
    JumpIfZero {
        value: Operand,
        target: u8,
    },

    /// `return v`: the operation ends and returns the value.
    Return(Operand),
}
