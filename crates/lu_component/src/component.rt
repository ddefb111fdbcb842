//! Components.

ghost use Rattle.std.specs.Prelude.{◌≡◌, ◌≤◌, slice_get};
ghost use Rattle.std.specs.Option.{option_copied};
ghost use Rattle.lu_component.specs.Component.{IsComponent, declarations};
ghost use Rattle.lu_component.specs.Component as spec;
ghost use Rattle.lu_component.specs.declared.component.TheConstants.{MOST_LOCAL};

use crate::instr::Instr;
use lu_text::Name;
use std::marker::Model;

/// The most arrays that a component has.
pub const MOST_ARRAYS: usize = 16;

/// The most cells that an array has.
pub const MOST_CELLS: u32 = 64;

/// The most locks that a component has.
pub const MOST_LOCKS: usize = 8;

/// The most operations that a component has.
pub const MOST_OPS: usize = 16;

/// The most instructions that an operation has.
pub const MOST_INSTRS: usize = 64;

/// The most arguments that an operation has.
pub const MOST_ARGUMENTS: u32 = 4;

/// The most local instructions that run with one move.
pub const MOST_LOCAL: u32 = 16;

/// An array of shared words, `word NAME LEN INIT`.
#[derive(Debug, Drop)]
pub struct Array {
    pub name: Name,

    /// The number of its cells, 1 to 64.
    pub len: u8,

    /// The value of each cell at the start.
    pub init: u32,
}

/// The instructions of an operation, in order.
#[derive(Debug, Drop)]
pub struct Code {
    instrs: Vec<Instr>,
}

impl Model for Code {
    ghost use Rattle.std.specs.Prelude.{List};
    ghost use Rattle.lu_component.specs.declared.instr.Instr.{Instr as AnInstr};

    ghost Value = { List AnInstr };

    ghost view = { λ c. c.instrs.items };
}

impl Code {
    /// The code of these instructions.
    pub fn new(instrs: Vec<Instr>) -> Code
        ensures { result ≡ instrs.items }
    {
        Code { instrs }
    }

    /// The instructions, in order.
    pub fn instrs(&self) -> &[Instr]
        ensures { result.now ≡ self.now }
    {
        &self.instrs
    }
}

/// An operation, `op NAME ARGS` to `end`.
#[derive(Debug, Drop)]
pub struct Op {
    pub name: Name,

    /// The number of its arguments, 0 to 4. They stand in the first registers when it is called.
    pub args: u8,

    /// Its code: 1 to 64 instructions, of which the last is `return` or `jump`.
    pub code: Code,
}

/// The number of the operation of this name, from 0, where there is one.
pub fn operation_number(operations: &[Op], name: &[u8]) -> Option<usize>
    ensures { result ≡ spec.operation_number operations.now name.now }
{
    operations.iter().position(|op| op.name.is(name))
}

/// A component: arrays of shared words, locks, and the operations that threads may call.
///
/// It is always one that some text of the language declares: all limits hold, names are distinct
/// within their kind, and what an instruction names is there.
#[derive(Debug, Drop)]
pub struct Component {
    name: Name,
    local: u8,
    arrays: Vec<Array>,
    locks: Vec<Name>,
    operations: Vec<Op>,
}

impl Model for Component {
    ghost use Rattle.lu_component.specs.Component.{Component as AComponent, IsComponent, declarations};

    ghost Value = { AComponent };

    ghost view = { λ c.
        declarations c.name c.local c.arrays.items c.locks.items c.operations.items };

    ghost invariant = { λ c.
        IsComponent (declarations c.name c.local c.arrays.items c.locks.items c.operations.items) };
}

impl Component {
    /// The component that declares these, for readers of its text.
    ///
    /// Asks for what each component obeys: the limits of its arrays, locks and operations hold,
    /// names are distinct within their kind, and what an instruction names is there.
    pub fn new(
        name: Name,
        local: u8,
        arrays: Vec<Array>,
        locks: Vec<Name>,
        operations: Vec<Op>,
    ) -> Component
        requires { IsComponent (declarations name local arrays.items locks.items operations.items) }
        ensures { result ≡ declarations name local arrays.items locks.items operations.items }
    {
        Component {
            name,
            local,
            arrays,
            locks,
            operations,
        }
    }

    /// The name after `component`.
    pub fn name(&self) -> &Name
        ensures { result.now ≡ self.now.name }
    {
        &self.name
    }

    /// How many local instructions run with one move at most, 0 to 16: those that read and write
    /// registers alone, or jump. With 0 each is a move of its own.
    pub fn local(&self) -> u8
        ensures local { result ≡ self.now.local }
        ensures few { result ≤ MOST_LOCAL }
    {
        self.local
    }

    /// The arrays, in the order of their declarations.
    pub fn arrays(&self) -> &[Array]
        ensures arrays { result.now ≡ self.now.arrays }
        ensures sound { IsComponent self.now }
    {
        &self.arrays
    }

    /// The names of the locks, in the order of their declarations.
    pub fn locks(&self) -> &[Name]
        ensures locks { result.now ≡ self.now.locks }
        ensures sound { IsComponent self.now }
    {
        &self.locks
    }

    /// The operations, in the order of their declarations.
    pub fn operations(&self) -> &[Op]
        ensures operations { result.now ≡ self.now.operations }
        ensures sound { IsComponent self.now }
    {
        &self.operations
    }

    /// Operation number `number`, from 0, where there is one.
    pub fn operation(&self, number: u8) -> Option<&Op>
        ensures { option_copied result ≡ slice_get self.now.operations number }
    {
        self.operations.get(usize::from(number))
    }

    /// The number of the operation of this name, from 0, where there is one.
    pub fn operation_number(&self, name: &[u8]) -> Option<u8>
        ensures { result ≡ spec.operation_number self.now.operations name.now }
    {
        Some(operation_number(self.operations(), name)? as u8)
    }
}
