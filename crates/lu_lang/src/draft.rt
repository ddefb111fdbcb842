//! What the lines so far have declared.

ghost use Rattle.std.specs.Prelude.{◌≡◌};
ghost use Rattle.lu_lang.specs.Draft.{nothing, op_begun};

use lu_component::{Array, Instr, Op, Operand};
use lu_text::Name;
use std::alloc::Global;
use std::marker::Model;

/// An instruction whose target, where it has one, is still the name of a label.
#[derive(Debug, Drop)]
pub enum Statement {
    Plain(Instr),
    Jump(Name),
    JumpIfZero(Operand, Name),
}

/// A label and the place of its instruction, from 0.
#[derive(Debug, Drop)]
pub struct Label {
    pub name: Name,
    pub place: u8,
}

/// An operation that has no `end` yet.
#[derive(Debug, Drop)]
pub struct OpenOp {
    pub name: Name,
    pub args: u8,
    pub statements: Vec<Statement>,

    /// The labels so far.
    pub labels: Vec<Label>,
}

impl Model for OpenOp {
    ghost use Rattle.lu_lang.specs.Draft.{OpenOp as AnOpenOp};

    ghost Value = { AnOpenOp };

    ghost view = { λ o. record {
      name = o.name;
      args = o.args;
      statements = o.statements.items;
      labels = o.labels.items;
    } };
}

impl OpenOp {
    /// Of which no line but `op` is read.
    pub(crate) fn new(alloc: Global, name: Name, args: u8) -> OpenOp
        ensures { result ≡ op_begun name args }
    {
        OpenOp {
            name,
            args,
            statements: Vec::new(alloc),
            labels: Vec::new(alloc),
        }
    }
}

/// A component of which not all lines are read.
#[derive(Debug, Drop)]
pub struct ComponentDraft {
    pub name: Option<Name>,

    /// Of the line `local`, where there was one.
    pub local: Option<u8>,
    pub arrays: Vec<Array>,
    pub locks: Vec<Name>,
    pub operations: Vec<Op>,
    pub begun: Option<OpenOp>,
}

impl Model for ComponentDraft {
    ghost use Rattle.std.specs.Prelude.{◌≤◌, length};
    ghost use Rattle.lu_lang.specs.Draft.{ComponentDraft as AComponentDraft};

    ghost Value = { AComponentDraft };

    ghost view = { λ d. record {
      name = d.name;
      local = d.local;
      arrays = d.arrays.items;
      locks = d.locks.items;
      operations = d.operations.items;
      begun = d.begun;
    } };

    ghost invariant = { λ d. (length d.arrays.items ≤ 16) × (length d.locks.items ≤ 8) };
}

impl ComponentDraft {
    /// Nothing is declared yet.
    pub fn new(alloc: Global) -> ComponentDraft
        ensures { result ≡ nothing }
    {
        ComponentDraft {
            name: None,
            local: None,
            arrays: Vec::new(alloc),
            locks: Vec::new(alloc),
            operations: Vec::new(alloc),
            begun: None,
        }
    }
}
