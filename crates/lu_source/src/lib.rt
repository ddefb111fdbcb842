//! The source language of components: structured operations, and the code that they stand for.
#![tactic(auto)]

mod compiling;
mod emit;
mod expr;
mod laws;
mod origin;
mod shape;
mod tree;
mod updating;

pub use compiling::{compile, compile_operation};
pub use emit::{comes_out, flatten};
pub use expr::{Evaluation, Expr, Operator, REGISTERS, coded, past, put, then};
pub use laws::compiler_laws;
pub use origin::{Origin, Origins};
pub use shape::{breaks, continues, falls, instr_of, size};
pub use tree::{Action, Operation, Stmt};
pub use updating::{Answer, Update};
