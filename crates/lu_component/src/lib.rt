//! Components: small concurrent programs in a step language. Their text is read and written by
//! lu_lang.
#![tactic(auto)]

mod component;
mod instr;

pub use component::{
    Array, Code, Component, MOST_ARGUMENTS, MOST_ARRAYS, MOST_CELLS, MOST_INSTRS, MOST_LOCAL,
    MOST_LOCKS, MOST_OPS, Op, operation_number,
};
pub use instr::{Arithmetic, Instr, MOST_PICKS, Operand};
