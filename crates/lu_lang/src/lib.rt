//! The text of components: its reader, and the writer of its canonical form.
#![tactic(auto)]

mod after_fault;
mod draft;
mod fault;
mod fault_lines;
mod instructions;
mod keyword;
mod labels;
mod laws;
mod reading;
mod recovery;
mod writing;

pub use draft::{ComponentDraft, Label, OpenOp, Statement};
pub use fault::{LangFault, LangFaultKind};
pub use fault_lines::{left_backs, message_backs, open_backs};
pub use labels::{Labels, labels_of};
pub use laws::{labels_law, round_trip};
pub use lu_component::{
    Arithmetic, Array, Code, Component, Instr, MOST_ARGUMENTS, MOST_ARRAYS, MOST_CELLS,
    MOST_INSTRS, MOST_LOCAL, MOST_LOCKS, MOST_OPS, MOST_PICKS, Op, Operand,
};
pub use reading::{end_fault, read_component};
pub use recovery::{
    Family, FaultyDraft, MeantName, meant_line, mended, read_or_fault, with_spaced_words,
};
pub use writing::{array_name, has_jump_to, lock_name, write_component, write_instr, write_label};
