//! Tests of a component: matrices of calls, and schedules of moves, with their texts.
#![tactic(auto)]

mod edits;
mod laws;
mod matrix;
mod matrix_fault;
mod matrix_recovery;
mod matrix_text;
mod matrix_writer;
mod schedule;
mod schedule_fault;
mod schedule_recovery;
mod schedule_text;
mod signature;

pub use edits::{copy_call, copy_calls, copy_matrix, cut_to, remove, setup_alone};
pub use laws::round_trip;
pub use matrix::{Arguments, Call, Calls, MOST_CALLS, MOST_CALLS_OF_THREAD, MOST_THREADS, Matrix};
pub use matrix_fault::{MatrixFault, MatrixFaultKind};
pub use matrix_recovery::mended;
pub use matrix_text::{MatrixDraft, end_fault, read_matrix};
pub use matrix_writer::{write_call, write_matrix};
pub use schedule::{MOST_LISTED_MOVES, Move, Schedule};
pub use schedule_fault::ScheduleFault;
pub use schedule_recovery::schedule_words;
pub use schedule_text::{move_in, read_schedule, write_schedule};
pub use signature::{Signature, signatures_of};
