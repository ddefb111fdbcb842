//! The step machine of a component and a matrix.
//!
//! A [`Machine`] runs the calls of a matrix's threads on the arrays and locks of a component, one
//! move at a time. A move of an idle thread opens its next call; any other move carries out one
//! instruction of the thread's open operation, and takes one of its picks. How many picks a thread
//! has says whether it is enabled; a list of feasible moves is a schedule. Calls and returns show
//! as an [`Event`] each.
//!
//! What a machine does can be looked at step by step: [`Machine::standing`] says where a thread
//! stands, [`Machine::instr`] which instruction comes next, and [`Machine::step_once`] carries out
//! that one alone.
//!
//! A run starts after the calls of the matrix's setup, which thread 0 makes alone, each pick 0.
//! [`settles`] says whether each of them ends. A component with a matrix whose setup settles is a
//! [`Test`].
//!
//! A search makes a move by [`Machine::apply`] and takes it back by [`Machine::undo`]. Of the calls
//! only [`Machine::start`], [`Machine::position`], [`settles`] and [`Test::of`] take memory.
//!
//! ```text
//! let mut machine = Machine::start(alloc, &component, &matrix)?;
//! for pick in 0..machine.picks(0) {
//!     let undo = machine.apply(Move { thread: 0, pick });
//!     ..
//!     machine.undo(undo);
//! }
//! ```
#![tactic(auto)]

mod counts;
mod event;
mod instructions;
mod laws;
mod machine;
mod position;
mod program;
mod setup;
mod span;
mod test;
mod thread;
mod undo;

pub use counts::Counts;
pub use event::{Event, Outcome, Status};
pub use instructions::is_local;
pub use laws::{local_laws, step_laws};
pub use machine::Machine;
pub use position::Position;
pub use setup::settles;
pub use test::Test;
pub use thread::{Activity, Frame, Thread, compute};
pub use undo::Undo;

/// The most moves that a bound of schedules or of serial runs may be.
pub const MOST_MOVES: u16 = 256;
