//! The serial runs of a component and a matrix: their histories, or the least serial offence.
//!
//! A schedule is serial where each move that is made while an operation is open is by its thread.
//! It ends where all calls have returned, or where the thread of the open operation is not enabled;
//! it is cut where the open operation has taken as many moves after its call as the bound allows,
//! and its thread is enabled. [`learn`] walks all serial schedules in order and collects their
//! histories (Burckhardt, Dern, Musuvathi and Tan, 2010). It stops at the least serial offence: a
//! schedule that is cut, or one that ends with a history in conflict with that of a smaller one.
//!
//! ```text
//! match learn(alloc, alloc, &component, &matrix, 40)? {
//!     Learnt::Set(histories) => ..,
//!     Learnt::Cut(schedule) => ..,
//!     Learnt::Conflict { schedule, before, earlier } => ..,
//! }
//! ```
#![tactic(auto)]

mod laws;
mod learning;
mod node;
mod outside;
mod walk;

pub use laws::{one_conflict, serial_short};
pub use learning::{Learnt, learn};
pub use outside::{first_outside, first_outside_tree};
