//! Histories of concurrent operations.
//!
//! A [`History`] is the list of the calls and returns of up to 8 threads with up to 8 calls each,
//! in the order in which they happened. An operation precedes another one in it where it returns
//! before the other is called (Herlihy and Wing, 1990). A serial history, a list of [`SerialOp`],
//! is what the same threads did one operation at a time; its last operation may be stuck
//! (Burckhardt, Dern, Musuvathi and Tan, 2010).
//!
//! ```text
//! let mut history = History::new(alloc);
//! history.push(Event::Call { t: 0, k: 0 })?;
//! history.push(Event::Return { t: 0, k: 0, outcome: Outcome::Ret(1) })?;
//! ```
#![tactic(auto)]

mod fault;
mod history;
mod operation;
mod serial;
mod text;

pub use fault::HistoryFault;
pub use history::History;
pub use operation::OpId;
pub use serial::{SerialOp, SerialOutcome};
pub use text::write_history;
