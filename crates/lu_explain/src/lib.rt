//! Why a history has no serial witness.
//!
//! A partial witness of a history is a beginning of a serial history in which each thread has the
//! outcomes with which its part of the history begins, and an operation comes only after all that
//! precede it. [`explain`] finds the longest one, and says of each thread that has operations left
//! why the next of them can't come next. Where there is a witness, that is one. [`any_order`] asks
//! whether any order of the calls has the history's outcomes, precedence aside.
//!
//! ```text
//! let explanation = explain(&&set, &history);
//! for op in explanation.order() {}
//! match explanation.reason(0) {
//!     None => {}
//!     Some(Reason::After(a)) => {}
//!     Some(Reason::Outcome(outcome)) => {}
//!     Some(Reason::Nothing) => {}
//! }
//! ```
#![tactic(auto)]

mod blocks;
mod explaining;
mod explanation;
mod laws;
mod least_order;
mod left_calls;
mod moves;
mod operations;
mod order_writing;
mod orders;
mod search;
mod subject;
mod writing;

pub use blocks::write_explanations;
pub use explaining::explain;
pub use explanation::{Explanation, Reason};
pub use laws::{any_order_laws, explanation_laws, witness_laws};
pub use moves::event_moves;
pub use orders::{AnyOrder, Precedence, any_order};
pub use writing::{count, write_explanation, write_outcome, write_reason};
