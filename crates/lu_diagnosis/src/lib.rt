//! What people are told of a fault, beside the explanation of its history.
//!
//! [`write_what_happened`] says in one sentence why no serial history explains a history. It names
//! the precedence that [`broken_precedence`] gives, where some order has the outcomes.
//! [`write_conflict`] shows two serial runs that make the same calls and differ in the outcome of
//! the last. [`write_next_steps`] says what each thread can do next after a schedule.
//!
//! ```text
//! this serial run
//!   T0 put 1  # ret 0
//!   T1 take  # ret 1
//! another serial run
//!   T0 put 1  # ret 0
//!   T1 take  # stuck
//! after T0 put 1, T1 take returns 1 in this serial run and blocks in another
//! ```
#![tactic(auto)]

mod laws;
mod next_steps;
mod sentences;
mod serial_runs;
mod writing;

pub use laws::conflict_laws;
pub use next_steps::write_next_steps;
pub use sentences::{broken_precedence, write_what_happened};
pub use serial_runs::{serial_history, write_conflict};
