//! Replays of schedules, and what the report of a component and a matrix is.
//!
//! [`replay`] says what a schedule of a component and a matrix shows. [`confirm`] says whether a
//! run shows what a report says.
//!
//! ```text
//! let shown = replay(alloc, &component, &matrix, &schedule)?;
//! let text = write_replay(alloc, &shown)?;
//! let shown_so = confirm(alloc, &component, &matrix, &report)?;
//! ```
#![tactic(auto)]

mod confirming;
mod fault;
pub mod laws;
mod offence;
mod player;
mod shown;
mod text;

pub use confirming::{confirm, confirm_against};
pub use fault::ReplayFault;
pub use laws::{all_confirmed, ended_apart, one_report, replay_laws, serial_short};
pub use lu_report::{Report, read_report, write_report};
pub use offence::graph_or_offence;
pub use player::replay;
pub use shown::Replay;
pub use text::write_replay;
