//! Traces of schedules: what each move of a run does, for people to read.
//!
//! [`write_trace`] plays a schedule of a component and a matrix, and writes a line for each step.
//! Each thread has a column of its own, so that it is seen how their steps interleave.
//! [`write_trace_from_setup`] begins before, with what the calls of the matrix's setup do and
//! leave. A component is shown with the labels that its text has, and one that was compiled from a
//! source by the source's lines and names, with [`write_worded_trace`] and a [`Wording`]; a
//! [`Detail`] says which steps are shown.
//!
//! ```text
//! trace complete
//!    0 T0 call inc
//!    1 T0 load r0 count 0  # r0 = 0
//!    2                         T1 call inc
//!    3                         T1 load r0 count 0  # r0 = 0
//! ```
#![tactic(auto)]

mod detail;
mod effects;
mod fault;
mod laws;
mod lines;
mod setup;
mod tracing;
mod waiting;
mod wording;

pub use detail::Detail;
pub use fault::TraceFault;
pub use laws::trace_laws;
pub use lines::write_step;
pub use setup::{write_trace_from_setup, write_worded_trace_from_setup};
pub use tracing::{write_trace, write_worded_trace};
pub use waiting::write_awaited;
pub use wording::Wording;
