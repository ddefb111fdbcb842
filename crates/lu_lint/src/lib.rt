//! Every fault of a bundle.
#![tactic(auto)]

mod bundle;
mod component;
mod further;
mod histories;
mod laws;
mod linting;
mod matrix;
mod part_kind;
mod remark;
mod report;
mod runs;
mod schedule;
mod serial_runs;
mod setup_run;
mod signatures;
mod specification;
mod step_count;
mod warning;
mod words;
mod writing;

pub use laws::agree;
pub use linting::{LintOptions, Linted, have_fault, lint};
pub use remark::{Cause, Ending, FaultKind, Hint, Operations, Remark, RunHint, Said, SerialHint};
pub use runs::MatrixRuns;
pub use serial_runs::operation_count;
pub use step_count::MOST_STEPS;
pub use words::Wording;
pub use writing::write_remarks;
