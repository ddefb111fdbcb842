//! Runs: histories that were recorded of real code, with any number of calls.
#![tactic(auto)]

mod asking;
mod automaton;
mod bundled;
mod checking;
mod ending;
mod fault;
mod finding;
mod first_word;
mod following;
mod judging;
mod likely;
mod ordering;
mod reading;
mod run;
mod setup;
mod starting;
mod table;
mod verdicts;
mod words;
mod writing;

pub use bundled::{RunPartFault, read_runs};
pub use checking::{are_calls_of, is_run};
pub use fault::{RunFault, RunFaultKind};
pub use first_word::is_run_text;
pub use judging::{RunFailure, RunVerdict, judge_run};
pub use ordering::{RunOperation, find_order_before};
pub use reading::read_run;
pub use run::{Run, RunEvent};
pub use setup::read_setup;
pub use verdicts::{first_failing, write_failing, write_reason};
pub use writing::write_run;
