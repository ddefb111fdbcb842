//! Linearizability and livelocks of all matrices that are unrolled from one: each thread repeats its
//! line of calls any number of times, and may stop anywhere.
//!
//! A node is a state of the client with a monitor. [`find_verdict`] searches all nodes, given a
//! table of the serial histories.
#![tactic(auto)]

mod budget;
mod clearing;
mod following;
mod given;
mod judging;
mod laws;
mod livelock;
mod monitors;
mod nodes;
mod rows;
mod searching;
mod sinks;
mod standing;
mod stepping;
mod steps;
mod stored;
mod tables;
mod verdicts;
mod ways;

pub use budget::Budget;
pub use following::after_move;
pub use judging::is_good;
pub use laws::{
    always_laws, livelock_laws, node_laws, one_round_laws, step_laws, step_livelock_laws,
};
pub use searching::find_verdict;
pub use stepping::client_step;
pub use stored::Arrival;
pub use verdicts::Verdict;
