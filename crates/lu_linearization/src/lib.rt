//! Linearizations of a history, and a monitor that follows them event by event.
//!
//! A linearization of a history is a serial history with all operations that have returned, and
//! some that are pending (Herlihy and Wing, 1990). What matters of it for the events to come is
//! its configuration: the state to which it leads an automaton, and the outcomes of the pending
//! operations that have taken effect in it.
#![tactic(auto)]

mod automaton;
mod closing;
mod configuration;
mod laws;
mod monitor;
mod returned;
mod stuck;

pub use automaton::{Automaton, SerialReader};
pub use configuration::Configuration;
pub use laws::{
    SerialAutomaton, SerialSet, configuration_laws, linearization_laws, monitor_laws, verdict_laws,
};
pub use monitor::Monitor;
