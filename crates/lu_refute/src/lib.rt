//! Whatever deterministic specification somebody has in mind, a failure refutes it (Burckhardt,
//! Dern, Musuvathi and Tan, 2010).
#![tactic(auto)]

mod fault;
pub mod laws;
mod refuting;
mod shortest;

pub use fault::RefuteFault;
pub use refuting::refute;
