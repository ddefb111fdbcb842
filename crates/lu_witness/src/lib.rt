//! Serial witnesses of histories (Burckhardt, Dern, Musuvathi and Tan, 2010).
//!
//! A serial history is a witness of a history where each thread has the same outcomes in both, in
//! order, and where an operation that precedes another one in the history stands before it.
//! [`has_witness`] searches a set of serial histories for one; [`verdict`] says whether a history
//! has all the witnesses that it needs. A [`Cache`] remembers the verdicts that were asked for
//! last.
//!
//! ```text
//! match verdict(&&set, &history) {
//!     Verdict::Good => {}
//!     Verdict::NoWitness => {}
//!     Verdict::NoWitnessFor(thread) => {}
//! }
//! ```
#![tactic(auto)]

mod cache;
mod judgement;
mod judging;
mod kept;
mod search;

pub use cache::Cache;
pub use judgement::{Verdict, Why};
pub use judging::verdict;
pub use search::has_witness;
