//! Certificates: whether a component is linearizable on a matrix, decided by checks.
//!
//! A pass of one check speaks of the schedules within its bound. A cut of the matrix has of each
//! thread some of its first calls. Where each cut passes and no schedule is cut, the component is
//! linearizable (Herlihy and Wing, 1990; Burckhardt, Dern, Musuvathi and Tan, 2010): its own serial
//! histories are the specification. Where a cut fails, it is linearizable by no deterministic set.
//! And where a schedule leads to a state from which none ends, the component has a livelock.
//!
//! ```text
//! let limits = Limits { bound: 256, serial: 256, nodes: DEFAULT_NODES };
//! let certificate = certify(alloc, &component, &matrix, limits)?;
//! ```
//!
//! [`certify`] does all on the calling thread. [`certify_by_workers`] has as many workers as its
//! options say. [`certify_with_progress`] reports meanwhile how far it has come.
#![tactic(auto)]

mod asked;
mod by_nodes;
mod certificate;
mod certifying;
mod claims;
mod cut_watch;
mod cuts;
mod judged;
mod judging;
mod known;
pub mod laws;
mod limited;
mod limits;
mod livelock;
mod looked;
mod looking;
mod progress;
mod sharing;
mod so_far;
mod workers;

pub use certificate::Certificate;
pub use certifying::certify;
pub use limits::Limits;
pub use lu_graph::DEFAULT_NODES;
pub use progress::{Progress, Silent};
pub use workers::{certify_by_workers, certify_with_progress};
