//! The tree of the schedules of a component and a matrix.
//!
//! A schedule is ended where no thread is enabled, and cut where it has as many moves as the bound
//! and a thread is enabled. An ended one is complete where all calls have returned, and else stuck.
//! A complete schedule is good where its history has a serial witness in the set; a stuck one
//! where, for each pending call, its history without the other pending calls has one (Burckhardt,
//! Dern, Musuvathi and Tan, 2010).
//!
//! [`search`] walks the schedules that begin with a given one, in order, and judges each ended one:
//! it returns the least that is not good, or how many schedules are complete, stuck and cut.
//! [`frontier`] of lu_pieces cuts the tree into pieces, each of which can be searched by itself.
//!
//! ```text
//! match search(alloc, &component, &matrix, &&set, &from, 40)? {
//!     Found::Clean(counts) => ..,
//!     Found::Bad { schedule, why } => ..,
//! }
//! ```
#![tactic(auto)]

mod access;
mod commuting;
mod every_order;
mod found;
mod halt;
mod known;
mod lookahead;
mod node;
mod progress;
mod searcher;
mod searching;
mod space;
mod tables;
mod tail;
mod tail_question;
mod thread_set;
mod walk;
mod watch;

pub use found::Found;
pub use lu_pieces::{MOST_DEPTH, frontier};
pub use searcher::Searcher;
pub use searching::{search, search_watched};
pub use space::SearchSpace;
pub use watch::{Unwatched, Watch};
