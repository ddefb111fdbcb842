//! Checks of a component and a matrix, by one worker and by many.
//!
//! A check learns the serial histories of the matrix. Without a serial offence it judges each
//! schedule that ends within a bound (Burckhardt, Dern, Musuvathi and Tan, 2010). [`check_one`]
//! does all on the calling thread. [`check`] has as many workers as its options say: they claim
//! pieces of the tree of schedules from a board, and [`conclude`] tells what they found together.
//! The report is the same for any number of workers. [`check_one_against`] and [`check_against`]
//! learn nothing: they judge the schedules against the set of a tree that is given, as that of a
//! specification.
//!
//! ```text
//! let options = Options::new(40, 40, 4, 6)?;
//! let report = check(&rt, alloc, &OpenGate, &component, &matrix, options)?;
//! ```
//!
//! [`work`] is the life of one worker. Threads of a caller's own can run it over the pieces of a
//! frontier, and [`conclude`] then tells the same.
#![tactic(auto)]

mod checks;
mod conclusion;
mod counting;
mod fault;
mod gate;
mod head_start;
pub mod laws;
mod one_thread;
mod options;
mod seat_watch;
mod worker;
mod worker_threads;
mod works;

pub use checks::{check, check_against};
pub use conclusion::conclude;
pub use fault::CheckFault;
pub use gate::{Gate, OpenGate};
pub use one_thread::{check_one, check_one_against};
pub use options::Options;
pub use worker::work;
pub use works::{FoundPiece, Work};
