//! Pieces of work that workers claim from a shared board of four words, which keeps the least piece
//! that was found bad.
//!
//! A [`Board`] has pieces numbered from 0, and a [`Seat`] for each worker. A worker
//! claims a piece with its seat, looks now and then whether the piece is still worth its work, and
//! says at last what came of it. Each of these calls is at most one atomic step on one word, waits
//! for nobody and takes no memory. When all is done, the board tells the least piece that was found
//! bad, and whether any was given up.
//!
//! ```text
//! let (board, mut seats) = Board::new(alloc, pieces, workers)?;
//! while let Some(piece) = board.claim(&mut seat) {
//!     if let Look::Skip(_) = board.look(&mut seat, piece) {
//!         continue;
//!     }
//!     if is_bad(piece) {
//!         board.lower(&mut seat, piece);
//!     } else {
//!         board.settle(&mut seat, piece, Kind::Clean);
//!     }
//! }
//! let close = board.finish(seats);
//! ```
//!
//! [`board_core`] has the same events as a pure machine, for every list of them. What an event does
//! to the view of its seat stands once, in `specs/Events.antt`, for both.
#![tactic(auto)]

pub mod board_core;
mod laws;
mod shared;
pub mod view;

pub use laws::{done_is_least_bad, legal_events_fit};
pub use shared::{Board, Close, Seat};
pub use view::{Kind, Look};
