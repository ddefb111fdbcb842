//! Certificates for one round, or any number of rounds: whether all matrices that are unrolled from
//! one are linearizable, and none has a livelock.
//!
//! ```text
//! match certify_rounds(alloc, &component, &matrix, Rounds::Any, 40, budget)? {
//!     RoundsVerdict::Linearizable => ..,
//!     RoundsVerdict::NotLinearizable(moves) => ..,
//!     RoundsVerdict::Livelock(moves) => ..,
//!     RoundsVerdict::Offends => ..,
//!     RoundsVerdict::Undecided => ..,
//! }
//! ```
#![tactic(auto)]

mod certifying;
mod counting;
mod laws;
mod repeating;
mod unrolling;

pub use certifying::{RoundsVerdict, certify_rounds};
pub use counting::unroll_for;
pub use laws::forever_laws;
pub use lu_always::Budget;
pub use repeating::with_rounds;
pub use unrolling::unroll;
