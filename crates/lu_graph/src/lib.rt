//! The graph of a component's states and histories, where it is finite and small.
//!
//! A node is a state, with the history of a schedule that leads there. What counts of the history
//! is only which serial histories can still become witnesses of it: nodes of one state where these
//! are the same are alike, and count as one. Threads that spin have schedules of every length, but
//! mostly they come back to few nodes. So a search goes through one of each kind, breadth first,
//! and judges those that have ended: that tells of each schedule, of any length.
//!
//! The same without histories tells of threads that go on for ever: where from a state none is
//! reached that has ended, no schedule ends.
//!
//! A search can take long. [`ends_well_watched`] and [`first_lost_watched`] ask a watch before each
//! node or state that is gone through, and can be stopped by it; and several threads can find where
//! nodes lead before these are gone through ([`ByThreads`]).
//!
//! ```text
//! match ends_well(alloc, &component, &matrix, &set, 256, DEFAULT_NODES)? {
//!     Ending::Well => ..,
//!     Ending::Badly(moves) => ..,
//!     Ending::TooMany => ..,
//! }
//! match first_lost(alloc, &component, &matrix, DEFAULT_NODES)? {
//!     FirstLost::Never => ..,
//!     FirstLost::First(schedule) => ..,
//!     FirstLost::Unknown => ..,
//! }
//! ```
#![tactic(auto)]

/// How many nodes are mostly kept: where there are this many, they take about 1 GiB. So it is of
/// states, where histories play no part: each takes more, but there are fewer.
pub const DEFAULT_NODES: u32 = 8_388_608;

mod alive;
mod discovering;
mod edge;
mod ending;
mod expanders;
mod expanding;
mod exploring;
mod exploring_states;
mod growing;
mod guards;
mod halted;
mod holding;
mod judging;
mod laws;
mod level;
mod listing;
mod losing;
mod lost;
mod marking;
mod members;
mod possibilities;
mod row;
mod row_table;
mod standing;
mod tables;
mod traversal;

pub use ending::Ending;
pub use expanders::{Alone, ByThreads, Expanders, Helpers};
pub use exploring::{ends_well, ends_well_watched};
pub use growing::{Turns, turns_at};
pub use guards::Guards;
pub use halted::{Halted, unhalted};
pub use laws::{alike_laws, first_law, guard_law, hopeless_law, precedence_law};
pub use losing::{first_lost, first_lost_watched};
pub use lost::FirstLost;
pub use lu_tree::{Unwatched, Watch};
