//! Whether a component can show what was recorded of real code.
//!
//! A recorded history says what a run of real code did. Where some schedule of a component leads
//! there, the component's text shows it too, and that schedule says how it came about. Where none
//! does, of any length, the text is no model of that code: what is said of the text says nothing of
//! it. This is conformance testing (Tretmans, 1996), and the validation of traces against a
//! specification (Cirstea, Kuppe, Loillier and Merz, 2024).
//!
//! ```text
//! match conformance(alloc, &component, &matrix, &recorded)? {
//!     Conformance::Conforms(schedules) => ..,
//!     Conformance::NoneShows(number) => ..,
//!     Conformance::Undecided(number) => ..,
//! }
//! ```
#![tactic(auto)]

mod conforming;
mod ending;
mod following;
mod growing;
mod kept;
mod laws;
mod packing;
mod searching;
mod shown;
mod ways;

pub use conforming::conformance;
pub use laws::{stage_law, stretching_laws};
pub use searching::shown_by;
pub use shown::{Conformance, Shown};
