//! Campaigns that say what their passes are: each matrix is certified.
//!
//! A campaign of checks counts as a pass a matrix of which all schedules were cut.
//! [`certify_slice`] asks for more: on each matrix the component is linearizable, by its
//! certificate (Herlihy and Wing, 1990; Burckhardt, Dern, Musuvathi and Tan, 2010).
//! [`survey_slice`] goes on after one on which it is not: it tells how many matrices have a
//! certificate of each kind. [`compare_slice`] holds a component against a trusted one, which says
//! what its serial histories are to be.
//!
//! ```text
//! match certify_slice(alloc, roles, DEFAULT_NODES, 0, u64::MAX)? {
//!     CertifiedCampaign::AllLinearizable(count) => ..,
//!     CertifiedCampaign::First { matrix, certificate } => ..,
//! }
//! ```
#![tactic(auto)]

mod certified_campaign;
mod certifying;
mod comparing;
mod comparison;
pub mod laws;
mod operations;
mod serially;
mod survey;
mod surveying;

pub use certified_campaign::CertifiedCampaign;
pub use certifying::{certify_slice, certify_slice_with_progress};
pub use comparing::{compare_slice, compare_slice_with_progress};
pub use comparison::{Comparison, Difference};
pub use operations::have_same_operations;
pub use survey::{CertifiedMatrix, Survey, Tally};
pub use surveying::{survey_slice, survey_slice_with_progress};
