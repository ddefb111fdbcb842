//! Small tests that fail: matrices with fewer calls, and all small matrices. Specifications that
//! results are held against.
//!
//! [`shrink`] takes calls away from a matrix that fails, one after the other, as long as it goes on
//! failing. [`campaign`] tries all matrices of a size over some calls, and returns the first that
//! does not pass. Both stand on checks of one matrix (Burckhardt, Dern, Musuvathi and Tan, 2010).
//! [`campaign_by_thread`] does so where each thread has calls of its own to choose from, as the
//! owner and the thieves of a deque; [`campaign_slice`] tries a part of its matrices, so that
//! several processors can share them.
//!
//! ```text
//! let (smaller, report) = shrink(alloc, &component, &matrix, 40, 40)?;
//! ```
#![tactic(auto)]

mod arena;
mod campaign_progress;
mod campaigning;
mod campaigns;
mod choice;
pub mod laws;
mod roles;
mod shrink_fault;
mod shrinking;

pub use campaign_progress::{CampaignProgress, Unshown};
pub use campaigning::{
    campaign, campaign_by_thread, campaign_by_thread_with_progress, campaign_slice,
    campaign_slice_with_progress, count_matrices, matrix_at,
};
pub use campaigns::{Campaign, CampaignFault};
pub use choice::same_lists;
pub use lu_refute::{RefuteFault, refute};
pub use lu_spec::{Spec, SpecFault, SpecFaultKind, read_spec, write_spec};
pub use roles::Roles;
pub use shrink_fault::ShrinkFault;
pub use shrinking::shrink;
