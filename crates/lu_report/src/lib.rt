//! Reports of checks, and their text.
//!
//! A [`Report`] says what a check found, and has one text. [`report_faults`] tells every fault of a
//! text.
//!
//! ```text
//! let report = read_report(alloc, text)?;
//! let text = write_report(alloc, &report)?;
//! ```
#![tactic(auto)]

mod bounds;
mod fault;
mod faults;
mod form;
pub mod laws;
mod line;
mod reader;
mod report;
mod version;
mod writer;

pub use bounds::Bounds;
pub use fault::{ReportFault, ReportFaultKind};
pub use faults::{ReportLineFault, report_faults};
pub use form::LineForm;
pub use lu_machine::MOST_MOVES;
pub use reader::read_report;
pub use report::{Finding, Report};
pub use writer::write_report;
