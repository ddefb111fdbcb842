//! Specifications of components: deterministic sets of serial histories, closed under beginnings
//! (Burckhardt, Dern, Musuvathi and Tan, 2010).
//!
//! A [`Spec`] says which serial histories of a matrix are right. [`Spec::closure`] makes one of a
//! set of serial histories, [`read_spec`] of a text, and [`write_spec`] writes it. [`spec_faults`]
//! tells every fault of a text. [`Beginnings`] reads the beginnings of a tree's members from that
//! tree.
//!
//! A [`FreeSpec`] may leave outcomes free: [`collect_free_spec`] reads it of a text whose entries
//! may have the mark `?`, and [`read_given_spec`] reads a text of the one kind or the other, of
//! which [`given_spec_faults`] tells every fault.
//!
//! ```text
//! let spec = read_spec(alloc, &matrix, b"lineup spec 1\nhistory 0=1 1=2\n")?;
//! ```
#![tactic(auto)]

mod beginnings;
mod closing;
mod collecting;
mod fault;
mod faults;
mod firm;
mod fitting;
mod free;
mod free_faults;
mod free_spec;
mod given;
mod history_line;
mod history_set;
pub mod laws;
mod marked_line;
mod reader;
mod spec;
mod writer;

pub use beginnings::Beginnings;
pub use collecting::collect_spec;
pub use fault::{SpecFault, SpecFaultKind, SpecLineFault};
pub use faults::spec_faults;
pub use free::collect_free_spec;
pub use free_faults::{free_spec_faults, given_spec_faults};
pub use free_spec::FreeSpec;
pub use given::{Marks, read_given_spec};
pub use marked_line::{MarkedOp, has_free_entries};
pub use reader::read_spec;
pub use spec::Spec;
pub use writer::write_spec;
