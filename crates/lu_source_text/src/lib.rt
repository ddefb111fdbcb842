//! Texts of sources: what they say, line by line, and the components that they stand for.
#![tactic(auto)]

mod begins;
mod blocks;
mod closing;
mod constants;
mod declaration;
mod depth;
mod draft;
mod expression;
mod fault;
mod folding;
mod infix;
mod laws;
mod names;
mod origins;
mod reading;
mod scope;
mod simple;
mod source;
mod statement;
mod updates;
mod words;

pub use begins::is_source;
pub use depth::{MOST_NESTING, nesting};
pub use fault::{SourceFault, SourceFaultKind};
pub use laws::reader_laws;
pub use names::is_free_name;
pub use origins::source_origins;
pub use reading::{compile_text, read_source, read_source_lines};
pub use source::Source;
pub use words::{source_words, statements_of};
