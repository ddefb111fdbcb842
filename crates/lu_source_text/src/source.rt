//! Sources that are read.

use lu_component::Array;
use lu_source::Operation;
use lu_text::Name;

/// What the text of a source declares.
#[derive(Debug, Drop)]
pub struct Source {
    pub name: Name,

    /// How many local steps follow a move, 0 to 16.
    pub local: u8,
    pub arrays: Vec<Array>,
    pub locks: Vec<Name>,
    pub operations: Vec<Operation>,
}
