//! Where the instructions of a compiled component come from.

use lu_text::Name;

/// Where an instruction comes from.
#[derive(Drop)]
pub struct Origin {
    /// The number of its line in the source, from 1.
    pub line: usize,

    /// The locals that are in scope after that line, by their registers.
    pub locals: Vec<Name>,
}

/// Where the instructions of a component come from that was compiled from a source, and how the
/// source writes its shared words.
#[derive(Drop)]
pub struct Origins {
    /// Those of each operation, in the order of its code.
    pub operations: Vec<Vec<Origin>>,

    /// Of each array, whether it is written with an index.
    pub indexed: Vec<bool>,
}
