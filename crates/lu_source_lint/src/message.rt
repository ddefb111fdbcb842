//! What is said of a line of a source.

use lu_source_text::SourceFaultKind;

/// What is odd in a source without faults.
#[derive(Clone, Copy, Debug, Drop, PartialEq, Eq)]
pub enum Warning {
    /// A local that nothing reads.
    UnusedLocal,

    /// A shared word that nothing reads.
    UnusedWord,

    /// A loop that never ends, and that others see nothing of.
    EndlessLoop,

    /// A loop that reads shared words over and over until another thread changes one.
    SpinningLoop,

    /// An `await` that compares with a condition that has no parentheses around it.
    AwaitedCondition,

    /// A `+=` or `-=` of a shared word that another line updates atomically.
    PlainUpdate,
}

/// What is said of a line.
#[derive(Clone, Copy, Debug, Drop, PartialEq, Eq)]
pub enum What {
    Fault(SourceFaultKind),
    Warning(Warning),
}

/// What is said of a line of a source.
#[derive(Clone, Copy, Debug, Drop, PartialEq, Eq)]
pub struct SourceMessage {
    /// The number of the line, from 1; of a fault at the end of the text, the number of lines
    /// plus one.
    pub line: usize,

    pub what: What,
}
