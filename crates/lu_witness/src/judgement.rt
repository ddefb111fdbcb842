//! What a history's witnesses come to.

/// Whether a history has its serial witnesses.
#[derive(Clone, Copy, Debug, PartialEq, Eq, Hash)]
pub enum Verdict {
    /// It has a witness where no call is pending, and else one for each pending call.
    Good,

    /// No call is pending, and it has no witness.
    NoWitness,

    /// Calls are pending, and this thread, from 0, is the least whose pending call has no witness.
    NoWitnessFor(u8),
}

/// Why a schedule fails.
#[derive(Clone, Copy, Debug, PartialEq, Eq, Hash)]
pub enum Why {
    /// It is complete, and its history has no witness.
    Complete,

    /// It is stuck, and this thread, from 0, is the least whose pending call has no witness.
    Stuck(u8),
}
