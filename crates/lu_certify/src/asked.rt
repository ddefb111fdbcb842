//! What is asked of a cut.

/// What is asked of a cut, besides whether it fails.
#[derive(Clone, Copy)]
pub(crate) enum Asked {
    /// Its livelock, and whether it is clear.
    Clearness,

    /// Its livelock.
    LivelockOnly,

    /// Nothing.
    FailureOnly,
}
