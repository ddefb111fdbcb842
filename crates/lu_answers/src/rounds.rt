//! How often threads make their lines of calls.

/// How often each thread makes its line of calls. It may stop anywhere.
#[derive(Clone, Copy)]
pub enum Rounds {
    /// Once.
    One,

    /// Any number of times.
    Any,
}
