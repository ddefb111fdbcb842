//! What is asked of the last moves of a run.

use lu_horizon::Sharers;

/// How one end tells that all ends are good.
#[derive(Clone, Copy)]
pub(crate) enum Judging {
    /// By its verdict, which is that of all where no call is opened any more.
    OneVerdict,

    /// By its operations: the set has them in every order, after this many first ones to return.
    EveryOrder(usize),
}

/// What is asked of the last moves of a run.
#[derive(Clone, Copy)]
pub(crate) struct TailQuestion {
    pub(crate) sharers: Sharers,
    pub(crate) judging: Judging,
}
