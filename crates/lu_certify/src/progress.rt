//! How far a command has come.

/// Is shown how far a command has come, by whichever thread gets on with it.
pub trait Progress: Sync {
    /// There are this many parts: cuts of a certificate, matrices of a campaign, or pieces of the
    /// tree of schedules.
    fn begin(&self, parts: u64);

    /// One more node of some cut is kept: a state with the serial histories that can still become
    /// witnesses; or a state alone, where a livelock is sought.
    fn keep(&self);

    /// A part is done. If it is a cut, this many nodes of it are freed.
    fn done(&self, nodes: u64);

    /// A search of all cuts has found this many nodes, and looked at this many of them.
    fn nodes(&self, _looked_at: u64, _found: u64) {}

    /// This many more schedules are judged.
    fn judge(&self, _schedules: u64) {}

    /// There is an answer, or none, since memory or a thread was refused. Whether it is that the
    /// component is undecided.
    fn end(&self, is_undecided: bool);
}

/// Shows it to nobody.
#[derive(Clone, Copy, Debug, Drop)]
pub struct Silent;

impl Progress for Silent {
    fn begin(&self, _cuts: u64) {}

    fn keep(&self) {}

    fn done(&self, _nodes: u64) {}

    fn end(&self, _is_undecided: bool) {}
}
