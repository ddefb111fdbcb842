//! Gates that workers pass.

/// What a check tells as it goes on. Workers and pieces are numbered from 0. A worker that was
/// refused memory tells nothing of the pieces that it claims later.
pub trait Gate: Sync {
    /// The worker has claimed the piece, and goes on when the call returns.
    fn pass(&self, worker: u8, piece: u64);

    /// The worker is done with the piece: it was skipped, found bad, found clean or given up.
    fn done(&self, worker: u8, piece: u64);

    /// Workers are about to start, and there are this many pieces.
    fn begin(&self, _pieces: u64) {}

    /// This many more schedules are judged, by whichever thread. The last few are not told.
    fn judge(&self, _schedules: u64) {}
}

/// A gate that returns at once.
#[derive(Clone, Copy, Debug, Drop)]
pub struct OpenGate;

impl Gate for OpenGate {
    fn pass(&self, _worker: u8, _piece: u64) {}

    fn done(&self, _worker: u8, _piece: u64) {}
}
