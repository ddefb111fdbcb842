//! How far a check has come, told as a certificate tells it.

use lu_certify::Progress;
use lu_parallel::Gate;

/// Tells of pieces what a certificate tells of cuts, and how many schedules are judged.
#[derive(Drop)]
pub(crate) struct ShownGate<'p, P> {
    pub(crate) progress: &'p P,
}

impl<'p, P: Progress> Gate for ShownGate<'p, P> {
    fn pass(&self, _worker: u8, _piece: u64) {}

    fn done(&self, _worker: u8, _piece: u64) {
        self.progress.done(0);
    }

    fn begin(&self, pieces: u64) {
        self.progress.begin(pieces);
    }

    fn judge(&self, schedules: u64) {
        self.progress.judge(schedules);
    }
}
