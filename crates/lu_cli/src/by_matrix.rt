//! How far a campaign has come, told as a certificate tells it.

use lu_certify::Progress;
use lu_refine::CampaignProgress;

/// Tells of matrices what a certificate tells of cuts.
#[derive(Drop)]
pub(crate) struct ByMatrix<'p, P> {
    pub(crate) progress: &'p P,
}

impl<'p, P: Progress> CampaignProgress for ByMatrix<'p, P> {
    fn begin(&self, matrices: u64) {
        self.progress.begin(matrices);
    }

    fn next(&self) {
        self.progress.done(0);
    }
}
