//! How far a campaign has come.

/// Is shown how far a campaign has come.
pub trait CampaignProgress {
    /// There are this many matrices to try.
    fn begin(&self, matrices: u64);

    /// One more matrix was tried, and the campaign goes on.
    fn next(&self);
}

/// Shows it to nobody.
#[derive(Clone, Copy, Debug, Drop)]
pub struct Unshown;

impl CampaignProgress for Unshown {
    fn begin(&self, _matrices: u64) {}

    fn next(&self) {}
}
