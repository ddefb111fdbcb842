//! What a campaign of certificates finds.

use lu_certify::Certificate;
use lu_test::Matrix;

/// What a campaign of certificates finds.
#[derive(Drop)]
pub enum CertifiedCampaign {
    /// On every matrix the component is linearizable: how many there are.
    AllLinearizable(u64),

    /// The first matrix whose certificate says otherwise, with that certificate.
    First {
        matrix: Matrix,
        certificate: Certificate,
    },
}
