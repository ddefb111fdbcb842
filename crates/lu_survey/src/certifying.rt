//! Slices of a campaign whose matrices are certified.

ghost use Rattle.std.specs.Prelude.{◌↔◌, ◌<◌, IsTrue, IfOk, IfErr};
ghost use Rattle.lu_refine.specs.ByThread.{CanAsk, IsRolesFault, asked_of, matrix_count};
ghost use Rattle.lu_refine.specs.Roles.{AreWithinLimits};
ghost use Rattle.lu_survey.specs.Certified.{IsCertifiedAnswer, IsCertifiedOf, SaysLinearizable};
ghost use Rattle.lu_survey.specs.Surveys.{IsCertifiedAt, IsShownOf};

use crate::certified_campaign::CertifiedCampaign;
use crate::survey::CertifiedMatrix;
use lu_certify::{Certificate, Limits, certify};
use lu_refine::{CampaignFault, CampaignProgress, Roles, Unshown, count_matrices, matrix_at};
use std::alloc::{AllocError, Global};

/// Whether it certifies that the component is linearizable.
fn says_linearizable(certificate: &Certificate) -> bool
    ensures { IsTrue result ↔ SaysLinearizable certificate.now }
{
    match certificate {
        Certificate::Linearizable(_) => true,
        Certificate::NotLinearizable { .. } => false,
        Certificate::Livelock { .. } => false,
        Certificate::Undecided { .. } => false,
    }
}

/// The matrix with this number, in the order of a campaign, with its certificate. Asks for what
/// [`matrix_at`] asks for.
pub(crate) fn certified_at(
    alloc: Global,
    roles: Roles<'_>,
    nodes: u32,
    number: u64,
) -> Result<CertifiedMatrix, AllocError>
    requires asked { CanAsk (asked_of roles) }
    requires limits { AreWithinLimits roles.calls roles.candidates.now }
    requires number { number < matrix_count (asked_of roles) }
    ensures certified { IfOk result (IsCertifiedAt (asked_of roles.entry) nodes number) }
    ensures shown { IfOk result (IsShownOf roles.entry.component.now) }
{
    let matrix = matrix_at(alloc, roles, number)?;
    let limits = Limits {
        bound: roles.bound,
        serial: roles.serial,
        nodes,
    };
    let certificate = certify(alloc, roles.component, &matrix, limits)?;
    Ok(CertifiedMatrix {
        matrix,
        certificate,
    })
}

/// Certifies some of the matrices of [`campaign_by_thread`](lu_refine::campaign_by_thread), within
/// the bounds of the roles and with at most this many nodes of each cut: those with the numbers
/// `from` to `to - 1` in its order, counted from 0; a `to` past the last matrix is the end. Returns
/// the first of them whose certificate says anything but that the component is linearizable, with
/// that certificate, or how many they are: 0 where `from` is not below `to` or not below the number
/// of matrices. Slices that follow one another say together what one slice says
/// ([`certified_join`](crate::laws::certified_join)).
///
/// # Errors
///
/// Those of [`campaign_by_thread`](lu_refine::campaign_by_thread).
pub fn certify_slice(
    alloc: Global,
    roles: Roles<'_>,
    nodes: u32,
    from: u64,
    to: u64,
) -> Result<CertifiedCampaign, CampaignFault>
    requires { CanAsk (asked_of roles) }
    ensures answer { IfOk result (IsCertifiedAnswer (asked_of roles.entry) nodes from to) }
    ensures of { IfOk result (IsCertifiedOf roles.entry.component.now) }
    ensures fault { IfErr result (IsRolesFault roles.entry.candidates.now roles.entry.calls) }
{
    certify_slice_with_progress(alloc, &Unshown, roles, nodes, from, to)
}

/// The same as [`certify_slice`], which tells `progress` meanwhile how far it has come.
///
/// # Errors
///
/// Those of [`campaign_by_thread`](lu_refine::campaign_by_thread).
pub fn certify_slice_with_progress<P: CampaignProgress>(
    alloc: Global,
    progress: &P,
    roles: Roles<'_>,
    nodes: u32,
    from: u64,
    to: u64,
) -> Result<CertifiedCampaign, CampaignFault>
    requires { CanAsk (asked_of roles) }
    ensures answer { IfOk result (IsCertifiedAnswer (asked_of roles.entry) nodes from to) }
    ensures of { IfOk result (IsCertifiedOf roles.entry.component.now) }
    ensures fault { IfErr result (IsRolesFault roles.entry.candidates.now roles.entry.calls) }
{
    let count = count_matrices(alloc, roles.candidates, roles.calls)?;
    let end = to.min(count);
    let start = from.min(end);
    progress.begin(end - start);
    for number in start..end {
        let one = certified_at(alloc, roles, nodes, number)?;
        if !says_linearizable(&one.certificate) {
            let CertifiedMatrix {
                matrix,
                certificate,
            } = one;
            return Ok(CertifiedCampaign::First {
                matrix,
                certificate,
            });
        }
        progress.next();
    }
    Ok(CertifiedCampaign::AllLinearizable(end - start))
}
