//! Surveys of slices of a campaign.

ghost use Rattle.std.specs.Prelude.{IfOk, IfErr};
ghost use Rattle.lu_refine.specs.ByThread.{CanAsk, IsRolesFault, asked_of};
ghost use Rattle.lu_survey.specs.Surveys.{AreShownOf, IsSurveyAnswer};

use crate::certifying::certified_at;
use crate::survey::Survey;
use lu_refine::{CampaignFault, CampaignProgress, Roles, Unshown, count_matrices};
use std::alloc::Global;

/// Certifies the matrices with the numbers `from` to `to - 1`, as
/// [`certify_slice`](crate::certify_slice) does, and goes on after each: how many there are of
/// each kind of certificate, and the first of each kind. Slices that follow one another say
/// together what one slice says ([`surveys_join`](crate::laws::surveys_join)).
///
/// # Errors
///
/// Those of [`campaign_by_thread`](lu_refine::campaign_by_thread).
pub fn survey_slice(
    alloc: Global,
    roles: Roles<'_>,
    nodes: u32,
    from: u64,
    to: u64,
) -> Result<Survey, CampaignFault>
    requires { CanAsk (asked_of roles) }
    ensures answer { IfOk result (IsSurveyAnswer (asked_of roles.entry) nodes from to) }
    ensures of { IfOk result (AreShownOf roles.entry.component.now) }
    ensures fault { IfErr result (IsRolesFault roles.entry.candidates.now roles.entry.calls) }
{
    survey_slice_with_progress(alloc, &Unshown, roles, nodes, from, to)
}

/// The same as [`survey_slice`], which tells `progress` meanwhile how far it has come.
///
/// # Errors
///
/// Those of [`campaign_by_thread`](lu_refine::campaign_by_thread).
pub fn survey_slice_with_progress<P: CampaignProgress>(
    alloc: Global,
    progress: &P,
    roles: Roles<'_>,
    nodes: u32,
    from: u64,
    to: u64,
) -> Result<Survey, CampaignFault>
    requires { CanAsk (asked_of roles) }
    ensures answer { IfOk result (IsSurveyAnswer (asked_of roles.entry) nodes from to) }
    ensures of { IfOk result (AreShownOf roles.entry.component.now) }
    ensures fault { IfErr result (IsRolesFault roles.entry.candidates.now roles.entry.calls) }
{
    let count = count_matrices(alloc, roles.candidates, roles.calls)?;
    let end = to.min(count);
    let start = from.min(end);
    progress.begin(end - start);
    let mut survey = Survey::none();
    for number in start..end {
        let one = certified_at(alloc, roles, nodes, number)?;
        survey = survey.with(one);
        progress.next();
    }
    Ok(survey)
}
