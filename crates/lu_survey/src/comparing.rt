//! Slices of a campaign in which a component is held against a trusted one.

ghost use Rattle.std.specs.Prelude.{◌≤◌, ◌↔◌, IfOk, IfErr};
ghost use Rattle.lu_machine.specs.Starts.{CanRun};
ghost use Rattle.lu_report.specs.Limits.{IsSerialBound, most_moves};
ghost use Rattle.lu_serial_graph.specs.Graphs.{members_of};
ghost use Rattle.lu_trie.specs.Conflicts.{IsDeterministic};
ghost use Rattle.lu_refine.specs.ByThread.{IsRolesFault, asked_of};
ghost use Rattle.lu_survey.specs.Comparing.{CanCompare, IsCompared, IsComparedOf, IsDifferenceBy, IsDifferenceIfAny};

use crate::comparison::{Comparison, Difference};
use crate::serially::first_other_run;
use lu_component::Component;
use lu_parallel::check_one_against;
use lu_refine::{CampaignFault, CampaignProgress, Roles, Unshown, count_matrices, matrix_at};
use lu_report::{Finding, Report};
use lu_serial_graph::{LearntGraph, SerialGraph, learn_graph};
use lu_test::Matrix;
use std::alloc::{AllocError, Global};

/// How the component differs on the matrix from this set, or none where it agrees. Asks for a
/// deterministic set.
fn differ_from(
    alloc: Global,
    set: &SerialGraph<Global>,
    component: &Component,
    matrix: &Matrix,
    bound: u16,
    serial: u16,
) -> Result<Option<Difference>, AllocError>
    requires of { CanRun component.now matrix.now }
    requires bound { bound ≤ most_moves }
    requires serial { IsSerialBound serial }
    requires deterministic { IsDeterministic (members_of set.now) }
    ensures { IfOk result
        (IsDifferenceBy (members_of set.now) component.now matrix.now bound serial) }
{
    match first_other_run(alloc, set, component, matrix, serial)? {
        Some(schedule) => Ok(Some(Difference::Serially(schedule))),
        None => {
            let report = check_one_against(alloc, component, matrix, &set, bound)?;
            if report.is_pass() {
                return Ok(None);
            }
            Ok(Some(Difference::Concurrently(report)))
        }
    }
}

/// How the component differs on the matrix from the trusted one, or none where it agrees.
fn differ(
    alloc: Global,
    trusted: &Component,
    component: &Component,
    matrix: &Matrix,
    bound: u16,
    serial: u16,
) -> Result<Option<Difference>, AllocError>
    requires of { CanRun component.now matrix.now }
    requires trusted { CanRun trusted.now matrix.now }
    requires bound { bound ≤ most_moves }
    requires serial { IsSerialBound serial }
    ensures { IfOk result
        (IsDifferenceIfAny trusted.now component.now matrix.now bound serial) }
{
    match learn_graph(alloc, alloc, trusted, matrix, serial)? {
        LearntGraph::Set(set) => differ_from(alloc, &set, component, matrix, bound, serial),
        LearntGraph::Cut(schedule) => Ok(Some(Difference::TrustedCut(schedule))),
        LearntGraph::Conflict {
            schedule,
            before,
            earlier,
        } => Ok(Some(Difference::TrustedConflict {
            schedule,
            before,
            earlier,
        })),
    }
}

/// Holds the component of the roles against a trusted one, on the matrices with the numbers `from`
/// to `to - 1`, as [`certify_slice`](crate::certify_slice) takes them: on a matrix each of its serial
/// runs has to end within the serial bound, with a history of the trusted component, and each
/// schedule within the bound has to have its witnesses among these. Returns the first matrix on which that does not hold, and what
/// shows it; or, where it holds of all, how many they are. Where a serial run of the trusted
/// component offends, that is shown. Asks that both have the same operations
/// ([`have_same_operations`](crate::have_same_operations)), and that the calls of the setup end
/// with both. Slices that follow one another say together what one slice says
/// ([`compared_join`](crate::laws::compared_join)).
///
/// # Errors
///
/// Those of [`campaign_by_thread`](lu_refine::campaign_by_thread).
pub fn compare_slice(
    alloc: Global,
    roles: Roles<'_>,
    trusted: &Component,
    from: u64,
    to: u64,
) -> Result<Comparison, CampaignFault>
    requires { CanCompare (asked_of roles) trusted.now }
    ensures answer { IfOk result
        (IsCompared trusted.entry.now (asked_of roles.entry) from to) }
    ensures of { IfOk result (IsComparedOf roles.entry.component.now) }
    ensures fault { IfErr result (IsRolesFault roles.entry.candidates.now roles.entry.calls) }
{
    compare_slice_with_progress(alloc, &Unshown, roles, trusted, from, to)
}

/// The same as [`compare_slice`], which tells `progress` meanwhile how far it has come.
///
/// # Errors
///
/// Those of [`campaign_by_thread`](lu_refine::campaign_by_thread).
pub fn compare_slice_with_progress<P: CampaignProgress>(
    alloc: Global,
    progress: &P,
    roles: Roles<'_>,
    trusted: &Component,
    from: u64,
    to: u64,
) -> Result<Comparison, CampaignFault>
    requires { CanCompare (asked_of roles) trusted.now }
    ensures answer { IfOk result
        (IsCompared trusted.entry.now (asked_of roles.entry) from to) }
    ensures of { IfOk result (IsComparedOf roles.entry.component.now) }
    ensures fault { IfErr result (IsRolesFault roles.entry.candidates.now roles.entry.calls) }
{
    let count = count_matrices(alloc, roles.candidates, roles.calls)?;
    let end = to.min(count);
    let start = from.min(end);
    progress.begin(end - start);
    let component = roles.component;
    for number in start..end {
        let matrix = matrix_at(alloc, roles, number)?;
        match differ(
            alloc,
            trusted,
            component,
            &matrix,
            roles.bound,
            roles.serial,
        )? {
            None => progress.next(),
            Some(difference) => return Ok(Comparison::First { matrix, difference }),
        }
    }
    Ok(Comparison::AllAgree(end - start))
}
