//! All matrices of a size over some calls, and slices of them.

ghost use Rattle.std.specs.Prelude.{◌≡◌, ◌<◌, ◌≤◌, ◌↔◌, IsTrue, IsOk, IfOk, IfErr, length, All, Any};
ghost use Rattle.lu_report.specs.Limits.{IsSerialBound, most_moves};
ghost use Rattle.lu_test.specs.Matrix.{IsSetup};
ghost use Rattle.lu_machine.specs.Starts.{AllEnd};
ghost use Rattle.lu_refine.specs.Choices.{AreEnough, choice_count};
ghost use Rattle.lu_refine.specs.Campaigns.{AreCallsOf, HaveArguments, IsFoundOf, IsGrid, IsLimitFault, Runs};
ghost use Rattle.lu_refine.specs.Roles.{AreWithinLimits, bases};
ghost use Rattle.lu_refine.specs.ByThread.{CanAsk, IsMatrixAt, IsRolesFault, IsSliceAnswer, IsThreadsAnswer, asked_of, matrix_count};
ghost use Rattle.lu_test.specs.declared.matrix.TheConstants.{MOST_CALLS_OF_THREAD};

use crate::arena::check_in_arena;
use crate::campaign_progress::{CampaignProgress, Unshown};
use crate::campaigns::{Campaign, CampaignFault};
use crate::choice::{Positions, bases_of, fill, same_lists};
use crate::roles::Roles;
use lu_choices::{choice_at, count_choices};
use lu_component::Component;
use lu_report::{Finding, Report};
use lu_test::{Call, Calls, MOST_CALLS, MOST_CALLS_OF_THREAD, MOST_THREADS, Matrix};
use std::alloc::{AllocError, Global};

/// The most candidates of a thread.
pub const MOST_CANDIDATES: usize = 8;

/// Whether some thread has candidates.
fn are_some(candidates: &[Calls]) -> bool
    ensures { IsTrue result ↔ Any (λ thread. 1 ≤ length thread) candidates.now }
{
    candidates
        .iter()
        .any(|thread| !thread.as_slice().is_empty())
}

/// Whether no thread has more than 8 candidates.
fn are_few(candidates: &[Calls]) -> bool
    ensures { IsTrue result ↔ All (λ thread. length thread ≤ MOST_CALLS_OF_THREAD) candidates.now }
{
    candidates
        .iter()
        .all(|thread| thread.as_slice().len() <= MOST_CANDIDATES)
}

/// How many candidates each position has, where the limits hold.
fn positions_of(alloc: Global, candidates: &[Calls], calls: u8) -> Result<Positions, CampaignFault>
    ensures positions { IfOk result (λ found. found.items ≡ bases calls candidates.now) }
    ensures within { IsOk result → AreWithinLimits calls candidates.now }
    ensures fault { IfErr result (IsRolesFault candidates.now calls) }
{
    if candidates.is_empty() || candidates.len() > MOST_THREADS {
        return Err(CampaignFault::Candidates);
    }
    if !are_some(candidates) || !are_few(candidates) {
        return Err(CampaignFault::Candidates);
    }
    if calls == 0 || usize::from(calls) > MOST_CALLS_OF_THREAD {
        return Err(CampaignFault::Limit);
    }
    let positions = bases_of(alloc, candidates, calls)?;
    if positions.as_slice().len() > MOST_CALLS {
        return Err(CampaignFault::Limit);
    }
    Ok(positions)
}

/// That there are matrices of this many threads with this many calls each, over this many
/// candidates.
fn check_grid(candidates: usize, threads: u8, calls: u8) -> Result<(), CampaignFault>
    ensures within { IsOk result → AreEnough candidates × IsGrid threads calls }
    ensures fault { IfErr result (IsLimitFault candidates threads calls) }
{
    if candidates == 0 || candidates > MOST_CANDIDATES {
        return Err(CampaignFault::Candidates);
    }
    if threads == 0 || usize::from(threads) > MOST_THREADS {
        return Err(CampaignFault::Limit);
    }
    if calls == 0 || usize::from(calls) > MOST_CALLS_OF_THREAD {
        return Err(CampaignFault::Limit);
    }
    if usize::from(threads) * usize::from(calls) > MOST_CALLS {
        return Err(CampaignFault::Limit);
    }
    Ok(())
}

/// Checks all matrices of `threads` threads with `calls` calls each, filled from the candidates, in
/// lexicographic order of the numbers of the candidates, thread 0's calls first; each begins with
/// the setup. A candidate that is listed twice counts twice. The answer is the first matrix whose
/// report is no pass, with that report, or the number of matrices. `bound` is 0 to 256 moves of a
/// schedule, and `serial` 1 to 256 moves of an operation after its call that is run serially. Asks
/// for candidates that are calls of the component, each with at most 4 arguments, and for a setup
/// of at most 8 such calls, each of which ends within 256 moves after it, where they are made
/// alone.
///
/// # Errors
///
/// [`CampaignFault::Candidates`] where there are not 1 to 8 candidates. [`CampaignFault::Limit`]
/// where there are, and not 1 to 8 threads of 1 to 8 calls with at most 16 positions.
/// [`CampaignFault::Memory`] where memory was refused.
pub fn campaign(
    alloc: Global,
    component: &Component,
    setup: &Calls,
    candidates: &[Call],
    threads: u8,
    calls: u8,
    bound: u16,
    serial: u16,
) -> Result<Campaign, CampaignFault>
    requires setup { IsSetup setup.now }
    requires setup_of { AreCallsOf component.now setup.now }
    requires settles { AllEnd component.now setup.now }
    requires of { AreCallsOf component.now candidates.now }
    requires arguments { HaveArguments candidates.now }
    requires bound { bound ≤ most_moves }
    requires serial { IsSerialBound serial }
    ensures answer { Runs component.now setup.now candidates.now threads calls bound serial result }
    ensures of { IfOk result (IsFoundOf component.now) }
    ensures fault { IfErr result (IsLimitFault (length candidates.now) threads calls) }
{
    check_grid(candidates.len(), threads, calls)?;
    let lists = same_lists(alloc, candidates, threads)?;
    let roles = Roles {
        component,
        setup,
        candidates: &lists,
        calls,
        bound,
        serial,
    };
    campaign_by_thread(alloc, roles)
}

/// Checks all matrices in which each thread makes calls of its own candidates: as many as are asked
/// for of each thread that has candidates, and none of a thread that has none. Else it is as
/// [`campaign`]: the matrices are taken in lexicographic order of the numbers of the candidates,
/// each within its thread's list, thread 0's calls first. What [`campaign`] asks of its list has to
/// hold of each thread's candidates.
///
/// # Errors
///
/// [`CampaignFault::Candidates`] where there are not 1 to 8 threads, where no thread has
/// candidates, or where one has more than 8. [`CampaignFault::Limit`] where none of these holds,
/// and the number of calls is not 1 to 8, or there are more than 16 positions.
/// [`CampaignFault::Memory`] where memory was refused.
pub fn campaign_by_thread(alloc: Global, roles: Roles<'_>) -> Result<Campaign, CampaignFault>
    requires { CanAsk (asked_of roles) }
    ensures answer { IfOk result (IsThreadsAnswer (asked_of roles.entry)) }
    ensures of { IfOk result (IsFoundOf roles.entry.component.now) }
    ensures fault { IfErr result (IsRolesFault roles.entry.candidates.now roles.entry.calls) }
{
    campaign_by_thread_with_progress(alloc, &Unshown, roles)
}

/// The same as [`campaign_by_thread`], which tells `progress` meanwhile how far it has come.
///
/// # Errors
///
/// Those of [`campaign_by_thread`].
pub fn campaign_by_thread_with_progress<P: CampaignProgress>(
    alloc: Global,
    progress: &P,
    roles: Roles<'_>,
) -> Result<Campaign, CampaignFault>
    requires { CanAsk (asked_of roles) }
    ensures answer { IfOk result (IsThreadsAnswer (asked_of roles.entry)) }
    ensures of { IfOk result (IsFoundOf roles.entry.component.now) }
    ensures fault { IfErr result (IsRolesFault roles.entry.candidates.now roles.entry.calls) }
{
    campaign_slice_with_progress(alloc, progress, roles, 0, u64::MAX)
}

/// Checks some of the matrices of [`campaign_by_thread`]: those with the numbers `from` to `to - 1`
/// in its order, counted from 0; a `to` past the last matrix is the end. Returns the first of them
/// whose report is no pass, with that report, or how many they are: 0 where `from` is not below
/// `to` or not below the number of matrices. Slices that follow one another say together what one
/// slice says ([`slices_join`](crate::laws::slices_join)).
///
/// # Errors
///
/// Those of [`campaign_by_thread`].
pub fn campaign_slice(
    alloc: Global,
    roles: Roles<'_>,
    from: u64,
    to: u64,
) -> Result<Campaign, CampaignFault>
    requires { CanAsk (asked_of roles) }
    ensures answer { IfOk result (IsSliceAnswer (asked_of roles.entry) from to) }
    ensures of { IfOk result (IsFoundOf roles.entry.component.now) }
    ensures fault { IfErr result (IsRolesFault roles.entry.candidates.now roles.entry.calls) }
{
    campaign_slice_with_progress(alloc, &Unshown, roles, from, to)
}

/// The same as [`campaign_slice`], which tells `progress` meanwhile how far it has come.
///
/// # Errors
///
/// Those of [`campaign_by_thread`].
pub fn campaign_slice_with_progress<P: CampaignProgress>(
    alloc: Global,
    progress: &P,
    roles: Roles<'_>,
    from: u64,
    to: u64,
) -> Result<Campaign, CampaignFault>
    requires { CanAsk (asked_of roles) }
    ensures answer { IfOk result (IsSliceAnswer (asked_of roles.entry) from to) }
    ensures of { IfOk result (IsFoundOf roles.entry.component.now) }
    ensures fault { IfErr result (IsRolesFault roles.entry.candidates.now roles.entry.calls) }
{
    let component = roles.component;
    let positions = positions_of(alloc, roles.candidates, roles.calls)?;
    let bases = positions.as_slice();
    let end = to.min(count_choices(bases));
    let start = from.min(end);
    progress.begin(end - start);
    for number in start..end {
        let choice = choice_at(bases, number);
        let matrix = fill(alloc, roles, choice.as_slice())?;
        let report = check_in_arena(alloc, component, &matrix, roles.bound, roles.serial)?;
        if !report.is_pass() {
            return Ok(Campaign::First { matrix, report });
        }
        progress.next();
    }
    Ok(Campaign::AllPass(end - start))
}

/// How many matrices [`campaign_by_thread`] has. None is checked.
///
/// # Errors
///
/// Those of [`campaign_by_thread`].
pub fn count_matrices(alloc: Global, candidates: &[Calls], calls: u8) -> Result<u64, CampaignFault>
    ensures count { IfOk result (λ count. count ≡ choice_count (bases calls candidates.now)) }
    ensures within { IsOk result → AreWithinLimits calls candidates.now }
    ensures fault { IfErr result (IsRolesFault candidates.now calls) }
{
    let positions = positions_of(alloc, candidates, calls)?;
    Ok(count_choices(positions.as_slice()))
}

/// The matrix with this number, from 0, in the order of [`campaign_by_thread`]. Asks for what a
/// campaign asks for, within its limits, and for a number below that of the matrices
/// ([`count_matrices`]).
///
/// # Errors
///
/// `AllocError` where memory was refused.
pub fn matrix_at(alloc: Global, roles: Roles<'_>, number: u64) -> Result<Matrix, AllocError>
    requires asked { CanAsk (asked_of roles) }
    requires limits { AreWithinLimits roles.calls roles.candidates.now }
    requires number { number < matrix_count (asked_of roles) }
    ensures { IfOk result (IsMatrixAt (asked_of roles.entry) number) }
{
    let bases = bases_of(alloc, roles.candidates, roles.calls)?;
    let choice = choice_at(bases.as_slice(), number);
    fill(alloc, roles, choice.as_slice())
}
