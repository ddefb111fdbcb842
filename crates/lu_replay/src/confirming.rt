//! Whether reports hold.

ghost use Rattle.std.specs.Prelude.{◌≡◌, ◌↔◌, IsTrue};
ghost use Rattle.lu_machine.specs.Starts.{CanRun};
ghost use Rattle.lu_serial_graph.specs.declared.learning.LearntGraph.TheVariants.{Cut, Conflict};
ghost use Rattle.lu_report.specs.Limits.{IsSerialBound};
ghost use Rattle.lu_replay.specs.Confirmed.{IsConfirmed, IsReason, SaysBad, SaysConfirmedAgainst, SaysShown, SaysShownBy, SaysShownWith, SaysWhether};

use crate::fault::ReplayFault;
use crate::player::replay;
use lu_component::Component;
use lu_history::SerialOutcome;
use lu_machine::{Status, Test};
use lu_report::{Finding, Report};
use lu_serial_graph::{LearntGraph, learn_graph};
use lu_test::{Matrix, Schedule};
use lu_trie::SerialTree;
use lu_witness::{Verdict, Why, verdict};
use std::alloc::{AllocError, Global};

fn is_same(schedule: &Schedule, other: &Schedule) -> bool
    ensures { IsTrue result ↔ (schedule.now ≡ other.now) }
{
    schedule.moves() == other.moves()
}

/// Whether the least serial offence is this schedule, which is cut.
fn is_cut(learnt: &LearntGraph<Global>, schedule: &Schedule) -> bool
    ensures { IsTrue result ↔ (learnt.now ≡ Cut schedule.now) }
{
    match learnt {
        LearntGraph::Set(_) => false,
        LearntGraph::Cut(least) => is_same(least, schedule),
        LearntGraph::Conflict { .. } => false,
    }
}

/// Whether the least serial offence is this schedule, with this conflict.
fn is_conflict(
    learnt: &LearntGraph<Global>,
    schedule: &Schedule,
    before: usize,
    earlier: SerialOutcome,
) -> bool
    ensures { IsTrue result ↔ (learnt.now ≡ Conflict schedule.now before earlier) }
{
    match learnt {
        LearntGraph::Set(_) => false,
        LearntGraph::Cut(_) => false,
        LearntGraph::Conflict {
            schedule: least,
            before: agreed,
            earlier: outcome,
        } => is_same(least, schedule) && *agreed == before && *outcome == earlier,
    }
}

/// Whether a run that ended so, with this verdict, fails for this reason.
fn is_reason(status: Status, verdict: Verdict, why: Why) -> bool
    ensures { IsTrue result ↔ IsReason status verdict why }
{
    match why {
        Why::Complete => status == Status::Complete && verdict == Verdict::NoWitness,
        Why::Stuck(thread) => {
            status == Status::Stuck && verdict == Verdict::NoWitnessFor(thread)
        }
    }
}

/// That a schedule ends within a bound without its witnesses, and why.
#[derive(Clone, Copy)]
struct Claim<'a> {
    bound: u16,
    schedule: &'a Schedule,
    why: Why,
}

/// Whether what is claimed of a schedule holds for the set of the tree.
fn holds<T: SerialTree>(
    alloc: Global,
    test: Test<'_>,
    tree: &T,
    claim: Claim<'_>,
) -> Result<bool, AllocError>
    ensures { SaysBad test.entry (T.members tree.now) claim.entry result }
{
    if claim.schedule.moves().len() > usize::from(claim.bound) {
        return Ok(false);
    }
    match replay(alloc, test.component, test.matrix, claim.schedule) {
        Ok(shown) => {
            let verdict = verdict(tree, &shown.history);
            Ok(is_reason(shown.status, verdict, claim.why))
        }
        Err(ReplayFault::Infeasible(_)) => Ok(false),
        Err(ReplayFault::Memory) => Err(AllocError),
    }
}

/// Whether what was found is shown by what the serial runs show, and by a run of its schedule.
fn is_shown(
    alloc: Global,
    test: Test<'_>,
    bound: u16,
    learnt: &LearntGraph<Global>,
    finding: &Finding,
) -> Result<bool, AllocError>
    ensures { SaysShown test.entry learnt.now bound finding.now result }
{
    match finding {
        Finding::SerialCut(schedule) => Ok(is_cut(learnt, schedule)),
        Finding::Nondeterministic {
            schedule,
            before,
            earlier,
        } => Ok(is_conflict(learnt, schedule, *before, *earlier)),
        Finding::Fail { schedule, why } => match learnt {
            LearntGraph::Set(graph) => {
                let why = *why;
                let claim = Claim {
                    bound,
                    schedule,
                    why,
                };
                holds(alloc, test, &graph, claim)
            }
            LearntGraph::Cut(_) => Ok(false),
            LearntGraph::Conflict { .. } => Ok(false),
        },
        Finding::Pass(_) => Ok(false),
    }
}

/// Whether what was found is shown, with this bound of serial runs.
fn shows(alloc: Global, test: Test<'_>, report: &Report, serial: u16) -> Result<bool, AllocError>
    requires { IsSerialBound serial }
    ensures { SaysShownWith test.entry report.now serial result }
{
    if let Finding::Pass(_) = report.finding() {
        return Ok(false);
    }
    let learnt = learn_graph(alloc, alloc, test.component, test.matrix, serial)?;
    let bound = report.bound();
    is_shown(alloc, test, bound, &learnt, report.finding())
}

/// Whether what was found is shown by a run of its schedule, judged against the set of the tree.
fn is_shown_against<T: SerialTree>(
    alloc: Global,
    test: Test<'_>,
    bound: u16,
    tree: &T,
    finding: &Finding,
) -> Result<bool, AllocError>
    ensures { SaysShownBy test.entry (T.members tree.now) bound finding.now result }
{
    match finding {
        Finding::SerialCut(_) => Ok(false),
        Finding::Nondeterministic { .. } => Ok(false),
        Finding::Fail { schedule, why } => {
            let why = *why;
            let claim = Claim {
                bound,
                schedule,
                why,
            };
            holds(alloc, test, tree, claim)
        }
        Finding::Pass(_) => Ok(false),
    }
}

/// Whether as many local instructions of the component run with a move as the report says.
fn says_local(component: &Component, report: &Report) -> bool
    ensures { IsTrue result ↔ (report.now.local ≡ component.now.local) }
{
    report.local() == component.local()
}

/// Whether the report holds of the component and the matrix, with its own bounds. One that says
/// another number of local instructions with a move than the component does not hold, nor does one
/// of a check against a specification. A serial offence is confirmed where the serial runs show the
/// same one; a failure where there is no serial offence and its schedule, run anew, ends within the
/// bound without its serial witnesses, for the same reason. That it is the least such schedule is
/// not asked. A pass is never confirmed, since no single run shows it.
///
/// # Errors
///
/// `AllocError` where memory was refused.
pub fn confirm(
    alloc: Global,
    component: &Component,
    matrix: &Matrix,
    report: &Report,
) -> Result<bool, AllocError>
    requires { CanRun component.now matrix.now }
    ensures { SaysWhether result (IsConfirmed component.now matrix.now report.now) }
{
    let test = Test { component, matrix };
    if !says_local(component, report) {
        return Ok(false);
    }
    match report.serial() {
        None => Ok(false),
        Some(serial) => shows(alloc, test, report, serial),
    }
}

/// Whether the report of a check against a specification holds of the component and the matrix,
/// with its own bound, where the specification is the set of the tree. A failure is confirmed where
/// its schedule, run anew, ends within the bound without its witnesses in the set, for the same
/// reason; that it is the least such schedule is not asked. Nothing else is confirmed: no pass, no
/// report that says another number of local instructions with a move than the component, and none
/// of a check against the serial runs.
///
/// # Errors
///
/// `AllocError` where memory was refused.
pub fn confirm_against<T: SerialTree>(
    alloc: Global,
    component: &Component,
    matrix: &Matrix,
    report: &Report,
    tree: &T,
) -> Result<bool, AllocError>
    requires { CanRun component.now matrix.now }
    ensures { SaysConfirmedAgainst component.now matrix.now (T.members tree.now) report.now result }
{
    let test = Test { component, matrix };
    if !says_local(component, report) {
        return Ok(false);
    }
    match report.serial() {
        None => {
            let bound = report.bound();
            is_shown_against(alloc, test, bound, tree, report.finding())
        }
        Some(_) => Ok(false),
    }
}
