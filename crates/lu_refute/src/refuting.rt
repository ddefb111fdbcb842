//! Refutations of specifications.

ghost use Rattle.std.specs.Prelude.{◌≡◌, ◌≢◌, ◌↔◌, ◌≤◌, [], IsTrue, IfErr, IfOk, OnOk};
ghost use Rattle.lu_machine.specs.Starts.{CanRun};
ghost use Rattle.lu_machine.specs.declared.event.Status.TheVariants.{Running};
ghost use Rattle.lu_witness.specs.declared.judgement.Verdict.TheVariants.{Good};
ghost use Rattle.lu_witness.specs.Witnesses.{IsMember};
ghost use Rattle.lu_report.specs.Limits.{IsSerialBound, most_moves};
ghost use Rattle.lu_replay.specs.Confirmed.{IsShownWith};
ghost use Rattle.lu_spec.specs.Specs.{AreOf};
ghost use Rattle.lu_refute.specs.Linearizable.{IsCounterexampleTo, IsLinearizableTo};
ghost use Rattle.lu_refute.specs.Answers.{IsAnswer, IsConfirmedFailure, IsFailure, IsRefuteFault};
ghost use Rattle.lu_refute.specs.Walks.{HasOutside, IsAnswerOf, IsScheduleOfFailure, IsFromOutside, TellsRefutation};

use crate::fault::RefuteFault;
use crate::shortest::shortest;
use lu_component::Component;
use lu_machine::{Status, Test};
use lu_replay::{ReplayFault, confirm, replay};
use lu_report::{Finding, Report};
use lu_serial::first_outside;
use lu_spec::Spec;
use lu_test::{Matrix, Schedule, copy_matrix};
use lu_trie::Trie;
use lu_witness::{Verdict, verdict};
use std::alloc::{AllocError, Global};

/// Whether a run that stands so, with this verdict, is ended and not good.
fn is_bad(status: Status, verdict: Verdict) -> bool
    ensures { IsTrue result ↔ ((status ≢ Running) × (verdict ≢ Good)) }
{
    status != Status::Running && verdict != Verdict::Good
}

/// Whether the schedule is ended, and not good for the set.
fn refutes(
    alloc: Global,
    test: Test<'_>,
    schedule: &Schedule,
    set: &Trie<Global>,
) -> Result<bool, AllocError>
    ensures { IfOk result (TellsRefutation test.entry set.now schedule.now) }
{
    match replay(alloc, test.component, test.matrix, schedule) {
        Ok(shown) => { Ok(is_bad(shown.status, verdict(&set, &shown.history))) }
        Err(ReplayFault::Infeasible(_)) => Ok(false),
        Err(ReplayFault::Memory) => Err(AllocError),
    }
}

/// The schedule of a failure, where it is not good for the set.
fn schedule_of_failure(
    alloc: Global,
    test: Test<'_>,
    finding: &Finding,
    set: &Trie<Global>,
) -> Result<Option<Schedule>, AllocError>
    ensures { IfOk result (IsScheduleOfFailure test.entry set.now finding.now) }
{
    match finding {
        Finding::SerialCut(_) => Ok(None),
        Finding::Nondeterministic { .. } => Ok(None),
        Finding::Fail { schedule, why: _ } => {
            if refutes(alloc, test, schedule, set)? {
                Ok(Some(Schedule::new(Vec::from_slice(alloc, schedule.moves())?)))
            } else {
                Ok(None)
            }
        }
        Finding::Pass(_) => Ok(None),
    }
}

/// The shortest beginning, that ends with a whole entry and whose entries are no member, of the
/// least serial schedule whose history is no member: over the matrix cut to the calls made in it.
/// Asks that there is such a schedule.
fn from_outside(
    alloc: Global,
    test: Test<'_>,
    serial: u16,
    set: &Trie<Global>,
) -> Result<(Matrix, Schedule), AllocError>
    requires some { 1 ≤ serial }
    requires few { serial ≤ most_moves }
    requires empty { IsMember set.now [] }
    requires outside { HasOutside test serial set.now }
    ensures { IfOk result (IsFromOutside test.entry serial set.now) }
{
    let outside = first_outside(alloc, test.component, test.matrix, serial, set)?.unwrap();
    shortest(alloc, test, &outside, set)
}

/// What is answered to a report that is a confirmed failure, or confirmed nondeterminism, with this
/// bound of serial runs.
fn answer_to(
    alloc: Global,
    test: Test<'_>,
    report: &Report,
    serial: u16,
    spec: &Spec,
) -> Result<(Matrix, Schedule), AllocError>
    requires spec { AreOf test.matrix.now spec.now }
    requires range { IsSerialBound serial }
    requires shown { IsShownWith test.component.now test.matrix.now report.now serial }
    requires failure { IsFailure report.now.finding }
    ensures { IfOk result (IsAnswerOf test.entry report.now serial spec.now) }
{
    let set = spec.tree();
    match schedule_of_failure(alloc, test, report.finding(), set)? {
        Some(schedule) => Ok((copy_matrix(alloc, test.matrix)?, schedule)),
        None => from_outside(alloc, test, serial, set),
    }
}

/// Refutes a specification by a failure, or by nondeterminism, that a report shows: by a schedule
/// of the matrix, or of some first calls of its threads, that is ended and does not have its serial
/// witnesses in the specification. So the component is not linearizable with it (Burckhardt, Dern,
/// Musuvathi and Tan, 2010).
///
/// For a failure whose schedule does not have its witnesses in the specification the answer is the
/// matrix and that schedule. Else it comes from the least serially ended schedule whose history is
/// no member of the specification: it is the shortest beginning that ends with a whole entry of
/// that history and whose entries are no member, over the matrix cut to the calls made in it. Asks
/// for a matrix of the component ([`Matrix::of`]) whose setup settles (`lu_machine::settles`), and
/// a specification of the matrix ([`Spec::of`]).
///
/// # Errors
///
/// [`RefuteFault::NotShown`] where the report is a pass or a serial cut, or is not confirmed
/// ([`confirm`]); so one of a check against a specification. [`RefuteFault::Memory`] where memory
/// was refused.
pub fn refute(
    alloc: Global,
    component: &Component,
    matrix: &Matrix,
    report: &Report,
    spec: &Spec,
) -> Result<(Matrix, Schedule), RefuteFault>
    requires component { CanRun component.now matrix.now }
    requires spec { AreOf matrix.now spec.now }
    ensures shown { OnOk result (IsConfirmedFailure component.now matrix.now report.now) }
    ensures fault { IfErr result (IsRefuteFault component.now matrix.now report.now) }
    ensures answer { IfOk result (IsAnswer component.now matrix.now report.now spec.now) }
    ensures counterexample { IfOk result (IsCounterexampleTo component.now matrix.now spec.now) }
    ensures refuted { OnOk result (IsLinearizableTo component.now matrix.now spec.now → ⊥) }
{
    let Some(serial) = report.serial() else {
        return Err(RefuteFault::NotShown);
    };
    if !report.is_failure() || !confirm(alloc, component, matrix, report)? {
        return Err(RefuteFault::NotShown);
    }
    let test = Test { component, matrix };
    Ok(answer_to(alloc, test, report, serial, spec)?)
}
