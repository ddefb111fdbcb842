//! What `trace` and `draw` show: the run of a schedule that a text says or a report shows.

ghost use Rattle.std.specs.Prelude.{◌≡◌, IfErr, IfOk};
ghost use Rattle.lu_text.specs.Lines.{texts};
ghost use Rattle.lu_cli.specs.Refusals.{Answered};
ghost use Rattle.lu_cli.specs.Shown as spec;
ghost use Rattle.lu_cli.specs.Shown.{AreShownParts, IsOfReport, IsShownRefusal, IsTextOfSchedule, ShowsRunOf, ShowsText};

use crate::answer::Answer;
use crate::failing::{RunView, answer_failing};
use crate::pictures::draw;
use crate::refusal::Refusal;
use crate::trace::trace;
use crate::worded::read_worded;
use lu_machine::Test;
use lu_report::read_report;
use lu_test::{Schedule, read_schedule};
use lu_text::{Fault, exactly_two};
use lu_trace::Wording;
use std::alloc::{AllocError, Global};

/// The schedule of the report that the text spells: none where it spells none with a schedule.
fn schedule_of_report(alloc: Global, text: &[u8]) -> Result<Option<Schedule>, AllocError>
    ensures { IfOk result (IsOfReport text.now) }
{
    match read_report(alloc, text) {
        Ok(report) => Ok(report.into_finding().into_schedule()),
        Err(Fault::At(_, _)) => Ok(None),
        Err(Fault::Memory) => Err(AllocError),
    }
}

/// The schedule that a text says, or that of the report that it spells.
pub(crate) fn read_shown(alloc: Global, text: &[u8]) -> Result<Schedule, Refusal>
    ensures read { IfOk result (IsTextOfSchedule text.now) }
    ensures refused { IfErr result (IsShownRefusal text.now) }
{
    match schedule_of_report(alloc, text)? {
        Some(schedule) => Ok(schedule),
        None => Ok(read_schedule(alloc, text)?),
    }
}

/// Whether this is the line before a matrix and what shows something on it: that of a certificate,
/// or of a campaign that compares.
fn is_verdict(text: &[u8]) -> bool
    ensures { result ≡ spec.is_verdict text.now }
{
    text == b"not linearizable\n".as_slice()
        || text == b"livelock\n".as_slice()
        || text == b"undecided\n".as_slice()
        || text == b"differs serially\n".as_slice()
        || text == b"differs concurrently\n".as_slice()
}

/// The component, the matrix, and the schedule or the report. Matrix and report may stand as a
/// certificate has them, after its verdict, and that after the matrix of which it is.
pub(crate) fn shown_parts<'a>(parts: &[&'a [u8]]) -> Option<(&'a [u8], &'a [u8], &'a [u8])>
    ensures { AreShownParts (texts parts.now) result }
{
    match parts {
        [component, matrix, shown] => Some((component, matrix, shown)),
        [component, verdict, matrix, shown] if is_verdict(verdict) => {
            Some((component, matrix, shown))
        }
        [component, _whole, verdict, matrix, shown] if is_verdict(verdict) => {
            Some((component, matrix, shown))
        }
        _ => None,
    }
}

/// The run of the schedule, shown so, or where it is infeasible.
fn show_run(
    alloc: Global,
    how: Wording<'_>,
    test: Test<'_>,
    schedule: &Schedule,
    view: RunView,
) -> Result<Answer, AllocError>
    ensures { ShowsRunOf view how.entry test.entry schedule.now result }
{
    match view {
        RunView::Trace(tracing) => trace(alloc, tracing, how, test, schedule),
        RunView::Picture => draw(alloc, how, test, schedule),
    }
}

/// The run of the schedule that a text says or a report shows.
fn show_text(
    alloc: Global,
    how: Wording<'_>,
    test: Test<'_>,
    text: &[u8],
    view: RunView,
) -> Result<Answer, Refusal>
    ensures { ShowsText view how.entry test.entry text.now result }
{
    let schedule = read_shown(alloc, text)?;
    Ok(show_run(alloc, how, test, &schedule, view)?)
}

/// Component, matrix, and a schedule or a report.
fn show_after(alloc: Global, parts: &[&[u8]], view: RunView) -> Result<Answer, Refusal>
    ensures { Answered (spec.IsShownAfter view (texts parts.now)) result }
{
    let (component, matrix, shown) = shown_parts(parts).ok_or(Refusal::Parts)?;
    let worded = read_worded(alloc, component, matrix)?;
    let test = Test {
        component: &worded.component,
        matrix: &worded.matrix,
    };
    show_text(alloc, worded.wording(), test, shown, view)
}

/// `lineup trace`, `lineup trace --setup` and `lineup draw`: component and matrix, and a schedule
/// or a report; of component and matrix alone what fails.
pub(crate) fn answer_shown(alloc: Global, parts: &[&[u8]], view: RunView) -> Result<Answer, Refusal>
    ensures { Answered (spec.IsAnswerToTraceOrDraw view (texts parts.now)) result }
{
    match exactly_two(parts) {
        Some((component, matrix)) => answer_failing(alloc, component, matrix, view.of_failure()),
        None => show_after(alloc, parts, view),
    }
}
