//! What is shown of a component and a matrix alone: what fails, by their certificate.

ghost use Rattle.std.specs.Prelude.{◌≡◌, IfOk, string_bytes};
ghost use Rattle.std.specs.Option.{option_map};
ghost use Rattle.lu_report.specs.Parts.{shown_schedule};
ghost use Rattle.lu_cli.specs.Refusals.{Answered};
ghost use Rattle.lu_cli.specs.Failing as spec;
ghost use Rattle.lu_certify.specs.Certificates.{NamesCutOf};
ghost use Rattle.lu_cli.specs.Failing.{CanRunCut, ShowsAlone, ShowsFailure, ShowsLivelockBelow, ShowsRunBelow};
ghost use Rattle.lu_cli.specs.Reading.{ToWorded};

use crate::answer::{Answer, show_certificate, show_schedule, write_both};
use crate::explanation::{Presentation, Presenting, explain_finding_serially, say_next};
use crate::pictures::draw;
use crate::refusal::Refusal;
use crate::request::{TraceStart, Tracing};
use crate::trace::trace;
use crate::worded::read_worded;
use lu_certify::{Certificate, DEFAULT_NODES, Limits, certify};
use lu_component::Component;
use lu_machine::Test;
use lu_report::{Finding, MOST_MOVES, Report};
use lu_test::Schedule;
use lu_trace::{Detail, Wording};
use std::alloc::{AllocError, Global};

/// Each step of a schedule.
const EACH_STEP: Tracing = Tracing {
    start: TraceStart::FirstMove,
    detail: Detail::EachStep,
};

/// How what fails is shown.
#[derive(Clone, Copy)]
pub(crate) enum View {
    /// By its explanation, with what each move does.
    Explanation,

    /// By what each move does, from there on and in that detail.
    Trace(Tracing),

    /// By a picture.
    Picture,

    /// By a picture with marks that explain it.
    ExplainedPicture,
}

/// How the run of a schedule is shown.
#[derive(Clone, Copy)]
pub(crate) enum RunView {
    /// By what each move does, from there on and in that detail.
    Trace(Tracing),

    /// By a picture.
    Picture,
}

impl RunView {
    /// How what fails is shown, where a run is shown so.
    pub(crate) fn of_failure(self) -> View
        ensures { result ≡ spec.view_of_failure self }
    {
        match self {
            RunView::Trace(tracing) => View::Trace(tracing),
            RunView::Picture => View::Picture,
        }
    }
}

/// A failure with this text.
fn failure(text: String) -> Answer
    ensures { result ≡ spec.failure (string_bytes text) }
{
    Answer { text, status: 1 }
}

/// The text with that of an answer below it.
fn below(mut text: String, more: &Answer) -> Result<String, AllocError>
    ensures { IfOk result (λ t. string_bytes t ≡ spec.below (string_bytes text) more.now) }
{
    text.push_str("---\n")?;
    text.push_str(more.text.as_str())?;
    Ok(text)
}

/// A text with what each move of the schedule does below it; or the picture of the schedule alone.
fn show_run(
    alloc: Global,
    how: Wording<'_>,
    test: Test<'_>,
    schedule: &Schedule,
    text: String,
    view: View,
) -> Result<Answer, AllocError>
    ensures { ShowsRunBelow view how.entry test.entry schedule.now text result }
{
    match view {
        View::Explanation => {
            let steps = trace(alloc, EACH_STEP, how, test, schedule)?;
            Ok(failure(below(text, &steps)?))
        }
        View::Trace(tracing) => {
            let steps = trace(alloc, tracing, how, test, schedule)?;
            Ok(failure(below(text, &steps)?))
        }
        View::Picture | View::ExplainedPicture => {
            let picture = draw(alloc, how, test, schedule)?;
            Ok(failure(picture.text))
        }
    }
}

/// The schedule of a finding; of a pass none.
fn schedule_of(finding: &Finding) -> Option<&Schedule>
    ensures { option_map (λ schedule. schedule.now) result ≡ shown_schedule finding.now }
{
    match finding {
        Finding::SerialCut(schedule) => Some(schedule),
        Finding::Nondeterministic { schedule, .. } => Some(schedule),
        Finding::Fail { schedule, .. } => Some(schedule),
        Finding::Pass(_) => None,
    }
}

/// A cut that fails with this report, by this schedule.
fn show_failing(
    alloc: Global,
    how: Wording<'_>,
    test: Test<'_>,
    report: &Report,
    schedule: &Schedule,
    view: View,
) -> Result<Answer, AllocError>
    ensures { ShowsFailure view how.entry test.entry report.now schedule.now result }
{
    let finding = report.finding();
    match view {
        View::Explanation => {
            let text = write_both(alloc, test.component, test.matrix, report)?;
            let by = Presenting {
                by: Presentation::Words,
                how,
            };
            let why = explain_finding_serially(alloc, test, finding, by)?;
            show_run(alloc, how, test, schedule, below(text, &why)?, view)
        }
        View::ExplainedPicture => {
            let by = Presenting {
                by: Presentation::Picture,
                how,
            };
            let picture = explain_finding_serially(alloc, test, finding, by)?;
            Ok(failure(picture.text))
        }
        View::Trace(_) | View::Picture => {
            let text = write_both(alloc, test.component, test.matrix, report)?;
            show_run(alloc, how, test, schedule, text, view)
        }
    }
}

/// A cut with a livelock: its text, with what each thread can do next after the schedule where that
/// is asked for, and the run.
fn show_livelock(
    alloc: Global,
    how: Wording<'_>,
    test: Test<'_>,
    schedule: &Schedule,
    text: String,
    view: View,
) -> Result<Answer, AllocError>
    ensures { ShowsLivelockBelow view how.entry test.entry schedule.now text result }
{
    match view {
        View::Explanation => {
            let why = say_next(alloc, how, test, schedule, "livelock")?;
            show_run(alloc, how, test, schedule, below(text, &why)?, view)
        }
        View::Trace(_) | View::Picture | View::ExplainedPicture => {
            show_run(alloc, how, test, schedule, text, view)
        }
    }
}

/// Of a certificate the cut that fails or has a livelock, shown so; another one as it is.
fn show_by_view(
    alloc: Global,
    how: Wording<'_>,
    component: &Component,
    certificate: &Certificate,
    view: View,
) -> Result<Answer, AllocError>
    requires of { NamesCutOf component.now certificate.now }
    requires runs { CanRunCut component.now certificate.now }
    ensures { IfOk result (spec.ShowsByView view how.entry component.now certificate.now) }
{
    match certificate {
        Certificate::Linearizable(_) => show_certificate(alloc, component, certificate),
        Certificate::NotLinearizable { matrix, report } => match schedule_of(report.finding()) {
            None => show_certificate(alloc, component, certificate),
            Some(schedule) => {
                let test = Test { component, matrix };
                show_failing(alloc, how, test, report, schedule, view)
            }
        },
        Certificate::Livelock { matrix, schedule } => {
            let shown = show_schedule(alloc, component, matrix, schedule)?;
            let test = Test { component, matrix };
            show_livelock(alloc, how, test, schedule, shown.text, view)
        }
        Certificate::Undecided { .. } => show_certificate(alloc, component, certificate),
    }
}

/// What fails of a component and a matrix, shown so; or their certificate, where nothing fails.
fn show_alone(
    alloc: Global,
    how: Wording<'_>,
    test: Test<'_>,
    view: View,
) -> Result<Answer, AllocError>
    ensures { ShowsAlone view how.entry test.entry result }
{
    let limits = Limits {
        bound: MOST_MOVES,
        serial: MOST_MOVES,
        nodes: DEFAULT_NODES,
    };
    let certificate = certify(alloc, test.component, test.matrix, limits)?;
    show_by_view(alloc, how, test.component, &certificate, view)
}

/// `lineup explain`, `trace` and `draw` of component and matrix alone.
pub(crate) fn answer_failing(
    alloc: Global,
    component: &[u8],
    matrix: &[u8],
    view: View,
) -> Result<Answer, Refusal>
    ensures { Answered (ToWorded component.now matrix.now (spec.IsShownAlone view)) result }
{
    let worded = read_worded(alloc, component, matrix)?;
    let test = Test {
        component: &worded.component,
        matrix: &worded.matrix,
    };
    Ok(show_alone(alloc, worded.wording(), test, view)?)
}
