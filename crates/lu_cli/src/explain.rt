//! What is answered to `explain` and `draw --explain`.

ghost use Rattle.std.specs.Prelude.{◌<◌, ◌≡◌, IfErr, IfOk};
ghost use Rattle.lu_text.specs.Lines.{texts};
ghost use Rattle.lu_cli.specs.Refusals.{Answered};
ghost use Rattle.lu_cli.specs.Explain as spec;
ghost use Rattle.lu_cli.specs.Explain.{ExplainsAgainst, ExplainsText, IsAnswerToExplainAgainst, IsExplainAfter, IsAnswerToExplain, IsTarget, IsTargetRefusal, view_of as spec_of_view};

use crate::answer::Answer;
use crate::explanation::{Presentation, Presenting, Target, explain, explain_serially};
use crate::failing::{View, answer_failing};
use crate::refusal::Refusal;
use crate::shown::shown_parts;
use crate::worded::read_worded;
use lu_machine::Test;
use lu_report::{Bounds, read_report};
use lu_spec::{Marks, read_given_spec};
use lu_test::read_schedule;
use lu_text::{exactly_four, exactly_two};
use lu_trace::Wording;
use std::alloc::Global;

/// Whether a text begins as a report does.
fn is_report(text: &[u8]) -> bool
    ensures { result ≡ spec.is_report text.now }
{
    text.starts_with(b"lineup")
}

/// What a text says is to be explained.
fn read_target(alloc: Global, text: &[u8]) -> Result<Target, Refusal>
    ensures read { IfOk result (IsTarget text.now) }
    ensures refused { IfErr result (IsTargetRefusal text.now) }
{
    if is_report(text) {
        Ok(Target::Report(read_report(alloc, text)?))
    } else {
        Ok(Target::Schedule(read_schedule(alloc, text)?))
    }
}

/// How what fails is shown, where it is explained so.
fn view_of(by: Presentation) -> View
    ensures { result ≡ spec_of_view by }
{
    match by {
        Presentation::Words => View::Explanation,
        Presentation::Picture => View::ExplainedPicture,
    }
}

/// `lineup explain` and `lineup draw --explain`: component and matrix, and a schedule or a report;
/// of component and matrix alone what fails.
pub(crate) fn answer_explain(
    alloc: Global,
    bounds: Bounds,
    parts: &[&[u8]],
    by: Presentation,
) -> Result<Answer, Refusal>
    ensures { Answered (IsAnswerToExplain by bounds (texts parts.now)) result }
{
    match exactly_two(parts) {
        Some((component, matrix)) => answer_failing(alloc, component, matrix, view_of(by)),
        None => explain_after(alloc, bounds, parts, by),
    }
}

/// Component, matrix, and a schedule or a report.
fn explain_after(
    alloc: Global,
    bounds: Bounds,
    parts: &[&[u8]],
    by: Presentation,
) -> Result<Answer, Refusal>
    ensures { Answered (IsExplainAfter by bounds (texts parts.now)) result }
{
    let (component, matrix, target) = shown_parts(parts).ok_or(Refusal::Parts)?;
    let worded = read_worded(alloc, component, matrix)?;
    let how = worded.wording();
    let by = Presenting { by, how };
    let test = Test {
        component: &worded.component,
        matrix: &worded.matrix,
    };
    explain_text(alloc, test, bounds, target, by)
}

/// The bounds by which it is explained: a report has its own bound of serial runs.
fn bounds_for(bounds: Bounds, target: &Target) -> Bounds
    ensures { result ≡ spec.limits_for bounds target.now }
{
    match target {
        Target::Schedule(_) => bounds,
        Target::Report(report) => match report.serial() {
            None => bounds,
            Some(serial) => Bounds::new(bounds.bound(), serial).unwrap(),
        },
    }
}

/// The text of a schedule or of a report, explained by the serial runs.
fn explain_text(
    alloc: Global,
    test: Test<'_>,
    bounds: Bounds,
    target: &[u8],
    by: Presenting<'_>,
) -> Result<Answer, Refusal>
    ensures { ExplainsText by.entry bounds test.entry target.now result }
{
    let target = read_target(alloc, target)?;
    let bounds = bounds_for(bounds, &target);
    Ok(explain_serially(alloc, test, bounds, &target, by)?)
}

/// The text of a schedule or of a report, explained by a specification.
fn explain_against(
    alloc: Global,
    how: Wording<'_>,
    test: Test<'_>,
    target: &[u8],
    marks: Marks,
    spec: &[u8],
) -> Result<Answer, Refusal>
    ensures { ExplainsAgainst how.entry test.entry target.now marks spec.now result }
{
    let target = read_target(alloc, target)?;
    let specification = read_given_spec(alloc, test.matrix, spec, marks)?;
    let tree = &specification.tree();
    let by = Presenting {
        by: Presentation::Words,
        how,
    };
    Ok(explain(alloc, test, tree, &target, by)?)
}

/// `lineup explain --spec`: component, matrix, a schedule or a report, and specification.
pub(crate) fn answer_explain_against(
    alloc: Global,
    marks: Marks,
    parts: &[&[u8]],
) -> Result<Answer, Refusal>
    ensures { Answered (IsAnswerToExplainAgainst marks (texts parts.now)) result }
{
    let (component, matrix, target, specification) = exactly_four(parts).ok_or(Refusal::Parts)?;
    let worded = read_worded(alloc, component, matrix)?;
    let how = worded.wording();
    let test = Test {
        component: &worded.component,
        matrix: &worded.matrix,
    };
    explain_against(alloc, how, test, target, marks, specification)
}
