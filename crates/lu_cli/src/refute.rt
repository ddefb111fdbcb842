//! Where a component that fails does not meet a specification.

ghost use Rattle.lu_text.specs.Lines.{texts};
ghost use Rattle.lu_spec.specs.Specs.{AreOf};
ghost use Rattle.lu_cli.specs.Refusals.{Answered};
ghost use Rattle.lu_cli.specs.Refute as spec;
ghost use Rattle.lu_cli.specs.Refute.{RefutesSpec, RefutesTexts};

use crate::answer::{Answer, show_schedule};
use crate::refusal::Refusal;
use crate::texts::read_texts;
use lu_machine::Test;
use lu_refute::refute;
use lu_report::{Report, read_report};
use lu_spec::{Spec, read_spec};
use lu_text::exactly_four;
use std::alloc::Global;

/// A schedule that the specification does not explain, where a run confirms that the report is a
/// failure or nondeterministic.
fn refute_spec(
    alloc: Global,
    test: Test<'_>,
    report: &Report,
    specification: &Spec,
) -> Result<Answer, Refusal>
    requires { AreOf test.matrix.now specification.now }
    ensures { RefutesSpec test.entry report.now specification.now result }
{
    let (smaller, schedule) = refute(alloc, test.component, test.matrix, report, specification)?;
    Ok(show_schedule(alloc, test.component, &smaller, &schedule)?)
}

/// What is answered to the texts of a report and a specification.
fn refute_texts(
    alloc: Global,
    test: Test<'_>,
    report: &[u8],
    specification: &[u8],
) -> Result<Answer, Refusal>
    ensures { RefutesTexts test.entry report.now specification.now result }
{
    let report = read_report(alloc, report)?;
    let specification = read_spec(alloc, test.matrix, specification)?;
    refute_spec(alloc, test, &report, &specification)
}

/// `lineup refute`: component, matrix, report and specification.
pub(crate) fn answer_refute(alloc: Global, parts: &[&[u8]]) -> Result<Answer, Refusal>
    ensures { Answered (spec.IsAnswerToRefute (texts parts.now)) result }
{
    let (component, matrix, report, specification) = exactly_four(parts).ok_or(Refusal::Parts)?;
    let case = read_texts(alloc, component, matrix)?;
    let test = Test {
        component: &case.component,
        matrix: &case.matrix,
    };
    refute_texts(alloc, test, report, specification)
}
