//! Whether some schedule of a component shows recorded histories.

ghost use Rattle.std.specs.Prelude.{◌≡◌, IfOk, string_bytes};
ghost use Rattle.lu_text.specs.Lines.{texts};
ghost use Rattle.lu_cli.specs.Conform as spec;
ghost use Rattle.lu_cli.specs.Conform.{ConformsTexts, IsAnswerToConform, SaysConformed, TellsConformance};
ghost use Rattle.lu_cli.specs.Refusals.{Answered};

use crate::answer::Answer;
use crate::refusal::Refusal;
use crate::request::Showing;
use crate::texts::read_texts;
use crate::witness::three_parts;
use lu_conform::{Conformance, conformance};
use lu_machine::Test;
use lu_recorded::{Recorded, read_all, write_recorded};
use lu_test::{Schedule, write_schedule};
use std::alloc::{AllocError, Global};

/// Schedules, each as a part of its own.
fn schedule_parts(alloc: Global, schedules: &[Schedule]) -> Result<String, AllocError>
    ensures { IfOk result (λ text. string_bytes text ≡ spec.schedule_parts schedules.now) }
{
    let mut text = String::new(alloc);
    for schedule in schedules {
        text.push_str("---\n")?;
        text.push_str(write_schedule(alloc, schedule)?.as_str())?;
    }
    Ok(text)
}

/// That all histories are shown; with these schedules, if they are asked for.
fn all_shown(alloc: Global, showing: Showing, schedules: &[Schedule]) -> Result<Answer, AllocError>
    ensures { IfOk result (λ answer. answer ≡ spec.all_shown showing schedules.now) }
{
    let mut text = format!(in alloc; "conform pass {}\n", schedules.len())?;
    match showing {
        Showing::Count => {}
        Showing::Schedules => text.push_str(schedule_parts(alloc, schedules)?.as_str())?,
    }
    Ok(Answer { text, status: 0 })
}

/// That no schedule shows history `number`, with this text.
fn shown_by_none(alloc: Global, number: usize, history: &str) -> Result<Answer, AllocError>
    ensures { IfOk result (λ answer. answer ≡ spec.shown_by_none number history.now) }
{
    let mut text = format!(in alloc; "conform none {number}\n---\n")?;
    text.push_str(history)?;
    Ok(Answer { text, status: 1 })
}

/// That it is not decided of history `number`.
fn undecided_at(alloc: Global, number: usize) -> Result<Answer, AllocError>
    ensures { IfOk result (λ answer. answer ≡ spec.undecided_at number) }
{
    Ok(Answer {
        text: format!(in alloc; "conform undecided {number}\n")?,
        status: 3,
    })
}

/// What was found of recorded histories.
fn show_conformance(
    alloc: Global,
    showing: Showing,
    all: &[Recorded],
    found: &Conformance,
) -> Result<Answer, AllocError>
    requires { spec.IsWithin all.now found.now }
    ensures { IfOk result (TellsConformance showing all.now found.now) }
{
    match found {
        Conformance::Conforms(schedules) => all_shown(alloc, showing, schedules),
        Conformance::NoneShows(number) => {
            let text = write_recorded(alloc, &all[*number])?;
            shown_by_none(alloc, *number, text.as_str())
        }
        Conformance::Undecided(number) => undecided_at(alloc, *number),
    }
}

/// Whether some schedule of the component shows these histories.
fn conform(
    alloc: Global,
    test: Test<'_>,
    showing: Showing,
    all: &[Recorded],
) -> Result<Answer, AllocError>
    ensures { SaysConformed test.entry showing all.now result }
{
    let found = conformance(alloc, test.component, test.matrix, all)?;
    show_conformance(alloc, showing, all, &found)
}

/// The same of the texts of histories.
fn conform_texts(
    alloc: Global,
    test: Test<'_>,
    showing: Showing,
    histories: &[&[u8]],
) -> Result<Answer, Refusal>
    ensures { ConformsTexts test.entry showing (texts histories.now) result }
{
    let all = read_all(alloc, test.matrix, histories)?;
    Ok(conform(alloc, test, showing, &all)?)
}

/// `lineup conform`: component, matrix, and recorded histories.
pub(crate) fn answer_conform(
    alloc: Global,
    showing: Showing,
    parts: &[&[u8]],
) -> Result<Answer, Refusal>
    ensures { Answered (IsAnswerToConform showing (texts parts.now)) result }
{
    let (component, matrix, histories) = three_parts(parts).ok_or(Refusal::Parts)?;
    let case = read_texts(alloc, component, matrix)?;
    let test = Test {
        component: &case.component,
        matrix: &case.matrix,
    };
    conform_texts(alloc, test, showing, histories)
}
