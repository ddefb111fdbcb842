//! Whether runs pass.

ghost use Rattle.std.specs.Prelude.{◌≡◌, ◌≢◌, ◌≤◌, All, IfErr, IfOk, string_bytes};
ghost use Rattle.lu_text.specs.Lines.{texts};
ghost use Rattle.lu_machine.specs.declared.TheConstants.{MOST_MOVES};
ghost use Rattle.lu_machine.specs.Starts.{CanRun};
ghost use Rattle.lu_run.specs.Bundled.{IsRunOf};
ghost use Rattle.lu_run.specs.Verdicts.{NamesEventOf};
ghost use Rattle.lu_run.specs.declared.judging.RunVerdict.TheVariants.{Passes};
ghost use Rattle.lu_cli.specs.Refusals.{Answered};
ghost use Rattle.lu_cli.specs.Runs as spec;
ghost use Rattle.lu_cli.specs.Runs.{AreSettledTexts, HasReason, IsAnswerToRuns, IsFaultOfCase, IsFaultOfSetup, IsSettledSetup, JudgesRunTexts, JudgesRuns, ShowsRun};
ghost use Rattle.lu_cli.specs.Witness.{seen_as_three};

use crate::answer::Answer;
use crate::refusal::Refusal;
use crate::texts::{Case, Fault, find_unsettled};
use lu_component::Component;
use lu_lang::read_component;
use lu_machine::Test;
use lu_report::Bounds;
use lu_run::{
    Run, RunVerdict, find_order_before, first_failing, is_run_text, read_runs, read_setup,
    write_failing, write_reason,
};
use lu_test::Matrix;
use std::alloc::{AllocError, Global};

/// That this many runs pass, or histories have their witnesses.
pub(crate) fn all_witnessed(alloc: Global, count: usize) -> Result<Answer, AllocError>
    ensures { IfOk result (λ answer. answer ≡ spec.all_witnessed count) }
{
    Ok(Answer {
        text: format!(in alloc; "witness pass {count}\n")?,
        status: 0,
    })
}

/// That run or history `number` does not pass: its text, and why.
pub(crate) fn unwitnessed(
    alloc: Global,
    number: usize,
    shown: &str,
    reason: &str,
) -> Result<Answer, AllocError>
    ensures { IfOk result (λ a. a ≡ spec.unwitnessed number shown.now reason.now) }
{
    let mut text = format!(in alloc; "witness fail {number}\n---\n")?;
    text.push_str(shown)?;
    text.push_str("---\n")?;
    text.push_str(reason)?;
    Ok(Answer { text, status: 1 })
}

/// That run `number` is not decided, and why.
fn undecided(alloc: Global, number: usize, reason: &str) -> Result<Answer, AllocError>
    ensures { IfOk result (λ a. a ≡ spec.undecided number reason.now) }
{
    let mut text = format!(in alloc; "witness undecided {number}\n---\n")?;
    text.push_str(reason)?;
    Ok(Answer { text, status: 3 })
}

/// The run with this number, which does not pass, and why.
fn show_run(
    alloc: Global,
    component: &Component,
    number: usize,
    run: &Run,
    verdict: RunVerdict,
    reason: &str,
) -> Result<Answer, AllocError>
    requires { NamesEventOf run.now verdict }
    ensures { ShowsRun component.now number run.now verdict reason.now result }
{
    match verdict {
        RunVerdict::Offends { .. } => undecided(alloc, number, reason),
        _ => {
            let text = write_failing(alloc, component, run, verdict)?;
            unwitnessed(alloc, number, text.as_str(), reason)
        }
    }
}

/// Why the run does not pass, with the order of a linearization of the events before, if one is found.
fn reason_of(
    alloc: Global,
    test: Test<'_>,
    bound: u16,
    run: &Run,
    verdict: RunVerdict,
) -> Result<String, AllocError>
    requires of { IsRunOf test.component.now run.now }
    requires names { NamesEventOf run.now verdict }
    requires few { bound ≤ MOST_MOVES }
    ensures { IfOk result (λ t. HasReason test.entry bound run.now verdict (string_bytes t)) }
{
    let order = find_order_before(alloc, test.component, test.matrix, run, bound, verdict)?;
    write_reason(alloc, test.component, run, bound, verdict, &order)
}

/// Runs, judged by the serial runs after the setup of the matrix.
fn judge_runs(
    alloc: Global,
    test: Test<'_>,
    bounds: Bounds,
    runs: &[Run],
) -> Result<Answer, AllocError>
    requires { All (IsRunOf test.component.now) runs.now }
    ensures { JudgesRuns test.entry bounds runs.now result }
{
    let bound = bounds.serial();
    match first_failing(alloc, test.component, test.matrix, runs, bound)? {
        None => all_witnessed(alloc, runs.len()),
        Some((number, verdict)) => {
            let run = &runs[number];
            let reason = reason_of(alloc, test, bound, run, verdict)?;
            show_run(alloc, test.component, number, run, verdict, reason.as_str())
        }
    }
}

/// The texts of runs, judged by the serial runs after the setup of the matrix.
fn judge_run_texts(
    alloc: Global,
    test: Test<'_>,
    bounds: Bounds,
    parts: &[&[u8]],
) -> Result<Answer, Refusal>
    ensures { JudgesRunTexts test.entry bounds (texts parts.now) result }
{
    let runs = read_runs(alloc, test.component, parts)?;
    Ok(judge_runs(alloc, test, bounds, &runs)?)
}

/// The matrix of a setup, from its text. The setup is run last.
fn setup_of(alloc: Global, component: &Component, text: &[u8]) -> Result<Matrix, Fault>
    ensures read { IfOk result (IsSettledSetup component.now text.now) }
    ensures runs { IfOk result (CanRun component.now) }
    ensures fault { IfErr result (IsFaultOfSetup component.now text.now) }
{
    let matrix = read_setup(alloc, component, text)?;
    match find_unsettled(alloc, component, &matrix)? {
        Some(call) => Err(Fault::Setup(call)),
        None => Ok(matrix),
    }
}

/// The component and the setup of two texts.
fn read_case(alloc: Global, component: &[u8], setup: &[u8]) -> Result<Case, Fault>
    ensures read { IfOk result (λ c. AreSettledTexts component.now setup.now c.component c.matrix) }
    ensures runs { IfOk result (λ c. CanRun c.component c.matrix) }
    ensures fault { IfErr result (IsFaultOfCase component.now setup.now) }
{
    let component = read_component(alloc, component)?;
    let matrix = setup_of(alloc, &component, setup)?;
    Ok(Case { component, matrix })
}

/// The answer to a component, a setup and runs.
pub(crate) fn answer_runs(
    alloc: Global,
    bounds: Bounds,
    component: &[u8],
    setup: &[u8],
    runs: &[&[u8]],
) -> Result<Answer, Refusal>
    ensures { Answered (IsAnswerToRuns bounds (component.now, setup.now, texts runs.now)) result }
{
    let case = read_case(alloc, component, setup)?;
    let test = Test {
        component: &case.component,
        matrix: &case.matrix,
    };
    judge_run_texts(alloc, test, bounds, runs)
}

/// The component, the setup and the runs of a bundle, if it has runs: where the second part is a run,
/// the setup is empty.
pub(crate) fn run_parts<'a, 'b>(
    alloc: Global,
    parts: &'b [&'a [u8]],
) -> Result<Option<(&'a [u8], &'a [u8], &'b [&'a [u8]])>, AllocError>
    ensures { IfOk result (λ found. seen_as_three found ≡ spec.run_parts (texts parts.now)) }
{
    if parts.len() < 2 {
        return Ok(None);
    }
    if is_run_text(alloc, parts[1])? {
        return Ok(Some((parts[0], b"".as_slice(), &parts[1..])));
    }
    if parts.len() < 3 {
        return Ok(None);
    }
    if is_run_text(alloc, parts[2])? {
        return Ok(Some((parts[0], parts[1], &parts[2..])));
    }
    Ok(None)
}
