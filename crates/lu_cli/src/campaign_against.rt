//! What is answered to campaigns against a trusted component.

ghost use Rattle.std.specs.Prelude.{◌≡◌, IfErr, IfOk, Ok};
ghost use Rattle.lu_text.specs.Faults.{meaning_of};
ghost use Rattle.lu_lang.specs.Grammar.{component_grammar};
ghost use Rattle.lu_text.specs.Lines.{texts};
ghost use Rattle.lu_text.specs.Results.{Builds};
ghost use Rattle.lu_test.specs.Matrix.{IsOf};
ghost use Rattle.lu_refine.specs.Roles.{AllCallsOf, AllHaveArguments};
ghost use Rattle.lu_refine.specs.ByThread.{asked_of};
ghost use Rattle.lu_survey.specs.Comparing.{CanCompare, HasSameOperations, IsComparedOf};
ghost use Rattle.lu_cli.specs.Refusals.{Answered};
ghost use Rattle.lu_cli.specs.CampaignAgainst as spec;
ghost use Rattle.lu_cli.specs.CampaignAgainst.{ComparesAlike, ComparesLists, ComparesNumbers, ComparesSettled, ComparesTest, ComparesWith, IsTrustedFor, IsTrustedRefusal, all_agree, comparison_answer, difference_answer, run_verdict};

use crate::answer::{Answer, show_schedule, verdict, write_both};
use crate::campaign::{count_all, roles_of};
use crate::refusal::Refusal;
use crate::request::{CampaignOptions, CampaignPart, CampaignThreads};
use crate::texts::{Fault, read_texts};
use lu_component::Component;
use lu_lang::read_component;
use lu_machine::{Test, settles};
use lu_refine::{CampaignFault, CampaignProgress, Roles, same_lists};
use lu_survey::{Comparison, Difference, compare_slice_with_progress, have_same_operations};
use lu_test::{Calls, Matrix, Schedule};
use lu_text::exactly_three;
use std::alloc::{AllocError, Global};

/// That on all matrices of a campaign the component agrees with the trusted one.
fn show_agreement(alloc: Global, count: u64) -> Result<Answer, AllocError>
    ensures { IfOk result (λ answer. answer ≡ all_agree count) }
{
    Ok(Answer {
        text: format!(in alloc; "campaign agrees {count}\n")?,
        status: 0,
    })
}

/// A verdict, with the matrix and a schedule of it.
fn show_run(
    alloc: Global,
    component: &Component,
    matrix: &Matrix,
    schedule: &Schedule,
    words: &str,
    status: u8,
) -> Result<Answer, AllocError>
    requires { IsOf matrix.now component.now }
    ensures { Builds result
        (run_verdict words.now component.now matrix.now schedule.now status) }
{
    let shown = show_schedule(alloc, component, matrix, schedule)?;
    verdict(alloc, words, shown.text.as_str(), status)
}

/// How a component differs on a matrix from a trusted one.
fn show_difference(
    alloc: Global,
    component: &Component,
    matrix: &Matrix,
    difference: &Difference,
) -> Result<Answer, AllocError>
    requires { IsOf matrix.now component.now }
    ensures { Builds result (difference_answer component.now matrix.now difference.now) }
{
    match difference {
        Difference::TrustedCut(schedule) => {
            show_run(alloc, component, matrix, schedule, "trusted serial-cut", 3)
        }
        Difference::TrustedConflict { schedule, .. } => {
            show_run(
                alloc,
                component,
                matrix,
                schedule,
                "trusted nondeterministic",
                3,
            )
        }
        Difference::Serially(schedule) => {
            show_run(alloc, component, matrix, schedule, "differs serially", 1)
        }
        Difference::Concurrently(report) => {
            let text = write_both(alloc, component, matrix, report)?;
            verdict(alloc, "differs concurrently", text.as_str(), 1)
        }
    }
}

/// What a comparison with a trusted component finds.
fn show_comparison(
    alloc: Global,
    component: &Component,
    found: &Comparison,
) -> Result<Answer, AllocError>
    requires { IsComparedOf component.now found.now }
    ensures { IfOk result (λ answer.
        answer ≡ comparison_answer component.now found.now) }
{
    match found {
        Comparison::AllAgree(count) => show_agreement(alloc, *count),
        Comparison::First { matrix, difference } => {
            show_difference(alloc, component, matrix, difference)
        }
    }
}

/// How the component differs from a trusted one on the matrices with the numbers `from` to
/// `upto - 1`.
fn compare_numbers<P: CampaignProgress>(
    alloc: Global,
    progress: &P,
    roles: Roles<'_>,
    trusted: &Component,
    from: u64,
    upto: u64,
) -> Result<Answer, Refusal>
    requires { CanCompare (asked_of roles) trusted.now }
    ensures { ComparesNumbers trusted.entry.now roles.entry from upto result }
{
    let found = compare_slice_with_progress(alloc, progress, roles, trusted, from, upto)?;
    Ok(show_comparison(alloc, roles.component, &found)?)
}

/// What is answered where the component is held against a trusted one.
fn compare_part<P: CampaignProgress>(
    alloc: Global,
    progress: &P,
    roles: Roles<'_>,
    trusted: &Component,
    part: CampaignPart,
) -> Result<Answer, Refusal>
    requires { CanCompare (asked_of roles) trusted.now }
    ensures { Answered
        (spec.IsComparedPart trusted.entry.now part (asked_of roles.entry)) result }
{
    match part {
        CampaignPart::Whole => compare_numbers(alloc, progress, roles, trusted, 0, u64::MAX),
        CampaignPart::Slice { from, upto } => compare_numbers(
            alloc, progress, roles, trusted, from, upto,
        ),
        CampaignPart::Count => count_all(alloc, roles.candidates, roles.calls),
    }
}

/// What is answered against a trusted component, where each thread draws from its own list.
fn compare_lists<'a, P: CampaignProgress>(
    alloc: Global,
    progress: &P,
    test: Test<'a>,
    trusted: &Component,
    lists: &'a [Calls],
    options: CampaignOptions,
) -> Result<Answer, Refusal>
    requires trusted { IsTrustedFor test trusted.now }
    requires of { AllCallsOf test.component.now lists.now }
    requires arguments { AllHaveArguments lists.now }
    ensures { ComparesLists trusted.now test.entry lists.now options result }
{
    let part = options.part;
    compare_part(
        alloc,
        progress,
        roles_of(test, lists, options),
        trusted,
        part,
    )
}

/// What is answered against a trusted component, where this many threads draw from the one line of
/// the matrix.
fn compare_alike<P: CampaignProgress>(
    alloc: Global,
    progress: &P,
    test: Test<'_>,
    trusted: &Component,
    threads: u8,
    options: CampaignOptions,
) -> Result<Answer, Refusal>
    requires { IsTrustedFor test trusted.now }
    ensures { ComparesAlike trusted.now test.entry threads options result }
{
    match test.matrix.as_slice() {
        [candidates] => {
            let lists = same_lists(alloc, candidates.as_slice(), threads)?;
            compare_lists(alloc, progress, test, trusted, &lists, options)
        }
        _ => Err(Refusal::Campaign(CampaignFault::Candidates)),
    }
}

/// What is answered to a test against a trusted component.
fn compare_test<P: CampaignProgress>(
    alloc: Global,
    progress: &P,
    test: Test<'_>,
    trusted: &Component,
    options: CampaignOptions,
) -> Result<Answer, Refusal>
    requires { IsTrustedFor test trusted.now }
    ensures { ComparesTest trusted.now test.entry options result }
{
    match options.threads {
        CampaignThreads::Alike(threads) => compare_alike(
            alloc, progress, test, trusted, threads, options,
        ),
        CampaignThreads::Own => {
            let lines = test.matrix.as_slice();
            compare_lists(alloc, progress, test, trusted, lines, options)
        }
    }
}

/// What is answered where the trusted component has the operations of the other one: the setup has
/// to settle with it too.
fn compare_settled<P: CampaignProgress>(
    alloc: Global,
    progress: &P,
    test: Test<'_>,
    trusted: &Component,
    options: CampaignOptions,
) -> Result<Answer, Refusal>
    requires { HasSameOperations test.component.now trusted.now }
    ensures { ComparesSettled trusted.now test.entry options result }
{
    match settles(alloc, trusted, test.matrix)? {
        Some(call) => Err(Refusal::Texts(Fault::Setup(call))),
        None => compare_test(alloc, progress, test, trusted, options),
    }
}

/// The trusted component.
fn read_trusted(alloc: Global, text: &[u8]) -> Result<Component, Refusal>
    ensures read { IfOk result (λ t. meaning_of component_grammar text.now ≡ Ok t) }
    ensures refused { IfErr result (IsTrustedRefusal text.now) }
{
    match read_component(alloc, text) {
        Ok(trusted) => Ok(trusted),
        Err(fault) => Err(Refusal::Texts(Fault::Component(fault))),
    }
}

/// What is answered to a test and the text of a trusted component.
fn compare_with<P: CampaignProgress>(
    alloc: Global,
    progress: &P,
    test: Test<'_>,
    options: CampaignOptions,
    trusted: &[u8],
) -> Result<Answer, Refusal>
    ensures { ComparesWith trusted.now test.entry options result }
{
    let trusted = read_trusted(alloc, trusted)?;
    if !have_same_operations(test.component, &trusted) {
        return Err(Refusal::Operations);
    }
    compare_settled(alloc, progress, test, &trusted, options)
}

/// `lineup campaign --spec`: component, matrix, and a component that is trusted.
pub(crate) fn answer_campaign_against<P: CampaignProgress>(
    alloc: Global,
    progress: &P,
    options: CampaignOptions,
    parts: &[&[u8]],
) -> Result<Answer, Refusal>
    ensures { Answered (spec.IsAnswerToCampaignAgainst options (texts parts.now)) result }
{
    let (component, matrix, trusted) = exactly_three(parts).ok_or(Refusal::Parts)?;
    let case = read_texts(alloc, component, matrix)?;
    let test = Test {
        component: &case.component,
        matrix: &case.matrix,
    };
    compare_with(alloc, progress, test, options, trusted)
}
