//! What is answered to campaigns.

ghost use Rattle.std.specs.Prelude.{◌≡◌, IfOk, IfSome, OnOk, string_bytes};
ghost use Rattle.lu_text.specs.Lines.{texts};
ghost use Rattle.lu_text.specs.Writing.{Writes};
ghost use Rattle.lu_test.specs.Matrix.{IsOf};
ghost use Rattle.lu_refine.specs.Campaigns.{IsFoundOf};
ghost use Rattle.lu_refine.specs.Roles.{AllCallsOf, AllHaveArguments};
ghost use Rattle.lu_refine.specs.ByThread.{CanAsk, asked_of};
ghost use Rattle.lu_certify.specs.Certificates.{NamesCutOf};
ghost use Rattle.lu_survey.specs.Certified.{IsCertifiedOf};
ghost use Rattle.lu_survey.specs.Surveys.{AreShownOf, IsShownOf};
ghost use Rattle.lu_cli.specs.Refusals.{Answered};
ghost use Rattle.lu_cli.specs.Campaign as spec;
ghost use Rattle.lu_cli.specs.Campaign.{PushesFirst, ShowsBelow, TriesAlike, TriesLists, TriesTest, lists_of, tally_line};

use crate::answer::{Answer, show_certificate, show_matrix};
use crate::refusal::Refusal;
use crate::request::{CampaignOptions, CampaignPart, CampaignThreads, CampaignTrial};
use crate::texts::read_texts;
use lu_certify::{Certificate, DEFAULT_NODES};
use lu_component::Component;
use lu_machine::Test;
use lu_refine::{
    Campaign, CampaignFault, CampaignProgress, Roles, campaign_by_thread_with_progress,
    campaign_slice_with_progress, count_matrices, same_lists,
};
use lu_survey::{
    CertifiedCampaign, CertifiedMatrix, Survey, certify_slice_with_progress,
    survey_slice_with_progress,
};
use lu_test::{Calls, Matrix, write_matrix};
use lu_text::exactly_two;
use std::alloc::{AllocError, Global};

/// A number, on a line of its own.
fn show_number(alloc: Global, number: u64) -> Result<Answer, AllocError>
    ensures { IfOk result (λ answer. answer ≡ spec.numbered number) }
{
    Ok(Answer {
        text: format!(in alloc; "{number}\n")?,
        status: 0,
    })
}

/// That all matrices of a campaign pass, and how many there are.
fn show_count(alloc: Global, count: u64) -> Result<Answer, AllocError>
    ensures { IfOk result (λ answer. answer ≡ spec.all_pass count) }
{
    Ok(Answer {
        text: format!(in alloc; "campaign pass {count}\n")?,
        status: 0,
    })
}

/// That on all matrices of a campaign the component is linearizable, and how many there are.
fn show_linearizable(alloc: Global, count: u64) -> Result<Answer, AllocError>
    ensures { IfOk result (λ answer. answer ≡ spec.all_linearizable count) }
{
    Ok(Answer {
        text: format!(in alloc; "campaign linearizable {count}\n")?,
        status: 0,
    })
}

/// The text of a matrix, and what its certificate says.
fn show_certified(
    alloc: Global,
    component: &Component,
    matrix: &Matrix,
    certificate: &Certificate,
) -> Result<Answer, AllocError>
    requires matrix { IsOf matrix.now component.now }
    requires cut { NamesCutOf component.now certificate.now }
    ensures { ShowsBelow component.now matrix.now certificate.now result }
{
    let shown = show_certificate(alloc, component, certificate)?;
    let mut text = write_matrix(alloc, component, matrix)?;
    text.push_str("---\n")?;
    text.push_str(shown.text.as_str())?;
    Ok(Answer {
        text,
        status: shown.status,
    })
}

/// The first matrix of a kind, with its certificate, after the text.
fn push_first(
    alloc: Global,
    component: &Component,
    first: &Option<CertifiedMatrix>,
    text: &mut String,
) -> Result<(), AllocError>
    requires { IfSome first.now (IsShownOf component.now) }
    ensures { OnOk result (PushesFirst component.now first.now text.old text.new) }
{
    match first {
        None => Ok(()),
        Some(one) => {
            let shown = show_certified(alloc, component, &one.matrix, &one.certificate)?;
            text.push_str("---\n")?;
            text.push_str(shown.text.as_str())?;
            Ok(())
        }
    }
}

/// 1 where a certificate of a survey says that something fails, else 3 where one is undecided.
fn survey_status(survey: &Survey) -> u8
    ensures { result ≡ spec.survey_status survey.now }
{
    if survey.not_linearizable.count > 0 || survey.livelock.count > 0 {
        1
    } else if survey.undecided.count > 0 {
        3
    } else {
        0
    }
}

/// How many matrices have a certificate of a kind, on a line after the text.
fn push_tally(text: &mut String, kind: &str, count: u64) -> Result<(), AllocError>
    ensures { Writes result text.old text.new (tally_line kind.now count) }
{
    writeln!(text, "{kind} {count}")?;
    Ok(())
}

/// How many matrices have a certificate of each kind.
fn survey_head(alloc: Global, survey: &Survey) -> Result<String, AllocError>
    ensures { IfOk result (λ text. string_bytes text ≡ spec.survey_head survey.now) }
{
    let mut text = String::from_str(alloc, "campaign certified\n")?;
    push_tally(&mut text, "linearizable", survey.linearizable.count)?;
    push_tally(&mut text, "not linearizable", survey.not_linearizable.count)?;
    push_tally(&mut text, "livelock", survey.livelock.count)?;
    push_tally(&mut text, "undecided", survey.undecided.count)?;
    Ok(text)
}

/// How many matrices have a certificate of each kind, and the first of each kind but linearizable.
fn show_survey(alloc: Global, component: &Component, survey: &Survey) -> Result<Answer, AllocError>
    requires { AreShownOf component.now survey.now }
    ensures { IfOk result (spec.ShowsSurvey component.now survey.now) }
{
    let mut text = survey_head(alloc, survey)?;
    push_first(alloc, component, &survey.not_linearizable.first, &mut text)?;
    push_first(alloc, component, &survey.livelock.first, &mut text)?;
    push_first(alloc, component, &survey.undecided.first, &mut text)?;
    Ok(Answer {
        text,
        status: survey_status(survey),
    })
}

/// How many matrices there are, where all pass; or the first that does not, with its report.
fn show_found(alloc: Global, component: &Component, found: &Campaign) -> Result<Answer, AllocError>
    requires { IsFoundOf component.now found.now }
    ensures { IfOk result (λ answer. answer ≡ spec.found_answer component.now found.now) }
{
    match found {
        Campaign::AllPass(count) => show_count(alloc, *count),
        Campaign::First { matrix, report } => show_matrix(alloc, component, matrix, report),
    }
}

/// What all matrices of the campaign show.
fn try_all<P: CampaignProgress>(
    alloc: Global,
    progress: &P,
    roles: Roles<'_>,
) -> Result<Answer, Refusal>
    requires { CanAsk (asked_of roles) }
    ensures { Answered (spec.IsCheckedWhole (asked_of roles.entry)) result }
{
    let found = campaign_by_thread_with_progress(alloc, progress, roles)?;
    Ok(show_found(alloc, roles.component, &found)?)
}

/// What the matrices of the campaign with the numbers `from` to `upto - 1` show.
fn try_slice<P: CampaignProgress>(
    alloc: Global,
    progress: &P,
    roles: Roles<'_>,
    from: u64,
    upto: u64,
) -> Result<Answer, Refusal>
    requires { CanAsk (asked_of roles) }
    ensures { Answered (spec.IsCheckedNumbers (asked_of roles.entry) from upto) result }
{
    let found = campaign_slice_with_progress(alloc, progress, roles, from, upto)?;
    Ok(show_found(alloc, roles.component, &found)?)
}

/// How many matrices there are, where the component is linearizable on all; or the first on which
/// it is not certified to be, with its certificate.
fn show_certificates(
    alloc: Global,
    component: &Component,
    found: &CertifiedCampaign,
) -> Result<Answer, AllocError>
    requires { IsCertifiedOf component.now found.now }
    ensures { IfOk result (spec.ShowsCertified component.now found.now) }
{
    match found {
        CertifiedCampaign::AllLinearizable(count) => show_linearizable(alloc, *count),
        CertifiedCampaign::First {
            matrix,
            certificate,
        } => show_certified(alloc, component, matrix, certificate),
    }
}

/// The answer that shows what certificates say, which are let go.
fn answer_certificates(
    alloc: Global,
    component: &Component,
    found: CertifiedCampaign,
) -> Result<Answer, AllocError>
    requires { IsCertifiedOf component.now found }
    ensures { IfOk result (spec.ShowsCertified component.now found) }
{
    // For the proof: what is shown is let go at one exit.
    show_certificates(alloc, component, &found)
}

/// What the certificates of the matrices with the numbers `from` to `upto - 1` say.
fn certify_numbers<P: CampaignProgress>(
    alloc: Global,
    progress: &P,
    roles: Roles<'_>,
    from: u64,
    upto: u64,
) -> Result<Answer, Refusal>
    requires { CanAsk (asked_of roles) }
    ensures { Answered (spec.IsCertifiedNumbers (asked_of roles.entry) from upto) result }
{
    let found = certify_slice_with_progress(alloc, progress, roles, DEFAULT_NODES, from, upto)?;
    Ok(answer_certificates(alloc, roles.component, found)?)
}

/// How many matrices the campaign has.
pub(crate) fn count_all(alloc: Global, candidates: &[Calls], calls: u8) -> Result<Answer, Refusal>
    ensures { Answered (spec.IsCountAnswer candidates.now calls) result }
{
    let count = count_matrices(alloc, candidates, calls)?;
    Ok(show_number(alloc, count)?)
}

/// What is answered where the matrices are checked.
fn check_part<P: CampaignProgress>(
    alloc: Global,
    progress: &P,
    roles: Roles<'_>,
    part: CampaignPart,
) -> Result<Answer, Refusal>
    requires { CanAsk (asked_of roles) }
    ensures { Answered (spec.IsCheckedPart part (asked_of roles.entry)) result }
{
    match part {
        CampaignPart::Whole => try_all(alloc, progress, roles),
        CampaignPart::Slice { from, upto } => try_slice(alloc, progress, roles, from, upto),
        CampaignPart::Count => count_all(alloc, roles.candidates, roles.calls),
    }
}

/// What is answered where the matrices are certified.
fn certify_part<P: CampaignProgress>(
    alloc: Global,
    progress: &P,
    roles: Roles<'_>,
    part: CampaignPart,
) -> Result<Answer, Refusal>
    requires { CanAsk (asked_of roles) }
    ensures { Answered (spec.IsCertifiedPart part (asked_of roles.entry)) result }
{
    match part {
        CampaignPart::Whole => certify_numbers(alloc, progress, roles, 0, u64::MAX),
        CampaignPart::Slice { from, upto } => certify_numbers(alloc, progress, roles, from, upto),
        CampaignPart::Count => count_all(alloc, roles.candidates, roles.calls),
    }
}

/// The answer that shows a survey, which is let go.
fn answer_survey(alloc: Global, component: &Component, survey: Survey) -> Result<Answer, AllocError>
    requires { AreShownOf component.now survey }
    ensures { IfOk result (spec.ShowsSurvey component.now survey) }
{
    // For the proof: what is shown is let go at one exit.
    show_survey(alloc, component, &survey)
}

/// How many of the matrices with the numbers `from` to `upto - 1` have a certificate of each kind.
fn survey_numbers<P: CampaignProgress>(
    alloc: Global,
    progress: &P,
    roles: Roles<'_>,
    from: u64,
    upto: u64,
) -> Result<Answer, Refusal>
    requires { CanAsk (asked_of roles) }
    ensures { Answered (spec.IsSurveyedNumbers (asked_of roles.entry) from upto) result }
{
    let survey = survey_slice_with_progress(alloc, progress, roles, DEFAULT_NODES, from, upto)?;
    Ok(answer_survey(alloc, roles.component, survey)?)
}

/// What is answered where all matrices are certified, whatever their certificates.
fn survey_part<P: CampaignProgress>(
    alloc: Global,
    progress: &P,
    roles: Roles<'_>,
    part: CampaignPart,
) -> Result<Answer, Refusal>
    requires { CanAsk (asked_of roles) }
    ensures { Answered (spec.IsSurveyedPart part (asked_of roles.entry)) result }
{
    match part {
        CampaignPart::Whole => survey_numbers(alloc, progress, roles, 0, u64::MAX),
        CampaignPart::Slice { from, upto } => survey_numbers(alloc, progress, roles, from, upto),
        CampaignPart::Count => count_all(alloc, roles.candidates, roles.calls),
    }
}

/// What is asked for where each thread draws from its own list, after the setup of the test.
pub(crate) fn roles_of<'a>(
    test: Test<'a>,
    lists: &'a [Calls],
    options: CampaignOptions,
) -> Roles<'a>
    requires of { AllCallsOf test.component.now lists.now }
    requires arguments { AllHaveArguments lists.now }
    ensures asked { asked_of result ≡ lists_of test.entry lists.now options }
    ensures can_ask { CanAsk (asked_of result) }
{
    Roles {
        component: test.component,
        setup: test.matrix.setup(),
        candidates: lists,
        calls: options.calls,
        bound: options.bounds.bound(),
        serial: options.bounds.serial(),
    }
}

/// What is answered where each thread draws from its own list.
fn try_lists<'a, P: CampaignProgress>(
    alloc: Global,
    progress: &P,
    test: Test<'a>,
    lists: &'a [Calls],
    options: CampaignOptions,
) -> Result<Answer, Refusal>
    requires of { AllCallsOf test.component.now lists.now }
    requires arguments { AllHaveArguments lists.now }
    ensures { TriesLists test.entry lists.now options result }
{
    let (trial, part) = (options.trial, options.part);
    let roles = roles_of(test, lists, options);
    match trial {
        CampaignTrial::Checked => check_part(alloc, progress, roles, part),
        CampaignTrial::Certified => certify_part(alloc, progress, roles, part),
        CampaignTrial::Surveyed => survey_part(alloc, progress, roles, part),
    }
}

/// What is answered where this many threads draw from the one line of the matrix.
fn try_alike<P: CampaignProgress>(
    alloc: Global,
    progress: &P,
    test: Test<'_>,
    threads: u8,
    options: CampaignOptions,
) -> Result<Answer, Refusal>
    ensures { TriesAlike test.entry threads options result }
{
    match test.matrix.as_slice() {
        [candidates] => {
            let lists = same_lists(alloc, candidates.as_slice(), threads)?;
            try_lists(alloc, progress, test, &lists, options)
        }
        _ => Err(Refusal::Campaign(CampaignFault::Candidates)),
    }
}

/// What is answered to a test: its matrix lists the calls that threads draw from.
fn try_test<P: CampaignProgress>(
    alloc: Global,
    progress: &P,
    test: Test<'_>,
    options: CampaignOptions,
) -> Result<Answer, Refusal>
    ensures { TriesTest test.entry options result }
{
    match options.threads {
        CampaignThreads::Alike(threads) => try_alike(alloc, progress, test, threads, options),
        CampaignThreads::Own => try_lists(alloc, progress, test, test.matrix.as_slice(), options),
    }
}

/// `lineup campaign`: component, and a matrix whose one thread, or each of whose threads, makes the
/// calls to choose from.
pub(crate) fn answer_campaign<P: CampaignProgress>(
    alloc: Global,
    progress: &P,
    options: CampaignOptions,
    parts: &[&[u8]],
) -> Result<Answer, Refusal>
    ensures { Answered (spec.IsAnswerToCampaign options (texts parts.now)) result }
{
    let (component, matrix) = exactly_two(parts).ok_or(Refusal::Parts)?;
    let case = read_texts(alloc, component, matrix)?;
    let test = Test {
        component: &case.component,
        matrix: &case.matrix,
    };
    try_test(alloc, progress, test, options)
}
