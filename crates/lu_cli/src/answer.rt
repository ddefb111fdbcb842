//! Answers: texts with their exit statuses.

ghost use Rattle.std.specs.Prelude.{◌≡◌, IfOk, string_bytes};
ghost use Rattle.lu_test.specs.Matrix.{IsOf};
ghost use Rattle.lu_certify.specs.Certificates.{NamesCutOf};
ghost use Rattle.lu_cli.specs.Outcomes as outcomes;
ghost use Rattle.lu_cli.specs.Shows as spec;
ghost use Rattle.lu_cli.specs.Shows.{IsListed, two_texts};

use lu_certify::Certificate;
use lu_component::Component;
use lu_report::{Finding, Report, write_report};
use lu_spec::{Spec, write_spec};
use lu_test::{Matrix, Schedule, write_matrix, write_schedule};
use std::alloc::{AllocError, Global};
use std::marker::Model;

/// What goes out: a text, and the exit status.
#[derive(Debug, Drop)]
pub struct Answer {
    pub text: String,
    pub status: u8,
}

impl Model for Answer {
    ghost use Rattle.std.specs.Prelude.{string_bytes};
    ghost use Rattle.lu_cli.specs.Outcomes.{Answer as AnAnswer};

    ghost Value = { AnAnswer };

    ghost view = { λ a. record { text = string_bytes a.text; status = a.status } };
}

/// A refusal, for this reason.
pub fn refused(alloc: Global, why: &str) -> Result<Answer, AllocError>
    ensures { IfOk result (λ answer. answer ≡ outcomes.refused why.now) }
{
    Ok(Answer {
        text: format!(in alloc; "refused {why}\n")?,
        status: 2,
    })
}

/// That the move at this index is infeasible.
pub fn infeasible(alloc: Global, index: usize) -> Result<Answer, AllocError>
    ensures { IfOk result (λ answer. answer ≡ outcomes.infeasible index) }
{
    Ok(Answer {
        text: format!(in alloc; "infeasible {index}\n")?,
        status: 1,
    })
}

/// The status of a report: 0 for a pass, 1 for a failure or nondeterminism, 3 for a serial cut.
fn status_of(report: &Report) -> u8
    ensures { result ≡ spec.status_of report.now.finding }
{
    match report.finding() {
        Finding::Pass(_) => 0,
        Finding::Fail { .. } => 1,
        Finding::Nondeterministic { .. } => 1,
        Finding::SerialCut(_) => 3,
    }
}

/// The text of a report, and its status.
pub fn show_report(alloc: Global, report: &Report) -> Result<Answer, AllocError>
    ensures { IfOk result (λ answer. answer ≡ spec.reported report.now) }
{
    Ok(Answer {
        text: write_report(alloc, report)?,
        status: status_of(report),
    })
}

/// The text of a matrix, and of its report.
pub fn write_both(
    alloc: Global,
    component: &Component,
    matrix: &Matrix,
    report: &Report,
) -> Result<String, AllocError>
    requires { IsOf matrix.now component.now }
    ensures { IfOk result (λ t. string_bytes t ≡ two_texts component.now matrix.now report.now) }
{
    let mut text = write_matrix(alloc, component, matrix)?;
    text.push_str("---\n")?;
    text.push_str(write_report(alloc, report)?.as_str())?;
    Ok(text)
}

/// The text of a matrix and of its report, and the report's status.
pub fn show_matrix(
    alloc: Global,
    component: &Component,
    matrix: &Matrix,
    report: &Report,
) -> Result<Answer, AllocError>
    requires { IsOf matrix.now component.now }
    ensures { IfOk result (λ a. a ≡ spec.with_matrix component.now matrix.now report.now) }
{
    Ok(Answer {
        text: write_both(alloc, component, matrix, report)?,
        status: status_of(report),
    })
}

/// A verdict in words, with what shows it.
pub(crate) fn verdict(
    alloc: Global,
    words: &str,
    text: &str,
    status: u8,
) -> Result<Answer, AllocError>
    ensures { IfOk result (λ answer. answer ≡ spec.verdict words.now text.now status) }
{
    Ok(Answer {
        text: format!(in alloc; "{words}\n---\n{text}")?,
        status,
    })
}

/// What a certificate says: the specification, or a cut with its report or its schedule.
pub fn show_certificate(
    alloc: Global,
    component: &Component,
    certificate: &Certificate,
) -> Result<Answer, AllocError>
    requires { NamesCutOf component.now certificate.now }
    ensures { IfOk result (spec.ShowsCertificate component.now certificate.now) }
{
    match certificate {
        Certificate::Linearizable(spec) => {
            let text = write_spec(alloc, spec)?;
            verdict(alloc, "linearizable", text.as_str(), 0)
        }
        Certificate::NotLinearizable { matrix, report } => {
            let text = write_both(alloc, component, matrix, report)?;
            verdict(alloc, "not linearizable", text.as_str(), 1)
        }
        Certificate::Livelock { matrix, schedule } => {
            let shown = show_schedule(alloc, component, matrix, schedule)?;
            verdict(alloc, "livelock", shown.text.as_str(), 1)
        }
        Certificate::Undecided { matrix, report } => {
            let text = write_both(alloc, component, matrix, report)?;
            verdict(alloc, "undecided", text.as_str(), 3)
        }
    }
}

/// The text of a specification.
pub fn show_spec(alloc: Global, spec: &Spec) -> Result<Answer, AllocError>
    ensures { IfOk result (IsListed spec.now) }
{
    Ok(Answer {
        text: write_spec(alloc, spec)?,
        status: 0,
    })
}

/// The text of a matrix and of a schedule of it.
pub fn show_schedule(
    alloc: Global,
    component: &Component,
    matrix: &Matrix,
    schedule: &Schedule,
) -> Result<Answer, AllocError>
    requires { IsOf matrix.now component.now }
    ensures { IfOk result (λ a.
        a ≡ spec.with_schedule component.now (matrix.now, schedule.now)) }
{
    let mut text = write_matrix(alloc, component, matrix)?;
    text.push_str("---\n")?;
    text.push_str(write_schedule(alloc, schedule)?.as_str())?;
    Ok(Answer { text, status: 1 })
}
