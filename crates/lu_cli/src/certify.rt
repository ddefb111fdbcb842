//! Whether a component is linearizable on a matrix.

ghost use Rattle.std.specs.Prelude.{◌≡◌, ◌≤◌};
ghost use Rattle.lu_text.specs.Lines.{texts};
ghost use Rattle.lu_component.specs.declared.component.TheConstants.{MOST_LOCAL};
ghost use Rattle.lu_cli.specs.Refusals.{Answered};
ghost use Rattle.lu_cli.specs.Certify as spec;
ghost use Rattle.lu_cli.specs.Certify.{Certifies};

use crate::answer::{Answer, show_certificate};
use crate::at_once::certify_at_once;
use crate::refusal::Refusal;
use crate::request::CertifyOptions;
use crate::texts::read_texts;
use lu_certify::{Limits, Progress, Silent};
use lu_component::{Component, MOST_LOCAL};
use lu_grain::{certify_longer, certify_longer_with_progress};
use lu_machine::Test;
use lu_parallel::OpenGate;
use lu_text::exactly_two;
use std::alloc::Global;
use std::sync::Wait;
use std::thread::Threads;

/// How many local instructions run with a move of the component that is certified.
pub(crate) fn certified_local(asked: CertifyOptions, component: &Component) -> u8
    ensures local { result ≡ spec.certified_local asked component.now }
    ensures longer { component.now.local ≤ result }
    ensures few { result ≤ MOST_LOCAL }
{
    (asked.local.min(MOST_LOCAL as u16) as u8).max(component.local())
}

/// The certificate of the matrix, by one search of all cuts or by a search of each.
fn certify_matrix<X: AllocGlobal + Threads + Wait, P: Progress>(
    rt: &X,
    progress: &P,
    test: Test<'_>,
    asked: CertifyOptions,
) -> Result<Answer, Refusal>
    ensures { Certifies test.entry asked result }
{
    let (alloc, options) = (rt.alloc(), asked.options);
    if let Some(answer) = certify_at_once(alloc, progress, test, asked)? {
        return Ok(answer);
    }
    let local = certified_local(asked, test.component);
    let certificate = certify_longer_with_progress(
        rt,
        alloc,
        &OpenGate,
        progress,
        test.component,
        test.matrix,
        local,
        options,
        asked.nodes,
    )?;
    Ok(show_certificate(alloc, test.component, &certificate)?)
}

/// `lineup certify`: component and matrix. It tells meanwhile how far it has come.
pub(crate) fn answer_certify<X: AllocGlobal + Threads + Wait, P: Progress>(
    rt: &X,
    progress: &P,
    asked: CertifyOptions,
    parts: &[&[u8]],
) -> Result<Answer, Refusal>
    ensures { Answered (spec.IsAnswerToCertify asked (texts parts.now)) result }
{
    let (component, matrix) = exactly_two(parts).ok_or(Refusal::Parts)?;
    let case = read_texts(rt.alloc(), component, matrix)?;
    let test = Test {
        component: &case.component,
        matrix: &case.matrix,
    };
    certify_matrix(rt, progress, test, asked)
}

/// The certificate of the matrix, made on the calling thread.
fn certify_matrix_alone(
    alloc: Global,
    test: Test<'_>,
    asked: CertifyOptions,
) -> Result<Answer, Refusal>
    ensures { Certifies test.entry asked result }
{
    let (options, nodes) = (asked.options, asked.nodes);
    if let Some(answer) = certify_at_once(alloc, &Silent, test, asked)? {
        return Ok(answer);
    }
    let local = certified_local(asked, test.component);
    let limits = Limits::of(options, nodes);
    let certificate = certify_longer(alloc, test.component, test.matrix, local, limits)?;
    Ok(show_certificate(alloc, test.component, &certificate)?)
}

/// `lineup certify` on the calling thread: component and matrix.
pub(crate) fn answer_certify_alone(
    alloc: Global,
    asked: CertifyOptions,
    parts: &[&[u8]],
) -> Result<Answer, Refusal>
    ensures { Answered (spec.IsAnswerToCertify asked (texts parts.now)) result }
{
    let (component, matrix) = exactly_two(parts).ok_or(Refusal::Parts)?;
    let case = read_texts(alloc, component, matrix)?;
    let test = Test {
        component: &case.component,
        matrix: &case.matrix,
    };
    certify_matrix_alone(alloc, test, asked)
}
