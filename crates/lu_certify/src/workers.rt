//! Certificates by workers.

ghost use Rattle.std.specs.Prelude.{◌≡◌, IfErr, IfOk};
ghost use Rattle.lu_machine.specs.Starts.{CanRun};
ghost use Rattle.lu_parallel.specs.declared.fault.CheckFault.TheVariants.{Memory};
ghost use Rattle.lu_certify.specs.Certificates.{IsCertificateWithin, NamesCutOf};
ghost use Rattle.lu_certify.specs.Laws.{Decides};
ghost use Rattle.lu_certify.specs.Limited.{IsCertifiedWithin, IsLookedWithin};

use crate::asked::Asked;
use crate::certificate::Certificate;
use crate::certifying::{certify_knowing, conclude};
use crate::cuts::{count_cuts, cut_at};
use crate::judging::may_spin;
use crate::limited::LimitedTest;
use crate::limits::Limits;
use crate::looked::Looked;
use crate::looking::look_after_check;
use crate::progress::{Progress, Silent};
use crate::sharing::look_by_workers;
use crate::so_far::SoFar;
use lu_component::Component;
use lu_machine::Test;
use lu_parallel::{CheckFault, Gate, Options, check};
use lu_test::Matrix;
use std::alloc::Global;
use std::sync::Wait;
use std::thread::Threads;

/// What is found of the cut, checked by as many workers as the options say.
fn check_cut<R: Threads + Wait, G: Gate, P: Progress>(
    rt: &R,
    alloc: Global,
    gate: &G,
    progress: &P,
    cut: Test<'_>,
    asked: Asked,
    options: Options,
    nodes: u32,
) -> Result<Looked, CheckFault>
    ensures { IfOk result (IsLookedWithin cut.entry asked options nodes) }
{
    let Test { component, matrix } = cut;
    let report = check(rt, alloc, gate, component, matrix, options)?;
    let cut = LimitedTest {
        component,
        matrix,
        limits: Limits::of(options, nodes),
    };
    Ok(look_after_check(alloc, cut, report, asked, progress)?)
}

/// The certificate, by as many workers as the options say.
fn certify_cuts<R: Threads + Wait, G: Gate, P: Progress>(
    rt: &R,
    alloc: Global,
    gate: &G,
    progress: &P,
    test: Test<'_>,
    options: Options,
    nodes: u32,
) -> Result<Certificate, CheckFault>
    ensures certificate { IfOk result (IsCertifiedWithin test.entry options nodes) }
    ensures decides { IfOk result (Decides test.entry.component.now test.entry.matrix.now) }
    ensures of { IfOk result (NamesCutOf test.entry.component.now) }
    ensures alone { IfErr result (λ fault. options.workers ≡ 1 → fault ≡ Memory) }
{
    let limited = LimitedTest {
        component: test.component,
        matrix: test.matrix,
        limits: Limits::of(options, nodes),
    };
    if options.workers() == 1 {
        return Ok(certify_knowing(alloc, limited, Vec::new(alloc), progress)?);
    }
    if may_spin(test.component) {
        let known = look_by_workers(rt, alloc, progress, limited, options.workers())?;
        return Ok(certify_knowing(alloc, limited, known, progress)?);
    }
    let cuts = count_cuts(test.matrix);
    let mut so_far = SoFar::Clear;
    for number in 0..cuts {
        let matrix = cut_at(alloc, test.matrix, number)?;
        let cut = Test {
            component: test.component,
            matrix: &matrix,
        };
        let asked = so_far.asked();
        match check_cut(rt, alloc, gate, progress, cut, asked, options, nodes)? {
            Looked::Failing(report) => {
                return Ok(Certificate::NotLinearizable { matrix, report });
            }
            Looked::Stands { livelock, unclear } => {
                so_far = so_far.after(matrix, livelock, unclear);
            }
        }
    }
    Ok(conclude(alloc, limited, so_far)?)
}

/// Whether the answer is that it is not known.
fn is_undecided(answer: &Result<Certificate, CheckFault>) -> bool {
    match answer {
        Ok(certificate) => certificate.is_undecided(),
        Err(_) => false,
    }
}

/// The same certificate as by [`certify_by_workers`]. It reports meanwhile how far it has come.
///
/// # Errors
///
/// As those of [`certify_by_workers`].
pub fn certify_with_progress<R: Threads + Wait, G: Gate, P: Progress>(
    rt: &R,
    alloc: Global,
    gate: &G,
    progress: &P,
    component: &Component,
    matrix: &Matrix,
    options: Options,
    nodes: u32,
) -> Result<Certificate, CheckFault>
    requires { CanRun component.now matrix.now }
    ensures certificate { IfOk result (IsCertificateWithin component.now matrix.now options nodes) }
    ensures decides { IfOk result (Decides component.now matrix.now) }
    ensures of { IfOk result (NamesCutOf component.now) }
    ensures alone { IfErr result (λ fault. options.workers ≡ 1 → fault ≡ Memory) }
{
    progress.begin(count_cuts(matrix));
    let test = Test { component, matrix };
    let answer = certify_cuts(rt, alloc, gate, progress, test, options, nodes);
    progress.end(is_undecided(&answer));
    answer
}

/// The same certificate as by [`certify`](crate::certify), where as many workers as the options say
/// go through the cuts, each of which has at most this many nodes: it is the same for any number of
/// workers and any depth. With one worker all is done on the calling thread. More of them share the
/// cuts where threads may spin, each cut as a whole, and there may be as many nodes of each; else
/// they share the pieces of each cut, one cut after the other, and pass the gate at each piece. The
/// calling thread waits until they are done.
///
/// # Errors
///
/// [`CheckFault::Memory`] where memory was refused. [`CheckFault::Worker`] where the start of a
/// thread was refused, and never with one worker.
pub fn certify_by_workers<R: Threads + Wait, G: Gate>(
    rt: &R,
    alloc: Global,
    gate: &G,
    component: &Component,
    matrix: &Matrix,
    options: Options,
    nodes: u32,
) -> Result<Certificate, CheckFault>
    requires { CanRun component.now matrix.now }
    ensures certificate { IfOk result (IsCertificateWithin component.now matrix.now options nodes) }
    ensures decides { IfOk result (Decides component.now matrix.now) }
    ensures of { IfOk result (NamesCutOf component.now) }
    ensures alone { IfErr result (λ fault. options.workers ≡ 1 → fault ≡ Memory) }
{
    certify_with_progress(rt, alloc, gate, &Silent, component, matrix, options, nodes)
}
