//! Certificates by longer moves and with workers.

ghost use Rattle.std.specs.Prelude.{◌≡◌, ◌≤◌, IfErr, IfOk};
ghost use Rattle.lu_component.specs.declared.component.TheConstants.{MOST_LOCAL};
ghost use Rattle.lu_machine.specs.Starts.{CanRun};
ghost use Rattle.lu_parallel.specs.declared.fault.CheckFault.TheVariants.{Memory};
ghost use Rattle.lu_certify.specs.Certificates.{NamesCutOf};
ghost use Rattle.lu_grain.specs.Laws.{DecidesAlike};
ghost use Rattle.lu_grain.specs.Longer.{IsMadeWithin};

use crate::copies::with_local;
use lu_certify::{Certificate, Progress, Silent, certify_with_progress};
use lu_component::Component;
use lu_parallel::{CheckFault, Gate, Options};
use lu_test::Matrix;
use std::alloc::Global;
use std::sync::Wait;
use std::thread::Threads;

/// The same certificate as by [`certify_longer_by_workers`]. It reports meanwhile how far it has
/// come.
///
/// # Errors
///
/// As those of [`certify_longer_by_workers`].
pub fn certify_longer_with_progress<R: Threads + Wait, G: Gate, P: Progress>(
    rt: &R,
    alloc: Global,
    gate: &G,
    progress: &P,
    component: &Component,
    matrix: &Matrix,
    local: u8,
    options: Options,
    nodes: u32,
) -> Result<Certificate, CheckFault>
    requires of { CanRun component.now matrix.now }
    requires longer { component.now.local ≤ local }
    requires few { local ≤ MOST_LOCAL }
    ensures certificate { IfOk result (IsMadeWithin local component.now matrix.now options nodes) }
    ensures decides { IfOk result (DecidesAlike component.now matrix.now) }
    ensures of { IfOk result (NamesCutOf component.now) }
    ensures alone { IfErr result (λ fault. options.workers ≡ 1 → fault ≡ Memory) }
{
    let longer = with_local(alloc, component, local)?;
    certify_with_progress(rt, alloc, gate, progress, &longer, matrix, options, nodes)
}

/// The same certificate as by [`certify_longer`](crate::certify_longer), by as many workers as the
/// options say.
///
/// # Errors
///
/// [`CheckFault::Memory`] where memory was refused. [`CheckFault::Worker`] where the start of a
/// thread was refused, and never with one worker.
pub fn certify_longer_by_workers<R: Threads + Wait, G: Gate>(
    rt: &R,
    alloc: Global,
    gate: &G,
    component: &Component,
    matrix: &Matrix,
    local: u8,
    options: Options,
    nodes: u32,
) -> Result<Certificate, CheckFault>
    requires of { CanRun component.now matrix.now }
    requires longer { component.now.local ≤ local }
    requires few { local ≤ MOST_LOCAL }
    ensures certificate { IfOk result (IsMadeWithin local component.now matrix.now options nodes) }
    ensures decides { IfOk result (DecidesAlike component.now matrix.now) }
    ensures of { IfOk result (NamesCutOf component.now) }
    ensures alone { IfErr result (λ fault. options.workers ≡ 1 → fault ≡ Memory) }
{
    certify_longer_with_progress(
        rt, alloc, gate, &Silent, component, matrix, local, options, nodes,
    )
}
