//! Checks of texts.

ghost use Rattle.std.specs.Prelude.{◌≡◌, IfErr, IfOk};
ghost use Rattle.lu_text.specs.declared.fault.Fault.TheVariants.{Memory};
ghost use Rattle.lu_test.specs.Matrix.{IsOf};
ghost use Rattle.lu_machine.specs.Starts.{CanRun, IsFirstUnsettled};
ghost use Rattle.lu_spec.specs.declared.given.Marks.TheVariants.{Refused};
ghost use Rattle.lu_cli.specs.Texts.{AreSettled, IsFaultOfSpec, IsCheckFault, IsCheckAgainstFault, IsFaultOfMatrix, IsFaultOfTexts, IsReportTextAgainst, IsReportText, IsReportAgainstText, IsSettledMatrix};

use lu_lang::{Component, LangFault, read_component};
use lu_machine::settles;
use lu_parallel::{CheckFault, OpenGate, Options, check, check_against};
use lu_report::{Report, write_report};
use lu_spec::{Marks, SpecFault, read_given_spec};
use lu_test::{Matrix, MatrixFault, read_matrix};
use std::alloc::{AllocError, Global};
use std::sync::Wait;
use std::thread::Threads;
use thiserror::Error;

/// Why texts have no report. It is shown as what went wrong is shown.
#[derive(Clone, Copy, Debug, PartialEq, Eq, Error)]
pub enum Fault {
    /// The component's text is refused.
    #[error("{0}")]
    Component(LangFault),

    /// The component is read, and the matrix's text is refused, or memory for it or its setup.
    #[error("{0}")]
    Matrix(MatrixFault),

    /// Both are read, and this call of the setup, from 0, is the first that does not end within 256
    /// moves after it.
    #[error("U1 call {0}")]
    Setup(u8),

    /// Both are read, the setup settles, and the specification's text is refused.
    #[error("{0}")]
    Spec(SpecFault),

    /// All are read, and memory or the start of a worker's thread was refused.
    #[error("{0}")]
    Check(CheckFault),
}

impl From<LangFault> for Fault {
    ghost use Rattle.lu_cli.specs.declared.texts.Fault.TheVariants.{Component};

    ghost from_gives = { λ fault e. e ≡ Component fault };

    fn from(fault: LangFault) -> Fault {
        Fault::Component(fault)
    }
}

impl From<MatrixFault> for Fault {
    ghost use Rattle.lu_cli.specs.declared.texts.Fault.TheVariants.{Matrix};

    ghost from_gives = { λ fault e. e ≡ Matrix fault };

    fn from(fault: MatrixFault) -> Fault {
        Fault::Matrix(fault)
    }
}

impl From<SpecFault> for Fault {
    ghost use Rattle.lu_cli.specs.declared.texts.Fault.TheVariants.{Spec};

    ghost from_gives = { λ fault e. e ≡ Spec fault };

    fn from(fault: SpecFault) -> Fault {
        Fault::Spec(fault)
    }
}

impl From<CheckFault> for Fault {
    ghost use Rattle.lu_cli.specs.declared.texts.Fault.TheVariants.{Check};

    ghost from_gives = { λ fault e. e ≡ Check fault };

    fn from(fault: CheckFault) -> Fault {
        Fault::Check(fault)
    }
}

impl From<AllocError> for Fault {
    ghost use Rattle.lu_parallel.specs.declared.fault.CheckFault.TheVariants.{Memory};
    ghost use Rattle.lu_cli.specs.declared.texts.Fault.TheVariants.{Check};

    ghost from_gives = { λ _ e. e ≡ Check Memory };

    fn from(_refused: AllocError) -> Fault {
        Fault::Check(CheckFault::Memory)
    }
}

/// A component, and a matrix of it.
#[derive(Drop)]
pub struct Case {
    pub component: Component,
    pub matrix: Matrix,
}

/// The number of the first call of the setup that does not end, if there is one. Refused memory is
/// a fault of the matrix.
pub(crate) fn find_unsettled(
    alloc: Global,
    component: &Component,
    matrix: &Matrix,
) -> Result<Option<u8>, MatrixFault>
    requires { IsOf matrix.now component.now }
    ensures unsettled { IfOk result (IsFirstUnsettled component.now matrix.now) }
    ensures fault { IfErr result (λ fault. fault ≡ Memory) }
{
    Ok(settles(alloc, component, matrix)?)
}

/// The matrix of a component, from its text. Its setup is run last.
pub(crate) fn matrix_of(alloc: Global, component: &Component, text: &[u8]) -> Result<Matrix, Fault>
    ensures read { IfOk result (IsSettledMatrix component.now text.now) }
    ensures runs { IfOk result (CanRun component.now) }
    ensures fault { IfErr result (IsFaultOfMatrix component.now text.now) }
{
    let matrix = read_matrix(alloc, component, text)?;
    match find_unsettled(alloc, component, &matrix)? {
        Some(call) => Err(Fault::Setup(call)),
        None => Ok(matrix),
    }
}

/// The component and the matrix of two texts. The component's text is read first, and the matrix's
/// setup is run last.
///
/// # Errors
///
/// [`Fault::Component`] or [`Fault::Matrix`] with the fault of the first text that has one.
/// [`Fault::Setup`] where both are read, and the setup does not settle.
pub fn read_texts(alloc: Global, component: &[u8], matrix: &[u8]) -> Result<Case, Fault>
    ensures read { IfOk result (λ c. AreSettled component.now matrix.now c.component c.matrix) }
    ensures runs { IfOk result (λ c. CanRun c.component c.matrix) }
    ensures fault { IfErr result (IsFaultOfTexts component.now matrix.now) }
{
    let component = read_component(alloc, component)?;
    let matrix = matrix_of(alloc, &component, matrix)?;
    Ok(Case { component, matrix })
}

/// Checks the component and the matrix of two texts: returns the text of their report, which is the
/// same for any number of workers and any depth. The component's text is read first. With two
/// workers or more the call waits for them.
///
/// # Errors
///
/// [`Fault::Component`] or [`Fault::Matrix`] with the fault of the first text that has one.
/// [`Fault::Setup`] where both are read, and the setup does not settle. [`Fault::Check`] where it
/// does, and memory was refused, or the start of a worker's thread, which one worker doesn't need.
pub fn check_texts<X: Threads + Wait>(
    rt: &X,
    alloc: Global,
    component: &[u8],
    matrix: &[u8],
    options: Options,
) -> Result<String, Fault>
    ensures report { IfOk result (IsReportText component.now matrix.now options) }
    ensures fault { IfErr result (IsCheckFault component.now matrix.now options) }
{
    let case = read_texts(alloc, component, matrix)?;
    let report = check(rt, alloc, &OpenGate, &case.component, &case.matrix, options)?;
    Ok(write_report(alloc, &report)?)
}

/// The report of a component and a matrix against the specification of a text.
///
/// # Errors
///
/// [`Fault::Spec`] and [`Fault::Check`], as those of [`check_texts_against`].
fn report_against<X: Threads + Wait>(
    rt: &X,
    alloc: Global,
    component: &Component,
    matrix: &Matrix,
    spec: &[u8],
    options: Options,
) -> Result<Report, Fault>
    requires { CanRun component.now matrix.now }
    ensures report { IfOk result (IsReportAgainstText component.now matrix.now Refused spec.now options) }
    ensures fault { IfErr result (IsFaultOfSpec component.now matrix.now Refused spec.now options) }
{
    let specification = read_given_spec(alloc, matrix, spec, Marks::Refused)?;
    let tree = specification.tree();
    let report = check_against(rt, alloc, &OpenGate, component, matrix, &tree, options)?;
    Ok(report)
}

/// Checks the component and the matrix of two texts against the specification of a third: returns
/// the text of their report, which is the same for any number of workers and any depth. The
/// component's text is read first, and then the matrix's. No serial run is made. With two workers
/// or more the call waits for them.
///
/// # Errors
///
/// [`Fault::Component`], [`Fault::Matrix`] or [`Fault::Spec`] with the fault of the first text that
/// has one. [`Fault::Setup`] where the first two are read, and the setup does not settle.
/// [`Fault::Check`] where all are read, and memory was refused, or the start of a worker's thread,
/// which one worker doesn't need.
pub fn check_texts_against<X: Threads + Wait>(
    rt: &X,
    alloc: Global,
    component: &[u8],
    matrix: &[u8],
    spec: &[u8],
    options: Options,
) -> Result<String, Fault>
    ensures report { IfOk result (IsReportTextAgainst component.now matrix.now spec.now options) }
    ensures fault { IfErr result (IsCheckAgainstFault component.now matrix.now spec.now options) }
{
    let case = read_texts(alloc, component, matrix)?;
    let report = report_against(rt, alloc, &case.component, &case.matrix, spec, options)?;
    Ok(write_report(alloc, &report)?)
}
