//! The setup before a run.

ghost use Rattle.std.specs.Prelude.{◌≡◌, IfOk};
ghost use Rattle.lu_text.specs.Faults.{Gives, meaning_of};
ghost use Rattle.lu_text.specs.Lines.{texts};
ghost use Rattle.lu_component.specs.Component.{IsComponent};
ghost use Rattle.lu_test.specs.Matrix.{IsOf};
ghost use Rattle.lu_test.specs.MatrixText.{IsDraft};
ghost use Rattle.lu_test.specs.Signatures.{signatures as signatures_said};
ghost use Rattle.lu_run.specs.Setups.{setup_grammar, setup_matrix, setup_said};

use lu_component::Component;
use lu_test::{Calls, Matrix, MatrixDraft, MatrixFault, Signature, signatures_of};
use lu_text::{Fault, lines_of};
use std::alloc::{AllocError, Global};

/// The matrix of the setup that was read, and of one thread without calls.
fn setup_matrix(
    alloc: Global,
    component: &Component,
    draft: MatrixDraft,
) -> Result<Matrix, AllocError>
    requires limits { IsDraft draft }
    requires fits { IsOf (setup_matrix draft) component.now }
    ensures { IfOk result (λ matrix. matrix ≡ setup_matrix draft) }
{
    let MatrixDraft { setup, .. } = draft;
    let setup = setup.unwrap_or_else(|| Calls::new(Vec::new(alloc)));
    let mut threads = Vec::new(alloc);
    threads.push(Calls::new(Vec::new(alloc)))?;
    match Matrix::new(component, setup, threads) {
        Some(matrix) => Ok(matrix),
        None => unreachable!(),
    }
}

/// The matrix of the setup that these lines say, by these signatures of the component's operations.
fn read_lines(
    alloc: Global,
    component: &Component,
    signatures: &[Signature<'_>],
    lines: &[&[u8]],
) -> Result<Matrix, MatrixFault>
    requires sound { IsComponent component.now }
    requires signatures { signatures.now ≡ signatures_said component.now.operations }
    ensures exact { Gives result (setup_said component.now (texts lines.now)) }
    ensures of { IfOk result (λ matrix. IsOf matrix component.now) }
{
    let mut draft = MatrixDraft {
        setup: None,
        threads: Vec::new(alloc),
    };
    for (before, text) in lines.iter().enumerate() {
        if let Some(kind) = draft.line(alloc, signatures, text)? {
            return Err(Fault::At(kind, before + 1));
        }
    }
    Ok(setup_matrix(alloc, component, draft)?)
}

/// Reads a setup from its text: the text of a matrix, in which the threads may be missing, and don't
/// matter. The matrix returned has this setup, and one thread without calls.
///
/// # Errors
///
/// The first fault by line, as of a matrix's text, or that there is no memory for the setup.
pub fn read_setup(alloc: Global, component: &Component, text: &[u8]) -> Result<Matrix, MatrixFault>
    ensures exact { Gives result (meaning_of (setup_grammar component.now) text.now) }
    ensures of { IfOk result (λ matrix. IsOf matrix component.now) }
{
    let lines = lines_of(alloc, text)?;
    let signatures = signatures_of(alloc, component.operations())?;
    read_lines(alloc, component, &signatures, &lines)
}
