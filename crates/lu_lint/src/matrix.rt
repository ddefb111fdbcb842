//! The faults of a matrix's text.

ghost use Rattle.std.specs.Prelude.{◌≡◌, IfOk, IfSome};
ghost use Rattle.lu_lint.specs.Lint.{message_here};
ghost use Rattle.lu_lint.specs.Matrix as spec;
ghost use Rattle.lu_lint.specs.Matrix.{FitsBy, LintsMatrixLines, ReadsDraft, fault_said};
ghost use Rattle.lu_lint.specs.Bundle.{LintsMatrix};
ghost use Rattle.lu_lint.specs.Runs.{AreTest};
ghost use Rattle.lu_lint.specs.Said.{SaysAlso, message_said};
ghost use Rattle.lu_lint.specs.declared.remark.FaultKind.TheVariants as part;
ghost use Rattle.lu_text.specs.Faults.{fault_in};
ghost use Rattle.lu_test.specs.Matrix.{IsOf};
ghost use Rattle.lu_test.specs.MatrixText.{AreFew, CanRead, IsDraft, finished, matrix_of as left_matrix};
ghost use Rattle.lu_text.specs.Lines.{lines_of as lines_in, texts};

use crate::component::ReadComponent;
use crate::remark::{
    Cause, FaultKind, Position, Remark, Said, line_below, with_remark, with_words,
};
use crate::signatures::signatures_meant;
use crate::words::Wording;
use lu_component::{Component, MOST_OPS};
use lu_test::{
    Calls, Matrix, MatrixDraft, MatrixFaultKind, Signature, end_fault, mended, signatures_of,
};
use lu_text::{lines_of, words_of};
use std::alloc::{AllocError, Global};

/// What is said of a fault of a matrix.
fn said(above: usize, kind: MatrixFaultKind, line: usize) -> Said
    ensures { result ≡ message_said part.Matrix above (message_here line kind) }
{
    Said {
        line: line_below(above, line),
        cause: Cause::Fault(FaultKind::Matrix(kind), line),
    }
}

/// The remarks with that on this line after this draft, where it has a fault, the draft from which
/// the lines after it are read, and the line's fault.
fn read_draft<W: Wording>(
    alloc: Global,
    wording: &W,
    signatures: &[Signature<'_>],
    all: Vec<Remark>,
    at: &Position,
    mut draft: MatrixDraft,
    text: &[u8],
) -> Result<(Vec<Remark>, MatrixDraft, Option<MatrixFaultKind>), AllocError>
    requires { CanRead signatures.now draft }
    ensures { ReadsDraft result all signatures.now at.now draft text.now }
{
    let Some(kind) = draft.line(alloc, signatures, text)? else {
        return Ok((all, draft, None));
    };
    let words = wording.matrix_fault(alloc, signatures, &draft, kind, text)?;
    let all = with_remark(all, said(at.above, kind, at.line), words)?;
    let draft = mended(alloc, draft, text)?;
    Ok((all, draft, Some(kind)))
}

/// The remarks with that on the end of the text, where it has a fault.
fn with_end<W: Wording>(
    alloc: Global,
    wording: &W,
    all: Vec<Remark>,
    at: &Position,
    draft: &MatrixDraft,
) -> Result<Vec<Remark>, AllocError>
    ensures { SaysAlso result all (fault_said at.now (fault_in (finished draft.now))) }
{
    match end_fault(draft) {
        None => Ok(all),
        Some(kind) => {
            let words = wording.matrix_end(alloc)?;
            with_remark(all, said(at.above, kind, at.line), words)
        }
    }
}

/// What lines leave, and whether they have no fault.
#[derive(Drop)]
pub(crate) struct LeftLines {
    pub draft: MatrixDraft,
    pub sound: bool,
}

/// The matrix of the component that lines without a fault, or with some, left, where there is none,
/// nor one of the end of the text.
fn matrix_of(alloc: Global, component: &Component, left: LeftLines) -> Option<Matrix>
    requires limits { IsDraft left.draft }
    requires fits { IsOf (left_matrix left.draft) component.now }
    ensures read { result ≡ spec.matrix_if left.draft left.sound }
    ensures fits { IfSome result (λ matrix. IsOf matrix component.now) }
{
    let LeftLines { draft, sound } = left;
    if !sound || end_fault(&draft).is_some() {
        return None;
    }
    let MatrixDraft { setup, threads } = draft;
    // Where there is no line of it, the setup has no calls.
    let setup = setup.unwrap_or_else(|| Calls::new(Vec::new(alloc)));
    Matrix::new(component, setup, threads)
}

/// The remarks with those on these lines of a matrix, whose calls are judged by these signatures,
/// and what the lines leave.
fn read_lines<W: Wording>(
    alloc: Global,
    wording: &W,
    signatures: &[Signature<'_>],
    mut all: Vec<Remark>,
    above: usize,
    lines: &[&[u8]],
) -> Result<(Vec<Remark>, LeftLines), AllocError>
    requires { AreFew signatures.now }
    ensures said { LintsMatrixLines result all signatures.now above (texts lines.now) }
    ensures fits { IfOk result (λ (all, left). FitsBy signatures.now left.draft) }
{
    let mut draft = MatrixDraft {
        setup: None,
        threads: Vec::new(alloc),
    };
    let mut sound = true;
    let mut seen = Vec::new(alloc);
    for (before, text) in lines.iter().enumerate() {
        let at = Position {
            above,
            line: before + 1,
            seen,
        };
        let (next, left, fault) = read_draft(alloc, wording, signatures, all, &at, draft, text)?;
        all = next;
        draft = left;
        sound &= fault.is_none();
        let words = words_of(alloc, text)?;
        seen = with_words(at.seen, before + 1, &words)?;
    }
    let at = Position {
        above,
        line: lines.len() + 1,
        seen,
    };
    let all = with_end(alloc, wording, all, &at, &draft)?;
    Ok((all, LeftLines { draft, sound }))
}

/// The remarks with those on the text of a matrix, whose calls are judged by these signatures, and
/// what its lines leave.
fn read_text<W: Wording>(
    alloc: Global,
    wording: &W,
    signatures: &[Signature<'_>],
    all: Vec<Remark>,
    above: usize,
    text: &[u8],
) -> Result<(Vec<Remark>, LeftLines), AllocError>
    requires { AreFew signatures.now }
    ensures said { LintsMatrixLines result all signatures.now above (lines_in text.now) }
    ensures fits { IfOk result (λ (all, left). FitsBy signatures.now left.draft) }
{
    let lines = lines_of(alloc, text)?;
    read_lines(alloc, wording, signatures, all, above, &lines)
}

/// The remarks with those on the text of a matrix after a component, before which `above` lines of
/// the bundle stand: one on every fault, in the order of their lines; and the matrix, where it and
/// the component have none. After a component with faults the calls are judged by the signatures
/// that it was to have, where these are no more than a component may have.
///
/// # Errors
///
/// There is no memory for the remarks.
pub(crate) fn with_matrix<W: Wording>(
    alloc: Global,
    wording: &W,
    all: Vec<Remark>,
    component: &ReadComponent,
    above: usize,
    text: &[u8],
) -> Result<(Vec<Remark>, Option<Matrix>), AllocError>
    ensures said { LintsMatrix result all component.now above text.now }
    ensures fits { IfOk result (λ (all, read). AreTest component.now read) }
{
    match component {
        ReadComponent::Faulty(faulty) => {
            let signatures = signatures_meant(alloc, faulty)?;
            if signatures.len() > MOST_OPS {
                return Ok((all, None));
            }
            let (all, _) = read_text(alloc, wording, &signatures, all, above, text)?;
            Ok((all, None))
        }
        ReadComponent::Sound(component) => {
            let signatures = signatures_of(alloc, component.operations())?;
            let (all, left) = read_text(alloc, wording, &signatures, all, above, text)?;
            Ok((all, matrix_of(alloc, component, left)))
        }
    }
}
