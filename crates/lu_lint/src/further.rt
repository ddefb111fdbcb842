//! The parts of a bundle after its matrix.

ghost use Rattle.lu_text.specs.Lines.{texts};
ghost use Rattle.lu_lint.specs.Further as spec;
ghost use Rattle.lu_lint.specs.Further.{AfterMatrix, AfterThird, FourthSaid};
ghost use Rattle.lu_lint.specs.Parts.{PartSaid};
ghost use Rattle.lu_lint.specs.Said.{SaysAlso, SaysSuch};

use crate::bundle::above_next;
use crate::histories::with_histories;
use crate::part_kind::{PartKind, kind_of};
use crate::remark::{Cause, Remark, Said, with_remark};
use crate::report::with_report;
use crate::schedule::with_schedule;
use crate::specification::with_specification;
use crate::words::Wording;
use lu_spec::Marks;
use lu_test::Matrix;
use std::alloc::{AllocError, Global};

/// The remarks with one on the line before these parts, where they are parts after the fourth.
fn with_fifth<W: Wording>(
    alloc: Global,
    wording: &W,
    all: Vec<Remark>,
    above: usize,
    parts: &[&[u8]],
) -> Result<Vec<Remark>, AllocError>
    ensures { SaysAlso result all (spec.fifth_said above (texts parts.now)) }
{
    match parts.split_first() {
        None => Ok(all),
        Some(_) => {
            let said = Said {
                line: above,
                cause: Cause::FifthPart,
            };
            let words = wording.fifth_part(alloc)?;
            with_remark(all, said, words)
        }
    }
}

/// The remarks with those on a part that is to be this, after a matrix that is read or not.
fn with_part<W: Wording>(
    alloc: Global,
    wording: &W,
    all: Vec<Remark>,
    kind: PartKind,
    matrix: &Option<Matrix>,
    marks: Marks,
    above: usize,
    text: &[u8],
) -> Result<Vec<Remark>, AllocError>
    ensures { SaysSuch result all (PartSaid marks kind matrix.now above text.now) }
{
    match kind {
        PartKind::Specification => with_specification(
            alloc, wording, all, matrix, marks, above, text,
        ),
        PartKind::Report => with_report(alloc, wording, all, above, text),
        PartKind::History => with_histories(alloc, wording, all, matrix, above, &[text]),
        PartKind::Schedule => with_schedule(alloc, wording, all, above, text),
    }
}

/// The remarks with those on the parts after a schedule or a report: a specification, and on the
/// line after it where parts stand there.
fn with_fourth<W: Wording>(
    alloc: Global,
    wording: &W,
    all: Vec<Remark>,
    matrix: &Option<Matrix>,
    marks: Marks,
    above: usize,
    parts: &[&[u8]],
) -> Result<Vec<Remark>, AllocError>
    ensures { SaysSuch result all (FourthSaid marks matrix.now above (texts parts.now)) }
{
    let Some((text, others)) = parts.split_first() else {
        return Ok(all);
    };
    let all = with_specification(alloc, wording, all, matrix, marks, above, text)?;
    let after = above_next(alloc, above, text)?;
    with_fifth(alloc, wording, all, after, others)
}

/// The remarks with those on the parts after a third part that is this.
fn with_after<W: Wording>(
    alloc: Global,
    wording: &W,
    all: Vec<Remark>,
    kind: PartKind,
    matrix: &Option<Matrix>,
    marks: Marks,
    above: usize,
    parts: &[&[u8]],
) -> Result<Vec<Remark>, AllocError>
    ensures { SaysSuch result all (AfterThird marks kind matrix.now above (texts parts.now)) }
{
    match kind {
        PartKind::Specification | PartKind::History => {
            // For the proof: what this returns is looked at before it is returned.
            let all = with_histories(alloc, wording, all, matrix, above, parts)?;
            Ok(all)
        }
        PartKind::Report | PartKind::Schedule => with_fourth(
            alloc, wording, all, matrix, marks, above, parts,
        ),
    }
}

/// The remarks with those on the parts after a matrix that is read or not.
pub(crate) fn with_further<W: Wording>(
    alloc: Global,
    wording: &W,
    all: Vec<Remark>,
    matrix: &Option<Matrix>,
    marks: Marks,
    above: usize,
    parts: &[&[u8]],
) -> Result<Vec<Remark>, AllocError>
    ensures { SaysSuch result all (AfterMatrix marks matrix.now above (texts parts.now)) }
{
    let Some((text, others)) = parts.split_first() else {
        return Ok(all);
    };
    let kind = kind_of(alloc, text)?;
    let all = with_part(alloc, wording, all, kind, matrix, marks, above, text)?;
    let after = above_next(alloc, above, text)?;
    with_after(alloc, wording, all, kind, matrix, marks, after, others)
}
