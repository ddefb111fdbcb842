//! Every fault of a specification's text.

ghost use Rattle.std.specs.Prelude.{◌≡◌, ◌++◌, IfOk, IfSome, IfNone};
ghost use Rattle.std.specs.Option.{option_to_list};
ghost use Rattle.lu_text.specs.Lines.{kept_lines};
ghost use Rattle.lu_trie.specs.Conflicts.{IsDeterministic};
ghost use Rattle.lu_spec.specs.EveryFault.{AddsFaults, AreSpecFaults, IsFirstLineFault, IsTaken, Judges, LeftBy, TakesNone};
ghost use Rattle.lu_spec.specs.Reading.{IsSomeGathering};

use crate::fault::{SpecFaultKind, SpecLineFault};
use crate::fitting::{calls_of, fits_in};
use crate::history_line::{history_in, is_word};
use crate::reader::{ListedDraft, next_history, nothing_listed, with_history};
use lu_history::SerialOp;
use lu_test::Matrix;
use lu_text::{Fault, cut_line};
use lu_trie::Trie;
use std::alloc::{AllocError, Global};

/// The history that a line says, where the matrix has it and it conflicts with none of the set.
fn taken_in(
    alloc: Global,
    matrix: &Matrix,
    set: &Trie<Global>,
    line: &[u8],
) -> Result<Option<Vec<SerialOp>>, AllocError>
    requires { IsDeterministic set.now }
    ensures some { IfOk result (λ o.
        IfSome o (λ q. IsTaken matrix.now set.now line.now q.items)) }
    ensures none { IfOk result (λ o. IfNone o (TakesNone matrix.now set.now line.now)) }
{
    match history_in(alloc, line)? {
        None => Ok(None),
        Some(history) => {
            if !fits_in(&history, calls_of(matrix)) {
                return Ok(None);
            }
            if set.conflict(&history).is_some() {
                return Ok(None);
            }
            Ok(Some(history))
        }
    }
}

/// The draft after a line that has a fault: with its history, where that is one to be taken.
fn left_by(
    alloc: Global,
    matrix: &Matrix,
    draft: ListedDraft,
    line: &[u8],
) -> Result<ListedDraft, AllocError>
    requires { IsSomeGathering matrix.now draft.set draft.last.items }
    ensures { IfOk result (LeftBy matrix.now draft line.now) }
{
    match taken_in(alloc, matrix, &draft.set, line)? {
        None => Ok(draft),
        Some(history) => {
            // For the proof: what this returns is looked at before it is returned.
            let next = with_history(draft, history)?;
            Ok(next)
        }
    }
}

/// The draft after a line, which is line `number` of the text, and the fault of the line.
fn judge_line(
    alloc: Global,
    matrix: &Matrix,
    draft: ListedDraft,
    line: &[u8],
    number: usize,
) -> Result<(ListedDraft, Option<SpecLineFault>), AllocError>
    requires { IsSomeGathering matrix.now draft.set draft.last.items }
    ensures { IfOk result (Judges matrix.now draft number line.now) }
{
    match next_history(alloc, matrix, &draft, line, number) {
        Ok(history) => {
            let next = with_history(draft, history)?;
            Ok((next, None))
        }
        Err(Fault::At(kind, line_number)) => {
            let next = left_by(alloc, matrix, draft, line)?;
            let fault = SpecLineFault {
                kind,
                line: line_number,
            };
            Ok((next, Some(fault)))
        }
        Err(Fault::Memory) => Err(AllocError),
    }
}

/// The faults with one more, where there is one.
pub(crate) fn with_fault(
    mut faults: Vec<SpecLineFault>,
    fault: Option<SpecLineFault>,
) -> Result<Vec<SpecLineFault>, AllocError>
    ensures { IfOk result (λ all. all.items ≡ faults.items ++ option_to_list fault) }
{
    match fault {
        None => Ok(faults),
        Some(fault) => {
            faults.push(fault)?;
            Ok(faults)
        }
    }
}

/// The faults with those of the lines of a text, of which the first is line 2.
fn with_faults(
    alloc: Global,
    matrix: &Matrix,
    mut faults: Vec<SpecLineFault>,
    text: &[u8],
) -> Result<Vec<SpecLineFault>, AllocError>
    ensures { IfOk result (λ a. AddsFaults matrix.now (kept_lines text.now) faults.items a.items) }
{
    let mut draft = nothing_listed(alloc)?;
    let mut rest = text;
    let mut number = 1;
    while !rest.is_empty() {
        let (line, others) = cut_line(rest);
        number += 1;
        let (next, fault) = judge_line(alloc, matrix, draft, line, number)?;
        draft = next;
        faults = with_fault(faults, fault)?;
        rest = others;
    }
    Ok(faults)
}

/// The fault of the first line, where that is another than it is to be.
fn first_fault(line: &[u8]) -> Option<SpecLineFault>
    ensures { IsFirstLineFault line.now result }
{
    if is_word(line, "lineup spec 1\n") {
        return None;
    }
    Some(SpecLineFault {
        kind: SpecFaultKind::Form,
        line: 1,
    })
}

/// Every fault of a text that is to be a specification of a matrix, in the order of lines, at most
/// one of a line. There is none exactly where [`crate::read_spec`] reads the text, and else the
/// first is the reader's.
///
/// Lines after one with a fault are read so: a first line that is another stands for the right
/// one. A history that the matrix has and that conflicts with none before it counts where it stands
/// out of order too, so that the next line has to come after it. Each other line with a fault is
/// left out.
///
/// # Errors
///
/// `AllocError` where memory was refused.
pub fn spec_faults(
    alloc: Global,
    matrix: &Matrix,
    text: &[u8],
) -> Result<Vec<SpecLineFault>, AllocError>
    ensures { IfOk result (λ faults. AreSpecFaults matrix.now text.now faults.items) }
{
    let (first, rest) = cut_line(text);
    let faults = with_fault(Vec::new(alloc), first_fault(first))?;
    // For the proof: what this returns is looked at before it is returned.
    let faults = with_faults(alloc, matrix, faults, rest)?;
    Ok(faults)
}
