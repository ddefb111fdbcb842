//! Every fault of the text of a specification that may leave outcomes free.

ghost use Rattle.std.specs.Prelude.{◌≡◌, IfOk};
ghost use Rattle.lu_text.specs.Lines.{texts};
ghost use Rattle.lu_spec.specs.EveryFreeFault.{AreFreeFaults, AreGivenFaults, JudgesFreely};

use crate::collecting::{has_begun, lists};
use crate::fault::SpecLineFault;
use crate::faults::{spec_faults, with_fault};
use crate::free::{FreeDraft, entries_said, no_lines, with_entries};
use crate::given::{Marks, is_marked};
use lu_test::Matrix;
use lu_text::{Fault, lines_of, words_of};
use std::alloc::{AllocError, Global};

/// The draft after line `number`, and the fault of the line where it is to list a history and has
/// one.
fn judge_free_line(
    alloc: Global,
    matrix: &Matrix,
    draft: FreeDraft,
    words: &[&[u8]],
    number: usize,
) -> Result<(FreeDraft, Option<SpecLineFault>), AllocError>
    ensures { IfOk result (JudgesFreely matrix.now draft (texts words.now) number) }
{
    let begun = has_begun(draft.begun, words);
    if !lists(draft.begun, words) {
        return Ok((FreeDraft { begun, ..draft }, None));
    }
    match entries_said(alloc, matrix, &draft.kept, words, number) {
        Ok(entries) => {
            let next = with_entries(alloc, draft, &entries, begun)?;
            Ok((next, None))
        }
        Err(Fault::At(kind, line)) => {
            let fault = SpecLineFault { kind, line };
            Ok((FreeDraft { begun, ..draft }, Some(fault)))
        }
        Err(Fault::Memory) => Err(AllocError),
    }
}

/// Every fault of a text that is to be read by [`crate::collect_free_spec`], in the order of lines,
/// at most one of a line. There is none where that reads the text, and else the first is the
/// reader's. A line with a fault is left out.
///
/// # Errors
///
/// `AllocError` where memory was refused.
pub fn free_spec_faults(
    alloc: Global,
    matrix: &Matrix,
    text: &[u8],
) -> Result<Vec<SpecLineFault>, AllocError>
    ensures { IfOk result (λ faults. AreFreeFaults matrix.now text.now faults.items) }
{
    let mut draft = no_lines(alloc)?;
    let mut faults = Vec::new(alloc);
    let lines = lines_of(alloc, text)?;
    for (index, line) in lines.iter().enumerate() {
        let words = words_of(alloc, line)?;
        let (next, fault) = judge_free_line(alloc, matrix, draft, &words, index + 1)?;
        draft = next;
        faults = with_fault(faults, fault)?;
    }
    Ok(faults)
}

/// Every fault of a text for [`crate::read_given_spec`]: where marks are allowed, those of a text
/// with marks are found by [`free_spec_faults`]; those of any other text by [`crate::spec_faults`].
///
/// # Errors
///
/// `AllocError` where memory was refused.
pub fn given_spec_faults(
    alloc: Global,
    matrix: &Matrix,
    text: &[u8],
    marks: Marks,
) -> Result<Vec<SpecLineFault>, AllocError>
    ensures { IfOk result (λ faults. AreGivenFaults marks matrix.now text.now faults.items) }
{
    if is_marked(alloc, marks, text)? {
        free_spec_faults(alloc, matrix, text)
    } else {
        spec_faults(alloc, matrix, text)
    }
}
