//! Reading of a matrix that goes on after a fault.

ghost use Rattle.lu_test.specs.MatrixGoing.{mend};
ghost use Rattle.lu_test.specs.MatrixGoing as going;
ghost use Rattle.lu_test.specs.MatrixText.{all_words, words_in};
ghost use Rattle.lu_text.specs.Results.{Builds};

use crate::matrix::{Calls, MOST_THREADS};
use crate::matrix_text::MatrixDraft;
use lu_text::{before_comment, parts_of, words_of};
use std::alloc::{AllocError, Global};

/// One more thread that makes no call, where there is room.
fn with_empty(alloc: Global, mut draft: MatrixDraft) -> Result<MatrixDraft, AllocError>
    ensures { Builds result (going.with_empty draft) }
{
    if draft.threads.len() >= MOST_THREADS {
        return Ok(draft);
    }
    draft.threads.push(Calls::new(Vec::new(alloc)))?;
    Ok(draft)
}

fn mend_words(
    alloc: Global,
    mut draft: MatrixDraft,
    words: &[&[u8]],
    more: &[&[u8]],
) -> Result<MatrixDraft, AllocError>
    ensures { Builds result (going.mend_parts draft (all_words words.now more.now)) }
{
    match words {
        [] => {
            if more.is_empty() {
                Ok(draft)
            } else {
                with_empty(alloc, draft)
            }
        }
        [word, _rest @ ..] => {
            if *word == b"setup".as_slice() && draft.is_nothing() {
                draft.setup = Some(Calls::new(Vec::new(alloc)));
                Ok(draft)
            } else {
                with_empty(alloc, draft)
            }
        }
    }
}

fn mend_parts(alloc: Global, draft: MatrixDraft, parts: &[&[u8]]) -> Result<MatrixDraft, AllocError>
    ensures { Builds result (going.mend_parts draft (words_in parts.now)) }
{
    match parts {
        [] => Ok(draft),
        [first, others @ ..] => {
            let words = words_of(alloc, first)?;
            mend_words(alloc, draft, &words, others)
        }
    }
}

/// The draft from which the lines after a line with a fault are read.
///
/// # Errors
///
/// There is no memory for what the line leaves.
pub fn mended(alloc: Global, draft: MatrixDraft, text: &[u8]) -> Result<MatrixDraft, AllocError>
    ensures { Builds result (mend draft text.now) }
{
    let parts = parts_of(alloc, b';', before_comment(text))?;
    mend_parts(alloc, draft, &parts)
}
