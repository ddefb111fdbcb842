//! The faults of a schedule's text.

ghost use Rattle.std.specs.Prelude.{◌≡◌};
ghost use Rattle.lu_lint.specs.Lint as lint;
ghost use Rattle.lu_lint.specs.Said.{SaysAlso, message_said};
ghost use Rattle.lu_lint.specs.Schedule as spec;
ghost use Rattle.lu_lint.specs.Schedule.{schedule_faults, schedule_said};
ghost use Rattle.lu_lint.specs.declared.remark.FaultKind.TheVariants as part;
ghost use Rattle.lu_text.specs.Lines.{texts};

use crate::remark::{Cause, FaultKind, Remark, Said, line_below, with_remark};
use crate::words::Wording;
use lu_test::{MOST_LISTED_MOVES, ScheduleFault, move_in, schedule_words};
use std::alloc::{AllocError, Global};

/// What is said of a fault of a schedule, on its first line.
fn said(above: usize, kind: ScheduleFault) -> Said
    ensures { result ≡ message_said part.Schedule above (lint.message_here 1 kind) }
{
    Said {
        line: line_below(above, 1),
        cause: Cause::Fault(FaultKind::Schedule(kind), 1),
    }
}

/// The remarks with that on a word, where it is no move.
fn with_word<W: Wording>(
    alloc: Global,
    wording: &W,
    all: Vec<Remark>,
    above: usize,
    word: &[u8],
) -> Result<Vec<Remark>, AllocError>
    ensures { SaysAlso result all (schedule_said above (spec.word_faults word.now)) }
{
    match move_in(word) {
        Ok(_) => Ok(all),
        Err(kind) => {
            let words = wording.schedule_move(alloc, kind, word)?;
            with_remark(all, said(above, kind), words)
        }
    }
}

/// The remarks with that on the number of the words, where there are too many.
fn with_length<W: Wording>(
    alloc: Global,
    wording: &W,
    all: Vec<Remark>,
    above: usize,
    words: &[&[u8]],
) -> Result<Vec<Remark>, AllocError>
    ensures { SaysAlso result all (schedule_said above (spec.length_faults (texts words.now))) }
{
    if words.len() <= MOST_LISTED_MOVES {
        return Ok(all);
    }
    let text = wording.schedule_length(alloc, words.len())?;
    with_remark(all, said(above, ScheduleFault::Limit), text)
}

/// The remarks with those on the words of a schedule, up to one that is too many, and that there are
/// too many.
fn with_words<W: Wording>(
    alloc: Global,
    wording: &W,
    mut all: Vec<Remark>,
    above: usize,
    words: &[&[u8]],
) -> Result<Vec<Remark>, AllocError>
    ensures { SaysAlso result all (schedule_said above (spec.words_faults (texts words.now))) }
{
    let first = &words[..(MOST_LISTED_MOVES + 1).min(words.len())];
    for word in first {
        all = with_word(alloc, wording, all, above, word)?;
    }
    with_length(alloc, wording, all, above, words)
}

/// The remarks with those on a schedule, before which `above` lines of the bundle stand: that the
/// form of the whole text is wrong; or one on each word that is no move, and that there are too
/// many.
///
/// # Errors
///
/// There is no memory for the remarks.
pub(crate) fn with_schedule<W: Wording>(
    alloc: Global,
    wording: &W,
    all: Vec<Remark>,
    above: usize,
    text: &[u8],
) -> Result<Vec<Remark>, AllocError>
    ensures { SaysAlso result all (schedule_said above (schedule_faults text.now)) }
{
    match schedule_words(alloc, text)? {
        None => {
            let words = wording.schedule_form(alloc, text)?;
            with_remark(all, said(above, ScheduleFault::Form), words)
        }
        Some(words) => with_words(alloc, wording, all, above, &words),
    }
}
