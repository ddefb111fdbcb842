//! Specifications as people write them: histories in any order.

ghost use Rattle.std.specs.Prelude.{◌≡◌, [], false, IfErr, IfOk};
ghost use Rattle.std.specs.Str.{bytes_eq};
ghost use Rattle.lu_text.specs.Lines.{texts};
ghost use Rattle.lu_trie.specs.Conflicts.{IsDeterministic};
ghost use Rattle.lu_spec.specs.Beginnings.{IsClosureOf};
ghost use Rattle.lu_spec.specs.Specs.{AreOf};
ghost use Rattle.lu_spec.specs.Collecting.{CollectsLine, IsCollectFault, IsCollectedAs, IsOneMore, IsWordsRefusal, RefusesLine, has_begun};
ghost use Rattle.lu_spec.specs.Collecting as spec;

use crate::fault::{SpecFault, SpecFaultKind};
use crate::fitting::{calls_of, fits_in};
use crate::history_line::history_of;
use crate::reader::add_beginnings;
use crate::spec::Spec;
use lu_history::SerialOp;
use lu_test::Matrix;
use lu_text::{Fault, exactly_three, lines_of, words_of};
use lu_trie::Trie;
use std::alloc::{AllocError, Global};

/// All beginnings of the histories of the lines so far, and whether one of these lines had words.
#[derive(Drop)]
struct CollectedDraft {
    set: Trie<Global>,
    begun: bool,
}

/// Whether the bytes are this text.
fn is_text(word: &[u8], text: &str) -> bool
    ensures { result ≡ bytes_eq word.now text.now }
{
    word == text.as_bytes()
}

/// Whether these are the words of a specification's first line.
fn is_head(words: &[&[u8]]) -> bool
    ensures { result ≡ spec.is_head (texts words.now) }
{
    match exactly_three(words) {
        None => false,
        Some((first, second, third)) => {
            is_text(first, "lineup") && is_text(second, "spec") && is_text(third, "1")
        }
    }
}

/// Whether a line with these words lists a history, where `begun` tells whether a line before it
/// had words.
pub(crate) fn lists(begun: bool, words: &[&[u8]]) -> bool
    ensures { result ≡ spec.lists begun (texts words.now) }
{
    !words.is_empty() && (begun || !is_head(words))
}

/// Whether this line or one before it had words.
pub(crate) fn has_begun(begun: bool, words: &[&[u8]]) -> bool
    ensures { result ≡ spec.has_begun begun (texts words.now) }
{
    begun || !words.is_empty()
}

/// The history that the words of line `number` say, or what is wrong with it.
fn history_said(
    alloc: Global,
    matrix: &Matrix,
    set: &Trie<Global>,
    words: &[&[u8]],
    number: usize,
) -> Result<Vec<SerialOp>, SpecFault>
    requires { IsDeterministic set.now }
    ensures said { IfOk result (λ q. IsOneMore matrix.now set.now (texts words.now) q.items) }
    ensures fault { IfErr result (IsWordsRefusal matrix.now set.now (texts words.now) number) }
{
    match history_of(alloc, words)? {
        None => Err(Fault::At(SpecFaultKind::Form, number)),
        Some(history) => {
            if !fits_in(&history, calls_of(matrix)) {
                return Err(Fault::At(SpecFaultKind::Foreign, number));
            }
            if set.conflict(&history).is_some() {
                return Err(Fault::At(SpecFaultKind::Nondeterministic, number));
            }
            Ok(history)
        }
    }
}

/// The draft with the beginnings of the history that line `number` lists, where it lists one.
fn collect_line(
    alloc: Global,
    matrix: &Matrix,
    mut draft: CollectedDraft,
    words: &[&[u8]],
    number: usize,
) -> Result<CollectedDraft, SpecFault>
    requires { IsDeterministic draft.set }
    ensures next { IfOk result (CollectsLine matrix.now draft (texts words.now)) }
    ensures begun { IfOk result (λ next. next.begun ≡ has_begun draft.begun (texts words.now)) }
    ensures fault { IfErr result (RefusesLine matrix.now draft (texts words.now) number) }
{
    let begun = has_begun(draft.begun, words);
    if !lists(draft.begun, words) {
        return Ok(CollectedDraft { begun, ..draft });
    }
    let history = history_said(alloc, matrix, &draft.set, words, number)?;
    add_beginnings(&mut draft.set, &history)?;
    Ok(CollectedDraft { begun, ..draft })
}

/// The draft before the first line.
fn nothing_collected(alloc: Global) -> Result<CollectedDraft, AllocError>
    ensures empty { IfOk result (λ draft. IsClosureOf [] draft.set) }
    ensures begun { IfOk result (λ draft. draft.begun ≡ false) }
{
    let mut set = Trie::new(alloc);
    add_beginnings(&mut set, &[])?;
    Ok(CollectedDraft { set, begun: false })
}

/// Reads a specification of a matrix as a person writes it: the first line may be left out, and
/// histories come in any order, more than once, and beside their beginnings. Blanks part words, `#`
/// begins a comment, and a line without words says nothing. The specification is that of all
/// beginnings of the listed histories, and of the empty one.
///
/// A fault is the first one of the text: by line, and on a line by the order of [`SpecFaultKind`].
/// Of two lines that conflict it is the second.
///
/// # Errors
///
/// [`SpecFaultKind::Form`] with a line that lists no history, [`SpecFaultKind::Foreign`] with one
/// whose history the matrix does not have, [`SpecFaultKind::Nondeterministic`] with one that
/// conflicts with a line before it; [`Fault::Memory`] where memory was refused.
pub fn collect_spec(alloc: Global, matrix: &Matrix, text: &[u8]) -> Result<Spec, SpecFault>
    ensures read { IfOk result (IsCollectedAs matrix.now text.now) }
    ensures fault { IfErr result (IsCollectFault matrix.now text.now) }
    ensures of { IfOk result (AreOf matrix.now) }
{
    let mut draft = nothing_collected(alloc)?;
    let lines = lines_of(alloc, text)?;
    for (index, line) in lines.iter().enumerate() {
        let words = words_of(alloc, line)?;
        draft = collect_line(alloc, matrix, draft, &words, index + 1)?;
    }
    Ok(Spec::of_closed(draft.set))
}
