//! Reading of specifications that leave outcomes free.

ghost use Rattle.std.specs.Prelude.{◌≡◌, [], false, IfErr, IfOk};
ghost use Rattle.lu_text.specs.Lines.{texts};
ghost use Rattle.lu_spec.specs.Beginnings.{IsClosureOf};
ghost use Rattle.lu_spec.specs.Collecting.{has_begun};
ghost use Rattle.lu_spec.specs.FirmEnds.{AddsFreely, CollectsFreely, IsFreeRefusal, IsOneMoreFree, RefusesFreely};
ghost use Rattle.lu_spec.specs.FreeSpecs.{IsFreeFault, IsListedFreely};
ghost use Rattle.lu_spec.specs.Specs.{AreOf};

use crate::collecting::{has_begun, lists};
use crate::fault::{SpecFault, SpecFaultKind};
use crate::firm::{FirmEnds, keep_more, nothing_kept, refuses_some};
use crate::fitting::{calls_of, fits_in};
use crate::free_spec::FreeSpec;
use crate::history_set::{HistorySet, add_with_beginnings};
use crate::marked_line::{MarkedOp, erased, marked_history_of};
use lu_test::Matrix;
use lu_text::{Fault, lines_of, words_of};
use std::alloc::{AllocError, Global};

/// All beginnings of the histories of the lines so far, what is kept of their entries without
/// marks, and whether one of these lines had words.
#[derive(Drop)]
pub(crate) struct FreeDraft {
    pub set: HistorySet,
    pub kept: FirmEnds,
    pub begun: bool,
}

/// The entries that the words of line `number` say, or what is wrong with it.
pub(crate) fn entries_said(
    alloc: Global,
    matrix: &Matrix,
    kept: &FirmEnds,
    words: &[&[u8]],
    number: usize,
) -> Result<Vec<MarkedOp>, SpecFault>
    ensures said { IfOk result (λ q. IsOneMoreFree matrix.now kept.now (texts words.now) q.items) }
    ensures fault { IfErr result (IsFreeRefusal matrix.now kept.now (texts words.now) number) }
{
    match marked_history_of(alloc, words)? {
        None => Err(Fault::At(SpecFaultKind::Form, number)),
        Some(entries) => {
            let history = erased(alloc, &entries)?;
            if !fits_in(&history, calls_of(matrix)) {
                return Err(Fault::At(SpecFaultKind::Foreign, number));
            }
            if refuses_some(alloc, kept, &entries, &history)? {
                return Err(Fault::At(SpecFaultKind::Nondeterministic, number));
            }
            Ok(entries)
        }
    }
}

/// The draft with one more history.
pub(crate) fn with_entries(
    alloc: Global,
    mut draft: FreeDraft,
    entries: &[MarkedOp],
    begun: bool,
) -> Result<FreeDraft, AllocError>
    ensures adds { IfOk result (λ next. AddsFreely draft next entries.now) }
    ensures begun { IfOk result (λ next. next.begun ≡ begun) }
{
    let history = erased(alloc, entries)?;
    add_with_beginnings(alloc, &mut draft.set, &history)?;
    let kept = keep_more(alloc, draft.kept, entries, &history)?;
    Ok(FreeDraft {
        set: draft.set,
        kept,
        begun,
    })
}

/// The draft with the beginnings of the history that line `number` lists, where it lists one.
fn collect_free_line(
    alloc: Global,
    matrix: &Matrix,
    draft: FreeDraft,
    words: &[&[u8]],
    number: usize,
) -> Result<FreeDraft, SpecFault>
    ensures next { IfOk result (CollectsFreely matrix.now draft (texts words.now)) }
    ensures begun { IfOk result (λ next. next.begun ≡ has_begun draft.begun (texts words.now)) }
    ensures fault { IfErr result (RefusesFreely matrix.now draft (texts words.now) number) }
{
    let begun = has_begun(draft.begun, words);
    if !lists(draft.begun, words) {
        return Ok(FreeDraft { begun, ..draft });
    }
    let entries = entries_said(alloc, matrix, &draft.kept, words, number)?;
    // For the proof: what this returns is looked at before it is returned.
    let next = with_entries(alloc, draft, &entries, begun)?;
    Ok(next)
}

/// The draft before the first line.
pub(crate) fn no_lines(alloc: Global) -> Result<FreeDraft, AllocError>
    ensures empty { IfOk result (λ draft. IsClosureOf [] draft.set) }
    ensures ends { IfOk result (λ draft. draft.kept.ends ≡ []) }
    ensures asked { IfOk result (λ draft. draft.kept.asked ≡ []) }
    ensures begun { IfOk result (λ draft. draft.begun ≡ false) }
{
    let mut set = HistorySet::new(alloc);
    add_with_beginnings(alloc, &mut set, &[])?;
    Ok(FreeDraft {
        set,
        kept: nothing_kept(alloc),
        begun: false,
    })
}

/// Reads a specification that may leave outcomes free. Its text is that of [`crate::collect_spec`],
/// and an entry may have the mark `?`, as in `history 0=0? 1=1`: where its operation comes after
/// the same operations, another line may say another outcome. Two lines conflict firmly where their
/// operations conflict and neither of the two entries at which they part has a mark. The
/// specification is that of all beginnings of the listed histories, and of the empty one.
///
/// A fault is the first one of the text: by line, and on a line by the order of [`SpecFaultKind`].
/// Of two lines that conflict firmly it is the second.
///
/// # Errors
///
/// [`SpecFaultKind::Form`] with a line that lists no history, [`SpecFaultKind::Foreign`] with one
/// whose history the matrix does not have, [`SpecFaultKind::Nondeterministic`] with one that
/// conflicts firmly with a line before it; [`Fault::Memory`] where memory was refused.
pub fn collect_free_spec(alloc: Global, matrix: &Matrix, text: &[u8]) -> Result<FreeSpec, SpecFault>
    ensures read { IfOk result (IsListedFreely matrix.now text.now) }
    ensures fault { IfErr result (IsFreeFault matrix.now text.now) }
    ensures of { IfOk result (AreOf matrix.now) }
{
    let mut draft = no_lines(alloc)?;
    let lines = lines_of(alloc, text)?;
    for (index, line) in lines.iter().enumerate() {
        let words = words_of(alloc, line)?;
        draft = collect_free_line(alloc, matrix, draft, &words, index + 1)?;
    }
    let set = draft.set.into_trie(alloc)?;
    Ok(FreeSpec::of_closed(set))
}
