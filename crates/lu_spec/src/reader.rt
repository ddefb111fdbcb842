//! Reading of specifications.

ghost use Rattle.std.specs.Prelude.{◌≡◌, ◌≢◌, ◌↔◌, [], OnOk, IfOk, IfErr, IsTrue};
ghost use Rattle.lu_text.specs.Lines.{kept_lines};
ghost use Rattle.lu_history.specs.Serial.{IsSerial};
ghost use Rattle.lu_spec.specs.Beginnings.{AddsBeginnings};
ghost use Rattle.lu_spec.specs.Reading.{DraftsNext, FindsNext, IsDraftOf, IsRefusalAmong, IsSomeDraft, IsSomeGathering, ListsNothing, Refuses};
ghost use Rattle.lu_spec.specs.Specs.{AreOf};
ghost use Rattle.lu_spec.specs.SpecText.{ComesAfter, IsReadAs, IsSpecFault};

use crate::fault::{SpecFault, SpecFaultKind};
use crate::fitting::{calls_of, fits_in};
use crate::history_line::{comes_after, history_in, is_word};
use crate::spec::Spec;
use lu_history::SerialOp;
use lu_test::Matrix;
use lu_text::{Fault, cut_line};
use lu_trie::Trie;
use std::alloc::{AllocError, Allocator, Global};

/// The histories of the lines so far: all their beginnings, and the last of them.
#[derive(Drop)]
pub(crate) struct ListedDraft {
    pub set: Trie<Global>,
    pub last: Vec<SerialOp>,
}

/// Adds all beginnings of a history, and the history.
pub(crate) fn add_beginnings<A: Allocator + Clone>(
    set: &mut Trie<A>,
    history: &[SerialOp],
) -> Result<(), AllocError>
    requires { IsSerial history.now }
    ensures { OnOk result (AddsBeginnings set.old set.new history.now) }
{
    for end in 0..history.len() {
        set.insert(&history[..end])?;
    }
    set.insert(history)?;
    Ok(())
}

/// Whether a history may stand after `last`, where that is not empty.
fn goes_on(last: &[SerialOp], history: &[SerialOp]) -> bool
    ensures { IsTrue result ↔ (last.now ≢ [] → ComesAfter last.now history.now) }
{
    last.is_empty() || comes_after(last, history)
}

/// The history of a line, which is line `number` of the text, or what is wrong with it.
pub(crate) fn next_history(
    alloc: Global,
    matrix: &Matrix,
    draft: &ListedDraft,
    line: &[u8],
    number: usize,
) -> Result<Vec<SerialOp>, SpecFault>
    requires { IsSomeGathering matrix.now draft.now.set draft.now.last.items }
    ensures next { FindsNext matrix.now draft.now.set draft.now.last.items line.now result }
    ensures fault { Refuses matrix.now draft.now.set draft.now.last.items line.now number result }
{
    match history_in(alloc, line)? {
        None => Err(Fault::At(SpecFaultKind::Form, number)),
        Some(history) => {
            if !goes_on(&draft.last, &history) {
                return Err(Fault::At(SpecFaultKind::Form, number));
            }
            if !fits_in(&history, calls_of(matrix)) {
                return Err(Fault::At(SpecFaultKind::Foreign, number));
            }
            if draft.set.conflict(&history).is_some() {
                return Err(Fault::At(SpecFaultKind::Nondeterministic, number));
            }
            Ok(history)
        }
    }
}

/// The draft with one more history.
pub(crate) fn with_history(
    mut draft: ListedDraft,
    history: Vec<SerialOp>,
) -> Result<ListedDraft, AllocError>
    requires { IsSerial history.items }
    ensures set { IfOk result (λ next. AddsBeginnings draft.set next.set history.items) }
    ensures last { IfOk result (λ next. next.last.items ≡ history.items) }
{
    add_beginnings(&mut draft.set, &history)?;
    draft.last = history;
    Ok(draft)
}

/// The draft with the history of one more line, which is line `number` of the text.
fn read_line(
    alloc: Global,
    matrix: &Matrix,
    draft: ListedDraft,
    line: &[u8],
    number: usize,
) -> Result<ListedDraft, SpecFault>
    requires { IsSomeDraft matrix.now draft.set draft.last.items }
    ensures next { DraftsNext matrix.now draft.set draft.last.items line.now result }
    ensures fault { Refuses matrix.now draft.set draft.last.items line.now number result }
{
    let history = next_history(alloc, matrix, &draft, line, number)?;
    // For the proof: what this returns is looked at before it is returned.
    let next = with_history(draft, history)?;
    Ok(next)
}

/// The draft before the first history.
pub(crate) fn nothing_listed(alloc: Global) -> Result<ListedDraft, AllocError>
    ensures { IfOk result ListsNothing }
{
    let mut set = Trie::new(alloc);
    add_beginnings(&mut set, &[])?;
    Ok(ListedDraft {
        set,
        last: Vec::new(alloc),
    })
}

/// The draft of the histories of all lines; the text is what follows the first line.
fn read_lines(alloc: Global, matrix: &Matrix, text: &[u8]) -> Result<ListedDraft, SpecFault>
    ensures read { IfOk result (IsDraftOf matrix.now (kept_lines text.now)) }
    ensures fault { IfErr result (IsRefusalAmong matrix.now (kept_lines text.now)) }
{
    let mut draft = nothing_listed(alloc)?;
    let mut rest = text;
    let mut number = 1;
    while !rest.is_empty() {
        let (line, others) = cut_line(rest);
        number += 1;
        draft = read_line(alloc, matrix, draft, line, number)?;
        rest = others;
    }
    Ok(draft)
}

/// Reads a specification of a matrix from its text.
///
/// A fault is the first one of the text: by line, and on a line by the order of [`SpecFaultKind`].
///
/// # Errors
///
/// The first fault of the text, or that there is no memory for the specification.
pub fn read_spec(alloc: Global, matrix: &Matrix, text: &[u8]) -> Result<Spec, SpecFault>
    // The text lists histories of the matrix, and the specification is their closure.
    ensures read { IfOk result (IsReadAs matrix.now text.now) }
    // Which fault, and on which line.
    ensures fault { IfErr result (IsSpecFault matrix.now text.now) }
    // It is one of the matrix.
    ensures of { IfOk result (AreOf matrix.now) }
{
    let (first, rest) = cut_line(text);
    if !is_word(first, "lineup spec 1\n") {
        return Err(Fault::At(SpecFaultKind::Form, 1));
    }
    let draft = read_lines(alloc, matrix, rest)?;
    Ok(Spec::of_closed(draft.set))
}
