//! Which part a part after the matrix is to be.

ghost use Rattle.std.specs.Prelude.{◌≡◌, IfOk};
ghost use Rattle.lu_lint.specs.Parts as spec;

use lu_text::{lines_of, words_of};
use std::alloc::{AllocError, Global};

/// What a part after the matrix is to be, as its first words say.
#[derive(Clone, Copy, Drop)]
pub(crate) enum PartKind {
    Specification,
    Report,
    History,
    Schedule,
}

/// Whether a line of a recorded history begins with this word.
fn begins_step(word: &[u8]) -> bool
    ensures { result ≡ spec.begins_step word.now }
{
    word == b"call".as_slice() || word == b"return".as_slice() || word == b"stuck".as_slice()
}

/// Whether a part is to be a recorded history: its first word begins a line of one.
fn is_history(alloc: Global, text: &[u8]) -> Result<bool, AllocError>
    ensures { IfOk result (λ is. is ≡ spec.is_history text.now) }
{
    let lines = lines_of(alloc, text)?;
    for line in &lines {
        let words = words_of(alloc, line)?;
        if let Some((word, _)) = words.split_first() {
            return Ok(begins_step(word));
        }
    }
    Ok(false)
}

/// What a part is to be.
pub(crate) fn kind_of(alloc: Global, text: &[u8]) -> Result<PartKind, AllocError>
    ensures { IfOk result (λ third. third ≡ spec.kind_of text.now) }
{
    if text.starts_with(b"lineup spec") {
        Ok(PartKind::Specification)
    } else if text.starts_with(b"lineup") {
        Ok(PartKind::Report)
    } else if is_history(alloc, text)? {
        Ok(PartKind::History)
    } else {
        Ok(PartKind::Schedule)
    }
}
