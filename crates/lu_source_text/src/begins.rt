//! Which texts are sources.

ghost use Rattle.std.specs.Prelude.{◌≡◌, IfOk};
ghost use Rattle.lu_text.specs.Lines.{texts};
ghost use Rattle.lu_source_text.specs.Begins as spec;
ghost use Rattle.lu_source_text.specs.Grammar.{source_words as spec_words};

use crate::words::source_words;
use lu_text::lines_of;
use std::alloc::{AllocError, Global};

/// Whether the text is a source and no component: its first word is `object`.
///
/// # Errors
///
/// `AllocError` where memory was refused.
pub fn is_source(alloc: Global, text: &[u8]) -> Result<bool, AllocError>
    ensures { IfOk result (λ begins. begins ≡ spec.is_source text.now) }
{
    let lines = lines_of(alloc, text)?;
    for line in &lines {
        let words = source_words(alloc, line)?;
        if let Some((word, _)) = words.split_first() {
            return Ok(*word == b"object".as_slice());
        }
    }
    Ok(false)
}
