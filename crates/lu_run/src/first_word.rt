//! Which texts are runs.

ghost use Rattle.std.specs.Prelude.{◌≡◌, IfOk};
ghost use Rattle.lu_run.specs.Beginnings as spec;

use lu_text::{lines_of, words_of};
use std::alloc::{AllocError, Global};

/// Whether the first word of the text is `run`, as in the text of each run and of no matrix.
///
/// # Errors
///
/// Out of memory.
pub fn is_run_text(alloc: Global, text: &[u8]) -> Result<bool, AllocError>
    ensures { IfOk result (λ begins. begins ≡ spec.is_run_text text.now) }
{
    let lines = lines_of(alloc, text)?;
    for line in &lines {
        let words = words_of(alloc, line)?;
        if let Some((word, _)) = words.split_first() {
            return Ok(*word == b"run".as_slice());
        }
    }
    Ok(false)
}
