//! How deep the expressions of a line may stand in each other.

ghost use Rattle.std.specs.Prelude.{◌≡◌};
ghost use Rattle.lu_text.specs.Lines.{texts};
ghost use Rattle.lu_source_text.specs.Grammar as spec;

use crate::infix::infix_in;

/// The most operators, `(` and `[` that a line has.
pub const MOST_NESTING: usize = 64;

/// Whether the word is an operator, also that of `+=` and `-=`, `(` or `[`.
fn is_nesting(word: &[u8]) -> bool
    ensures { result ≡ spec.is_nesting word.now }
{
    infix_in(word).is_some()
        || word == b"!".as_slice()
        || word == b"(".as_slice()
        || word == b"[".as_slice()
        || word == b"+=".as_slice()
        || word == b"-=".as_slice()
}

/// How many of the words are operators, `(` or `[`: in a line, expressions stand in each other no
/// deeper.
pub fn nesting(words: &[&[u8]]) -> usize
    ensures { result ≡ spec.nesting (texts words.now) }
{
    words.iter().filter(|word| is_nesting(word)).count()
}
