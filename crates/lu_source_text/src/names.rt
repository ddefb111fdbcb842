//! What names and numbers of a source mean.

ghost use Rattle.std.specs.Prelude.{◌≡◌, ◌+◌, ◌<◌, ◌^◌, length, IfSome};
ghost use Rattle.lu_source_text.specs.Grammar as spec;
ghost use Rattle.lu_source_text.specs.Grammar.{declaring, either, is_among, stating, valued};
ghost use Rattle.lu_text.specs.Numbers.{value_in as a_value};

use crate::draft::Shared;
use lu_text::{Name, has_name_form, value_in};

/// Where a name stands in a list of names, counted on from a number.
pub(crate) fn position_from(before: usize, names: &[Name], word: &[u8]) -> Option<usize>
    requires { before + length names.now < 2 ^ 64 }
    ensures position { result ≡ spec.position_from before names.now word.now }
    ensures within { IfSome result (λ position. position < before + length names.now) }
{
    match names {
        [] => None,
        [first, rest @ ..] => {
            if first.is(word) {
                Some(before)
            } else {
                position_from(before + 1, rest, word)
            }
        }
    }
}

/// The number of the shared word of this name, counted on from a number, and whether it is written
/// with an index.
pub(crate) fn shared_from(before: usize, shared: &[Shared], word: &[u8]) -> Option<(usize, bool)>
    requires { before + length shared.now < 2 ^ 64 }
    ensures shared { result ≡ spec.shared_from before shared.now word.now }
    ensures within { IfSome result (λ found. found.0 < before + length shared.now) }
{
    match shared {
        [] => None,
        [first, rest @ ..] => {
            if first.array.name.is(word) {
                Some((before, first.indexed))
            } else {
                shared_from(before + 1, rest, word)
            }
        }
    }
}

/// Whether the word may be a name: it has the form of one, of any length, and is no keyword.
pub fn is_free_name(word: &[u8]) -> bool
    ensures { result ≡ spec.is_free_name word.now }
{
    has_name_form(word) && !declares(word) && !states(word) && !stands_for_value(word)
}

/// Whether a declaration begins with the word.
fn declares(word: &[u8]) -> bool
    ensures { result ≡ is_among declaring word.now }
{
    word == b"object".as_slice()
        || word == b"local".as_slice()
        || word == b"const".as_slice()
        || word == b"word".as_slice()
        || word == b"lock".as_slice()
        || word == b"op".as_slice()
}

/// Whether the word is a keyword of statements.
fn states(word: &[u8]) -> bool
    ensures { result ≡ is_among stating word.now }
{
    word == b"unlock".as_slice()
        || word == b"let".as_slice()
        || word == b"if".as_slice()
        || word == b"else".as_slice()
        || word == b"while".as_slice()
        || word == b"loop".as_slice()
        || word == b"break".as_slice()
        || word == b"continue".as_slice()
        || word == b"return".as_slice()
        || word == b"await".as_slice()
        || word == b"assert".as_slice()
}

/// Whether the word is a keyword of expressions.
fn stands_for_value(word: &[u8]) -> bool
    ensures { result ≡ is_among valued word.now }
{
    word == b"cas".as_slice()
        || word == b"pick".as_slice()
        || word == b"true".as_slice()
        || word == b"false".as_slice()
}
