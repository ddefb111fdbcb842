//! Words that call something of a cell.

ghost use Rattle.std.specs.Prelude.{◌≡◌};
ghost use Rattle.lu_text.specs.Lines.{texts};
ghost use Rattle.lu_source_text.specs.Grammar as spec;

use lu_source::{Answer, Update};

/// What is called of a cell.
#[derive(Clone, Copy, Debug)]
pub(crate) enum CellCall {
    /// A compare-and-swap.
    Swap(Answer),

    /// An update by an operand.
    Fetch(Update),
}

/// The update that a word is the name of.
fn update_in(word: &[u8]) -> Option<CellCall>
    ensures { result ≡ spec.update_in word.now }
{
    if word == b"fetch_add".as_slice() {
        Some(CellCall::Fetch(Update::Add))
    } else if word == b"fetch_sub".as_slice() {
        Some(CellCall::Fetch(Update::Sub))
    } else if word == b"fetch_max".as_slice() {
        Some(CellCall::Fetch(Update::Max))
    } else if word == b"fetch_min".as_slice() {
        Some(CellCall::Fetch(Update::Min))
    } else if word == b"swap".as_slice() {
        Some(CellCall::Fetch(Update::Swap))
    } else if word == b"compare_exchange".as_slice() {
        Some(CellCall::Swap(Answer::Before))
    } else {
        None
    }
}

/// Whether `(` is the first word.
fn opens(words: &[&[u8]]) -> bool
    ensures { result ≡ spec.opens (texts words.now) }
{
    words
        .split_first()
        .is_some_and(|(word, _)| *word == b"(".as_slice())
}

/// What a word calls that these words follow: it is `cas`, or the name of an update before `(`.
/// Elsewhere such a name is one like any other.
pub(crate) fn call_in(word: &[u8], words: &[&[u8]]) -> Option<CellCall>
    ensures { result ≡ spec.call_in word.now (texts words.now) }
{
    if word == b"cas".as_slice() {
        Some(CellCall::Swap(Answer::Success))
    } else if opens(words) {
        update_in(word)
    } else {
        None
    }
}
