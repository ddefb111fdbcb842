//! The words of a source's line, and the statements that they make.

ghost use Rattle.std.specs.Prelude.{false, ◌≡◌, ◌++◌, ◌<◌, ◌≤◌, length, not, IfOk, IfSome};
ghost use Rattle.std.specs.List.{position};
ghost use Rattle.lu_text.specs.Lines.{texts};
ghost use Rattle.lu_text.specs.Lines as lines;
ghost use Rattle.lu_text.specs.Names as names;
ghost use Rattle.lu_source_text.specs.Grammar as spec;
ghost use Rattle.lu_source_text.specs.Statements.{lists, statements_after};

use std::alloc::{AllocError, Global};

fn is_blank(byte: u8) -> bool
    ensures { result ≡ lines.is_blank byte }
{
    matches!(byte, b' ' | b'\t' | b'\r')
}

fn is_name_part(byte: u8) -> bool
    ensures { result ≡ names.is_name_part byte }
{
    byte.is_ascii_alphabetic() || byte == b'_' || byte.is_ascii_digit()
}

/// Whether two bytes are one word.
fn is_pair(first: u8, second: u8) -> bool
    ensures { result ≡ spec.is_pair first second }
{
    matches!(
        (first, second),
        (b'=' | b'!' | b'<' | b'>' | b'+' | b'-', b'=') | (b'&', b'&') | (b'|', b'|')
    )
}

/// Where the first byte stands that is no letter, digit or `_`.
fn name_end(bytes: &[u8]) -> Option<usize>
    ensures end { result ≡ position (λ b. not (names.is_name_part b)) bytes.now }
    ensures within { IfSome result (λ end. end < length bytes.now) }
{
    bytes.iter().position(|byte| !is_name_part(*byte))
}

/// How long the first word is, or a blank.
fn item_len(bytes: &[u8]) -> usize
    ensures len { result ≡ spec.item_len bytes.now }
    ensures within { result ≤ length bytes.now }
    ensures some { 0 < length bytes.now → 0 < result }
{
    match bytes {
        [] => 0,
        [first, rest @ ..] if is_name_part(*first) => { 1 + name_end(rest).unwrap_or(rest.len()) }
        [first, second, ..] if is_pair(*first, *second) => 2,
        _ => 1,
    }
}

/// Whether no word is left: there are no bytes, or a comment begins, with `#` or `//`.
fn is_at_end(bytes: &[u8]) -> bool
    ensures end { result ≡ spec.is_at_end bytes.now }
    ensures some { result ≡ false → 0 < length bytes.now }
{
    matches!(bytes, [] | [b'#', ..] | [b'/', b'/', ..])
}

/// The words of a line, up to a comment: all letters, digits and `_` that stand together, an
/// operator of two bytes, or one byte.
///
/// # Errors
///
/// There is no memory for the list.
pub fn source_words(alloc: Global, line: &[u8]) -> Result<Vec<&[u8]>, AllocError>
    ensures { IfOk result (λ words. texts words.items ≡ spec.source_words line.now) }
{
    let mut words = Vec::new(alloc);
    let mut rest = line;
    while !is_at_end(rest) {
        let (item, after) = rest.split_at(item_len(rest));
        if !is_blank(rest[0]) {
            words.push(item)?;
        }
        rest = after;
    }
    Ok(words)
}

/// The statements that words make: `;` ends a statement, `{` is the last word of one, and `}` the
/// first. Some may have no words.
///
/// # Errors
///
/// There is no memory for the list.
pub fn statements_of<'a>(
    alloc: Global,
    words: &[&'a [u8]],
) -> Result<Vec<Vec<&'a [u8]>>, AllocError>
    ensures { IfOk result (λ all. lists all.items ≡ spec.statements (texts words.now)) }
{
    statements_from(alloc, Vec::new(alloc), Vec::new(alloc), words)
}

/// The same, after these statements and the first words of the next.
fn statements_from<'a>(
    alloc: Global,
    mut all: Vec<Vec<&'a [u8]>>,
    mut front: Vec<&'a [u8]>,
    words: &[&'a [u8]],
) -> Result<Vec<Vec<&'a [u8]>>, AllocError>
    ensures { IfOk result (λ made.
        lists made.items ≡ lists all.entry.items ++ statements_after front.entry.items words.now) }
{
    let Some((word, rest)) = words.split_first() else {
        all.push(front)?;
        return Ok(all);
    };
    if *word == b";".as_slice() {
        all.push(front)?;
        statements_from(alloc, all, Vec::new(alloc), rest)
    } else if *word == b"{".as_slice() {
        front.push(*word)?;
        all.push(front)?;
        statements_from(alloc, all, Vec::new(alloc), rest)
    } else if *word == b"}".as_slice() {
        all.push(front)?;
        let mut next = Vec::new(alloc);
        next.push(*word)?;
        statements_from(alloc, all, next, rest)
    } else {
        front.push(*word)?;
        statements_from(alloc, all, front, rest)
    }
}
