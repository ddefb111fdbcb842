//! Lines and their words.

ghost use Rattle.std.specs.Prelude.{◌≡◌, ◌<◌, ◌++◌, length, IfOk};
ghost use Rattle.std.specs.List.{list_all};
ghost use Rattle.lu_text.specs.Lines as spec;
ghost use Rattle.lu_text.specs.Lines.{texts, first_len, IsFirstLine};

use crate::words::position_of;
use std::alloc::{AllocError, Global};

pub(crate) fn is_blank(byte: u8) -> bool
    ensures { result ≡ spec.is_blank byte }
{
    matches!(byte, b' ' | b'\t' | b'\r')
}

/// Whether each byte of a line may stand in a text of words: 32 to 126, tab and CR.
pub fn are_allowed(line: &[u8]) -> bool
    ensures { result ≡ list_all spec.is_allowed line.now }
{
    line.iter()
        .all(|byte| matches!(*byte, 32..=126 | b'\t' | b'\r'))
}

/// The line up to a comment, which `#` begins.
pub fn before_comment(line: &[u8]) -> &[u8]
    ensures { result.now ≡ spec.before_comment line.now }
{
    match position_of(b'#', line) {
        None => line,
        Some(hash) => &line[..hash],
    }
}

/// The words of a line, up to a comment: what blanks part.
///
/// # Errors
///
/// There is no memory for the list of the words.
pub fn words_of(alloc: Global, line: &[u8]) -> Result<Vec<&[u8]>, AllocError>
    ensures { IfOk result (λ words. texts words.items ≡ spec.words_of line.now) }
{
    before_comment(line)
        .split(|byte| is_blank(*byte))
        .filter(|word| !word.is_empty())
        .collect(alloc)
}

fn without_last_lf(text: &[u8]) -> &[u8]
    ensures { result.now ≡ spec.without_last_lf text.now }
{
    match text {
        [front @ .., b'\n'] => front,
        _ => text,
    }
}

/// What a separator parts a text into.
///
/// # Errors
///
/// There is no memory for the list of the parts.
pub fn parts_of(alloc: Global, separator: u8, text: &[u8]) -> Result<Vec<&[u8]>, AllocError>
    ensures { IfOk result (λ parts. texts parts.items ≡ spec.parts_of separator text.now) }
{
    text.split(|byte| *byte == separator).collect(alloc)
}

/// The lines of a text, without their LFs. A last LF begins no further line, and the empty text has
/// no lines.
///
/// # Errors
///
/// There is no memory for the list of the lines.
pub fn lines_of(alloc: Global, text: &[u8]) -> Result<Vec<&[u8]>, AllocError>
    ensures { IfOk result (λ lines. texts lines.items ≡ spec.lines_of text.now) }
{
    if text.is_empty() {
        return Ok(Vec::new(alloc));
    }
    parts_of(alloc, b'\n', without_last_lf(text))
}

/// How many bytes the first line has, with its LF.
fn line_len(text: &[u8]) -> usize
    ensures { result ≡ first_len text.now }
{
    for (i, byte) in text.iter().enumerate() {
        if *byte == b'\n' {
            return i + 1;
        }
    }
    text.len()
}

/// The first line, with its LF, and what follows it. Where no text is left both are empty.
#[tactic(auto, using(crate::proofs::KeptLines::first_line, crate::proofs::KeptLines::first_len_le, crate::proofs::KeptLines::first_len_some))]
pub fn cut_line(text: &[u8]) -> (&[u8], &[u8])
    ensures line { 0 < length text.now → IsFirstLine text.now result.0.now result.1.now }
    ensures whole { text.now ≡ result.0.now ++ result.1.now }
    ensures some { 0 < length text.now → 0 < length result.0.now }
{
    text.split_at(line_len(text))
}

/// The lines of a text, each with its LF; the last may lack it.
///
/// # Errors
///
/// There is no memory for the list of the lines.
pub fn kept_lines(alloc: Global, text: &[u8]) -> Result<Vec<&[u8]>, AllocError>
    ensures { IfOk result (λ lines. texts lines.items ≡ spec.kept_lines text.now) }
{
    let mut lines = Vec::new(alloc);
    let mut rest = text;
    while !rest.is_empty() {
        let (line, after) = cut_line(rest);
        lines.push(line)?;
        rest = after;
    }
    Ok(lines)
}
