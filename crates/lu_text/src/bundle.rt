//! Bundles: texts with several parts, which lines `---` part.

ghost use Rattle.std.specs.Prelude.{◌≡◌, ◌==◌, ◌||◌, IfOk};
ghost use Rattle.lu_text.specs.Bundle as spec;
ghost use Rattle.lu_text.specs.Bundle.{parts_at, separates};
ghost use Rattle.lu_text.specs.Lines as lines;
ghost use Rattle.lu_text.specs.Lines.{texts};

use crate::line::{cut_line, is_blank};
use std::alloc::{AllocError, Global};

/// Which lines part a bundle.
#[derive(Clone, Copy)]
enum Separators {
    /// The lines `---`.
    Exact,

    /// Those with blanks after it too.
    Meant,
}

impl Separators {
    fn are(self, line: &[u8]) -> bool
        ensures { result ≡ separates self line.now }
    {
        match self {
            Separators::Exact => is_separator(line),
            Separators::Meant => is_meant_as_separator(line),
        }
    }
}

/// Whether a line, with its LF or without, is `---`.
pub fn is_separator(line: &[u8]) -> bool
    ensures { result ≡ spec.is_separator line.now }
{
    line == b"---\n".as_slice() || line == b"---".as_slice()
}

fn is_blank_or_end(byte: u8) -> bool
    ensures { result ≡ (lines.is_blank byte || byte == 10) }
{
    is_blank(byte) || byte == b'\n'
}

fn are_blank(bytes: &[u8]) -> bool
    ensures { result ≡ spec.are_blank bytes.now }
{
    bytes.iter().all(|byte| is_blank_or_end(*byte))
}

/// Whether a line is `---` with nothing but blanks after it: a separator, or one that is meant.
pub fn is_meant_as_separator(line: &[u8]) -> bool
    ensures { result ≡ spec.is_meant_as_separator line.now }
{
    match line.strip_prefix(b"---") {
        None => false,
        Some(rest) => are_blank(rest),
    }
}

fn cut(alloc: Global, text: &[u8], separators: Separators) -> Result<Vec<&[u8]>, AllocError>
    ensures { IfOk result (λ parts. texts parts.items ≡ parts_at separators text.now) }
{
    let mut parts = Vec::new(alloc);
    let mut part = text;
    let mut size = 0;
    let mut rest = text;
    while !rest.is_empty() {
        let (line, after) = cut_line(rest);
        if separators.are(line) {
            parts.push(&part[..size])?;
            part = after;
            size = 0;
        } else {
            size = part.len() - after.len();
        }
        rest = after;
    }
    parts.push(part)?;
    Ok(parts)
}

/// The parts of a bundle: the bytes between its lines `---`.
///
/// # Errors
///
/// There is no memory for the list of the parts.
pub fn bundle_parts(alloc: Global, text: &[u8]) -> Result<Vec<&[u8]>, AllocError>
    ensures { IfOk result (λ parts. texts parts.items ≡ spec.bundle_parts text.now) }
{
    cut(alloc, text, Separators::Exact)
}

/// The parts of a bundle as they are meant: the bytes between its lines that part or are meant to.
///
/// # Errors
///
/// There is no memory for the list of the parts.
pub fn meant_parts(alloc: Global, text: &[u8]) -> Result<Vec<&[u8]>, AllocError>
    ensures { IfOk result (λ parts. texts parts.items ≡ spec.meant_parts text.now) }
{
    cut(alloc, text, Separators::Meant)
}
