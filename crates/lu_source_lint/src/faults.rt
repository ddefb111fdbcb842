//! Every fault of a source.

ghost use Rattle.std.specs.Prelude.{◌≡◌, IfOk, OnOk};
ghost use Rattle.lu_text.specs.Lines.{lines_of, texts};
ghost use Rattle.lu_text.specs.Faults.{meaning_of};
ghost use Rattle.lu_text.specs.Results.{HasItems};
ghost use Rattle.lu_source_text.specs.Grammar.{source_grammar};
ghost use Rattle.lu_source_lint.specs.Faults as spec;
ghost use Rattle.lu_source_lint.specs.Faults.{AgreeOn, bytes_of, faults_in, faults_of_lines};

use crate::meaning::{begins_matrix, is_dashes, meant_line, meant_outside, opens, word_is};
use crate::message::{SourceMessage, What};
use lu_source_text::{SourceFaultKind, read_source_lines, source_words};
use lu_text::{Fault, lines_of};
use std::alloc::{AllocError, Global};

/// The most faults that are reported of a text.
const MOST_FAULTS: usize = 20;

/// A line's fault.
#[derive(Clone, Copy, Drop)]
struct LineFault {
    line: usize,
    kind: SourceFaultKind,
}

/// The fault for which these lines are refused.
fn fault_of(alloc: Global, lines: &[&[u8]]) -> Result<Option<LineFault>, AllocError>
    ensures { IfOk result (λ fault. fault ≡ spec.first_fault (texts lines.now)) }
{
    match read_source_lines(alloc, lines) {
        Ok(_source) => Ok(None),
        Err(Fault::At(kind, line)) => Ok(Some(LineFault { line, kind })),
        Err(Fault::Memory) => Err(AllocError),
    }
}

/// The first fault of the lines.
fn first_fault(alloc: Global, lines: &[Vec<u8>]) -> Result<Option<LineFault>, AllocError>
    ensures { IfOk result (λ fault. fault ≡ spec.first_fault (bytes_of lines.now)) }
{
    let lines: Vec<&[u8]> = lines.iter().map(|line| line.as_slice()).collect(alloc)?;
    fault_of(alloc, &lines)
}

/// The lines, in memory of their own.
fn copies(alloc: Global, lines: &[Vec<u8>]) -> Result<Vec<Vec<u8>>, AllocError>
    ensures { IfOk result (λ copies. bytes_of copies.items ≡ bytes_of lines.now) }
{
    let mut copies = Vec::new(alloc);
    for line in lines {
        copies.push(Vec::from_slice(alloc, line.as_slice())?)?;
    }
    Ok(copies)
}

/// This line, or nothing where there are fewer.
fn line_at(lines: &[Vec<u8>], line: usize) -> &[u8]
    ensures { result.now ≡ spec.line_at (bytes_of lines.now) line }
{
    lines
        .get(line.saturating_sub(1))
        .map_or(&[], |text| text.as_slice())
}

/// Puts this text in place of a line, where the line is there.
fn set_line(lines: &mut [Vec<u8>], line: usize, text: Vec<u8>)
    ensures { bytes_of lines.new ≡ spec.with_line (bytes_of lines.old) line text.items }
{
    let index = line.saturating_sub(1);
    if index < lines.len() {
        lines[index] = text;
    }
}

/// Puts this text in place of a line, where that has the first fault of the lines, which is given.
/// Returns the first fault after that.
fn set_if_faulty(
    alloc: Global,
    lines: &mut [Vec<u8>],
    first: Option<LineFault>,
    line: usize,
    text: &[u8],
) -> Result<Option<LineFault>, AllocError>
    requires { first ≡ spec.first_fault (bytes_of lines.old) }
    ensures lines { OnOk result
        (bytes_of lines.new ≡ spec.or_line (bytes_of lines.old) line text.now) }
    ensures first { IfOk result (λ first. first ≡ spec.first_fault (bytes_of lines.new)) }
{
    match first {
        Some(fault) if fault.line == line => {
            set_line(lines, line, Vec::from_slice(alloc, text)?);
            first_fault(alloc, lines)
        }
        _ => Ok(first),
    }
}

/// Whether the line with these words leaves its block, and ends no loop.
fn leaves(words: &[&[u8]]) -> bool
    ensures { result ≡ spec.leaves (texts words.now) }
{
    word_is(words, 0, b"return") || word_is(words, 0, b"continue")
}

fn has_no_words(words: &[&[u8]]) -> bool
    ensures { result ≡ spec.has_no_words (texts words.now) }
{
    words.is_empty()
}

/// The last of the first `count` lines that has words, where it leaves its block; else 0.
fn leaving_line(alloc: Global, lines: &[Vec<u8>], count: usize) -> Result<usize, AllocError>
    ensures { IfOk result (λ line. line ≡ spec.leaving_line (bytes_of lines.now) count) }
{
    if count == 0 {
        return Ok(0);
    }
    let words = source_words(alloc, line_at(lines, count))?;
    if has_no_words(&words) {
        return leaving_line(alloc, lines, count - 1);
    }
    Ok(if leaves(&words) { count } else { 0 })
}

/// The line that leaves the block before the faulty one, where that is why it is at fault; else 0.
fn left_at(alloc: Global, lines: &[Vec<u8>], fault: LineFault) -> Result<usize, AllocError>
    ensures { IfOk result (λ line. line ≡ spec.left_at (bytes_of lines.now) fault) }
{
    match fault.kind {
        SourceFaultKind::Flow => leaving_line(alloc, lines, fault.line.saturating_sub(1)),
        _ => Ok(0),
    }
}

/// Makes the faulty line what it may have meant, or an empty one. Returns the first fault after that.
fn mend_line(
    alloc: Global,
    lines: &mut [Vec<u8>],
    fault: LineFault,
) -> Result<Option<LineFault>, AllocError>
    ensures lines { OnOk result
        (bytes_of lines.new ≡ spec.mended_line (bytes_of lines.old) fault) }
    ensures first { IfOk result (λ first. first ≡ spec.first_fault (bytes_of lines.new)) }
{
    let line = line_at(lines, fault.line);
    let outside = meant_outside(alloc, line)?;
    let text = meant_line(alloc, fault.kind, line)?;
    set_line(lines, fault.line, text);
    let first = first_fault(alloc, lines)?;
    let next = set_if_faulty(alloc, lines, first, fault.line, &outside)?;
    set_if_faulty(alloc, lines, next, fault.line, &[])
}

/// Empties the line that leaves the block before the faulty one, and the faulty one where it still
/// is. Returns the first fault after that.
fn reach(
    alloc: Global,
    lines: &mut [Vec<u8>],
    leaving: usize,
    line: usize,
) -> Result<Option<LineFault>, AllocError>
    ensures lines { OnOk result
        (bytes_of lines.new ≡ spec.reached (bytes_of lines.old) leaving line) }
    ensures first { IfOk result (λ first. first ≡ spec.first_fault (bytes_of lines.new)) }
{
    set_line(lines, leaving, Vec::new(alloc));
    let first = first_fault(alloc, lines)?;
    set_if_faulty(alloc, lines, first, line, &[])
}

/// Makes the lines what they may have meant: the faulty one, or the one that leaves the block
/// before it. Returns the first fault after that.
fn mend(
    alloc: Global,
    lines: &mut [Vec<u8>],
    fault: LineFault,
) -> Result<Option<LineFault>, AllocError>
    ensures lines { OnOk result (bytes_of lines.new ≡ spec.mended (bytes_of lines.old) fault) }
    ensures first { IfOk result (λ first. first ≡ spec.first_fault (bytes_of lines.new)) }
{
    let leaving = left_at(alloc, lines, fault)?;
    if leaving == 0 {
        mend_line(alloc, lines, fault)
    } else {
        reach(alloc, lines, leaving, fault.line)
    }
}

/// Whether a line declares something, and is not the one that names the object.
fn is_declaration(words: &[&[u8]]) -> bool
    ensures { result ≡ spec.is_declaration (texts words.now) }
{
    word_is(words, 0, b"const")
        || word_is(words, 0, b"word")
        || word_is(words, 0, b"lock")
        || word_is(words, 0, b"local")
        || word_is(words, 0, b"op")
}

/// Whether nothing after a line with these words can be read on, where it has this fault.
fn ends_all(kind: SourceFaultKind, words: &[&[u8]]) -> bool
    ensures { result ≡ spec.ends_all kind (texts words.now) }
{
    match kind {
        SourceFaultKind::Limit => word_is(words, 0, b"}"),
        SourceFaultKind::Form => is_dashes(words) || begins_matrix(words),
        SourceFaultKind::Missing => is_declaration(words),
        _ => false,
    }
}

/// Whether the fault is that this line has no form of a source.
fn is_formless_at(line: usize, fault: Option<LineFault>) -> bool
    ensures { result ≡ spec.formless_at line fault }
{
    match fault {
        Some(fault) => fault.line == line && matches!(fault.kind, SourceFaultKind::Form),
        None => false,
    }
}

/// Whether the line has no form of a source where an operation without arguments is put in its
/// place.
fn refuses_operation(alloc: Global, lines: &mut [Vec<u8>], line: usize) -> Result<bool, AllocError>
    ensures { IfOk result
        (λ refuses. refuses ≡ spec.refuses_operation (bytes_of lines.old) line) }
{
    let text = Vec::from_slice(alloc, b"op unnamed() {".as_slice())?;
    set_line(lines, line, text);
    let fault = first_fault(alloc, lines)?;
    Ok(is_formless_at(line, fault))
}

/// Whether the line, which has these words, begins an operation in another one.
fn is_inner_operation(
    alloc: Global,
    lines: &[Vec<u8>],
    line: usize,
    words: &[&[u8]],
) -> Result<bool, AllocError>
    ensures { IfOk result (λ inner. inner ≡ spec.inner_at lines.now line words.now) }
{
    if !word_is(words, 0, b"op") {
        return Ok(false);
    }
    let mut copies = copies(alloc, lines)?;
    refuses_operation(alloc, &mut copies, line)
}

/// Whether the fault is that of a block, with these words, that can't be reached, whatever is meant.
fn is_unreachable_block(
    alloc: Global,
    lines: &[Vec<u8>],
    fault: LineFault,
    words: &[&[u8]],
) -> Result<bool, AllocError>
    ensures { IfOk result (λ is. is ≡ spec.unreachable_at lines.now fault words.now) }
{
    if !matches!(fault.kind, SourceFaultKind::Flow) || !opens(words) {
        return Ok(false);
    }
    let leaving = left_at(alloc, lines, fault)?;
    Ok(leaving == 0)
}

/// Whether nothing after the fault is reported: it is at the end of the text, or nothing after its
/// line can be read on, or it is that of an operation in another one.
fn is_last(alloc: Global, lines: &[Vec<u8>], fault: LineFault) -> Result<bool, AllocError>
    ensures { IfOk result (λ last. last ≡ spec.is_last (bytes_of lines.now) fault) }
{
    if lines.len() < fault.line {
        return Ok(true);
    }
    let words = source_words(alloc, line_at(lines, fault.line))?;
    if ends_all(fault.kind, &words) || is_unreachable_block(alloc, lines, fault, &words)? {
        return Ok(true);
    }
    is_inner_operation(alloc, lines, fault.line, &words)
}

/// The faults of the lines, at most 20.
fn faults_of_lines(alloc: Global, mut lines: Vec<Vec<u8>>) -> Result<Vec<SourceMessage>, AllocError>
    ensures { HasItems result (faults_of_lines 20 (bytes_of lines.items)) }
{
    let mut faults = Vec::new(alloc);
    let mut first = first_fault(alloc, &lines)?;
    for _round in 0..MOST_FAULTS {
        let Some(fault) = first else {
            return Ok(faults);
        };
        faults.push(SourceMessage {
            line: fault.line,
            what: What::Fault(fault.kind),
        })?;
        if is_last(alloc, &lines, fault)? {
            return Ok(faults);
        }
        first = mend(alloc, &mut lines, fault)?;
    }
    Ok(faults)
}

/// The lines, in memory of their own.
pub(crate) fn owned(alloc: Global, lines: &[&[u8]]) -> Result<Vec<Vec<u8>>, AllocError>
    ensures { IfOk result (λ owned. bytes_of owned.items ≡ texts lines.now) }
{
    let mut owned = Vec::new(alloc);
    for line in lines {
        owned.push(Vec::from_slice(alloc, line)?)?;
    }
    Ok(owned)
}

/// The lines as they may have been meant where the first faults are before this line.
pub(crate) fn mended_before(
    alloc: Global,
    mut lines: Vec<Vec<u8>>,
    line: usize,
) -> Result<Vec<Vec<u8>>, AllocError> {
    let mut first = first_fault(alloc, &lines)?;
    for _round in 0..MOST_FAULTS {
        match first {
            Some(fault) if fault.line < line => first = mend(alloc, &mut lines, fault)?,
            _ => return Ok(lines),
        }
    }
    Ok(lines)
}

/// The faults of a source's text, at most 20: the first one, and then each that is left where the
/// lines above are read as they may have been meant.
///
/// # Errors
///
/// There is no memory for them.
pub fn faults_of(alloc: Global, text: &[u8]) -> Result<Vec<SourceMessage>, AllocError>
    ensures all { HasItems result (faults_in text.now) }
    // None of a text that is read; else the first is that for which it is refused.
    ensures first { IfOk result
        (λ list. AgreeOn (meaning_of source_grammar text.now) list.items) }
{
    let lines = owned(alloc, &lines_of(alloc, text)?)?;
    faults_of_lines(alloc, lines)
}
