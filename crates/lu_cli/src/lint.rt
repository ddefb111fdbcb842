//! What there is to say of a bundle: by its component's text, or by its source's own.

ghost use Rattle.std.specs.Prelude.{◌≡◌, ◌≤◌, ◌++◌, IfOk, None, OnOk, string_bytes};
ghost use Rattle.lu_report.specs.Limits.{most_moves};
ghost use Rattle.lu_text.specs.Lines.{lines_of, texts};
ghost use Rattle.lu_text.specs.Lines as text;
ghost use Rattle.lu_text.specs.Writing.{Writes};
ghost use Rattle.lu_text.specs.Results.{HasItems};
ghost use Rattle.lu_cli.specs.Compile.{lent_after};
ghost use Rattle.lu_cli.specs.Lint as spec;
ghost use Rattle.lu_cli.specs.Lint.{AddsMessage, AreRemarksAfter, AreRemarksOn, IsFaulted, IsLint, IsLinted, IsLintedAfter, IsSourceLinted, WritesMessages};

use crate::answer::Answer;
use crate::request::LintRequest;
use lu_component::Component;
use lu_lang::write_component;
use lu_lint::{LintOptions, Remark, Said, have_fault, lint, write_remarks};
use lu_source_lint::{SourceMessage, What, faults_of, warnings_of, wording};
use lu_source_text::{compile_text, is_source};
use lu_text::{Fault, bundle_parts, lines_of, words_of};
use lu_wording::Words;
use std::alloc::{AllocError, Global};

/// Adds the line of a message, in these words.
fn write_line(text: &mut String, message: SourceMessage, words: &str) -> Result<(), AllocError>
    ensures { Writes result text.old text.new (spec.message_line message words.now) }
{
    let SourceMessage { line, what } = message;
    match what {
        What::Fault(kind) => writeln!(text, "line {line}: {words} ({})", kind.code()),
        What::Warning(_) => writeln!(text, "line {line}: warning: {words}"),
    }
}

/// Adds the line of a message of a source with these lines.
fn write_message(
    alloc: Global,
    text: &mut String,
    message: SourceMessage,
    lines: &[&[u8]],
) -> Result<(), AllocError>
    ensures { OnOk result (AddsMessage message (string_bytes text.old) (string_bytes text.new)) }
{
    let words = wording(alloc, &message, lines)?;
    write_line(text, message, words.as_str())
}

/// Adds a line for each message.
fn write_messages(
    alloc: Global,
    text: &mut String,
    messages: &[SourceMessage],
    lines: &[&[u8]],
) -> Result<(), AllocError>
    ensures { OnOk result (WritesMessages messages.now text.old text.new) }
{
    for message in messages {
        write_message(alloc, text, *message, lines)?;
    }
    Ok(())
}

/// Every fault of a source.
fn answer_faults(alloc: Global, source: &[u8]) -> Result<Answer, AllocError>
    ensures { IfOk result (IsFaulted source.now) }
{
    let lines = lines_of(alloc, source)?;
    let faults = faults_of(alloc, source)?;
    let mut text = String::new(alloc);
    write_messages(alloc, &mut text, &faults, &lines)?;
    Ok(Answer { text, status: 2 })
}

/// Adds these parts, each with the line before it.
fn push_parts(bundle: &mut Vec<u8>, parts: &[&[u8]]) -> Result<(), AllocError>
    ensures { OnOk result
        (bundle.new.items ≡ bundle.old.items ++ lent_after parts.now) }
{
    for part in parts {
        bundle.extend_from_slice(b"---\n")?;
        bundle.extend_from_slice(part)?;
    }
    Ok(())
}

/// The remark, where it is of a line after the first `above`: on the line that it has where `now`
/// lines stand in their stead.
fn moved(remark: Remark, above: usize, now: usize) -> Option<Remark>
    ensures { result ≡ spec.moved above now remark }
{
    let Remark { said, words } = remark;
    let Said { line, cause } = said;
    if line <= above {
        return None;
    }
    let line = now.saturating_add(line - above);
    Some(Remark {
        said: Said { line, cause },
        words,
    })
}

/// What is said of lines after the first `above`, where `now` lines stand in their stead.
fn remarks_below(
    alloc: Global,
    remarks: Vec<Remark>,
    above: usize,
    now: usize,
) -> Result<Vec<Remark>, AllocError>
    ensures { HasItems result (spec.remarks_below above now remarks.items) }
{
    remarks
        .into_iter()
        .filter_map(|remark| moved(remark, above, now))
        .collect(alloc)
}

/// The component, with these parts after it.
pub(crate) fn bundle_of(
    alloc: Global,
    component: &Component,
    parts: &[&[u8]],
) -> Result<Vec<u8>, AllocError>
    ensures { HasItems result (spec.bundle_of component.now (texts parts.now)) }
{
    let mut bundle = write_component(alloc, component)?.into_bytes();
    push_parts(&mut bundle, parts)?;
    Ok(bundle)
}

/// How a bundle is linted that is asked for so.
fn options_of(asked: LintRequest) -> LintOptions
    ensures options { result ≡ spec.options_of asked }
    ensures some { 1 ≤ result.serial }
    ensures few { result.serial ≤ most_moves }
{
    LintOptions {
        serial: asked.bounds.serial(),
        marks: asked.marks,
    }
}

/// The number of this line, if it has words, and whether the first one is this word.
fn line_with_words(
    alloc: Global,
    number: usize,
    line: &[u8],
    word: &[u8],
) -> Result<Option<(usize, bool)>, AllocError>
    ensures { IfOk result (λ found.
        found ≡ spec.line_or word.now number (text.words_of line.now) None) }
{
    let words = words_of(alloc, line)?;
    match words.split_first() {
        Some((first, _)) => Ok(Some((number, *first == word))),
        None => Ok(None),
    }
}

/// The number of the first of these lines that has words, counted on from `above`, and whether its
/// first word is this one.
fn first_line(
    alloc: Global,
    above: usize,
    lines: &[&[u8]],
    word: &[u8],
) -> Result<Option<(usize, bool)>, AllocError>
    ensures { IfOk result (λ first. first ≡ spec.first_line word.now above (texts lines.now)) }
{
    let mut number = above;
    for line in lines {
        number = number.saturating_add(1);
        match line_with_words(alloc, number, line, word)? {
            Some(found) => return Ok(Some(found)),
            None => {}
        }
    }
    Ok(None)
}

/// The same of a text's lines.
fn first_line_of(
    alloc: Global,
    above: usize,
    text: &[u8],
    word: &[u8],
) -> Result<Option<(usize, bool)>, AllocError>
    ensures { IfOk result (λ first. first ≡ spec.first_line word.now above (lines_of text.now)) }
{
    let lines = lines_of(alloc, text)?;
    first_line(alloc, above, &lines, word)
}

/// The line of a bundle in which its matrix begins as recorded runs, where it does.
fn line_of_runs(alloc: Global, above: usize, parts: &[&[u8]]) -> Result<Option<usize>, AllocError>
    ensures { IfOk result (λ line. line ≡ spec.line_of_runs above (texts parts.now)) }
{
    let Some((matrix, _)) = parts.split_first() else {
        return Ok(None);
    };
    match first_line_of(alloc, above.saturating_add(1), matrix, b"run")? {
        Some((line, true)) => Ok(Some(line)),
        _ => Ok(None),
    }
}

/// The last line of which something is said: that in which the first part begins as no component, or
/// the matrix as recorded runs.
fn last_line(alloc: Global, parts: &[&[u8]]) -> Result<Option<usize>, AllocError>
    ensures { IfOk result (λ line. line ≡ spec.last_line (texts parts.now)) }
{
    let Some((first, rest)) = parts.split_first() else {
        return Ok(None);
    };
    match first_line_of(alloc, 0, first, b"component")? {
        Some((line, false)) => Ok(Some(line)),
        _ => line_of_runs(alloc, lines_of(alloc, first)?.len(), rest),
    }
}

/// The remarks up to this line.
fn remarks_upto(alloc: Global, remarks: Vec<Remark>, last: usize) -> Result<Vec<Remark>, AllocError>
    ensures { HasItems result (spec.remarks_upto last remarks.items) }
{
    remarks
        .into_iter()
        .filter(|remark| remark.said.line <= last)
        .collect(alloc)
}

/// What there is to say of a bundle with a component, in the order of its lines.
fn remarks_on(alloc: Global, asked: LintRequest, bundle: &[u8]) -> Result<Vec<Remark>, AllocError>
    ensures { IfOk result (λ remarks. AreRemarksOn asked bundle.now remarks.items) }
{
    let parts = bundle_parts(alloc, bundle)?;
    let last = last_line(alloc, &parts)?;
    let linted = lint(alloc, &Words, bundle, options_of(asked))?;
    match last {
        None => Ok(linted.remarks),
        Some(last) => remarks_upto(alloc, linted.remarks, last),
    }
}

/// The answer that says this text, and then the remarks.
fn remarked_after(mut text: String, remarks: &[Remark]) -> Result<Answer, AllocError>
    ensures { IfOk result
        (λ answer. answer ≡ spec.remarked_after (string_bytes text) remarks.now) }
{
    write_remarks(&mut text, remarks)?;
    Ok(Answer {
        text,
        status: if have_fault(remarks) { 2 } else { 0 },
    })
}

/// What there is to say of the parts after the source, whose component is this, on their lines.
fn remarks_after(
    alloc: Global,
    asked: LintRequest,
    component: &Component,
    source_lines: usize,
    parts: &[&[u8]],
) -> Result<Vec<Remark>, AllocError>
    ensures { IfOk result (AreRemarksAfter asked component.now source_lines (texts parts.now)) }
{
    let text = write_component(alloc, component)?;
    let lines = lines_of(alloc, text.as_bytes())?.len();
    let bundle = bundle_of(alloc, component, parts)?;
    let remarks = remarks_on(alloc, asked, &bundle)?;
    remarks_below(alloc, remarks, lines, source_lines)
}

/// What is odd in a source without faults, whose component is this, and what there is to say of
/// the parts after it.
fn lint_after(
    alloc: Global,
    asked: LintRequest,
    source: &[u8],
    component: &Component,
    parts: &[&[u8]],
) -> Result<Answer, AllocError>
    ensures { IfOk result
        (IsLintedAfter asked source.now (texts parts.now) component.now) }
{
    let lines = lines_of(alloc, source)?;
    let warnings = warnings_of(alloc, source)?;
    let remarks = remarks_after(alloc, asked, component, lines.len(), parts)?;
    let mut text = String::new(alloc);
    write_messages(alloc, &mut text, &warnings, &lines)?;
    remarked_after(text, &remarks)
}

/// What there is to say of a source, and of the parts after it.
fn lint_source(
    alloc: Global,
    asked: LintRequest,
    source: &[u8],
    parts: &[&[u8]],
) -> Result<Answer, AllocError>
    ensures { IfOk result (IsSourceLinted asked source.now (texts parts.now)) }
{
    match compile_text(alloc, source) {
        Ok(component) => lint_after(alloc, asked, source, &component, parts),
        Err(Fault::At(_, _)) => answer_faults(alloc, source),
        Err(Fault::Memory) => Err(AllocError),
    }
}

/// What there is to say of a bundle whose component is none of a source.
fn lint_component(alloc: Global, asked: LintRequest, bundle: &[u8]) -> Result<Answer, AllocError>
    ensures { IfOk result (IsLinted asked bundle.now) }
{
    let remarks = remarks_on(alloc, asked, bundle)?;
    remarked_after(String::new(alloc), &remarks)
}

/// `lineup lint`: what there is to say of a bundle.
pub(crate) fn answer_lint(
    alloc: Global,
    asked: LintRequest,
    bundle: &[u8],
) -> Result<Answer, AllocError>
    ensures { IfOk result (IsLint asked bundle.now) }
{
    let parts = bundle_parts(alloc, bundle)?;
    match parts.split_first() {
        None => lint_component(alloc, asked, bundle),
        Some((first, rest)) => if is_source(alloc, first)? {
            lint_source(alloc, asked, first, rest)
        } else {
            lint_component(alloc, asked, bundle)
        },
    }
}
