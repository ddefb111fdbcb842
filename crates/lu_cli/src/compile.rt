//! What is answered to a source.

ghost use Rattle.std.specs.Prelude.{◌≡◌, ◌++◌, IfErr, IfOk};
ghost use Rattle.lu_text.specs.Lines.{texts};
ghost use Rattle.lu_text.specs.Results.{Builds};
ghost use Rattle.lu_text.specs.Writing.{Writes};
ghost use Rattle.lu_source_text.specs.Readers.{component_meant};
ghost use Rattle.lu_cli.specs.Compile as spec;
ghost use Rattle.lu_cli.specs.Compile.{AreStrings, IsAnswerToCompile, IsCompiledBundle, IsCompiledWith};
ghost use Rattle.lu_cli.specs.Worded.{IsSourceRefusal};
ghost use Rattle.lu_cli.specs.Refusals.{Answered};

use crate::answer::{Answer, refused};
use crate::refusal::Refusal;
use lu_component::Component;
use lu_lang::write_component;
use lu_source_text::compile_text;
use std::alloc::{AllocError, Global};
use std::str;

/// The parts as strings: none where one of them is no UTF-8.
pub fn strings_of<'a>(alloc: Global, parts: &[&'a [u8]]) -> Result<Option<Vec<&'a str>>, AllocError>
    ensures { IfOk result (λ read. AreStrings (texts parts.now) read) }
{
    let mut strings = Vec::new(alloc);
    for part in parts {
        match str::from_utf8(part) {
            Ok(string) => strings.push(string)?,
            Err(_) => return Ok(None),
        }
    }
    Ok(Some(strings))
}

/// Puts these parts after the text, each with the line before it.
fn push_parts(text: &mut String, parts: &[&str]) -> Result<(), AllocError>
    ensures { Writes result text.old text.new (spec.lent_after parts.now) }
{
    for part in parts {
        text.push_str("---\n")?;
        text.push_str(part)?;
    }
    Ok(())
}

/// The text of the component, and these parts after it.
fn write_bundle(alloc: Global, component: &Component, parts: &[&str]) -> Result<Answer, AllocError>
    ensures { Builds result (spec.compiled_bundle component.now (texts parts.now)) }
{
    let mut text = write_component(alloc, component)?;
    push_parts(&mut text, parts)?;
    Ok(Answer { text, status: 0 })
}

/// The text of the component, and these parts after it; or that one of them is no UTF-8.
fn show_bundle(alloc: Global, component: &Component, parts: &[&[u8]]) -> Result<Answer, AllocError>
    ensures { IfOk result (IsCompiledBundle component.now (texts parts.now)) }
{
    match strings_of(alloc, parts)? {
        None => refused(alloc, "B3"),
        Some(strings) => write_bundle(alloc, component, &strings),
    }
}

/// The component that a source's text is compiled to.
pub(crate) fn read_source(alloc: Global, text: &[u8]) -> Result<Component, Refusal>
    ensures read { IfOk result (λ c. component_meant text.now ≡ Ok c) }
    ensures refused { IfErr result (IsSourceRefusal text.now) }
{
    match compile_text(alloc, text) {
        Ok(component) => Ok(component),
        Err(fault) => Err(Refusal::Source(fault)),
    }
}

/// What is answered to a source, and the parts after it.
fn compile_parts(alloc: Global, source: &[u8], parts: &[&[u8]]) -> Result<Answer, Refusal>
    ensures { Answered (IsCompiledWith source.now (texts parts.now)) result }
{
    let component = read_source(alloc, source)?;
    Ok(show_bundle(alloc, &component, parts)?)
}

/// `lineup compile`: a source, and any parts.
pub(crate) fn answer_compile(alloc: Global, parts: &[&[u8]]) -> Result<Answer, Refusal>
    ensures { Answered (IsAnswerToCompile (texts parts.now)) result }
{
    let Some((source, rest)) = parts.split_first() else {
        return Err(Refusal::Parts);
    };
    compile_parts(alloc, source, rest)
}
