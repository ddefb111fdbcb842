//! How instructions are shown.

ghost use Rattle.std.specs.Prelude.{◌≡◌, ◌+◌, is_some};
ghost use Rattle.std.specs.Option.{option_copied};
ghost use Rattle.lu_text.specs.Writing.{Writes};
ghost use Rattle.lu_trace.specs.Wordings as spec;
ghost use Rattle.lu_trace.specs.Wordings.{goes_on_at, place_word, register_becomes, register_name};

use lu_lang::Labels;
use lu_machine::Frame;
use lu_source::{Origin, Origins};
use lu_text::{Name, before_comment};
use std::alloc::AllocError;
use std::str;

/// How instructions are shown.
#[derive(Clone, Copy)]
pub enum Wording<'a> {
    /// As the component's text has them, its labels by their places: `L3`.
    Component,

    /// As the component's text has them, with these labels of it: `again`. Where none stands at a
    /// place, `L3`.
    Labelled(&'a Labels),

    /// As the source has them that the component was compiled from.
    Source {
        /// The lines of the source, in their order and without their LFs.
        lines: &'a [&'a [u8]],

        /// Where the instructions of the component come from. What it lacks is shown without line
        /// and locals.
        origins: &'a Origins,
    },
}

/// Where the instruction at this place of an operation comes from, if that is known.
fn origin_in(origins: &Origins, op: u8, place: u8) -> Option<&Origin>
    ensures { option_copied result ≡ spec.origin_in origins.now op place }
{
    let code = origins.operations.get(usize::from(op))?;
    code.get(usize::from(place))
}

/// The local in a register at the operation's place, if one is in scope there.
fn local_in<'a>(origins: &'a Origins, frame: &Frame, register: u8) -> Option<&'a Name>
    ensures { option_copied result ≡ spec.local_in origins.now frame.now register }
{
    let origin = origin_in(origins, frame.op, frame.place)?;
    origin.locals.get(usize::from(register))
}

/// Whether a register has a name: in a source, where a local is in it.
pub(crate) fn has_name(how: &Wording<'_>, frame: &Frame, register: u8) -> bool
    ensures { result ≡ is_some (register_name how.now frame.now register) }
{
    match *how {
        Wording::Component | Wording::Labelled(_) => true,
        Wording::Source { origins, .. } => local_in(origins, frame, register).is_some(),
    }
}

/// Adds what a register becomes, with its name if it has one.
pub(crate) fn write_register(
    text: &mut String,
    how: &Wording<'_>,
    frame: &Frame,
    register: u8,
    value: u32,
) -> Result<(), AllocError>
    ensures { Writes result text.old text.new
        (register_becomes how.now frame.now register value) }
{
    match *how {
        Wording::Component | Wording::Labelled(_) => write!(text, "r{register} = {value}"),
        Wording::Source { origins, .. } => match local_in(origins, frame, register) {
            None => write!(text, "= {value}"),
            Some(name) => write!(text, "{} = {value}", name.as_str()),
        },
    }
}

/// Whether the cells of an array are shown with their index.
pub(crate) fn is_indexed(how: &Wording<'_>, array: u8) -> bool
    ensures { result ≡ spec.is_indexed how.now array }
{
    match *how {
        Wording::Component | Wording::Labelled(_) => true,
        Wording::Source { origins, .. } => match origins.indexed.get(usize::from(array)) {
            None => true,
            Some(indexed) => *indexed,
        },
    }
}

/// Adds the label that stands at a place of an operation, or its number where none does.
pub(crate) fn write_place(
    text: &mut String,
    labels: &Labels,
    op: u8,
    place: u8,
) -> Result<(), AllocError>
    ensures { Writes result text.old text.new (place_word labels.now op place) }
{
    match labels.name(op, place) {
        None => write!(text, "L{place}"),
        Some(name) => text.push_str(name.as_str()),
    }
}

/// Adds where a jump of the operation leads.
pub(crate) fn write_jump(
    text: &mut String,
    how: &Wording<'_>,
    frame: &Frame,
    target: u8,
) -> Result<(), AllocError>
    ensures { Writes result text.old text.new
        (goes_on_at how.now frame.now target) }
{
    match *how {
        Wording::Component => write!(text, "jumps to L{target}"),
        Wording::Labelled(labels) => {
            text.push_str("jumps to ")?;
            write_place(text, labels, frame.op, target)
        }
        Wording::Source { origins, .. } => match origin_in(origins, frame.op, target) {
            None => text.push_str("continues"),
            Some(origin) => write!(text, "jumps to line {}", origin.line),
        },
    }
}

/// Adds the value that a jump tests, where a source is shown.
pub(crate) fn write_tested(
    text: &mut String,
    how: &Wording<'_>,
    value: u32,
) -> Result<(), AllocError>
    ensures { Writes result text.old text.new (spec.tested how.now value) }
{
    match how {
        Wording::Component | Wording::Labelled(_) => Ok(()),
        Wording::Source { .. } => write!(text, "= {value}, "),
    }
}

/// Where the instruction after this place of an operation comes from, if that is known.
fn origin_after(origins: &Origins, op: u8, place: u8) -> Option<&Origin>
    ensures { option_copied result ≡ spec.origin_in origins.now op (place + 1) }
{
    let code = origins.operations.get(usize::from(op))?;
    code.get(usize::from(place) + 1)
}

/// Whether the next instruction of the operation, in its code, comes from the same line of the
/// source.
fn stays_in_line(origins: &Origins, frame: &Frame) -> bool
    ensures { result ≡ spec.stays_in_line origins.now frame.now }
{
    match origin_in(origins, frame.op, frame.place) {
        None => false,
        Some(here) => match origin_after(origins, frame.op, frame.place) {
            None => false,
            Some(next) => here.line == next.line,
        },
    }
}

/// Whether a source gives a name to no local in this register, and the next instruction of the
/// operation comes from the same line.
pub(crate) fn is_within_line(how: &Wording<'_>, frame: &Frame, register: u8) -> bool
    ensures { result ≡ spec.is_within_line how.now frame.now register }
{
    match *how {
        Wording::Component | Wording::Labelled(_) => false,
        Wording::Source { origins, .. } => {
            local_in(origins, frame, register).is_none() && stays_in_line(origins, frame)
        }
    }
}

/// The text that the bytes spell, and none where they are no UTF-8.
fn text_of(bytes: &[u8]) -> &str
    ensures { result.now ≡ spec.text_of bytes.now }
{
    match str::from_utf8(bytes) {
        Ok(text) => text,
        Err(_) => "",
    }
}

/// The line of this number, from 1, up to its comment and without white space at both ends.
fn line_text<'a>(lines: &[&'a [u8]], number: usize) -> &'a str
    ensures { result.now ≡ spec.line_text lines.now number }
{
    match lines.get(number.saturating_sub(1)) {
        None => "",
        Some(line) => text_of(before_comment(line)).trim(),
    }
}

/// Adds the line of the source that the instruction at the operation's place comes from, if that is
/// known, and what begins a remark.
pub(crate) fn write_source_line(
    text: &mut String,
    lines: &[&[u8]],
    origins: &Origins,
    frame: &Frame,
) -> Result<(), AllocError>
    ensures { Writes result text.old text.new
        (spec.source_line lines.now origins.now frame.now) }
{
    match origin_in(origins, frame.op, frame.place) {
        None => text.push_str("# "),
        Some(origin) => {
            let line = line_text(lines, origin.line);
            write!(text, "line {}: {line}  # ", origin.line)
        }
    }
}
