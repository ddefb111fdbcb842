//! The help text, which is made of the table.

ghost use Rattle.std.specs.Prelude.{◌≡◌, IfOk, string_bytes};
ghost use Rattle.lu_text.specs.Lines.{texts};
ghost use Rattle.lu_text.specs.Results.{Builds};
ghost use Rattle.lu_text.specs.Writing.{Writes};
ghost use Rattle.lu_cli.specs.Help as spec;
ghost use Rattle.lu_cli.specs.Table.{command_said, option_said};

use crate::answer::Answer;
use crate::table::{CommandRow, Kind, OptionRow, commands, options};
use std::alloc::{AllocError, Global};

/// The text before the commands.
const USAGE: &str = "\
lineup finds faults in concurrent components, such as locks, queues and counters.

usage: lineup COMMAND [OPTION..] < BUNDLE
A bundle has the parts listed here, in this order, separated by lines `---`.
Exit status: 0 success, 1 failure, 2 refused, 3 undecided or a serial cut,
4 out of memory, or failed to read, write or start a thread.

";

/// The text between the commands and the options.
const NOTES: &str = "\n\
explain, draw and trace also take a schedule in place of the report, or the output
of certify in place of matrix and report. Given a component and a matrix alone,
they certify and show what fails.

witness also takes runs in place of matrix and histories.

compile, explain, draw, trace and lint take a source in place of the component. The
other commands do so with --source.

Options, each with its range, its default in parentheses, its meaning, and the
commands that take it:

";

/// Adds this many blanks.
fn push_blanks(text: &mut String, count: usize) -> Result<(), AllocError>
    ensures { Writes result text.old text.new (spec.blanks count) }
{
    for _blank in 0..count {
        text.push_str(" ")?;
    }
    Ok(())
}

/// Adds a word, and blanks after it up to this width.
fn push_padded(text: &mut String, word: &str, width: usize) -> Result<(), AllocError>
    ensures { Writes result text.old text.new (spec.padded width word.now) }
{
    text.push_str(word)?;
    push_blanks(text, width.saturating_sub(word.len()))
}

/// Adds the line of a command.
fn push_command(text: &mut String, row: &CommandRow) -> Result<(), AllocError>
    ensures { Writes result text.old text.new (spec.command_line (command_said row.now)) }
{
    text.push_str("  ")?;
    push_padded(text, row.name, 10)?;
    push_padded(text, row.parts, 34)?;
    text.push_str(row.words)?;
    text.push_str("\n")
}

/// The range and the default of a number.
fn range(alloc: Global, least: u64, most: u64, default: Option<&str>) -> Result<String, AllocError>
    ensures { IfOk result (λ t. string_bytes t ≡ spec.range_lent least most default.entry) }
{
    match default {
        None => format!(in alloc; "{least} to {most}, "),
        Some(default) => format!(in alloc; "{least} to {most} ({default}), "),
    }
}

/// The range and the default of an option.
fn range_of(alloc: Global, option: &OptionRow) -> Result<String, AllocError>
    ensures { IfOk result (λ t. string_bytes t ≡ spec.range_of (option_said option.now)) }
{
    match option.kind {
        Kind::Flag => Ok(String::new(alloc)),
        Kind::Number { least, most } => {
            range(alloc, u64::from(least), u64::from(most), option.default)
        }
        Kind::Long => range(alloc, 0, u64::MAX, option.default),
    }
}

/// How an option is written.
fn written(alloc: Global, option: &OptionRow) -> Result<String, AllocError>
    ensures { IfOk result (λ t. string_bytes t ≡ spec.written (option_said option.now)) }
{
    match option.kind {
        Kind::Flag => format!(in alloc; "--{}", option.name),
        Kind::Number { .. } => format!(in alloc; "--{} {}", option.name, option.letter),
        Kind::Long => format!(in alloc; "--{} {}", option.name, option.letter),
    }
}

/// Adds these names, each after a comma.
fn push_others(text: &mut String, names: &[&str]) -> Result<(), AllocError>
    ensures { Writes result text.old text.new (spec.lent_others names.now) }
{
    for name in names {
        text.push_str(", ")?;
        text.push_str(name)?;
    }
    Ok(())
}

/// Adds names, with commas between them.
fn push_names(text: &mut String, names: &[&str]) -> Result<(), AllocError>
    ensures { Writes result text.old text.new (spec.names_text (texts names.now)) }
{
    match names.split_first() {
        None => Ok(()),
        Some((first, others)) => {
            text.push_str(first)?;
            push_others(text, others)
        }
    }
}

/// Adds an option as it is written, and its range.
fn push_head(alloc: Global, text: &mut String, row: &OptionRow) -> Result<(), AllocError>
    ensures { Writes result text.old text.new (spec.option_head (option_said row.now)) }
{
    let written = written(alloc, row)?;
    let range = range_of(alloc, row)?;
    text.push_str("  ")?;
    push_padded(text, written.as_str(), 13)?;
    text.push_str(range.as_str())
}

/// Adds what an option is, and the commands that take it.
fn push_tail(text: &mut String, row: &OptionRow) -> Result<(), AllocError>
    ensures { Writes result text.old text.new (spec.option_tail (option_said row.now)) }
{
    text.push_str(row.words)?;
    text.push_str(": ")?;
    push_names(text, row.commands)?;
    text.push_str("\n")
}

/// Adds the line of an option.
fn push_option(alloc: Global, text: &mut String, row: &OptionRow) -> Result<(), AllocError>
    ensures { Writes result text.old text.new (spec.option_line (option_said row.now)) }
{
    push_head(alloc, text, row)?;
    push_tail(text, row)
}

/// Adds the lines of commands.
fn push_commands(text: &mut String, rows: &[CommandRow]) -> Result<(), AllocError>
    ensures { Writes result text.old text.new (spec.command_rows rows.now) }
{
    for row in rows {
        push_command(text, row)?;
    }
    Ok(())
}

/// Adds the lines of options.
fn push_options(alloc: Global, text: &mut String, rows: &[OptionRow]) -> Result<(), AllocError>
    ensures { Writes result text.old text.new (spec.option_rows rows.now) }
{
    for row in rows {
        push_option(alloc, text, row)?;
    }
    Ok(())
}

/// The help of these commands and options.
fn help_of(
    alloc: Global,
    commands: &[CommandRow],
    options: &[OptionRow],
) -> Result<String, AllocError>
    ensures { IfOk result (λ t. string_bytes t
        ≡ spec.help_rows commands.now options.now) }
{
    let mut text = String::from_str(alloc, USAGE)?;
    push_commands(&mut text, commands)?;
    text.push_str(NOTES)?;
    push_options(alloc, &mut text, options)?;
    Ok(text)
}

/// What the commands and their options are.
pub fn answer_help(alloc: Global) -> Result<Answer, AllocError>
    ensures { Builds result spec.help_answer }
{
    Ok(Answer {
        text: help_of(alloc, commands(), options())?,
        status: 0,
    })
}
