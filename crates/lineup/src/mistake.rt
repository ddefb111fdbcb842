//! What is wrong with a command line that was refused.

use lu_cli::{Kind, OptionRow, command_rows, is_near, option_rows};
use std::alloc::{AllocError, Global};

/// Whether there is a command with this name.
fn is_command(name: &str) -> bool {
    command_rows().iter().any(|row| row.name == name)
}

/// The command for whose name the word may be a slip.
fn near_command(word: &str) -> Option<&'static str> {
    command_rows()
        .iter()
        .find(|row| is_near(word.as_bytes(), row.name.as_bytes()))
        .map(|row| row.name)
}

/// The option with this name that the command takes.
fn option_of(command: &str, name: &str) -> Option<&'static OptionRow> {
    option_rows()
        .iter()
        .find(|row| row.name == name && row.commands.contains(&command))
}

/// The option of the command for whose name the word may be a slip.
fn near_option(command: &str, word: &str) -> Option<&'static str> {
    option_rows()
        .iter()
        .find(|row| row.commands.contains(&command)
            && is_near(word.as_bytes(), row.name.as_bytes()))
        .map(|row| row.name)
}

/// Whether some command takes an option with this name.
fn is_option(name: &str) -> bool {
    option_rows().iter().any(|row| row.name == name)
}

/// The commands that take an option with this name, each in quotes, with commas between them.
fn commands_with(alloc: Global, name: &str) -> Result<String, AllocError> {
    let mut text = String::new(alloc);
    for row in option_rows() {
        if row.name == name {
            for command in row.commands {
                text.push_str(if text.is_empty() { "`" } else { ", `" })?;
                text.push_str(command)?;
                text.push_str("`")?;
            }
        }
    }
    Ok(text)
}

/// The least and the greatest number that an option takes, where it takes one.
fn range_of(kind: Kind) -> Option<(u64, u64)> {
    match kind {
        Kind::Flag => None,
        Kind::Number { least, most } => Some((u64::from(least), u64::from(most))),
        Kind::Long => Some((0, u64::MAX)),
    }
}

/// A first word that is not a command.
fn unknown_command(alloc: Global, word: &str) -> Result<String, AllocError> {
    if word.starts_with("-") {
        return format!(in alloc;
            "expected a command first, found `{word}`; help: write options after the command"
        );
    }
    match near_command(word) {
        Some(near) => format!(in alloc;
            "unknown command `{word}`; help: a command with a similar name exists: `{near}`"
        ),
        None => format!(in alloc;
            "unknown command `{word}`; help: `lineup commands` lists the commands"
        ),
    }
}

/// An option `--NAME` that the command does not take.
fn unknown_option(alloc: Global, command: &str, name: &str) -> Result<String, AllocError> {
    if let Some(near) = near_option(command, name) {
        return format!(in alloc;
            "unknown option `--{name}`; help: an option with a similar name exists: `--{near}`"
        );
    }
    if name == "source" {
        return format!(in alloc; "`{command}` takes no `--source`; help: leave it out");
    }
    if is_option(name) {
        let commands = commands_with(alloc, name)?;
        let commands = commands.as_str();
        return format!(in alloc;
            "`{command}` has no option `--{name}`; commands that have it: {commands}"
        );
    }
    format!(in alloc;
        "unknown option `--{name}`; help: `lineup help {command}` lists the options of `{command}`"
    )
}

/// The name of an option, and the value after `=`, where there is one.
fn split_value(option: &str) -> (&str, Option<&str>) {
    match option.split_once('=') {
        Some((name, value)) => (name, Some(value)),
        None => (option, None),
    }
}

/// What is wrong with the value of an option, or with the lack of one.
fn value_fault(
    alloc: Global,
    row: &OptionRow,
    value: Option<&str>,
) -> Result<Option<String>, AllocError> {
    let name = row.name;
    let Some((least, most)) = range_of(row.kind) else {
        return match value {
            Some(_) => Ok(Some(format!(in alloc;
                "`--{name}` takes no value; help: write `--{name}`"
            )?)),
            None => Ok(None),
        };
    };
    let Some(value) = value else {
        return Ok(Some(format!(in alloc;
            "expected a number from {least} to {most} after `--{name}`"
        )?));
    };
    if value.is_empty() {
        return Ok(Some(format!(in alloc;
            "expected a number from {least} to {most} after `--{name}=`"
        )?));
    }
    match value.parse::<u64>() {
        Ok(number) if least <= number && number <= most => Ok(None),
        _ => Ok(Some(format!(in alloc;
            "invalid value `{value}` for `--{name}`; expected a number from {least} to {most}"
        )?)),
    }
}

/// The name of the option that a word gives, and the value after `=`, where there is one.
fn option_in(word: &str) -> Option<(&str, Option<&str>)> {
    Some(split_value(word.strip_prefix("--")?))
}

/// Whether one of the words gives the option.
fn is_given(words: &[String], name: &str) -> bool {
    words.iter().any(|word| option_in(word.as_str()).is_some_and(|(given, _)| given == name))
}

/// The number that the words give an option.
fn number_given(words: &[String], name: &str) -> Option<u64> {
    for (index, word) in words.iter().enumerate() {
        let Some((given, value)) = option_in(word.as_str()) else {
            continue;
        };
        if given == name {
            let next = words.get(index.saturating_add(1));
            return value
                .or(next.map(|word| word.as_str()))?
                .parse::<u64>()
                .ok();
        }
    }
    None
}

/// Which options, each of them right, cannot be given as they are in these words.
fn combination_fault(words: &[String]) -> Option<&'static str> {
    if is_given(words, "by-thread") && is_given(words, "threads") {
        return Some("`--threads` cannot be used with `--by-thread`");
    }
    if is_given(words, "all") && !is_given(words, "certify") {
        return Some("`--all` needs `--certify`");
    }
    if is_given(words, "spec") && is_given(words, "certify") {
        return Some("`--spec` cannot be used with `--certify`");
    }
    match (number_given(words, "from"), number_given(words, "upto")) {
        (Some(from), Some(upto)) if upto < from => Some("`--from` is greater than `--upto`"),
        _ => None,
    }
}

/// The word without `-` before it.
fn without_dash(word: &str) -> &str {
    word.strip_prefix("-").unwrap_or(word)
}

/// A word that is not an option of the command.
fn unexpected(alloc: Global, command: &str, word: &str) -> Result<String, AllocError> {
    let (name, _) = split_value(without_dash(word));
    if option_of(command, name).is_some() {
        return format!(in alloc; "unexpected `{word}`; help: write `--{name}`");
    }
    if word.starts_with("-") {
        return format!(in alloc;
            "unknown option `{word}`; help: `lineup help {command}` lists the options of `{command}`"
        );
    }
    if is_command(word) {
        return format!(in alloc; "unexpected `{word}`; help: write one command");
    }
    if word.is_empty() || word.parse::<u64>().is_ok() {
        return format!(in alloc; "unexpected `{word}`; help: leave it out");
    }
    format!(in alloc; "unexpected `{word}`; help: write `< {word}` to read a file")
}

/// What is wrong with the words after the command, where one of them alone is wrong.
fn option_fault(
    alloc: Global,
    command: &str,
    words: &[String],
) -> Result<Option<String>, AllocError> {
    // the option whose value comes next
    let mut open: Option<&'static OptionRow> = None;
    for (index, word) in words.iter().enumerate() {
        let word = word.as_str();
        if let Some(row) = open {
            if let Some(fault) = value_fault(alloc, row, Some(word))? {
                return Ok(Some(fault));
            }
            open = None;
            continue;
        }
        let Some((name, value)) = option_in(word) else {
            return Ok(Some(unexpected(alloc, command, word)?));
        };
        let Some(row) = option_of(command, name) else {
            return Ok(Some(unknown_option(alloc, command, name)?));
        };
        let (before, _) = words.split_at(index.min(words.len()));
        if is_given(before, name) {
            return Ok(Some(format!(in alloc; "`--{name}` is given twice")?));
        }
        if value.is_none() && range_of(row.kind).is_some() {
            open = Some(row);
        } else if let Some(fault) = value_fault(alloc, row, value)? {
            return Ok(Some(fault));
        }
    }
    match open {
        Some(row) => value_fault(alloc, row, None),
        None => Ok(None),
    }
}

/// The part that a command takes after its others with `--spec`.
fn part_for_spec(command: &str, words: &[String]) -> &'static str {
    if !is_given(words, "spec") {
        ""
    } else if command == "campaign" {
        ", trusted component"
    } else {
        ", specification"
    }
}

/// Which parts the command of these words takes, where this answer refuses others. None for any other
/// answer, and for runs that `--spec` judges.
///
/// # Errors
///
/// `AllocError` where there is no memory for it.
pub fn parts_in(
    alloc: Global,
    words: &[String],
    answer: &[u8],
) -> Result<Option<String>, AllocError> {
    let Some((first, rest)) = words.split_first() else {
        return Ok(None);
    };
    let command = first.as_str();
    let is_judged = is_given(rest, "spec") && (command == "witness" || command == "explain");
    if answer != b"refused B1\n".as_slice() || is_judged {
        return Ok(None);
    }
    let Some(row) = command_rows().iter().find(|row| row.name == command) else {
        return Ok(None);
    };
    let (parts, spec) = (row.parts, part_for_spec(command, rest));
    let runs = if command == "witness" {
        "; recorded runs begin with a line `run`"
    } else {
        ""
    };
    Ok(Some(format!(in alloc;
        "wrong number of parts; `{command}` takes: {parts}{spec}; help: separate parts by lines that are exactly `---`{runs}"
    )?))
}

/// What is wrong with the words of a command line that was refused, in words.
///
/// # Errors
///
/// `AllocError` where there is no memory for it.
pub fn mistake_in(alloc: Global, words: &[String]) -> Result<String, AllocError> {
    let Some((first, rest)) = words.split_first() else {
        return String::from_str(
            alloc,
            "expected a command; help: `lineup commands` lists them",
        );
    };
    let command = first.as_str();
    if !is_command(command) {
        return unknown_command(alloc, command);
    }
    if let Some(fault) = option_fault(alloc, command, rest)? {
        return Ok(fault);
    }
    let fault = combination_fault(rest).unwrap_or(
        "these options cannot be used together; help: `lineup commands` describes them",
    );
    String::from_str(alloc, fault)
}
