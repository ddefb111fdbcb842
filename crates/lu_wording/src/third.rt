//! The words for a fault of a schedule, a report or a specification.

use crate::component::{counted, shown};
use lu_report::{LineForm, ReportLineFault};
use lu_spec::{SpecFaultKind, SpecLineFault};
use lu_test::{Matrix, ScheduleFault};
use lu_text::{is_number, number_up_to, position_of, words_of};
use std::alloc::{AllocError, Global};
use std::fmt;

/// Whether each byte is printed ASCII or a space.
fn is_printed(text: &[u8]) -> bool {
    text.iter().all(|byte| matches!(*byte, 32..=126))
}

/// A word as text where that is short and can be printed, and else this.
fn printed<'a>(word: &'a [u8], other: &'a str) -> &'a str {
    if word.is_empty() || word.len() > 64 || word.contains(&b' ') || !is_printed(word) {
        return other;
    }
    shown(word)
}

/// Whether two spaces stand side by side.
fn has_two_spaces(text: &[u8]) -> bool {
    text.windows(2).any(|pair| pair == b"  ".as_slice())
}

/// What is wrong with the bytes of a schedule, where it is one of these.
fn wrong_bytes(text: &[u8]) -> Option<&'static str> {
    if text.contains(&b'\t') {
        Some("tab found")
    } else if text.contains(&b'\r') {
        Some("carriage return found")
    } else if has_two_spaces(text) {
        Some("two spaces in a row")
    } else {
        None
    }
}

/// Whether the text ends with a space, or with one and a newline.
fn has_last_space(text: &[u8]) -> bool {
    text.ends_with(b" \n") || text.ends_with(b" ")
}

/// What is wrong with the spaces and the like of a line that begins with `schedule`.
fn wrong_spaces(line: &[u8]) -> Option<&'static str> {
    if !line.starts_with(b"schedule") {
        None
    } else if has_last_space(line) {
        Some("trailing space after the last move")
    } else {
        wrong_bytes(line)
    }
}

/// What is wrong with the end of a schedule.
fn wrong_end(text: &[u8]) -> &'static str {
    if has_last_space(text) {
        return "trailing space after the last move";
    }
    match text.strip_suffix(b"\n") {
        None => "no newline at the end",
        Some(line) if line.contains(&b'\n') => "more than one line",
        Some(_) => "the first word must be `schedule`",
    }
}

/// Why a text that begins with `schedule` has not the form of a schedule.
fn no_schedule(text: &[u8]) -> &'static str {
    match wrong_bytes(text) {
        None => wrong_end(text),
        Some(wrong) => wrong,
    }
}

/// The first line of a text, with its LF; none of an empty text.
fn first_line(text: &[u8]) -> Option<&[u8]> {
    if text.is_empty() {
        return None;
    }
    match position_of(b'\n', text) {
        None => Some(text),
        Some(end) => Some(text.split_at(end.saturating_add(1).min(text.len())).0),
    }
}

/// The words for a text that has not the form of a schedule, nor that of another third part.
pub(crate) fn schedule_form_wording(alloc: Global, text: &[u8]) -> Result<String, AllocError> {
    if !text.starts_with(b"schedule") {
        let found = FoundLine {
            line: first_line(text),
        };
        if text.starts_with(b"history ") {
            return format!(in alloc;
                "expected `lineup spec 1` first, found {found}; help: a specification begins with `lineup spec 1`"
            );
        }
        return format!(in alloc;
            "expected a schedule (`schedule ..`), a report (`lineup report ..`), a specification (`lineup spec 1`) or recorded histories (`call ..`), found {found}"
        );
    }
    let here = no_schedule(text);
    format!(in alloc;
        "invalid schedule: {here}; help: write `schedule` and its moves on one line, each after one space"
    )
}

/// A number above 7 in place of a thread or a pick.
fn range_wording(alloc: Global, word: &[u8]) -> Result<String, AllocError> {
    let (thread, pick) = match position_of(b':', word) {
        None => word.split_at(word.len()),
        Some(colon) => word.split_at(colon),
    };
    if number_up_to(thread, 7).is_none() {
        let thread = printed(thread, "number");
        return format!(in alloc; "thread {thread} is out of range (0 to 7)");
    }
    let pick = match pick {
        [b':', pick @ ..] => printed(pick, "number"),
        _ => "number",
    };
    format!(in alloc; "pick {pick} is out of range (1 to 7)")
}

/// The words for a word of a schedule that is no move.
pub(crate) fn move_wording(
    alloc: Global,
    kind: ScheduleFault,
    word: &[u8],
) -> Result<String, AllocError> {
    if kind == ScheduleFault::Limit {
        return range_wording(alloc, word);
    }
    let said = printed(word, "?");
    if let Some(thread) = word.strip_suffix(b":0") {
        if is_number(thread) {
            let thread = printed(thread, "T");
            return format!(in alloc;
                "invalid move `{said}`; help: write `{thread}`, since a pick of 0 is left out"
            );
        }
    }
    format!(in alloc;
        "invalid move `{said}`; help: write a thread, such as `1`, or a thread and a pick, such as `1:2`"
    )
}

/// The words for a schedule of this many words.
pub(crate) fn length_wording(alloc: Global, words: usize) -> Result<String, AllocError> {
    format!(in alloc; "a schedule has at most 4112 moves, found {words}")
}

/// A line that was found where another was expected, if one was.
#[derive(Clone, Copy)]
pub(crate) struct FoundLine<'a> {
    pub(crate) line: Option<&'a [u8]>,
}

impl fmt::Display for FoundLine<'_> {
    fn fmt<W: fmt::Write>(&self, f: &mut fmt::Formatter<W>) -> fmt::Result {
        let Some(line) = self.line else {
            return write!(f, "the end of the text");
        };
        match line.strip_suffix(b"\n") {
            None => write!(f, "a line without a newline"),
            Some([]) => write!(f, "an empty line"),
            Some(line) => {
                let text = if line.len() > 80 || !is_printed(line) {
                    ".."
                } else {
                    shown(line)
                };
                write!(f, "`{text}`")
            }
        }
    }
}

/// What a line of a report is to be, in words; after the end nothing.
fn form_words(form: LineForm) -> Option<&'static str> {
    match form {
        LineForm::Version => Some("`lineup report 1` (or 2 or 3)"),
        LineForm::Bound => Some("`bound N` (0 to 256)"),
        LineForm::Serial => Some("`serial S` (1 to 256)"),
        LineForm::Local => Some("`local L` (1 to 16)"),
        LineForm::AnyLocal => Some("`local L` (0 to 16)"),
        LineForm::Finding => Some(
            "`pass`, `fail complete`, `fail stuck T` (0 to 7), `nondeterministic` or `serial-cut`",
        ),
        LineForm::Judgement => Some("`pass`, `fail complete` or `fail stuck T` (0 to 7)"),
        LineForm::Schedule => Some("`schedule` and its moves, each after one space"),
        LineForm::ConflictSchedule => { Some("`schedule` and its moves, each after one space") }
        LineForm::Before => Some("`before K` (0 to 15)"),
        LineForm::Earlier => Some("`earlier ret N`, `earlier trap` or `earlier stuck`"),
        LineForm::Complete => Some("`complete N`"),
        LineForm::Stuck => Some("`stuck N`"),
        LineForm::Cut => Some("`cut N`"),
        LineForm::End => None,
    }
}

/// The words for a fault of a report, on this line, where it is there.
pub(crate) fn report_wording(
    alloc: Global,
    fault: &ReportLineFault,
    line: Option<&[u8]>,
) -> Result<String, AllocError> {
    let is_schedule = matches!(fault.form, LineForm::Schedule | LineForm::ConflictSchedule);
    if let Some(wrong) = wrong_spaces(line.unwrap_or(b"")) {
        if is_schedule {
            return format!(in alloc;
                "invalid schedule: {wrong}; help: write each move after one space"
            );
        }
    }
    let found = FoundLine { line };
    match form_words(fault.form) {
        None => format!(in alloc; "expected the end of the report, found {found}"),
        Some(form) => format!(in alloc; "expected {form}, found {found}"),
    }
}

/// Whether this is an entry of a history.
fn is_entry(entry: &[u8]) -> bool {
    match entry {
        [b'0'..=b'7', b'=', outcome @ ..] => outcome == b"trap".as_slice()
            || outcome == b"stuck".as_slice()
            || number_up_to(outcome, 4_294_967_295).is_some(),
        _ => false,
    }
}

/// The first of these words that is no entry of a history.
fn no_entry(entries: &[u8]) -> Option<&[u8]> {
    for entry in entries.split(|byte| *byte == b' ') {
        if !is_entry(entry) {
            return Some(entry);
        }
    }
    None
}

fn entry_wording(alloc: Global, entry: &[u8]) -> Result<String, AllocError> {
    if entry
        .strip_suffix(b"?")
        .is_some_and(|entry| is_entry(entry))
    {
        return String::from_str(alloc, "unexpected `?`; help: `--marks` allows marks");
    }
    let entry = printed(entry, "?");
    format!(in alloc;
        "invalid entry `{entry}`; help: write `t=n`, `t=trap` or `t=stuck`, with a thread t (0 to 7) and a value n (0 to 4294967295)"
    )
}

/// The words for a line of these entries that lists no history where it stands.
fn entries_wording(alloc: Global, entries: &[u8]) -> Result<String, AllocError> {
    let count = entries
        .iter()
        .filter(|byte| **byte == b' ')
        .count()
        .saturating_add(1);
    if count > 16 {
        return format!(in alloc; "a history has at most 16 entries, found {count}");
    }
    if entries
        .windows(7)
        .any(|seven| seven == b"=stuck ".as_slice())
    {
        return String::from_str(alloc, "`stuck` must be the last entry of a history");
    }
    String::from_str(
        alloc,
        "history is out of order, or the previous history is a prefix of it; help: `lineup spec` puts histories in order",
    )
}

/// The words for a line that lists no history where it stands.
fn history_wording(alloc: Global, line: &[u8]) -> Result<String, AllocError> {
    let Some(line) = line.strip_suffix(b"\n") else {
        return String::from_str(alloc, "the last line has no newline");
    };
    let Some(entries) = line.strip_prefix(b"history ") else {
        return String::from_str(
            alloc,
            "expected `history` and its entries, each after one space",
        );
    };
    match no_entry(entries) {
        Some(entry) => entry_wording(alloc, entry),
        None => entries_wording(alloc, entries),
    }
}

/// Whether this is an entry of a history, with a mark or without.
fn is_marked_entry(entry: &[u8]) -> bool {
    match entry.strip_suffix(b"?") {
        Some(entry) => is_entry(entry),
        None => is_entry(entry),
    }
}

/// The words for entries that are those of no history.
fn marked_entries_wording(alloc: Global, entries: &[&[u8]]) -> Result<String, AllocError> {
    for entry in entries {
        if !is_marked_entry(entry) {
            let entry = printed(entry, "?");
            return format!(in alloc;
                "invalid entry `{entry}`; help: write `t=n`, `t=trap` or `t=stuck`, with or without `?`, with a thread t (0 to 7) and a value n (0 to 4294967295)"
            );
        }
    }
    let count = entries.len();
    if count > 16 {
        return format!(in alloc; "a history has at most 16 entries, found {count}");
    }
    String::from_str(
        alloc,
        "a history has at least one entry, and `stuck` may only be the last one",
    )
}

/// The words for a line that lists no history, where entries may have marks.
fn marked_history_wording(alloc: Global, line: &[u8]) -> Result<String, AllocError> {
    let words = words_of(alloc, line.strip_suffix(b"\n").unwrap_or(line))?;
    match words.split_first() {
        Some((first, entries)) if *first == b"history".as_slice() => {
            marked_entries_wording(alloc, entries)
        }
        _ => String::from_str(alloc, "expected `history` and its entries"),
    }
}

/// The words for a fault of a specification of this matrix that leaves outcomes free, on this line.
fn free_wording(
    alloc: Global,
    matrix: &Matrix,
    kind: SpecFaultKind,
    line: &[u8],
) -> Result<String, AllocError> {
    match kind {
        SpecFaultKind::Form => marked_history_wording(alloc, line),
        SpecFaultKind::Foreign => foreign_wording(alloc, matrix, line),
        SpecFaultKind::Nondeterministic => String::from_str(
            alloc,
            "conflict with an earlier history: after the same entries, the same call has a different outcome, and neither has the mark `?`",
        ),
    }
}

/// The number of an entry's thread.
fn thread_of(entry: &[u8]) -> Option<u8> {
    match entry {
        [digit @ b'0'..=b'7', b'=', ..] => Some(digit.saturating_sub(b'0')),
        _ => None,
    }
}

/// How many of the entries are of this thread.
fn count_of(entries: &[&[u8]], thread: u8) -> usize {
    entries
        .iter()
        .filter(|entry| thread_of(entry) == Some(thread))
        .count()
}

/// How many calls a thread of the matrix makes, where it is there.
fn calls_of(matrix: &Matrix, thread: u8) -> Option<usize> {
    let calls = matrix.as_slice().get(usize::from(thread))?;
    Some(calls.as_slice().len())
}

/// The thread of the first entry of a thread that is not there, or that has more entries than calls.
fn foreign_thread(matrix: &Matrix, entries: &[&[u8]]) -> Option<u8> {
    for entry in entries {
        if let Some(thread) = thread_of(entry) {
            let calls = calls_of(matrix, thread).unwrap_or(0);
            if count_of(entries, thread) > calls {
                return Some(thread);
            }
        }
    }
    None
}

/// The words for a history, on this line, that the matrix does not have.
fn foreign_wording(alloc: Global, matrix: &Matrix, line: &[u8]) -> Result<String, AllocError> {
    let entries = words_of(alloc, line.strip_suffix(b"\n").unwrap_or(line))?;
    let Some(thread) = foreign_thread(matrix, &entries) else {
        return String::from_str(alloc, "the matrix has no such history");
    };
    let Some(calls) = calls_of(matrix, thread) else {
        let threads = matrix.threads();
        let many = counted(usize::from(threads), "thread", "threads");
        return format!(in alloc;
            "the matrix has no thread {thread}; it has {threads} {many}, numbered from 0"
        );
    };
    let many = counted(calls, "call", "calls");
    let count = count_of(&entries, thread);
    format!(in alloc;
        "thread {thread} makes {calls} {many}, and the history has {count} entries of it"
    )
}

/// The words for a fault of a specification of this matrix, on this line, where it leaves outcomes
/// free or not.
pub(crate) fn specification_wording(
    alloc: Global,
    matrix: &Matrix,
    free: bool,
    fault: &SpecLineFault,
    line: Option<&[u8]>,
) -> Result<String, AllocError> {
    if free {
        return free_wording(alloc, matrix, fault.kind, line.unwrap_or(b""));
    }
    match fault.kind {
        SpecFaultKind::Form => {
            if fault.line == 1 {
                return String::from_str(alloc, "expected `lineup spec 1` on the first line");
            }
            match line {
                None => String::from_str(alloc, "missing line"),
                Some(line) => history_wording(alloc, line),
            }
        }
        SpecFaultKind::Foreign => foreign_wording(alloc, matrix, line.unwrap_or(b"")),
        SpecFaultKind::Nondeterministic => String::from_str(
            alloc,
            "conflict with an earlier history: after the same entries, the same call has a different outcome",
        ),
    }
}
