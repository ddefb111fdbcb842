//! What is added on standard error to an answer.

use lu_machine::Counts;
use lu_report::{Finding, read_report};
use std::alloc::{AllocError, Global};
use std::str;

/// The meaning of a refusal of a component, a matrix or a schedule.
fn meaning_of_case(code: &str) -> Option<&'static str> {
    Some(match code {
        "L1" | "M1" | "H1" | "O1" => "invalid byte; only ASCII, tabs and newlines are allowed",
        "L2" => "not a line of a component; `lineup lint` says what is expected",
        "L3" => "a name is declared twice or is not declared; help: `lineup lint` names it",
        "L4" | "M5" | "C2" | "H3" => "not a number, or a number that is too large",
        "L5" => "a limit is exceeded (docs/LANGUAGE.md, Limits); `lineup lint` says which",
        "L6" => "an operation must end with `return` or `jump`",
        "L7" =>
            "expected `component NAME` first, or `object NAME` for a source (with `--source`, as the first part), and `end` after each operation",
        "M2" => "expected `thread` or, on the first line, `setup`, and calls separated by `;`",
        "M3" => "the component has no such operation",
        "M4" => "wrong number of arguments",
        "M6" => "no thread, or too many threads or calls",
        "C1" =>
            "neither a schedule nor a report with one; help: `lineup lint` says what is expected",
        "C3" => "the schedule has more than 4112 moves, or a thread or a pick is above 7",
        _ => return None,
    })
}

/// The meaning of a refusal of a report, a specification, a history or a run.
fn meaning_of_finding(code: &str) -> Option<&'static str> {
    Some(match code {
        "E1" => "not a line of a report; help: `lineup lint` says what is expected",
        "S1" =>
            "not a line of a specification, or out of order; `lineup spec` puts lines in order, and `--marks` allows `?`",
        "S2" => "the matrix has no such history; help: `lineup lint` says why",
        "S3" => "two histories conflict: no deterministic specification has both",
        "S4" => "too many serial histories to list; try fewer calls",
        "H2" =>
            "expected `call T K`, `return T K ret N`, `return T K trap`, or `stuck` on the last line",
        "H4" => "the matrix has no such call; threads and their calls are numbered from 0",
        "H5" =>
            "this call or return is out of order; a thread makes its calls in order, and each returns once, before the next",
        "R1" => "invalid byte; only ASCII, tabs and newlines are allowed",
        "R2" =>
            "expected `call T NAME ARG..`, `return T ret N`, `return T trap` or a last line `stuck`; a run begins with the line `run`",
        "R3" => "not a number, or a number that is too large; threads are numbered from 0 to 7",
        "R4" => "the component has no such operation, or it takes a different number of arguments",
        "R5" =>
            "this call or return is out of order; a thread makes one call at a time, and nothing follows `stuck`",
        _ => return None,
    })
}

/// The meaning of a refusal of a source.
fn meaning_of_source(code: &str) -> Option<&'static str> {
    Some(match code {
        "O2" => "unexpected word or symbol; `lineup lint` says what is expected (docs/SOURCE.md)",
        "O3" =>
            "a name is declared twice, is not declared, or cannot be used here; help: `lineup lint` names it",
        "O4" => "expected a number or a constant",
        "O5" => "a limit is exceeded (docs/SOURCE.md, Refusals); `lineup lint` says which",
        "O6" =>
            "unreachable statement, a `break` or `continue` outside of a loop, or an `await` that reads more than its cell",
        "O7" => "expected `object` first, and `}` after each operation",
        "O8" => "more than 8 registers are needed; use fewer locals or shorter expressions",
        _ => return None,
    })
}

/// The meaning of a refusal of a command line or a bundle.
fn meaning_of_request(code: &str) -> Option<&'static str> {
    Some(match code {
        "command" =>
            "these words are not a command; `lineup commands` lists the commands and their options",
        "B1" =>
            "wrong number of parts; help: `lineup commands` lists the parts of each command, which are separated by lines that are exactly `---`",
        "B2" => "the input is longer than 1,048,576 bytes",
        "B3" => "a part after the source is not UTF-8",
        "F2" => "the report does not show a failure, or its schedule does not lead to that failure",
        "U1" => "this call of the setup does not end",
        "G2" =>
            "a campaign takes one `thread` line with 1 to 8 calls, or with `--by-thread` one for each thread",
        "G3" => "the matrices of this campaign have more than 16 calls",
        "G4" => "the trusted component has different operations, or has them in a different order",
        _ => return None,
    })
}

/// The meaning of a refusal with this code.
fn meaning_of(code: &str) -> Option<&'static str> {
    meaning_of_case(code)
        .or(meaning_of_finding(code))
        .or(meaning_of_source(code))
        .or(meaning_of_request(code))
}

/// The number after `infeasible`, where the text begins with that.
fn infeasible_in(text: &str) -> Option<&str> {
    let mut words = text.split_ascii_whitespace();
    match words.next() {
        Some("infeasible") => words.next(),
        _ => None,
    }
}

/// Whether a text begins as a report, or as a certificate with one.
fn begins_report(text: &str) -> bool {
    text.starts_with("lineup report ")
        || text.starts_with("not linearizable\n")
        || text.starts_with("undecided\n")
}

/// The finding of a report of serial runs that offend, where the text begins one.
fn offence_in(text: &str) -> Option<&'static str> {
    if !begins_report(text) {
        return None;
    }
    for line in text.lines() {
        match line {
            "serial-cut" => return Some("serial-cut"),
            "nondeterministic" => return Some("nondeterministic"),
            _ => {}
        }
    }
    None
}

/// What a report with this finding means.
fn offence_hint(alloc: Global, finding: &str) -> Result<String, AllocError> {
    let said = if finding == "serial-cut" {
        "lineup: note: an operation that runs alone takes more than `--serial` moves\n\
lineup: help: write a loop that waits as `lock` or `await`; for any other, raise `--serial`\n"
    } else {
        "lineup: note: two serial runs make the same calls and return different values\n\
lineup: help: `lineup explain` shows them; return less, or split the operation\n"
    };
    String::from_str(alloc, said)
}

/// The word after `refused`, where the text begins with that.
fn refusal_in(text: &str) -> Option<&str> {
    let mut words = text.split_ascii_whitespace();
    match words.next() {
        Some("refused") => words.next(),
        _ => None,
    }
}

/// How many of all schedules a check judged, where it cut some.
fn judged(alloc: Global, counts: &Counts) -> Result<Option<String>, AllocError> {
    if counts.cut == 0 {
        return Ok(None);
    }
    let ended = counts.complete.saturating_add(counts.stuck);
    let all = ended.saturating_add(counts.cut);
    let note = format!(in alloc;
        "lineup: note: only {ended} of {all} schedules ended within the bound and were judged\n\
lineup: help: `lineup certify` judges schedules of any length\n"
    )?;
    Ok(Some(note))
}

/// What to add on standard error to an answer that begins with these bytes: what a refusal means, or
/// a schedule that cannot be run, or a report of serial runs that offend; or how many of all schedules
/// a check judged, where it cut some. None for any other answer.
///
/// # Errors
///
/// `AllocError` where there is no memory for it.
pub fn hint_on(alloc: Global, answer: &[u8]) -> Result<Option<String>, AllocError> {
    let Ok(text) = str::from_utf8(answer) else {
        return Ok(None);
    };
    if let Some(code) = refusal_in(text) {
        return match meaning_of(code) {
            None => Ok(None),
            Some(meaning) => Ok(Some(format!(in alloc; "lineup: error: {meaning}\n")?)),
        };
    }
    if let Some(index) = infeasible_in(text) {
        return Ok(Some(format!(in alloc;
            "lineup: error: move {index}, counted from 0, cannot be made: its thread is not in the matrix, has ended, or waits\n"
        )?));
    }
    if let Some(finding) = offence_in(text) {
        return Ok(Some(offence_hint(alloc, finding)?));
    }
    match read_report(alloc, answer) {
        Ok(report) => match report.finding() {
            Finding::Pass(counts) => judged(alloc, counts),
            _ => Ok(None),
        },
        Err(_) => Ok(None),
    }
}
