//! What is said of a line, in words.

use crate::faults::{mended_before, owned};
use crate::forming::{form_words, number_words};
use crate::limit::limit_words;
use crate::meaning::{is_dashes, spelled, word_is};
use crate::message::{SourceMessage, Warning, What};
use crate::naming::{name_words, shown};
use crate::scope::{Leaving, Scope};
use lu_source_text::{
    MOST_NESTING, SourceFaultKind, nesting, read_source_lines, source_words, statements_of,
};
use lu_text::Fault;
use std::alloc::{AllocError, Global};

/// Whether a `return`, `break` or `continue` leaves the block before the line.
fn is_left(scope: &Scope<'_>) -> bool {
    match scope.leaving() {
        Some(Leaving { word, .. }) => word != "loop" && word != "else",
        None => false,
    }
}

/// A statement that is not reached.
fn unreachable_words(alloc: Global, scope: &Scope<'_>) -> Result<String, AllocError> {
    let Some(Leaving { word, line }) = scope.leaving() else {
        return String::from_str(
            alloc,
            "unreachable statement, perhaps because of an error above",
        );
    };
    match word {
        "loop" => format!(in alloc;
            "unreachable statement after the `loop` on line {line}, which has no `break`"
        ),
        "else" => String::from_str(
            alloc,
            "unreachable statement: each branch of the `if` before it leaves the block",
        ),
        _ => format!(in alloc; "unreachable statement after the `{word}` on line {line}"),
    }
}

/// Whether there is `&&` or `||` among the words.
fn joins_conditions(words: &[&[u8]]) -> bool {
    words.contains(&b"&&".as_slice()) || words.contains(&b"||".as_slice())
}

/// Why a line is not allowed at its place, by its first word.
fn flow_words(alloc: Global, scope: &Scope<'_>, words: &[&[u8]]) -> Result<String, AllocError> {
    let said = if word_is(words, 0, b"break") && !scope.is_in_loop() {
        "`break` outside of a loop"
    } else if word_is(words, 0, b"continue") && !scope.is_in_loop() {
        "`continue` outside of a loop"
    } else if word_is(words, 0, b"await") && !is_left(scope) && joins_conditions(words) {
        "`await` waits for one comparison, and may read no other shared word; help: test the rest in an `if`"
    } else if word_is(words, 0, b"await") && !is_left(scope) {
        "the index and the value of an `await` may not read shared words; help: read them into locals first"
    } else {
        return unreachable_words(alloc, scope);
    };
    String::from_str(alloc, said)
}

/// A fault of a line with these words, in this scope.
fn fault_words(
    alloc: Global,
    kind: SourceFaultKind,
    scope: &Scope<'_>,
    words: &[&[u8]],
) -> Result<String, AllocError> {
    let text = match kind {
        SourceFaultKind::Byte =>
            "invalid byte; only printable ASCII, tabs and carriage returns are allowed, even in comments",
        SourceFaultKind::Missing => "expected `object NAME` first",
        SourceFaultKind::Form => return form_words(alloc, scope, words),
        SourceFaultKind::Number => return number_words(alloc, scope, words),
        SourceFaultKind::Limit => return limit_words(alloc, scope, words),
        SourceFaultKind::Registers =>
            "too many registers: arguments, locals in scope and intermediate results need more than 8; help: declare locals in smaller blocks, or split the line",
        SourceFaultKind::Flow => return flow_words(alloc, scope, words),
        SourceFaultKind::Name => return name_words(alloc, scope, words),
    };
    String::from_str(alloc, text)
}

/// The shared word that a loop compares with something else, what it compares it with, and the sign
/// with which an `await` ends where the loop does.
fn awaited<'a>(
    scope: &Scope<'_>,
    words: &[&'a [u8]],
) -> Option<(&'a [u8], &'static str, &'a [u8])> {
    let [_, left, sign, right, _] = words else {
        return None;
    };
    let until = match shown(sign) {
        "==" => "!=",
        "!=" => "==",
        _ => return None,
    };
    match (scope.is_shared(left), scope.is_shared(right)) {
        (true, false) => Some((*left, until, *right)),
        (false, true) => Some((*right, until, *left)),
        _ => None,
    }
}

/// The cell that a loop tries to change with `cas`, and the value from which it does.
fn tried<'a>(words: &[&'a [u8]]) -> Option<(&'a [u8], &'a [u8])> {
    match words {
        [_, not, cas, _, cell, comma, old, ..]
            if *not == b"!".as_slice() && *cas == b"cas".as_slice() && *comma == b",".as_slice() =>
            Some((*cell, *old)),
        _ => None,
    }
}

/// A loop that spins.
fn spinning_words(alloc: Global, scope: &Scope<'_>, words: &[&[u8]]) -> Result<String, AllocError> {
    if let Some((cell, sign, value)) = awaited(scope, words) {
        let (cell, value) = (shown(cell), shown(value));
        return format!(in alloc;
            "this loop waits for another thread; help: write `await {cell} {sign} {value}`"
        );
    }
    if let Some((cell, old)) = tried(words) {
        let (cell, old) = (shown(cell), shown(old));
        return format!(in alloc;
            "this loop waits for another thread; help: write `await {cell} == {old}` in it"
        );
    }
    String::from_str(
        alloc,
        "this loop waits for another thread; help: write `await` where it waits",
    )
}

/// An `await` that compares with a condition.
fn awaited_words(alloc: Global, words: &[&[u8]]) -> Result<String, AllocError> {
    let sign = words.iter().find(|word| **word == b"==".as_slice() || **word == b"!=".as_slice());
    let sign = sign.map_or("==", |sign| shown(sign));
    format!(in alloc;
        "everything after `{sign}` is one expression; help: put it in parentheses, or wait for less and test the rest in an `if`"
    )
}

/// A `+=` or `-=` of a word that other lines update atomically.
fn plain_update_words(alloc: Global, words: &[&[u8]]) -> Result<String, AllocError> {
    let name = words.first().map_or("?", |name| shown(name));
    let call = if words.contains(&b"-=".as_slice()) {
        "fetch_sub"
    } else {
        "fetch_add"
    };
    format!(in alloc;
        "this is a load and a store of `{name}`, and not atomic; help: write `{call}({name}, EXPR)`"
    )
}

/// What is odd about a line with these words, in this scope.
fn warning_words(
    alloc: Global,
    warning: Warning,
    scope: &Scope<'_>,
    words: &[&[u8]],
) -> Result<String, AllocError> {
    let name = words.get(1).map_or("?", |name| shown(name));
    match warning {
        Warning::UnusedLocal => { format!(in alloc; "local `{name}` is never read") }
        Warning::UnusedWord => { format!(in alloc; "shared word `{name}` is never read") }
        Warning::EndlessLoop => String::from_str(
            alloc,
            "this loop never ends, and no other thread can see what it does: it has no `break`, `return`, lock or shared word",
        ),
        Warning::SpinningLoop => spinning_words(alloc, scope, words),
        Warning::AwaitedCondition => awaited_words(alloc, words),
        Warning::PlainUpdate => plain_update_words(alloc, words),
    }
}

/// A text that ends too early.
fn end_words(alloc: Global, scope: &Scope<'_>) -> Result<String, AllocError> {
    match scope.unclosed() {
        Some(line) => format!(in alloc;
            "unexpected end of the text; help: close the block that begins on line {line} with a `}}`"
        ),
        None if scope.has_object() => String::from_str(
            alloc,
            "unexpected end of the text; help: add a `}`",
        ),
        None => String::from_str(
            alloc,
            "unexpected end of the text; help: begin with `object NAME`",
        ),
    }
}

/// A line that is nearly what separates parts, with this many dashes.
fn separator_words(alloc: Global, line: &[u8], dashes: usize) -> Result<String, AllocError> {
    if dashes != 3 {
        return format!(in alloc;
            "unexpected line of {dashes} dashes; help: parts are separated by lines that are exactly `---`"
        );
    }
    let said = if line.contains(&b'\r') {
        "a carriage return after `---`; help: end each line with a newline alone (LF)"
    } else {
        "whitespace next to `---`; help: parts are separated by lines that are exactly `---`"
    };
    String::from_str(alloc, said)
}

/// Whether a source of these lines has a fault in one of them after the first `count`.
fn is_faulty_after(alloc: Global, count: usize, lines: &[Vec<u8>]) -> Result<bool, AllocError> {
    let lines: Vec<&[u8]> = lines.iter().map(|line| line.as_slice()).collect(alloc)?;
    match read_source_lines(alloc, &lines) {
        Err(Fault::At(SourceFaultKind::Missing, _)) | Ok(_) => Ok(false),
        Err(Fault::At(_, line)) => Ok(line > count),
        Err(Fault::Memory) => Err(AllocError),
    }
}

/// The most lines above a fault that are read once more, to see which statement of its line has it.
const MOST_LINES_ABOVE: usize = 2000;

/// The last of these statements that has words.
fn last_statement(statements: &[Vec<&[u8]>]) -> usize {
    let mut last = 0;
    for (index, statement) in statements.iter().enumerate() {
        if !statement.is_empty() {
            last = index;
        }
    }
    last
}

/// Which of the statements of a line has its fault: the first with which the lines above, as they may
/// have been meant, are refused; or else the last that has words, also below too many lines.
fn faulty_statement(
    alloc: Global,
    above: &[&[u8]],
    statements: &[Vec<&[u8]>],
) -> Result<usize, AllocError> {
    let count = above.len();
    if statements.len() < 2 || count > MOST_LINES_ABOVE {
        return Ok(last_statement(statements));
    }
    let mut lines = mended_before(alloc, owned(alloc, above)?, count.saturating_add(1))?;
    for (index, statement) in statements.iter().enumerate() {
        lines.push(spelled(alloc, statement)?)?;
        if is_faulty_after(alloc, count, &lines)? {
            return Ok(index);
        }
    }
    Ok(last_statement(statements))
}

/// A fault of a line, in this scope: of the statement that has it.
fn line_words<'a>(
    alloc: Global,
    kind: SourceFaultKind,
    mut scope: Scope<'a>,
    above: &[&'a [u8]],
    line: &'a [u8],
) -> Result<String, AllocError> {
    let words = source_words(alloc, line)?;
    let is_too_long = words.len() > 256 || nesting(&words) > MOST_NESTING;
    if kind == SourceFaultKind::Limit && is_too_long {
        return limit_words(alloc, &scope, &words);
    }
    let statements = statements_of(alloc, &words)?;
    let faulty = faulty_statement(alloc, above, &statements)?;
    for (index, statement) in statements.iter().enumerate() {
        if index == faulty {
            return fault_words(alloc, kind, &scope, statement);
        }
        scope.pass(alloc, above.len().saturating_add(1), line, statement)?;
    }
    fault_words(alloc, kind, &scope, &words)
}

/// What a message says of the lines of its source, in one line, with what to do.
///
/// # Errors
///
/// There is no memory for the words.
pub fn wording(
    alloc: Global,
    message: &SourceMessage,
    lines: &[&[u8]],
) -> Result<String, AllocError> {
    let index = message.line.saturating_sub(1);
    let (above, rest) = lines.split_at(index.min(lines.len()));
    let Some((line, below)) = rest.split_first() else {
        return end_words(alloc, &Scope::after(alloc, above)?);
    };
    let words = source_words(alloc, line)?;
    if is_dashes(&words) {
        return separator_words(alloc, line, words.len());
    }
    let scope = Scope::between(alloc, above, below)?;
    match message.what {
        What::Fault(kind) => line_words(alloc, kind, scope, above, line),
        What::Warning(warning) => warning_words(alloc, warning, &scope, &words),
    }
}
