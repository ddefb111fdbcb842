//! What is odd in a source without faults.

ghost use Rattle.std.specs.Prelude.{false, ◌≡◌, ◌≤◌, ◌++◌, ◌+◌, [], drop, map, IfOk};
ghost use Rattle.std.specs.List.{list_any};
ghost use Rattle.lu_text.specs.Lines.{lines_of, texts};
ghost use Rattle.lu_text.specs.Results.{HasItems};
ghost use Rattle.lu_source_text.specs.Grammar.{is_among, source_words};
ghost use Rattle.lu_source_lint.specs.declared.warnings.Sought.TheVariants.{Changes};
ghost use Rattle.lu_source_lint.specs.declared.warnings.TheConstants.{MOST_BLOCKS};
ghost use Rattle.lu_source_lint.specs.Warnings as spec;
ghost use Rattle.lu_source_lint.specs.Warnings.{lines_in};

use crate::meaning::{is_whole_block, opens, word_is};
use crate::message::{SourceMessage, Warning, What};
use lu_source_text::source_words;
use lu_text::lines_of;
use std::alloc::{AllocError, Global};

/// The most blocks that are open at a time.
const MOST_BLOCKS: usize = 16;

/// What a loop may do in none of its lines.
#[derive(Clone, Copy, Drop)]
enum Sought {
    /// Anything that leaves the loop, or that others see.
    Acts,

    /// Anything that changes the thread's own values or a shared word, or that waits; but for calls
    /// in an expression.
    Changes,
}

/// Whether one of the words is this one.
fn is_among(words: &[&[u8]], word: &[u8]) -> bool
    ensures { result ≡ is_among (texts words.now) word.now }
{
    words.iter().any(|other| word == *other)
}

/// The name that a line declares.
fn name_of<'a>(words: &[&'a [u8]]) -> &'a [u8]
    ensures { result.now ≡ spec.name_of (texts words.now) }
{
    words.get(1).copied().unwrap_or(&[])
}

/// Whether the line names it after its first word.
fn reads(name: &[u8], words: &[&[u8]]) -> bool
    ensures { result ≡ spec.reads name.now (texts words.now) }
{
    words
        .split_first()
        .is_some_and(|(_, rest)| is_among(rest, name))
}

/// Whether one of the lines, up to the next operation, reads it.
fn is_read(name: &[u8], lines: &[Vec<&[u8]>]) -> bool
    ensures { result ≡ spec.is_read name.now (lines_in lines.now) }
{
    lines
        .iter()
        .take_while(|words| !word_is(words, 0, b"op"))
        .any(|words| reads(name, words))
}

/// Whether no line above or below reads it.
fn is_unused(name: &[u8], above: &[Vec<&[u8]>], below: &[Vec<&[u8]>]) -> bool
    ensures { result ≡ spec.is_unused name.now (lines_in above.now) (lines_in below.now) }
{
    !above.iter().chain(below).any(|words| reads(name, words))
}

/// The names of the shared words that the lines declare.
fn shared_names<'a>(alloc: Global, lines: &[Vec<&'a [u8]>]) -> Result<Vec<&'a [u8]>, AllocError>
    ensures { IfOk result (λ names. texts names.items ≡ spec.shared_names (lines_in lines.now)) }
{
    lines
        .iter()
        .filter(|words| word_is(words, 0, b"word"))
        .map(|words| name_of(words))
        .collect(alloc)
}

/// Whether a word leaves a loop, or others see it.
fn word_acts(shared: &[&[u8]], word: &[u8]) -> bool
    ensures { result ≡ spec.word_acts (texts shared.now) word.now }
{
    word == b"lock".as_slice()
        || word == b"unlock".as_slice()
        || word == b"break".as_slice()
        || word == b"return".as_slice()
        || is_among(shared, word)
}

/// Whether one of the words leaves a loop, or others see it.
fn acts(shared: &[&[u8]], words: &[&[u8]]) -> bool
    ensures { result ≡ spec.acts (texts shared.now) (texts words.now) }
{
    words.iter().any(|word| word_acts(shared, word))
}

/// Whether a word assigns, locks or waits.
fn word_changes(word: &[u8]) -> bool
    ensures { result ≡ spec.word_changes word.now }
{
    word == b"=".as_slice()
        || word == b"+=".as_slice()
        || word == b"-=".as_slice()
        || word == b"lock".as_slice()
        || word == b"unlock".as_slice()
        || word == b"await".as_slice()
}

/// Whether one of the words assigns, locks or waits.
fn changes(words: &[&[u8]]) -> bool
    ensures { result ≡ spec.changes (texts words.now) }
{
    words.iter().any(|word| word_changes(word))
}

/// Whether a word calls what changes a shared word.
fn is_call(word: &[u8]) -> bool
    ensures { result ≡ is_among spec.calling word.now }
{
    word == b"cas".as_slice()
        || word == b"compare_exchange".as_slice()
        || word == b"swap".as_slice()
        || word == b"fetch_add".as_slice()
        || word == b"fetch_sub".as_slice()
        || word == b"fetch_max".as_slice()
        || word == b"fetch_min".as_slice()
}

/// Whether the line begins with a call that changes a shared word.
fn begins_call(words: &[&[u8]]) -> bool
    ensures { result ≡ spec.begins_call (texts words.now) }
{
    words.split_first().is_some_and(|(word, _)| is_call(word))
}

/// Whether a line does what is sought.
fn does(shared: &[&[u8]], sought: Sought, words: &[&[u8]]) -> bool
    ensures { result ≡ spec.does (texts shared.now) sought (texts words.now) }
{
    match sought {
        Sought::Acts => acts(shared, words),
        Sought::Changes => changes(words) || begins_call(words),
    }
}

/// How many blocks are open after a line, where this many are before it.
fn depth_after(depth: usize, words: &[&[u8]]) -> usize
    requires { depth ≤ MOST_BLOCKS }
    ensures { result ≡ spec.depth_after depth (texts words.now) }
{
    let closed = usize::from(word_is(words, 0, b"}"));
    let opened = usize::from(opens(words));
    depth.saturating_sub(closed) + opened
}

/// Whether a line does what is sought, or is in more blocks than there may be.
fn stops(shared: &[&[u8]], sought: Sought, depth: usize, words: &[&[u8]]) -> bool
    ensures stops { result ≡ spec.stops (texts shared.now) sought depth (texts words.now) }
    ensures few { result ≡ false → depth ≤ MOST_BLOCKS }
{
    depth > MOST_BLOCKS || does(shared, sought, words)
}

/// Whether a loop comes to its end, and no line before that does what is sought.
fn ends_without(shared: &[&[u8]], sought: Sought, lines: &[Vec<&[u8]>]) -> bool
    ensures { result ≡ spec.ends_without (texts shared.now) sought 1 (lines_in lines.now) }
{
    let mut depth = 1;
    for line in lines {
        let words = line.as_slice();
        if stops(shared, sought, depth, words) {
            return false;
        }
        depth = depth_after(depth, words);
        if depth == 0 {
            return true;
        }
    }
    false
}

/// Whether one of the words is a shared word.
fn names_shared(shared: &[&[u8]], words: &[&[u8]]) -> bool
    ensures { result ≡ spec.names_shared (texts shared.now) (texts words.now) }
{
    words.iter().any(|word| is_among(shared, word))
}

/// Whether one of the words of the first of these lines is a shared word.
fn first_names_shared(shared: &[&[u8]], lines: &[Vec<&[u8]>]) -> bool
    ensures { result ≡ spec.first_names_shared (texts shared.now) (lines_in lines.now) }
{
    lines
        .get(0)
        .is_some_and(|words| names_shared(shared, words))
}

/// Whether a loop tests a shared word: a `while` in its condition, a `loop` in its first line.
fn tests_shared(shared: &[&[u8]], words: &[&[u8]], below: &[Vec<&[u8]>]) -> bool
    ensures { result
        ≡ spec.tests_shared (texts shared.now) (texts words.now) (lines_in below.now) }
{
    (word_is(words, 0, b"while") && names_shared(shared, words))
        || (word_is(words, 0, b"loop") && first_names_shared(shared, below))
}

/// Whether a word is `{`.
fn is_brace(word: &[u8]) -> bool
    ensures { result ≡ spec.is_brace word.now }
{
    word == b"{".as_slice()
}

/// Where the first `{` is, or the number of words where there is none.
fn brace(words: &[&[u8]]) -> usize
    ensures { result ≡ spec.brace (texts words.now) }
{
    words
        .iter()
        .position(|word| is_brace(word))
        .unwrap_or(words.len())
}

/// The words from the first `{` on.
fn from_brace<'a, 'b>(words: &'b [&'a [u8]]) -> &'b [&'a [u8]]
    ensures { texts result.now ≡ spec.from_brace (texts words.now) }
{
    let (_, rest) = words.split_at(brace(words).min(words.len()));
    rest
}

/// The words after the first `{`, of which there is one.
fn changes_in_braces(shared: &[&[u8]], words: &[&[u8]]) -> bool
    ensures { result
        ≡ spec.does (texts shared.now) Changes (drop 1 (spec.from_brace (texts words.now))) }
{
    match from_brace(words).split_first() {
        Some((_, rest)) => does(shared, Sought::Changes, rest),
        None => does(shared, Sought::Changes, &[]),
    }
}

/// Whether a line begins a loop that is whole on this line, tests a shared word, and changes nothing.
fn spins_here(shared: &[&[u8]], words: &[&[u8]]) -> bool
    ensures { result ≡ spec.spins_here (texts shared.now) (texts words.now) }
{
    (word_is(words, 0, b"while") || word_is(words, 0, b"loop"))
        && names_shared(shared, words)
        && !changes_in_braces(shared, words)
}

/// Whether a line begins a loop that can only end when another thread changes a shared word.
fn spins(shared: &[&[u8]], words: &[&[u8]], below: &[Vec<&[u8]>]) -> bool
    ensures { result ≡ spec.spins (texts shared.now) (texts words.now) (lines_in below.now) }
{
    if is_whole_block(words) {
        spins_here(shared, words)
    } else {
        tests_shared(shared, words, below) && ends_without(shared, Sought::Changes, below)
    }
}

/// Whether a line begins a `loop` that never ends, and that others see nothing of.
fn is_endless(shared: &[&[u8]], words: &[&[u8]], below: &[Vec<&[u8]>]) -> bool
    ensures { result ≡ spec.is_endless (texts shared.now) (texts words.now) (lines_in below.now) }
{
    if !word_is(words, 0, b"loop") {
        false
    } else if is_whole_block(words) {
        !acts(shared, words)
    } else {
        ends_without(shared, Sought::Acts, below)
    }
}

/// Whether one of the words calls something that changes a shared word.
fn has_call(words: &[&[u8]]) -> bool
    ensures { result ≡ list_any (is_among spec.calling) (texts words.now) }
{
    words.iter().any(|word| is_call(word))
}

/// Whether a line calls something that changes this word.
fn calls_on(name: &[u8], words: &[&[u8]]) -> bool
    ensures { result ≡ spec.calls_on name.now (texts words.now) }
{
    has_call(words) && is_among(words, name)
}

/// Whether a line above or below calls something that changes this word.
fn is_called_on(name: &[u8], above: &[Vec<&[u8]>], below: &[Vec<&[u8]>]) -> bool
    ensures { result
        ≡ list_any (spec.calls_on name.now) (lines_in above.now ++ lines_in below.now) }
{
    above.iter().chain(below).any(|words| calls_on(name, words))
}

/// The word that a line begins with.
fn first_of<'a>(words: &[&'a [u8]]) -> &'a [u8]
    ensures { result.now ≡ spec.first_of (texts words.now) }
{
    words.get(0).copied().unwrap_or(&[])
}

/// Whether a line changes a shared word by `+=` or `-=`, and another one by a call.
fn is_plain_update(
    shared: &[&[u8]],
    above: &[Vec<&[u8]>],
    words: &[&[u8]],
    below: &[Vec<&[u8]>],
) -> bool
    ensures { result ≡ spec.plain_update_at shared.now above.now words.now below.now }
{
    is_among(shared, first_of(words))
        && (is_among(words, b"+=") || is_among(words, b"-="))
        && is_called_on(first_of(words), above, below)
}

/// Whether a word is `==` or `!=`.
fn compares(word: &[u8]) -> bool
    ensures { result ≡ spec.compares word.now }
{
    word == b"==".as_slice() || word == b"!=".as_slice()
}

/// Whether a word is `&&` or `||`.
fn joins(word: &[u8]) -> bool
    ensures { result ≡ spec.joins word.now }
{
    word == b"&&".as_slice() || word == b"||".as_slice()
}

/// Whether one of the words is `&&` or `||`.
fn has_joint(words: &[&[u8]]) -> bool
    ensures { result ≡ spec.has_joint (texts words.now) }
{
    words.iter().any(|word| joins(word))
}

/// Where the first `==` or `!=` is, or the number of words where there is none.
fn comparison(words: &[&[u8]]) -> usize
    ensures { result ≡ spec.comparison (texts words.now) }
{
    words
        .iter()
        .position(|word| compares(word))
        .unwrap_or(words.len())
}

/// The words from the first `==` or `!=` on.
fn from_comparison<'a, 'b>(words: &'b [&'a [u8]]) -> &'b [&'a [u8]]
    ensures { texts result.now ≡ spec.from_comparison (texts words.now) }
{
    let (_, rest) = words.split_at(comparison(words).min(words.len()));
    rest
}

/// Whether a line waits for the value of a condition that has no parentheses around it.
fn awaits_condition(words: &[&[u8]]) -> bool
    ensures { result ≡ spec.awaits_condition (texts words.now) }
{
    let awaited = from_comparison(words);
    word_is(words, 0, b"await") && !word_is(awaited, 1, b"(") && has_joint(awaited)
}

/// What is odd about a line, between those above it and those below it.
#[tactic(auto, unfolding(crate::specs::Warnings::warning_of))]
fn warning_of(
    shared: &[&[u8]],
    above: &[Vec<&[u8]>],
    words: &[&[u8]],
    below: &[Vec<&[u8]>],
) -> Option<Warning>
    ensures { result ≡ spec.warning_at shared.now above.now words.now below.now }
{
    if word_is(words, 0, b"let") && !is_read(name_of(words), below) {
        Some(Warning::UnusedLocal)
    } else if word_is(words, 0, b"word") && is_unused(name_of(words), above, below) {
        Some(Warning::UnusedWord)
    } else if is_endless(shared, words, below) {
        Some(Warning::EndlessLoop)
    } else if spins(shared, words, below) {
        Some(Warning::SpinningLoop)
    } else if awaits_condition(words) {
        Some(Warning::AwaitedCondition)
    } else if is_plain_update(shared, above, words, below) {
        Some(Warning::PlainUpdate)
    } else {
        None
    }
}

/// The words of each line.
fn worded<'a>(alloc: Global, lines: &[&'a [u8]]) -> Result<Vec<Vec<&'a [u8]>>, AllocError>
    ensures { IfOk result (λ worded.
        lines_in worded.items ≡ map source_words (texts lines.now)) }
{
    let mut worded = Vec::new(alloc);
    for line in lines {
        worded.push(source_words(alloc, line)?)?;
    }
    Ok(worded)
}

/// What is odd in a source's text that has no fault, in the order of its lines.
///
/// # Errors
///
/// There is no memory for it.
pub fn warnings_of(alloc: Global, text: &[u8]) -> Result<Vec<SourceMessage>, AllocError>
    ensures { HasItems result (spec.warnings_in text.now) }
{
    let lines = worded(alloc, &lines_of(alloc, text)?)?;
    let shared = shared_names(alloc, &lines)?;
    let mut warnings = Vec::new(alloc);
    for (before, words) in lines.iter().enumerate() {
        let (above, _) = lines.split_at(before);
        let (_, below) = lines.split_at(before + 1);
        if let Some(warning) = warning_of(&shared, above, words, below) {
            warnings.push(SourceMessage {
                line: before + 1,
                what: What::Warning(warning),
            })?;
        }
    }
    Ok(warnings)
}
