//! Answers to command lines.

ghost use Rattle.std.specs.Prelude.{◌≡◌, IfOk};
ghost use Rattle.lu_text.specs.Lines.{texts};
ghost use Rattle.lu_cli.specs.Outcomes.{no_command};
ghost use Rattle.lineup_c.specs.Calls as spec;
ghost use Rattle.lineup_c.specs.Calls.{AreStrings, IsAnswerToLine, IsAnswerToWords, IsAnswerWithin, no_stack};

use crate::stack::stack_for;
use lu_cli::{Answer, ArgsFault, Request, answer_request, read_request};
use std::alloc::{AllocError, Global};
use std::str;

/// The words as strings: none where one of them is no UTF-8.
fn strings_of<'a>(alloc: Global, words: &[&'a [u8]]) -> Result<Option<Vec<&'a str>>, AllocError>
    ensures { IfOk result (λ read. AreStrings (texts words.now) read) }
{
    let mut strings = Vec::new(alloc);
    for word in words {
        match str::from_utf8(word) {
            Ok(string) => strings.push(string)?,
            Err(_) => return Ok(None),
        }
    }
    Ok(Some(strings))
}

/// The words of a line, which spaces separate.
fn spaced_words(alloc: Global, line: &[u8]) -> Result<Vec<&[u8]>, AllocError>
    ensures { IfOk result (λ words. texts words.items ≡ spec.spaced_words line.now) }
{
    line.split(|byte| *byte == b' ')
        .filter(|word| !word.is_empty())
        .collect(alloc)
}

/// That the command line is refused.
fn refuse_line(alloc: Global) -> Result<Answer, AllocError>
    ensures { IfOk result (λ answer. answer ≡ no_command) }
{
    Ok(Answer {
        text: String::from_str(alloc, "refused command line\n")?,
        status: 2,
    })
}

/// That the stack is too small.
fn refuse_stack(alloc: Global) -> Result<Answer, AllocError>
    ensures { IfOk result (λ answer. answer ≡ no_stack) }
{
    Ok(Answer {
        text: String::from_str(alloc, "refused stack\n")?,
        status: 2,
    })
}

/// What the program answers to a request and a bundle, where a stack of this many bytes suffices.
fn answer_within(
    alloc: Global,
    request: Request,
    bundle: &[u8],
    stack: usize,
) -> Result<Answer, AllocError>
    ensures { IfOk result (IsAnswerWithin request bundle.now stack) }
{
    if stack < stack_for(&request) {
        refuse_stack(alloc)
    } else {
        answer_request(alloc, request, bundle)
    }
}

/// The same of the words of a command line.
fn answer_words(
    alloc: Global,
    words: &[&str],
    bundle: &[u8],
    stack: usize,
) -> Result<Answer, AllocError>
    ensures { IfOk result (IsAnswerToWords (texts words.now) bundle.now stack) }
{
    match read_request(alloc, words) {
        Ok(request) => answer_within(alloc, request, bundle, stack),
        Err(ArgsFault::Refused) => refuse_line(alloc),
        Err(ArgsFault::Memory) => Err(AllocError),
    }
}

/// What the program answers to the words of a line and to a bundle, where a stack of this many
/// bytes suffices.
pub(crate) fn answer_line(
    alloc: Global,
    line: &[u8],
    bundle: &[u8],
    stack: usize,
) -> Result<Answer, AllocError>
    ensures { IfOk result (IsAnswerToLine line.now bundle.now stack) }
{
    let words = spaced_words(alloc, line)?;
    match strings_of(alloc, &words)? {
        Some(strings) => answer_words(alloc, &strings, bundle, stack),
        None => refuse_line(alloc),
    }
}
