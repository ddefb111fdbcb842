//! Texts that are cut off, bent and torn.

use lu_text::cut_line;
use std::process::Abort;
use std::test::Fail;

/// The bytes that stand in place of each other one: ends of lines and of words, what begins a
/// comment, a sign or a number, what parts calls and moves, a letter, and what no text may have.
const BYTES: [u8; 14] = [0, 9, 10, 13, 32, 35, 45, 48, 58, 59, 61, 127, 128, 255];

/// What came of a text.
#[derive(Clone, Copy)]
pub(crate) enum TextOutcome {
    /// It was read; what was written of it was read as the same.
    Read,

    /// It was refused, on this line.
    Refused(usize),
}

/// How many texts were read, and how many refused.
#[derive(Clone, Copy, Debug, PartialEq, Eq)]
pub(crate) struct ReadCounts {
    pub(crate) read: u32,
    pub(crate) refused: u32,
}

/// A reader of texts.
pub(crate) trait Texts {
    /// What comes of the text.
    fn outcome<X: AllocGlobal + Abort>(&self, rt: &X, text: &[u8]) -> Result<TextOutcome, Fail>;
}

/// The number of lines.
fn line_count(text: &[u8]) -> usize {
    let ends = text.iter().filter(|byte| **byte == b'\n').count();
    match text.last() {
        None => 0,
        Some(b'\n') => ends,
        Some(_) => ends.saturating_add(1),
    }
}

/// The text is read and comes back, or is refused on one of its lines, of which the first `sound`
/// are as they were, or on the one after it.
fn try_text<K: Texts, X: AllocGlobal + Abort>(
    rt: &X,
    texts: &K,
    text: &[u8],
    sound: usize,
    tally: &mut ReadCounts,
) -> Result<(), Fail> {
    match texts.outcome(rt, text)? {
        TextOutcome::Read => tally.read = tally.read.saturating_add(1),
        TextOutcome::Refused(line) => {
            assert!(rt; line > sound, "{line}");
            assert!(rt; line <= line_count(text).saturating_add(1), "{line}");
            tally.refused = tally.refused.saturating_add(1);
        }
    }
    Ok(())
}

/// Each beginning of the text, the empty one and the whole too: only the line that is cut may be
/// wrong, or what is missing after it.
pub(crate) fn try_beginnings<K: Texts, X: AllocGlobal + Abort>(
    rt: &X,
    texts: &K,
    text: &[u8],
    tally: &mut ReadCounts,
) -> Result<(), Fail> {
    for end in 0..text.len() {
        let beginning = &text[..end];
        try_text(
            rt,
            texts,
            beginning,
            line_count(beginning).saturating_sub(1),
            tally,
        )?;
    }
    try_text(rt, texts, text, line_count(text), tally)
}

/// The text with each of its bytes replaced by each of [`BYTES`].
fn try_bytes<K: Texts, X: AllocGlobal + Abort>(
    rt: &X,
    texts: &K,
    text: &[u8],
    tally: &mut ReadCounts,
) -> Result<(), Fail> {
    let mut bent = Vec::from_slice(rt.alloc(), text)?;
    let mut sound: usize = 0;
    for i in 0..bent.len() {
        let kept = bent[i];
        for byte in &BYTES {
            bent[i] = *byte;
            try_text(rt, texts, &bent, sound, tally)?;
        }
        bent[i] = kept;
        if kept == b'\n' {
            sound = sound.saturating_add(1);
        }
    }
    Ok(())
}

/// The text with each line left out, doubled, and swapped with the next.
fn try_lines<K: Texts, X: AllocGlobal + Abort>(
    rt: &X,
    texts: &K,
    text: &[u8],
    tally: &mut ReadCounts,
) -> Result<(), Fail> {
    let mut front = 0;
    for sound in 0..line_count(text) {
        let (before, after) = text.split_at(text.len().min(front));
        let (line, rest) = cut_line(after);
        let (next, others) = cut_line(rest);
        for parts in &[
            [before, rest, b"", b""],
            [before, line, line, rest],
            [before, next, line, others],
        ] {
            let mut torn = Vec::new(rt.alloc());
            for part in parts {
                torn.extend_from_slice(part)?;
            }
            try_text(rt, texts, &torn, sound, tally)?;
        }
        front = front.saturating_add(line.len());
    }
    Ok(())
}

/// Each of these changes of the text.
pub(crate) fn try_all<K: Texts, X: AllocGlobal + Abort>(
    rt: &X,
    texts: &K,
    text: &[u8],
) -> Result<ReadCounts, Fail> {
    let mut tally = ReadCounts {
        read: 0,
        refused: 0,
    };
    try_beginnings(rt, texts, text, &mut tally)?;
    try_bytes(rt, texts, text, &mut tally)?;
    try_lines(rt, texts, text, &mut tally)?;
    Ok(tally)
}
