//! What words are between tags.

ghost use Rattle.std.specs.Prelude.{◌≡◌, length};
ghost use Rattle.std.specs.Str.{chars};
ghost use Rattle.lu_text.specs.Writing.{Writes};
ghost use Rattle.lu_picture.specs.Shown as spec;

use lu_trace::Wording;
use std::alloc::AllocError;

/// Adds what a letter is between tags.
fn write_letter(text: &mut String, letter: char) -> Result<(), AllocError>
    ensures { Writes result text.old text.new (spec.letter_shown letter) }
{
    match letter {
        '<' => text.push_str("&lt;"),
        '>' => text.push_str("&gt;"),
        '&' => text.push_str("&amp;"),
        _ => text.push(letter),
    }
}

/// Adds what words are between tags.
fn write_escaped(text: &mut String, words: &str) -> Result<(), AllocError>
    ensures { Writes result text.old text.new (spec.escaped words.now) }
{
    for letter in words.chars() {
        write_letter(text, letter)?;
    }
    Ok(())
}

/// Adds what the words of a step are between tags. Those of a component are the same there.
pub(crate) fn write_shown(
    text: &mut String,
    how: &Wording<'_>,
    words: &str,
) -> Result<(), AllocError>
    ensures { Writes result text.old text.new (spec.shown how.now words.now) }
{
    match how {
        Wording::Component => text.push_str(words),
        Wording::Labelled(_) | Wording::Source { .. } => write_escaped(text, words),
    }
}

/// The number of letters in a label.
const MOST_LETTERS: usize = 48;

/// The number of letters of these words.
fn letters(words: &str) -> usize
    ensures { result ≡ length (chars words.now) }
{
    words.chars().count()
}

/// Adds the first of these letters, as many as a label has.
fn write_first(text: &mut String, words: &str) -> Result<(), AllocError>
    ensures { Writes result text.old text.new (spec.first_letters words.now) }
{
    for letter in words.chars().take(MOST_LETTERS) {
        write_letter(text, letter)?;
    }
    Ok(())
}

/// Adds what ends the label of words with this many letters: an ellipsis where some are left out.
fn write_ellipsis(text: &mut String, many: usize) -> Result<(), AllocError>
    ensures { Writes result text.old text.new (spec.ending many) }
{
    if MOST_LETTERS < many {
        text.push('…')
    } else {
        Ok(())
    }
}

/// Adds the label of these words: their first letters, and an ellipsis where there are more.
pub(crate) fn write_label(text: &mut String, words: &str) -> Result<(), AllocError>
    ensures { Writes result text.old text.new (spec.label words.now) }
{
    write_first(text, words)?;
    write_ellipsis(text, letters(words))
}
