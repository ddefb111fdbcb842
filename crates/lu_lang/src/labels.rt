//! The labels of a component's text.

ghost use Rattle.std.specs.Prelude.{◌≡◌};
ghost use Rattle.std.specs.Option.{option_copied};
ghost use Rattle.lu_text.specs.Lines.{texts};
ghost use Rattle.lu_text.specs.Results.{Builds};
ghost use Rattle.lu_lang.specs.Labels as spec;
ghost use Rattle.lu_lang.specs.Labels.{label_on};

use crate::reading::label_in;
use lu_text::{Name, has_name_form, is_long, lines_of, words_of};
use std::alloc::{AllocError, Global};
use std::marker::Model;

/// The labels of an operation: for each instruction the one before it, or none. In clauses it is
/// the list of them.
#[derive(Debug, Drop)]
pub(crate) struct Marks {
    names: Vec<Option<Name>>,
}

impl Model for Marks {
    ghost use Rattle.std.specs.Prelude.{ℕ, List, Option};

    ghost Value = { List (Option (List ℕ)) };

    ghost view = { λ m. m.names.items };
}

/// The labels of a component's text ([`labels_of`]). In clauses it is the list of each operation's:
/// for each of its instructions the label before it, or none.
#[derive(Debug, Drop)]
pub struct Labels {
    operations: Vec<Marks>,
}

impl Model for Labels {
    ghost use Rattle.std.specs.Prelude.{ℕ, List, Option};

    ghost Value = { List (List (Option (List ℕ))) };

    ghost view = { λ l. l.operations.items };
}

impl Labels {
    /// The label before the instruction at a place of an operation, both numbered from 0. `None`
    /// where none stands there, and where there is no such place or operation.
    pub fn name(&self, op: u8, place: u8) -> Option<&Name>
        ensures { option_copied result ≡ spec.label_name self.now op place }
    {
        let marks = self.operations.get(usize::from(op))?;
        marks.names.get(usize::from(place))?.as_ref()
    }
}

/// The labels on the lines so far: of the operations that have their `end`, and of the one that has
/// none yet.
#[derive(Drop)]
struct Marked {
    closed: Vec<Marks>,
    begun: Option<Marks>,
}

impl Model for Marked {
    ghost use Rattle.lu_lang.specs.Labels as spec;
    ghost use Rattle.lu_lang.specs.Labels.{label_on};

    ghost Value = { spec.Marked };

    ghost view = { λ m. record { closed = m.closed.items; begun = m.begun } };
}

/// A line of these words.
fn with_words(alloc: Global, mut marked: Marked, words: &[&[u8]]) -> Result<Marked, AllocError>
    ensures { Builds result (spec.with_words label_on marked (texts words.now)) }
{
    let Some((first, _)) = words.split_first() else {
        return Ok(marked);
    };
    match marked.begun.take() {
        None => {
            if *first == b"op".as_slice() {
                marked.begun = Some(Marks {
                    names: Vec::new(alloc),
                });
            }
        }
        Some(marks) if *first == b"end".as_slice() => marked.closed.push(marks)?,
        Some(mut marks) => {
            // The label is a name with a colon after it.
            let label = match label_in(first) {
                Some(label) if has_name_form(label) && !is_long(label) => {
                    Some(Name::new(alloc, label)?)
                }
                _ => None,
            };
            marks.names.push(label)?;
            marked.begun = Some(marks);
        }
    }
    Ok(marked)
}

/// The labels on these lines.
fn marked_after(alloc: Global, lines: &[&[u8]]) -> Result<Marked, AllocError>
    ensures { Builds result (spec.marked_after label_on spec.nothing_marked (texts lines.now)) }
{
    let mut marked = Marked {
        closed: Vec::new(alloc),
        begun: None,
    };
    for line in lines {
        let words = words_of(alloc, line)?;
        marked = with_words(alloc, marked, &words)?;
    }
    Ok(marked)
}

/// The labels of a component's text: `again` of `again: load r0 x 0`, at the operation and the
/// place of that instruction.
///
/// The instructions of an operation are its lines with words between `op` and `end`, numbered from
/// 0 as the operations are; a line's label is its first word, where that is a name with a colon
/// after it. In a text that [`read_component`](crate::read_component) reads, the labels stand at
/// the places to which its jumps to them lead ([`labels_law`](crate::labels_law)); of another it
/// tells what it can.
///
/// # Errors
///
/// There is no memory for the labels.
pub fn labels_of(alloc: Global, text: &[u8]) -> Result<Labels, AllocError>
    ensures { Builds result (spec.labels_of text.now) }
{
    let lines = lines_of(alloc, text)?;
    let Marked { closed, begun } = marked_after(alloc, &lines)?;
    let mut operations = closed;
    if let Some(marks) = begun {
        operations.push(marks)?;
    }
    Ok(Labels { operations })
}
