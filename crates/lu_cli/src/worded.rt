//! What a component or a source does, and the words in which it is shown.

ghost use Rattle.std.specs.Prelude.{◌≡◌, IfErr, IfOk};
ghost use Rattle.lu_machine.specs.Starts.{CanRun};
ghost use Rattle.lu_cli.specs.Worded.{AreWordsOf, IsWordedOf, IsWordedOfSource, IsWordedRefusal, IsWordedRefusalOfSource, IsWordsRefusal, IsWordedBy};

use crate::compile::read_source;
use crate::refusal::Refusal;
use crate::texts::{matrix_of, read_texts};
use lu_component::Component;
use lu_lang::{Labels, labels_of};
use lu_source::Origins;
use lu_source_text::{is_source, source_origins};
use lu_test::Matrix;
use lu_text::lines_of;
use lu_trace::Wording;
use std::alloc::Global;

/// The lines of a source, and where the instructions of its component come from.
#[derive(Drop)]
pub(crate) struct SourceWords<'a> {
    lines: Vec<&'a [u8]>,
    origins: Origins,
}

/// What a component is shown by.
#[derive(Drop)]
pub(crate) enum Words<'a> {
    /// The labels of its text.
    Labels(Labels),

    /// The source that it was compiled from.
    Source(SourceWords<'a>),
}

/// A component and a matrix of it, and what the component is shown by.
#[derive(Drop)]
pub(crate) struct Worded<'a> {
    pub(crate) component: Component,
    pub(crate) matrix: Matrix,
    words: Words<'a>,
}

impl<'a> Worded<'a> {
    /// How instructions of the component are shown.
    pub(crate) fn wording(&self) -> Wording<'_>
        ensures { IsWordedBy self.now.words result }
    {
        match &self.words {
            Words::Labels(labels) => Wording::Labelled(labels),
            Words::Source(words) => Wording::Source {
                lines: &words.lines,
                origins: &words.origins,
            },
        }
    }
}

/// The lines of a source, and where the instructions of its component come from.
fn words_of<'a>(alloc: Global, text: &'a [u8]) -> Result<SourceWords<'a>, Refusal>
    ensures read { IfOk result (AreWordsOf text.now) }
    ensures refused { IfErr result (IsWordsRefusal text.now) }
{
    let lines = lines_of(alloc, text)?;
    match source_origins(alloc, text) {
        Ok(origins) => Ok(SourceWords { lines, origins }),
        Err(fault) => Err(Refusal::Source(fault)),
    }
}

/// The component of a source, and a matrix of it.
fn read_worded_source<'a>(
    alloc: Global,
    source: &'a [u8],
    matrix: &[u8],
) -> Result<Worded<'a>, Refusal>
    ensures read { IfOk result (IsWordedOfSource source.now matrix.now) }
    ensures runs { IfOk result (λ worded. CanRun worded.component worded.matrix) }
    ensures refused { IfErr result (IsWordedRefusalOfSource source.now matrix.now) }
{
    let component = read_source(alloc, source)?;
    let matrix = matrix_of(alloc, &component, matrix)?;
    let words = words_of(alloc, source)?;
    Ok(Worded {
        component,
        matrix,
        words: Words::Source(words),
    })
}

/// The component that a text spells, or of the source that it spells, and a matrix of it.
pub(crate) fn read_worded<'a>(
    alloc: Global,
    component: &'a [u8],
    matrix: &[u8],
) -> Result<Worded<'a>, Refusal>
    ensures read { IfOk result (IsWordedOf component.now matrix.now) }
    ensures runs { IfOk result (λ worded. CanRun worded.component worded.matrix) }
    ensures refused { IfErr result (IsWordedRefusal component.now matrix.now) }
{
    if is_source(alloc, component)? {
        return read_worded_source(alloc, component, matrix);
    }
    let case = read_texts(alloc, component, matrix)?;
    let labels = labels_of(alloc, component)?;
    Ok(Worded {
        component: case.component,
        matrix: case.matrix,
        words: Words::Labels(labels),
    })
}
