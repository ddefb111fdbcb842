//! Specifications that a person wrote.

ghost use Rattle.lu_text.specs.Lines.{texts};
ghost use Rattle.lu_cli.specs.Refusals.{Answered};
ghost use Rattle.lu_cli.specs.Spec as spec;

use crate::answer::{Answer, show_spec};
use crate::refusal::Refusal;
use crate::texts::read_texts;
use lu_spec::collect_spec;
use lu_test::Matrix;
use lu_text::exactly_three;
use std::alloc::Global;

/// A specification of the matrix that a person wrote, as this program spells it.
fn collect_text(alloc: Global, matrix: &Matrix, text: &[u8]) -> Result<Answer, Refusal>
    ensures { Answered (spec.IsCollected matrix.now text.now) result }
{
    let collected = collect_spec(alloc, matrix, text)?;
    Ok(show_spec(alloc, &collected)?)
}

/// `lineup spec`: component, matrix, and a specification as a person writes it.
pub(crate) fn answer_spec(alloc: Global, parts: &[&[u8]]) -> Result<Answer, Refusal>
    ensures { Answered (spec.IsAnswerToSpec (texts parts.now)) result }
{
    let (component, matrix, specification) = exactly_three(parts).ok_or(Refusal::Parts)?;
    let case = read_texts(alloc, component, matrix)?;
    collect_text(alloc, &case.matrix, specification)
}
