//! Whether recorded histories have their serial witnesses, and runs pass.

ghost use Rattle.std.specs.Prelude.{◌≡◌};
ghost use Rattle.lu_text.specs.Lines.{texts};
ghost use Rattle.lu_cli.specs.Witness.{IsAnswerToHistories, IsAnswerToWitness, IsAnswerToWitnessAgainst, JudgesBy, JudgesSerially, JudgesTexts, JudgesTextsAgainst, ShowsFirst, four_parts, seen_as_four, seen_as_three, three_parts};
ghost use Rattle.lu_cli.specs.Refusals.{Answered};

use crate::answer::Answer;
use crate::refusal::Refusal;
use crate::runs::{all_witnessed, answer_runs, run_parts, unwitnessed};
use crate::serial::show_offence;
use crate::texts::read_texts;
use lu_machine::Test;
use lu_recorded::{Recorded, first_unwitnessed, read_all, write_reason_of, write_recorded};
use lu_replay::graph_or_offence;
use lu_report::Bounds;
use lu_serial_graph::learn_graph;
use lu_spec::{Beginnings, Marks, read_given_spec};
use lu_trie::SerialTree;
use std::alloc::{AllocError, Global};

/// The first history that has not its witnesses, which has this number.
fn show_first<T: SerialTree>(
    alloc: Global,
    test: Test<'_>,
    tree: &T,
    number: usize,
    recorded: &Recorded,
) -> Result<Answer, AllocError>
    ensures { ShowsFirst (T.members tree.now) test.entry number recorded.now result }
{
    let text = write_recorded(alloc, recorded)?;
    let reason = write_reason_of(alloc, test.component, test.matrix, tree, recorded)?;
    unwitnessed(alloc, number, text.as_str(), reason.as_str())
}

/// Recorded histories, judged by the serial histories of a tree.
fn judge_by<T: SerialTree>(
    alloc: Global,
    test: Test<'_>,
    tree: &T,
    all: &[Recorded],
) -> Result<Answer, AllocError>
    ensures { JudgesBy (T.members tree.now) test.entry all.now result }
{
    match first_unwitnessed(tree, all) {
        None => all_witnessed(alloc, all.len()),
        Some(number) => show_first(alloc, test, tree, number, &all[number]),
    }
}

/// Recorded histories, judged by the beginnings of the serial histories; or the report of the least
/// serial offence.
fn judge_serially(
    alloc: Global,
    test: Test<'_>,
    bounds: Bounds,
    all: &[Recorded],
) -> Result<Answer, AllocError>
    ensures { JudgesSerially test.entry bounds all.now result }
{
    let learnt = learn_graph(alloc, alloc, test.component, test.matrix, bounds.serial())?;
    match graph_or_offence(learnt) {
        Ok(graph) => {
            let tree = &graph;
            judge_by(alloc, test, &Beginnings::of(&tree), all)
        }
        Err(finding) => show_offence(alloc, test, bounds, finding),
    }
}

/// The first two parts, and those after them, where there are some.
#[tactic(auto, using(crate::proofs::Judged::are_three, crate::proofs::Judged::are_not_three))]
pub(crate) fn three_parts<'a, 'b>(
    parts: &'b [&'a [u8]],
) -> Option<(&'a [u8], &'a [u8], &'b [&'a [u8]])>
    ensures { seen_as_three result ≡ three_parts (texts parts.now) }
{
    if parts.len() < 3 {
        return None;
    }
    Some((parts[0], parts[1], &parts[2..]))
}

/// The texts of recorded histories, judged by the serial runs.
fn judge_texts(
    alloc: Global,
    test: Test<'_>,
    bounds: Bounds,
    histories: &[&[u8]],
) -> Result<Answer, Refusal>
    ensures { JudgesTexts test.entry bounds (texts histories.now) result }
{
    let all = read_all(alloc, test.matrix, histories)?;
    Ok(judge_serially(alloc, test, bounds, &all)?)
}

/// The answer to component, matrix, and recorded histories.
fn answer_histories(alloc: Global, bounds: Bounds, parts: &[&[u8]]) -> Result<Answer, Refusal>
    ensures { Answered (IsAnswerToHistories bounds (texts parts.now)) result }
{
    let (component, matrix, histories) = three_parts(parts).ok_or(Refusal::Parts)?;
    let case = read_texts(alloc, component, matrix)?;
    let test = Test {
        component: &case.component,
        matrix: &case.matrix,
    };
    judge_texts(alloc, test, bounds, histories)
}

/// `lineup witness`: component, matrix, and recorded histories; or component, setup and runs.
pub(crate) fn answer_witness(
    alloc: Global,
    bounds: Bounds,
    parts: &[&[u8]],
) -> Result<Answer, Refusal>
    ensures { Answered (IsAnswerToWitness bounds (texts parts.now)) result }
{
    match run_parts(alloc, parts)? {
        None => answer_histories(alloc, bounds, parts),
        Some((component, setup, runs)) => answer_runs(alloc, bounds, component, setup, runs),
    }
}

/// A text of a specification and texts of recorded histories, which are judged by it.
fn judge_texts_against(
    alloc: Global,
    test: Test<'_>,
    marks: Marks,
    spec: &[u8],
    histories: &[&[u8]],
) -> Result<Answer, Refusal>
    ensures { JudgesTextsAgainst test.entry marks spec.now (texts histories.now) result }
{
    let specification = read_given_spec(alloc, test.matrix, spec, marks)?;
    let all = read_all(alloc, test.matrix, histories)?;
    Ok(judge_by(alloc, test, &specification.tree(), &all)?)
}

/// The first three parts, and those after them, where there are some.
#[tactic(auto, using(crate::proofs::Judged::are_four, crate::proofs::Judged::are_not_four))]
fn four_parts<'a, 'b>(
    parts: &'b [&'a [u8]],
) -> Option<(&'a [u8], &'a [u8], &'a [u8], &'b [&'a [u8]])>
    ensures { seen_as_four result ≡ four_parts (texts parts.now) }
{
    if parts.len() < 4 {
        return None;
    }
    Some((parts[0], parts[1], parts[2], &parts[3..]))
}

/// `lineup witness --spec`: component, matrix, specification, and recorded histories.
pub(crate) fn answer_witness_against(
    alloc: Global,
    marks: Marks,
    parts: &[&[u8]],
) -> Result<Answer, Refusal>
    ensures { Answered (IsAnswerToWitnessAgainst marks (texts parts.now)) result }
{
    let (component, matrix, spec, histories) = four_parts(parts).ok_or(Refusal::Parts)?;
    let case = read_texts(alloc, component, matrix)?;
    let test = Test {
        component: &case.component,
        matrix: &case.matrix,
    };
    judge_texts_against(alloc, test, marks, spec, histories)
}
