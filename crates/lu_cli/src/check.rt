//! The first fault of a component and a matrix.

ghost use Rattle.lu_text.specs.Lines.{texts};
ghost use Rattle.lu_cli.specs.Refusals.{Answered};
ghost use Rattle.lu_cli.specs.Check as spec;
ghost use Rattle.lu_cli.specs.Check.{Checks, ChecksAgainst};

use crate::answer::{Answer, show_report};
use crate::refusal::Refusal;
use crate::shown_gate::ShownGate;
use crate::texts::read_texts;
use lu_certify::Progress;
use lu_machine::Test;
use lu_parallel::{Options, check, check_against, check_one, check_one_against};
use lu_spec::{Marks, read_given_spec};
use lu_text::{exactly_three, exactly_two};
use std::alloc::Global;
use std::sync::Wait;
use std::thread::Threads;

/// The report of a test, by as many workers as the options say.
fn check_test<X: AllocGlobal + Threads + Wait, P: Progress>(
    rt: &X,
    progress: &P,
    test: Test<'_>,
    options: Options,
) -> Result<Answer, Refusal>
    ensures { Checks test.entry options result }
{
    let report = check(
        rt,
        rt.alloc(),
        &ShownGate { progress },
        test.component,
        test.matrix,
        options,
    )?;
    Ok(show_report(rt.alloc(), &report)?)
}

/// `lineup check`: component and matrix. It tells meanwhile how far it has come.
pub(crate) fn answer_check<X: AllocGlobal + Threads + Wait, P: Progress>(
    rt: &X,
    progress: &P,
    options: Options,
    parts: &[&[u8]],
) -> Result<Answer, Refusal>
    ensures { Answered (spec.IsAnswerToCheck options (texts parts.now)) result }
{
    let (component, matrix) = exactly_two(parts).ok_or(Refusal::Parts)?;
    let case = read_texts(rt.alloc(), component, matrix)?;
    let test = Test {
        component: &case.component,
        matrix: &case.matrix,
    };
    check_test(rt, progress, test, options)
}

/// The report of a test against a specification of this text, by as many workers as the options
/// say.
fn check_test_against<X: AllocGlobal + Threads + Wait, P: Progress>(
    rt: &X,
    progress: &P,
    test: Test<'_>,
    options: Options,
    marks: Marks,
    specification: &[u8],
) -> Result<Answer, Refusal>
    ensures { ChecksAgainst test.entry options marks specification.now result }
{
    let specification = read_given_spec(rt.alloc(), test.matrix, specification, marks)?;
    let tree = specification.tree();
    let report = check_against(
        rt,
        rt.alloc(),
        &ShownGate { progress },
        test.component,
        test.matrix,
        &tree,
        options,
    )?;
    Ok(show_report(rt.alloc(), &report)?)
}

/// `lineup check --spec`: component, matrix and specification. It tells meanwhile how far it has
/// come.
pub(crate) fn answer_check_against<X: AllocGlobal + Threads + Wait, P: Progress>(
    rt: &X,
    progress: &P,
    options: Options,
    marks: Marks,
    parts: &[&[u8]],
) -> Result<Answer, Refusal>
    ensures { Answered (spec.IsAnswerToCheckAgainst options marks (texts parts.now)) result }
{
    let (component, matrix, specification) = exactly_three(parts).ok_or(Refusal::Parts)?;
    let case = read_texts(rt.alloc(), component, matrix)?;
    let test = Test {
        component: &case.component,
        matrix: &case.matrix,
    };
    check_test_against(rt, progress, test, options, marks, specification)
}

/// The report of a test, on the calling thread.
fn check_test_alone(alloc: Global, test: Test<'_>, options: Options) -> Result<Answer, Refusal>
    ensures { Checks test.entry options result }
{
    let (bound, serial) = (options.bound(), options.serial());
    let report = check_one(alloc, alloc, test.component, test.matrix, bound, serial)?;
    Ok(show_report(alloc, &report)?)
}

/// `lineup check` on the calling thread: component and matrix.
pub(crate) fn answer_check_alone(
    alloc: Global,
    options: Options,
    parts: &[&[u8]],
) -> Result<Answer, Refusal>
    ensures { Answered (spec.IsAnswerToCheck options (texts parts.now)) result }
{
    let (component, matrix) = exactly_two(parts).ok_or(Refusal::Parts)?;
    let case = read_texts(alloc, component, matrix)?;
    let test = Test {
        component: &case.component,
        matrix: &case.matrix,
    };
    check_test_alone(alloc, test, options)
}

/// The report of a test against a specification of this text, on the calling thread.
fn check_test_against_alone(
    alloc: Global,
    test: Test<'_>,
    options: Options,
    marks: Marks,
    specification: &[u8],
) -> Result<Answer, Refusal>
    ensures { ChecksAgainst test.entry options marks specification.now result }
{
    let specification = read_given_spec(alloc, test.matrix, specification, marks)?;
    let (tree, bound) = (specification.tree(), options.bound());
    let report = check_one_against(alloc, test.component, test.matrix, &tree, bound)?;
    Ok(show_report(alloc, &report)?)
}

/// `lineup check --spec` on the calling thread: component, matrix and specification.
pub(crate) fn answer_check_against_alone(
    alloc: Global,
    options: Options,
    marks: Marks,
    parts: &[&[u8]],
) -> Result<Answer, Refusal>
    ensures { Answered (spec.IsAnswerToCheckAgainst options marks (texts parts.now)) result }
{
    let (component, matrix, specification) = exactly_three(parts).ok_or(Refusal::Parts)?;
    let case = read_texts(alloc, component, matrix)?;
    let test = Test {
        component: &case.component,
        matrix: &case.matrix,
    };
    check_test_against_alone(alloc, test, options, marks, specification)
}
