//! The serial histories of a component and a matrix.

ghost use Rattle.lu_text.specs.Lines.{texts};
ghost use Rattle.lu_test.specs.Matrix.{IsMatrix};
ghost use Rattle.lu_report.specs.Parts.{IsOfOffence};
ghost use Rattle.lu_serial_graph.specs.Graphs.{members_of};
ghost use Rattle.lu_cli.specs.Refusals.{Answered};
ghost use Rattle.lu_cli.specs.Serial as spec;
ghost use Rattle.lu_cli.specs.Serial.{IsFoundWithin, IsSetAtSomeBound, IsSetFromStarts, ListsFromStarts, ReportsOffence, RunsSerially};

use crate::answer::{Answer, show_report, show_spec};
use crate::refusal::Refusal;
use crate::texts::read_texts;
use lu_machine::Test;
use lu_replay::graph_or_offence;
use lu_report::{Bounds, Finding, Report};
use lu_serial_graph::{SerialGraph, learn_graph};
use lu_spec::Spec;
use lu_text::exactly_two;
use std::alloc::{AllocError, Global};

/// The greatest number of serial histories that are listed. The text of more is longer than a bundle
/// may be: a history has 16 bytes or more where there are several.
pub(crate) const MOST_LISTED: u64 = 65_536;

/// The report of a serial offence.
pub(crate) fn show_offence(
    alloc: Global,
    test: Test<'_>,
    bounds: Bounds,
    finding: Finding,
) -> Result<Answer, AllocError>
    requires limits { IsMatrix test.matrix.now }
    requires offence { IsOfOffence finding }
    requires found { IsFoundWithin test.component.now test.matrix.now bounds finding }
    ensures { ReportsOffence test.entry bounds result }
{
    show_report(
        alloc,
        &Report::new(
            bounds.bound(),
            bounds.serial(),
            test.component.local(),
            finding,
        ),
    )
}

/// The specification of the serial histories, which are those of this graph.
fn list_histories(
    alloc: Global,
    test: Test<'_>,
    graph: &SerialGraph<Global>,
) -> Result<Answer, AllocError>
    requires { IsSetAtSomeBound test (members_of graph.now) }
    ensures { ListsFromStarts test.entry result }
{
    show_spec(alloc, &Spec::closure_of(alloc, test.matrix, &graph)?)
}

/// The specification of the serial histories of this graph, or how many there are.
fn list_or_count(
    alloc: Global,
    test: Test<'_>,
    bounds: Bounds,
    graph: &SerialGraph<Global>,
) -> Result<Answer, Refusal>
    requires { IsSetFromStarts test bounds.serial (members_of graph.now) }
    ensures { RunsSerially test.entry bounds result }
{
    let count = graph.member_count();
    if count > MOST_LISTED {
        return Err(Refusal::Histories(count));
    }
    Ok(list_histories(alloc, test, graph)?)
}

/// The serial histories, or how many there are, or the report of the least serial offence.
fn run_serially(alloc: Global, test: Test<'_>, bounds: Bounds) -> Result<Answer, Refusal>
    ensures { RunsSerially test.entry bounds result }
{
    let learnt = learn_graph(alloc, alloc, test.component, test.matrix, bounds.serial())?;
    match graph_or_offence(learnt) {
        Ok(graph) => list_or_count(alloc, test, bounds, &graph),
        Err(finding) => Ok(show_offence(alloc, test, bounds, finding)?),
    }
}

/// `lineup serial`: component and matrix.
pub(crate) fn answer_serial(
    alloc: Global,
    bounds: Bounds,
    parts: &[&[u8]],
) -> Result<Answer, Refusal>
    ensures { Answered (spec.IsAnswerToSerial bounds (texts parts.now)) result }
{
    let (component, matrix) = exactly_two(parts).ok_or(Refusal::Parts)?;
    let case = read_texts(alloc, component, matrix)?;
    let test = Test {
        component: &case.component,
        matrix: &case.matrix,
    };
    run_serially(alloc, test, bounds)
}
