//! What the serial runs of a matrix come to.

ghost use Rattle.std.specs.Prelude.{IfErr, IfOk};
ghost use Rattle.lu_report.specs.Parts.{IsOfOffence};
ghost use Rattle.lu_replay.specs.Reports.{IsGraphOffence, IsGraphSet};
ghost use Rattle.lu_serial_graph.specs.Graphs.{members_of};

use lu_report::Finding;
use lu_serial_graph::{LearntGraph, SerialGraph};
use std::alloc::Allocator;

/// The graph of the serial histories, where no serial run offends.
///
/// # Errors
///
/// What a check finds where one does: the least serial offence.
pub fn graph_or_offence<A: Allocator>(learnt: LearntGraph<A>) -> Result<SerialGraph<A>, Finding>
    ensures set { IfOk result (λ graph. IsGraphSet learnt (members_of graph)) }
    ensures offence { IfErr result (IsGraphOffence learnt) }
    ensures serial { IfErr result IsOfOffence }
{
    match learnt {
        LearntGraph::Set(graph) => Ok(graph),
        LearntGraph::Cut(schedule) => Err(Finding::SerialCut(schedule)),
        LearntGraph::Conflict {
            schedule,
            before,
            earlier,
        } => Err(Finding::Nondeterministic {
            schedule,
            before,
            earlier,
        }),
    }
}
