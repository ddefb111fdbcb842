//! Serial runs that a set does not have.

ghost use Rattle.std.specs.Prelude.{IfOk};
ghost use Rattle.lu_machine.specs.Starts.{CanRun};
ghost use Rattle.lu_report.specs.Limits.{IsSerialBound};
ghost use Rattle.lu_serial_graph.specs.Graphs.{members_of};
ghost use Rattle.lu_trie.specs.Conflicts.{IsDeterministic};
ghost use Rattle.lu_survey.specs.Comparing.{IsFirstOtherRun};

use lu_component::Component;
use lu_serial::first_outside_tree;
use lu_serial_graph::{LearntGraph, SerialGraph, learn_graph};
use lu_test::{Matrix, Schedule};
use std::alloc::{AllocError, Global};

/// The least serial run of the component whose history is not in the set, or that does not end
/// within the bound; none where each ends with a history of the set. Asks for a deterministic set.
/// Serial runs are walked only where there is such a run.
pub(crate) fn first_other_run(
    alloc: Global,
    set: &SerialGraph<Global>,
    component: &Component,
    matrix: &Matrix,
    serial: u16,
) -> Result<Option<Schedule>, AllocError>
    requires of { CanRun component.now matrix.now }
    requires serial { IsSerialBound serial }
    requires deterministic { IsDeterministic (members_of set.now) }
    ensures { IfOk result (IsFirstOtherRun (members_of set.now) component.now matrix.now serial) }
{
    match learn_graph(alloc, alloc, component, matrix, serial)? {
        LearntGraph::Set(graph) => {
            if graph.is_subset(alloc, set)? {
                return Ok(None);
            }
            first_outside_tree(alloc, component, matrix, serial, &set)
        }
        LearntGraph::Cut(schedule) => {
            match first_outside_tree(alloc, component, matrix, serial, &set)? {
                Some(outside) => Ok(Some(outside)),
                None => Ok(Some(schedule)),
            }
        }
        // Of two histories that conflict, the set has one at most, so there is a run outside.
        LearntGraph::Conflict { .. } => {
            first_outside_tree(alloc, component, matrix, serial, &set)
        }
    }
}
