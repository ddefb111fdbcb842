//! What the serial runs of a matrix show, with their histories as a graph.

ghost use Rattle.std.specs.Prelude.{◌≤◌, IfNone, IfOk, IfSome, OnOk};
ghost use Rattle.lu_component.specs.Component.{IsComponent};
ghost use Rattle.lu_machine.specs.declared.TheConstants.{MOST_MOVES};
ghost use Rattle.lu_machine.specs.Starts.{CanRun};
ghost use Rattle.lu_machine.specs.Tests.{FromEachStartOf, IsStartOf};
ghost use Rattle.lu_serial.specs.Offences.{IsSetOf};
ghost use Rattle.lu_serial_graph.specs.Exploring.{Offends};
ghost use Rattle.lu_serial_graph.specs.Graphs.{members_of};
ghost use Rattle.lu_serial_graph.specs.Learning.{LearnsGraph};
ghost use Rattle.lu_test.specs.Matrix.{IsMatrix};

use crate::exploring::{Rests, Search, explore};
use crate::graph::{SerialGraph, Table};
use indexmap::IndexMap;
use lu_component::Component;
use lu_history::SerialOutcome;
use lu_machine::{Machine, Test};
use lu_serial::{Learnt, learn};
use lu_test::{Matrix, Schedule};
use std::alloc::{AllocError, Allocator, Global};

/// More than the calls of any matrix.
const MORE_THAN_CALLS: u16 = 17;

/// What the serial runs of a matrix show.
#[derive(Drop)]
pub enum LearntGraph<A: Allocator> {
    /// There is no serial offence, and these are the histories of all serially ended schedules.
    Set(SerialGraph<A>),

    /// The least serial offence is this schedule, which is cut.
    Cut(Schedule),

    /// The least serial offence is this schedule, which ends with a conflict, as in
    /// [`Learnt::Conflict`].
    Conflict {
        schedule: Schedule,
        before: usize,
        earlier: SerialOutcome,
    },
}

/// The graph of the serial histories, or none where some serial run offends.
fn graph_of<A: Allocator + Clone>(
    alloc: Global,
    set_alloc: A,
    test: Test<'_>,
    machine: Machine<'_>,
    bound: u16,
) -> Result<Option<SerialGraph<A>>, AllocError>
    requires start { IsStartOf test machine }
    requires few { bound ≤ MOST_MOVES }
    ensures graph { FromEachStartOf test.entry (λ s.
        IfOk result (λ g. IfSome g (λ graph. IsSetOf s bound (members_of graph)))) }
    ensures offence { IfOk result
        (λ g. IfNone g (Offends test.entry.component.now test.entry.matrix.now bound)) }
{
    let mut positions = Vec::new(alloc);
    positions.push(machine.position(alloc)?)?;
    let mut search = Search {
        alloc,
        machine,
        bound,
        table: Table::new(set_alloc)?,
        known: IndexMap::new(alloc),
    };
    match explore(&mut search, false, Rests { positions }, MORE_THAN_CALLS)? {
        None => Ok(None),
        Some(root) => Ok(Some(SerialGraph::of(search.table, root))),
    }
}

/// The least serial offence, where there is one.
fn offence_of<A: Allocator + Clone>(
    alloc: Global,
    set_alloc: A,
    component: &Component,
    matrix: &Matrix,
    bound: u16,
) -> Result<LearntGraph<A>, AllocError>
    requires of { CanRun component.now matrix.now }
    requires some { 1 ≤ bound }
    requires few { bound ≤ MOST_MOVES }
    requires offence { Offends component.now matrix.now bound }
    ensures { LearnsGraph component.now matrix.now bound result }
{
    match learn(alloc, set_alloc, component, matrix, bound)? {
        Learnt::Set(_) => unreachable!(),
        Learnt::Cut(schedule) => Ok(LearntGraph::Cut(schedule)),
        Learnt::Conflict {
            schedule,
            before,
            earlier,
        } => Ok(LearntGraph::Conflict {
            schedule,
            before,
            earlier,
        }),
    }
}

/// What the serial runs of the component and the matrix show: the histories of all serially ended
/// schedules, as a graph, or else the least serial offence. `bound`, 1 to 256, is the number of
/// moves that an operation may take after its call (Burckhardt, Dern, Musuvathi and Tan, 2010).
/// `set_alloc` is the allocator of the graph, and of the histories before an offence; all else is
/// taken from `alloc`. The matrix has to be one of the component (`Matrix::of`).
///
/// [`learn`] gives the same set as a list. Histories that continue alike share one node of the
/// graph, so it can be small where the list is long. An offence takes as long as with [`learn`].
///
/// [`learn_graph_from`] is for a caller that has a machine at the start of a run.
///
/// # Errors
///
/// `AllocError` where memory was refused.
pub fn learn_graph<A: Allocator + Clone>(
    alloc: Global,
    set_alloc: A,
    component: &Component,
    matrix: &Matrix,
    bound: u16,
) -> Result<LearntGraph<A>, AllocError>
    requires of { CanRun component.now matrix.now }
    requires some { 1 ≤ bound }
    requires few { bound ≤ MOST_MOVES }
    ensures learnt { LearnsGraph component.now matrix.now bound result }
    ensures limits { OnOk result (IsComponent component.now × IsMatrix matrix.now) }
{
    let machine = Machine::start(alloc, component, matrix)?;
    let test = Test { component, matrix };
    learn_graph_from(alloc, set_alloc, test, machine, bound)
}

/// The same as [`learn_graph`] for this test, by a machine that is at the start of a run.
///
/// # Errors
///
/// `AllocError` where memory was refused.
pub fn learn_graph_from<A: Allocator + Clone>(
    alloc: Global,
    set_alloc: A,
    test: Test<'_>,
    machine: Machine<'_>,
    bound: u16,
) -> Result<LearntGraph<A>, AllocError>
    requires start { IsStartOf test machine }
    requires some { 1 ≤ bound }
    requires few { bound ≤ MOST_MOVES }
    ensures { LearnsGraph test.entry.component.now test.entry.matrix.now bound result }
{
    match graph_of(alloc, set_alloc.clone()?, test, machine, bound)? {
        Some(graph) => Ok(LearntGraph::Set(graph)),
        None => offence_of(alloc, set_alloc, test.component, test.matrix, bound),
    }
}
