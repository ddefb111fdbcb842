//! A check on the calling thread.

ghost use Rattle.std.specs.Prelude.{◌≡◌, ◌≤◌, IfOk, OnOk};
ghost use Rattle.lu_test.specs.Matrix.{IsMatrix};
ghost use Rattle.lu_machine.specs.Starts.{CanRun};
ghost use Rattle.lu_machine.specs.Tests.{IsStartOf};
ghost use Rattle.lu_report.specs.Limits.{IsSerialBound, most_moves};
ghost use Rattle.lu_replay.specs.Reports.{IsReport};
ghost use Rattle.lu_parallel.specs.Findings.{FindsFromStarts, FindsAgainst, ReportsAgainst, finding_of};

use crate::counting::Counting;
use crate::gate::{Gate, OpenGate};
use crate::worker::REMEMBERED;
use lu_component::Component;
use lu_machine::{Machine, Test};
use lu_replay::graph_or_offence;
use lu_report::{Finding, Report};
use lu_serial_graph::learn_graph_from;
use lu_test::{Matrix, Schedule};
use lu_tree::{Found, SearchSpace, Searcher};
use lu_trie::SerialTree;
use lu_witness::Cache;
use std::alloc::{AllocError, Allocator, Global};

/// What a search of all schedules finds; none where it was abandoned.
pub(crate) fn finding_of(found: Found) -> Option<Finding>
    ensures { result ≡ finding_of found }
{
    match found {
        Found::Clean(counts) => Some(Finding::Pass(counts)),
        Found::Bad { schedule, why } => Some(Finding::Fail { schedule, why }),
        Found::Abandoned => None,
    }
}

/// What a search of all schedules finds against the set of a tree. The machine is at the start of a
/// run. The gate is told how many schedules are judged.
pub(crate) fn search_all<'a, T: SerialTree, G: Gate>(
    space: &SearchSpace<'a>,
    machine: Machine<'a>,
    tree: &T,
    gate: &G,
) -> Result<Finding, AllocError>
    requires few { space.now.bound ≤ most_moves }
    requires start { IsStartOf space.now.test machine }
    ensures found { FindsAgainst space.now (T.members tree.now) result }
    ensures limits { OnOk result (IsMatrix space.now.test.matrix.now) }
{
    let whole = Schedule::new(Vec::new(space.alloc));
    let mut searcher = Searcher::from_start(*space, machine, tree)?;
    let mut cache = Cache::new(space.alloc, tree, REMEMBERED)?;
    let found = searcher.search(&mut cache, &whole, &mut Counting { gate })?;
    Ok(finding_of(found).unwrap())
}

/// The least serial offence, or what a search of all schedules finds. The setup is run once.
fn find<A: Allocator + Clone>(
    space: &SearchSpace<'_>,
    set_alloc: A,
    serial: u16,
) -> Result<Finding, AllocError>
    requires few { space.now.bound ≤ most_moves }
    requires serial { IsSerialBound serial }
    ensures found { FindsFromStarts space.now serial result }
    ensures limits { OnOk result (IsMatrix space.now.test.matrix.now) }
{
    let SearchSpace { alloc, test, .. } = *space;
    let machine = Machine::start(alloc, test.component, test.matrix)?;
    let copy = machine.try_clone(alloc)?;
    match graph_or_offence(learn_graph_from(alloc, set_alloc, test, copy, serial)?) {
        Ok(graph) => search_all(space, machine, &&graph, &OpenGate),
        Err(offence) => Ok(offence),
    }
}

/// The report of a component and a matrix (Burckhardt, Dern, Musuvathi and Tan, 2010), on the
/// calling thread. Schedules have up to `bound` moves, 0 to 256, and an operation that is run
/// serially takes up to `serial` moves after its call, 1 to 256. The memory of the set of serial
/// histories is taken from `set_alloc`, and all else from `alloc`.
///
/// # Errors
///
/// `AllocError` where memory was refused.
pub fn check_one<A: Allocator + Clone>(
    alloc: Global,
    set_alloc: A,
    component: &Component,
    matrix: &Matrix,
    bound: u16,
    serial: u16,
) -> Result<Report, AllocError>
    requires of { CanRun component.now matrix.now }
    requires bound { bound ≤ most_moves }
    requires serial { IsSerialBound serial }
    ensures { IfOk result (IsReport component.now matrix.now bound serial) }
{
    let space = SearchSpace {
        alloc,
        test: Test { component, matrix },
        bound,
    };
    let finding = find(&space, set_alloc, serial)?;
    Ok(Report::new(bound, serial, component.local(), finding))
}

/// The report of a component and a matrix against the set of a tree, as a specification lends it,
/// on the calling thread. No serial run is made: the schedules of up to `bound` moves, 0 to 256,
/// have their witnesses in that set or not (Burckhardt, Dern, Musuvathi and Tan, 2010).
///
/// # Errors
///
/// `AllocError` where memory was refused.
pub fn check_one_against<T: SerialTree>(
    alloc: Global,
    component: &Component,
    matrix: &Matrix,
    tree: &T,
    bound: u16,
) -> Result<Report, AllocError>
    requires of { CanRun component.now matrix.now }
    requires bound { bound ≤ most_moves }
    ensures { ReportsAgainst component.now matrix.now (T.members tree.now) bound result }
{
    let space = SearchSpace {
        alloc,
        test: Test { component, matrix },
        bound,
    };
    let machine = Machine::start(alloc, component, matrix)?;
    let finding = search_all(&space, machine, tree, &OpenGate)?;
    Ok(Report::against(bound, component.local(), finding))
}
