//! A check by many workers.

ghost use Rattle.std.specs.Prelude.{◌≡◌, ◌≤◌, ◌<◌, IfOk, IfErr, IfSome, OnOk};
ghost use Rattle.lu_test.specs.Matrix.{IsMatrix};
ghost use Rattle.lu_machine.specs.Starts.{CanRun};
ghost use Rattle.lu_machine.specs.Tests.{IsStartOf};
ghost use Rattle.lu_report.specs.Limits.{most_moves};
ghost use Rattle.lu_replay.specs.Reports.{IsReport};
ghost use Rattle.lu_parallel.specs.Findings.{FindsFromStarts, FindsAgainst, MayFindAgainst, ReportsAsAsked};
ghost use Rattle.lu_parallel.specs.declared.fault.CheckFault.TheVariants.{Memory};

use crate::conclusion::conclude;
use crate::fault::CheckFault;
use crate::gate::Gate;
use crate::head_start::HeadStart;
use crate::one_thread::{finding_of, search_all};
use crate::options::Options;
use crate::worker::{Job, REMEMBERED};
use crate::worker_threads::run_workers;
use lu_board::Board;
use lu_component::Component;
use lu_machine::{Machine, Test};
use lu_replay::graph_or_offence;
use lu_report::{Finding, Report};
use lu_serial_graph::learn_graph_from;
use lu_test::{Matrix, Schedule};
use lu_tree::{SearchSpace, Searcher, Watch, frontier};
use lu_trie::SerialTree;
use lu_witness::Cache;
use std::alloc::{AllocError, Global};
use std::sync::Wait;
use std::thread::Threads;

/// What is checked, how, and with what.
#[derive(Drop)]
struct Checking<'a, R, G> {
    rt: &'a R,
    gate: &'a G,
    space: SearchSpace<'a>,
    options: Options,
    ghost few: { space.bound ≤ most_moves },
}

/// What the workers find against the set of a tree.
fn search_by_workers<R: Threads + Wait, G: Gate, T: SerialTree + Sync>(
    check: &Checking<'_, R, G>,
    tree: &T,
) -> Result<Finding, CheckFault>
where
    T::Place: Send + Sync,
    ensures found { FindsAgainst check.now.space (T.members tree.now) result }
    ensures limits { OnOk result (IsMatrix check.now.space.test.matrix.now) }
{
    let space = check.space;
    let depth = check.options.depth();
    let pieces = frontier(
        space.alloc,
        space.test.component,
        space.test.matrix,
        space.bound,
        depth,
    )?;
    let workers = u64::from(check.options.workers());
    let count = pieces.len() as u64;
    check.gate.begin(count);
    let (board, seats) = Board::new(space.alloc, count, workers)?;
    let job = Job {
        space,
        tree,
        pieces: &pieces,
        board: &board,
        gate: check.gate,
    };
    let works = run_workers(check.rt, job, seats)?;
    match conclude(space.alloc, board, works)? {
        Some(found) => Ok(finding_of(found).unwrap()),
        None => Err(CheckFault::Memory),
    }
}

/// What the calling thread finds alone against the set of a tree, with the head start: none where
/// that is over before the search. The machine is at the start of a run.
fn search_ahead<'a, R, G: Gate, T: SerialTree>(
    check: &Checking<'a, R, G>,
    machine: Machine<'a>,
    tree: &T,
) -> Result<Option<Finding>, AllocError>
    requires start { IsStartOf check.now.space.test machine }
    ensures found { MayFindAgainst check.now.space (T.members tree.now) result }
    ensures limits { IfOk result (λ f. IfSome f (λ _. IsMatrix check.now.space.test.matrix.now)) }
{
    let looks = check.options.head_start();
    if looks == 0 {
        return Ok(None);
    }
    let space = &check.space;
    let whole = Schedule::new(Vec::new(space.alloc));
    let mut searcher = Searcher::from_start(*space, machine, tree)?;
    let mut cache = Cache::new(space.alloc, tree, REMEMBERED)?;
    let mut watch = HeadStart::new(check.gate, looks);
    let found = searcher.search(&mut cache, &whole, &mut watch)?;
    Ok(finding_of(found))
}

/// What is found against the set of a tree. One worker searches all schedules on the calling
/// thread, which does so for several too, as far as their head start goes, by a machine that is at
/// the start of a run. Workers that are started make machines of their own.
fn search_tree<'a, R: Threads + Wait, G: Gate, T: SerialTree + Sync>(
    check: &Checking<'a, R, G>,
    machine: Machine<'a>,
    tree: &T,
) -> Result<Finding, CheckFault>
where
    T::Place: Send + Sync,
    requires start { IsStartOf check.now.space.test machine }
    ensures found { FindsAgainst check.now.space (T.members tree.now) result }
    ensures limits { OnOk result (IsMatrix check.now.space.test.matrix.now) }
    ensures alone { IfErr result (λ fault. check.now.options.workers ≡ 1 → fault ≡ Memory) }
{
    if check.options.workers() == 1 {
        let finding = search_all(&check.space, machine, tree, check.gate)?;
        return Ok(finding);
    }
    match search_ahead(check, machine, tree)? {
        Some(finding) => Ok(finding),
        None => search_by_workers(check, tree),
    }
}

/// The least serial offence, or what is found among all schedules. All workers read one graph of the
/// serial histories. The setup is run once, and once more by each worker that is started.
fn find<R: Threads + Wait, G: Gate>(check: &Checking<'_, R, G>) -> Result<Finding, CheckFault>
    ensures found { FindsFromStarts check.now.space check.now.options.serial result }
    ensures limits { OnOk result (IsMatrix check.now.space.test.matrix.now) }
    ensures alone { IfErr result (λ fault. check.now.options.workers ≡ 1 → fault ≡ Memory) }
{
    let SearchSpace { alloc, test, .. } = check.space;
    let serial = check.options.serial();
    let machine = Machine::start(alloc, test.component, test.matrix)?;
    let copy = machine.try_clone(alloc)?;
    match graph_or_offence(learn_graph_from(alloc, alloc, test, copy, serial)?) {
        Ok(graph) => search_tree(check, machine, &&graph),
        Err(offence) => Ok(offence),
    }
}

/// The report of a component and a matrix (Burckhardt, Dern, Musuvathi and Tan, 2010), by as many
/// workers as the options say. It is the same for any number of workers, any depth and any head
/// start. One worker searches on the calling thread: no thread is started, and of the gate only
/// `judge` is called. Before there are more of them, the calling thread searches alone while the head start
/// lasts, and where it comes to the end, all is as with one. Else each of them has a thread, where
/// they claim pieces: the schedules of `depth` moves, and the ended ones of fewer. The calling
/// thread waits until they are done.
///
/// # Errors
///
/// [`CheckFault::Memory`] where memory was refused. [`CheckFault::Worker`] where the start of a
/// thread was refused, and never with one worker.
pub fn check<R: Threads + Wait, G: Gate>(
    rt: &R,
    alloc: Global,
    gate: &G,
    component: &Component,
    matrix: &Matrix,
    options: Options,
) -> Result<Report, CheckFault>
    requires of { CanRun component.now matrix.now }
    ensures report { IfOk result (IsReport component.now matrix.now options.bound options.serial) }
    ensures alone { IfErr result (λ fault. options.workers ≡ 1 → fault ≡ Memory) }
{
    let bound = options.bound();
    let space = SearchSpace {
        alloc,
        test: Test { component, matrix },
        bound,
    };
    let finding = find(&Checking {
        rt,
        gate,
        space,
        options,
    })?;
    Ok(Report::new(bound, options.serial(), component.local(), finding))
}

/// The report of a component and a matrix against the set of a tree, as a specification lends it,
/// by as many workers as the options say. No serial run is made, and the options' bound of serial
/// runs has no effect. Else it is as [`check`]: the report is the same for any number of workers,
/// any depth and any head start. The calling thread waits until the workers are done.
///
/// # Errors
///
/// As those of [`check`].
pub fn check_against<R: Threads + Wait, G: Gate, T: SerialTree + Sync>(
    rt: &R,
    alloc: Global,
    gate: &G,
    component: &Component,
    matrix: &Matrix,
    tree: &T,
    options: Options,
) -> Result<Report, CheckFault>
where
    T::Place: Send + Sync,
    requires of { CanRun component.now matrix.now }
    ensures report { ReportsAsAsked component.now matrix.now (T.members tree.now) options result }
    ensures alone { IfErr result (λ fault. options.workers ≡ 1 → fault ≡ Memory) }
{
    let bound = options.bound();
    let space = SearchSpace {
        alloc,
        test: Test { component, matrix },
        bound,
    };
    let check = Checking {
        rt,
        gate,
        space,
        options,
    };
    let machine = Machine::start(alloc, component, matrix)?;
    let finding = search_tree(&check, machine, tree)?;
    Ok(Report::against(bound, component.local(), finding))
}
