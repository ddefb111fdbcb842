//! Workers in threads of their own.

ghost use Rattle.std.specs.Prelude.{◌≡◌, ◌≤◌, IfOk, All, vec_len};
ghost use Rattle.lu_board.specs.declared.view.TheConstants.{MAX_WORKERS};
ghost use Rattle.lu_parallel.specs.Works.{AreWorksFor, IsFresh, IsJob, IsLent, IsWorkFor};

use crate::fault::CheckFault;
use crate::gate::Gate;
use crate::worker::{Job, work};
use crate::works::Work;
use lu_board::Seat;
use lu_machine::Test;
use lu_tree::SearchSpace;
use lu_trie::SerialTree;
use std::sync::Wait;
use std::thread;
use std::thread::{Promise, PromisedHandle, Scope, Threads, join_promised};

/// What a worker's thread hands back is the work of its seat.
impl<'a, T: SerialTree, G: Gate> Promise<Work> for Job<'a, T, G> {
    ghost kept_by = { λ job w. IsWorkFor job (T.members job.tree.now) w };
}

/// Joins each of these threads, and lets go of its work.
fn join_each<R: Threads, T: SerialTree, G: Gate>(
    rt: &R,
    children: Vec<PromisedHandle<Work, Job<'_, T, G>>>,
) {
    for child in children {
        drop(child.join(rt));
    }
}

/// Runs a worker in a thread of this scope for each seat. Each that was started is joined, also
/// where a start was refused.
fn run_in<'s, E, R: Threads, T: SerialTree + Sync, G: Gate>(
    scope: &Scope<'s, E>,
    rt: &R,
    job: Job<'s, T, G>,
    seats: Vec<Seat>,
) -> Result<Vec<Work>, CheckFault>
where
    T::Place: Send + Sync,
    requires job { IsLent job }
    requires fresh { All (IsFresh job.board.now.board) seats.items }
    requires few { vec_len seats ≤ MAX_WORKERS }
    ensures all { IfOk result (λ works. vec_len works ≡ vec_len seats) }
    ensures each { AreWorksFor job.entry (T.members job.entry.tree.now) result }
{
    let Job {
        space,
        tree,
        pieces,
        board,
        gate,
    } = job;
    let SearchSpace { alloc, test, bound } = space;
    let Test { component, matrix } = test;
    let mut children = Vec::with_capacity(alloc, seats.len())?;
    let mut number = 0u8;
    for seat in seats {
        let started = scope.spawn_with(
            job,
            move || -> Work
                requires job { IsJob component.now matrix.now bound pieces.now board.now }
                requires fresh { IsFresh board.now.board seat }
            {
                work(
                    alloc, component, matrix, tree, pieces, bound, board, seat, gate, number,
                )
            },
        );
        match started {
            Ok(child) => children.push_reserved(child),
            Err(_) => {
                join_each(rt, children);
                return Err(CheckFault::Worker);
            }
        }
        number += 1;
    }
    match join_promised(rt, children) {
        Ok(works) => Ok(works),
        Err(failed) => {
            join_each(rt, failed.value);
            Err(CheckFault::Memory)
        }
    }
}

/// Runs a worker in a thread of its own for each seat. The works stand in the order of the seats.
pub(crate) fn run_workers<R: Threads + Wait, T: SerialTree + Sync, G: Gate>(
    rt: &R,
    job: Job<'_, T, G>,
    seats: Vec<Seat>,
) -> Result<Vec<Work>, CheckFault>
where
    T::Place: Send + Sync,
    requires job { IsLent job }
    requires fresh { All (IsFresh job.board.now.board) seats.items }
    requires few { vec_len seats ≤ MAX_WORKERS }
    ensures all { IfOk result (λ works. vec_len works ≡ vec_len seats) }
    ensures each { AreWorksFor job.entry (T.members job.entry.tree.now) result }
{
    let Job {
        space,
        tree,
        pieces,
        board,
        gate,
    } = job;
    let SearchSpace { alloc, test, bound } = space;
    let Test { component, matrix } = test;
    thread::scope(
        thread::scope_env(),
        rt,
        |scope| -> Result<Vec<Work>, CheckFault>
            requires job { IsJob component.now matrix.now bound pieces.now board.now }
            requires fresh { All (IsFresh board.now.board) seats.items }
            requires few { vec_len seats ≤ MAX_WORKERS }
        {
            let space = SearchSpace {
                alloc,
                test: Test { component, matrix },
                bound,
            };
            let job = Job {
                space,
                tree,
                pieces,
                board,
                gate,
            };
            run_in(scope, rt, job, seats)
        },
    )
}
