//! Cuts that are shared by several workers.

ghost use Rattle.std.specs.Prelude.{◌≡◌, ◌≤◌, IfOk};
ghost use Rattle.lu_machine.specs.Starts.{CanRun};
ghost use Rattle.lu_report.specs.Limits.{IsSerialBound, most_moves};
ghost use Rattle.lu_certify.specs.Limited.{AreAllFoundIn, AreFoundIn, AreKnownIn};

use crate::claims::{Claims, End};
use crate::cuts::count_cuts;
use crate::known::known_by;
use crate::limited::LimitedTest;
use crate::looked::{Found, FoundAt};
use crate::looking::look_at_cuts;
use crate::progress::Progress;
use lu_graph::{Alone, ByThreads};
use lu_parallel::CheckFault;
use std::alloc::Global;
use std::sync::Wait;
use std::thread;
use std::thread::{Promise, PromisedHandle, Scope, Threads, join_promised};

/// The most cuts of a matrix that are shared: what is found of each is kept until all are done.
const MOST_SHARED: u64 = 65_536;

/// What a worker's thread hands back is what it found of the cuts that it took.
impl<'a> Promise<Vec<FoundAt>> for LimitedTest<'a> {
    ghost kept_by = { λ test found. AreFoundIn test found };
}

/// Joins each of these threads, and lets go of what it found.
fn join_each<R: Threads>(rt: &R, children: Vec<PromisedHandle<Vec<FoundAt>, LimitedTest<'_>>>) {
    for child in children {
        drop(child.join(rt));
    }
}

/// Runs this many workers: all but one in threads of this scope, which take tasks from the first
/// on, and one on the calling thread, which takes them from the last on, and whose searches are
/// helped by the threads of those that have nothing left to take. Each that was started is joined,
/// also where a start was refused.
fn run_in<'s, E, R: Threads + Wait, P: Progress>(
    scope: &Scope<'s, E>,
    rt: &R,
    alloc: Global,
    test: LimitedTest<'s>,
    claims: &'s Claims,
    progress: &'s P,
    workers: u8,
) -> Result<Vec<Vec<FoundAt>>, CheckFault>
    ensures { IfOk result (AreAllFoundIn test.entry) }
{
    let LimitedTest {
        component,
        matrix,
        limits,
    } = test;
    let mut children = Vec::with_capacity(alloc, usize::from(workers))?;
    for _ in 1..workers {
        let started = scope.spawn_with(
            test,
            move || -> Vec<FoundAt>
                requires of { CanRun component.now matrix.now }
                requires bound { limits.bound ≤ most_moves }
                requires serial { IsSerialBound limits.serial }
            {
                let test = LimitedTest {
                    component,
                    matrix,
                    limits,
                };
                look_at_cuts(alloc, test, claims, End::First, progress, &Alone)
            },
        );
        match started {
            Ok(child) => children.push_reserved(child),
            Err(_) => {
                join_each(rt, children);
                return Err(CheckFault::Worker);
            }
        }
    }
    let expanders = ByThreads {
        rt,
        helpers: claims,
    };
    let mine = look_at_cuts(alloc, test, claims, End::Last, progress, &expanders);
    match join_promised(rt, children) {
        Ok(mut found) => match found.push(mine) {
            Ok(()) => Ok(found),
            Err(_) => Err(CheckFault::Memory),
        },
        Err(failed) => {
            join_each(rt, failed.value);
            Err(CheckFault::Memory)
        }
    }
}

/// Runs this many workers in threads of their own.
fn run_workers<R: Threads + Wait, P: Progress>(
    rt: &R,
    alloc: Global,
    test: LimitedTest<'_>,
    claims: &Claims,
    progress: &P,
    workers: u8,
) -> Result<Vec<Vec<FoundAt>>, CheckFault>
    ensures { IfOk result (AreAllFoundIn test.entry) }
{
    let LimitedTest {
        component,
        matrix,
        limits,
    } = test;
    thread::scope(
        thread::scope_env(),
        rt,
        |scope| -> Result<Vec<Vec<FoundAt>>, CheckFault>
            requires of { CanRun component.now matrix.now }
            requires bound { limits.bound ≤ most_moves }
            requires serial { IsSerialBound limits.serial }
        {
            let test = LimitedTest {
                component,
                matrix,
                limits,
            };
            run_in(scope, rt, alloc, test, claims, progress, workers)
        },
    )
}

/// What this many workers find of the cuts of the matrix, in the order of their numbers. Where
/// there are too many cuts, nothing is known.
pub(crate) fn look_by_workers<R: Threads + Wait, P: Progress>(
    rt: &R,
    alloc: Global,
    progress: &P,
    test: LimitedTest<'_>,
    workers: u8,
) -> Result<Vec<Found>, CheckFault>
    ensures { IfOk result (AreKnownIn test.entry) }
{
    let cuts = count_cuts(test.matrix);
    if cuts > MOST_SHARED {
        return Ok(Vec::new(alloc));
    }
    let claims = Claims::new();
    let found = run_workers(rt, alloc, test, &claims, progress, workers)?;
    Ok(known_by(alloc, cuts, found)?)
}
