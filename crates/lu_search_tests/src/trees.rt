//! What is found below schedules of one component, over serial histories, and its frontiers.

ghost use Rattle.std.specs.Prelude.{IfOk};
ghost use Rattle.lu_machine.specs.Schedules.{IsSchedule};
ghost use Rattle.lu_machine.specs.Starts.{CanRun, FromEachStart};

use crate::serial_runs::{assert_spelled, set_of};
use lu_fixtures::{Fixture, ROWS, fixture_of};
use lu_machine::Counts;
use lu_replay::replay;
use lu_test::{Schedule, read_schedule};
use lu_tree::{Found, frontier, search};
use lu_trie::Trie;
use lu_witness::Why;
use std::alloc::Global;
use std::process::Abort;
use std::test::Fail;

/// The schedule of this text, each move of which is feasible.
pub(crate) fn beginning(
    rt: &impl AllocGlobal,
    case: &Fixture,
    text: &[u8],
) -> Result<Schedule, Fail>
    requires { CanRun case.now.component case.now.matrix }
    ensures { FromEachStart case.now.component case.now.matrix (λ s. IfOk result (IsSchedule s)) }
{
    let schedule = read_schedule(rt.alloc(), text)?;
    replay(rt.alloc(), &case.component, &case.matrix, &schedule)?;
    Ok(schedule)
}

/// What is found below the schedule of this text over the set.
fn found_below(
    rt: &(impl AllocGlobal + Abort),
    case: &Fixture,
    set: &Trie<Global>,
    from: &[u8],
    bound: u16,
) -> Result<Found, Fail>
    requires { CanRun case.now.component case.now.matrix }
{
    let from = beginning(rt, case, from)?;
    assert!(rt; bound <= 256);
    assert!(rt; from.moves().len() <= usize::from(bound));
    Ok(search(
        rt.alloc(),
        &case.component,
        &case.matrix,
        &set,
        &from,
        bound,
    )?)
}

/// The same for the matrix of this text, over the serial histories of the other one.
fn found(
    rt: &(impl AllocGlobal + Abort),
    matrix: &[u8],
    other: &[u8],
    from: &[u8],
    bound: u16,
) -> Result<Found, Fail> {
    let set = set_of(rt, ROWS.as_bytes(), other)?;
    let case = fixture_of(rt, ROWS.as_bytes(), matrix)?;
    found_below(rt, &case, &set, from, bound)
}

/// All schedules are found good: this many are complete and this many are cut, and none is stuck.
pub(crate) fn assert_clean(rt: &impl Abort, found: &Found, complete: u64, cut: u64) {
    match found {
        Found::Clean(counts) => assert_eq!(rt;
            *counts,
            Counts {
                complete,
                stuck: 0,
                cut
            }
        ),
        Found::Bad { .. } | Found::Abandoned => panic!(rt; "not all are good"),
    }
}

/// The least bad schedule is this one, and is bad for this reason.
pub(crate) fn assert_bad(
    rt: &(impl AllocGlobal + Abort),
    found: &Found,
    text: &str,
    reason: Why,
) -> Result<(), Fail> {
    match found {
        Found::Bad { schedule, why } => {
            assert!(rt; *why == reason, "{text}");
            assert_spelled(rt, schedule, text)
        }
        Found::Clean(_) | Found::Abandoned => panic!(rt; "no bad schedule"),
    }
}

const NO_CALLS: &[u8] = b"thread\n";

const GETS: &[u8] = b"thread get\nthread get\n";

const THREE_GETS: &[u8] = b"thread get\nthread get\nthread get\n";

const SPINS: &[u8] = b"thread spin\nthread spin\n";

const INCREMENTS: &[u8] = b"thread inc\nthread inc\n";

/// A matrix, the one whose serial histories are the set, a beginning and a bound: how many
/// schedules below are complete, and how many are cut.
const BELOW: &[(&[u8], &[u8], &[u8], u16, u64, u64)] = &[
    // Four moves are left, of which one is of thread 0, or two.
    (GETS, GETS, b"schedule 0 0\n", 40, 4, 0),
    (GETS, GETS, b"schedule 0 1\n", 40, 6, 0),
    (GETS, GETS, b"schedule 0 1\n", 2, 0, 1),
    (GETS, GETS, b"schedule 1 1 1 0 0 0\n", 6, 1, 0),
    // Five moves are left, of which two are of thread 0.
    (THREE_GETS, THREE_GETS, b"schedule 0 1 1 1\n", 40, 10, 0),
    // Each of two threads can always move: 2 to the 17th.
    (SPINS, NO_CALLS, b"schedule 0 1 1\n", 20, 0, 131_072),
];

#[test]
fn schedules_below_are_counted(rt: HostRuntime) -> Result<(), Fail> {
    for (matrix, other, from, bound, complete, cut) in BELOW {
        assert_clean(
            &rt,
            &found(&rt, matrix, other, from, *bound)?,
            *complete,
            *cut,
        );
    }
    Ok(())
}

/// Both read the counter before either writes it.
#[test]
fn a_lost_update_is_found_below(rt: HostRuntime) -> Result<(), Fail> {
    let found = found(&rt, INCREMENTS, INCREMENTS, b"schedule 1\n", 40)?;
    assert_bad(&rt, &found, "schedule 1 0 0 0 1 0 0 1 1 1\n", Why::Complete)
}

/// The pieces of a frontier.
fn pieces_of(
    rt: &(impl AllocGlobal + Abort),
    matrix: &[u8],
    bound: u16,
    depth: u8,
) -> Result<Vec<Schedule>, Fail> {
    let case = fixture_of(rt, ROWS.as_bytes(), matrix)?;
    assert!(rt; bound <= 256 && depth <= 8);
    Ok(frontier(rt.alloc(), &case.component, &case.matrix, bound, depth)?)
}

/// Six moves of eight threads would be 262,144 schedules.
const EIGHT_SPINS: &[u8] = b"thread spin
thread spin
thread spin
thread spin
thread spin
thread spin
thread spin
thread spin
";

/// A matrix, a bound and a depth: how many pieces the frontier has, and how many moves each.
const FRONTIERS: &[(&[u8], u16, u8, usize, usize)] = &[
    (GETS, 40, 0, 1, 0),
    (GETS, 40, 2, 4, 2),
    (GETS, 40, 4, 14, 4),
    (GETS, 40, 8, 20, 6),
    (GETS, 3, 8, 8, 3),
    (EIGHT_SPINS, 40, 8, 32_768, 5),
];

#[test]
fn frontiers(rt: HostRuntime) -> Result<(), Fail> {
    for (matrix, bound, depth, count, moves) in FRONTIERS {
        let pieces = pieces_of(&rt, matrix, *bound, *depth)?;
        assert!(rt; pieces.len() == *count, "{count}");
        assert!(rt; pieces.iter().all(|piece| piece.moves().len() == *moves));
    }
    Ok(())
}

/// A schedule that is ended above the depth is a piece of its own.
#[test]
fn ended_piece(rt: HostRuntime) -> Result<(), Fail> {
    let pieces = pieces_of(&rt, b"thread take\n", 40, 4)?;
    assert!(rt; pieces.len() == 1);
    assert_spelled(&rt, &pieces[0], "schedule 0\n")
}
