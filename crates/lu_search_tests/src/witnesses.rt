//! Verdicts on the histories of schedules, over the serial histories of their matrix.

ghost use Rattle.lu_machine.specs.Starts.{CanRun};

use crate::serial_runs::serial_histories;
use lu_fixtures::{Fixture, ROWS, fixture_of};
use lu_history::History;
use lu_replay::{Replay, replay};
use lu_test::read_schedule;
use lu_trie::{PackedTrie, SerialTree, Trie};
use lu_witness::{Verdict, has_witness, verdict};
use std::alloc::Global;
use std::process::Abort;
use std::test::Fail;

/// Thread 0 sets a cell to 1 and back to 0; thread 1 sets another cell to 1 where the first one is
/// 0; thread 2 reads that.
const OVERTAKEN: &[u8] = b"thread hold\nthread put\nthread get\n";

/// Thread 0 waits for what never comes; threads 1 and 2 take two locks, in opposite orders.
const WAITING: &[u8] = b"thread take\nthread mn\nthread nm\n";

/// Two threads take a lock that nobody frees.
const LOCKED: &[u8] = b"thread acquire\nthread acquire\n";

/// Two threads count up by one, and answer the new number.
const COUNTED: &[u8] = b"thread inc\nthread inc\n";

/// A matrix and a schedule: the verdict on its history, and whether that has a witness, with its
/// pending call as stuck.
const JUDGED: &[(&[u8], &[u8], Verdict, bool)] = &[
    // Precedence alone refuses.
    (
        OVERTAKEN,
        b"schedule 0 0 1 1 0 0 1 1 2 2 2\n",
        Verdict::NoWitness,
        false,
    ),
    (
        OVERTAKEN,
        b"schedule 0 0 1 1 0 0 2 1 1 2 2\n",
        Verdict::Good,
        true,
    ),
    // Each pending call needs a witness.
    (
        WAITING,
        b"schedule 0 1 1 2 2\n",
        Verdict::NoWitnessFor(1),
        false,
    ),
    (WAITING, b"schedule 0 1 1 1 1 1 1\n", Verdict::Good, true),
    // A taken lock is waited for.
    (LOCKED, b"schedule 0 0 0 1\n", Verdict::Good, true),
    (LOCKED, b"schedule 0 1\n", Verdict::NoWitnessFor(0), false),
    // A lost update has no witness.
    (
        COUNTED,
        b"schedule 0 0 0 0 0 1 1 1 1 1\n",
        Verdict::Good,
        true,
    ),
    (
        COUNTED,
        b"schedule 0 0 1 1 0 0 0 1 1 1\n",
        Verdict::NoWitness,
        false,
    ),
];

/// The verdict on the history over the tree is this one, and so is whether it has a witness.
fn assert_judged<T: SerialTree>(
    rt: &impl Abort,
    tree: &T,
    history: &History,
    wanted: Verdict,
    witness: bool,
) {
    assert!(rt; verdict(tree, history) == wanted);
    assert!(rt; has_witness(tree, history) == witness);
}

/// The same over the set, and over the packed set.
fn assert_judged_by(
    rt: &(impl AllocGlobal + Abort),
    set: &Trie<Global>,
    history: &History,
    wanted: Verdict,
    witness: bool,
) -> Result<(), Fail> {
    let packed = PackedTrie::pack(rt.alloc(), set)?;
    assert_judged(rt, &set, history, wanted, witness);
    assert_judged(rt, &&packed, history, wanted, witness);
    Ok(())
}

/// What the schedule shows.
fn replayed(rt: &impl AllocGlobal, case: &Fixture, schedule: &[u8]) -> Result<Replay, Fail>
    requires { CanRun case.now.component case.now.matrix }
{
    let schedule = read_schedule(rt.alloc(), schedule)?;
    Ok(replay(rt.alloc(), &case.component, &case.matrix, &schedule)?)
}

/// The same for the history of a schedule, over the serial histories of its case.
fn assert_case_judged(
    rt: &(impl AllocGlobal + Abort),
    case: &Fixture,
    schedule: &[u8],
    wanted: Verdict,
    witness: bool,
) -> Result<(), Fail>
    requires { CanRun case.now.component case.now.matrix }
{
    let shown = replayed(rt, case, schedule)?;
    let set = serial_histories(rt, case)?;
    assert_judged_by(rt, &set, &shown.history, wanted, witness)
}

/// The same for the matrix of this text.
fn assert_matrix_judged(
    rt: &(impl AllocGlobal + Abort),
    matrix: &[u8],
    schedule: &[u8],
    wanted: Verdict,
    witness: bool,
) -> Result<(), Fail> {
    let case = fixture_of(rt, ROWS.as_bytes(), matrix)?;
    assert_case_judged(rt, &case, schedule, wanted, witness)
}

#[test]
fn histories_have_their_verdicts(rt: HostRuntime) -> Result<(), Fail> {
    for (matrix, schedule, wanted, witness) in JUDGED {
        assert_matrix_judged(&rt, matrix, schedule, *wanted, *witness)?;
    }
    Ok(())
}
