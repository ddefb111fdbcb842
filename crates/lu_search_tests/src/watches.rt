//! Searches that a watch may call off, and several by one searcher.

ghost use Rattle.std.specs.Prelude.{◌≡◌, false};
ghost use Rattle.lu_machine.specs.Starts.{CanRun};

use crate::serial_runs::set_of;
use crate::trees::{assert_bad, assert_clean, beginning};
use lu_fixtures::{Fixture, ROWS, fixture_of};
use lu_graph::{Alone, Ending, FirstLost, Halted, ends_well_watched, first_lost_watched};
use lu_machine::Test;
use lu_tree::{Found, SearchSpace, Searcher, Unwatched, Watch, search_watched};
use lu_trie::{PackedTrie, SerialTree};
use lu_witness::{Cache, Why};
use std::alloc::Global;
use std::process::Abort;
use std::test::Fail;

/// A watch that stops at a question, if it is asked so often.
#[derive(Drop)]
struct Patience {
    last: u32,
    asked: u32,
    stopped: bool,
}

impl Watch for Patience {
    ghost use Rattle.std.specs.Prelude.{false};

    type Base = ();

    ghost base = { λ _. tt };

    ghost is_stopped = { λ w. w.stopped };

    fn stop(&mut self) -> bool {
        self.asked = self.asked.saturating_add(1);
        self.stopped = self.asked == self.last;
        self.stopped
    }

    fn stopped(&self) -> bool {
        self.stopped
    }
}

fn stops_at(last: u32) -> Patience
    ensures { result.stopped ≡ false }
{
    Patience {
        last,
        asked: 0,
        stopped: false,
    }
}

/// The packed set of the serial histories of the matrix.
fn packed(rt: &(impl AllocGlobal + Abort), matrix: &[u8]) -> Result<PackedTrie<Global>, Fail> {
    let set = set_of(rt, ROWS.as_bytes(), matrix)?;
    Ok(PackedTrie::pack(rt.alloc(), &set)?)
}

/// What is found among all schedules within the bound, over the tree, with a cache of one verdict.
fn found_watched<T: SerialTree>(
    rt: &(impl AllocGlobal + Abort),
    case: &Fixture,
    tree: &T,
    bound: u16,
    watch: &mut Patience,
) -> Result<Found, Fail>
    requires of { CanRun case.now.component case.now.matrix }
    requires running { watch.old.stopped ≡ false }
{
    let from = beginning(rt, case, b"schedule\n")?;
    assert!(rt; from.moves().len() <= usize::from(bound) && bound <= 256);
    let mut cache = Cache::new(rt.alloc(), tree, 1)?;
    Ok(search_watched(
        rt.alloc(),
        &case.component,
        &case.matrix,
        &mut cache,
        &from,
        bound,
        watch,
    )?)
}

/// The same for the matrix of this text, over the packed set of the serial histories of the other
/// one.
fn found_over(
    rt: &(impl AllocGlobal + Abort),
    matrix: &[u8],
    other: &[u8],
    bound: u16,
    watch: &mut Patience,
) -> Result<Found, Fail>
    requires { watch.old.stopped ≡ false }
{
    let packed = packed(rt, other)?;
    let case = fixture_of(rt, ROWS.as_bytes(), matrix)?;
    found_watched(rt, &case, &&packed, bound, watch)
}

/// The search is called off at this question.
fn assert_abandoned(
    rt: &(impl AllocGlobal + Abort),
    matrix: &[u8],
    other: &[u8],
    bound: u16,
    last: u32,
) -> Result<(), Fail> {
    let mut watch = stops_at(last);
    let found = found_over(rt, matrix, other, bound, &mut watch)?;
    assert!(rt; matches!(found, Found::Abandoned));
    assert!(rt; watch.asked == last, "{last}");
    Ok(())
}

/// The search is not called off: this many schedules are complete, this many cut, and the watch is
/// asked so often.
fn assert_asked(
    rt: &(impl AllocGlobal + Abort),
    matrix: &[u8],
    other: &[u8],
    bound: u16,
    counts: (u64, u64),
    asked: u32,
) -> Result<(), Fail> {
    let mut watch = stops_at(0);
    let found = found_over(rt, matrix, other, bound, &mut watch)?;
    assert_clean(rt, &found, counts.0, counts.1);
    assert!(rt; watch.asked == asked, "{asked}");
    Ok(())
}

/// How all schedules of the matrix end, by its nodes.
fn ending_watched(
    rt: &(impl AllocGlobal + Abort),
    matrix: &[u8],
    watch: &mut Patience,
) -> Result<Result<Ending, Halted>, Fail>
    requires { watch.old.stopped ≡ false }
{
    let packed = packed(rt, matrix)?;
    let case = fixture_of(rt, ROWS.as_bytes(), matrix)?;
    let (component, matrix) = (&case.component, &case.matrix);
    Ok(ends_well_watched(
        rt.alloc(),
        component,
        matrix,
        &&packed,
        256,
        1000,
        watch,
        &Alone,
    ))
}

/// The first schedule of the matrix to a state from which none ends, of at most this many states.
fn lost_watched(
    rt: &(impl AllocGlobal + Abort),
    matrix: &[u8],
    most: u32,
    watch: &mut Patience,
) -> Result<Result<FirstLost, Halted>, Fail>
    requires { watch.old.stopped ≡ false }
{
    let case = fixture_of(rt, ROWS.as_bytes(), matrix)?;
    let (component, matrix) = (&case.component, &case.matrix);
    Ok(first_lost_watched(rt.alloc(), component, matrix, most, watch))
}

const EXCHANGES: &[u8] = b"thread cinc\nthread cinc\n";

const SPINS: &[u8] = b"thread spin\nthread spin\n";

const NO_CALLS: &[u8] = b"thread\n";

/// 2,564 schedules are 40 times 64 and some more.
#[test]
fn a_watch_is_asked_after_each_64(rt: HostRuntime) -> Result<(), Fail> {
    assert_asked(&rt, EXCHANGES, EXCHANGES, 40, (2564, 0), 40)?;
    assert_abandoned(&rt, EXCHANGES, EXCHANGES, 40, 3)
}

/// Each of two threads can always move, so 12 moves are cut in 4,096 ways, which are counted
/// together: 64 times 64.
#[test]
fn a_watch_is_asked_of_what_is_counted(rt: HostRuntime) -> Result<(), Fail> {
    assert_asked(&rt, SPINS, NO_CALLS, 12, (0, 4096), 64)?;
    assert_abandoned(&rt, SPINS, NO_CALLS, 12, 64)
}

/// Two increments by compare-and-swap have 45 nodes. The watch is asked once more where none is
/// left.
#[test]
fn a_watch_is_asked_before_each_node(rt: HostRuntime) -> Result<(), Fail> {
    let mut watch = stops_at(0);
    let ending = ending_watched(&rt, EXCHANGES, &mut watch)?;
    assert!(&rt; matches!(ending, Ok(Ending::Well)));
    assert!(&rt; watch.asked == 46, "{}", watch.asked);
    for last in [1, 5] {
        let mut watch = stops_at(last);
        let ending = ending_watched(&rt, EXCHANGES, &mut watch)?;
        assert!(&rt; matches!(ending, Err(Halted::Stopped)));
        assert!(&rt; watch.asked == last, "{last}");
    }
    Ok(())
}

/// They have 87 states, of which histories are no part. With room for fewer it is not known whether
/// each of them can end.
#[test]
fn too_many_states_are_not_known_to_end(rt: HostRuntime) -> Result<(), Fail> {
    let lost = lost_watched(&rt, EXCHANGES, 87, &mut stops_at(0))?;
    assert!(&rt; matches!(lost, Ok(FirstLost::Never)));
    let lost = lost_watched(&rt, EXCHANGES, 86, &mut stops_at(0))?;
    assert!(&rt; matches!(lost, Ok(FirstLost::Unknown)));
    Ok(())
}

/// The watch is asked once more where none is left.
#[test]
fn a_watch_is_asked_before_each_state(rt: HostRuntime) -> Result<(), Fail> {
    let mut watch = stops_at(0);
    let lost = lost_watched(&rt, EXCHANGES, 1000, &mut watch)?;
    assert!(&rt; matches!(lost, Ok(FirstLost::Never)));
    assert!(&rt; watch.asked == 88, "{}", watch.asked);
    for last in [1, 5] {
        let mut watch = stops_at(last);
        let lost = lost_watched(&rt, EXCHANGES, 1000, &mut watch)?;
        assert!(&rt; matches!(lost, Err(Halted::Stopped)));
        assert!(&rt; watch.asked == last, "{last}");
    }
    Ok(())
}

/// Matrices, with the least bad schedule of each and why it is bad: an increment is lost; only
/// precedence refuses the history; a pending call has no witness, though another one has.
const BAD: &[(&[u8], &str, Why)] = &[
    (
        b"thread inc\nthread inc\n",
        "schedule 0 0 0 1 1 0 0 1 1 1\n",
        Why::Complete,
    ),
    (
        b"thread hold\nthread put\nthread get\n",
        "schedule 0 0 1 1 0 0 1 1 2 2 2\n",
        Why::Complete,
    ),
    (
        b"thread take\nthread mn\nthread nm\n",
        "schedule 0 1 1 2 2\n",
        Why::Stuck(1),
    ),
];

#[test]
fn packed_sets_with_a_cache_of_one_verdict(rt: HostRuntime) -> Result<(), Fail> {
    for (matrix, text, why) in BAD {
        let found = found_over(&rt, matrix, matrix, 40, &mut stops_at(0))?;
        assert_bad(&rt, &found, text, *why)?;
    }
    Ok(())
}

/// The whole tree and one half of it, by one searcher with a cache of one verdict, after a search
/// that was stopped.
fn assert_parts<T: SerialTree>(
    rt: &(impl AllocGlobal + Abort),
    case: &Fixture,
    tree: &T,
) -> Result<(), Fail>
    requires { CanRun case.now.component case.now.matrix }
{
    let space = SearchSpace {
        alloc: rt.alloc(),
        test: Test {
            component: &case.component,
            matrix: &case.matrix,
        },
        bound: 40,
    };
    let whole = beginning(rt, case, b"schedule\n")?;
    let half = beginning(rt, case, b"schedule 0\n")?;
    assert!(rt; whole.moves().len() <= 40);
    assert!(rt; half.moves().len() <= 40);
    let mut cache = Cache::new(rt.alloc(), tree, 1)?;
    let mut searcher = Searcher::new(space, tree)?;
    let stopped = searcher.search(&mut cache, &whole, &mut stops_at(1))?;
    assert!(rt; matches!(stopped, Found::Abandoned));
    let found = searcher.search(&mut cache, &whole, &mut Unwatched)?;
    assert_clean(rt, &found, 2564, 0);
    let below = searcher.search(&mut cache, &half, &mut Unwatched)?;
    assert_clean(rt, &below, 1282, 0);
    Ok(())
}

#[test]
fn one_searcher_serves_all_parts(rt: HostRuntime) -> Result<(), Fail> {
    let packed = packed(&rt, EXCHANGES)?;
    let case = fixture_of(&rt, ROWS.as_bytes(), EXCHANGES)?;
    assert_parts(&rt, &case, &&packed)
}
