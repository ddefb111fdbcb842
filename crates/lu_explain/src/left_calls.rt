//! How a thread stands after a partial witness.

ghost use Rattle.std.specs.Prelude.{◌≡◌, ◌<◌, IfSome, length};
ghost use Rattle.lu_history.specs.Histories.{IsWellFormed};
ghost use Rattle.lu_test.specs.declared.matrix.TheConstants.{MOST_CALLS_OF_THREAD, MOST_THREADS};
ghost use Rattle.lu_witness.specs.Witnesses.{IsMember};
ghost use Rattle.lu_explain.specs.Search.{TellsBlocker, TellsMore, TellsOutcome, TellsStanding, TellsStandings};

use crate::explanation::Reason;
use lu_history::{History, OpId, SerialOutcome};
use lu_test::MOST_THREADS;
use lu_trie::SerialTree;

/// The least thread whose number is greater in `before` than in `taken`.
fn first_more(before: &[u8; MOST_THREADS], taken: &[u8; MOST_THREADS]) -> Option<u8>
    ensures first { TellsMore taken.now before.now result }
    ensures thread { IfSome result (λ t. t < MOST_THREADS) }
{
    for thread in 0..8 {
        if taken[usize::from(thread)] < before[usize::from(thread)] {
            return Some(thread);
        }
    }
    None
}

/// The operation that keeps `b` from coming next: of the least thread of which one that is left
/// precedes it, the first that is left.
pub(crate) fn blocker(history: &History, taken: &[u8; MOST_THREADS], b: OpId) -> Option<OpId>
    requires history { IsWellFormed history.now }
    requires thread { b.t < MOST_THREADS }
    requires call { b.k < MOST_CALLS_OF_THREAD }
    ensures { TellsBlocker taken.now history.now b result }
{
    match first_more(history.before(b), taken) {
        None => None,
        Some(t) => Some(OpId {
            t,
            k: taken[usize::from(t)],
        }),
    }
}

/// The least outcome with which the serial histories below a place continue by the thread.
fn outcome_of<T: SerialTree>(tree: &T, place: T::Place, t: u8) -> Option<SerialOutcome>
    requires { T.is_place tree.now place }
    ensures { TellsOutcome (IsMember (T.below tree.now place)) t result }
{
    for i in 0..tree.kid_count(place) {
        let (op, _) = tree.kid(place, i);
        if op.thread == t {
            return Some(op.outcome);
        }
    }
    None
}

/// Why thread `t` does not continue after what was taken, which leads to the place; `None` where it
/// has no operation left.
fn reason_not_next<T: SerialTree>(
    tree: &T,
    place: T::Place,
    history: &History,
    taken: &[u8; MOST_THREADS],
    t: u8,
) -> Option<Reason>
    requires history { IsWellFormed history.now }
    requires place { T.is_place tree.now place }
    requires thread { t < MOST_THREADS }
    ensures { TellsStanding (IsMember (T.below tree.now place)) taken.now history.now t result }
{
    let next = OpId {
        t,
        k: taken[usize::from(t)],
    };
    history.ended(next)?;
    match blocker(history, taken, next) {
        Some(a) => Some(Reason::After(a)),
        None => match outcome_of(tree, place, t) {
            Some(outcome) => Some(Reason::Outcome(outcome)),
            None => Some(Reason::Nothing),
        },
    }
}

/// The same of each thread.
pub(crate) fn reasons<T: SerialTree>(
    tree: &T,
    place: T::Place,
    history: &History,
    taken: &[u8; MOST_THREADS],
) -> [Option<Reason>; MOST_THREADS]
    requires history { IsWellFormed history.now }
    requires place { T.is_place tree.now place }
    ensures threads { length result ≡ MOST_THREADS }
    ensures each { TellsStandings (IsMember (T.below tree.now place)) taken.now history.now result }
{
    let mut left = [None; MOST_THREADS];
    for t in 0..8 {
        left[usize::from(t)] = reason_not_next(tree, place, history, taken, t);
    }
    left
}
