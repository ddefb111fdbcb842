//! Which verdicts a small cache keeps.

use crate::serial_runs::set_of;
use lu_fixtures::{ROWS, history_of};
use lu_machine::{Event, Outcome};
use lu_trie::SerialTree;
use lu_witness::{Cache, Verdict};
use std::process::Abort;
use std::test::Fail;

const CALL_0: Event = Event::Call { t: 0, k: 0 };

const CALL_1: Event = Event::Call { t: 1, k: 0 };

const RETURN_0: Event = Event::Return {
    t: 0,
    k: 0,
    outcome: Outcome::Ret(0),
};

const RETURN_1: Event = Event::Return {
    t: 1,
    k: 0,
    outcome: Outcome::Ret(0),
};

const FIRST: &[Event] = &[CALL_0, RETURN_0, CALL_1, RETURN_1];

const SECOND: &[Event] = &[CALL_0, CALL_1, RETURN_0, RETURN_1];

const LAST: &[Event] = &[CALL_1, RETURN_1, CALL_0, RETURN_0];

/// Histories in which two threads get 0, and whether each is then kept; of the others the verdict is asked for. The first is
/// asked for again before the last one comes, so the second makes room for that.
const ASKED: &[(&[Event], Option<bool>)] = &[
    (FIRST, Some(false)),
    (FIRST, None),
    (SECOND, None),
    (FIRST, None),
    (LAST, None),
    (FIRST, Some(true)),
    (SECOND, Some(false)),
    (LAST, Some(true)),
];

/// The history of these events is kept, or not; or its verdict is asked for, which is good.
fn assert_asked<T: SerialTree>(
    rt: &(impl AllocGlobal + Abort),
    cache: &mut Cache<'_, T>,
    events: &[Event],
    kept: Option<bool>,
) -> Result<(), Fail> {
    let history = history_of(rt, events)?;
    match kept {
        Some(kept) => assert!(rt; cache.keeps(&history) == kept),
        None => assert!(rt; cache.verdict(&history) == Verdict::Good),
    }
    Ok(())
}

/// All that of a cache with room for two.
fn assert_all_asked<T: SerialTree>(rt: &(impl AllocGlobal + Abort), tree: &T) -> Result<(), Fail> {
    let mut cache = Cache::new(rt.alloc(), tree, 2)?;
    for (events, kept) in ASKED {
        assert_asked(rt, &mut cache, events, *kept)?;
    }
    Ok(())
}

#[test]
fn the_least_recently_used_makes_room(rt: HostRuntime) -> Result<(), Fail> {
    let set = set_of(&rt, ROWS.as_bytes(), b"thread get\nthread get\n")?;
    assert_all_asked(&rt, &&set)
}
