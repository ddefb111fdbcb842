//! What no clause says: that calls succeed, the printed forms, and that the definitions mean what
//! was meant.

ghost use Rattle.std.specs.Prelude.{◌≡◌};

use lu_fixtures::history_of;
use lu_history::{History, HistoryFault, OpId, SerialOp, SerialOutcome};
use lu_machine::{Event, Outcome};
use std::process::Abort;
use std::test::Fail;

fn call(t: u8, k: u8) -> Event {
    Event::Call { t, k }
}

fn returns(t: u8, k: u8, number: u32) -> Event {
    Event::Return {
        t,
        k,
        outcome: Outcome::Ret(number),
    }
}

fn traps(t: u8, k: u8) -> Event {
    Event::Return {
        t,
        k,
        outcome: Outcome::Trap,
    }
}

fn operation(t: u8, k: u8) -> OpId
    ensures { (result.t ≡ t) × (result.k ≡ k) }
{
    OpId { t, k }
}

/// Two threads overlap, and a third one calls when both have returned.
fn overlapping(rt: &impl AllocGlobal) -> Result<History, Fail> {
    history_of(
        rt,
        &[
            call(0, 0),
            call(1, 0),
            returns(0, 0, 0),
            returns(1, 0, 0),
            call(2, 0),
            returns(2, 0, 0),
        ],
    )
}

/// Thread 0 has returned once and is called again, thread 1 has trapped, and thread 2 is called.
fn half_done(rt: &impl AllocGlobal) -> Result<History, Fail> {
    history_of(
        rt,
        &[
            call(0, 0),
            call(1, 0),
            returns(0, 0, 7),
            call(2, 0),
            traps(1, 0),
            call(0, 1),
        ],
    )
}

/// Which operations of the overlapping threads precede which.
fn assert_precedence(rt: &impl Abort, history: &History) {
    for (a, b, want) in [
        (0, 2, true),
        (1, 2, true),
        (0, 1, false),
        (1, 0, false),
        (2, 0, false),
        (0, 0, false),
    ] {
        assert!(rt; a < 8 && b < 8);
        assert!(rt;
            history.precedes(operation(a, 0), operation(b, 0)) == want,
            "{a} before {b}"
        );
    }
    assert!(rt;
        !history.precedes(operation(0, 0), operation(3, 0)),
        "no call"
    );
    assert!(rt;
        !history.precedes(operation(0, 1), operation(2, 0)),
        "no return"
    );
    assert!(rt; history.before(operation(2, 0)) == &[1, 1, 0, 0, 0, 0, 0, 0]);
}

#[test]
fn precedence_is_return_before_call(rt: HostRuntime) -> Result<(), Fail> {
    let history = overlapping(&rt)?;
    assert_precedence(&rt, &history);
    Ok(())
}

/// How many calls each thread has made, whether one of them is pending, and how the others ended.
fn assert_threads(rt: &impl Abort, history: &History, threads: &[(u8, u8, bool, &[Outcome])]) {
    for (t, calls, pending, outcomes) in threads {
        assert!(rt; *t < 8);
        assert!(rt; history.calls(*t) == *calls, "thread {t}");
        assert!(rt; history.pending(*t) == *pending, "thread {t}");
        assert!(rt; history.outcomes(*t) == *outcomes, "thread {t}");
    }
}

/// How each of these operations ended.
fn assert_ended(rt: &impl Abort, history: &History, ended: &[(u8, u8, Option<SerialOutcome>)]) {
    for (t, k, outcome) in ended {
        assert!(rt; *t < 8);
        assert!(rt;
            history.ended(operation(*t, *k)) == *outcome,
            "operation {t} {k}"
        );
    }
}

#[test]
fn parts_of_threads(rt: HostRuntime) -> Result<(), Fail> {
    let history = half_done(&rt)?;
    assert_threads(
        &rt,
        &history,
        &[
            (0, 2, true, &[Outcome::Ret(7)]),
            (1, 1, false, &[Outcome::Trap]),
            (2, 1, true, &[]),
            (3, 0, false, &[]),
        ],
    );
    assert_ended(
        &rt,
        &history,
        &[
            (0, 0, Some(SerialOutcome::Ret(7))),
            (0, 1, Some(SerialOutcome::Stuck)),
            (0, 2, None),
            (1, 0, Some(SerialOutcome::Trap)),
        ],
    );
    Ok(())
}

/// Without the pending calls of the other threads the history has these events.
fn assert_kept(
    rt: &impl Abort,
    history: &History,
    t: u8,
    events: &[Event],
) -> Result<(), HistoryFault> {
    let kept = history.keep_pending(t)?;
    assert!(rt; kept.events() == events, "thread {t}");
    Ok(())
}

#[test]
fn one_pending_call_is_kept(rt: HostRuntime) -> Result<(), Fail> {
    let history = half_done(&rt)?;
    assert_kept(
        &rt,
        &history,
        2,
        &[
            call(0, 0),
            call(1, 0),
            returns(0, 0, 7),
            call(2, 0),
            traps(1, 0),
        ],
    )?;
    assert_kept(
        &rt,
        &history,
        1,
        &[call(0, 0), call(1, 0), returns(0, 0, 7), traps(1, 0)],
    )?;
    Ok(())
}

/// Each of these events may come next, or not.
fn assert_fits(rt: &impl Abort, history: &History, events: &[(Event, bool)]) {
    for (event, want) in events {
        assert!(rt; history.fits(*event) == *want, "{event:?}");
    }
}

/// The last return goes, and the operation is pending again.
fn assert_last_goes(rt: &impl Abort, history: &mut History) {
    let returned_already = (returns(2, 0, 0), false);
    let called_already = (call(2, 0), false);
    assert_fits(
        rt,
        history,
        &[returned_already, called_already, (call(2, 1), true)],
    );
    assert!(rt; !history.events().is_empty());
    assert!(rt; history.pop() == returns(2, 0, 0));
    let one_is_pending = (call(2, 1), false);
    assert_fits(rt, history, &[one_is_pending, (traps(2, 0), true)]);
    assert!(rt; history.events().len() == 5);
}

#[test]
fn events_come_and_go(rt: HostRuntime) -> Result<(), Fail> {
    let mut history = overlapping(&rt)?;
    let copy = history.copy()?;
    assert!(rt; copy.events() == history.events());
    assert_last_goes(&rt, &mut history);
    assert!(rt; copy.events().len() == 6);
    Ok(())
}

#[test]
fn want_of_memory_is_shown(rt: HostRuntime) -> Result<(), Fail> {
    assert!(rt; format!(in rt.alloc(); "{}", HistoryFault::Memory)?.as_str() == "memory");
    Ok(())
}

#[test]
fn serial_operations_are_ordered(rt: HostRuntime) {
    let outcomes = [
        SerialOutcome::Ret(0),
        SerialOutcome::Ret(1),
        SerialOutcome::Ret(u32::MAX),
        SerialOutcome::Trap,
        SerialOutcome::Stuck,
    ];
    for pair in outcomes.windows(2) {
        assert!(rt; pair[0] < pair[1], "{pair:?}");
    }
    let last = SerialOp {
        thread: 0,
        outcome: SerialOutcome::Stuck,
    };
    let next = SerialOp {
        thread: 1,
        outcome: SerialOutcome::Ret(0),
    };
    assert!(rt; last < next);
}
