//! Runs of a counter and of a slot.

use lu_fixtures::fixture_of;
use lu_history::SerialOutcome;
use lu_machine::Outcome;
use lu_run::{Run, RunEvent, RunFailure, RunVerdict, are_calls_of, is_run, judge_run};
use lu_test::{Arguments, Call};
use std::process::Abort;
use std::test::Fail;

const COMPONENT: &[u8] = b"component c
word x 1 0
op inc 0
load r0 x 0
add r0 r0 1
store x 0 r0
return r0
end
op wait 0
await x 0 2
return 7
end
";

fn verdict(
    rt: &(impl AllocGlobal + Abort),
    events: &[RunEvent],
    is_stuck: bool,
) -> Result<RunVerdict, Fail> {
    let case = fixture_of(rt, COMPONENT, b"thread inc\n")?;
    let mut calls = Vec::new(rt.alloc());
    calls.push(Call {
        op: 0,
        args: Arguments::new(Vec::new(rt.alloc())),
    })?;
    calls.push(Call {
        op: 1,
        args: Arguments::new(Vec::new(rt.alloc())),
    })?;
    let run = Run {
        calls,
        events: Vec::from_slice(rt.alloc(), events)?,
        is_stuck,
    };
    assert!(rt; are_calls_of(&case.component, &run.calls));
    assert!(rt; is_run(&run));
    Ok(judge_run(rt.alloc(), &case.component, &case.matrix, &run, 40)?)
}

const INC0: RunEvent = RunEvent::Call { thread: 0, call: 0 };

const INC1: RunEvent = RunEvent::Call { thread: 1, call: 0 };

const WAIT2: RunEvent = RunEvent::Call { thread: 2, call: 1 };

fn back(thread: u8, n: u32) -> RunEvent {
    RunEvent::Return {
        thread,
        outcome: Outcome::Ret(n),
    }
}

/// The verdict that a run fails at the event, whose call may return `n`.
fn fails(event: usize, n: u32) -> RunVerdict {
    RunVerdict::FailsAt(RunFailure {
        event,
        expected: Some(SerialOutcome::Ret(n)),
    })
}

#[test]
fn runs_of_a_counter(rt: HostRuntime) -> Result<(), Fail> {
    let good = verdict(&rt, &[INC0, INC1, back(1, 1), back(0, 2)], false)?;
    assert!(rt; good == RunVerdict::Passes);
    let lost = verdict(&rt, &[INC0, INC1, back(1, 1), back(0, 1)], false)?;
    assert!(rt; lost == fails(3, 2));
    let late = verdict(&rt, &[INC0, back(0, 2), INC1, back(1, 1)], false)?;
    assert!(rt; late == fails(1, 1));
    let pending = verdict(&rt, &[INC0, INC1, back(1, 2)], false)?;
    assert!(rt; pending == RunVerdict::Passes);
    let waits = verdict(
        &rt,
        &[WAIT2, INC0, back(0, 1), INC1, back(1, 2), back(2, 7)],
        false,
    )?;
    assert!(rt; waits == RunVerdict::Passes);
    let early = verdict(&rt, &[WAIT2, INC0, back(0, 1), back(2, 7)], false)?;
    let never = RunVerdict::FailsAt(RunFailure {
        event: 3,
        expected: None,
    });
    assert!(rt; early == never);
    let stuck = verdict(&rt, &[WAIT2, INC0, back(0, 1)], true)?;
    assert!(rt; stuck == RunVerdict::Passes);
    let blocked = verdict(&rt, &[WAIT2, INC0, back(0, 1), INC1, back(1, 2)], true)?;
    assert!(rt; blocked == RunVerdict::CannotBeStuck(2));
    Ok(())
}

#[test]
fn a_long_run(rt: HostRuntime) -> Result<(), Fail> {
    let mut events = Vec::new(rt.alloc());
    for n in 0..2000u32 {
        events.push(INC0)?;
        events.push(back(0, n + 1))?;
    }
    let good = verdict(&rt, &events, false)?;
    assert!(rt; good == RunVerdict::Passes);
    Ok(())
}
