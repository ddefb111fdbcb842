//! Machines of small components: what is taken back and chosen.

use lu_component::Instr;
use lu_fixtures::{Fixture, fixture_of};
use lu_machine::{Counts, Event, Machine, Outcome, is_local};
use lu_test::Move;
use std::process::Abort;
use std::test::Fail;

fn returned(t: u8, k: u8, value: u32) -> Option<Event> {
    let outcome = Outcome::Ret(value);
    Some(Event::Return { t, k, outcome })
}

/// What jumps is local, and what takes a lock is not.
#[test]
fn some_instructions_are_local(rt: HostRuntime) -> Result<(), Fail> {
    assert!(rt; is_local(&Instr::Jump(0)));
    assert!(rt; !is_local(&Instr::Lock(0)));
    Ok(())
}

const SLOT: &[u8] = b"component c
word x 2 5
lock l
op f 1
lock l
cas r1 x r0 5 9
load r2 x r0
unlock l
return r2
end
";

/// Takes back each move of the machine's only thread and makes it again, and returns the last
/// event.
fn take_back(rt: &impl Abort, machine: &mut Machine<'_>, moves: u8) -> Option<Event> {
    let next = Move { thread: 0, pick: 0 };
    let mut last = None;
    for _turn in 0..moves {
        assert!(rt; machine.feasible(next));
        let undo = machine.apply(next);
        let event = undo.event();
        machine.undo(undo);
        assert!(rt; machine.feasible(next));
        last = machine.step(next);
        assert!(rt; last == event, "{event:?}");
    }
    assert!(rt; machine.threads() == 1);
    assert!(rt; !machine.enabled(0));
    last
}

/// The same for a run of the matrix.
fn taken_back(
    rt: &(impl AllocGlobal + Abort),
    component: &[u8],
    matrix: &[u8],
    moves: u8,
) -> Result<Option<Event>, Fail> {
    let case = fixture_of(rt, component, matrix)?;
    let mut machine = Machine::start(rt.alloc(), &case.component, &case.matrix)?;
    Ok(take_back(rt, &mut machine, moves))
}

#[test]
fn a_move_is_taken_back(rt: HostRuntime) -> Result<(), Fail> {
    let last = taken_back(&rt, SLOT, b"thread f 1\n", 6)?;
    assert!(rt; last == returned(0, 0, 9));
    Ok(())
}

/// Two registers are set with the call, and one with the load.
const TWO_REGISTERS: &[u8] = b"component c
local 3
word x 1 5
op f 1
add r1 r0 r0
mul r0 r1 r1
load r2 x 0
add r0 r0 r2
store x 0 r0
return r0
end
";

#[test]
fn a_move_is_taken_back_with_its_local_instructions(rt: HostRuntime) -> Result<(), Fail> {
    let last = taken_back(&rt, TWO_REGISTERS, b"thread f 3\n", 4)?;
    assert!(rt; last == returned(0, 0, 41));
    Ok(())
}

const PICKS: &[u8] = b"component c
op choose 0
pick r3 3
return r3
end
";

/// The machine's only thread has a call to make, and then three choices.
fn assert_picks(rt: &impl Abort, machine: &mut Machine<'_>) {
    assert!(rt; (machine.picks(0), machine.picks(1)) == (1, 0));
    let call = Move { thread: 0, pick: 0 };
    assert!(rt; machine.feasible(call));
    machine.step(call);
    assert!(rt; machine.picks(0) == 3);
}

/// A pick is one of its choices.
#[test]
fn picks(rt: HostRuntime) -> Result<(), Fail> {
    let case = fixture_of(&rt, PICKS, b"thread choose\n")?;
    let mut machine = Machine::start(rt.alloc(), &case.component, &case.matrix)?;
    assert_picks(&rt, &mut machine);
    Ok(())
}

/// Sums stop at the last number.
#[test]
fn counts_are_added(rt: HostRuntime) {
    let counts = Counts {
        complete: u64::MAX,
        stuck: 2,
        cut: 3,
    };
    let sum = counts.plus(counts).plus(Counts::NONE);
    assert!(rt; sum.complete == u64::MAX);
    assert!(rt; sum.stuck == 4);
    assert!(rt; sum.cut == 6);
}
