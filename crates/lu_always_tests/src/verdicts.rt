//! That a verdict is found: no clause says so.

use lu_always::{Budget, Verdict, find_verdict};
use lu_answers::{AnswerTable, Rounds};
use lu_certify::Silent;
use lu_fixtures::fixture_of;
use lu_history::SerialOutcome;
use std::process::Abort;
use std::test::Fail;

/// Operations that invert a bit and return its former value: without a lock, with one, with a spin
/// lock, and by compare-and-swap after a delay of any length.
const BIT: &[u8] = b"component c
word x 1 0
word l 1 0
lock m
op flip 0
load r0 x 0
jz r0 L4
store x 0 0
return r0
L4: store x 0 1
return r0
end
op safe 0
lock m
load r0 x 0
jz r0 L6
store x 0 0
unlock m
return r0
L6: store x 0 1
unlock m
return r0
end
op spin 0
L0: cas r1 l 0 0 1
jz r1 L0
load r0 x 0
jz r0 L7
store x 0 0
store l 0 0
return r0
L7: store x 0 1
store l 0 0
return r0
end
op swap 0
L0: pick r3 3
load r0 x 0
sub r1 1 r0
cas r2 x 0 r0 r1
jz r2 L0
return r0
end
";

/// Operations that set their own flag and wait until the other's is clear. Where both are set, they
/// wait for ever.
const FLAGS: &[u8] = b"component c
word f 2 0
op left 0
store f 0 1
L1: load r0 f 1
jz r0 L4
jump L1
L4: store f 0 0
return 0
end
op right 0
store f 1 1
L1: load r0 f 0
jz r0 L4
jump L1
L4: store f 1 0
return 0
end
";

/// The verdict on any number of rounds of two threads that invert the bit, with this limit of nodes.
fn verdict_on(
    rt: &(impl AllocGlobal + Abort),
    matrix: &[u8],
    most: usize,
) -> Result<Verdict, Fail> {
    let case = fixture_of(rt, BIT, matrix)?;
    let first = Some((SerialOutcome::Ret(0), 1));
    let second = Some((SerialOutcome::Ret(1), 0));
    let mut rows = Vec::new(rt.alloc());
    rows.push([first, first, None, None, None, None, None, None])?;
    rows.push([second, second, None, None, None, None, None, None])?;
    let table = AnswerTable::new(rows);
    Ok(find_verdict(
        rt.alloc(),
        &case.component,
        &case.matrix,
        &table,
        Rounds::Any,
        Budget {
            most,
            progress: &Silent,
        },
    )?)
}

/// The verdict on one round of two threads that invert the bit.
fn verdict_on_one_round(rt: &(impl AllocGlobal + Abort), matrix: &[u8]) -> Result<Verdict, Fail> {
    let case = fixture_of(rt, BIT, matrix)?;
    let first = Some((SerialOutcome::Ret(0), 1));
    let second = Some((SerialOutcome::Ret(0), 2));
    let mut rows = Vec::new(rt.alloc());
    rows.push([first, second, None, None, None, None, None, None])?;
    let last = Some((SerialOutcome::Ret(1), 3));
    rows.push([None, last, None, None, None, None, None, None])?;
    rows.push([last, None, None, None, None, None, None, None])?;
    rows.push([None, None, None, None, None, None, None, None])?;
    let table = AnswerTable::new(rows);
    Ok(find_verdict(
        rt.alloc(),
        &case.component,
        &case.matrix,
        &table,
        Rounds::One,
        Budget {
            most: 1000,
            progress: &Silent,
        },
    )?)
}

/// The verdict on two threads that set flags. All their calls return 0.
fn verdict_on_flags(rt: &(impl AllocGlobal + Abort), matrix: &[u8]) -> Result<Verdict, Fail> {
    let case = fixture_of(rt, FLAGS, matrix)?;
    let zero = Some((SerialOutcome::Ret(0), 0));
    let mut rows = Vec::new(rt.alloc());
    rows.push([zero, zero, None, None, None, None, None, None])?;
    let table = AnswerTable::new(rows);
    Ok(find_verdict(
        rt.alloc(),
        &case.component,
        &case.matrix,
        &table,
        Rounds::Any,
        Budget {
            most: 1000,
            progress: &Silent,
        },
    )?)
}

/// The number of moves of the schedule that fails, if the verdict is that one does.
fn moves_in(verdict: Verdict) -> Option<usize> {
    match verdict {
        Verdict::AlwaysLinearizable => None,
        Verdict::Fails(moves) => Some(moves.len()),
        Verdict::Livelock(_) => None,
        Verdict::Undecided => None,
    }
}

/// The number of moves of the livelock, if the verdict is that there is one.
fn livelock_in(verdict: Verdict) -> Option<usize> {
    match verdict {
        Verdict::AlwaysLinearizable => None,
        Verdict::Fails(_) => None,
        Verdict::Livelock(moves) => Some(moves.len()),
        Verdict::Undecided => None,
    }
}

/// Whether the verdict is that all are linearizable.
fn is_always_linearizable(verdict: Verdict) -> bool {
    match verdict {
        Verdict::AlwaysLinearizable => true,
        Verdict::Fails(_) => false,
        Verdict::Livelock(_) => false,
        Verdict::Undecided => false,
    }
}

/// Whether there is no verdict.
fn is_undecided(verdict: Verdict) -> bool {
    match verdict {
        Verdict::AlwaysLinearizable => false,
        Verdict::Fails(_) => false,
        Verdict::Livelock(_) => false,
        Verdict::Undecided => true,
    }
}

#[test]
fn a_bit_with_a_lock_is_always_linearizable(rt: HostRuntime) -> Result<(), Fail> {
    let verdict = verdict_on(&rt, b"thread safe\nthread safe\n", 1000)?;
    assert!(rt; is_always_linearizable(verdict));
    Ok(())
}

#[test]
fn a_bit_without_a_lock_fails(rt: HostRuntime) -> Result<(), Fail> {
    let verdict = verdict_on(&rt, b"thread flip\nthread flip\n", 1000)?;
    assert!(rt; moves_in(verdict) == Some(10));
    Ok(())
}

#[test]
fn one_round_of_a_bit_with_a_lock_is_linearizable(rt: HostRuntime) -> Result<(), Fail> {
    let verdict = verdict_on_one_round(&rt, b"thread safe\nthread safe\n")?;
    assert!(rt; is_always_linearizable(verdict));
    Ok(())
}

#[test]
fn one_round_of_a_bit_without_a_lock_fails(rt: HostRuntime) -> Result<(), Fail> {
    let verdict = verdict_on_one_round(&rt, b"thread flip\nthread flip\n")?;
    assert!(rt; moves_in(verdict) == Some(10));
    Ok(())
}

#[test]
fn more_nodes_than_the_limit_are_undecided(rt: HostRuntime) -> Result<(), Fail> {
    let verdict = verdict_on(&rt, b"thread safe\nthread safe\n", 5)?;
    assert!(rt; is_undecided(verdict));
    Ok(())
}

#[test]
fn flags_that_wait_for_one_another_have_a_livelock(rt: HostRuntime) -> Result<(), Fail> {
    let verdict = verdict_on_flags(&rt, b"thread left\nthread right\n")?;
    assert!(rt; livelock_in(verdict) == Some(4));
    Ok(())
}

#[test]
fn a_spin_lock_that_is_given_back_has_no_livelock(rt: HostRuntime) -> Result<(), Fail> {
    let verdict = verdict_on(&rt, b"thread spin\nthread spin\n", 1000)?;
    assert!(rt; is_always_linearizable(verdict));
    Ok(())
}

/// A delay that is picked is never read, and after a failed compare-and-swap the registers have old
/// values. There are 114 nodes. If such values told them apart, there would be 1478.
#[test]
fn states_that_differ_in_dead_registers_only_are_one(rt: HostRuntime) -> Result<(), Fail> {
    let verdict = verdict_on(&rt, b"thread swap\nthread swap\n", 500)?;
    assert!(rt; is_always_linearizable(verdict));
    Ok(())
}
