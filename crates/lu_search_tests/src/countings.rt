//! What is counted and not walked: orders of moves, and how many moves of threads are certain.

ghost use Rattle.lu_machine.specs.Starts.{CanRun};

use lu_fixtures::{Fixture, ROWS, fixture_of};
use lu_horizon::{DeadRegisters, Horizon, is_unseen_at, stand_at};
use lu_machine::Machine;
use lu_orders::Orders;
use lu_test::Move;
use std::process::Abort;
use std::test::Fail;

/// Three moves of each of two threads, two of each of three, and none.
const INTERLEAVINGS: &[(&[usize], Option<u64>)] = &[
    (&[3, 3], Some(20)),
    (&[2, 2, 2], Some(90)),
    (&[0, 0], Some(1)),
    (&[300, 1], None),
];

#[test]
fn orders_are_counted(rt: HostRuntime) -> Result<(), Fail> {
    let orders = Orders::new(rt.alloc(), 6)?;
    for (lengths, number) in INTERLEAVINGS {
        assert!(rt; orders.interleavings(lengths) == *number, "{lengths:?}");
    }
    Ok(())
}

/// Of four moves one thread makes at most one, or each of two makes two.
const WITHIN_CAPS: &[(usize, &[u16], Option<u64>)] = &[
    (4, &[1, 4], Some(5)),
    (4, &[2, 2], Some(6)),
    (3, &[1, 1], Some(0)),
    (5, &[9, 9, 9], Some(243)),
    (0, &[], Some(1)),
    (7, &[7, 7], None),
    (300, &[7, 7], None),
];

#[test]
fn orders_within_caps_are_counted(rt: HostRuntime) -> Result<(), Fail> {
    let orders = Orders::new(rt.alloc(), 6)?;
    for (left, caps, number) in WITHIN_CAPS {
        assert!(rt;
            orders.orders_within(*left, caps) == *number,
            "{left} {caps:?}"
        );
    }
    Ok(())
}

/// How many schedules are cut below the machine's state.
fn cut_below(
    horizon: &Horizon,
    orders: &Orders,
    machine: &Machine<'_>,
    left: usize,
) -> Option<u64> {
    orders.orders_within(left, &horizon.caps(machine, left)?)
}

/// Below the machine's state this many moves are cut in this many ways, for each of these pairs;
/// and no caps are known for 72 moves, which are more than the tables are for.
fn assert_cuts(
    rt: &impl Abort,
    horizon: &Horizon,
    orders: &Orders,
    machine: &Machine<'_>,
    cuts: &[(usize, Option<u64>)],
) {
    for (left, number) in cuts {
        assert!(rt;
            cut_below(horizon, orders, machine, *left) == *number,
            "{left}"
        );
    }
    assert!(rt; horizon.caps(machine, 72).is_none());
}

/// The same at the start of the case, with tables for this many moves.
fn assert_cuts_ahead(
    rt: &(impl AllocGlobal + Abort),
    case: &Fixture,
    most: u16,
    cuts: &[(usize, Option<u64>)],
) -> Result<(), Fail>
    requires { CanRun case.now.component case.now.matrix }
{
    let horizon = Horizon::new(rt.alloc(), &case.component, &case.matrix, most)?;
    let orders = Orders::new(rt.alloc(), most)?;
    let machine = Machine::start(rt.alloc(), &case.component, &case.matrix)?;
    assert_cuts(rt, &horizon, &orders, &machine, cuts);
    Ok(())
}

/// Where the threads stand at the start, and after the first call.
fn assert_stands(rt: &impl Abort, machine: &mut Machine<'_>) {
    assert!(rt; stand_at(machine, 2).is_none());
    assert!(rt; stand_at(machine, 0).is_some_and(|stand| stand.done == 0 && stand.place.is_none()));
    assert!(rt; !is_unseen_at(machine, 0));
    let call = Move { thread: 0, pick: 0 };
    assert!(rt; machine.feasible(call));
    machine.step(call);
    assert!(rt; stand_at(machine, 0).is_some_and(|stand| stand.place == Some(0)));
    assert!(rt; is_unseen_at(machine, 0));
}

/// The same of a machine at the start of the case.
fn assert_stands_ahead(rt: &(impl AllocGlobal + Abort), case: &Fixture) -> Result<(), Fail>
    requires { CanRun case.now.component case.now.matrix }
{
    let mut machine = Machine::start(rt.alloc(), &case.component, &case.matrix)?;
    assert_stands(rt, &mut machine);
    Ok(())
}

/// In how many ways the moves can be cut at the start. A number that is too great stands at the
/// greatest.
const CUTS: &[(usize, Option<u64>)] = &[
    (9, Some(512)),
    (63, Some(9_223_372_036_854_775_808)),
    (64, Some(u64::MAX)),
    (70, Some(u64::MAX)),
];

/// An open operation has a place; the first instruction of `spin` is a jump.
#[test]
fn threads_stand_at_places(rt: HostRuntime) -> Result<(), Fail> {
    let case = fixture_of(&rt, ROWS.as_bytes(), b"thread spin\nthread spin\n")?;
    assert_cuts_ahead(&rt, &case, 70, CUTS)?;
    assert_stands_ahead(&rt, &case)
}

/// Up to two local instructions run with a move, so each of these operations is four moves: its
/// call, two of its own, and its return.
const LONG: &[u8] = b"component long
local 2
word w 1 0
op put 0
set r0 1
set r1 2
set r2 3
store w 0 r0
return r0
end
op think 0
set r0 1
set r1 2
set r2 3
set r3 4
set r4 5
return r0
end
";

/// Of two threads with four moves each.
#[test]
fn longer_moves_are_certain(rt: HostRuntime) -> Result<(), Fail> {
    let case = fixture_of(&rt, LONG, b"thread put\nthread think\n")?;
    let cuts = [(4, Some(16)), (5, Some(30)), (7, Some(70)), (8, None)];
    assert_cuts_ahead(&rt, &case, 40, &cuts)
}

/// Three places, then one after which nothing is read.
const COUNTER: &[u8] = b"component counter
word count 1 0
op inc 0
load r0 count 0
add r1 r0 1
store count 0 r1
return 0
end
";

/// A place of `inc`, a register, and whether it is dead there. There is no place 4.
const DEAD: &[(u8, u8, bool)] = &[
    (0, 0, true),
    (1, 0, false),
    (1, 1, true),
    (2, 0, true),
    (2, 1, false),
    (3, 1, true),
    (3, 7, true),
    (4, 0, false),
];

/// A register is dead before it is written, and after its last read.
#[test]
fn registers_that_nobody_reads_are_dead(rt: HostRuntime) -> Result<(), Fail> {
    let case = fixture_of(&rt, COUNTER, b"thread inc\n")?;
    let dead = DeadRegisters::new(rt.alloc(), &case.component)?;
    for (place, register, is_dead) in DEAD {
        assert!(rt;
            dead.is_dead(0, *place, *register) == *is_dead,
            "{place} {register}"
        );
    }
    Ok(())
}
