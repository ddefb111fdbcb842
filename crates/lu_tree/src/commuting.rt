//! Moves of two threads that commute.
//!
//! Where the only moves of two threads lead to one state, whichever comes first (Mazurkiewicz,
//! 1977), and the other order has no more precedence, the schedules below are the same in both
//! orders, and good in the other where they are in the one. They are walked after the one order,
//! and counted after both. Moves that access nothing of what the other changes are independent, so
//! they lead to one state; of others it is seen by making them in both orders. The states may
//! differ in dead registers, which nothing reads any more.

ghost use Rattle.std.specs.Prelude.{◌≡◌, ◌≢◌, ◌<◌, ◌↔◌, ℕ, false, true, IfNone, IfSome, Some};
ghost use Rattle.lu_machine.specs.States.{State as AState};
ghost use Rattle.lu_machine.specs.Steps.{picks_of};
ghost use Rattle.lu_machine.specs.Undoes.{CanTake, restored};
ghost use Rattle.lu_test.specs.declared.matrix.TheConstants.{MOST_THREADS};
ghost use Rattle.lu_tree.specs.Accesses.{HasLocation, conflict_of};
ghost use Rattle.lu_tree.specs.Known.{AreFree, AreFrom, Commute, HaveSameEvents, IsIdleAfter, IsKnownBy, MadeBoth, MoveNotBoth, Moves, taken_back};
ghost use Rattle.lu_tree.specs.Reordered.{AreUnordered};

use crate::access::{Location, are_left_alike, conflict, left_at, next_access};
use crate::known::{Hints, Known};
use lu_horizon::DeadRegisters;
use lu_machine::{Activity, Event, Machine, Undo};
use lu_test::Move;

/// How two moves that were made one after the other are taken back.
#[derive(Clone, Copy)]
struct TwoUndos {
    first: Undo,
    second: Undo,
}

/// Makes the only move of the thread, and says how to take it back.
#[inline(always)]
fn make_move<const RUNS_LOCAL: bool>(thread: u8, machine: &mut Machine<'_>) -> Undo
    requires one { RUNS_LOCAL ≡ false → machine.old.component.local ≡ 0 }
    requires only { picks_of machine.old thread ≡ 1 }
    ensures moves { Moves thread machine.old machine.new result.event }
    ensures back { restored result machine.new ≡ machine.old }
    ensures fits { CanTake machine.new result }
{
    machine.apply_as::<RUNS_LOCAL>(Move { thread, pick: 0 })
}

/// Makes the only moves of two threads, one after the other: none where the second has not exactly
/// one pick then.
#[inline(always)]
fn make_both<const RUNS_LOCAL: bool>(
    first: u8,
    second: u8,
    machine: &mut Machine<'_>,
) -> Option<TwoUndos>
    requires one { RUNS_LOCAL ≡ false → machine.old.component.local ≡ 0 }
    requires only { picks_of machine.old first ≡ 1 }
    ensures made { IfSome result (MadeBoth first second machine.old machine.new) }
    ensures none { IfNone result (MoveNotBoth first second machine.old) }
    ensures back { IfNone result (machine.new ≡ machine.old) }
{
    let undo = make_move::<RUNS_LOCAL>(first, machine);
    if machine.picks(second) != 1 {
        machine.undo(undo);
        return None;
    }
    Some(TwoUndos {
        first: undo,
        second: make_move::<RUNS_LOCAL>(second, machine),
    })
}

/// Takes back both moves.
#[inline(always)]
fn take_back(both: TwoUndos, machine: &mut Machine<'_>)
    requires second { CanTake machine.old both.second }
    requires first { CanTake (restored both.second machine.old) both.first }
    ensures { machine.new ≡ taken_back both machine.old }
{
    machine.undo(both.second);
    machine.undo(both.first);
}

/// Whether two events have no more precedence in the other order: one of them is none, or both are
/// calls, or returns, of different threads, or the first is a return and the second a call.
#[inline(always)]
fn are_unordered(one: Option<Event>, other: Option<Event>) -> bool
    ensures { result ≡ true ↔ AreUnordered one other }
{
    match (one, other) {
        (None, _) | (_, None) => true,
        (Some(Event::Call { t, .. }), Some(Event::Call { t: u, .. })) => t != u,
        (Some(Event::Return { t, .. }), Some(Event::Return { t: u, .. })) => t != u,
        (Some(Event::Return { .. }), Some(Event::Call { .. })) => true,
        (Some(Event::Call { .. }), Some(Event::Return { .. })) => false,
    }
}

/// Whether two moves have the same events in the other order, and no more precedence.
#[inline(always)]
fn have_same_events(there: TwoUndos, here: TwoUndos) -> bool
    ensures { result ≡ true ↔ HaveSameEvents there here }
{
    are_unordered(there.first.event(), there.second.event())
        && there.first.event() == here.second.event()
        && there.second.event() == here.first.event()
}

/// Whether no operation of the thread is open.
#[inline(always)]
fn is_idle(machine: &Machine<'_>, thread: u8) -> bool
    ensures { (k : ℕ) → IsIdleAfter k thread machine.now → result ≡ true }
{
    match machine.standing(thread) {
        None => false,
        Some(standing) => matches!(standing.activity, Activity::Idle),
    }
}

/// The event of the only move of the thread.
#[inline(always)]
fn event_of<const RUNS_LOCAL: bool>(thread: u8, machine: &mut Machine<'_>) -> Option<Event>
    requires one { RUNS_LOCAL ≡ false → machine.old.component.local ≡ 0 }
    requires only { picks_of machine.old thread ≡ 1 }
    ensures machine { machine.new ≡ machine.old }
    ensures event { (next : AState) × Moves thread machine.old next result }
{
    let undo = make_move::<RUNS_LOCAL>(thread, machine);
    let event = undo.event();
    machine.undo(undo);
    event
}

/// Whether the events of the only moves of two threads, which are independent, have no more
/// precedence in the other order. Only the opening of a call can have more.
#[inline(always)]
fn are_free<const RUNS_LOCAL: bool>(first: u8, second: u8, machine: &mut Machine<'_>) -> bool
    requires one { RUNS_LOCAL ≡ false → machine.old.component.local ≡ 0 }
    requires first { picks_of machine.old first ≡ 1 }
    requires second { picks_of machine.old second ≡ 1 }
    requires differ { first ≢ second }
    ensures machine { machine.new ≡ machine.old }
    ensures free { result ≡ true ↔ AreFree first second machine.old }
{
    if !is_idle(machine, first) {
        return true;
    }
    let one = event_of::<RUNS_LOCAL>(first, machine);
    let other = event_of::<RUNS_LOCAL>(second, machine);
    are_unordered(one, other)
}

/// Whether the only moves of two threads, which both access this location, commute. They are made
/// in both orders: whatever else there is stays as it was in either.
fn commute_at<const RUNS_LOCAL: bool>(
    first: u8,
    second: u8,
    location: Location,
    dead: &DeadRegisters,
    machine: &mut Machine<'_>,
) -> bool
    requires one { RUNS_LOCAL ≡ false → machine.old.component.local ≡ 0 }
    requires first { picks_of machine.old first ≡ 1 }
    requires second { picks_of machine.old second ≡ 1 }
    requires differ { first ≢ second }
    requires at { conflict_of machine.old first second ≡ Some location }
    requires there { HasLocation machine.old location }
    ensures machine { machine.new ≡ machine.old }
    ensures commute { result ≡ true ↔ Commute dead.now first second machine.old }
{
    let Some(there) = make_both::<RUNS_LOCAL>(first, second, machine) else {
        return false;
    };
    let left = left_at(machine, first, second, location);
    take_back(there, machine);
    let Some(here) = make_both::<RUNS_LOCAL>(second, first, machine) else {
        return false;
    };
    let alike = are_left_alike(dead, left, left_at(machine, first, second, location));
    take_back(here, machine);
    alike && have_same_events(there, here)
}

/// Whether the moves of two threads are their only ones and commute: in the other order they lead
/// to the same state, but for dead registers, and with no more precedence. Where they are
/// independent neither is made, unless one opens a call.
fn commute<const RUNS_LOCAL: bool>(
    first: u8,
    second: u8,
    dead: &DeadRegisters,
    machine: &mut Machine<'_>,
) -> bool
    requires one { RUNS_LOCAL ≡ false → machine.old.component.local ≡ 0 }
    requires differ { first ≢ second }
    ensures machine { machine.new ≡ machine.old }
    ensures commute { result ≡ true ↔ Commute dead.now first second machine.old }
{
    if machine.picks(first) != 1 || machine.picks(second) != 1 {
        return false;
    }
    match conflict(next_access(machine, first), next_access(machine, second)) {
        None => are_free::<RUNS_LOCAL>(first, second, machine),
        Some(location) => commute_at::<RUNS_LOCAL>(first, second, location, dead, machine),
    }
}

/// What is known after the only move of the thread, by a hint or since it was walked.
#[inline(always)]
fn known_after<'h: 'k, 'k>(hints: &Hints<'h>, known: &'k Known, thread: u8) -> Option<&'k Known>
    ensures { IfSome result (λ below. IsKnownBy hints.now known.now thread below.now) }
{
    match hints.after(thread) {
        Some(below) => Some(below),
        None => known.after(thread),
    }
}

/// What is known after the moves of other threads that commute with that of the thread, where this
/// one is made first.
pub(crate) fn hints_after<'h: 'k, 'k, const RUNS_LOCAL: bool>(
    thread: u8,
    hints: &Hints<'h>,
    known: &'k Known,
    dead: &DeadRegisters,
    machine: &mut Machine<'_>,
) -> Hints<'k>
    requires few { thread < MOST_THREADS }
    requires one { RUNS_LOCAL ≡ false → machine.old.component.local ≡ 0 }
    ensures machine { machine.new ≡ machine.old }
    ensures from { AreFrom dead.now machine.old hints.now known.now thread result }
{
    let mut found = Hints::NONE;
    for other in 0..machine.threads() {
        if other == thread {
            continue;
        }
        let Some(first) = known_after(hints, known, other) else {
            continue;
        };
        let Some(below) = first.after(thread) else {
            continue;
        };
        if commute::<RUNS_LOCAL>(other, thread, dead, machine) {
            found.add(other, below);
        }
    }
    found
}
