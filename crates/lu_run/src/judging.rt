//! The verdict on a run.

ghost use Rattle.std.specs.Prelude.{◌≡◌, ◌<◌, ◌≤◌, ◌↔◌, IfErr, IfOk, IsTrue, OnOk};
ghost use Rattle.lu_machine.specs.declared.TheConstants.{MOST_MOVES};
ghost use Rattle.lu_machine.specs.Starts.{CanRun};
ghost use Rattle.lu_linearization.specs.Monitors.{by_thread};
ghost use Rattle.lu_run.specs.Following.{HasState};
ghost use Rattle.lu_run.specs.Foreseeing.{next_return};
ghost use Rattle.lu_run.specs.Judging.{EndsLost, FindsExpected, FindsFailure, FindsFirst, FindsLost, FindsPassing, IfAdvances, IfFollows, IfReady, IfTells, IsEndVerdict, IsReady, JudgesFrom, JudgesRun, NamesOffence, StuckIfPending, TellsNotStuck, first_effect, thread_of};
ghost use Rattle.lu_run.specs.Offending.{IsFollowFaultOf, LearnsBy};
ghost use Rattle.lu_run.specs.Runs.{AreEventsOf, IsEventOf, IsRun};
ghost use Rattle.lu_run.specs.Tables.{AreCallsOf, IsTable};

use crate::automaton::ThreadCall;
use crate::finding::find_linearization;
use crate::following::{FollowFault, Follower, SerialRuns, follow};
use crate::run::{Run, RunEvent};
use crate::starting::{first_table, start_of};
use crate::table::Table;
use lu_component::Component;
use lu_history::SerialOutcome;
use lu_linearization::{Configuration, Monitor};
use lu_test::Matrix;
use std::alloc::{AllocError, Global};

/// Where a run has no linearization any more.
#[derive(Clone, Copy, Debug, PartialEq, Eq)]
pub struct RunFailure {
    /// The number of the event after which the run has no linearization, counted from 0. Before it,
    /// the run has one.
    pub event: usize,

    /// An outcome that the event's operation has in some linearization of the events before; None if
    /// it has none in any.
    pub expected: Option<SerialOutcome>,
}

/// The verdict on a run.
#[derive(Clone, Copy, Debug, PartialEq, Eq)]
pub enum RunVerdict {
    /// The run is linearizable; or it is stuck, and so are its pending calls in some serial runs.
    Passes,

    /// The run does not pass: after an event it has no linearization.
    FailsAt(RunFailure),

    /// The run does not pass: it is stuck, and no serial run gets stuck in the pending call of this
    /// thread.
    CannotBeStuck(u8),

    /// The specification is none: after a serial run of some of the run's calls, this call, made by
    /// this thread, takes more moves than the bound, or has two outcomes.
    Offends { thread: u8, call: u32 },
}

/// What the pending call of the thread returns in these events; None if it does not return.
pub(crate) fn next_return(thread: u8, more: &[RunEvent]) -> Option<SerialOutcome>
    ensures { result ≡ next_return thread more.now }
{
    for event in more {
        match *event {
            RunEvent::Call { .. } => {}
            RunEvent::Return {
                thread: other,
                outcome,
            } => {
                if other == thread {
                    return Some(SerialOutcome::from(outcome));
                }
            }
        }
    }
    None
}

/// The follower after one more event, where the events `more` come next.
///
/// # Errors
///
/// After some serial calls, a call takes more moves than the bound, or has two outcomes; or out of
/// memory.
fn advance(
    runs: SerialRuns<'_>,
    table: &mut Table,
    follower: Follower,
    event: RunEvent,
    more: &[RunEvent],
) -> Result<Follower, FollowFault>
    requires ready { IsReady runs.component.now runs.calls.now table.old follower }
    requires calls { AreCallsOf runs.component.now runs.calls.now }
    requires event { IsEventOf runs.calls.now event }
    requires few { runs.bound ≤ MOST_MOVES }
    ensures ready { IfReady runs.entry.component.now runs.entry.calls.now table.new result }
    ensures learns { OnOk result (LearnsBy runs.entry table.old table.new) }
    ensures advances { IfAdvances
        runs.entry event more.now table.old follower table.new result }
    ensures offends { IfErr result (IsFollowFaultOf runs.entry table.old) }
{
    let mut next = follower;
    match event {
        RunEvent::Call { thread, call } => {
            next.pending[usize::from(thread)] = Some(ThreadCall { thread, call });
            next.returns[usize::from(thread)] = next_return(thread, more);
            next.monitor = follow(runs, table, &next, thread)?;
            Ok(next)
        }
        RunEvent::Return { thread, outcome } => {
            next.pending[usize::from(thread)] = None;
            next.monitor = next.monitor.ret(runs.alloc, thread, outcome)?;
            Ok(next)
        }
    }
}

/// Whether the pending call, if there is one, can be stuck.
fn is_stuck_if_pending(table: &Table, monitor: &Monitor, pending: Option<ThreadCall>) -> bool
    ensures { IsTrue result ↔ StuckIfPending table.now monitor.now pending }
{
    match pending {
        None => true,
        Some(call) => monitor.can_be_stuck(table, call),
    }
}

/// The first thread whose pending call can't be stuck, if there is one.
fn first_not_stuck(
    table: &Table,
    monitor: &Monitor,
    pending: &[Option<ThreadCall>; 8],
) -> Option<u8>
    ensures { TellsNotStuck table.now monitor.now pending.now result }
{
    for thread in 0..8u8 {
        if !is_stuck_if_pending(table, monitor, pending[usize::from(thread)]) {
            return Some(thread);
        }
    }
    None
}

/// The verdict at the end of a run that has a linearization.
fn end_verdict(
    is_stuck: bool,
    table: &Table,
    monitor: &Monitor,
    pending: &[Option<ThreadCall>; 8],
) -> RunVerdict
    ensures { IsEndVerdict is_stuck table.now monitor.now pending.now result }
{
    if !is_stuck {
        return RunVerdict::Passes;
    }
    match first_not_stuck(table, monitor, pending) {
        None => RunVerdict::Passes,
        Some(thread) => RunVerdict::CannotBeStuck(thread),
    }
}

/// The number of the first event after which no configuration is left, as far as the event with this
/// number.
fn note_lost(lost: Option<usize>, number: usize, monitor: &Monitor) -> Option<usize>
    ensures { FindsLost lost number monitor.now result }
{
    if lost.is_some() {
        return lost;
    }
    if monitor.is_empty() {
        return Some(number);
    }
    None
}

/// What was noted, if no configuration is left at the end; else None.
fn lost_at_end(lost: Option<usize>, monitor: &Monitor) -> Option<usize>
    ensures { EndsLost lost monitor.now result }
{
    if monitor.is_empty() {
        return lost;
    }
    None
}

/// Events that are followed to their end.
#[derive(Drop)]
struct Followed {
    follower: Follower,

    /// The number of the first event after which no configuration is left, if none is left.
    lost: Option<usize>,
}

/// Follows events from the start, which is the table's first state. What pending calls return later
/// in these events is foreseen.
///
/// # Errors
///
/// After some serial calls, a call takes more moves than the bound, or has two outcomes; or out of
/// memory.
fn follow_all(
    runs: SerialRuns<'_>,
    table: &mut Table,
    events: &[RunEvent],
) -> Result<Followed, FollowFault>
    requires table { IsTable runs.component.now runs.calls.now table.old }
    requires start { HasState table.old 0 }
    requires calls { AreCallsOf runs.component.now runs.calls.now }
    requires events { AreEventsOf runs.calls.now events.now }
    requires few { runs.bound ≤ MOST_MOVES }
    ensures learns { OnOk result (LearnsBy runs.entry table.old table.new) }
    ensures follows { IfFollows runs.entry table.old events.now table.new result }
    ensures tells { IfTells runs.entry table.old events.now result }
    ensures offends { IfErr result (IsFollowFaultOf runs.entry table.old) }
{
    let mut follower = Follower {
        pending: [None; 8],
        returns: [None; 8],
        monitor: Monitor::new(runs.alloc, 0)?,
    };
    let mut lost = None;
    for number in 0..events.len() {
        let more = &events[number + 1..];
        follower = advance(runs, table, follower, events[number], more)?;
        lost = note_lost(lost, number, &follower.monitor);
    }
    let lost = lost_at_end(lost, &follower.monitor);
    Ok(Followed { follower, lost })
}

/// The number of the first event after which the events have no linearization, if they have none,
/// and the first `kept` of them have one.
///
/// # Errors
///
/// After some serial calls, a call takes more moves than the bound, or has two outcomes; or out of
/// memory.
fn first_lost(
    runs: SerialRuns<'_>,
    table: &mut Table,
    events: &[RunEvent],
    kept: usize,
) -> Result<usize, FollowFault>
    requires table { IsTable runs.component.now runs.calls.now table.old }
    requires start { HasState table.old 0 }
    requires calls { AreCallsOf runs.component.now runs.calls.now }
    requires events { AreEventsOf runs.calls.now events.now }
    requires few { runs.bound ≤ MOST_MOVES }
    ensures learns { OnOk result (LearnsBy runs.entry table.old table.new) }
    ensures first { FindsFirst runs.entry table.old events.now kept result }
    ensures offends { IfErr result (IsFollowFaultOf runs.entry table.old) }
{
    let mut kept = kept;
    let mut lost = events.len();
    // (the event is near the one where the foreseen outcomes leave no configuration)
    let mut step = 1usize;
    while lost.saturating_sub(kept) > 1 {
        let ahead = step.min((lost - kept) / 2);
        let middle = kept + ahead;
        let all = follow_all(runs, table, &events[..middle])?;
        match all.lost {
            None => {
                kept = middle;
                step = 2 * ahead;
            }
            Some(_) => {
                lost = middle;
                step = ahead;
            }
        }
    }
    Ok(kept)
}

/// The thread of the event.
pub(crate) fn thread_of(event: RunEvent) -> u8
    ensures { result ≡ thread_of event }
{
    match event {
        RunEvent::Call { thread, .. } => thread,
        RunEvent::Return { thread, .. } => thread,
    }
}

/// The outcome of the thread's pending operation in the configuration, if it has taken effect there.
fn effect_of(one: &Configuration, thread: u8) -> Option<SerialOutcome>
    requires { thread < 8 }
    ensures { result ≡ by_thread one.now.effects thread }
{
    one.effects[usize::from(thread)]
}

/// The outcome of the thread's pending operation in the first configuration where it has taken effect.
fn first_effect(configurations: &[Configuration], thread: u8) -> Option<SerialOutcome>
    requires { thread < 8 }
    ensures { result ≡ first_effect thread configurations.now }
{
    for one in configurations {
        match effect_of(one, thread) {
            None => {}
            Some(outcome) => return Some(outcome),
        }
    }
    None
}

/// An outcome that the thread's pending operation has in some linearization of the events, if it has
/// one in any.
///
/// # Errors
///
/// After some serial calls, a call takes more moves than the bound, or has two outcomes; or out of
/// memory.
fn expected_outcome(
    runs: SerialRuns<'_>,
    table: &mut Table,
    events: &[RunEvent],
    thread: u8,
) -> Result<Option<SerialOutcome>, FollowFault>
    requires table { IsTable runs.component.now runs.calls.now table.old }
    requires start { HasState table.old 0 }
    requires calls { AreCallsOf runs.component.now runs.calls.now }
    requires events { AreEventsOf runs.calls.now events.now }
    requires few { runs.bound ≤ MOST_MOVES }
    requires thread { thread < 8 }
    ensures expects { FindsExpected runs.entry table.old events.now thread result }
    ensures offends { IfErr result (IsFollowFaultOf runs.entry table.old) }
{
    let all = follow_all(runs, table, events)?;
    Ok(first_effect(all.follower.monitor.configurations(), thread))
}

/// Where events have no linearization any more, if they have none, and the first `kept` of them have
/// one.
///
/// # Errors
///
/// After some serial calls, a call takes more moves than the bound, or has two outcomes; or out of
/// memory.
fn failure_of(
    runs: SerialRuns<'_>,
    table: &mut Table,
    events: &[RunEvent],
    kept: usize,
) -> Result<RunFailure, FollowFault>
    requires table { IsTable runs.component.now runs.calls.now table.old }
    requires start { HasState table.old 0 }
    requires calls { AreCallsOf runs.component.now runs.calls.now }
    requires events { AreEventsOf runs.calls.now events.now }
    requires few { runs.bound ≤ MOST_MOVES }
    ensures fails { FindsFailure runs.entry table.old events.now kept result }
    ensures offends { IfErr result (IsFollowFaultOf runs.entry table.old) }
{
    let event = first_lost(runs, table, events, kept)?;
    let Some(lost) = events.get(event) else {
        return Ok(RunFailure {
            event,
            expected: None,
        });
    };
    let thread = thread_of(*lost);
    let expected = expected_outcome(runs, table, &events[..event], thread)?;
    Ok(RunFailure { event, expected })
}

/// The verdict on a run that is not followed.
fn offence(fault: FollowFault) -> Result<RunVerdict, AllocError>
    ensures { IfOk result (NamesOffence fault) }
{
    match fault {
        FollowFault::Offends(call) => Ok(RunVerdict::Offends {
            thread: call.thread,
            call: call.call,
        }),
        FollowFault::Memory => Err(AllocError),
    }
}

/// The verdict on the run, where state 0 of the table is that of its start, by all of its
/// linearizations.
///
/// # Errors
///
/// Out of memory.
fn judge_by_all(
    runs: SerialRuns<'_>,
    table: &mut Table,
    run: &Run,
) -> Result<RunVerdict, AllocError>
    requires table { IsTable runs.component.now runs.calls.now table.old }
    requires start { HasState table.old 0 }
    requires calls { AreCallsOf runs.component.now runs.calls.now }
    requires same { runs.calls.now ≡ run.now.calls.items }
    requires run { IsRun run.now.calls.items run.now.events.items }
    requires few { runs.bound ≤ MOST_MOVES }
    ensures { JudgesFrom runs.entry table.old run.now result }
{
    let all = match follow_all(runs, table, &run.events) {
        Ok(all) => all,
        Err(fault) => return offence(fault),
    };
    match all.lost {
        None => Ok(end_verdict(
            run.is_stuck,
            &*table,
            &all.follower.monitor,
            &all.follower.pending,
        )),
        Some(kept) => match failure_of(runs, table, &run.events, kept) {
            Ok(failure) => Ok(RunVerdict::FailsAt(failure)),
            Err(fault) => offence(fault),
        },
    }
}

/// Whether a linearization of the run is found, if that is enough for the run to pass. `false` says
/// nothing.
///
/// # Errors
///
/// After some serial calls, a call takes more moves than the bound, or has two outcomes; or out of
/// memory.
fn passes_at_once(runs: SerialRuns<'_>, table: &mut Table, run: &Run) -> Result<bool, FollowFault>
    requires table { IsTable runs.component.now runs.calls.now table.old }
    requires start { HasState table.old 0 }
    requires calls { AreCallsOf runs.component.now runs.calls.now }
    requires events { AreEventsOf runs.calls.now run.now.events.items }
    requires few { runs.bound ≤ MOST_MOVES }
    ensures learns { OnOk result (LearnsBy runs.entry table.old table.new) }
    ensures finds { FindsPassing runs.entry table.old run.now result }
    ensures offends { IfErr result (IsFollowFaultOf runs.entry table.old) }
{
    if run.is_stuck {
        return Ok(false);
    }
    find_linearization(runs, table, &run.events)
}

/// Whether the run passes, with the component's serial runs as the specification, after the setup of
/// the matrix. The matrix's threads don't matter.
///
/// A run passes if it is linearizable (Herlihy and Wing, 1990). A run that is stuck passes if, for
/// each pending call, a serial run with the same operations gets stuck in this call (Burckhardt,
/// Dern, Musuvathi and Tan, 2010). A run that does not pass has the first event after which it has no
/// linearization, or else a thread whose pending call can't be stuck.
///
/// The serial runs are a specification only if each call has one outcome after the same serial calls,
/// within the bound. Where a call that comes up does not, the verdict names it. Calls come up in a
/// depth-first search for one linearization; if it finds none, in all linearizations.
///
/// `bound`, up to 256, is the number of moves that an operation may take after its call. The memory
/// that is needed depends on the states and the pending calls, and not on the length of the run.
///
/// # Errors
///
/// Out of memory.
pub fn judge_run(
    alloc: Global,
    component: &Component,
    matrix: &Matrix,
    run: &Run,
    bound: u16,
) -> Result<RunVerdict, AllocError>
    requires of { CanRun component.now matrix.now }
    requires calls { AreCallsOf component.now run.now.calls.items }
    requires run { IsRun run.now.calls.items run.now.events.items }
    requires few { bound ≤ MOST_MOVES }
    ensures { JudgesRun component.now matrix.now bound run.now result }
{
    let start = start_of(alloc, component, matrix)?;
    let mut table = first_table(alloc, start)?;
    let runs = SerialRuns {
        alloc,
        component,
        calls: &run.calls,
        bound,
    };
    match passes_at_once(runs, &mut table, run) {
        Ok(true) => Ok(RunVerdict::Passes),
        Ok(false) => judge_by_all(runs, &mut table, run),
        Err(fault) => offence(fault),
    }
}
