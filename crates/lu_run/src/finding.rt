//! A search for one linearization of a run.

ghost use Rattle.std.specs.Prelude.{◌≡◌, ◌↔◌, ◌<◌, ◌≤◌, ◌++◌, ◌+◌, ◌∷◌, [], IfErr, IfOk, IfSome, IsTrue, None, OnOk, length, replicate};
ghost use Rattle.lu_history.specs.Parts.{as_serial};
ghost use Rattle.lu_machine.specs.declared.TheConstants.{MOST_MOVES};
ghost use Rattle.lu_run.specs.Finding.{Finds, FindsAttempt, HasEffect, IfOpens, IsAfterCall, IsAfterEffect, IsAfterReturn, IsAlike, IsAttempt, IsLaterPart, Opens};
ghost use Rattle.lu_run.specs.Following.{HasState};
ghost use Rattle.lu_run.specs.Offending.{IsFollowFaultOf, LearnsBy};
ghost use Rattle.lu_run.specs.Runs.{AreEventsOf};
ghost use Rattle.lu_run.specs.Tables.{AreCallsOf, IsTable};

use crate::automaton::{ThreadCall, is_allowed};
use crate::following::{FollowFault, SerialRuns, question_at};
use crate::judging::next_return;
use crate::likely::{NEVER, likely_events};
use crate::run::RunEvent;
use crate::table::{Table, learn, recall};
use indexmap::IndexSet;
use lu_history::SerialOutcome;
use lu_linearization::Configuration;
use lu_machine::Outcome;
use std::alloc::{AllocError, Global};

/// A linearization of the first events of a run, as far as it matters for the events that come next.
#[derive(Clone, Copy)]
pub(crate) struct Attempt {
    /// The number of these events.
    pub(crate) events: usize,

    /// For each thread, its pending call.
    pub(crate) pending: [Option<ThreadCall>; 8],

    /// For each thread, what its pending call returns, if it returns.
    pub(crate) returns: [Option<SerialOutcome>; 8],

    pub(crate) configuration: Configuration,

    /// For each thread, the event at which its pending operation is likely to have taken effect.
    likely: [usize; 8],

    /// The threads in the order in which their operations are likely to take effect, the last first.
    order: [u8; 8],

    /// The number of the last operation that took effect, from 1, in the order in which they were
    /// noted; 0 if there is none, or if they are not noted.
    last: u32,
}

/// What tells an attempt from others: two with the same are rarely worth going on from.
#[derive(Clone, Copy, Debug, PartialEq, Eq, Hash)]
struct Seen {
    events: usize,
    state: u32,

    /// The threads whose pending operations have taken effect, one bit each.
    effects: u8,
}

/// An operation that took effect in an attempt.
#[derive(Clone, Copy, Debug)]
struct Noted {
    /// The number of the operation that took effect before it; 0 if there is none.
    before: u32,

    thread: u8,
}

/// The attempts that were gone on from.
#[derive(Drop)]
pub(crate) struct Past {
    /// For each event that is a call, the event at which its operation is likely to have taken effect.
    likely: Vec<usize>,

    seen: IndexSet<Seen>,

    /// The operations that took effect in attempts.
    noted: Vec<Noted>,

    /// Whether they are noted.
    notes: bool,

    /// The most events that an attempt had.
    furthest: usize,

    /// The number of attempts since one had more events than those before.
    idle: u32,
}

/// The number of attempts that are remembered, and of those that may be open.
const MOST_KEPT: usize = 131_072;

/// The number of attempts without a further event after which the search gives up.
const MOST_IDLE: u32 = 524_288;

/// The number of attempts, for each event, after which the search gives up.
const MOST_FOR_EVENT: usize = 64;

/// The attempt before any event.
pub(crate) fn first_attempt() -> Attempt
    ensures events { result.events ≡ 0 }
    ensures state { result.configuration.state ≡ 0 }
    ensures pending { result.pending ≡ replicate 8 None }
    ensures effects { result.configuration.effects ≡ replicate 8 None }
{
    Attempt {
        events: 0,
        pending: [None; 8],
        returns: [None; 8],
        configuration: Configuration {
            state: 0,
            effects: [None; 8],
        },
        likely: [NEVER; 8],
        order: [0, 1, 2, 3, 4, 5, 6, 7],
        last: 0,
    }
}

/// The attempt after one more call, with what it returns later. `next` is the number of the events
/// with it.
pub(crate) fn after_call(
    from: &Attempt,
    next: usize,
    call: ThreadCall,
    returns: Option<SerialOutcome>,
) -> Attempt
    requires next { next ≡ from.now.events + 1 }
    requires thread { call.thread < 8 }
    ensures { IsAfterCall from.now call result }
{
    let mut to = *from;
    to.events = next;
    to.pending[usize::from(call.thread)] = Some(call);
    to.returns[usize::from(call.thread)] = returns;
    to
}

/// The attempt after the thread's operation returns. `next` is the number of the events with it.
pub(crate) fn after_return(from: &Attempt, next: usize, thread: u8) -> Attempt
    requires next { next ≡ from.now.events + 1 }
    requires thread { thread < 8 }
    ensures { IsAfterReturn from.now thread result }
{
    let mut to = *from;
    to.events = next;
    to.pending[usize::from(thread)] = None;
    to.configuration.effects[usize::from(thread)] = None;
    to
}

/// The attempt in which the thread's pending operation has this outcome and leads to this state.
fn with_effect(from: &Attempt, thread: usize, outcome: SerialOutcome, state: u32) -> Attempt
    requires { thread < 8 }
    ensures { HasEffect from.now thread outcome state result }
{
    let mut to = *from;
    to.configuration.state = state;
    to.configuration.effects[thread] = Some(outcome);
    to
}

/// The attempt in which the thread's pending operation takes effect. None where it has no pending
/// operation, where that has taken effect already, where it is stuck, or where it returns something
/// else later.
///
/// # Errors
///
/// After some serial calls, a call takes more moves than the bound, or has two outcomes; or out of
/// memory.
pub(crate) fn take_effect(
    runs: SerialRuns<'_>,
    table: &mut Table,
    from: &Attempt,
    thread: usize,
) -> Result<Option<Attempt>, FollowFault>
    requires table { IsTable runs.component.now runs.calls.now table.old }
    requires calls { AreCallsOf runs.component.now runs.calls.now }
    requires from { IsAttempt runs.calls.now table.old from.now }
    requires thread { thread < 8 }
    requires few { runs.bound ≤ MOST_MOVES }
    ensures learns { OnOk result (LearnsBy runs.entry table.old table.new) }
    ensures effect { IfOk result
        (λ to. IfSome to (IsAfterEffect table.new from.now thread)) }
    ensures offends { IfErr result (IsFollowFaultOf runs.entry table.old) }
{
    let Some(question) = question_at(&from.pending, &from.configuration, thread) else {
        return Ok(None);
    };
    learn(
        runs.alloc,
        runs.component,
        runs.calls,
        runs.bound,
        table,
        question,
    )?;
    match recall(table, question) {
        Some(Some((outcome, state))) => {
            if is_allowed(&from.returns, question.thread, outcome) {
                Ok(Some(with_effect(from, thread, outcome, state)))
            } else {
                Ok(None)
            }
        }
        _ => Ok(None),
    }
}

/// Adds the attempt.
fn add(open: &mut Vec<Attempt>, attempt: Attempt) -> Result<(), AllocError>
    ensures { OnOk result (open.new.items ≡ open.old.items ++ attempt ∷ []) }
{
    open.push(attempt)?;
    Ok(())
}

/// Notes that the thread's operation takes effect, after the operation with the number `before`.
/// Returns its number; 0 if it is not noted.
fn note(past: &mut Past, before: u32, thread: usize) -> Result<u32, AllocError> {
    if !past.notes {
        return Ok(0);
    }
    let (Ok(number), Ok(thread)) = (u32::try_from(past.noted.len()), u8::try_from(thread)) else {
        return Err(AllocError);
    };
    past.noted.push(Noted { before, thread })?;
    Ok(number.saturating_add(1))
}

/// The attempt with another last operation.
fn with_last(attempt: &Attempt, last: u32) -> Attempt
    ensures { IsAlike attempt.now result }
{
    let mut to = *attempt;
    to.last = last;
    to
}

/// Puts the thread at this place, and says which place comes next.
fn put(order: &mut [u8; 8], place: usize, thread: u8) -> usize {
    if let Some(slot) = order.get_mut(place) {
        *slot = thread;
    }
    place.saturating_add(1)
}

/// When the thread's pending operation is likely to take effect.
fn likely_of(attempt: &Attempt, thread: u8) -> usize {
    attempt
        .likely
        .get(usize::from(thread))
        .copied()
        .unwrap_or(NEVER)
}

/// The threads of the attempt in the order in which their operations are likely to take effect, the
/// last first. That was so before for all but this one.
fn reordered(attempt: &Attempt, thread: u8) -> [u8; 8] {
    let mut order = attempt.order;
    let mut place = 0usize;
    let mut is_in = false;
    for at in 0..8 {
        let other = attempt.order[at];
        if other != thread {
            if !is_in && likely_of(attempt, other) < likely_of(attempt, thread) {
                place = put(&mut order, place, thread);
                is_in = true;
            }
            place = put(&mut order, place, other);
        }
    }
    if !is_in {
        put(&mut order, place, thread);
    }
    order
}

/// The attempt after a call of the thread, which is likely to take effect at this event.
fn with_likely(attempt: &Attempt, thread: u8, event: usize) -> Attempt
    ensures { IsAlike attempt.now result }
{
    let mut to = *attempt;
    if let Some(slot) = to.likely.get_mut(usize::from(thread)) {
        *slot = event;
    }
    to.order = reordered(&to, thread);
    to
}

/// Adds the attempt in which the thread's pending operation takes effect, if it can.
fn open_effect(
    runs: SerialRuns<'_>,
    table: &mut Table,
    from: &Attempt,
    thread: usize,
    past: &mut Past,
    open: &mut Vec<Attempt>,
) -> Result<(), FollowFault>
    requires table { IsTable runs.component.now runs.calls.now table.old }
    requires calls { AreCallsOf runs.component.now runs.calls.now }
    requires from { IsAttempt runs.calls.now table.old from.now }
    requires thread { thread < 8 }
    requires few { runs.bound ≤ MOST_MOVES }
    ensures learns { OnOk result (LearnsBy runs.entry table.old table.new) }
    ensures opens { OnOk result
        (Opens runs.entry from.now table.old open.old table.new open.new) }
    ensures offends { IfErr result (IsFollowFaultOf runs.entry table.old) }
{
    if let Some(to) = take_effect(runs, table, from, thread)? {
        let last = note(past, from.last, thread)?;
        add(open, with_last(&to, last))?;
    }
    Ok(())
}

/// Whether the thread's pending operation can take effect, and the state then stays as it is. `false`
/// where the table does not have that yet.
fn changes_nothing(table: &Table, from: &Attempt, thread: usize) -> bool
    requires { thread < 8 }
{
    let Some(question) = question_at(&from.pending, &from.configuration, thread) else {
        return false;
    };
    match recall(table, question) {
        Some(Some((outcome, state))) => {
            state == from.configuration.state && is_allowed(&from.returns, question.thread, outcome)
        }
        _ => false,
    }
}

/// A thread whose pending operation can take effect without a change of the state.
fn first_unchanged(table: &Table, from: &Attempt) -> Option<usize>
    ensures { IfSome result (λ thread. thread < 8) }
{
    for thread in 0..8 {
        if changes_nothing(table, from, thread) {
            return Some(thread);
        }
    }
    None
}

/// Adds each attempt in which one more pending operation takes effect. The one that is likely to take
/// effect before the others is the first to go on from.
fn open_each_effect(
    runs: SerialRuns<'_>,
    table: &mut Table,
    from: &Attempt,
    past: &mut Past,
    open: &mut Vec<Attempt>,
) -> Result<(), FollowFault>
    requires table { IsTable runs.component.now runs.calls.now table.old }
    requires calls { AreCallsOf runs.component.now runs.calls.now }
    requires from { IsAttempt runs.calls.now table.old from.now }
    requires few { runs.bound ≤ MOST_MOVES }
    ensures learns { OnOk result (LearnsBy runs.entry table.old table.new) }
    ensures opens { OnOk result
        (Opens runs.entry from.now table.old open.old table.new open.new) }
    ensures offends { IfErr result (IsFollowFaultOf runs.entry table.old) }
{
    for place in 0..8 {
        let thread = usize::from(from.order[place]);
        if thread < 8 {
            open_effect(runs, table, from, thread, past, open)?;
        }
    }
    Ok(())
}

/// Adds each attempt in which one more pending operation takes effect. If there is one that changes
/// nothing, it is the first to go on from. It is added twice then, and gone on from once.
fn open_effects(
    runs: SerialRuns<'_>,
    table: &mut Table,
    from: &Attempt,
    past: &mut Past,
    open: &mut Vec<Attempt>,
) -> Result<(), FollowFault>
    requires table { IsTable runs.component.now runs.calls.now table.old }
    requires calls { AreCallsOf runs.component.now runs.calls.now }
    requires from { IsAttempt runs.calls.now table.old from.now }
    requires few { runs.bound ≤ MOST_MOVES }
    ensures learns { OnOk result (LearnsBy runs.entry table.old table.new) }
    ensures opens { OnOk result
        (Opens runs.entry from.now table.old open.old table.new open.new) }
    ensures offends { IfErr result (IsFollowFaultOf runs.entry table.old) }
{
    open_each_effect(runs, table, from, past, open)?;
    match first_unchanged(table, from) {
        None => Ok(()),
        Some(thread) => {
            open_effect(runs, table, from, thread, past, open)?;
            Ok(())
        }
    }
}

/// Whether the operation took effect with this outcome.
pub(crate) fn is_outcome(effect: SerialOutcome, outcome: Outcome) -> bool
    ensures { IsTrue result ↔ (effect ≡ as_serial outcome) }
{
    effect == SerialOutcome::from(outcome)
}

/// Adds the attempts to which this one leads: that after the next event, if there is one; else, if
/// the next event is a return of an operation that has not taken effect, those in which one more
/// operation has.
fn go_on(
    runs: SerialRuns<'_>,
    table: &mut Table,
    events: &[RunEvent],
    from: &Attempt,
    past: &mut Past,
    open: &mut Vec<Attempt>,
) -> Result<(), FollowFault>
    requires table { IsTable runs.component.now runs.calls.now table.old }
    requires calls { AreCallsOf runs.component.now runs.calls.now }
    requires events { AreEventsOf runs.calls.now events.now }
    requires from { IsAttempt runs.calls.now table.old from.now }
    requires next { from.now.events < length events.now }
    requires few { runs.bound ≤ MOST_MOVES }
    ensures learns { OnOk result (LearnsBy runs.entry table.old table.new) }
    ensures opens { IfOpens runs.entry
        events.now from.now table.old open.old table.new open.new result }
    ensures offends { IfErr result (IsFollowFaultOf runs.entry table.old) }
{
    let next = from.events + 1;
    match events[from.events] {
        RunEvent::Call { thread, call } => {
            let returns = next_return(thread, &events[next..]);
            let to = after_call(from, next, ThreadCall { thread, call }, returns);
            let event = past.likely.get(from.events).copied().unwrap_or(NEVER);
            add(open, with_likely(&to, thread, event))?;
            Ok(())
        }
        RunEvent::Return { thread, outcome } => {
            match from.configuration.effects[usize::from(thread)] {
                None => {
                    open_effects(runs, table, from, past, open)?;
                    Ok(())
                }
                Some(effect) => {
                    if is_outcome(effect, outcome) {
                        add(open, after_return(from, next, thread))?;
                    }
                    Ok(())
                }
            }
        }
    }
}

/// The threads whose pending operations have taken effect, one bit each.
fn effect_bits(configuration: &Configuration) -> u8 {
    let mut bits = 0u8;
    for effect in configuration.effects {
        bits = bits << 1 | u8::from(effect.is_some());
    }
    bits
}

/// Notes the attempt. Returns whether to go on from it: not where one like it was noted before.
fn is_new(alloc: Global, past: &mut Past, attempt: &Attempt) -> Result<bool, AllocError> {
    if past.seen.len() >= MOST_KEPT {
        past.seen = IndexSet::new(alloc);
    }
    let is_new = past.seen.insert(Seen {
        events: attempt.events,
        state: attempt.configuration.state,
        effects: effect_bits(&attempt.configuration),
    })?;
    Ok(is_new)
}

/// Counts the attempt. Returns whether there were too many without a further event.
fn is_too_long(past: &mut Past, attempt: &Attempt) -> bool {
    if attempt.events > past.furthest {
        past.furthest = attempt.events;
        past.idle = 0;
    } else {
        past.idle = past.idle.saturating_add(1);
    }
    past.idle >= MOST_IDLE
}

/// Forgets the earlier half of the open attempts where there are too many.
fn forget_earlier(alloc: Global, open: &mut Vec<Attempt>) -> Result<(), AllocError>
    ensures { OnOk result (IsLaterPart open.old.items open.new.items) }
{
    if open.len() >= MOST_KEPT {
        let later = Vec::from_slice(alloc, &open[MOST_KEPT / 2..])?;
        *open = later;
    }
    Ok(())
}

/// Nothing that was gone on from yet. `notes` says whether operations are noted.
///
/// # Errors
///
/// Out of memory.
fn no_past(runs: SerialRuns<'_>, events: &[RunEvent], notes: bool) -> Result<Past, AllocError> {
    Ok(Past {
        likely: likely_events(runs.alloc, runs.calls, events)?,
        seen: IndexSet::new(runs.alloc),
        noted: Vec::new(runs.alloc),
        notes,
        furthest: 0,
        idle: 0,
    })
}

/// The attempt at all events of a run, if one is found. None says nothing: the search gives up after
/// some time, and forgets what it has not gone on from where that is too much.
///
/// The search is that of Wing and Gong (1993) with the memo of Lowe (2017): a depth-first search, in
/// which operations take effect where the next return needs it. One that changes nothing goes first,
/// and else the one that is likely to take effect before the others.
fn search(
    runs: SerialRuns<'_>,
    table: &mut Table,
    events: &[RunEvent],
    past: &mut Past,
) -> Result<Option<Attempt>, FollowFault>
    requires table { IsTable runs.component.now runs.calls.now table.old }
    requires start { HasState table.old 0 }
    requires calls { AreCallsOf runs.component.now runs.calls.now }
    requires events { AreEventsOf runs.calls.now events.now }
    requires few { runs.bound ≤ MOST_MOVES }
    ensures learns { OnOk result (LearnsBy runs.entry table.old table.new) }
    ensures finds { FindsAttempt runs.entry table.old events.now result }
    ensures offends { IfErr result (IsFollowFaultOf runs.entry table.old) }
{
    let mut open = Vec::new(runs.alloc);
    add(&mut open, first_attempt())?;
    let most = events
        .len()
        .saturating_mul(MOST_FOR_EVENT)
        .saturating_add(MOST_KEPT);
    for _attempt in 0..most {
        let Some(attempt) = open.pop() else {
            return Ok(None);
        };
        if attempt.events >= events.len() {
            return Ok(Some(attempt));
        }
        if is_too_long(past, &attempt) {
            return Ok(None);
        }
        if is_new(runs.alloc, past, &attempt)? {
            go_on(runs, table, events, &attempt, past, &mut open)?;
            forget_earlier(runs.alloc, &mut open)?;
        }
    }
    Ok(None)
}

/// Whether the events, all of a run, have a linearization. `false` says nothing.
///
/// # Errors
///
/// After some serial calls, a call takes more moves than the bound, or has two outcomes; or out of
/// memory.
pub(crate) fn find_linearization(
    runs: SerialRuns<'_>,
    table: &mut Table,
    events: &[RunEvent],
) -> Result<bool, FollowFault>
    requires table { IsTable runs.component.now runs.calls.now table.old }
    requires start { HasState table.old 0 }
    requires calls { AreCallsOf runs.component.now runs.calls.now }
    requires events { AreEventsOf runs.calls.now events.now }
    requires few { runs.bound ≤ MOST_MOVES }
    ensures learns { OnOk result (LearnsBy runs.entry table.old table.new) }
    ensures finds { Finds runs.entry table.old events.now result }
    ensures offends { IfErr result (IsFollowFaultOf runs.entry table.old) }
{
    let mut past = no_past(runs, events, false)?;
    match search(runs, table, events, &mut past)? {
        None => Ok(false),
        Some(_) => Ok(true),
    }
}

/// The threads of the operations that took effect up to the one with this number, the last first.
fn threads_back(alloc: Global, noted: &[Noted], last: u32) -> Result<Vec<u8>, AllocError> {
    let mut threads = Vec::new(alloc);
    let mut number = last as usize;
    for _step in 0..noted.len() {
        let Some(before) = number.checked_sub(1) else {
            return Ok(threads);
        };
        let Some(one) = noted.get(before) else {
            return Ok(threads);
        };
        threads.push(one.thread)?;
        number = one.before as usize;
    }
    Ok(threads)
}

/// The threads of the operations in an order in which they may take effect, for which the events are
/// linearizable, the last first. None if no such order is found.
///
/// # Errors
///
/// After some serial calls, a call takes more moves than the bound, or has two outcomes; or out of
/// memory.
pub(crate) fn find_threads(
    runs: SerialRuns<'_>,
    table: &mut Table,
    events: &[RunEvent],
) -> Result<Option<Vec<u8>>, FollowFault>
    requires table { IsTable runs.component.now runs.calls.now table.old }
    requires start { HasState table.old 0 }
    requires calls { AreCallsOf runs.component.now runs.calls.now }
    requires events { AreEventsOf runs.calls.now events.now }
    requires few { runs.bound ≤ MOST_MOVES }
    ensures learns { OnOk result (LearnsBy runs.entry table.old table.new) }
    ensures offends { IfErr result (IsFollowFaultOf runs.entry table.old) }
{
    let mut past = no_past(runs, events, true)?;
    match search(runs, table, events, &mut past)? {
        None => Ok(None),
        Some(attempt) => Ok(Some(threads_back(runs.alloc, &past.noted, attempt.last)?)),
    }
}
