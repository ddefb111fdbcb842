//! When operations of a run are likely to take effect.
//!
//! Nothing here is promised. It only says which operation a search lets take effect first, and so how
//! soon it finds a linearization. A value that one operation takes as an argument and another returns
//! later was handed over between them, as by a queue: values are assumed to leave in the order in
//! which they came. Where most do not, as in a stack or a register, an operation is expected to take
//! effect just before it returns.

use crate::run::RunEvent;
use lu_machine::Outcome;
use lu_test::Call;
use std::alloc::{AllocError, Global};

/// How many values may be waited for at the same time.
const MOST_WAITING: usize = 64;

/// How many earlier values may still be waited for when one leaves in order.
const MOST_OVERTAKEN: usize = 8;

/// The event that an operation is expected to take effect at if nothing is known: after all others.
pub(crate) const NEVER: usize = usize::MAX;

/// Which outcome is in the lead among those of an operation, and by how many.
#[derive(Clone, Copy)]
struct Vote {
    outcome: Outcome,
    lead: usize,
}

/// A value that the call at this event has taken, and that no other has returned yet.
#[derive(Clone, Copy)]
struct Waiting {
    value: u32,
    event: usize,
}

/// The values that are waited for, the earliest first.
#[derive(Drop)]
struct Values {
    waiting: Vec<Waiting>,

    /// How many left as the first, but for some that overlapped, and how many others did.
    in_order: usize,
    out_of_order: usize,
}

/// A run, with what is known of its calls once all events are known.
#[derive(Clone, Copy)]
struct Known<'a> {
    calls: &'a [Call],
    events: &'a [RunEvent],

    /// For each event that is a call, the event with which it returns, or [`NEVER`].
    returns: &'a [usize],
}

impl<'a> Known<'a> {
    /// The call at the event, if that is a call.
    fn call_at(&self, event: usize) -> Option<&'a Call> {
        match self.events.get(event) {
            Some(RunEvent::Call { thread: _, call }) => self.calls.get(*call as usize),
            _ => None,
        }
    }

    /// What the call at the event returns, if it does.
    fn outcome_at(&self, event: usize) -> Option<Outcome> {
        let back = *self.returns.get(event)?;
        match self.events.get(back) {
            Some(RunEvent::Return { thread: _, outcome }) => Some(*outcome),
            _ => None,
        }
    }

    /// The event with which the call at the event returns, or [`NEVER`].
    fn return_at(&self, event: usize) -> usize {
        self.returns.get(event).copied().unwrap_or(NEVER)
    }
}

impl Values {
    /// One more value is waited for. The earliest is forgotten if there are too many.
    fn enter(&mut self, value: u32, event: usize) -> Result<(), AllocError> {
        if self.waiting.len() >= MOST_WAITING {
            self.waiting.remove(0);
        }
        self.waiting.push(Waiting { value, event })?;
        Ok(())
    }

    /// How many times this value is waited for.
    fn count(&self, value: u32) -> usize {
        let mut count = 0usize;
        for one in self.waiting.as_slice() {
            if one.value == value {
                count = count.saturating_add(1);
            }
        }
        count
    }

    /// The event at which the earliest of these values came, if one is waited for. It is no longer.
    fn leave(&mut self, value: u32) -> Option<usize> {
        let place = self.waiting.iter().position(|one| one.value == value)?;
        if place < MOST_OVERTAKEN && self.count(value) == 1 {
            self.in_order = self.in_order.saturating_add(1);
        } else {
            self.out_of_order = self.out_of_order.saturating_add(1);
        }
        if place < self.waiting.len() {
            return Some(self.waiting.remove(place).event);
        }
        None
    }
}

/// Puts the number at this place, if there is one.
fn put(numbers: &mut [usize], place: usize, number: usize) {
    if let Some(slot) = numbers.get_mut(place) {
        *slot = number;
    }
}

/// For each event that is a call, the event with which it returns, or [`NEVER`].
fn return_events(alloc: Global, events: &[RunEvent]) -> Result<Vec<usize>, AllocError> {
    let mut returns = Vec::new(alloc);
    let mut pending = [NEVER; 8];
    for event in 0..events.len() {
        returns.push(NEVER)?;
        match events[event] {
            RunEvent::Call { thread, call: _ } => put(&mut pending, usize::from(thread), event),
            RunEvent::Return { thread, outcome: _ } => {
                if let Some(call) = pending.get(usize::from(thread)) {
                    put(&mut returns, *call, event);
                }
            }
        }
    }
    Ok(returns)
}

/// One more call of an operation has this outcome.
fn count_vote(vote: &mut Vote, outcome: Outcome) {
    if vote.lead == 0 {
        vote.outcome = outcome;
        vote.lead = 1;
    } else if vote.outcome == outcome {
        vote.lead = vote.lead.saturating_add(1);
    } else {
        vote.lead = vote.lead.saturating_sub(1);
    }
}

/// For each operation, the outcome of more than half of its calls, if there is one.
fn usual_outcomes(known: Known<'_>) -> [Vote; 16] {
    let mut votes = [Vote {
        outcome: Outcome::Trap,
        lead: 0,
    }; 16];
    for event in 0..known.events.len() {
        if let (Some(call), Some(outcome)) = (known.call_at(event), known.outcome_at(event)) {
            if let Some(one) = votes.get_mut(usize::from(call.op)) {
                count_vote(one, outcome);
            }
        }
    }
    votes
}

/// Whether the call at the event returns something else than most calls of its operation: as a `put`
/// into a full queue, it may have done nothing.
fn is_unusual(known: Known<'_>, votes: &[Vote; 16], event: usize) -> bool {
    match (known.call_at(event), known.outcome_at(event)) {
        (Some(call), Some(outcome)) => match votes.get(usize::from(call.op)) {
            Some(vote) => vote.outcome != outcome,
            None => false,
        },
        _ => false,
    }
}

/// The value that the call at the event takes: its last argument.
fn value_taken(known: Known<'_>, event: usize) -> Option<u32> {
    known.call_at(event)?.args.as_slice().last().copied()
}

/// The value that the call at the event returns, if it takes none.
fn value_returned(known: Known<'_>, event: usize) -> Option<u32> {
    if value_taken(known, event).is_some() {
        return None;
    }
    match known.outcome_at(event)? {
        Outcome::Ret(value) => Some(value),
        Outcome::Trap => None,
    }
}

/// The event in the middle between two.
fn middle(first: usize, last: usize) -> usize {
    first.saturating_add(last.saturating_sub(first) / 2)
}

/// For each event that is a call whose value is returned later, the middle of the operation that
/// returns it; else [`NEVER`]. Second, whether values leave in the order in which they came.
fn values_returned(alloc: Global, known: Known<'_>) -> Result<(Vec<usize>, bool), AllocError> {
    let votes = usual_outcomes(known);
    let mut values = Values {
        waiting: Vec::new(alloc),
        in_order: 0,
        out_of_order: 0,
    };
    let mut likely = Vec::new(alloc);
    let mut pending = [NEVER; 8];
    for event in 0..known.events.len() {
        likely.push(NEVER)?;
        match known.events[event] {
            RunEvent::Call { thread, call: _ } => {
                put(&mut pending, usize::from(thread), event);
                if let Some(value) = value_taken(known, event) {
                    if !is_unusual(known, &votes, event) {
                        values.enter(value, event)?;
                    }
                }
            }
            RunEvent::Return { thread, outcome: _ } => {
                let call = pending.get(usize::from(thread)).copied().unwrap_or(NEVER);
                if let Some(value) = value_returned(known, call) {
                    if let Some(taken) = values.leave(value) {
                        put(&mut likely, taken, middle(call, event));
                    }
                }
            }
        }
    }
    Ok((likely, values.in_order > values.out_of_order))
}

/// For each event that is a call, at which event its operation is likely to have taken effect.
///
/// # Errors
///
/// Out of memory.
pub(crate) fn likely_events(
    alloc: Global,
    calls: &[Call],
    events: &[RunEvent],
) -> Result<Vec<usize>, AllocError> {
    let returns = return_events(alloc, events)?;
    let known = Known {
        calls,
        events,
        returns: &returns,
    };
    let (likely, in_order) = values_returned(alloc, known)?;
    let mut expected = Vec::new(alloc);
    for event in 0..events.len() {
        let takes = value_taken(known, event).is_some();
        if takes && in_order {
            expected.push(likely.get(event).copied().unwrap_or(NEVER))?;
        } else {
            expected.push(known.return_at(event))?;
        }
    }
    Ok(expected)
}
