//! The events of a history, in room of fixed size.

ghost use Rattle.std.specs.Prelude.{◌≡◌, ◌≢◌, ◌<◌, ◌≤◌, ◌∷◌, [], ◌++◌, length, take, OnOk};
ghost use Rattle.lu_history.specs.Histories.{IsWellFormed};

use lu_history::History;
use lu_machine::Event;
use std::alloc::AllocError;
use std::marker::Model;

/// The number of events that a history can have: a call and a return of each operation.
const MOST_EVENTS: usize = 128;

/// The events of a history, in order. In clauses it is their list.
#[derive(Drop)]
pub(crate) struct Events {
    items: [Event; MOST_EVENTS],
    count: usize,
}

impl Model for Events {
    ghost use Rattle.std.specs.Prelude.{◌≤◌, List, take};
    ghost use Rattle.lu_machine.specs.declared.event.Event.{Event};

    ghost Value = { List Event };

    ghost view = { λ a. take a.count a.items };

    ghost invariant = { λ a. a.count ≤ 128 };
}

impl Events {
    /// No events.
    pub(crate) fn new() -> Events
        ensures { result ≡ [] }
    {
        Events {
            items: [Event::Call { t: 0, k: 0 }; MOST_EVENTS],
            count: 0,
        }
    }

    /// The events, in order.
    pub(crate) fn as_slice(&self) -> &[Event]
        ensures { result.now ≡ self.now }
    {
        &self.items[..self.count]
    }

    /// Adds an event at the end, for which there is room.
    #[inline(always)]
    pub(crate) fn push(&mut self, event: Event)
        requires { length self.old < 128 }
        ensures { self.new ≡ self.old ++ event ∷ [] }
    {
        self.items[self.count] = event;
        self.count += 1;
    }

    /// Takes the last event away. There is one.
    #[inline(always)]
    pub(crate) fn pop(&mut self) -> Event
        requires { self.old ≢ [] }
        ensures { self.old ≡ self.new ++ result ∷ [] }
    {
        self.count -= 1;
        self.items[self.count]
    }

    /// Takes all events away.
    pub(crate) fn clear(&mut self)
        ensures { self.new ≡ [] }
    {
        self.count = 0;
    }
}

/// With how many events both begin.
fn common_count(events: &[Event], others: &[Event]) -> usize
    ensures within { (result ≤ length events.now) × (result ≤ length others.now) }
    ensures alike { take result events.now ≡ take result others.now }
{
    let mut count = 0;
    while count < events.len() && count < others.len() && events[count] == others[count] {
        count += 1;
    }
    count
}

/// Makes the history this one, in the room that it has: what both begin with stays. It may have
/// some of the events where memory is refused.
pub(crate) fn refill(history: &mut History, events: &[Event]) -> Result<(), AllocError>
    requires { IsWellFormed events.now }
    ensures { OnOk result (history.new ≡ events.now) }
{
    let kept = common_count(history.events(), events);
    while history.events().len() > kept {
        history.pop();
    }
    for event in &events[kept..] {
        if history.push(*event).is_err() {
            return Err(AllocError);
        }
    }
    Ok(())
}
