//! The beginnings of histories, and the number of one of them.

ghost use Rattle.std.specs.Prelude.{◌≡◌, ◌≢◌, ◌<◌, ◌+◌, ◌∷◌, [], ◌++◌, List, length, IfOk, IsTrue, IsFalse};
ghost use Rattle.lu_history.specs.declared.serial.SerialOp.{SerialOp};
ghost use Rattle.lu_history.specs.Histories.{Fits};
ghost use Rattle.lu_judge.specs.Paths.{HasAdded, IsPath, AreGoodAsMarked, IsBlank, IsLonger, KeepsGood, NotesGood, TellsGood, history_of, history_at};

use crate::events::Events;
use lu_machine::Event;
use std::alloc::{AllocError, Global};

/// The number of beginnings for which there is room.
const ROOM: usize = 262144;

/// A beginning of histories.
#[derive(Clone, Copy)]
pub(crate) struct Beginning {
    /// Its last event. The empty one, which is the first in the list, has none, and what stands
    /// here means nothing.
    event: Event,

    /// The number of the beginning without that event.
    shorter: u32,

    /// The number of another beginning with the same shorter one, or 0.
    next: u32,

    /// The number of a beginning with one more event, or 0.
    longer: u32,

    /// Whether it was judged as a whole history, and is good.
    good: bool,
}

/// Beginnings of histories, each after its shorter one, and the number of one of them.
#[derive(Drop)]
pub(crate) struct Path {
    beginnings: Vec<Beginning>,
    number: u32,
}

/// The empty beginning.
fn empty() -> Beginning
    ensures { IsBlank result }
{
    Beginning {
        event: Event::Call { t: 0, k: 0 },
        shorter: 0,
        next: 0,
        longer: 0,
        good: false,
    }
}

impl Path {
    /// The empty history, with room for all beginnings.
    pub(crate) fn new(alloc: Global) -> Result<Path, AllocError>
        ensures path { IfOk result (λ path. IsPath path) }
        ensures history { IfOk result (λ path. history_of path ≡ []) }
        ensures good { (members : List (List SerialOp)) → IfOk result (AreGoodAsMarked members) }
    {
        let mut beginnings = Vec::with_capacity(alloc, ROOM)?;
        beginnings.push_reserved(empty());
        Ok(Path {
            beginnings,
            number: 0,
        })
    }

    /// The number of the beginning that has the event after this one, or 0 where none has.
    #[inline(always)]
    fn find(&self, event: Event) -> u32
        requires { IsPath self.now }
        ensures { result ≢ 0 → IsLonger self.now event result }
    {
        let mut at = self.beginnings[self.number as usize].longer;
        while at != 0 {
            let beginning = &self.beginnings[at as usize];
            if beginning.event == event {
                return at;
            }
            at = beginning.next;
        }
        0
    }

    /// Goes on to a new beginning, with the event after this one.
    pub(crate) fn add(&mut self, event: Event)
        requires path { IsPath self.old }
        requires fits { Fits (history_of self.old) event }
        requires room { length self.old.beginnings.items < 262144 }
        ensures path { IsPath self.new }
        ensures history { HasAdded event self.old self.new }
        ensures length { length self.new.beginnings.items ≡ length self.old.beginnings.items + 1 }
        ensures good { KeepsGood self.old self.new }
    {
        let number = self.number as usize;
        let added = self.beginnings.len() as u32;
        let next = self.beginnings[number].longer;
        self.beginnings.push_reserved(Beginning {
            event,
            shorter: self.number,
            next,
            longer: 0,
            good: false,
        });
        self.beginnings[number].longer = added;
        self.number = added;
    }

    /// Writes out the events of the beginning of this number.
    fn write_at(&self, number: u32, events: &mut Events)
        requires path { IsPath self.now }
        requires number { number < length self.now.beginnings.items }
        requires few { length (history_at self.now.beginnings.items number) < 129 }
        ensures { events.new ≡ history_at self.now.beginnings.items number }
    {
        if number == 0 {
            events.clear();
            return;
        }
        let beginning = &self.beginnings[number as usize];
        self.write_at(beginning.shorter, events);
        events.push(beginning.event);
    }

    /// Writes out the events of the history.
    pub(crate) fn write(&self, events: &mut Events)
        requires { IsPath self.now }
        ensures { events.new ≡ history_of self.now }
    {
        self.write_at(self.number, events);
    }

    /// Whether there is no room for another beginning.
    pub(crate) fn is_full(&self) -> bool
        requires { IsPath self.now }
        ensures { IsFalse result → length self.now.beginnings.items < 262144 }
    {
        self.beginnings.len() == ROOM
    }

    /// Forgets all but the beginnings of this history.
    #[inline(never)]
    pub(crate) fn renew(&mut self)
        requires { IsPath self.old }
        ensures path { IsPath self.new }
        ensures history { history_of self.new ≡ history_of self.old }
        ensures room { length self.new.beginnings.items < 262144 }
        ensures good { (members : List (List SerialOp)) → AreGoodAsMarked members self.new }
    {
        let mut events = Events::new();
        self.write(&mut events);
        self.beginnings.clear();
        self.beginnings.push_reserved(empty());
        self.number = 0;
        for event in events.as_slice() {
            self.add(*event);
        }
    }

    /// Adds an event at the end, if a beginning with it was met.
    #[inline(always)]
    pub(crate) fn follow(&mut self, event: Event) -> bool
        requires path { IsPath self.old }
        requires fits { Fits (history_of self.old) event }
        ensures path { IsPath self.new }
        ensures history { IsTrue result → HasAdded event self.old self.new }
        ensures same { IsFalse result → self.new ≡ self.old }
        ensures good { KeepsGood self.old self.new }
    {
        let found = self.find(event);
        if found == 0 {
            return false;
        }
        self.number = found;
        true
    }

    /// Takes the last event away.
    #[inline(always)]
    pub(crate) fn pop(&mut self) -> Event
        requires path { IsPath self.old }
        requires some { history_of self.old ≢ [] }
        ensures path { IsPath self.new }
        ensures history { history_of self.old ≡ history_of self.new ++ result ∷ [] }
        ensures good { KeepsGood self.old self.new }
    {
        let beginning = &self.beginnings[self.number as usize];
        let event = beginning.event;
        self.number = beginning.shorter;
        event
    }

    /// Goes to the empty history.
    pub(crate) fn clear(&mut self)
        requires { IsPath self.old }
        ensures path { IsPath self.new }
        ensures history { history_of self.new ≡ [] }
        ensures good { KeepsGood self.old self.new }
    {
        self.number = 0;
    }

    /// Whether the history is known to be good.
    #[inline(always)]
    pub(crate) fn is_good(&self) -> bool
        requires { IsPath self.now }
        ensures { TellsGood self.now result }
    {
        self.beginnings[self.number as usize].good
    }

    /// Remembers that the history is good.
    pub(crate) fn note_good(&mut self)
        requires { IsPath self.old }
        ensures path { IsPath self.new }
        ensures history { history_of self.new ≡ history_of self.old }
        ensures good { NotesGood self.old self.new }
    {
        self.beginnings[self.number as usize].good = true;
    }
}
