//! What a move changed.

ghost use Rattle.std.specs.Prelude.{◌≡◌};

use crate::event::Event;
use crate::thread::OperationBefore;

/// What a move writes of what all threads share, or overwrote of it.
#[derive(Clone, Copy, Debug)]
pub(crate) enum Shared {
    Nothing,

    /// The cell of this number has this value.
    Cell { cell: usize, value: u32 },

    /// The lock has this owner, or none.
    Owner { lock: u8, owner: Option<u8> },
}

/// What a move changed, so that it can be taken back.
#[derive(Clone, Copy, Debug)]
pub struct Undo {
    /// The thread that moved.
    pub(crate) thread: u8,

    /// What that overwrote of the operation that was open.
    pub(crate) was: OperationBefore,

    /// What that overwrote of what all threads share.
    pub(crate) overwritten: Shared,

    pub(crate) event: Option<Event>,
}

impl Undo {
    /// The event of the move, if it had one.
    #[inline(always)]
    pub fn event(&self) -> Option<Event>
        ensures { result ≡ self.now.event }
    {
        self.event
    }
}
