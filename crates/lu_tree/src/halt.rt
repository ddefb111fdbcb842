//! Why a walk halts.

ghost use Rattle.std.specs.Prelude.{◌≡◌};
ghost use Rattle.lu_tree.specs.declared.halt.Halt.TheVariants.{Memory};

use std::alloc::AllocError;

/// Why a walk halts before it has passed all schedules below a node.
#[derive(Clone, Copy)]
pub(crate) enum Halt {
    /// It is at the first schedule that was not found good.
    NotGood,

    /// The watch stopped it.
    Stopped,

    /// Memory was refused.
    Memory,
}

impl From<AllocError> for Halt {
    ghost from_gives = { λ _ halt. halt ≡ Memory };

    fn from(_e: AllocError) -> Halt {
        Halt::Memory
    }
}
