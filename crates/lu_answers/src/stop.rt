//! Why there is no table.

ghost use Rattle.std.specs.Prelude.{◌≡◌};
ghost use Rattle.lu_answers.specs.declared.stop.Stop.TheVariants.{Memory};

use std::alloc::{AllocError, AllocFailed};

/// Why there is no table.
#[derive(Clone, Copy)]
pub(crate) enum Stop {
    /// A call takes more moves than the bound, or has two outcomes.
    Offends,

    /// There are more stages than a table may have.
    TooMany,

    /// Out of memory.
    Memory,
}

impl From<AllocError> for Stop {
    ghost from_gives = { λ _ stop. stop ≡ Memory };

    fn from(_refused: AllocError) -> Stop {
        Stop::Memory
    }
}

impl<T: Drop> From<AllocFailed<T>> for Stop {
    ghost from_gives = { λ _ stop. stop ≡ Memory };

    fn from(_refused: AllocFailed<T>) -> Stop {
        Stop::Memory
    }
}
