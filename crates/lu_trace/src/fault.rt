//! Why a schedule has no trace.

ghost use Rattle.std.specs.Prelude.{◌≡◌};
ghost use Rattle.lu_trace.specs.declared.fault.TraceFault.TheVariants.{Memory};

use std::alloc::AllocError;
use thiserror::Error;

/// Why a schedule has no trace. Shown, it is `infeasible` with the index of the move, or `memory`.
#[derive(Clone, Copy, Debug, PartialEq, Eq, Error)]
pub enum TraceFault {
    /// The move at this index, from 0, is the first that is not feasible where it stands.
    #[error("infeasible {0}")]
    Infeasible(usize),

    /// Memory was refused.
    #[error("memory")]
    Memory,
}

impl From<AllocError> for TraceFault {
    ghost from_gives = { λ _ fault. fault ≡ Memory };

    fn from(_refused: AllocError) -> TraceFault {
        TraceFault::Memory
    }
}
