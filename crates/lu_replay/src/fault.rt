//! Why a schedule has no replay.

ghost use Rattle.std.specs.Prelude.{◌≡◌};
ghost use Rattle.lu_replay.specs.declared.fault.ReplayFault.TheVariants.{Memory};

use lu_history::HistoryFault;
use std::alloc::AllocError;
use thiserror::Error;

/// Why a schedule has no replay. Shown, it is `P1` with the index of the move, or `memory`.
#[derive(Clone, Copy, Debug, PartialEq, Eq, Error)]
pub enum ReplayFault {
    /// `P1`: the move at this index, from 0, is the first that is not feasible where it stands.
    #[error("P1 {0}")]
    Infeasible(usize),

    /// Memory was refused.
    #[error("memory")]
    Memory,
}

impl From<AllocError> for ReplayFault {
    ghost from_gives = { λ _ fault. fault ≡ Memory };

    fn from(_refused: AllocError) -> ReplayFault {
        ReplayFault::Memory
    }
}

impl From<HistoryFault> for ReplayFault {
    ghost from_gives = { λ _ fault. fault ≡ Memory };

    fn from(_refused: HistoryFault) -> ReplayFault {
        ReplayFault::Memory
    }
}
