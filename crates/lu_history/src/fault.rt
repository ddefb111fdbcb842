//! Why a history could not grow.

ghost use Rattle.std.specs.Prelude.{◌≡◌};
ghost use Rattle.lu_history.specs.declared.fault.HistoryFault.TheVariants.{Memory};

use std::alloc::{AllocError, AllocFailed};
use thiserror::Error;

/// Why a history could not be made or could not grow. It is shown by a word.
#[derive(Clone, Copy, Debug, PartialEq, Eq, Error)]
pub enum HistoryFault {
    /// Memory was refused.
    #[error("memory")]
    Memory,
}

impl From<AllocError> for HistoryFault {
    ghost from_gives = { λ _ fault. fault ≡ Memory };

    fn from(_refused: AllocError) -> HistoryFault {
        HistoryFault::Memory
    }
}

impl<T: Drop> From<AllocFailed<T>> for HistoryFault {
    ghost from_gives = { λ _ fault. fault ≡ Memory };

    fn from(_refused: AllocFailed<T>) -> HistoryFault {
        HistoryFault::Memory
    }
}
