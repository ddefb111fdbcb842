//! Why a search has no answer.

ghost use Rattle.std.specs.Prelude.{◌≡◌, ◌≢◌, IfErr, IfOk, Ok};
ghost use Rattle.lu_graph.specs.declared.halted.Halted.TheVariants.{Memory, Stopped};

use std::alloc::{AllocError, AllocFailed};

/// Why a search that can be stopped has no answer.
#[derive(Clone, Copy, Debug, PartialEq, Eq)]
pub enum Halted {
    /// Memory was refused.
    Memory,

    /// The watch stopped the search.
    Stopped,
}

impl From<AllocError> for Halted {
    ghost from_gives = { λ _ halted. halted ≡ Memory };

    fn from(_refused: AllocError) -> Halted {
        Halted::Memory
    }
}

impl<T: Drop> From<AllocFailed<T>> for Halted {
    ghost from_gives = { λ _ halted. halted ≡ Memory };

    fn from(_refused: AllocFailed<T>) -> Halted {
        Halted::Memory
    }
}

/// What a search answered that no watch stopped: where it has no answer, memory was refused.
///
/// # Errors
///
/// `AllocError` where memory was refused.
pub fn unhalted<T>(answer: Result<T, Halted>) -> Result<T, AllocError>
    requires { IfErr answer (λ halted. halted ≢ Stopped) }
    ensures only { IfOk result (λ found. answer ≡ Ok found) }
    ensures all { IfOk answer (λ found. result ≡ Ok found) }
{
    answer.map_err(|_halted| AllocError)
}
