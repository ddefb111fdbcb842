//! Why a specification is not refuted.

ghost use Rattle.std.specs.Prelude.{◌≡◌};
ghost use Rattle.lu_refute.specs.declared.fault.RefuteFault.TheVariants.{Memory};
ghost use Rattle.lu_refute.specs.Codes.{refute_code_of};

use std::alloc::AllocError;
use thiserror::Error;

/// Why a specification is not refuted. Shown, it is `F2` or `memory`.
#[derive(Clone, Copy, Debug, PartialEq, Eq, Error)]
#[error("{}", self.code())]
pub enum RefuteFault {
    /// `F2`: the report is a pass or a serial cut, or no run confirms it.
    NotShown,

    /// Memory was refused.
    Memory,
}

impl RefuteFault {
    /// The code: `F2` or `memory`.
    pub fn code(&self) -> &'static str
        ensures { result.now ≡ refute_code_of self.now }
    {
        match self {
            RefuteFault::NotShown => "F2",
            RefuteFault::Memory => "memory",
        }
    }
}

impl From<AllocError> for RefuteFault {
    ghost from_gives = { λ _ fault. fault ≡ Memory };

    fn from(_refused: AllocError) -> RefuteFault {
        RefuteFault::Memory
    }
}
