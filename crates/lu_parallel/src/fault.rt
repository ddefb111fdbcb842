//! Why a check has no report.

ghost use Rattle.std.specs.Prelude.{◌≡◌};
ghost use Rattle.lu_parallel.specs.declared.fault.CheckFault.TheVariants.{Memory};
ghost use Rattle.lu_parallel.specs.Codes.{fault_code};

use std::alloc::AllocError;
use thiserror::Error;

/// Why a check has no report. Shown, it is `memory` or `K2`.
#[derive(Clone, Copy, Debug, PartialEq, Eq, Error)]
#[error("{}", self.code())]
pub enum CheckFault {
    /// Memory was refused.
    Memory,

    /// `K2`: the start of a worker's thread was refused.
    Worker,
}

impl CheckFault {
    /// The code: `memory` or `K2`.
    pub fn code(self) -> &'static str
        ensures { result.now ≡ fault_code self }
    {
        match self {
            CheckFault::Memory => "memory",
            CheckFault::Worker => "K2",
        }
    }
}

impl From<AllocError> for CheckFault {
    ghost from_gives = { λ _ fault. fault ≡ Memory };

    fn from(_refused: AllocError) -> CheckFault {
        CheckFault::Memory
    }
}
