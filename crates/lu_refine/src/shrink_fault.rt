//! Why a matrix is not shrunk.

ghost use Rattle.std.specs.Prelude.{◌≡◌};
ghost use Rattle.lu_refine.specs.declared.shrink_fault.ShrinkFault.TheVariants.{Memory};
ghost use Rattle.lu_refine.specs.Codes.{shrink_code_of};

use lu_report::Report;
use std::alloc::AllocError;
use thiserror::Error;

/// Why a matrix is not shrunk. Shown, it is `X2` or `memory`.
#[derive(Debug, Drop, Error)]
#[error("{}", self.code())]
pub enum ShrinkFault {
    /// `X2`: the matrix does not fail. Its report is a pass or a serial cut.
    NotFailing(Report),

    /// Memory was refused.
    Memory,
}

impl ShrinkFault {
    /// The code: `X2` or `memory`.
    pub fn code(&self) -> &'static str
        ensures { result.now ≡ shrink_code_of self.now }
    {
        match self {
            ShrinkFault::NotFailing(_) => "X2",
            ShrinkFault::Memory => "memory",
        }
    }
}

impl From<AllocError> for ShrinkFault {
    ghost from_gives = { λ _ fault. fault ≡ Memory };

    fn from(_refused: AllocError) -> ShrinkFault {
        ShrinkFault::Memory
    }
}
