//! Why a text is no schedule.

ghost use Rattle.std.specs.Prelude.{◌≡◌};
ghost use Rattle.lu_test.specs.declared.schedule_fault.ScheduleFault.TheVariants.{Memory};
ghost use Rattle.lu_test.specs.Codes.{schedule_code_of};

use std::alloc::{AllocError, AllocFailed};
use thiserror::Error;

/// Why a text is no schedule. Shown, it is the code of the refusal, or `memory`.
#[derive(Clone, Copy, Debug, Drop, PartialEq, Eq, Error)]
#[error("{}", self.code())]
pub enum ScheduleFault {
    /// `C1`: the text is not `schedule` and words, each after one space, in one line with its LF.
    Form,

    /// `C2`: a word is no move: neither a number nor two numbers with a colon between them, or its
    /// pick is written `0`.
    Number,

    /// `C3`: a thread or a pick above 7, or more than 4,112 moves.
    Limit,

    /// There was no memory to read the text with.
    Memory,
}

impl ScheduleFault {
    /// The code of the refusal: `C1` to `C3`, or `memory`.
    pub fn code(self) -> &'static str
        ensures { result.now ≡ schedule_code_of self }
    {
        match self {
            ScheduleFault::Form => "C1",
            ScheduleFault::Number => "C2",
            ScheduleFault::Limit => "C3",
            ScheduleFault::Memory => "memory",
        }
    }
}

impl From<AllocError> for ScheduleFault {
    ghost from_gives = { λ _ e. e ≡ Memory };

    fn from(_e: AllocError) -> ScheduleFault {
        ScheduleFault::Memory
    }
}

impl<T: Drop> From<AllocFailed<T>> for ScheduleFault {
    ghost from_gives = { λ _ e. e ≡ Memory };

    fn from(_e: AllocFailed<T>) -> ScheduleFault {
        ScheduleFault::Memory
    }
}
