//! Why a text is no run.

ghost use Rattle.std.specs.Prelude.{◌≡◌};
ghost use Rattle.lu_run.specs.Codes.{run_code_of};
ghost use Rattle.lu_text.specs.declared.fault.Fault.TheVariants as fault;

use lu_text::Fault;
use std::alloc::{AllocError, AllocFailed};
use thiserror::Error;

/// What is wrong with a line of a run's text, in the order in which it is looked for. Shown, it is
/// the code of the refusal.
#[derive(Clone, Copy, Debug, Drop, PartialEq, Eq, Error)]
#[error("{}", self.code())]
pub enum RunFaultKind {
    /// `R1`: a byte that is not allowed.
    Byte,

    /// `R2`: words that are neither a call, nor a return, nor `stuck`; or a first line that is not
    /// `run`.
    Form,

    /// `R3`: a word that is no number where a number is expected, or a number that is out of range.
    Number,

    /// `R4`: an operation that the component does not have, or another number of arguments.
    Foreign,

    /// `R5`: an event that can't come next; anything after `stuck`.
    Order,
}

impl RunFaultKind {
    /// The code of the refusal, `R1` to `R5`.
    pub fn code(self) -> &'static str
        ensures { result.now ≡ run_code_of self }
    {
        match self {
            RunFaultKind::Byte => "R1",
            RunFaultKind::Form => "R2",
            RunFaultKind::Number => "R3",
            RunFaultKind::Foreign => "R4",
            RunFaultKind::Order => "R5",
        }
    }
}

/// Why a text is no run: the first fault by line, or that there is no memory, which is shown as
/// `memory`.
pub type RunFault = Fault<RunFaultKind>;
