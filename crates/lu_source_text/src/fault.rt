//! What can be wrong with a line of a source.

ghost use Rattle.std.specs.Prelude.{◌≡◌};
ghost use Rattle.lu_source_text.specs.Kinds.{code_of};
ghost use Rattle.lu_source_text.specs.declared.fault.Refusal.TheVariants.{Memory as OutOfMemory};

use lu_text::Fault;
use std::alloc::{AllocError, AllocFailed};
use thiserror::Error;

/// What is wrong with a line of a source's text.
///
/// Shown, it is the code of the refusal.
#[derive(Clone, Copy, Debug, Drop, PartialEq, Eq, Error)]
#[error("{}", self.code())]
pub enum SourceFaultKind {
    /// `O1`: a byte that is not allowed, also in a comment.
    Byte,

    /// `O7`: the first line with words does not begin with `object`; or, at the end of the text,
    /// there was no such line, or the last operation is open.
    Missing,

    /// `O2`: a word or a sign in the wrong place, or none where one is wanted.
    Form,

    /// `O4`: a word where a number is wanted that is neither a number up to 4294967295 nor a
    /// constant, or an expression there that is not constant.
    Number,

    /// `O5`: a limit is passed: of a number, of a name's length, of a line's words, of its operators,
    /// `(` and `[`, or by one array, lock, operation, argument, statement, block or instruction too
    /// many.
    Limit,

    /// `O8`: more than 8 registers.
    Registers,

    /// `O6`: a statement that nothing comes to, a `break` or a `continue` outside of loops, or an
    /// `await` that reads more than its cell.
    Flow,

    /// `O3`: a name that means something already, or one that means nothing.
    Name,
}

impl SourceFaultKind {
    /// The code of the refusal, `O1` to `O8`.
    pub fn code(self) -> &'static str
        ensures { result.now ≡ code_of self }
    {
        match self {
            SourceFaultKind::Byte => "O1",
            SourceFaultKind::Missing => "O7",
            SourceFaultKind::Form => "O2",
            SourceFaultKind::Number => "O4",
            SourceFaultKind::Limit => "O5",
            SourceFaultKind::Registers => "O8",
            SourceFaultKind::Flow => "O6",
            SourceFaultKind::Name => "O3",
        }
    }
}

/// Why a text is no source: the first fault by line, or refused memory, which is shown as `memory`.
pub type SourceFault = Fault<SourceFaultKind>;

/// Why a line is not read.
#[derive(Clone, Copy, Debug, Drop, PartialEq, Eq)]
pub(crate) enum Refusal {
    /// This is wrong with it.
    Kind(SourceFaultKind),

    /// There was no memory to read it with.
    Memory,
}

impl From<AllocError> for Refusal {
    ghost from_gives = { λ _ e. e ≡ OutOfMemory };

    fn from(_: AllocError) -> Refusal {
        Refusal::Memory
    }
}

impl<T: Drop> From<AllocFailed<T>> for Refusal {
    ghost from_gives = { λ _ e. e ≡ OutOfMemory };

    fn from(_: AllocFailed<T>) -> Refusal {
        Refusal::Memory
    }
}
