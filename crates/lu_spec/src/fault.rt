//! Why a text is no specification.

ghost use Rattle.std.specs.Prelude.{◌≡◌};
ghost use Rattle.lu_spec.specs.Codes.{spec_code_of};

use lu_text::Fault;
use thiserror::Error;

/// What is wrong with a line of a specification's text, in the order in which it is looked for.
/// Shown, it is the code of the refusal.
#[derive(Clone, Copy, Debug, Drop, PartialEq, Eq, Error)]
#[error("{}", self.code())]
pub enum SpecFaultKind {
    /// `S1`: no line of a history, a history that is not above the one before, or one that begins
    /// with the one before.
    Form,

    /// `S2`: a thread that the matrix does not have, or more operations of a thread than it has
    /// calls.
    Foreign,

    /// `S3`: a conflict with an earlier line.
    Nondeterministic,
}

impl SpecFaultKind {
    /// The code of the refusal, `S1` to `S3`.
    pub fn code(self) -> &'static str
        ensures { result.now ≡ spec_code_of self }
    {
        match self {
            SpecFaultKind::Form => "S1",
            SpecFaultKind::Foreign => "S2",
            SpecFaultKind::Nondeterministic => "S3",
        }
    }
}

/// Why a text is no specification: the first fault by line, or refused memory, which is shown as
/// `memory`.
pub type SpecFault = Fault<SpecFaultKind>;

/// A fault of a line of a specification's text.
#[derive(Clone, Copy, Debug, Drop, PartialEq, Eq)]
pub struct SpecLineFault {
    /// What is wrong with the line.
    pub kind: SpecFaultKind,

    /// The number of the line, from 1.
    pub line: usize,
}
