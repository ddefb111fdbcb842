//! Why a text is no matrix.

ghost use Rattle.std.specs.Prelude.{◌≡◌};
ghost use Rattle.lu_test.specs.Codes.{matrix_code_of};

use lu_text::Fault;
use thiserror::Error;

/// What is wrong with a line of a matrix's text, in the order in which it is looked for, each over
/// the whole line before the next. Shown, it is the code of the refusal.
#[derive(Clone, Copy, Debug, Drop, PartialEq, Eq, Error)]
#[error("{}", self.code())]
pub enum MatrixFaultKind {
    /// `M1`: a byte that is not allowed, also in a comment.
    Byte,

    /// `M2`: the first word is neither `thread` nor, on the first line with words, `setup`; or a
    /// call has no words.
    Form,

    /// `M3`: a call's first word is no operation of the component.
    UnknownOp,

    /// `M4`: a call has another number of arguments than its operation.
    Arguments,

    /// `M5`: an argument that is no number up to 4294967295.
    Number,

    /// `M6`: the ninth thread, a thread or a setup of nine calls, or the call that makes more than
    /// 16 of all threads; or, at the end of the text, no thread.
    Limit,
}

impl MatrixFaultKind {
    /// The code of the refusal, `M1` to `M6`.
    pub fn code(self) -> &'static str
        ensures { result.now ≡ matrix_code_of self }
    {
        match self {
            MatrixFaultKind::Byte => "M1",
            MatrixFaultKind::Form => "M2",
            MatrixFaultKind::UnknownOp => "M3",
            MatrixFaultKind::Arguments => "M4",
            MatrixFaultKind::Number => "M5",
            MatrixFaultKind::Limit => "M6",
        }
    }
}

/// Why a text is no matrix: the first fault by line, or refused memory, which is shown as `memory`.
pub type MatrixFault = Fault<MatrixFaultKind>;
