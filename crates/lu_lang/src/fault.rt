//! Why a text is no component.

ghost use Rattle.std.specs.Prelude.{◌≡◌};
ghost use Rattle.lu_lang.specs.Kinds.{code_of, rank};

use lu_text::Fault;
use thiserror::Error;

/// What is wrong with a line of a component's text, in the order in which it is looked for.
///
/// Shown, it is the code of the refusal.
#[derive(Clone, Copy, Debug, Drop, PartialEq, Eq, Error)]
#[error("{}", self.code())]
pub enum LangFaultKind {
    /// `L1`: a byte that is not allowed, also in a comment.
    Byte,

    /// `L7`: the first line with words does not begin with `component`; or, at the end of the text,
    /// there was no such line, or the last operation has no `end`.
    Missing,

    /// `L2`: an unknown keyword or one where it may not stand, a wrong number of words, a label
    /// without an instruction, where a name is wanted a word that is none for another cause than
    /// its length, or something else than `r0` to `r7` where a register is written.
    Form,

    /// `L4`: where a number is wanted a word that is none up to 4294967295, or an operand that is
    /// neither that nor a register.
    Number,

    /// `L5`: a limit is passed: of a number, of a name's length, or by one array, lock, operation
    /// or instruction too many.
    Limit,

    /// `L6`, on an `end` line: no instruction, or the last is neither `return` nor `jump`.
    Flow,

    /// `L3`: a name declared twice, on the second line; an array or a lock that is not declared
    /// before; or, on an `end` line, a label that is used and not there.
    Name,
}

impl LangFaultKind {
    /// The code of the refusal, `L1` to `L7`.
    pub fn code(self) -> &'static str
        ensures { result.now ≡ code_of self }
    {
        match self {
            LangFaultKind::Byte => "L1",
            LangFaultKind::Missing => "L7",
            LangFaultKind::Form => "L2",
            LangFaultKind::Number => "L4",
            LangFaultKind::Limit => "L5",
            LangFaultKind::Flow => "L6",
            LangFaultKind::Name => "L3",
        }
    }

    /// Where the kind stands in the order in which faults are looked for.
    pub(crate) fn rank(self) -> u8
        ensures { result ≡ rank self }
    {
        self as u8
    }
}

/// Why a text is no component: the first fault by line, or refused memory, which is shown as
/// `memory`.
pub type LangFault = Fault<LangFaultKind>;
