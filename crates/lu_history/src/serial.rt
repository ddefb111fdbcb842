//! What a serial history is made of.

ghost use Rattle.std.specs.Prelude.{◌≡◌};
ghost use Rattle.lu_history.specs.Parts.{as_serial};

use lu_machine::Outcome;
use std::fmt;

/// How an operation of a serial history ended. Returned values come first, by number, then `Trap`,
/// then `Stuck`.
#[derive(Clone, Copy, Debug, PartialEq, Eq, PartialOrd, Ord)]
pub enum SerialOutcome {
    /// It returned this value.
    Ret(u32),

    /// It trapped.
    Trap,

    /// It was called and could not go on. In a serial history this stands only last.
    Stuck,
}

/// As it stands in a text: `ret` and the value, `trap` or `stuck`.
impl fmt::Display for SerialOutcome {
    ghost use Rattle.std.specs.Prelude.{Some};
    ghost use Rattle.lu_history.specs.Text.{serial_outcome_text};

    ghost output = { λ outcome. Some (serial_outcome_text outcome) };

    fn fmt<W: fmt::Write>(&self, f: &mut fmt::Formatter<W>) -> fmt::Result {
        match *self {
            SerialOutcome::Ret(value) => write!(f, "ret {value}"),
            SerialOutcome::Trap => f.write_str("trap"),
            SerialOutcome::Stuck => f.write_str("stuck"),
        }
    }
}

/// An operation of a serial history: its thread, from 0, and how it ended. The k-th one of a thread
/// is the thread's call number k. Operations are ordered by thread, and then by outcome.
#[derive(Clone, Copy, Debug, PartialEq, Eq, PartialOrd, Ord)]
pub struct SerialOp {
    pub thread: u8,
    pub outcome: SerialOutcome,
}

impl From<Outcome> for SerialOutcome {
    ghost from_gives = { λ outcome serial. serial ≡ as_serial outcome };

    fn from(outcome: Outcome) -> SerialOutcome {
        match outcome {
            Outcome::Ret(number) => SerialOutcome::Ret(number),
            Outcome::Trap => SerialOutcome::Trap,
        }
    }
}
