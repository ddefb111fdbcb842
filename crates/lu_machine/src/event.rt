//! What a move shows of an operation, and how a state stands.

use std::fmt;

/// How an operation returned.
#[derive(Clone, Copy, Debug, PartialEq, Eq, Hash)]
pub enum Outcome {
    /// It returned this value.
    Ret(u32),

    /// It trapped.
    Trap,
}

/// As it stands in a text: `ret` and the value, or `trap`.
impl fmt::Display for Outcome {
    ghost use Rattle.std.specs.Prelude.{Some};
    ghost use Rattle.lu_machine.specs.Events.{outcome_text};

    ghost output = { λ outcome. Some (outcome_text outcome) };

    fn fmt<W: fmt::Write>(&self, f: &mut fmt::Formatter<W>) -> fmt::Result {
        match *self {
            Outcome::Ret(value) => write!(f, "ret {value}"),
            Outcome::Trap => f.write_str("trap"),
        }
    }
}

/// The call or the return of an operation: call number `k`, 0 to 7, of thread `t`, 0 to 7.
#[derive(Clone, Copy, Debug, PartialEq, Eq, Hash)]
pub enum Event {
    /// The operation is opened.
    Call { t: u8, k: u8 },

    /// The operation ends so.
    Return { t: u8, k: u8, outcome: Outcome },
}

/// How a state stands.
#[derive(Clone, Copy, Debug, PartialEq, Eq)]
pub enum Status {
    /// Some thread is enabled.
    Running,

    /// Every thread is idle and has made all its calls.
    Complete,

    /// Not complete, and no thread is enabled.
    Stuck,
}
