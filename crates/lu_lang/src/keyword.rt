//! Keywords of instructions, registers and operands.

ghost use Rattle.std.specs.Prelude.{◌≡◌};
ghost use Rattle.lu_lang.specs.Words as spec;

use lu_component::{Arithmetic, Operand};
use lu_text::value_in;

/// The keyword of an instruction.
#[derive(Clone, Copy, Debug, Drop, PartialEq, Eq)]
pub enum Keyword {
    Set,
    Compute(Arithmetic),
    Load,
    Store,
    Cas,
    Lock,
    Unlock,
    Await,
    AwaitNot,
    Pick,
    Jump,
    JumpIfZero,
    Return,
}

impl Keyword {
    /// The keyword, as it stands in a text.
    fn word(self) -> &'static str
        ensures { result.now ≡ spec.keyword_word self }
    {
        match self {
            Keyword::Set => "set",
            Keyword::Compute(arithmetic) => arithmetic.word(),
            Keyword::Load => "load",
            Keyword::Store => "store",
            Keyword::Cas => "cas",
            Keyword::Lock => "lock",
            Keyword::Unlock => "unlock",
            Keyword::Await => "await",
            Keyword::AwaitNot => "awaitne",
            Keyword::Pick => "pick",
            Keyword::Jump => "jump",
            Keyword::JumpIfZero => "jz",
            Keyword::Return => "return",
        }
    }
}

const KEYWORDS: [Keyword; 17] = [
    Keyword::Set,
    Keyword::Compute(Arithmetic::Add),
    Keyword::Compute(Arithmetic::Sub),
    Keyword::Compute(Arithmetic::Mul),
    Keyword::Compute(Arithmetic::Eq),
    Keyword::Compute(Arithmetic::Lt),
    Keyword::Load,
    Keyword::Store,
    Keyword::Cas,
    Keyword::Lock,
    Keyword::Unlock,
    Keyword::Await,
    Keyword::AwaitNot,
    Keyword::Pick,
    Keyword::Jump,
    Keyword::JumpIfZero,
    Keyword::Return,
];

/// The keyword that a word is, where it is one.
pub fn keyword_in(word: &[u8]) -> Option<Keyword>
    ensures { result ≡ spec.keyword_in word.now }
{
    KEYWORDS
        .iter()
        .copied()
        .find(|keyword| word == keyword.word().as_bytes())
}

/// The register that a word is: `r0` to `r7`.
pub fn register_in(word: &[u8]) -> Option<u8>
    ensures { result ≡ spec.register_in word.now }
{
    match word {
        [b'r', digit] if matches!(*digit, b'0'..=b'7') => Some(*digit - b'0'),
        _ => None,
    }
}

/// The operand that a word is: a register, or a number of at most 4294967295.
pub fn operand_in(word: &[u8]) -> Option<Operand>
    ensures { result ≡ spec.operand_in word.now }
{
    match register_in(word) {
        Some(register) => Some(Operand::Reg(register)),
        None => value_in(word).map(Operand::Num),
    }
}
