//! Operators between two expressions.

ghost use Rattle.std.specs.Prelude.{◌≡◌};
ghost use Rattle.lu_source_text.specs.Grammar as spec;

use lu_source::Operator;

/// An operator between two expressions.
#[derive(Clone, Copy, Debug, Drop, PartialEq, Eq)]
pub(crate) enum Infix {
    /// `||`
    Or,

    /// `&&`
    And,

    /// One that is applied to two values.
    Joins(Operator),
}

/// The operator that a word is, where it is one.
pub(crate) fn infix_in(word: &[u8]) -> Option<Infix>
    ensures { result ≡ spec.infix_in word.now }
{
    if word == b"||".as_slice() {
        Some(Infix::Or)
    } else if word == b"&&".as_slice() {
        Some(Infix::And)
    } else if word == b"==".as_slice() {
        Some(Infix::Joins(Operator::Equals))
    } else if word == b"!=".as_slice() {
        Some(Infix::Joins(Operator::Differs))
    } else if word == b"<".as_slice() {
        Some(Infix::Joins(Operator::Below))
    } else if word == b">".as_slice() {
        Some(Infix::Joins(Operator::Above))
    } else if word == b"<=".as_slice() {
        Some(Infix::Joins(Operator::AtMost))
    } else if word == b">=".as_slice() {
        Some(Infix::Joins(Operator::AtLeast))
    } else if word == b"+".as_slice() {
        Some(Infix::Joins(Operator::Plus))
    } else if word == b"-".as_slice() {
        Some(Infix::Joins(Operator::Minus))
    } else if word == b"*".as_slice() {
        Some(Infix::Joins(Operator::Times))
    } else {
        None
    }
}

/// How tightly an operator binds: `||` 1, `&&` 2, comparisons 3, `+` and `-` 4, `*` 5.
pub(crate) fn binding(by: Infix) -> u8
    ensures { result ≡ spec.binding by }
{
    match by {
        Infix::Or => 1,
        Infix::And => 2,
        Infix::Joins(Operator::Plus | Operator::Minus) => 4,
        Infix::Joins(Operator::Times) => 5,
        Infix::Joins(_) => 3,
    }
}

/// How tightly a further operator may bind after this one: comparisons do not chain.
pub(crate) fn most_after(by: Infix) -> u8
    ensures { result ≡ spec.most_after by }
{
    match binding(by) {
        3 => 2,
        binds => binds,
    }
}
