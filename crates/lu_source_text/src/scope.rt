//! What an expression is read with.

ghost use Rattle.std.specs.Prelude.{◌≤◌, length};

use crate::constants::Constants;
use crate::draft::Shared;
use lu_source::Expr;
use lu_text::Name;

/// What names mean where an expression stands.
#[derive(Clone, Copy, Drop)]
pub(crate) struct Scope<'a> {
    pub constants: &'a Constants,
    pub words: &'a [Shared],

    /// The locals, by their registers.
    pub locals: &'a [Name],
    ghost few_words: { length words.now ≤ 16 },
    ghost few_locals: { length locals.now ≤ 8 },
}

/// A cell of a shared word.
#[derive(Drop)]
pub(crate) struct Cell {
    pub array: u8,
    pub index: Expr,
}
