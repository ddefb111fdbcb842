//! Writing of specifications.

ghost use Rattle.std.specs.Prelude.{◌≡◌, ◌↔◌, ◌∷◌, IsTrue, OnOk, IfOk};
ghost use Rattle.lu_text.specs.Writing.{Writes};
ghost use Rattle.lu_spec.specs.Listed.{IsEndHere, IsSpecText, WritesEnds};
ghost use Rattle.lu_spec.specs.SpecText.{entry_text, history_line};

use crate::spec::Spec;
use lu_history::{SerialOp, SerialOutcome};
use lu_trie::SerialTree;
use std::alloc::{AllocError, Global};

/// Adds an operation at the end of a text: ` t=n`, ` t=trap` or ` t=stuck`.
fn write_entry(text: &mut String, op: SerialOp) -> Result<(), AllocError>
    ensures { Writes result text.old text.new (32 ∷ entry_text op) }
{
    let thread = op.thread;
    match op.outcome {
        SerialOutcome::Ret(number) => write!(text, " {thread}={number}"),
        SerialOutcome::Trap => write!(text, " {thread}=trap"),
        SerialOutcome::Stuck => write!(text, " {thread}=stuck"),
    }
}

/// Adds a history's line at the end of a text.
fn write_line(text: &mut String, history: &[SerialOp]) -> Result<(), AllocError>
    ensures { Writes result text.old text.new (history_line history.now) }
{
    text.push_str("history")?;
    for op in history {
        write_entry(text, *op)?;
    }
    text.push_str("\n")
}

/// Whether the path, which leads to this place, is a member that begins no other, and is not empty.
fn is_end<T: SerialTree>(tree: &T, place: T::Place, path: &[SerialOp]) -> bool
    requires { T.is_place tree.now place }
    ensures { IsTrue result ↔ IsEndHere path.now (T.below tree.now place) }
{
    tree.kid_count(place) == 0 && tree.ends(place) && !path.is_empty()
}

/// Adds a line for each history that begins with the path, which leads to this place, and begins no
/// other. The empty one has no line.
fn write_below<T: SerialTree>(
    text: &mut String,
    tree: &T,
    place: T::Place,
    path: &mut Vec<SerialOp>,
) -> Result<(), AllocError>
    requires { T.is_place tree.now place }
    ensures text { WritesEnds result text.old text.new path.old.items (T.below tree.now place) }
    ensures path { OnOk result (path.new.items ≡ path.old.items) }
{
    if is_end(tree, place, path) {
        write_line(text, path)?;
    }
    for i in 0..tree.kid_count(place) {
        let (op, below) = tree.kid(place, i);
        path.push(op)?;
        write_below(text, tree, below, path)?;
        path.pop();
    }
    Ok(())
}

/// The text of a specification: its first line, and a line for each history that begins no other,
/// in order.
///
/// # Errors
///
/// `AllocError` where memory was refused.
pub fn write_spec(alloc: Global, spec: &Spec) -> Result<String, AllocError>
    ensures { IfOk result (IsSpecText spec.now) }
{
    let mut text = String::from_str(alloc, "lineup spec 1\n")?;
    let tree = &spec.tree();
    write_below(&mut text, tree, tree.root(), &mut Vec::new(alloc))?;
    Ok(text)
}
