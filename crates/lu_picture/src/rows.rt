//! Rows: of each move.

ghost use Rattle.std.specs.Prelude.{◌≡◌};
ghost use Rattle.lu_text.specs.Writing.{Writes};
ghost use Rattle.lu_picture.specs.Shapes as spec;

use crate::coordinates::column;
use lu_test::Move;
use std::alloc::AllocError;

/// The row of a move: its number, and where it begins.
#[derive(Clone, Copy)]
pub(crate) struct Row {
    pub(crate) at: usize,
    pub(crate) top: u128,
    pub(crate) next: Move,
}

/// Adds the title of a row: lines of the trace.
fn write_move_title(text: &mut String, row: Row, words: &str, below: &str) -> Result<(), AllocError>
    ensures { Writes result text.old text.new (spec.move_title row words.now below.now) }
{
    let Row { at, top: _, next } = row;
    let thread = next.thread;
    write!(text, "<title>{at} T{thread} {words}{below}</title>")
}

/// Adds where a tick lies.
fn write_tick_line(text: &mut String, left: u128, top: u128) -> Result<(), AllocError>
    ensures { Writes result text.old text.new (spec.tick_line left top) }
{
    write!(text, "<path class='t' d='M{left} {top}m0 2h8'>")
}

/// Adds a tick with its title.
fn write_tick(text: &mut String, row: Row, words: &str, below: &str) -> Result<(), AllocError>
    ensures { Writes result text.old text.new (spec.tick row words.now below.now) }
{
    write_tick_line(text, column(row.next.thread), row.top)?;
    write_move_title(text, row, words, below)?;
    text.push_str("</path>\n")?;
    Ok(())
}

/// Adds the number of a move.
fn write_move_number(text: &mut String, row: Row) -> Result<(), AllocError>
    ensures { Writes result text.old text.new (spec.move_number row) }
{
    let Row { at, top, next: _ } = row;
    write!(text, "<text class='m' dy='13' x='56' y='{top}'>{at}</text>")
}

/// Adds what a move does, in its thread's column.
pub(crate) fn write_in_column(
    text: &mut String,
    class: &str,
    t: u8,
    top: u128,
    label: &str,
) -> Result<(), AllocError>
    ensures { Writes result text.old text.new (spec.in_column class.now t top label.now) }
{
    let left = column(t) + 8;
    write!(
        text,
        "<text class='{class}' dy='13' x='{left}' y='{top}'>{label}</text>"
    )
}

/// Adds the number of a move and its label, with their title; with another class where the move has
/// an event.
fn write_text_row(
    text: &mut String,
    has_event: bool,
    row: Row,
    label: &str,
    words: &str,
    below: &str,
) -> Result<(), AllocError>
    ensures { Writes result text.old text.new
        (spec.text_row has_event row label.now words.now below.now) }
{
    let class = if has_event { "e" } else { "f" };
    text.push_str("<g>")?;
    write_move_title(text, row, words, below)?;
    write_move_number(text, row)?;
    write_in_column(text, class, row.next.thread, row.top, label)?;
    text.push_str("</g>\n")?;
    Ok(())
}

/// Adds the row of a move: a tick where only its own thread sees it.
pub(crate) fn write_row(
    text: &mut String,
    local: bool,
    has_event: bool,
    row: Row,
    label: &str,
    words: &str,
    below: &str,
) -> Result<(), AllocError>
    ensures { Writes result text.old text.new
        (spec.row local has_event row label.now words.now below.now) }
{
    if local {
        write_tick(text, row, words, below)
    } else {
        write_text_row(text, has_event, row, label, words, below)
    }
}
