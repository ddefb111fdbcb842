//! Histories as text.

ghost use Rattle.std.specs.Prelude.{◌≡◌, IfOk, string_bytes};
ghost use Rattle.lu_text.specs.Writing.{Writes};
ghost use Rattle.lu_history.specs.Text.{event_text, history_text};

use crate::history::History;
use lu_machine::Event;
use std::alloc::{AllocError, Global};

/// Adds an event's line at the end of a text.
fn write_event(text: &mut String, event: Event) -> Result<(), AllocError>
    ensures { Writes result text.old text.new (event_text event) }
{
    match event {
        Event::Call { t, k } => writeln!(text, "call {t} {k}")?,
        Event::Return { t, k, outcome } => writeln!(text, "return {t} {k} {outcome}")?,
    }
    Ok(())
}

/// The text of a history: a line for each event, as `call 0 1`, `return 0 1 ret 5` or `return 0 1
/// trap`, with the thread and the number of its call, both from 0. Each line ends with LF.
///
/// # Errors
///
/// Memory was refused.
pub fn write_history(alloc: Global, history: &History) -> Result<String, AllocError>
    ensures { IfOk result (λ text. string_bytes text ≡ history_text history.now) }
{
    let mut text = String::new(alloc);
    for event in history.events() {
        write_event(&mut text, *event)?;
    }
    Ok(text)
}
