//! Replays as text.

ghost use Rattle.std.specs.Prelude.{◌≡◌, IfOk, string_bytes};
ghost use Rattle.lu_replay.specs.Text.{replay_text, status_text};

use crate::shown::Replay;
use lu_history::write_history;
use lu_machine::Status;
use std::alloc::{AllocError, Global};

/// The line of how a run stands.
fn status_line(status: Status) -> &'static str
    ensures { result.now ≡ status_text status }
{
    match status {
        Status::Running => "replay running\n",
        Status::Complete => "replay complete\n",
        Status::Stuck => "replay stuck\n",
    }
}

/// The text of a replay: a line `replay complete`, `replay stuck` or `replay running`, and then the
/// lines of the history. Each line ends with LF.
///
/// # Errors
///
/// `AllocError` where memory was refused.
pub fn write_replay(alloc: Global, replay: &Replay) -> Result<String, AllocError>
    ensures { IfOk result (λ t.
        string_bytes t ≡ replay_text replay.now.history replay.now.status) }
{
    let mut text = String::from_str(alloc, status_line(replay.status))?;
    let history = write_history(alloc, &replay.history)?;
    text.push_str(history.as_str())?;
    Ok(text)
}
