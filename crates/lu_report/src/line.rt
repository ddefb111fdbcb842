//! The lines of reports.

ghost use Rattle.std.specs.Prelude.{◌≡◌, ◌≤◌, ℕ, IfNone, IfOk, IfSome, IsTrue, ◌↔◌};
ghost use Rattle.lu_report.specs.Text.{number_line};
ghost use Rattle.lu_report.specs.Forms.{Reads, SaysEarlier, SaysFail, SaysNumber, SaysSchedule, SaysVersion};

use crate::version::Version;
use lu_history::SerialOutcome;
use lu_test::{MOST_THREADS, Schedule, ScheduleFault, read_schedule};
use lu_text::number_up_to;
use lu_witness::Why;
use std::alloc::{AllocError, Global};

/// Whether the line is this one.
pub(crate) fn is_line(line: &[u8], text: &str) -> bool
    ensures { IsTrue result ↔ (line.now ≡ text.now) }
{
    line == text.as_bytes()
}

/// The version that the first line of a report says.
pub(crate) fn version_in(line: &[u8]) -> Option<Version>
    ensures { Reads (SaysVersion line.now) result }
{
    if is_line(line, "lineup report 1\n") {
        return Some(Version::One);
    }
    if is_line(line, "lineup report 2\n") {
        return Some(Version::Two);
    }
    if is_line(line, "lineup report 3\n") {
        return Some(Version::Three);
    }
    None
}

/// The number of a line that has one of at most `most` after this front.
fn number_after(line: &[u8], front: &str, most: u64) -> Option<u64>
    ensures some { IfSome result (λ n. (n ≤ most) × (line.now ≡ number_line front.now n)) }
    ensures none { IfNone result ((n : ℕ) →
        n ≤ most → line.now ≡ number_line front.now n → ⊥) }
{
    let word = line.strip_prefix(front.as_bytes())?.strip_suffix(b"\n")?;
    number_up_to(word, most)
}

/// The number of a line that has one within these limits after this front.
pub(crate) fn number_within(line: &[u8], front: &str, least: u64, most: u64) -> Option<u64>
    ensures { Reads (SaysNumber front.now least most line.now) result }
{
    let number = number_after(line, front, most)?;
    if number < least {
        return None;
    }
    Some(number)
}

/// The schedule that a line says.
pub(crate) fn schedule_in(alloc: Global, line: &[u8]) -> Result<Option<Schedule>, AllocError>
    ensures { IfOk result (Reads (SaysSchedule line.now)) }
{
    match read_schedule(alloc, line) {
        Ok(schedule) => Ok(Some(schedule)),
        Err(ScheduleFault::Memory) => Err(AllocError),
        Err(ScheduleFault::Form) => Ok(None),
        Err(ScheduleFault::Number) => Ok(None),
        Err(ScheduleFault::Limit) => Ok(None),
    }
}

/// The outcome that a line `earlier ..` says.
pub(crate) fn earlier_in(line: &[u8]) -> Option<SerialOutcome>
    ensures { Reads (SaysEarlier line.now) result }
{
    if is_line(line, "earlier trap\n") {
        return Some(SerialOutcome::Trap);
    }
    if is_line(line, "earlier stuck\n") {
        return Some(SerialOutcome::Stuck);
    }
    let number = number_after(line, "earlier ret ", u32::MAX as u64)?;
    Some(SerialOutcome::Ret(number as u32))
}

/// The reason that a line `fail ..` says.
pub(crate) fn why_in(line: &[u8]) -> Option<Why>
    ensures { Reads (SaysFail line.now) result }
{
    if is_line(line, "fail complete\n") {
        return Some(Why::Complete);
    }
    let thread = number_after(line, "fail stuck ", MOST_THREADS as u64 - 1)?;
    Some(Why::Stuck(thread as u8))
}
