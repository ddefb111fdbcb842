//! Reports as text.

ghost use Rattle.std.specs.Prelude.{◌≡◌, ◌<◌, ◌^◌, IfOk, OnOk, string_bytes};
ghost use Rattle.std.specs.List.{concat};
ghost use Rattle.lu_test.specs.Schedule.{AreMoves};
ghost use Rattle.lu_test.specs.ScheduleText.{schedule_text};
ghost use Rattle.lu_text.specs.Writing.{Writes};
ghost use Rattle.lu_history.specs.Serial.{IsOutcome};
ghost use Rattle.lu_report.specs.Forms.{HasParts, Spells};
ghost use Rattle.lu_report.specs.Text.{finding_lines, local_lines, serial_lines};
ghost use Rattle.lu_report.specs.Text as spec;

use crate::report::{Finding, Report};
use crate::version::Version;
use lu_history::SerialOutcome;
use lu_test::{Schedule, write_schedule};
use lu_witness::Why;
use std::alloc::{AllocError, Global};

fn put_schedule(alloc: Global, text: &mut String, schedule: &Schedule) -> Result<(), AllocError>
    ensures text { Writes result text.old text.new (schedule_text schedule.now) }
    ensures moves { OnOk result (AreMoves schedule.now) }
{
    let line = write_schedule(alloc, schedule)?;
    text.push_str(line.as_str())
}

/// Adds a line with a number after a front.
fn put_number(text: &mut String, front: &str, number: u64) -> Result<(), AllocError>
    ensures text { Writes result text.old text.new (spec.number_line front.now number) }
    ensures range { number < 2 ^ 64 }
{
    writeln!(text, "{front}{number}")?;
    Ok(())
}

fn put_earlier(text: &mut String, earlier: SerialOutcome) -> Result<(), AllocError>
    ensures text { Writes result text.old text.new (spec.earlier_line earlier) }
    ensures outcome { OnOk result (IsOutcome earlier) }
{
    match earlier {
        SerialOutcome::Ret(number) => put_number(text, "earlier ret ", u64::from(number))?,
        SerialOutcome::Trap => text.push_str("earlier trap\n")?,
        SerialOutcome::Stuck => text.push_str("earlier stuck\n")?,
    }
    Ok(())
}

fn put_fail(text: &mut String, why: Why) -> Result<(), AllocError>
    ensures { Writes result text.old text.new (spec.fail_line why) }
{
    match why {
        Why::Complete => text.push_str("fail complete\n"),
        Why::Stuck(thread) => put_number(text, "fail stuck ", u64::from(thread)),
    }
}

/// Adds the lines of what was found.
fn put_finding(alloc: Global, text: &mut String, finding: &Finding) -> Result<(), AllocError>
    ensures text { Writes result text.old text.new (concat (finding_lines finding.now)) }
    ensures parts { OnOk result (HasParts finding.now) }
{
    match finding {
        Finding::SerialCut(schedule) => {
            text.push_str("serial-cut\n")?;
            put_schedule(alloc, text, schedule)?;
        }
        Finding::Nondeterministic {
            schedule,
            before,
            earlier,
        } => {
            text.push_str("nondeterministic\n")?;
            put_schedule(alloc, text, schedule)?;
            put_number(text, "before ", *before as u64)?;
            put_earlier(text, *earlier)?;
        }
        Finding::Fail { schedule, why } => {
            put_fail(text, *why)?;
            put_schedule(alloc, text, schedule)?;
        }
        Finding::Pass(counts) => {
            text.push_str("pass\n")?;
            put_number(text, "complete ", counts.complete)?;
            put_number(text, "stuck ", counts.stuck)?;
            put_number(text, "cut ", counts.cut)?;
        }
    }
    Ok(())
}

/// Adds the line of the bound of serial runs, where there is one.
fn put_serial(text: &mut String, serial: Option<u16>) -> Result<(), AllocError>
    ensures { Writes result text.old text.new (concat (serial_lines serial)) }
{
    match serial {
        None => Ok(()),
        Some(serial) => put_number(text, "serial ", u64::from(serial)),
    }
}

/// Adds the line of the local instructions that run with a move, where the version has it.
fn put_local(text: &mut String, version: Version, local: u8) -> Result<(), AllocError>
    ensures { Writes result text.old text.new (concat (local_lines version local)) }
{
    match version {
        Version::One => Ok(()),
        Version::Two => put_number(text, "local ", u64::from(local)),
        Version::Three => put_number(text, "local ", u64::from(local)),
    }
}

/// The text of a report. Each line ends with LF:
///
/// ```text
/// lineup report 1
/// bound 40
/// serial 40
/// fail complete
/// schedule 0 0 0 1 1 0 0 1 1 1
/// ```
///
/// Where local instructions run with a move, the first line is `lineup report 2`, and the fourth
/// `local` with how many at most. Of a check against a specification the first line is `lineup
/// report 3`, and the third `local` with how many at most, instead of `serial`.
///
/// It is the one spelling of the report, which [`crate::read_report`] reads as the report again.
///
/// # Errors
///
/// `AllocError` where memory was refused.
pub fn write_report(alloc: Global, report: &Report) -> Result<String, AllocError>
    ensures { IfOk result (λ text. Spells (string_bytes text) report.now) }
{
    let version = Version::of(report.serial(), report.local());
    let mut text = String::from_str(alloc, version.line())?;
    put_number(&mut text, "bound ", u64::from(report.bound()))?;
    put_serial(&mut text, report.serial())?;
    put_local(&mut text, version, report.local())?;
    put_finding(alloc, &mut text, report.finding())?;
    Ok(text)
}
