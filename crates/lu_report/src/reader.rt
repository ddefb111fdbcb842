//! Reading of reports.

ghost use Rattle.std.specs.Prelude.{◌≤◌, IfErr, IfOk};
ghost use Rattle.lu_text.specs.Lines.{texts};
ghost use Rattle.lu_report.specs.declared.report.Report.{Report};
ghost use Rattle.lu_report.specs.Parts.{most_moves};
ghost use Rattle.lu_report.specs.Forms.{AreCountsOf, GivesReport, IsAfterBound, IsConflictOf, IsFault, IsFaultLineIfAny, IsFindingOf, IsJudgementOf, IsReportOf, IsOnlySchedule, Reads, ReadsFirst, Spells};

use crate::fault::{ReportFault, ReportFaultKind};
use crate::faults::report_faults;
use crate::line::{earlier_in, is_line, number_within, schedule_in, version_in, why_in};
use crate::report::{Finding, Report};
use crate::version::Version;
use lu_component::MOST_LOCAL;
use lu_machine::{Counts, MOST_MOVES};
use lu_test::{MOST_CALLS, Schedule};
use lu_text::{Fault, exactly_one, exactly_three, kept_lines};
use std::alloc::{AllocError, Global};

/// The number on the first line, after this front, and the lines after it.
fn first_number<'a, 'b>(
    lines: &'b [&'a [u8]],
    front: &str,
    least: u64,
    most: u64,
) -> Option<(u64, &'b [&'a [u8]])>
    ensures { ReadsFirst front.now least most (texts lines.now) result }
{
    let (first, rest) = lines.split_first()?;
    let number = number_within(first, front, least, most)?;
    Some((number, rest))
}

/// The schedule that is the only line.
fn only_schedule(alloc: Global, lines: &[&[u8]]) -> Result<Option<Schedule>, AllocError>
    ensures { IfOk result (Reads (IsOnlySchedule (texts lines.now))) }
{
    match exactly_one(lines) {
        None => Ok(None),
        Some(line) => schedule_in(alloc, line),
    }
}

/// The counts of a pass, by the lines after its first.
fn counts(lines: &[&[u8]]) -> Option<Counts>
    ensures { Reads (AreCountsOf (texts lines.now)) result }
{
    let (complete, stuck, cut) = exactly_three(lines)?;
    let complete = number_within(complete, "complete ", 0, u64::MAX)?;
    let stuck = number_within(stuck, "stuck ", 0, u64::MAX)?;
    let cut = number_within(cut, "cut ", 0, u64::MAX)?;
    Some(Counts {
        complete,
        stuck,
        cut,
    })
}

/// A schedule in conflict, by the lines after its first.
fn conflict(alloc: Global, lines: &[&[u8]]) -> Result<Option<Finding>, AllocError>
    ensures { IfOk result (Reads (IsConflictOf (texts lines.now))) }
{
    let Some((schedule, before, earlier)) = exactly_three(lines) else {
        return Ok(None);
    };
    let Some(before) = number_within(before, "before ", 0, MOST_CALLS as u64 - 1) else {
        return Ok(None);
    };
    let Some(earlier) = earlier_in(earlier) else {
        return Ok(None);
    };
    let Some(schedule) = schedule_in(alloc, schedule)? else {
        return Ok(None);
    };
    Ok(Some(Finding::Nondeterministic {
        schedule,
        before: before as usize,
        earlier,
    }))
}

/// A failure or a pass.
fn judgement(alloc: Global, lines: &[&[u8]]) -> Result<Option<Finding>, AllocError>
    ensures { IfOk result (Reads (IsJudgementOf (texts lines.now))) }
{
    let Some((first, rest)) = lines.split_first() else {
        return Ok(None);
    };
    if is_line(first, "pass\n") {
        return Ok(counts(rest).map(Finding::Pass));
    }
    let Some(why) = why_in(first) else {
        return Ok(None);
    };
    let Some(schedule) = only_schedule(alloc, rest)? else {
        return Ok(None);
    };
    Ok(Some(Finding::Fail { schedule, why }))
}

/// A serial offence, a failure or a pass.
fn finding(alloc: Global, lines: &[&[u8]]) -> Result<Option<Finding>, AllocError>
    ensures { IfOk result (Reads (IsFindingOf (texts lines.now))) }
{
    let Some((first, rest)) = lines.split_first() else {
        return Ok(None);
    };
    if is_line(first, "nondeterministic\n") {
        return conflict(alloc, rest);
    }
    if is_line(first, "serial-cut\n") {
        return Ok(only_schedule(alloc, rest)?.map(Finding::SerialCut));
    }
    judgement(alloc, lines)
}

/// The report of this version and bound, by the lines after that of its bound.
fn report_after_bound(
    alloc: Global,
    version: Version,
    bound: u16,
    lines: &[&[u8]],
) -> Result<Option<Report>, AllocError>
    requires { bound ≤ most_moves }
    ensures { IfOk result (Reads (IsAfterBound version bound (texts lines.now))) }
{
    match version {
        Version::One => {
            let Some((serial, rest)) = first_number(lines, "serial ", 1, MOST_MOVES as u64) else {
                return Ok(None);
            };
            let Some(finding) = finding(alloc, rest)? else {
                return Ok(None);
            };
            Ok(Some(Report::new(bound, serial as u16, 0, finding)))
        }
        Version::Two => {
            let Some((serial, rest)) = first_number(lines, "serial ", 1, MOST_MOVES as u64) else {
                return Ok(None);
            };
            let Some((local, rest)) = first_number(rest, "local ", 1, MOST_LOCAL as u64) else {
                return Ok(None);
            };
            let Some(finding) = finding(alloc, rest)? else {
                return Ok(None);
            };
            Ok(Some(Report::new(bound, serial as u16, local as u8, finding)))
        }
        Version::Three => {
            let Some((local, rest)) = first_number(lines, "local ", 0, MOST_LOCAL as u64) else {
                return Ok(None);
            };
            let Some(finding) = judgement(alloc, rest)? else {
                return Ok(None);
            };
            Ok(Some(Report::against(bound, local as u8, finding)))
        }
    }
}

/// The report of which these are the lines.
fn report_in(alloc: Global, lines: &[&[u8]]) -> Result<Option<Report>, AllocError>
    ensures { IfOk result (Reads (IsReportOf (texts lines.now))) }
{
    let Some((first, rest)) = lines.split_first() else {
        return Ok(None);
    };
    let Some(version) = version_in(first) else {
        return Ok(None);
    };
    let Some((bound, rest)) = first_number(rest, "bound ", 0, MOST_MOVES as u64) else {
        return Ok(None);
    };
    report_after_bound(alloc, version, bound as u16, rest)
}

/// The number of the first line with a fault, and of the line after the last where none has one.
fn fault_line(alloc: Global, lines: &[&[u8]]) -> Result<usize, AllocError>
    ensures { IfOk result (IsFaultLineIfAny (texts lines.now)) }
{
    let faults = report_faults(alloc, lines)?;
    match faults.first() {
        None => Ok(lines.len() + 1),
        Some(fault) => Ok(fault.line),
    }
}

/// Reads a report from its text. Each report has one spelling. The fault is
/// [`ReportFaultKind::Form`] with the first line, from 1, that no report with the same lines before
/// it has there; a missing line counts as the number of lines plus one, and a last line without LF
/// is at fault.
///
/// # Errors
///
/// [`ReportFaultKind::Form`] where the text spells no report, and [`Fault::Memory`] where memory
/// was refused.
pub fn read_report(alloc: Global, text: &[u8]) -> Result<Report, ReportFault>
    // The text spells what is read.
    ensures found { IfOk result (Spells text.now) }
    // What the text spells is read, unless memory runs out.
    ensures only { (r : Report) → Spells text.now r → GivesReport result r }
    // Which fault it is.
    ensures fault { IfErr result (IsFault text.now) }
{
    let lines = kept_lines(alloc, text)?;
    match report_in(alloc, &lines)? {
        Some(report) => Ok(report),
        None => {
            let line = fault_line(alloc, &lines)?;
            Err(Fault::At(ReportFaultKind::Form, line))
        }
    }
}
