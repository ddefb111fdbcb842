//! Every fault of a report's text.

ghost use Rattle.std.specs.Prelude.{◌≡◌, ◌++◌, IfOk};
ghost use Rattle.std.specs.Option.{option_to_list};
ghost use Rattle.lu_text.specs.Lines.{texts};
ghost use Rattle.lu_report.specs.EveryLine as spec;
ghost use Rattle.lu_report.specs.EveryLine.{AreReportFaults, IsJudgedAs};

use crate::form::{LineForm, begins, is_right, next_form};
use crate::version::Version;
use std::alloc::{AllocError, Global};

/// A fault of a line of a report's text.
#[derive(Clone, Copy, Debug, Drop, PartialEq, Eq)]
pub struct ReportLineFault {
    /// What the line is to be.
    pub form: LineForm,

    /// The number of the line, from 1.
    pub line: usize,
}

/// Whether a line is there, this many lines before it, and begins with these bytes.
fn has_at(lines: &[&[u8]], position: usize, front: &str) -> bool
    ensures { result ≡ spec.has_at position front.now (texts lines.now) }
{
    match lines.get(position) {
        None => false,
        Some(line) => begins(line, front),
    }
}

/// The version that the first of these lines says, and else the one that the lines `local` show.
fn version_by(lines: &[&[u8]]) -> Version
    ensures { result ≡ spec.version_by (texts lines.now) }
{
    if has_at(lines, 0, "lineup report 1") {
        return Version::One;
    }
    if has_at(lines, 0, "lineup report 2") {
        return Version::Two;
    }
    if has_at(lines, 0, "lineup report 3") {
        return Version::Three;
    }
    if has_at(lines, 2, "local ") {
        return Version::Three;
    }
    if has_at(lines, 3, "local ") {
        return Version::Two;
    }
    Version::One
}

/// The fault of a line, which is line `number` and to be of this form, where that is known.
fn judge_line(
    alloc: Global,
    form: Option<LineForm>,
    line: &[u8],
    number: usize,
) -> Result<Option<ReportLineFault>, AllocError>
    ensures { IfOk result (IsJudgedAs number form line.now) }
{
    match form {
        None => Ok(None),
        Some(form) => {
            if is_right(alloc, form, line)? {
                return Ok(None);
            }
            Ok(Some(ReportLineFault { form, line: number }))
        }
    }
}

/// The form of the line after this one, where it is known.
fn next_wanted(version: Version, form: Option<LineForm>, line: &[u8]) -> Option<LineForm>
    ensures { result ≡ spec.next_wanted version form line.now }
{
    match form {
        None => None,
        Some(form) => next_form(version, form, line),
    }
}

/// The fault of a line that is not there, which would be line `number` and of this form.
fn missing(form: Option<LineForm>, number: usize) -> Option<ReportLineFault>
    ensures { option_to_list result ≡ spec.missing number form }
{
    match form {
        None => None,
        Some(LineForm::End) => None,
        Some(form) => Some(ReportLineFault { form, line: number }),
    }
}

/// The faults with one more, where there is one.
fn with_fault(
    mut faults: Vec<ReportLineFault>,
    fault: Option<ReportLineFault>,
) -> Result<Vec<ReportLineFault>, AllocError>
    ensures { IfOk result (λ all. all.items ≡ faults.items ++ option_to_list fault) }
{
    match fault {
        None => Ok(faults),
        Some(fault) => {
            faults.push(fault)?;
            Ok(faults)
        }
    }
}

/// Every fault of a text that is to be a report, by its lines, each with its LF: at most one of a
/// line, and one where a line is missing. There is none exactly where [`crate::read_report`] reads
/// the text, and else the first is on the reader's line.
///
/// Each line is judged by what the lines before it say that it is to be. After a line with a fault
/// that is the form that stands next. A first line that says no version counts as one of version 3
/// where line 3 begins with `local`, of version 2 where line 4 does, and else of version 1. After
/// a finding's line with a fault the next is known by the first word of that line; where that is
/// none of a finding, no further line is judged. Of the lines after the last one the first alone
/// is reported.
///
/// # Errors
///
/// `AllocError` where memory was refused.
pub fn report_faults(alloc: Global, lines: &[&[u8]]) -> Result<Vec<ReportLineFault>, AllocError>
    ensures { IfOk result (λ faults. AreReportFaults (texts lines.now) faults.items) }
{
    let version = version_by(lines);
    let mut faults = Vec::new(alloc);
    let mut form = Some(LineForm::Version);
    for (position, line) in lines.iter().enumerate() {
        let fault = judge_line(alloc, form, line, position + 1)?;
        faults = with_fault(faults, fault)?;
        form = next_wanted(version, form, line);
    }
    with_fault(faults, missing(form, lines.len() + 1))
}
