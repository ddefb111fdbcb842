//! What each line of a report is to be.

ghost use Rattle.std.specs.Prelude.{◌≡◌, ◌↔◌, IfOk, IsTrue};
ghost use Rattle.lu_report.specs.EveryLine as spec;
ghost use Rattle.lu_report.specs.EveryLine.{IsFindingLine, IsJudgementLine, IsLineOf};
ghost use Rattle.lu_report.specs.Forms.{IsEarlierLine, IsFailLine, IsNumberLine, IsScheduleLine, IsVersionLine};

use crate::line::{earlier_in, is_line, number_within, schedule_in, version_in, why_in};
use crate::version::Version;
use lu_component::MOST_LOCAL;
use lu_machine::MOST_MOVES;
use lu_test::MOST_CALLS;
use std::alloc::{AllocError, Global};

/// What a line of a report is to be, as the lines before it say.
#[derive(Clone, Copy, Debug, Drop, PartialEq, Eq)]
pub enum LineForm {
    /// `lineup report 1`, or 2 or 3.
    Version,

    /// `bound N`, N from 0 to 256.
    Bound,

    /// `serial S`, S from 1 to 256.
    Serial,

    /// `local L`, L from 1 to 16.
    Local,

    /// `local L`, L from 0 to 16.
    AnyLocal,

    /// `serial-cut`, `nondeterministic`, `fail complete`, `fail stuck T`, T from 0 to 7, or `pass`.
    Finding,

    /// `fail complete`, `fail stuck T`, T from 0 to 7, or `pass`.
    Judgement,

    /// A schedule, the last line.
    Schedule,

    /// A schedule, after which its conflict stands.
    ConflictSchedule,

    /// `before K`, K from 0 to 15.
    Before,

    /// `earlier ret N`, N a number of 32 bits, `earlier trap` or `earlier stuck`.
    Earlier,

    /// `complete N`, N a number of 64 bits.
    Complete,

    /// `stuck N`, N a number of 64 bits.
    Stuck,

    /// `cut N`, N a number of 64 bits.
    Cut,

    /// No line: the report has ended.
    End,
}

#[tactic(auto, using(crate::proofs::LineTests::tells))]
fn is_version(line: &[u8]) -> bool
    ensures { IsTrue result ↔ IsVersionLine line.now }
{
    version_in(line).is_some()
}

#[tactic(auto, using(crate::proofs::LineTests::tells))]
fn is_earlier(line: &[u8]) -> bool
    ensures { IsTrue result ↔ IsEarlierLine line.now }
{
    earlier_in(line).is_some()
}

#[tactic(auto, using(crate::proofs::LineTests::tells))]
fn is_fail(line: &[u8]) -> bool
    ensures { IsTrue result ↔ IsFailLine line.now }
{
    why_in(line).is_some()
}

/// Whether a line has a number within these limits after this front.
#[tactic(auto, using(crate::proofs::LineTests::tells))]
fn is_number(line: &[u8], front: &str, least: u64, most: u64) -> bool
    ensures { IsTrue result ↔ IsNumberLine front.now least most line.now }
{
    number_within(line, front, least, most).is_some()
}

fn is_judgement(line: &[u8]) -> bool
    ensures { IsTrue result ↔ IsJudgementLine line.now }
{
    is_line(line, "pass\n") || is_fail(line)
}

fn is_finding(line: &[u8]) -> bool
    ensures { IsTrue result ↔ IsFindingLine line.now }
{
    is_line(line, "serial-cut\n") || is_line(line, "nondeterministic\n") || is_judgement(line)
}

#[tactic(auto, using(crate::proofs::LineTests::tells))]
fn is_schedule(alloc: Global, line: &[u8]) -> Result<bool, AllocError>
    ensures { IfOk result (λ right. IsTrue right ↔ IsScheduleLine line.now) }
{
    Ok(schedule_in(alloc, line)?.is_some())
}

/// Whether a line is of this form.
pub(crate) fn is_right(alloc: Global, form: LineForm, line: &[u8]) -> Result<bool, AllocError>
    ensures { IfOk result (λ right. IsTrue right ↔ IsLineOf form line.now) }
{
    match form {
        LineForm::Version => Ok(is_version(line)),
        LineForm::Bound => Ok(is_number(line, "bound ", 0, MOST_MOVES as u64)),
        LineForm::Serial => Ok(is_number(line, "serial ", 1, MOST_MOVES as u64)),
        LineForm::Local => Ok(is_number(line, "local ", 1, MOST_LOCAL as u64)),
        LineForm::AnyLocal => Ok(is_number(line, "local ", 0, MOST_LOCAL as u64)),
        LineForm::Finding => Ok(is_finding(line)),
        LineForm::Judgement => Ok(is_judgement(line)),
        LineForm::Schedule => is_schedule(alloc, line),
        LineForm::ConflictSchedule => is_schedule(alloc, line),
        LineForm::Before => Ok(is_number(line, "before ", 0, MOST_CALLS as u64 - 1)),
        LineForm::Earlier => Ok(is_earlier(line)),
        LineForm::Complete => Ok(is_number(line, "complete ", 0, u64::MAX)),
        LineForm::Stuck => Ok(is_number(line, "stuck ", 0, u64::MAX)),
        LineForm::Cut => Ok(is_number(line, "cut ", 0, u64::MAX)),
        LineForm::End => Ok(false),
    }
}

pub(crate) fn begins(line: &[u8], front: &str) -> bool
    ensures { result ≡ spec.begins front.now line.now }
{
    line.starts_with(front.as_bytes())
}

/// The form of the line after that of a finding, where its first word says one.
fn after_finding(line: &[u8]) -> Option<LineForm>
    ensures { result ≡ spec.after_finding line.now }
{
    if begins(line, "pass") {
        return Some(LineForm::Complete);
    }
    if begins(line, "fail") {
        return Some(LineForm::Schedule);
    }
    if begins(line, "serial-cut") {
        return Some(LineForm::Schedule);
    }
    if begins(line, "nondeterministic") {
        return Some(LineForm::ConflictSchedule);
    }
    None
}

/// The form of the line after the bound, in a report of this version.
fn after_bound(version: Version) -> LineForm
    ensures { result ≡ spec.after_bound version }
{
    match version {
        Version::One => LineForm::Serial,
        Version::Two => LineForm::Serial,
        Version::Three => LineForm::AnyLocal,
    }
}

/// The form of the line after the bound of serial runs, in a report of this version.
fn after_serial(version: Version) -> LineForm
    ensures { result ≡ spec.after_serial version }
{
    match version {
        Version::One => LineForm::Finding,
        Version::Two => LineForm::Local,
        Version::Three => LineForm::Local,
    }
}

/// The form of the line after this one, which is to be of this form, in a report of this version.
/// `None` where that is not known.
pub(crate) fn next_form(version: Version, form: LineForm, line: &[u8]) -> Option<LineForm>
    ensures { result ≡ spec.next_form version form line.now }
{
    match form {
        LineForm::Version => Some(LineForm::Bound),
        LineForm::Bound => Some(after_bound(version)),
        LineForm::Serial => Some(after_serial(version)),
        LineForm::Local => Some(LineForm::Finding),
        LineForm::AnyLocal => Some(LineForm::Judgement),
        LineForm::Finding => after_finding(line),
        LineForm::Judgement => after_finding(line),
        LineForm::Schedule => Some(LineForm::End),
        LineForm::ConflictSchedule => Some(LineForm::Before),
        LineForm::Before => Some(LineForm::Earlier),
        LineForm::Earlier => Some(LineForm::End),
        LineForm::Complete => Some(LineForm::Stuck),
        LineForm::Stuck => Some(LineForm::Cut),
        LineForm::Cut => Some(LineForm::End),
        LineForm::End => None,
    }
}
