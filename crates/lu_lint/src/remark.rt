//! What lint says of a bundle.

ghost use Rattle.std.specs.Prelude.{◌≡◌, ◌∷◌, []};
ghost use Rattle.lu_text.specs.Lines.{texts};
ghost use Rattle.lu_text.specs.Results.{HasItems};
ghost use Rattle.lu_lint.specs.Lint as spec;
ghost use Rattle.lu_lint.specs.Messages.{refusal_code, fault_part};
ghost use Rattle.lu_lint.specs.Said as said;
ghost use Rattle.lu_lint.specs.Said.{SaysAlso};

use lu_history::SerialOp;
use lu_lang::LangFaultKind;
use lu_recorded::RecordedFaultKind;
use lu_report::ReportFaultKind;
use lu_spec::SpecFaultKind;
use lu_test::{MatrixFaultKind, ScheduleFault};
use std::alloc::AllocError;
use std::marker::Model;

/// What is wrong with a line of a part.
#[derive(Clone, Copy, Debug, Drop, PartialEq, Eq)]
pub enum FaultKind {
    /// Of the component.
    Component(LangFaultKind),

    /// Of the matrix.
    Matrix(MatrixFaultKind),

    /// Of the schedule.
    Schedule(ScheduleFault),

    /// Of the report.
    Report(ReportFaultKind),

    /// Of the specification.
    Specification(SpecFaultKind),

    /// Of a recorded history.
    History(RecordedFaultKind),
}

impl FaultKind {
    /// The code of the refusal, as `L1`.
    pub fn code(self) -> &'static str
        ensures { result.now ≡ refusal_code self }
    {
        match self {
            FaultKind::Component(kind) => kind.code(),
            FaultKind::Matrix(kind) => kind.code(),
            FaultKind::Schedule(kind) => kind.code(),
            FaultKind::Report(kind) => kind.code(),
            FaultKind::Specification(kind) => kind.code(),
            FaultKind::History(kind) => kind.code(),
        }
    }

    /// The part that it is a fault of.
    pub fn part(self) -> &'static str
        ensures { result.now ≡ fault_part self }
    {
        match self {
            FaultKind::Component(_) => "component",
            FaultKind::Matrix(_) => "matrix",
            FaultKind::Schedule(_) => "schedule",
            FaultKind::Report(_) => "report",
            FaultKind::Specification(_) => "specification",
            FaultKind::History(_) => "history",
        }
    }
}

/// What a warning is about.
#[derive(Clone, Copy, Debug, Drop, PartialEq, Eq)]
pub enum Hint {
    /// An array that no instruction names, on its line.
    UnnamedArray,

    /// A lock that no instruction names, on its line.
    UnnamedLock,

    /// A label to which no jump of its operation leads, on its line.
    UnusedLabel,

    /// An operation that reaches no return, whichever way its jumps go, on its `op` line.
    NoReturn,

    /// A jump back without waiting, on its line: over instructions that read cells, or over some
    /// that try to change one by `cas`, and else only compare, set registers, jump or return.
    Spin,
}

/// How an operation of a serial run ends, where that is worth a warning.
#[derive(Clone, Copy, Debug, Drop, PartialEq, Eq)]
pub enum Ending {
    /// It traps.
    Trap,

    /// It can't go on.
    Stuck,

    /// It takes as many moves after its call as the bound of serial runs allows, and goes on.
    Cut,
}

/// Operations of a serial history, in order.
#[derive(Debug, Drop)]
pub struct Operations {
    ops: Vec<SerialOp>,
}

impl Model for Operations {
    ghost use Rattle.std.specs.Prelude.{List};
    ghost use Rattle.lu_history.specs.declared.serial.SerialOp.{SerialOp};

    ghost Value = { List SerialOp };

    ghost view = { λ o. o.ops.items };
}

impl Operations {
    /// These operations.
    pub fn new(ops: Vec<SerialOp>) -> Operations
        ensures { result ≡ ops.items }
    {
        Operations { ops }
    }

    /// The operations, in order.
    pub fn as_slice(&self) -> &[SerialOp]
        ensures { result.now ≡ self.now }
    {
        &self.ops
    }
}

/// How a call of a thread ends in a serial run.
#[derive(Debug, Drop)]
pub struct SerialHint {
    /// The thread, from 0.
    pub thread: u8,

    /// The number of the thread's call, from 0.
    pub call: usize,

    pub ending: Ending,

    /// The operations of the run before it.
    pub before: Operations,
}

/// What a warning by runs is about.
#[derive(Debug, Drop)]
pub enum RunHint {
    /// The setup's call of this number, from 0, does not end, on the setup's line.
    SetupGoesOn(u8),

    /// The setup's call of this number, from 0, traps, on the setup's line.
    SetupTraps(u8),

    /// A call traps, is stuck or is cut in a serial run, on its thread's line.
    Serial(SerialHint),

    /// The serial runs have too many steps to look at them, on the first thread's line.
    TooManySteps,
}

/// What a remark is about.
#[derive(Debug, Drop)]
pub enum Cause {
    /// A fault, and the line of the part that it is a fault of, from 1.
    Fault(FaultKind, usize),

    /// A line that is nearly `---`, and parts nothing.
    Separator,

    /// A line after which a fifth part begins, where a bundle has four at most: `B1`.
    FifthPart,

    /// A warning by the text, which is no fault.
    Warning(Hint),

    /// A warning by runs, which is no fault.
    Run(RunHint),
}

impl Cause {
    /// Whether this is a fault: everything but a warning.
    pub fn is_fault(&self) -> bool
        ensures { result ≡ said.is_fault self.now }
    {
        match self {
            Cause::Fault(_, _) => true,
            Cause::Separator => true,
            Cause::FifthPart => true,
            Cause::Warning(_) => false,
            Cause::Run(_) => false,
        }
    }
}

/// A line of the bundle, from 1, and what is said of it.
#[derive(Debug, Drop)]
pub struct Said {
    pub line: usize,
    pub cause: Cause,
}

/// What is said of a line, and the words for it.
#[derive(Debug, Drop)]
pub struct Remark {
    pub said: Said,
    pub words: String,
}

/// Where a line stands.
#[derive(Drop)]
pub(crate) struct Position {
    /// How many lines of the bundle stand before its part.
    pub above: usize,

    /// Its number in the part, from 1.
    pub line: usize,

    /// The lines with words of the part before it.
    pub seen: Vec<usize>,
}

/// Line `line` of a part, before which this many lines of the bundle stand, as a line of the
/// bundle.
pub(crate) fn line_below(above: usize, line: usize) -> usize
    ensures { result ≡ said.line_below above line }
{
    above.saturating_add(line)
}

/// The remarks with one more.
#[tactic(auto, using(crate::proofs::Going::said_push))]
pub(crate) fn with_remark(
    mut all: Vec<Remark>,
    said: Said,
    words: String,
) -> Result<Vec<Remark>, AllocError>
    ensures { SaysAlso result all (said ∷ []) }
{
    all.push(Remark { said, words })?;
    Ok(all)
}

/// The lines with words so far, with one more line, of these words.
pub(crate) fn with_words(
    mut seen: Vec<usize>,
    line: usize,
    words: &[&[u8]],
) -> Result<Vec<usize>, AllocError>
    ensures { HasItems result (spec.seen_with seen.items line (texts words.now)) }
{
    if words.is_empty() {
        return Ok(seen);
    }
    seen.push(line)?;
    Ok(seen)
}

/// The line this many lines with words before a line.
pub(crate) fn line_before(seen: &[usize], line: usize, back: usize) -> usize
    ensures { result ≡ spec.line_before seen.now line back }
{
    let index = seen.len().saturating_sub(back);
    seen.get(index).copied().unwrap_or(line)
}

/// A line of these, from 1.
pub(crate) fn line_of<'a>(lines: &[&'a [u8]], number: usize) -> Option<&'a [u8]> {
    lines.get(number.saturating_sub(1)).copied()
}
