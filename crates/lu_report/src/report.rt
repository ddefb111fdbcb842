//! Reports of checks.

ghost use Rattle.std.specs.Prelude.{◌≡◌, ◌≤◌, ◌↔◌, None, Some, IfNone, IfSome, IsTrue};
ghost use Rattle.lu_component.specs.declared.component.TheConstants.{MOST_LOCAL};
ghost use Rattle.lu_report.specs.Parts.{IsFailure, IsFullPass, IsJudgement, IsPass, IsSerialBound, IsWithin, most_moves, parts_of, shown_schedule};

use lu_history::SerialOutcome;
use lu_machine::Counts;
use lu_test::Schedule;
use lu_witness::Why;
use std::marker::Model;

/// What a check finds.
#[derive(Debug, Drop)]
pub enum Finding {
    /// The least serial offence is a schedule that is cut: an operation runs on past the serial
    /// bound.
    SerialCut(Schedule),

    /// The least serial offence is a schedule that ends with a history in conflict with that of a
    /// smaller one: the first `before` operations agree, 0 to 15, and then the smaller one goes on
    /// with the outcome `earlier`.
    Nondeterministic {
        schedule: Schedule,
        before: usize,
        earlier: SerialOutcome,
    },

    /// The least schedule that ends within the bound without its serial witnesses; no serial run
    /// offends.
    Fail {
        schedule: Schedule,
        why: Why,
    },

    /// Every schedule that ends within the bound has its serial witnesses, and no serial run
    /// offends: how many are complete and stuck within the bound, and how many are cut at it.
    Pass(Counts),
}

impl Finding {
    /// The schedule that shows it; of a pass none.
    pub fn into_schedule(self) -> Option<Schedule>
        ensures { result ≡ shown_schedule self }
    {
        match self {
            Finding::SerialCut(schedule) => Some(schedule),
            Finding::Nondeterministic { schedule, .. } => Some(schedule),
            Finding::Fail { schedule, .. } => Some(schedule),
            Finding::Pass(_) => None,
        }
    }
}

/// The report of a check, with its bounds (Burckhardt, Dern, Musuvathi and Tan, 2010). A check is
/// one against the component's own serial runs, or one against a specification. The latter makes no
/// serial runs: it finds a failure or a pass, with witnesses of the specification.
#[derive(Debug, Drop)]
pub struct Report {
    bound: u16,
    serial: Option<u16>,
    local: u8,
    finding: Finding,
}

impl Model for Report {
    ghost use Rattle.lu_report.specs.Parts.{Report as AReport, AreLimits, parts_of};

    ghost Value = { AReport };

    ghost view = { λ r. parts_of r.bound r.serial r.local r.finding };

    ghost invariant = { λ r. AreLimits (parts_of r.bound r.serial r.local r.finding) };
}

impl Report {
    /// The report of a check against the serial runs, with these bounds. `bound` is at most 256,
    /// `serial` 1 to 256. `local` is how many local instructions of the component run with one move
    /// at most, 0 to 16. A thread of `Why::Stuck` is at most 7, and `before` at most 15.
    pub fn new(bound: u16, serial: u16, local: u8, finding: Finding) -> Report
        requires most { bound ≤ most_moves }
        requires some { 1 ≤ serial }
        requires few { serial ≤ most_moves }
        requires local_few { local ≤ MOST_LOCAL }
        requires within { IsWithin finding }
        ensures { result ≡ parts_of bound (Some serial) local finding }
    {
        Report {
            bound,
            serial: Some(serial),
            local,
            finding,
        }
    }

    /// The report of a check against a specification, with this bound, 0 to 256: a failure or a
    /// pass. `local` and a thread of `Why::Stuck` are as in [`Report::new`].
    pub fn against(bound: u16, local: u8, finding: Finding) -> Report
        requires most { bound ≤ most_moves }
        requires local_few { local ≤ MOST_LOCAL }
        requires within { IsWithin finding }
        requires judged { IsJudgement finding }
        ensures { result ≡ parts_of bound None local finding }
    {
        Report {
            bound,
            serial: None,
            local,
            finding,
        }
    }

    /// The most moves of a schedule, 0 to 256.
    pub fn bound(&self) -> u16
        ensures bound { result ≡ self.now.bound }
        ensures most { result ≤ most_moves }
    {
        self.bound
    }

    /// The most moves of an operation after its call in a serial run, 1 to 256. `None` where the
    /// check is one against a specification.
    pub fn serial(&self) -> Option<u16>
        ensures serial { result ≡ self.now.serial }
        ensures range { IfSome result IsSerialBound }
    {
        self.serial
    }

    /// How many local instructions of the component run with one move at most, 0 to 16.
    pub fn local(&self) -> u8
        ensures local { result ≡ self.now.local }
        ensures few { result ≤ MOST_LOCAL }
    {
        self.local
    }

    /// What was found: a failure or a pass, where the check is one against a specification.
    pub fn finding(&self) -> &Finding
        ensures finding { result.now ≡ self.now.finding }
        ensures within { IsWithin self.now.finding }
        ensures judged { IfNone self.now.serial (IsJudgement self.now.finding) }
    {
        &self.finding
    }

    /// Whether a failure was found, or nondeterminism.
    pub fn is_failure(&self) -> bool
        ensures { IsTrue result ↔ IsFailure self.now.finding }
    {
        matches!(
            self.finding,
            Finding::Nondeterministic { .. } | Finding::Fail { .. }
        )
    }

    /// Whether a pass was found.
    pub fn is_pass(&self) -> bool
        ensures { IsTrue result ↔ IsPass self.now.finding }
    {
        matches!(self.finding, Finding::Pass(_))
    }

    /// Whether a pass was found, and no schedule was cut.
    pub fn is_full_pass(&self) -> bool
        ensures { IsTrue result ↔ IsFullPass self.now.finding }
    {
        matches!(&self.finding, Finding::Pass(counts) if counts.cut == 0)
    }

    /// What was found, without the rest of the report.
    pub fn into_finding(self) -> Finding
        ensures { result ≡ self.finding }
    {
        self.finding
    }
}
