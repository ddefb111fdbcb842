//! What is found of one cut.

ghost use Rattle.std.specs.Prelude.{◌≡◌, true};

use lu_report::{Finding, Report};

/// What is found of a cut.
#[derive(Drop)]
pub(crate) enum Judged {
    /// It fails, as this report shows.
    Failing(Report),

    /// It does not fail, and stands so.
    Stands(Standing),
}

/// How a cut stands that does not fail.
#[derive(Drop)]
pub(crate) enum Standing {
    /// It is clear: its report is a pass, and no schedule was cut.
    FullPass,

    /// There are few nodes, no serial run offends, and each ended schedule is good. It is clear if no
    /// schedule leads to a state from which none ends, too.
    Good,

    /// It is not clear. This is its report at the bounds.
    Open(Report),
}

impl Standing {
    ghost use Rattle.lu_certify.specs.declared.judged.Standing.TheVariants.{Good};
    ghost use Rattle.lu_certify.specs.Cuts.{AsksForLost, report_of};

    /// The report, if it is not clear by what is known of its ended schedules.
    pub(crate) fn report(self) -> Option<Report>
        ensures { result ≡ report_of self }
    {
        match self {
            Standing::FullPass => None,
            Standing::Good => None,
            Standing::Open(report) => Some(report),
        }
    }

    /// Whether it asks for the first lost schedule, which is its livelock then: no serial run
    /// offends. Else it has none.
    pub(crate) fn asks_for_lost(&self) -> bool
        ensures asks { AsksForLost self.now result }
        ensures good { self.now ≡ Good → result ≡ true }
    {
        let report = match self {
            Standing::FullPass => return false,
            Standing::Good => return true,
            Standing::Open(report) => report,
        };
        match report.finding() {
            Finding::SerialCut(_) => false,
            Finding::Nondeterministic { .. } => false,
            Finding::Fail { .. } => false,
            Finding::Pass(_) => true,
        }
    }
}
