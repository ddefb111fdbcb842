//! What is known of the cuts so far.

ghost use Rattle.std.specs.Prelude.{◌≡◌};

use crate::asked::Asked;
use lu_report::Report;
use lu_test::{Matrix, Schedule};

/// What is known of the cuts so far, none of which fails.
#[derive(Drop)]
pub(crate) enum SoFar {
    /// Each is clear.
    Clear,

    /// No livelock was found, and this is the first that is not clear, with its report.
    Unclear { matrix: Matrix, report: Report },

    /// This is the first that has a livelock, with its schedule.
    Lost { matrix: Matrix, schedule: Schedule },
}

impl SoFar {
    ghost use Rattle.lu_certify.specs.Cuts.{asked_by, so_far_after};

    /// What is asked of the next cut.
    pub(crate) fn asked(&self) -> Asked
        ensures { result ≡ asked_by self.now }
    {
        match self {
            SoFar::Clear => Asked::Clearness,
            SoFar::Unclear { .. } => Asked::LivelockOnly,
            SoFar::Lost { .. } => Asked::FailureOnly,
        }
    }

    /// The same after one cut more: with this schedule as its livelock, or none, and with this
    /// report where it is not clear.
    pub(crate) fn after(
        self,
        cut: Matrix,
        livelock: Option<Schedule>,
        unclear: Option<Report>,
    ) -> SoFar
        ensures { result ≡ so_far_after self cut livelock unclear }
    {
        match self {
            SoFar::Lost { matrix, schedule } => SoFar::Lost { matrix, schedule },
            SoFar::Unclear { matrix, report } => match livelock {
                Some(schedule) => SoFar::Lost {
                    matrix: cut,
                    schedule,
                },
                None => SoFar::Unclear { matrix, report },
            },
            SoFar::Clear => match livelock {
                Some(schedule) => SoFar::Lost {
                    matrix: cut,
                    schedule,
                },
                None => match unclear {
                    None => SoFar::Clear,
                    Some(report) => SoFar::Unclear {
                        matrix: cut,
                        report,
                    },
                },
            },
        }
    }
}
