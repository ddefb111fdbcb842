//! What was found of a cut that was looked at.

ghost use Rattle.std.specs.Prelude.{◌≡◌, None};

use crate::judged::Judged;
use lu_graph::FirstLost;
use lu_report::Report;
use lu_test::Schedule;

/// What was found of a cut that was looked at.
#[derive(Drop)]
pub(crate) enum Looked {
    /// It fails, as this report shows.
    Failing(Report),

    /// It does not fail. This is its livelock, or none was found, where that was asked. This is its
    /// report, or it is clear, where that was asked and it has no livelock.
    Stands {
        livelock: Option<Schedule>,
        unclear: Option<Report>,
    },
}

/// What is found of a cut in parts, by one worker or by several.
#[derive(Drop)]
pub(crate) struct Found {
    /// How it is judged, if it is judged already.
    pub(crate) judged: Option<Judged>,

    /// The first schedule that leads to a state from which none ends, if it was sought.
    pub(crate) lost: Option<FirstLost>,
}

/// The same, with the number of the cut.
#[derive(Drop)]
pub(crate) struct FoundAt {
    pub(crate) number: u64,
    pub(crate) found: Found,
}

impl Found {
    ghost use Rattle.lu_certify.specs.Looking.{FindsMore};

    /// Nothing is found yet.
    pub(crate) fn nothing() -> Found
        ensures judged { result.judged ≡ None }
        ensures lost { result.lost ≡ None }
    {
        Found {
            judged: None,
            lost: None,
        }
    }

    /// The same with what was found besides.
    pub(crate) fn with(self, more: Found) -> Found
        ensures { FindsMore self more result }
    {
        let Found { judged, lost } = more;
        Found {
            judged: judged.or(self.judged),
            lost: lost.or(self.lost),
        }
    }
}
