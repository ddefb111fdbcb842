//! What the nodes of a cut show.

use lu_graph::Ending;
use lu_report::MOST_MOVES;

/// What the nodes of a cut show: states, each with the serial histories that can still become
/// witnesses of a history that leads there.
#[derive(Clone, Copy)]
pub(crate) enum ByNodes {
    /// There are few, no serial run offends, and each ended schedule is good, of any length.
    AllGood,

    /// There are few, no serial run offends, and the shortest schedule that ends badly has this
    /// many moves: more than the bound, and at most 256.
    BadAfter(u16),

    /// Neither.
    Nothing,
}

impl ByNodes {
    ghost use Rattle.lu_certify.specs.Cuts.{IsByNodesOf};

    /// What they show where all schedules of the cut end so, searched up to the bound.
    pub(crate) fn of(ending: Ending, bound: u16) -> ByNodes
        ensures { IsByNodesOf bound ending result }
    {
        match ending {
            Ending::Well => ByNodes::AllGood,
            Ending::Badly(moves) => {
                if usize::from(bound) < moves && moves <= usize::from(MOST_MOVES) {
                    ByNodes::BadAfter(moves as u16)
                } else {
                    ByNodes::Nothing
                }
            }
            Ending::TooMany => ByNodes::Nothing,
        }
    }
}
