//! Livelocks among the nodes.

ghost use Rattle.std.specs.Prelude.{◌≡◌, IfOk, length};
ghost use Rattle.lu_always.specs.Ways.{HasParentsBefore, IsWayToLivelock};

use crate::nodes::Nodes;
use crate::sinks::first_without_sink;
use crate::ways::way_to;
use lu_test::Move;
use std::alloc::{AllocError, Global};

/// The moves that lead to the first node from which no moves of open operations alone lead to where
/// all of them are blocked, if there is such a node. `exits` has the exits of each node: the indexes
/// of the nodes to which moves of its open operations lead.
pub(crate) fn way_to_livelock(
    alloc: Global,
    all: &Nodes,
    exits: &[Vec<usize>],
) -> Result<Option<Vec<Move>>, AllocError>
    requires many { length exits.now ≡ length all.now }
    requires parents { HasParentsBefore all.now }
    ensures { IfOk result (IsWayToLivelock all.now exits.now) }
{
    match first_without_sink(alloc, exits)? {
        None => Ok(None),
        Some(index) => {
            let moves = way_to(alloc, all, index)?;
            Ok(Some(moves))
        }
    }
}
