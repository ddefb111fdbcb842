//! The moves that lead to stored nodes.

ghost use Rattle.std.specs.Prelude.{◌≡◌, ◌++◌, ◌<◌, IfOk, OnOk, length};
ghost use Rattle.lu_always.specs.Searching.{moves_of};
ghost use Rattle.lu_always.specs.Ways.{AreBack, HasParentsBefore, IsWayTo, all_moves};

use crate::nodes::Nodes;
use crate::stored::Arrival;
use lu_test::Move;
use std::alloc::{AllocError, Global};

/// The arrivals that lead back from the node at this index to the first node.
fn arrivals_back(alloc: Global, all: &Nodes, index: usize) -> Result<Vec<Arrival>, AllocError>
    requires within { index < length all.now }
    requires parents { HasParentsBefore all.now }
    ensures { IfOk result (λ back. AreBack all.now index back.items) }
{
    let mut back = Vec::new(alloc);
    let mut at = index;
    while let Some(arrival) = all.arrival(at) {
        back.push(arrival)?;
        at = arrival.parent;
    }
    Ok(back)
}

/// Adds the moves of the arrival at the end.
fn push_moves(moves: &mut Vec<Move>, arrival: Arrival) -> Result<(), AllocError>
    ensures { OnOk result (moves.new.items ≡ moves.old.items ++ moves_of arrival) }
{
    match arrival.call {
        None => {
            moves.push(arrival.by)?;
            Ok(())
        }
        Some(call) => {
            moves.push(call)?;
            moves.push(arrival.by)?;
            Ok(())
        }
    }
}

/// The moves of these arrivals, from the first arrival to the last. The last one comes first in the
/// list.
fn moves_in(alloc: Global, back: &mut Vec<Arrival>) -> Result<Vec<Move>, AllocError>
    ensures { IfOk result (λ moves. moves.items ≡ all_moves back.old.items) }
{
    let mut moves = Vec::new(alloc);
    while let Some(arrival) = back.pop() {
        push_moves(&mut moves, arrival)?;
    }
    Ok(moves)
}

/// The moves that lead from the first node to the one at this index.
pub(crate) fn way_to(alloc: Global, all: &Nodes, index: usize) -> Result<Vec<Move>, AllocError>
    requires within { index < length all.now }
    requires parents { HasParentsBefore all.now }
    ensures { IfOk result (λ moves. IsWayTo all.now index moves.items) }
{
    let mut back = arrivals_back(alloc, all, index)?;
    moves_in(alloc, &mut back)
}
