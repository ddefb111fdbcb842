//! The schedules that led to the stages that are kept.

ghost use Rattle.std.specs.Prelude.{◌≡◌, ◌<◌, length, IfOk};
ghost use Rattle.lu_conform.specs.Ways.{HasParentsBefore, IsWayTo, arrival_at as its_arrival};

use crate::kept::{Arrival, Stages};
use lu_test::Move;
use std::alloc::{AllocError, Global};

/// How the stage at this place was reached; `None` for the start.
fn arrival_at(stages: &Stages, place: usize) -> Option<Arrival>
    ensures { result ≡ its_arrival stages.now.entries place }
{
    let (_, arrival) = stages.get_index(place)?;
    *arrival
}

/// The moves that led to the stage at this place, from the first to the last.
pub(crate) fn way_to(alloc: Global, stages: &Stages, place: usize) -> Result<Vec<Move>, AllocError>
    requires within { place < length stages.now.entries }
    requires parents { HasParentsBefore stages.now.entries }
    ensures { IfOk result (λ moves. IsWayTo stages.now.entries place moves.items) }
{
    let mut moves = Vec::new(alloc);
    let mut at = place;
    while let Some(arrival) = arrival_at(stages, at) {
        moves.push(arrival.by)?;
        at = arrival.parent as usize;
    }
    moves.reverse();
    Ok(moves)
}
