//! What all workers found together.

ghost use Rattle.std.specs.Prelude.{◌≡◌, IfOk, IfSome, IsSome, OnOk, All, Contains, length};
ghost use Rattle.lu_machine.specs.Sums.{total};
ghost use Rattle.lu_board.specs.Close.{SharesOut};
ghost use Rattle.lu_parallel.specs.Works.{IsSpentWork, found_pieces};
ghost use Rattle.lu_parallel.specs.Conclusions.{IsConclusion, SkipsAbove, seats_of, counts_of_works, founds_of};

use crate::works::{FoundPiece, Work};
use lu_board::{Board, Seat};
use lu_machine::Counts;
use lu_tree::Found;
use std::alloc::{AllocError, Global};

/// Works, taken apart.
#[derive(Drop)]
struct Gathered {
    seats: Vec<Seat>,
    counts: Counts,
    found: Vec<FoundPiece>,
}

fn gather(alloc: Global, works: Vec<Work>) -> Result<Gathered, AllocError>
    ensures seats { IfOk result (λ r. r.seats.items ≡ seats_of works.items) }
    ensures counts { IfOk result (λ r. r.counts ≡ total (counts_of_works works.items)) }
    ensures found { IfOk result (λ r. r.found.items ≡ founds_of works.items) }
{
    let mut seats = Vec::with_capacity(alloc, works.len())?;
    let mut counts = Counts::NONE;
    let mut found = Vec::new(alloc);
    for work in works {
        let Work {
            seat,
            counts: more,
            found: mut theirs,
        } = work;
        seats.push(seat)?;
        counts = counts.plus(more);
        found.append(&mut theirs)?;
    }
    Ok(Gathered {
        seats,
        counts,
        found,
    })
}

/// The first entry of a piece, if it has one.
fn entry_of(found: Vec<FoundPiece>, piece: u64) -> Option<FoundPiece>
    ensures some { Contains (found_pieces found.items) piece → IsSome result }
    ensures piece { IfSome result (λ entry. entry.piece ≡ piece) }
    ensures entry { IfSome result (Contains found.items) }
{
    for entry in found {
        if entry.piece == piece {
            return Some(entry);
        }
    }
    None
}

/// What all workers found together, from the works of all seats of the board: the schedule of the
/// least bad piece, and why it is bad; or, where no piece is bad, how many schedules are complete,
/// stuck and cut. `None` where a piece was given up.
///
/// # Errors
///
/// `AllocError` where memory was refused.
pub fn conclude(alloc: Global, board: Board, works: Vec<Work>) -> Result<Option<Found>, AllocError>
    requires all { length works.items ≡ board.workers }
    requires over { All (IsSpentWork board.board) works.items }
    ensures conclusion { IfOk result (IsConclusion works.items) }
    ensures pieces { OnOk result (SharesOut board.pieces (seats_of works.items)) }
    ensures skipped { OnOk result (SkipsAbove works.items) }
{
    let Gathered {
        seats,
        counts,
        found,
    } = gather(alloc, works)?;
    let close = board.finish(seats);
    if close.given_up {
        return Ok(None);
    }
    match close.best {
        None => Ok(Some(Found::Clean(counts))),
        Some(piece) => {
            let FoundPiece {
                piece: _,
                schedule,
                why,
            } = entry_of(found, piece).unwrap();
            Ok(Some(Found::Bad { schedule, why }))
        }
    }
}
