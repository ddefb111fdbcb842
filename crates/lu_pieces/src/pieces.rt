//! The frontier of the tree of schedules.

ghost use Rattle.std.specs.Prelude.{◌≡◌, ◌+◌, ◌≤◌, ◌++◌, [], ◌∷◌, List, min, length, drop, IfOk, IfNone, IfSome, OnOk};
ghost use Rattle.lu_component.specs.Component.{IsComponent};
ghost use Rattle.lu_machine.specs.declared.TheConstants.{MOST_MOVES};
ghost use Rattle.lu_test.specs.declared.schedule.Move.{Move as AMove};
ghost use Rattle.lu_test.specs.Matrix.{IsMatrix};
ghost use Rattle.lu_test.specs.Schedule.{IsMove};
ghost use Rattle.lu_machine.specs.Schedules.{IsSchedule, Lists};
ghost use Rattle.lu_machine.specs.Starts.{CanRun};
ghost use Rattle.lu_pieces.specs.declared.pieces.TheConstants.{MOST_DEPTH, MOST_PIECES};
ghost use Rattle.lu_pieces.specs.Frontiers.{IsCoverFrom, IsFrontierFrom};
ghost use Rattle.lu_pieces.specs.Pieces.{AreDeeper, GrowByKids, HasKids, TooMany};

use lu_component::Component;
use lu_machine::Machine;
use lu_test::{Matrix, Move, Schedule};
use std::alloc::{AllocError, Global};

/// How many pieces a frontier has at most.
const MOST_PIECES: usize = 65_536;

/// The most moves of a piece.
pub const MOST_DEPTH: u8 = 8;

/// The piece with one more move.
fn extend(alloc: Global, piece: &Schedule, next: Move) -> Result<Schedule, AllocError>
    requires short { length piece.now ≤ MOST_MOVES }
    requires sound { IsMove next }
    ensures { IfOk result (λ longer. longer ≡ piece.now ++ next ∷ []) }
{
    let moves = piece.moves();
    let mut longer = Vec::with_capacity(alloc, moves.len() + 1)?;
    longer.extend_from_slice(moves)?;
    longer.push(next)?;
    Ok(Schedule::new(longer))
}

/// Adds to `next` the piece with each move of the machine after it, or the piece itself where
/// there is none.
fn add_kids(
    alloc: Global,
    machine: &Machine,
    piece: &Schedule,
    next: &mut Vec<Schedule>,
) -> Result<(), AllocError>
    requires sound { IsComponent machine.now.component }
    requires short { length piece.now ≤ MOST_MOVES }
    ensures { OnOk result (HasKids machine.now piece.now next.old.items next.new.items) }
{
    let before = next.len();
    for thread in 0..machine.threads() {
        for pick in 0..machine.picks(thread) {
            next.push(extend(alloc, piece, Move { thread, pick })?)?;
        }
    }
    if next.len() == before {
        next.push(Schedule::new(Vec::from_slice(alloc, piece.moves())?))?;
    }
    Ok(())
}

/// Adds to `next` what the piece becomes one move deeper, from the machine at which this many of
/// its moves are made.
fn deepen(
    alloc: Global,
    machine: &mut Machine,
    piece: &Schedule,
    made: usize,
    next: &mut Vec<Schedule>,
) -> Result<(), AllocError>
    requires sound { IsComponent machine.old.component }
    requires short { length piece.now ≤ MOST_MOVES }
    requires within { made ≤ length piece.now }
    requires leads { IsSchedule machine.old (drop made piece.now) }
    ensures home { OnOk result (machine.new ≡ machine.old) }
    ensures kids { OnOk result (GrowByKids machine.old piece.now made next.old next.new) }
{
    let moves = piece.moves();
    if made == moves.len() {
        return add_kids(alloc, machine, piece, next);
    }
    let undo = machine.apply(moves[made]);
    deepen(alloc, machine, piece, made + 1, next)?;
    machine.undo(undo);
    Ok(())
}

/// The pieces one move deeper, or None where there would be more than `MOST_PIECES`.
fn go_deeper(
    alloc: Global,
    machine: &mut Machine,
    pieces: &[Schedule],
) -> Result<Option<Vec<Schedule>>, AllocError>
    requires sound { IsComponent machine.old.component }
    requires short { (u : List AMove) → Lists pieces.now u → length u ≤ MOST_MOVES }
    requires leads { (u : List AMove) → Lists pieces.now u → IsSchedule machine.old u }
    ensures home { OnOk result (machine.new ≡ machine.old) }
    ensures few { IfOk result (λ deeper. IfSome deeper (λ next. length next.items ≤ MOST_PIECES)) }
    ensures some { IfOk result (λ d. IfSome d (λ p. AreDeeper machine.old pieces.now p.items)) }
    ensures none { IfOk result (λ deeper. IfNone deeper (TooMany machine.old pieces.now)) }
{
    let mut next = Vec::new(alloc);
    for piece in pieces {
        deepen(alloc, machine, piece, 0, &mut next)?;
        if next.len() > MOST_PIECES {
            return Ok(None);
        }
    }
    Ok(Some(next))
}

/// The schedules of `d` moves and the ended ones of fewer, in order. `d` is the greatest number, at
/// most `depth` (0 to 8) and `bound` (0 to 256), for which there are at most 65,536 of them. They
/// are a cover: each schedule that is ended within the bound or cut at it begins with exactly one
/// of them. The matrix has to be one of the component (`Matrix::of`).
///
/// # Errors
///
/// `AllocError` where memory was refused.
pub fn frontier(
    alloc: Global,
    component: &Component,
    matrix: &Matrix,
    bound: u16,
    depth: u8,
) -> Result<Vec<Schedule>, AllocError>
    requires of { CanRun component.now matrix.now }
    requires few { bound ≤ MOST_MOVES }
    requires shallow { depth ≤ MOST_DEPTH }
    ensures frontier { IfOk result (IsFrontierFrom component.now matrix.now bound depth) }
    ensures cover { IfOk result (λ p. IsCoverFrom component.now matrix.now bound p.items) }
    ensures limits { IsComponent component.now × IsMatrix matrix.now }
{
    let mut machine = Machine::start(alloc, component, matrix)?;
    let mut pieces = Vec::new(alloc);
    pieces.push(Schedule::new(Vec::new(alloc)))?;
    for _level in 0..bound.min(u16::from(depth)) {
        match go_deeper(alloc, &mut machine, &pieces)? {
            None => return Ok(pieces),
            Some(next) => pieces = next,
        }
    }
    Ok(pieces)
}
