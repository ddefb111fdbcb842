//! The table of the serial histories, and then the search of all nodes.

ghost use Rattle.std.specs.Prelude.{◌≤◌, IfOk};
ghost use Rattle.lu_machine.specs.declared.TheConstants.{MOST_MOVES};
ghost use Rattle.lu_machine.specs.Starts.{CanRun};
ghost use Rattle.lu_forever.specs.Certified.{IsRoundsVerdict};

use lu_always::{Budget, Verdict, find_verdict};
use lu_answers::{Rounds, Tabled, find_table};
use lu_certify::Progress;
use lu_component::Component;
use lu_test::{Matrix, Move};
use std::alloc::{AllocError, Global};

/// The most stages of the table of the serial histories. A counter that never returns to a value has
/// infinitely many.
const MOST_STAGES: usize = 65_536;

/// Whether all matrices that are unrolled from one are linearizable, and none has a livelock.
#[derive(Drop)]
pub enum RoundsVerdict {
    /// All are: each ended schedule, of any length, is good for the serial histories of its matrix.
    /// None has a livelock: wherever a schedule leads, some schedule ends.
    Linearizable,

    /// At least one is not. These moves are a schedule of it that ends, and is not good for its
    /// serial histories. No deterministic specification makes the component linearizable on it.
    NotLinearizable(Vec<Move>),

    /// All are linearizable, but at least one has a livelock. These moves are a schedule of it that
    /// leads to a state from which no schedule ends.
    Livelock(Vec<Move>),

    /// At least one has a serial run that offends: a call takes more moves than the bound, or has
    /// two outcomes after the same calls.
    Offends,

    /// There are more stages or nodes than the limit.
    Undecided,
}

/// Whether all matrices that are unrolled from this one are linearizable, and none has a livelock.
/// `rounds` says how often each thread makes its line of calls; it may stop before any call.
///
/// `serial_bound`, at most 256, is the number of moves that a call of a serial run may take after its
/// first. The table of the serial histories has no more stages than the budget has nodes, and no more
/// than 65,536. No more nodes are looked at than the budget has.
///
/// # Errors
///
/// Out of memory.
pub fn certify_rounds<P: Progress>(
    alloc: Global,
    component: &Component,
    matrix: &Matrix,
    rounds: Rounds,
    serial_bound: u16,
    budget: Budget<'_, P>,
) -> Result<RoundsVerdict, AllocError>
    requires of { CanRun component.now matrix.now }
    requires few { serial_bound ≤ MOST_MOVES }
    ensures { IfOk result (IsRoundsVerdict component.now rounds matrix.now serial_bound) }
{
    let table = match find_table(
        alloc,
        component,
        matrix,
        rounds,
        serial_bound,
        budget.most.min(MOST_STAGES),
    )? {
        Tabled::Table(table) => table,
        Tabled::Offends => return Ok(RoundsVerdict::Offends),
        Tabled::TooMany => return Ok(RoundsVerdict::Undecided),
    };
    match find_verdict(alloc, component, matrix, &table, rounds, budget)? {
        Verdict::AlwaysLinearizable => Ok(RoundsVerdict::Linearizable),
        Verdict::Fails(moves) => Ok(RoundsVerdict::NotLinearizable(moves)),
        Verdict::Livelock(moves) => Ok(RoundsVerdict::Livelock(moves)),
        Verdict::Undecided => Ok(RoundsVerdict::Undecided),
    }
}
