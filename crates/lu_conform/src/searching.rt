//! The search for a schedule that shows a recorded history.
//!
//! It is led by the history: from each stage it makes the moves without an event, and those whose
//! event comes next. What was met once is not looked at again. Breadth first, the first stage that
//! shows the history is met after as few moves as can be.

ghost use Rattle.std.specs.Prelude.{◌≡◌, ◌≤◌, ◌<◌, All, length, IfOk};
ghost use Rattle.lu_test.specs.Schedule.{IsMove};
ghost use Rattle.lu_machine.specs.Starts.{CanRun};
ghost use Rattle.lu_conform.specs.Showing.{IsShown};
ghost use Rattle.lu_conform.specs.declared.shown.Shown.TheVariants.{By, Undecided};

use crate::ending::is_end;
use crate::growing::{SoFar, add, add_next};
use crate::packing::stand_at;
use crate::shown::Shown;
use crate::ways::way_to;
use indexmap::IndexMap;
use lu_component::Component;
use lu_machine::Machine;
use lu_recorded::Recorded;
use lu_test::{MOST_LISTED_MOVES, Matrix, Move, Schedule};
use std::alloc::{AllocError, Global};

/// How many stages are kept at most.
const MOST_STAGES: usize = 262_144;

/// The answer that these moves show the history, or that it is not decided where they are more than
/// the text of a schedule has.
fn by_way(moves: Vec<Move>) -> Shown
    requires { All IsMove moves.items }
    ensures short { length moves.items ≤ 4112 → result ≡ By moves.items }
    ensures long { 4112 < length moves.items → result ≡ Undecided }
{
    if moves.len() > MOST_LISTED_MOVES {
        return Shown::Undecided;
    }
    Shown::By(Schedule::new(moves))
}

/// A shortest schedule of the component and the matrix that shows the recorded history: it leads to
/// a state with that history, which is stuck where the recorded run was stuck with a call pending.
/// Or that none does, of any length; or that it is not decided, since there are more than 262,144
/// stages, or since the shortest has more than 4,112 moves. A stage is a state with the number of
/// events that are after it. Asks for a matrix of the component, whose setup settles.
///
/// A state in which a thread spins is not stuck: where real code hung in such a loop, a text that
/// spins there does not show it, and one that waits (`await`, `lock`) does.
///
/// # Errors
///
/// `AllocError` where memory was refused.
pub fn shown_by(
    alloc: Global,
    component: &Component,
    matrix: &Matrix,
    recorded: &Recorded,
) -> Result<Shown, AllocError>
    requires { CanRun component.now matrix.now }
    ensures { IfOk result (IsShown component.now matrix.now recorded.now) }
{
    let mut machine = Machine::start(alloc, component, matrix)?;
    let events = recorded.history.events();
    let mut stages = IndexMap::new(alloc);
    add(alloc, &machine, 0, None, &mut stages)?;
    for at in 0..MOST_STAGES {
        if stages.len() > MOST_STAGES {
            return Ok(Shown::Undecided);
        }
        let (kept, _) = match stages.get_index(at) {
            None => return Ok(Shown::ByNone),
            Some(entry) => entry,
        };
        stand_at(alloc, &mut machine, &kept.numbers)?;
        let seen = kept.seen;
        if is_end(&machine, recorded, seen) {
            let moves = way_to(alloc, &stages, at)?;
            return Ok(by_way(moves));
        }
        let so_far = SoFar {
            events,
            seen,
            place: at as u32,
        };
        add_next(alloc, &mut machine, so_far, &mut stages)?;
    }
    if stages.len() > MOST_STAGES {
        return Ok(Shown::Undecided);
    }
    Ok(Shown::ByNone)
}
