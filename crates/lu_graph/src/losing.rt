//! The first schedule that leads to a state from which none ends.

ghost use Rattle.std.specs.Prelude.{◌≡◌, ◌<◌, true, false, length, All, IfErr, IfOk, OnOk};
ghost use Rattle.lu_test.specs.Schedule.{IsMove};
ghost use Rattle.lu_machine.specs.Starts.{CanRun, FromEachStart};
ghost use Rattle.lu_graph.specs.declared.halted.Halted.TheVariants.{Stopped};
ghost use Rattle.lu_graph.specs.Exploring.{AreInOrder, FindsPath};
ghost use Rattle.lu_graph.specs.Hopeless.{FindsFirstLost, TellsFirstLost};

use crate::discovering::Discovery;
use crate::exploring_states::explore;
use crate::halted::{Halted, unhalted};
use crate::lost::FirstLost;
use crate::marking::{first_unmarked, mark_back};
use lu_component::Component;
use lu_test::{MOST_LISTED_MOVES, Matrix, Schedule};
use lu_tree::{Unwatched, Watch};
use std::alloc::{AllocError, Global};

/// The moves by which the state of this number was discovered, if they are no more than a schedule
/// has.
fn schedule_to(
    alloc: Global,
    ways: &[Discovery],
    number: usize,
) -> Result<Option<Schedule>, AllocError>
    requires there { number < length ways.now }
    requires order { AreInOrder ways.now }
    requires moves { All (λ way. IsMove way.made) ways.now }
    ensures { FindsPath ways.now number result }
{
    let mut moves = Vec::new(alloc);
    let mut at = number;
    while at > 0 {
        if moves.len() == MOST_LISTED_MOVES {
            return Ok(None);
        }
        let way = ways[at];
        moves.push(way.made)?;
        at = way.from;
    }
    moves.reverse();
    Ok(Some(Schedule::new(moves)))
}

/// As [`first_lost`], but the watch is asked before each state that is gone through, and stops the
/// search where it says so. Asks for a watch that has not stopped; where there is an answer, it has
/// not stopped either.
///
/// # Errors
///
/// `Memory` where memory was refused, `Stopped` where the watch stopped the search.
pub fn first_lost_watched<W: Watch>(
    alloc: Global,
    component: &Component,
    matrix: &Matrix,
    most: u32,
    watch: &mut W,
) -> Result<FirstLost, Halted>
    requires runs { CanRun component.now matrix.now }
    requires running { W.is_stopped watch.old ≡ false }
    ensures first { TellsFirstLost component.now matrix.now most result }
    ensures base { W.base watch.new ≡ W.base watch.old }
    ensures stopped { IfErr result (λ halted. halted ≡ Stopped → W.is_stopped watch.new ≡ true) }
    ensures running { OnOk result (W.is_stopped watch.new ≡ false) }
{
    let mut graph = match explore(alloc, component, matrix, most as usize, watch)? {
        None => return Ok(FirstLost::Unknown),
        Some(graph) => graph,
    };
    mark_back(&graph.found.edges, &mut graph.ended);
    match first_unmarked(&graph.ended) {
        None => Ok(FirstLost::Never),
        Some(number) => match schedule_to(alloc, &graph.found.discoveries, number)? {
            None => Ok(FirstLost::Unknown),
            Some(schedule) => Ok(FirstLost::First(schedule)),
        },
    }
}

/// The first schedule that leads to a state from which no schedule ends: the shortest one, and the
/// least of that length (some thread goes on for ever there, whatever moves are made). It is
/// [`FirstLost::Never`] only where no schedule of any length leads to one. It is unknown where the
/// component has more than `most` states on the matrix, and where that schedule has more than 4,112
/// moves. Histories play no part. Asks for a matrix of the component, whose setup settles.
///
/// # Errors
///
/// `AllocError` where memory was refused.
pub fn first_lost(
    alloc: Global,
    component: &Component,
    matrix: &Matrix,
    most: u32,
) -> Result<FirstLost, AllocError>
    requires { CanRun component.now matrix.now }
    ensures { FromEachStart component.now matrix.now (λ s. IfOk result (FindsFirstLost most s)) }
{
    unhalted(first_lost_watched(alloc, component, matrix, most, &mut Unwatched))
}
