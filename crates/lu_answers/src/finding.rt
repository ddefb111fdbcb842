//! The table, made stage by stage.

ghost use Rattle.std.specs.Prelude.{◌≡◌, ◌<◌, ◌≤◌, IfErr, IfOk, OnOk, length};
ghost use Rattle.lu_machine.specs.declared.TheConstants.{MOST_MOVES};
ghost use Rattle.lu_machine.specs.Starts.{CanRun};
ghost use Rattle.lu_test.specs.Matrix.{thread_count};
ghost use Rattle.lu_answers.specs.Asking.{AddsFor, IsFoundTable, IsRowFor, IsStepFor, IsTabled, StopsAt, StopsSo};
ghost use Rattle.lu_answers.specs.Stored.{AllStoredFor, Grows};

use crate::asking::ask_next;
use crate::rounds::Rounds;
use crate::stage::{Stages, first_stage, number_of};
use crate::stop::Stop;
use crate::table::AnswerTable;
use indexmap::IndexSet;
use lu_component::Component;
use lu_history::SerialOutcome;
use lu_machine::Machine;
use lu_test::Matrix;
use std::alloc::{AllocError, Global};

/// What [`find_table`] finds.
#[derive(Drop)]
pub enum Tabled {
    /// The table of the serial histories of all unrolled matrices.
    Table(AnswerTable),

    /// One of them has a serial run that offends.
    Offends,

    /// The table has too many stages.
    TooMany,
}

/// The outcome of a call, and the number of the stage to which it leads. None where it blocks.
type Step = Option<(SerialOutcome, u32)>;

/// The answer to the thread's next call from the stage of this number. The stage to which it leads
/// is added, unless it is there already.
fn step_of(
    alloc: Global,
    machine: &mut Machine<'_>,
    rounds: Rounds,
    stages: &mut Stages,
    index: usize,
    thread: u8,
    bound: u16,
) -> Result<Step, Stop>
    requires stored { AllStoredFor machine.old stages.old.keys }
    requires there { index < length stages.old.keys }
    requires thread { thread < thread_count machine.old.matrix }
    requires few { bound ≤ MOST_MOVES }
    ensures component { OnOk result (machine.new.component ≡ machine.old.component) }
    ensures matrix { OnOk result (machine.new.matrix ≡ machine.old.matrix) }
    ensures grows { OnOk result (Grows stages.old.keys stages.new.keys) }
    ensures stored { OnOk result (AllStoredFor machine.old stages.new.keys) }
    ensures adds { OnOk result (AddsFor rounds machine.old stages.old.keys index stages.new.keys) }
    ensures step { IfOk result (IsStepFor rounds machine.old bound stages.new.keys index thread) }
    ensures stop { IfErr result (StopsAt rounds machine.old bound stages.old.keys index) }
{
    let stage = stages.get_index(index).unwrap();
    let Some((outcome, next)) = ask_next(alloc, machine, rounds, stage, thread, bound)? else {
        return Ok(None);
    };
    match number_of(stages, next)? {
        None => Err(Stop::TooMany),
        Some(number) => Ok(Some((outcome, number))),
    }
}

/// The answers to all threads' next calls from the stage of this number. The stages to which they
/// lead are added, unless they are there already.
fn row_of(
    alloc: Global,
    machine: &mut Machine<'_>,
    rounds: Rounds,
    stages: &mut Stages,
    index: usize,
    bound: u16,
) -> Result<[Step; 8], Stop>
    requires stored { AllStoredFor machine.old stages.old.keys }
    requires there { index < length stages.old.keys }
    requires few { bound ≤ MOST_MOVES }
    ensures component { OnOk result (machine.new.component ≡ machine.old.component) }
    ensures matrix { OnOk result (machine.new.matrix ≡ machine.old.matrix) }
    ensures grows { OnOk result (Grows stages.old.keys stages.new.keys) }
    ensures stored { OnOk result (AllStoredFor machine.old stages.new.keys) }
    ensures adds { OnOk result (AddsFor rounds machine.old stages.old.keys index stages.new.keys) }
    ensures row { IfOk result (IsRowFor rounds machine.old bound stages.new.keys index) }
    ensures stop { IfErr result (StopsAt rounds machine.old bound stages.old.keys index) }
{
    let mut row = [None; 8];
    for thread in 0..machine.matrix().threads() {
        let step = step_of(alloc, machine, rounds, stages, index, thread, bound)?;
        row[usize::from(thread)] = step;
    }
    Ok(row)
}

/// The table, with no more than `most` stages.
///
/// # Errors
///
/// `Offends` where an unrolled matrix has a serial run that offends, `TooMany` where the table has
/// more stages, and `Memory` if out of memory.
fn make_table(
    alloc: Global,
    component: &Component,
    matrix: &Matrix,
    rounds: Rounds,
    bound: u16,
    most: usize,
) -> Result<AnswerTable, Stop>
    requires of { CanRun component.now matrix.now }
    requires few { bound ≤ MOST_MOVES }
    ensures table { IfOk result (IsFoundTable component.now rounds matrix.now bound) }
    ensures stop { IfErr result (StopsSo component.now rounds matrix.now bound) }
{
    let mut machine = Machine::start(alloc, component, matrix)?;
    let mut stages = IndexSet::new(alloc);
    number_of(&mut stages, first_stage(alloc, &machine)?)?;
    let mut rows = Vec::new(alloc);
    let mut index = 0;
    while index < stages.len() {
        if index >= most {
            return Err(Stop::TooMany);
        }
        let row = row_of(alloc, &mut machine, rounds, &mut stages, index, bound)?;
        rows.push(row)?;
        index += 1;
    }
    Ok(AnswerTable::new(rows))
}

/// The table of the serial histories of all matrices that are unrolled from this one. `rounds` says
/// how often each thread makes its line of calls; it may stop before any call.
///
/// `bound`, at most 256, is the number of moves that a call may take after its first. The table has
/// no more than `most` stages.
///
/// A matrix offends where a call of a serial run takes more moves than that, or has two outcomes
/// after the same calls (Burckhardt, Dern, Musuvathi and Tan, 2010).
///
/// # Errors
///
/// Out of memory.
pub fn find_table(
    alloc: Global,
    component: &Component,
    matrix: &Matrix,
    rounds: Rounds,
    bound: u16,
    most: usize,
) -> Result<Tabled, AllocError>
    requires of { CanRun component.now matrix.now }
    requires few { bound ≤ MOST_MOVES }
    ensures { IfOk result (IsTabled component.now rounds matrix.now bound) }
{
    match make_table(alloc, component, matrix, rounds, bound, most) {
        Ok(table) => Ok(Tabled::Table(table)),
        Err(Stop::Offends) => Ok(Tabled::Offends),
        Err(Stop::TooMany) => Ok(Tabled::TooMany),
        Err(Stop::Memory) => Err(AllocError),
    }
}
