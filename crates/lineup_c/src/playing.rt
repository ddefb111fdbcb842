//! Where a schedule leads, from texts.

ghost use Rattle.std.specs.Prelude.{◌≡◌, ◌≢◌, ◌++◌, [], IfErr, IfOk, OnOk};
ghost use Rattle.lu_machine.specs.Runs.{Leads, with_event};
ghost use Rattle.lu_machine.specs.Starts.{CanRun};
ghost use Rattle.lu_cli.specs.Shown.{IsOfReport, IsTextOfSchedule};
ghost use Rattle.lineup_c.specs.Calls.{IsFaultAfter, IsFaultFrom, IsNoInfeasible, IsStateFault, TellsNumbersAfter, TellsStateOf};
ghost use Rattle.lineup_c.specs.Numbers.{TellsRun};

use crate::numbers::{number_of, push_events, push_shape, push_state};
use lu_cli::{Case, Fault as TextsFault, read_texts};
use lu_machine::{Event, Machine, Status};
use lu_report::read_report;
use lu_test::{Move, Schedule, ScheduleFault, read_schedule};
use lu_text::Fault;
use std::alloc::{AllocError, Global};

/// Why there are no numbers.
#[derive(Clone, Copy)]
pub(crate) enum StateFault {
    /// The move of this number, from 0, is not feasible where it stands.
    Infeasible(usize),

    /// A text is refused, or the setup does not settle.
    Refused,

    /// Memory was refused.
    Memory,
}

impl From<AllocError> for StateFault {
    ghost use Rattle.lineup_c.specs.declared.playing.StateFault.TheVariants.{Memory};

    ghost from_gives = { λ _ e. e ≡ Memory };

    fn from(_refused: AllocError) -> StateFault {
        StateFault::Memory
    }
}

impl From<ScheduleFault> for StateFault {
    ghost use Rattle.lineup_c.specs.Calls.{IsNoInfeasible};

    ghost from_gives = { λ _ e. IsNoInfeasible e };

    fn from(fault: ScheduleFault) -> StateFault {
        match fault {
            ScheduleFault::Memory => StateFault::Memory,
            _ => StateFault::Refused,
        }
    }
}

impl From<TextsFault> for StateFault {
    ghost use Rattle.lineup_c.specs.Calls.{IsNoInfeasible};

    ghost from_gives = { λ _ e. IsNoInfeasible e };

    fn from(fault: TextsFault) -> StateFault {
        match fault {
            TextsFault::Component(Fault::Memory) | TextsFault::Matrix(Fault::Memory) => {
                StateFault::Memory
            }
            _ => StateFault::Refused,
        }
    }
}

/// The schedule of the report that the text spells: none where it spells none with a schedule.
fn schedule_of_report(alloc: Global, text: &[u8]) -> Result<Option<Schedule>, AllocError>
    ensures { IfOk result (IsOfReport text.now) }
{
    match read_report(alloc, text) {
        Ok(report) => Ok(report.into_finding().into_schedule()),
        Err(Fault::At(_, _)) => Ok(None),
        Err(Fault::Memory) => Err(AllocError),
    }
}

/// The schedule that a text says, or that of the report that it spells.
fn read_shown(alloc: Global, text: &[u8]) -> Result<Schedule, StateFault>
    ensures read { IfOk result (IsTextOfSchedule text.now) }
    ensures fault { IfErr result IsNoInfeasible }
{
    match schedule_of_report(alloc, text)? {
        Some(schedule) => Ok(schedule),
        None => Ok(read_schedule(alloc, text)?),
    }
}

/// Adds the event, if there is one.
fn extend(events: &mut Vec<Event>, event: Option<Event>) -> Result<(), AllocError>
    ensures { OnOk result (events.new.items ≡ events.old.items ++ with_event event []) }
{
    match event {
        None => Ok(()),
        Some(event) => {
            events.push(event)?;
            Ok(())
        }
    }
}

/// Makes the moves, and returns their events.
fn play(alloc: Global, machine: &mut Machine<'_>, moves: &[Move]) -> Result<Vec<Event>, StateFault>
    ensures led { IfOk result (λ events. Leads machine.old moves.now machine.new events.items) }
    ensures fault { IfErr result (IsFaultFrom machine.old moves.now) }
{
    let mut events = Vec::new(alloc);
    for (number, next) in moves.iter().enumerate() {
        if !machine.feasible(*next) {
            return Err(StateFault::Infeasible(number));
        }
        let event = machine.step(*next);
        extend(&mut events, event)?;
    }
    Ok(events)
}

/// The numbers of a state, and of the events that led there.
fn numbers_of(
    alloc: Global,
    machine: &Machine<'_>,
    events: &[Event],
    status: Status,
    made: u32,
    all: u32,
) -> Result<Vec<u32>, AllocError>
    ensures { TellsRun machine.now status made all events.now result }
{
    let mut numbers = Vec::new(alloc);
    push_shape(&mut numbers, machine, status, made, all)?;
    push_state(&mut numbers, machine)?;
    push_events(&mut numbers, events)?;
    Ok(numbers)
}

/// The numbers of the state to which these moves lead, and of their events.
fn numbers_after(
    alloc: Global,
    case: &Case,
    moves: &[Move],
    all: usize,
) -> Result<Vec<u32>, StateFault>
    requires { CanRun case.now.component case.now.matrix }
    ensures numbers { TellsNumbersAfter case.now.component case.now.matrix moves.now all result }
    ensures fault { IfErr result (IsFaultAfter case.now.component case.now.matrix moves.now) }
{
    let mut machine = Machine::start(alloc, &case.component, &case.matrix)?;
    let events = play(alloc, &mut machine, moves)?;
    let (made, all) = (number_of(moves.len()), number_of(all));
    let status = machine.status();
    Ok(numbers_of(alloc, &machine, &events, status, made, all)?)
}

/// The numbers of the state to which the first moves of the schedule lead, at most this many.
pub(crate) fn state_of(
    alloc: Global,
    component: &[u8],
    matrix: &[u8],
    schedule: &[u8],
    most: usize,
) -> Result<Vec<u32>, StateFault>
    ensures state { TellsStateOf component.now matrix.now schedule.now most result }
    ensures fault { IfErr result (IsStateFault component.now matrix.now schedule.now most) }
{
    let case = read_texts(alloc, component, matrix)?;
    let schedule = read_shown(alloc, schedule)?;
    let moves = schedule.moves();
    let made = most.min(moves.len());
    numbers_after(alloc, &case, &moves[..made], moves.len())
}
