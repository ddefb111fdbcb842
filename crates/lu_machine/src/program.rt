//! The code of a component and the calls of a matrix, laid out for a machine.

ghost use Rattle.std.specs.Prelude.{◌≡◌, ◌<◌, ◌≤◌, All, length, map, IfOk};
ghost use Rattle.lu_component.specs.declared.component.TheConstants.{MOST_INSTRS};
ghost use Rattle.lu_test.specs.Matrix.{AreArguments};
ghost use Rattle.lu_machine.specs.Steps.{choices, opened};
ghost use Rattle.lu_machine.specs.Tasks as spec;
ghost use Rattle.lu_test.specs.declared.matrix.TheConstants.{MOST_CALLS_OF_THREAD};

use crate::thread::{Frame, first_registers};
use lu_component::{Component, Instr, Op, Operand};
use lu_test::{Call, Calls, Matrix};
use std::alloc::{AllocError, Global};

/// The places of an operation's code, and one after the last.
const MOST_PLACES: usize = 65;

/// What an instruction waits for.
#[derive(Clone, Copy, Debug)]
pub(crate) enum Wait {
    /// That the lock has no owner.
    Unowned(u8),

    /// That the cell equals the value, or is not there.
    Equal {
        array: u8,
        index: Operand,
        value: Operand,
    },

    /// That the cell differs from the value, or is not there.
    Differs {
        array: u8,
        index: Operand,
        value: Operand,
    },
}

/// An instruction, and what says how many picks it has. That is asked of each thread at each move:
/// most instructions wait for nothing, so a test guesses better than a jump by the instruction.
#[derive(Clone, Copy, Debug)]
pub(crate) struct Task {
    /// How many picks it has where it does not wait.
    pub(crate) picks: u8,

    pub(crate) wait: Option<Wait>,
    pub(crate) instr: Instr,
}

/// What stands after an operation's code: no pick.
const NO_TASK: Task = Task {
    picks: 0,
    wait: None,
    instr: Instr::Jump(0),
};

/// The calls of a thread, each as it is opened. They stand in a row, so a call is opened by a copy.
#[derive(Clone, Copy, Debug)]
pub(crate) struct Agenda {
    pub(crate) count: u8,
    pub(crate) frames: [Frame; 8],
}

const NO_FRAME: Frame = Frame {
    registers: [0; 8],
    op: 0,
    place: 0,
};

/// How many choices the instruction leaves to the move.
fn choices(instr: &Instr) -> u8
    ensures { result ≡ choices instr.now }
{
    match *instr {
        Instr::Pick { count, .. } => count,
        _ => 1,
    }
}

/// What the instruction waits for, if it waits.
pub(crate) fn wait_of(instr: &Instr) -> Option<Wait>
    ensures { result ≡ spec.wait_of instr.now }
{
    match *instr {
        Instr::Lock(lock) => Some(Wait::Unowned(lock)),
        Instr::Await {
            array,
            index,
            value,
        } => Some(Wait::Equal {
            array,
            index,
            value,
        }),
        Instr::AwaitNot {
            array,
            index,
            value,
        } => Some(Wait::Differs {
            array,
            index,
            value,
        }),
        _ => None,
    }
}

/// The task of the instruction.
fn task_of(instr: &Instr) -> Task
    ensures { result ≡ spec.task_of instr.now }
{
    Task {
        picks: choices(instr),
        wait: wait_of(instr),
        instr: *instr,
    }
}

/// The tasks of the instructions.
fn task_row(instrs: &[Instr]) -> [Task; 65]
    requires { length instrs.now ≤ MOST_INSTRS }
    ensures { result ≡ spec.task_row instrs.now }
{
    let mut row = [NO_TASK; MOST_PLACES];
    for place in 0..instrs.len() {
        row[place] = task_of(&instrs[place]);
    }
    row
}

/// The tasks of each operation.
pub(crate) fn rows(alloc: Global, component: &Component) -> Result<Vec<[Task; 65]>, AllocError>
    ensures { IfOk result (λ rows. rows.items ≡ spec.rows_of component.now) }
{
    let mut rows = Vec::new(alloc);
    for op in component.operations() {
        rows.push(task_row(op.code.instrs()))?;
    }
    Ok(rows)
}

/// A call as it is opened: the arguments stand in the first registers, and all others are 0.
fn opened(call: &Call) -> Frame
    requires { length call.now.args ≤ 8 }
    ensures { result ≡ opened call.now }
{
    let registers = first_registers(call.args.as_slice());
    Frame {
        op: call.op,
        place: 0,
        registers,
    }
}

/// The calls, each as it is opened.
fn agenda_of(calls: &[Call]) -> Agenda
    requires few { length calls.now ≤ MOST_CALLS_OF_THREAD }
    requires short { All (λ call. AreArguments call.args) calls.now }
    ensures { result ≡ spec.agenda_of calls.now }
{
    let mut frames = [NO_FRAME; 8];
    for k in 0..calls.len() {
        frames[k] = opened(&calls[k]);
    }
    Agenda {
        count: calls.len() as u8,
        frames,
    }
}

/// The calls of each thread, each as it is opened.
pub(crate) fn agendas(alloc: Global, matrix: &Matrix) -> Result<Vec<Agenda>, AllocError>
    ensures { IfOk result (λ agendas. agendas.items ≡ map spec.agenda_of matrix.now.threads) }
{
    let mut agendas = Vec::new(alloc);
    for calls in matrix.as_slice() {
        agendas.push(agenda_of(calls.as_slice()))?;
    }
    Ok(agendas)
}
