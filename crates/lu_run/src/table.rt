//! The automaton of the component's serial runs, as far as it has been asked.

ghost use Rattle.std.specs.Prelude.{◌≡◌, ◌<◌, ◌≤◌, IfErr, IfOk, IsSome, None, OnOk, Some, false, length};
ghost use Rattle.lu_machine.specs.declared.TheConstants.{MOST_MOVES};
ghost use Rattle.lu_run.specs.Asking.{AreRests};
ghost use Rattle.lu_run.specs.Following.{HasState};
ghost use Rattle.lu_run.specs.Offending.{IsFollowFault, Learns};
ghost use Rattle.lu_run.specs.Tables.{AreCallsOf, IsNumbered, IsTable, Keeps, Records, recorded};

use crate::asking::{Reply, ask_call};
use crate::automaton::ThreadCall;
use crate::following::FollowFault;
use indexmap::{IndexMap, IndexSet};
use lu_component::Component;
use lu_history::SerialOutcome;
use lu_machine::Position;
use lu_test::Call;
use std::alloc::{AllocError, Global};

/// A state of the automaton: the positions in which the machine may be after the same operations.
#[derive(PartialEq, Eq, Hash, Drop)]
pub(crate) struct Rests {
    pub(crate) positions: Vec<Position>,
}

/// A call of a thread in a state.
#[derive(Clone, Copy, Debug, PartialEq, Eq, Hash)]
pub(crate) struct Question {
    /// The number of the state.
    pub(crate) state: u32,

    pub(crate) thread: u8,

    /// The number of the call.
    pub(crate) call: u32,
}

/// The outcome of the call, and the number of the state to which it leads. None where it is blocked.
pub(crate) type Step = Option<(SerialOutcome, u32)>;

/// The states that have come up, numbered in this order, and the answers that are known.
#[derive(Drop)]
pub(crate) struct Table {
    pub(crate) states: IndexSet<Rests>,
    pub(crate) answers: IndexMap<Question, Step>,
}

/// The known answer to the question, if there is one.
pub(crate) fn recall(table: &Table, question: Question) -> Option<Step>
    ensures { result ≡ recorded table.now question }
{
    table.answers.get(&question).copied()
}

/// The number of the state with these rests, which becomes a new state unless it is one already.
///
/// # Errors
///
/// Out of memory; so are more states than there are numbers.
fn number_of(states: &mut IndexSet<Rests>, rests: Rests) -> Result<u32, AllocError>
    ensures grows { OnOk result (Keeps states.old.keys rests states.new.keys) }
    ensures number { IfOk result (IsNumbered states.new.keys rests) }
{
    let (place, _) = states.insert_full(rests)?;
    match u32::try_from(place) {
        Ok(number) => Ok(number),
        Err(_) => Err(AllocError),
    }
}

/// Records an answer.
fn record(
    answers: &mut IndexMap<Question, Step>,
    question: Question,
    step: Step,
) -> Result<(), AllocError>
    ensures { OnOk result (Records answers.old question step answers.new) }
{
    answers.insert(question, step)?;
    Ok(())
}

/// Asks what the call answers in the state, and records it, unless that is known already. Returns
/// whether it was not known.
///
/// # Errors
///
/// The call takes more moves than the bound, or has two outcomes; or out of memory.
pub(crate) fn learn(
    alloc: Global,
    component: &Component,
    calls: &[Call],
    bound: u16,
    table: &mut Table,
    question: Question,
) -> Result<bool, FollowFault>
    requires table { IsTable component.now calls.now table.old }
    requires calls { AreCallsOf component.now calls.now }
    requires state { HasState table.old question.state }
    requires thread { question.thread < 8 }
    requires call { question.call < length calls.now }
    requires few { bound ≤ MOST_MOVES }
    ensures learns { OnOk result (Learns component.now calls.now table.old table.new) }
    ensures known { OnOk result (IsSome (recorded table.new question)) }
    ensures same { IfOk result (λ new. new ≡ false → table.new ≡ table.old) }
    ensures offends { IfErr result (IsFollowFault component.now calls.now bound table.old) }
{
    if recall(table, question).is_some() {
        return Ok(false);
    }
    let Some(state) = table.states.get_index(question.state as usize) else {
        unreachable!();
    };
    let call = &calls[question.call as usize];
    let thread = question.thread;
    let Some(reply) = ask_call(alloc, component, call, thread, &state.positions, bound)? else {
        return Err(FollowFault::Offends(ThreadCall {
            thread,
            call: question.call,
        }));
    };
    match reply {
        Reply::Blocked => {
            record(&mut table.answers, question, None)?;
            Ok(true)
        }
        Reply::Ends(outcome, positions) => {
            let number = number_of(&mut table.states, Rests { positions })?;
            record(&mut table.answers, question, Some((outcome, number)))?;
            Ok(true)
        }
    }
}
