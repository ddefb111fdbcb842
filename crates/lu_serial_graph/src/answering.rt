//! What a call answers from several rests.

ghost use Rattle.std.specs.Prelude.{◌≡◌, ◌↔◌, ◌<◌, ◌≤◌, ◌+◌, length, IsTrue, IfOk, OnOk};
ghost use Rattle.lu_machine.specs.declared.TheConstants.{MOST_MOVES};
ghost use Rattle.lu_serial_graph.specs.Answers.{AddsRest, AnswersFor, Asks, IfAnswered, MayCall, RestsStand};

use crate::alone::{Ending, run_alone};
use crate::ordering::in_order;
use lu_history::SerialOutcome;
use lu_machine::{Machine, Position};
use std::alloc::{AllocError, Global};

/// The outcome of a call that is made from several rests, and the rests to which it leads. Where it
/// is stuck, they are the states in which it is blocked.
#[derive(Drop)]
pub struct Answer {
    pub outcome: SerialOutcome,
    pub rests: Vec<Position>,
}

/// Whether the outcomes are equal.
fn is_same(a: SerialOutcome, b: SerialOutcome) -> bool
    ensures { IsTrue result ↔ (a ≡ b) }
{
    a == b
}

/// Adds a rest, unless it is there already.
fn add_rest(rests: &mut Vec<Position>, position: Position) -> Result<(), AllocError>
    ensures { OnOk result (AddsRest position rests.old.items rests.new.items) }
{
    if rests.contains(&position) {
        return Ok(());
    }
    rests.push(position)?;
    Ok(())
}

/// The answer with these endings, where there are some and they have one outcome.
fn sift(alloc: Global, endings: Vec<Ending>) -> Result<Option<Answer>, AllocError>
    ensures { IfOk result (AnswersFor endings.items) }
{
    let Some(first) = endings.first() else {
        return Ok(None);
    };
    let outcome = first.outcome;
    let mut rests = Vec::new(alloc);
    for ending in endings {
        if !is_same(ending.outcome, outcome) {
            return Ok(None);
        }
        add_rest(&mut rests, ending.position)?;
    }
    Ok(Some(Answer { outcome, rests }))
}

/// What the next call of thread `t` answers from these rests, where it ends within the bound from
/// each of them, always with the same outcome. The new rests are in order.
pub fn ask(
    alloc: Global,
    machine: &mut Machine<'_>,
    t: u8,
    rests: &[Position],
    bound: u16,
) -> Result<Option<Answer>, AllocError>
    requires stand { RestsStand machine.old.component machine.old.matrix rests.now }
    requires calls { MayCall machine.old.component machine.old.matrix rests.now t }
    requires some { 0 < length rests.now }
    requires few { bound ≤ MOST_MOVES }
    ensures component { IfAnswered result (machine.new.component ≡ machine.old.component) }
    ensures matrix { IfAnswered result (machine.new.matrix ≡ machine.old.matrix) }
    ensures answer { IfOk result
        (Asks machine.old.component machine.old.matrix rests.now t (bound + 1)) }
{
    let mut endings = Vec::new(alloc);
    for rest in rests {
        machine.stand_at(rest);
        if !run_alone(alloc, machine, t, None, bound + 1, &mut endings)? {
            return Ok(None);
        }
    }
    let Some(answer) = sift(alloc, endings)? else {
        return Ok(None);
    };
    let outcome = answer.outcome;
    let rests = in_order(alloc, machine, answer.rests)?;
    Ok(Some(Answer { outcome, rests }))
}
