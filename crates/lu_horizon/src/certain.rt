//! What is ahead at one operation's places.

ghost use Rattle.std.specs.Prelude.{◌≡◌, ◌<◌};
ghost use Rattle.lu_component.specs.declared.component.TheConstants.{MOST_INSTRS};
ghost use Rattle.lu_horizon.specs.Code.{ahead_of_call, is_certain_cell, more_after, run_on, unless_there};
ghost use Rattle.lu_horizon.specs.Outlooks.{IsWeaker};
ghost use Rattle.lu_horizon.specs.Tables.{ahead_from, outlook_of};

use crate::outlook::Outlook;
use lu_component::{Component, Instr, Operand};
use lu_machine::is_local;

/// How many `jz`, one after the other, are looked at both ways where a thread runs on. Each
/// doubles the work.
const BRANCHES: u8 = 4;

/// Whether the index is that of a cell of the array, whatever the registers hold.
#[tactic(auto, unfolding(lu_machine::specs::States::cell_of))]
fn is_certain_cell(component: &Component, array: u8, index: Operand) -> bool
    ensures { result ≡ is_certain_cell component.now array index }
{
    match (index, component.arrays().get(usize::from(array))) {
        (Operand::Num(number), Some(array)) => number < u32::from(array.len),
        _ => false,
    }
}

/// The outlook at a place.
pub(crate) fn outlook_of(known: &[Outlook], place: usize) -> Outlook
    ensures { result ≡ outlook_of known.now place }
{
    known.get(place).copied().unwrap_or(Outlook::NOTHING)
}

/// The outlook after an instruction that traps unless its cell is there.
fn after_cell(
    component: &Component,
    array: u8,
    index: Operand,
    next: Outlook,
    rest: Outlook,
) -> Outlook
    ensures { result ≡ unless_there (is_certain_cell component.now array index) next rest }
{
    if is_certain_cell(component, array, index) {
        next
    } else {
        next.either(rest)
    }
}

/// What is ahead of a thread that runs on from this place by at most `most` local instructions,
/// from what is known of moves that begin at a place: no more than that, and nothing where a `jz`
/// comes after `branches` others.
pub(crate) fn run_on(
    code: &[Instr],
    known: &[Outlook],
    most: u8,
    branches: u8,
    place: usize,
) -> Outlook
    ensures { IsWeaker result (run_on code.now (outlook_of known.now) most place) }
{
    let Some(instr) = code.get(place) else {
        return outlook_of(known, place);
    };
    if most == 0 || !is_local(instr) {
        return outlook_of(known, place);
    }
    match *instr {
        Instr::Jump(target) => run_on(code, known, most - 1, branches, usize::from(target)),
        Instr::JumpIfZero { target, .. } => {
            if branches == 0 {
                Outlook::NOTHING
            } else {
                let there = run_on(code, known, most - 1, branches - 1, usize::from(target));
                let next = run_on(code, known, most - 1, branches - 1, place + 1);
                there.either(next)
            }
        }
        _ => run_on(code, known, most - 1, branches, place + 1),
    }
}

/// How many local instructions may follow this one, where a move begins with it.
fn more_after(component: &Component, instr: &Instr) -> u8
    ensures { result ≡ more_after component.now instr.now }
{
    if is_local(instr) {
        component.local().saturating_sub(1)
    } else {
        component.local()
    }
}

/// What is ahead where a move begins with the instruction at this place, from what is known at
/// other places, and `rest` once the operation has ended: no more than that.
pub(crate) fn certain(
    component: &Component,
    code: &[Instr],
    instr: &Instr,
    place: usize,
    known: &[Outlook],
    rest: Outlook,
) -> Outlook
    requires { place < MOST_INSTRS }
    ensures { IsWeaker result (ahead_from component.now code.now known.now rest place instr.now) }
{
    let most = more_after(component, instr);
    let next = run_on(code, known, most, BRANCHES, place + 1);
    let after = match *instr {
        Instr::Set { .. } | Instr::Compute { .. } => next,
        Instr::Load { array, index, .. }
        | Instr::Store { array, index, .. }
        | Instr::Cas { array, index, .. } => after_cell(component, array, index, next, rest),
        Instr::Unlock(_) => next.either(rest),
        Instr::Jump(target) => run_on(code, known, most, BRANCHES, usize::from(target)),
        Instr::JumpIfZero { target, .. } => {
            run_on(code, known, most, BRANCHES, usize::from(target)).either(next)
        }
        Instr::Return(_) => rest,
        Instr::Lock(_) | Instr::Await { .. } | Instr::AwaitNot { .. } | Instr::Pick { .. } => {
            return Outlook::NOTHING;
        }
    };
    after.one_before()
}

/// What is ahead where a move opens a call of this code: no more than that.
pub(crate) fn before_call(component: &Component, code: &[Instr], known: &[Outlook]) -> Outlook
    ensures { IsWeaker result (ahead_of_call component.now code.now (outlook_of known.now)) }
{
    run_on(code, known, component.local(), BRANCHES, 0).one_before()
}
