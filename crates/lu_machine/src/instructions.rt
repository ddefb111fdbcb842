//! What each instruction does.

ghost use Rattle.std.specs.Prelude.{◌≡◌, ◌<◌, length, IfSome};
ghost use Rattle.lu_component.specs.Component.{IsOperand};
ghost use Rattle.lu_component.specs.declared.component.TheConstants.{MOST_INSTRS};
ghost use Rattle.lu_component.specs.declared.instr.Instr.TheVariants.{Cas};
ghost use Rattle.lu_machine.specs.Acts.{Acts, ActsAt, ActsOf, Alters, PassesOrTraps};
ghost use Rattle.lu_machine.specs.Changes.{IsChange};
ghost use Rattle.lu_machine.specs.Layout.{IsSound};
ghost use Rattle.lu_machine.specs.States.{value_at};
ghost use Rattle.lu_machine.specs.Steps.{instr_picks, is_blocked, is_local};
ghost use Rattle.lu_machine.specs.Tasks.{IsAwaitable, equals, task_picks, has_to_wait};
ghost use Rattle.lu_machine.specs.Undoes.{IsThere};

use crate::event::Outcome;
use crate::machine::Machine;
use crate::program::{Task, Wait, wait_of};
use crate::thread::{Change, Frame, compute};
use crate::undo::Shared;
use lu_component::{Instr, Operand};
use lu_test::Move;

/// What an instruction does: to its operation, and to what all threads share.
#[derive(Clone, Copy)]
pub(crate) struct Act {
    pub(crate) change: Change,
    pub(crate) shared: Shared,
}

/// The instruction does this to its operation, and nothing else.
#[inline(always)]
fn alone(change: Change) -> Act
    ensures change { result.change ≡ change }
    ensures shared { result.shared ≡ Shared.Nothing }
{
    Act {
        change,
        shared: Shared::Nothing,
    }
}

/// Whether the instruction is local: it reads and writes registers alone, or jumps.
pub fn is_local(instr: &Instr) -> bool
    ensures { result ≡ is_local instr.now }
{
    matches!(
        *instr,
        Instr::Set { .. } | Instr::Compute { .. } | Instr::Jump(_) | Instr::JumpIfZero { .. }
    )
}

impl Machine<'_> {
    /// How many picks the task of the open operation has: none where it waits.
    #[inline(always)]
    pub(crate) fn task_picks(&self, frame: &Frame, task: &Task) -> u8
        requires { IfSome task.now.wait (IsAwaitable self.now) }
        ensures { result ≡ task_picks self.now frame.now task.now }
    {
        match &task.wait {
            None => task.picks,
            Some(wait) => {
                if self.has_to_wait(frame, wait) {
                    0
                } else {
                    task.picks
                }
            }
        }
    }

    /// Whether the open operation has to wait for that.
    #[inline(always)]
    fn has_to_wait(&self, frame: &Frame, wait: &Wait) -> bool
        requires { IsAwaitable self.now wait.now }
        ensures { result ≡ has_to_wait self.now frame.now wait.now }
    {
        match *wait {
            Wait::Unowned(lock) => self.owner(lock).is_some(),
            Wait::Equal {
                array,
                index,
                value,
            } => self.equals(frame, array, index, value) == Some(false),
            Wait::Differs {
                array,
                index,
                value,
            } => self.equals(frame, array, index, value) == Some(true),
        }
    }

    /// Whether the instruction of the open operation is blocked. It is asked to be one of its code
    /// ([`Machine::instr`]).
    pub fn is_blocked(&self, frame: &Frame, instr: &Instr) -> bool
        requires { IsSound self.now frame.now instr.now }
        ensures { result ≡ is_blocked self.now frame.now instr.now }
    {
        match wait_of(instr) {
            None => false,
            Some(wait) => self.has_to_wait(frame, &wait),
        }
    }

    /// Whether cell `index` of the array equals the value: none at or past the array's length.
    #[inline(always)]
    fn equals(&self, frame: &Frame, array: u8, index: Operand, value: Operand) -> Option<bool>
        requires array { array < length self.now.component.arrays }
        requires index { IsOperand index }
        requires value { IsOperand value }
        ensures { result ≡ equals self.now frame.now array index value }
    {
        let cell = self.cell(array, frame.value(index))?;
        Some(self.value_at(cell) == frame.value(value))
    }

    /// What the instruction does where it is carried out.
    #[inline(always)]
    pub(crate) fn act(&self, next: Move, frame: &Frame, instr: &Instr) -> Act
        requires sound { IsSound self.now frame.now instr.now }
        requires feasible { next.pick < instr_picks self.now frame.now instr.now }
        ensures carries { ActsAt self.now next frame.now instr.now result }
        ensures there { IsThere self.now result.shared }
        ensures sound { IsChange result.change }
    {
        match *instr {
            Instr::Set { to, value } => alone(frame.onward_with(to, frame.value(value))),
            Instr::Compute {
                arithmetic,
                to,
                left,
                right,
            } => {
                let value = compute(arithmetic, frame.value(left), frame.value(right));
                alone(frame.onward_with(to, value))
            }
            Instr::Load { to, array, index } => alone(self.load(frame, to, array, index)),
            Instr::Store {
                array,
                index,
                value,
            } => self.store(frame, array, index, value),
            Instr::Cas {
                to,
                array,
                index,
                expected,
                desired,
            } => self.cas(frame, to, array, index, expected, desired),
            Instr::Lock(lock) => Act {
                change: frame.onward(),
                shared: Shared::Owner {
                    lock,
                    owner: Some(next.thread),
                },
            },
            Instr::Unlock(lock) => self.unlock(next.thread, frame, lock),
            Instr::Await { array, index, .. } | Instr::AwaitNot { array, index, .. } => {
                alone(self.pass(frame, array, index))
            }
            Instr::Pick { to, .. } => alone(frame.onward_with(to, u32::from(next.pick))),
            Instr::Jump(target) => alone(Change::GoesTo(target)),
            Instr::JumpIfZero { value, target } => alone(if frame.value(value) == 0 {
                Change::GoesTo(target)
            } else {
                frame.onward()
            }),
            Instr::Return(value) => alone(Change::Ends(Outcome::Ret(frame.value(value)))),
        }
    }

    #[inline(always)]
    fn load(&self, frame: &Frame, to: u8, array: u8, index: Operand) -> Change
        requires { IsSound self.now frame.now (Instr.Load to array index) }
        ensures carries { Alters self.now frame.now (Instr.Load to array index) result }
        ensures sound { IsChange result }
    {
        match self.cell(array, frame.value(index)) {
            None => Change::Ends(Outcome::Trap),
            Some(cell) => frame.onward_with(to, self.value_at(cell)),
        }
    }

    #[inline(always)]
    fn store(&self, frame: &Frame, array: u8, index: Operand, value: Operand) -> Act
        requires { IsSound self.now frame.now (Instr.Store array index value) }
        ensures carries { Acts self.now frame.now (Instr.Store array index value) result }
        ensures there { IsThere self.now result.shared }
        ensures sound { IsChange result.change }
    {
        match self.cell(array, frame.value(index)) {
            None => alone(Change::Ends(Outcome::Trap)),
            Some(cell) => Act {
                change: frame.onward(),
                shared: Shared::Cell {
                    cell,
                    value: frame.value(value),
                },
            },
        }
    }

    #[inline(always)]
    fn cas(
        &self,
        frame: &Frame,
        to: u8,
        array: u8,
        index: Operand,
        expected: Operand,
        desired: Operand,
    ) -> Act
        requires { IsSound self.now frame.now (Cas to array index expected desired) }
        ensures carries { Acts self.now frame.now (Cas to array index expected desired) result }
        ensures there { IsThere self.now result.shared }
        ensures sound { IsChange result.change }
    {
        match self.cell(array, frame.value(index)) {
            None => alone(Change::Ends(Outcome::Trap)),
            Some(cell) if self.value_at(cell) == frame.value(expected) => Act {
                change: frame.onward_with(to, 1),
                shared: Shared::Cell {
                    cell,
                    value: frame.value(desired),
                },
            },
            Some(_) => alone(frame.onward_with(to, 0)),
        }
    }

    #[inline(always)]
    fn unlock(&self, thread: u8, frame: &Frame, lock: u8) -> Act
        requires { IsSound self.now frame.now (Instr.Unlock lock) }
        ensures carries { ActsOf self.now thread frame.now (Instr.Unlock lock) result }
        ensures there { IsThere self.now result.shared }
        ensures sound { IsChange result.change }
    {
        if self.owner(lock) == Some(thread) {
            Act {
                change: frame.onward(),
                shared: Shared::Owner { lock, owner: None },
            }
        } else {
            alone(Change::Ends(Outcome::Trap))
        }
    }

    /// What `await` and `awaitne` do where they are not blocked.
    #[inline(always)]
    fn pass(&self, frame: &Frame, array: u8, index: Operand) -> Change
        requires room { frame.now.place < MOST_INSTRS }
        requires array { array < length self.now.component.arrays }
        requires index { IsOperand index }
        ensures effect { PassesOrTraps self.now frame.now array index result }
        ensures sound { IsChange result }
    {
        match self.cell(array, frame.value(index)) {
            None => Change::Ends(Outcome::Trap),
            Some(_) => frame.onward(),
        }
    }
}
