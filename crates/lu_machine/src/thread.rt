//! Where a thread stands.

ghost use Rattle.std.specs.Prelude.{◌≡◌, ◌-◌, ◌<◌, ◌≤◌, ◌++◌, length, replicate, IfSome};
ghost use Rattle.lu_component.specs.Component.{Component as AComponent, IsRegister, IsOperand};
ghost use Rattle.lu_component.specs.declared.component.TheConstants.{MOST_INSTRS};
ghost use Rattle.lu_machine.specs.declared.thread.Activity.TheVariants.{Open};
ghost use Rattle.lu_machine.specs.Changes.{IsChange, IsEventOf, IsThreadAfter, PutsBack, before, effect_of, whole_frame};
ghost use Rattle.lu_machine.specs.Effects.{computed, onward, onward_with, value_of};
ghost use Rattle.lu_machine.specs.Events.{IsEventInRange};
ghost use Rattle.lu_machine.specs.Layout.{IsStanding, StandsIn, StaysIn, StoodIn};
ghost use Rattle.lu_test.specs.declared.matrix.TheConstants.{MOST_CALLS_OF_THREAD, MOST_THREADS};

use crate::event::{Event, Outcome};
use lu_component::{Arithmetic, Operand};

/// The registers of an operation, `r0` to `r7`.
pub(crate) type Registers = [u32; 8];

/// An open operation.
#[derive(Clone, Copy, Debug, PartialEq, Eq, Hash)]
pub struct Frame {
    /// The values of `r0` to `r7`.
    pub registers: [u32; 8],

    /// The number of the operation in its component.
    pub op: u8,

    /// The place of its next instruction.
    pub place: u8,
}

/// What a thread is at.
#[derive(Clone, Copy, Debug, PartialEq, Eq, Hash)]
pub enum Activity {
    /// No operation of it is open.
    Idle,

    /// This operation of it is open.
    Open(Frame),
}

/// Where a thread stands.
#[derive(Clone, Copy, Debug, PartialEq, Eq, Hash)]
pub struct Thread {
    /// The number of its operations that have ended. While one more is open, that is its number.
    pub done: u8,

    pub activity: Activity,
}

/// What an instruction makes of its operation.
#[derive(Clone, Copy)]
pub(crate) enum Change {
    /// It goes on at this place.
    GoesTo(u8),

    /// It goes on at this place, with this value in a register.
    Sets { place: u8, register: u8, value: u32 },

    /// It ends.
    Ends(Outcome),
}

/// What a move overwrote of the operation that was open, or is. All parts are small values, and
/// none an enum of large ones: so they stay in registers from the move to its undo.
#[derive(Clone, Copy, Debug)]
pub(crate) struct OperationBefore {
    /// The number of the operation in its component, and the place of its next instruction.
    pub(crate) op: u8,
    pub(crate) place: u8,

    /// The register that was written, and its value: where none was, one with the value that it
    /// has.
    pub(crate) register: u8,
    pub(crate) value: u32,

    /// All registers, where the operation ended or all were kept.
    pub(crate) registers: Registers,
}

impl OperationBefore {
    /// What is kept where no operation was open.
    pub(crate) const NOTHING: OperationBefore = OperationBefore {
        op: 0,
        place: 0,
        register: 0,
        value: 0,
        registers: [0; 8],
    };

    /// The operation that was open, with all its registers.
    #[inline(always)]
    fn whole_frame(self) -> Frame
        ensures { result ≡ whole_frame self }
    {
        let registers = self.registers;
        Frame {
            registers,
            op: self.op,
            place: self.place,
        }
    }
}

impl Frame {
    /// The value of an operand, which is asked to be a register 0 to 7 or a number.
    #[inline(always)]
    pub fn value(&self, operand: Operand) -> u32
        requires { IsOperand operand }
        ensures { result ≡ value_of self.now operand }
    {
        match operand {
            Operand::Reg(register) => self.registers[usize::from(register)],
            Operand::Num(number) => number,
        }
    }

    /// It goes on at the next place.
    #[inline(always)]
    pub(crate) fn onward(&self) -> Change
        requires { self.now.place < MOST_INSTRS }
        ensures effect { effect_of self.now result ≡ onward self.now }
        ensures sound { IsChange result }
    {
        Change::GoesTo(self.place + 1)
    }

    /// It goes on at the next place, with this value in a register.
    #[inline(always)]
    pub(crate) fn onward_with(&self, register: u8, value: u32) -> Change
        requires in_code { self.now.place < MOST_INSTRS }
        requires register { IsRegister register }
        ensures effect { effect_of self.now result ≡ onward_with self.now register value }
        ensures sound { IsChange result }
    {
        Change::Sets {
            place: self.place + 1,
            register,
            value,
        }
    }
}

impl Thread {
    /// Changes its open operation, and says what that overwrote. With `WHOLE` true all registers
    /// are kept.
    #[inline(always)]
    pub(crate) fn change<const WHOLE: bool>(&mut self, change: Change) -> OperationBefore
        requires stands { IsStanding self.old }
        requires sound { IsChange change }
        ensures after { IsThreadAfter self.old change self.new }
        ensures stands { IsStanding self.new }
        ensures back { PutsBack WHOLE self.old change result self.new }
        ensures register { IsRegister result.register }
        ensures in_code { (c : AComponent) → StandsIn c self.old → StandsIn c self.new }
        ensures was_in { (c : AComponent) → StoodIn c self.old result }
    {
        let Activity::Open(frame) = &mut self.activity else {
            return OperationBefore::NOTHING;
        };
        let registers = frame.registers;
        let mut was = OperationBefore {
            op: frame.op,
            place: frame.place,
            ..OperationBefore::NOTHING
        };
        if WHOLE {
            was.registers = registers;
        }
        match change {
            Change::GoesTo(place) => {
                was.value = frame.registers[0];
                frame.place = place;
            }
            Change::Sets {
                place,
                register,
                value,
            } => {
                was.register = register;
                was.value = frame.registers[usize::from(register)];
                frame.place = place;
                frame.registers[usize::from(register)] = value;
            }
            Change::Ends(_) => {
                was.registers = registers;
                self.done += 1;
                self.activity = Activity::Idle;
            }
        }
        was
    }

    /// Puts back where it stood before a move with this event, or none. With `whole` true all
    /// registers were kept.
    #[inline(always)]
    pub(crate) fn put_back(&mut self, event: Option<Event>, was: OperationBefore, whole: bool)
        requires register { IsRegister was.register }
        requires event { IfSome event IsEventInRange }
        ensures before { self.new ≡ before whole event was self.old }
        ensures stands { IsStanding self.old → IsStanding self.new }
        ensures in_code { StaysIn was self.old self.new }
    {
        match event {
            None => {
                if let Activity::Open(frame) = &mut self.activity {
                    if whole {
                        *frame = was.whole_frame();
                    } else {
                        frame.place = was.place;
                        frame.registers[usize::from(was.register)] = was.value;
                    }
                }
            }
            Some(Event::Call { .. }) => self.activity = Activity::Idle,
            Some(Event::Return { k, .. }) => {
                self.done = k;
                self.activity = Activity::Open(was.whole_frame());
            }
        }
    }
}

/// The event of the change of operation number `done` of thread `t`.
#[inline(always)]
pub(crate) fn event_after(t: u8, done: u8, change: Change) -> Option<Event>
    requires thread { t < MOST_THREADS }
    requires operation { done < MOST_CALLS_OF_THREAD }
    ensures event { IsEventOf t done change result }
    ensures range { IfSome result IsEventInRange }
{
    match change {
        Change::GoesTo(_) | Change::Sets { .. } => None,
        Change::Ends(outcome) => Some(Event::Return {
            t,
            k: done,
            outcome,
        }),
    }
}

/// The registers of a call as it is opened: the arguments stand in the first, and all others are 0.
#[inline(always)]
pub(crate) fn first_registers(args: &[u32]) -> Registers
    requires { length args.now ≤ 8 }
    ensures { result ≡ args.now ++ replicate (8 - length args.now) 0 }
{
    let mut registers = [0; 8];
    registers[..args.len()].copy_from_slice(args);
    registers
}

/// What an arithmetic instruction computes of two values.
pub fn compute(arithmetic: Arithmetic, left: u32, right: u32) -> u32
    ensures { result ≡ computed arithmetic left right }
{
    match arithmetic {
        Arithmetic::Add => left.wrapping_add(right),
        Arithmetic::Sub => left.wrapping_sub(right),
        Arithmetic::Mul => left.wrapping_mul(right),
        Arithmetic::Eq => u32::from(left == right),
        Arithmetic::Lt => u32::from(left < right),
    }
}
