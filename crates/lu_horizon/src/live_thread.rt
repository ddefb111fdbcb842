//! Threads with what they have in live registers alone.

ghost use Rattle.lu_horizon.specs.Live.{IsLiveFrame, IsLiveThread};

use crate::dead_registers::{DeadRegisters, REGISTERS};
use lu_component::Operand;
use lu_machine::{Activity, Frame, Thread};

impl DeadRegisters {
    /// The operation, with 0 in each register that is dead at its place.
    fn live_frame(&self, frame: &Frame) -> Frame
        ensures { IsLiveFrame self.now frame.now result }
    {
        let mut registers = [0; 8];
        for register in 0..REGISTERS {
            if !self.is_dead(frame.op, frame.place, register) {
                registers[usize::from(register)] = frame.value(Operand::Reg(register));
            }
        }
        Frame {
            registers,
            op: frame.op,
            place: frame.place,
        }
    }

    /// The thread, with 0 in each register of its operation that is dead at its place: two threads
    /// that differ in dead registers alone become the same.
    pub fn live(&self, thread: &Thread) -> Thread
        ensures { IsLiveThread self.now thread.now result }
    {
        let activity = match &thread.activity {
            Activity::Idle => Activity::Idle,
            Activity::Open(frame) => Activity::Open(self.live_frame(frame)),
        };
        Thread {
            done: thread.done,
            activity,
        }
    }
}
