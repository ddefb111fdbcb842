//! Where a thread stands among its calls.

ghost use Rattle.std.specs.Prelude.{◌≡◌, slice_get, IfSome};
ghost use Rattle.std.specs.Option.{option_map};
ghost use Rattle.lu_horizon.specs.Stands.{JumpsTo, is_unseen, is_unseen_at, only_reads, only_reads_at, stand_of};

use lu_component::Instr;
use lu_machine::{Activity, Machine};

/// Where a thread stands among its calls.
#[derive(Clone, Copy, Debug)]
pub struct CallPlace {
    /// The number of its operations that have ended. While one more is open, that is its number.
    pub done: u8,

    /// The place of the open operation's next instruction, where one is open.
    pub place: Option<u8>,
}

/// Where thread `t` stands among its calls: none where there is no such thread.
#[inline(always)]
pub fn stand_at(machine: &Machine, t: u8) -> Option<CallPlace>
    ensures { result ≡ option_map stand_of (slice_get machine.now.threads t) }
{
    let standing = machine.standing(t)?;
    let place = match &standing.activity {
        Activity::Idle => None,
        Activity::Open(frame) => Some(frame.place),
    };
    Some(CallPlace {
        done: standing.done,
        place,
    })
}

/// The place to which thread `t` goes next, where its registers alone tell: none where its next
/// instruction is no `jz`, or local instructions run with a move.
pub(crate) fn jumps_to(machine: &Machine, t: u8) -> Option<u8>
    ensures place { IfSome result (JumpsTo machine.now t) }
    ensures alone { IfSome result (λ _place. machine.now.component.local ≡ 0) }
{
    if machine.local() != 0 {
        return None;
    }
    let standing = machine.standing(t)?;
    match &standing.activity {
        Activity::Idle => None,
        Activity::Open(frame) => match machine.instr(frame)? {
            Instr::JumpIfZero { value, target } => {
                if frame.value(*value) == 0 {
                    Some(*target)
                } else {
                    frame.place.checked_add(1)
                }
            }
            _ => None,
        },
    }
}

/// Whether the instruction reads and writes its own operation's registers alone, and always goes on
/// or returns.
pub(crate) fn is_unseen(instr: &Instr) -> bool
    ensures { result ≡ is_unseen instr.now }
{
    matches!(
        instr,
        Instr::Set { .. }
            | Instr::Compute { .. }
            | Instr::Jump(_)
            | Instr::JumpIfZero { .. }
            | Instr::Return(_)
    )
}

/// Whether thread `t` is at an instruction that no other thread sees: it reads and writes its own
/// operation's registers alone, and always goes on or returns.
#[inline(always)]
pub fn is_unseen_at(machine: &Machine, t: u8) -> bool
    ensures { result ≡ is_unseen_at machine.now t }
{
    let Some(standing) = machine.standing(t) else {
        return false;
    };
    match &standing.activity {
        Activity::Idle => false,
        Activity::Open(frame) => match machine.instr(frame) {
            None => false,
            Some(instr) => is_unseen(instr),
        },
    }
}

/// Whether the instruction changes its own operation's registers alone, and always goes on or
/// returns. It may read a cell.
pub(crate) fn only_reads(instr: &Instr) -> bool
    ensures { result ≡ only_reads instr.now }
{
    match instr {
        Instr::Load { .. } => true,
        _ => is_unseen(instr),
    }
}

/// Whether thread `t` is at an instruction that changes nothing that another thread sees: it
/// changes its own operation's registers alone, and always goes on or returns. It may read a cell,
/// and traps where that is not there.
#[inline(always)]
pub fn only_reads_at(machine: &Machine, t: u8) -> bool
    ensures { result ≡ only_reads_at machine.now t }
{
    let Some(standing) = machine.standing(t) else {
        return false;
    };
    match &standing.activity {
        Activity::Idle => false,
        Activity::Open(frame) => match machine.instr(frame) {
            None => false,
            Some(instr) => only_reads(instr),
        },
    }
}
