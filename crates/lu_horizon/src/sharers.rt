//! Which threads still touch what others see.
//!
//! No clause says what the numbers here are: they tell where a look at all that is left may serve.

use crate::code::code_of;
use crate::stand::{is_unseen, only_reads};
use lu_component::{Component, Instr};
use lu_test::Matrix;
use std::alloc::{AllocError, Global};

/// Which threads may touch what is shared.
#[derive(Clone, Copy, Debug)]
pub enum Sharers {
    /// This one may touch cells and locks. All others touch their own registers alone.
    Only(u8),

    /// All may read cells, and none changes any.
    Readers,
}

/// From which of its calls on a thread leaves alone what is shared.
#[derive(Clone, Copy, Debug)]
pub(crate) struct Quiet {
    /// From this call on it touches its own registers alone.
    pub(crate) unseen_from: u8,

    /// From this call on it changes its own registers alone.
    pub(crate) reads_from: u8,
}

/// What the rest of an operation may touch of what is shared, from one of its places on.
#[derive(Clone, Copy, Debug, Drop, PartialEq, Eq)]
pub(crate) struct Reach {
    /// Whether it may touch anything.
    pub(crate) shares: bool,

    /// Whether it may do more than read cells.
    pub(crate) changes: bool,
}

impl Reach {
    /// Nothing is touched.
    const NONE: Reach = Reach {
        shares: false,
        changes: false,
    };

    /// What this instruction touches.
    fn of(instr: &Instr) -> Reach {
        Reach {
            shares: !is_unseen(instr),
            changes: !only_reads(instr),
        }
    }

    /// What either touches.
    fn and(self, other: Reach) -> Reach {
        Reach {
            shares: self.shares || other.shares,
            changes: self.changes || other.changes,
        }
    }
}

/// What is known of a place: nothing is touched after the code's end.
pub(crate) fn reach_at(known: &[Reach], place: usize) -> Reach {
    known.get(place).copied().unwrap_or(Reach::NONE)
}

/// What may be touched from this place on, from what is known of those that may come next.
fn reach_from(instr: &Instr, place: usize, known: &[Reach]) -> Reach {
    let own = Reach::of(instr);
    let next = reach_at(known, place.saturating_add(1));
    match *instr {
        Instr::Return(_) => own,
        Instr::Jump(target) => own.and(reach_at(known, usize::from(target))),
        Instr::JumpIfZero { target, .. } => {
            own.and(next).and(reach_at(known, usize::from(target)))
        }
        _ => own.and(next),
    }
}

/// What may be touched from each place on, whichever way the jumps go.
pub(crate) fn reaches(alloc: Global, code: &[Instr]) -> Result<Vec<Reach>, AllocError> {
    let mut known = vec![in alloc; Reach::NONE; code.len()]?;
    for _round in 0..code.len() {
        let mut more = false;
        for (place, instr) in code.iter().enumerate().rev() {
            let reach = reach_from(instr, place, &known);
            if let Some(old) = known.get_mut(place) {
                more |= *old != reach;
                *old = reach;
            }
        }
        if !more {
            break;
        }
    }
    Ok(known)
}

/// Whether all instructions touch their own operation's registers alone.
fn are_unseen(code: &[Instr]) -> bool {
    for instr in code {
        if !is_unseen(instr) {
            return false;
        }
    }
    true
}

/// Whether all instructions change their own operation's registers alone.
fn only_read(code: &[Instr]) -> bool {
    for instr in code {
        if !only_reads(instr) {
            return false;
        }
    }
    true
}

impl Quiet {
    /// Of thread `t`'s calls.
    pub(crate) fn of_thread(component: &Component, matrix: &Matrix, t: u8) -> Quiet {
        let mut quiet = Quiet {
            unseen_from: 0,
            reads_from: 0,
        };
        for k in 0..matrix.calls(t) {
            let code = code_of(component, matrix.call(t, k).op);
            if !are_unseen(code) {
                quiet.unseen_from = k + 1;
            }
            if !only_read(code) {
                quiet.reads_from = k + 1;
            }
        }
        quiet
    }
}

/// What is known of the threads that were looked at.
#[derive(Clone, Copy)]
pub(crate) struct SharersSeen {
    /// How many of them share something.
    sharers: u8,

    /// The last of these.
    last: u8,

    /// Whether none of them changes what is shared.
    readers: bool,
}

impl SharersSeen {
    /// Of no thread.
    pub(crate) const NOTHING: SharersSeen = SharersSeen {
        sharers: 0,
        last: 0,
        readers: true,
    };

    /// With thread `t`, which shares something, or only reads it.
    #[inline(always)]
    pub(crate) fn and(self, t: u8, shares: bool, reads: bool) -> SharersSeen {
        SharersSeen {
            sharers: self.sharers.saturating_add(u8::from(shares)),
            last: if shares { t } else { self.last },
            readers: self.readers && reads,
        }
    }

    /// Who shares, where a look may serve.
    pub(crate) fn sharers(self) -> Option<Sharers> {
        if self.sharers <= 1 {
            Some(Sharers::Only(self.last))
        } else if self.readers {
            Some(Sharers::Readers)
        } else {
            None
        }
    }
}
