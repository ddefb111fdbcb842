//! The table of all places.

ghost use Rattle.std.specs.Prelude.{◌≡◌, ◌<◌, ◌≤◌, IfOk, IfSome, length};
ghost use Rattle.lu_component.specs.declared.component.TheConstants.{MOST_INSTRS};
ghost use Rattle.lu_horizon.specs.Outlooks.{no_move};
ghost use Rattle.lu_horizon.specs.Sure.{HasCaps, HasOutlook};
ghost use Rattle.lu_horizon.specs.Tables.{AreOutlooks, IsThread, Serves, ServesRuns, StayOutlooks, outlook_before, outlook_of, outlook_within};

use crate::certain::{before_call, certain, outlook_of};
use crate::code::code_of;
use crate::outlook::Outlook;
use crate::sharers::{Quiet, Reach, Sharers, SharersSeen, reach_at, reaches};
use crate::stand::{jumps_to, stand_at};
use arrayvec::ArrayVec;
use lu_component::{Component, Instr};
use lu_machine::Machine;
use lu_test::Matrix;
use std::alloc::{AllocError, Global};
use std::marker::Model;

/// The outlooks of one call.
#[derive(Debug, Drop)]
struct CallOutlooks {
    /// That before it is opened.
    before: Outlook,

    /// Those at the places of its operation.
    outlooks: Vec<Outlook>,

    /// What may be touched of what is shared from each of these places on.
    reaches: Vec<Reach>,
}

impl Model for CallOutlooks {
    ghost use Rattle.lu_horizon.specs.Tables.{CallOutlooks};

    ghost Value = { CallOutlooks };

    ghost view = { λ p. record { before = p.before; places = p.outlooks.items } };
}

impl CallOutlooks {
    /// The outlook before the call.
    fn before(&self) -> Outlook
        ensures { result ≡ self.now.before }
    {
        self.before
    }

    /// The outlook at this place.
    fn at(&self, place: u8) -> Outlook
        ensures { result ≡ outlook_of self.now.places place }
    {
        outlook_of(&self.outlooks, usize::from(place))
    }

    /// What may be touched of what is shared from this place on. No clause says so: it only saves
    /// time.
    fn reach(&self, place: u8) -> Reach {
        reach_at(&self.reaches, usize::from(place))
    }

    /// The greatest number of moves of those outlooks at whose end the thread is over, or else of
    /// the others. No clause says so: it only saves time.
    fn greatest(&self, over: bool) -> u16 {
        let mut greatest = if self.before.over == over {
            self.before.moves
        } else {
            0
        };
        for outlook in &self.outlooks {
            if outlook.over == over {
                greatest = outlook.moves.saturating_add(1).max(greatest);
            }
        }
        greatest
    }
}

/// The outlooks of all calls of one thread.
#[derive(Debug, Drop)]
struct ThreadOutlooks {
    calls: Vec<CallOutlooks>,

    /// From which calls on the thread leaves alone what is shared.
    quiet: Quiet,
}

impl Model for ThreadOutlooks {
    ghost use Rattle.lu_horizon.specs.Tables.{ThreadOutlooks as AThreadOutlooks};

    ghost Value = { AThreadOutlooks };

    ghost view = { λ n. n.calls.items };
}

impl ThreadOutlooks {
    /// The outlook at this place of call `k`.
    fn open(&self, k: u8, place: u8) -> Outlook
        ensures { result ≡ outlook_within self.now k place }
    {
        match self.calls.get(usize::from(k)) {
            None => Outlook::NOTHING,
            Some(places) => places.at(place),
        }
    }

    /// The outlook before call `k`.
    fn idle(&self, k: u8) -> Outlook
        ensures call { k < length self.now → result ≡ outlook_before self.now k }
        ensures none { length self.now ≤ k → result ≡ no_move }
    {
        match self.calls.get(usize::from(k)) {
            None => Outlook::NO_MOVE,
            Some(places) => places.before(),
        }
    }

    /// The greatest number of moves of those outlooks at whose end the thread is over, or else of
    /// the others. No clause says so: it only saves time.
    fn greatest(&self, over: bool) -> u16 {
        let mut greatest = 0;
        for places in &self.calls {
            greatest = places.greatest(over).max(greatest);
        }
        greatest
    }
}

/// What is certain before each call, and from each place of its operation.
#[derive(Debug, Drop)]
pub struct Horizon {
    threads: Vec<ThreadOutlooks>,

    /// Where more moves are left than this, the table need not be read.
    greatest: u16,
}

impl Model for Horizon {
    ghost use Rattle.std.specs.Prelude.{List};
    ghost use Rattle.lu_horizon.specs.Tables.{ThreadOutlooks as AThreadOutlooks};

    ghost Value = { List AThreadOutlooks };

    ghost view = { λ h. h.threads.items };
}

/// Looks one move further ahead from each place, up to `most` moves, and says whether that
/// showed more.
fn look(
    component: &Component,
    code: &[Instr],
    rest: Outlook,
    most: u16,
    known: &mut Vec<Outlook>,
) -> bool
    requires few { length code.now ≤ MOST_INSTRS }
    requires many { length known.old.items ≡ length code.now }
    ensures many { length known.new.items ≡ length code.now }
    ensures sure { StayOutlooks component.now code.now rest known.old.items known.new.items }
{
    let mut more = false;
    for i in 0..code.len() {
        let place = code.len() - 1 - i;
        let outlook = certain(component, code, &code[place], place, known, rest).up_to(most);
        more |= known[place].moves < outlook.moves;
        known[place] = outlook;
    }
    more
}

/// The outlooks of a call that runs this code, at its places up to `most` moves, where there is
/// `rest` after it.
fn of_code(
    alloc: Global,
    component: &Component,
    code: &[Instr],
    rest: Outlook,
    most: u16,
) -> Result<CallOutlooks, AllocError>
    requires { length code.now ≤ MOST_INSTRS }
    ensures { IfOk result (AreOutlooks component.now code.now rest) }
{
    let mut outlooks = vec![in alloc; Outlook::NOTHING; code.len()]?;
    for _further in 0..most {
        if !look(component, code, rest, most, &mut outlooks) {
            break;
        }
    }
    let before = before_call(component, code, &outlooks);
    Ok(CallOutlooks {
        before,
        outlooks,
        reaches: reaches(alloc, code)?,
    })
}

/// The outlooks of the calls of thread `t`, from the last to the first.
fn of_thread(
    alloc: Global,
    component: &Component,
    matrix: &Matrix,
    t: u8,
    most: u16,
) -> Result<ThreadOutlooks, AllocError>
    ensures { IfOk result (IsThread component.now matrix.now t) }
{
    let mut calls = Vec::new(alloc);
    let mut rest = Outlook::NO_MOVE;
    let many = matrix.calls(t);
    for back in 0..many {
        let code = code_of(component, matrix.call(t, many - 1 - back).op);
        let places = of_code(alloc, component, code, rest, most)?;
        rest = places.before();
        calls.insert(0, places)?;
    }
    Ok(ThreadOutlooks {
        calls,
        quiet: Quiet::of_thread(component, matrix, t),
    })
}

impl Horizon {
    /// The table of a component and a matrix, each number up to `most` moves.
    ///
    /// # Errors
    ///
    /// `AllocError` where memory was refused.
    pub fn new(
        alloc: Global,
        component: &Component,
        matrix: &Matrix,
        most: u16,
    ) -> Result<Horizon, AllocError>
        ensures { IfOk result (ServesRuns component.now matrix.now) }
    {
        let mut threads = Vec::new(alloc);
        let mut greatest: u16 = 0;
        let mut last: u16 = 0;
        for t in 0..matrix.threads() {
            let calls = of_thread(alloc, component, matrix, t, most)?;
            greatest = calls.greatest(false).max(greatest);
            last = last.saturating_add(calls.greatest(true));
            threads.push(calls)?;
        }
        Ok(Horizon {
            threads,
            greatest: greatest.max(last),
        })
    }

    /// What is ahead of thread `t`.
    fn ahead(&self, machine: &Machine, t: u8) -> Outlook
        ensures { Serves self.now machine.now → HasOutlook machine.now t result }
    {
        let Some(stand) = stand_at(machine, t) else {
            return Outlook::NOTHING;
        };
        let Some(calls) = self.threads.get(usize::from(t)) else {
            return Outlook::NOTHING;
        };
        match stand.place {
            None => calls.idle(stand.done),
            Some(place) => match jumps_to(machine, t) {
                None => calls.open(stand.done, place),
                Some(next) => calls.open(stand.done, next).one_before(),
            },
        }
    }

    /// Who touches what is shared in the last moves: none where a call is left, the threads can't
    /// end within `left` moves, or a look at these moves serves nothing. No clause says so.
    pub fn last_sharers(&self, machine: &Machine, left: usize) -> Option<Sharers> {
        let mut known = SharersSeen::NOTHING;
        let mut room = left;
        for t in 0..machine.threads() {
            let stand = stand_at(machine, t)?;
            let thread = self.threads.get(usize::from(t))?;
            match stand.place {
                None => {
                    if usize::from(stand.done) < thread.calls.len() {
                        return None;
                    }
                }
                Some(place) => {
                    if usize::from(stand.done) + 1 < thread.calls.len() {
                        return None;
                    }
                    let places = thread.calls.get(usize::from(stand.done))?;
                    room = room.checked_sub(usize::from(places.at(place).moves))?;
                    let next = jumps_to(machine, t).unwrap_or(place);
                    let reach = places.reach(next);
                    known = known.and(t, reach.shares, !reach.changes);
                }
            }
        }
        known.sharers()
    }

    /// Who touches what is shared in all calls that are left, where a look at them may serve: where
    /// the walk begins, or no operation is open, and two threads have calls left. A look that fails
    /// mostly fails after the next move too, so it is not made at each node. No clause says so.
    pub fn sharers(&self, machine: &Machine, begins: bool) -> Option<Sharers> {
        let mut known = SharersSeen::NOTHING;
        let mut callers: u8 = 0;
        for t in 0..machine.threads() {
            let stand = stand_at(machine, t)?;
            if stand.place.is_some() && !begins {
                return None;
            }
            let thread = self.threads.get(usize::from(t))?;
            let shares = stand.done < thread.quiet.unseen_from;
            known = known.and(t, shares, thread.quiet.reads_from <= stand.done);
            if usize::from(stand.done) < thread.calls.len() {
                callers = callers.saturating_add(1);
            }
        }
        if callers < 2 {
            return None;
        }
        known.sharers()
    }

    /// Where no schedule ends within `left` moves, how many of them each thread can make at most,
    /// but with no other limit: none where that is not certain. The table has to be that of the
    /// machine's component and matrix.
    pub fn caps(&self, machine: &Machine, left: usize) -> Option<ArrayVec<u16, 8>>
        ensures { Serves self.now machine.now → IfSome result (HasCaps machine.now left) }
    {
        if left > usize::from(self.greatest) {
            return None;
        }
        let mut caps = ArrayVec::new();
        let mut all: usize = 0;
        for t in 0..machine.threads() {
            let ahead = self.ahead(machine, t);
            let moves = usize::from(ahead.moves);
            if moves < left && !ahead.over {
                return None;
            }
            all += moves;
            caps.push(ahead.moves);
        }
        if all <= left {
            return None;
        }
        Some(caps)
    }
}
