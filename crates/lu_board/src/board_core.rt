//! The board as a pure machine of events: what any workers do, in whatever order, is a list of
//! events, so that a test goes through orders which no run of threads can be made to take.

ghost use Rattle.std.specs.Prelude.{◌≡◌, [], ◌<◌, ◌≤◌, ◌^◌, ◌↔◌, IsTrue, true, OnOk, IfOk, IfErr, length, nat_eq};
ghost use Rattle.lu_board.specs.declared.view.TheConstants.{MAX_PIECES, MAX_WORKERS};
ghost use Rattle.lu_board.specs.declared.board_core.CoreEvent.TheVariants.{Claim, Look, Lower, Settle};
ghost use Rattle.lu_board.specs.Pieces.{is_in, without_first};
ghost use Rattle.lu_board.specs.Views.{newcomer, IsOver};
ghost use Rattle.lu_board.specs.Events.{IsViewAfter, with_found, with_settled, after_claim, after_look};
ghost use Rattle.lu_board.specs.Fit.{FitsBoard};
ghost use Rattle.lu_board.specs.Core.{IsStateAfter, start, is_bad, all_legal, best_piece, given_in, AllDone, IsCoreFault, IsLeastBadOnceDone, StepsIfLegal};

use crate::view::Kind;
use std::alloc::{AllocError, Global};
use std::marker::Model;
use thiserror::Error;

/// What a worker does. The first field is the worker's number, from 0, and the second the piece's.
#[derive(Clone, Copy, PartialEq, Eq, Debug)]
pub enum CoreEvent {
    /// The worker claims the next piece, or is spent where none is left. Legal while it is not
    /// spent.
    Claim(usize),
    /// The worker sees the best piece, and skips its own where that is above the best. Legal for a
    /// piece that it holds.
    Look(usize, u64),
    /// The piece is found bad. Legal for a bad piece that the worker holds.
    Lower(usize, u64),
    /// The piece is settled. Legal for a piece that the worker holds, and `Kind::Clean` only for
    /// one that is not bad.
    Settle(usize, u64, Kind),
}

/// Why [`run`] stopped.
#[derive(Clone, Copy, Debug, PartialEq, Eq, Error)]
pub enum CoreFault {
    /// The event at this index, from 0, is the first one that is not legal.
    #[error("event {0} is not legal")]
    BadEvent(usize),
    /// Memory ran out.
    #[error("memory ran out")]
    Memory,
}

/// What a worker has done. Contracts see it as a view of weight 1.
#[derive(Drop)]
struct WorkerState {
    pieces: u64,
    spent: bool,
    seen: u64,
    past: u64,
    held: Vec<u64>,
    clean: Vec<u64>,
    found: Vec<u64>,
    skipped: Vec<u64>,
    given: Vec<u64>,
}

impl Model for WorkerState {
    ghost use Rattle.lu_board.specs.declared.view.View.{View};
    ghost use Rattle.std.specs.Prelude.{if◌then◌else◌};

    ghost Value = { View };

    ghost view = { λ w. record {
      pieces = w.pieces;
      weight = 1;
      spent = if w.spent then 1 else 0;
      seen = w.seen;
      past = w.past;
      held = w.held.items;
      clean = w.clean.items;
      found = w.found.items;
      skipped = w.skipped.items;
      given = w.given.items;
    } };
}

/// Takes the piece out of the list, and says whether it was there.
fn take_out(pieces: &mut Vec<u64>, piece: u64) -> bool
    ensures taken { result ≡ is_in piece pieces.old.items }
    ensures left { pieces.new.items ≡ without_first piece pieces.old.items }
{
    let Some(position) = pieces.iter().position(|held| *held == piece) else {
        return false;
    };
    pieces.remove(position);
    true
}

impl WorkerState {
    fn new(alloc: Global, pieces: u64) -> WorkerState
        ensures { result ≡ newcomer pieces 1 }
    {
        WorkerState {
            pieces,
            spent: false,
            seen: pieces,
            past: 0,
            held: Vec::new(alloc),
            clean: Vec::new(alloc),
            found: Vec::new(alloc),
            skipped: Vec::new(alloc),
            given: Vec::new(alloc),
        }
    }

    /// Spent, and holds no piece.
    fn is_over(&self) -> bool
        ensures { IsTrue result ↔ IsOver self.now }
    {
        self.spent && self.held.is_empty()
    }

    fn gave_up(&self) -> bool
        ensures { IsTrue result ↔ (0 < length self.now.given) }
    {
        !self.given.is_empty()
    }

    fn claim(&mut self, next: u64, pieces: u64) -> Result<bool, AllocError>
        requires { next < 2 ^ 63 }
        ensures legal { IfOk result (λ ok. ok ≡ nat_eq self.old.spent 0) }
        ensures after { IfOk result (IsViewAfter (after_claim pieces next self.old) self.new) }
    {
        if self.spent {
            return Ok(false);
        }
        if next < pieces {
            self.held.push(next)?;
            self.past = next + 1;
        } else {
            self.spent = true;
        }
        Ok(true)
    }

    fn look(&mut self, piece: u64, best: u64) -> Result<bool, AllocError>
        ensures legal { IfOk result (λ ok. ok ≡ is_in piece self.old.held) }
        ensures after { IfOk result (IsViewAfter (after_look piece best self.old) self.new) }
    {
        if best < piece {
            if !take_out(&mut self.held, piece) {
                return Ok(false);
            }
            self.skipped.push(piece)?;
            self.seen = best;
            return Ok(true);
        }
        if !self.held.contains(&piece) {
            return Ok(false);
        }
        self.seen = best;
        Ok(true)
    }

    fn lower(&mut self, piece: u64, best: u64) -> Result<bool, AllocError>
        ensures legal { IfOk result (λ ok. ok ≡ is_in piece self.old.held) }
        ensures after { IfOk result (IsViewAfter (with_found piece best self.old) self.new) }
    {
        if !take_out(&mut self.held, piece) {
            return Ok(false);
        }
        self.found.push(piece)?;
        self.seen = best;
        Ok(true)
    }

    fn settle(&mut self, piece: u64, kind: Kind) -> Result<bool, AllocError>
        ensures legal { IfOk result (λ ok. ok ≡ is_in piece self.old.held) }
        ensures after { IfOk result (IsViewAfter (with_settled piece kind self.old) self.new) }
    {
        if !take_out(&mut self.held, piece) {
            return Ok(false);
        }
        match kind {
            Kind::Clean => self.clean.push(piece)?,
            Kind::GivenUp => self.given.push(piece)?,
        }
        Ok(true)
    }
}

/// The state of a board, which a refused growth may leave between two events.
#[derive(Drop)]
struct BoardState {
    pieces: u64,
    bad: Vec<bool>,
    next: u64,
    best: u64,
    workers: Vec<WorkerState>,
}

impl Model for BoardState {
    ghost use Rattle.lu_board.specs.Core.{CoreState};

    ghost Value = { CoreState };

    ghost view = { λ c. record {
      pieces = c.pieces;
      bad = c.bad.items;
      next = c.next;
      best = c.best;
      views = c.workers.items;
    } };
}

/// The state of a board after legal events.
#[derive(Drop)]
pub struct Core {
    state: BoardState,
}

impl Model for Core {
    ghost use Rattle.lu_board.specs.Core.{CoreState, CoreInvariant};

    ghost Value = { CoreState };

    ghost view = { λ c. c.state };

    ghost invariant = { λ c. CoreInvariant c.state };
}

/// Runs the events on a new board of at most [`MAX_PIECES`](crate::view::MAX_PIECES) pieces and 1
/// to [`MAX_WORKERS`](crate::view::MAX_WORKERS) workers. `bad` says of each piece whether it is
/// bad.
///
/// # Errors
///
/// `CoreFault::BadEvent` with the index of the first event that is not legal, and
/// `CoreFault::Memory` where memory ran out before that.
pub fn run(
    alloc: Global,
    pieces: u64,
    workers: usize,
    bad: &[bool],
    events: &[CoreEvent],
) -> Result<Core, CoreFault>
    requires pieces { (pieces ≤ MAX_PIECES) × (length bad.now ≡ pieces) }
    requires workers { (0 < workers) × (workers ≤ MAX_WORKERS) }
    ensures legal { OnOk result (all_legal events.now (start pieces workers bad.now) ≡ true) }
    ensures state { IfOk result (IsStateAfter events.now (start pieces workers bad.now)) }
    ensures fits { IfOk result (λ c. FitsBoard pieces workers c.next c.best c.views) }
    ensures fault { IfErr result (λ e. IsCoreFault e events.now (start pieces workers bad.now)) }
{
    let mut state = BoardState::new(alloc, pieces, workers, bad)?;
    for (index, event) in events.iter().enumerate() {
        if !state.step(*event)? {
            return Err(CoreFault::BadEvent(index));
        }
    }
    Ok(Core { state })
}

impl From<AllocError> for CoreFault {
    ghost use Rattle.lu_board.specs.declared.board_core.CoreFault.TheVariants.{Memory};

    ghost from_gives = { λ _ e. e ≡ Memory };

    fn from(_error: AllocError) -> CoreFault {
        CoreFault::Memory
    }
}

impl BoardState {
    fn new(
        alloc: Global,
        pieces: u64,
        workers: usize,
        bad: &[bool],
    ) -> Result<BoardState, AllocError>
        requires pieces { (pieces ≤ MAX_PIECES) × (length bad.now ≡ pieces) }
        requires workers { (0 < workers) × (workers ≤ MAX_WORKERS) }
        ensures { IfOk result (λ c. c ≡ start pieces workers bad.now) }
    {
        let mut list = Vec::with_capacity(alloc, workers)?;
        for _made in 0..workers {
            list.push(WorkerState::new(alloc, pieces))?;
        }
        let mut copy = Vec::new(alloc);
        copy.extend_from_slice(bad)?;
        Ok(BoardState {
            pieces,
            bad: copy,
            next: 0,
            best: pieces,
            workers: list,
        })
    }

    /// Makes the event's step where it is legal, and says whether it is.
    fn step(&mut self, event: CoreEvent) -> Result<bool, AllocError>
        requires { self.old.next < 2 ^ 63 }
        ensures { IfOk result (λ ok. StepsIfLegal event self.old ok self.new) }
    {
        match event {
            CoreEvent::Claim(w) => self.claim(w),
            CoreEvent::Look(w, piece) => self.look(w, piece),
            CoreEvent::Lower(w, piece) => self.lower(w, piece),
            CoreEvent::Settle(w, piece, kind) => self.settle(w, piece, kind),
        }
    }

    fn claim(&mut self, w: usize) -> Result<bool, AllocError>
        requires { self.old.next < 2 ^ 63 }
        ensures { IfOk result (λ ok. StepsIfLegal (Claim w) self.old ok self.new) }
    {
        if w >= self.workers.len() {
            return Ok(false);
        }
        let next = self.next;
        let pieces = self.pieces;
        if !self.workers[w].claim(next, pieces)? {
            return Ok(false);
        }
        self.next = next + 1;
        Ok(true)
    }

    fn look(&mut self, w: usize, piece: u64) -> Result<bool, AllocError>
        ensures { IfOk result (λ ok. StepsIfLegal (Look w piece) self.old ok self.new) }
    {
        if w >= self.workers.len() {
            return Ok(false);
        }
        let best = self.best;
        self.workers[w].look(piece, best)
    }

    fn lower(&mut self, w: usize, piece: u64) -> Result<bool, AllocError>
        ensures { IfOk result (λ ok. StepsIfLegal (Lower w piece) self.old ok self.new) }
    {
        if w >= self.workers.len() || !self.is_bad(piece) {
            return Ok(false);
        }
        let best = self.best.min(piece);
        if !self.workers[w].lower(piece, best)? {
            return Ok(false);
        }
        self.best = best;
        Ok(true)
    }

    fn settle(&mut self, w: usize, piece: u64, kind: Kind) -> Result<bool, AllocError>
        ensures { IfOk result (λ ok. StepsIfLegal (Settle w piece kind) self.old ok self.new) }
    {
        if w >= self.workers.len() {
            return Ok(false);
        }
        if let Kind::Clean = kind {
            if self.is_bad(piece) {
                return Ok(false);
            }
        }
        self.workers[w].settle(piece, kind)
    }

    fn is_bad(&self, piece: u64) -> bool
        ensures { result ≡ is_bad self.now.bad piece }
    {
        let at = piece as usize;
        at < self.bad.len() && self.bad[at]
    }
}

impl Core {
    /// The least piece that was lowered, or None where none was. Once all is done and nothing was
    /// given up, it is the least bad piece.
    pub fn best(&self) -> Option<u64>
        ensures answer { result ≡ best_piece self.now }
        ensures least { IsLeastBadOnceDone self.now result }
    {
        let state = &self.state;
        if state.best < state.pieces {
            Some(state.best)
        } else {
            None
        }
    }

    /// Whether each worker is spent and holds no piece.
    pub fn done(&self) -> bool
        ensures { IsTrue result ↔ AllDone self.now.views }
    {
        let state = &self.state;
        state.workers.iter().all(|worker| worker.is_over())
    }

    /// Whether some piece was given up.
    pub fn given_up(&self) -> bool
        ensures { IsTrue result ↔ (0 < length (given_in self.now.views)) }
    {
        let state = &self.state;
        state.workers.iter().any(|worker| worker.gave_up())
    }
}
