//! The machine.

ghost use Rattle.std.specs.Prelude.{◌≡◌, true, false, ◌+◌, ◌<◌, ◌≤◌, ◌↔◌, [], ◌∷◌, length, IsTrue, IfSome, IfOk, slice_get, Some};
ghost use Rattle.std.specs.Option.{option_copied, option_map_or};
ghost use Rattle.lu_component.specs.declared.component.TheConstants.{MOST_INSTRS};
ghost use Rattle.lu_test.specs.Matrix.{IsMatrix, IsOf, calls_of};
ghost use Rattle.lu_machine.specs.declared.thread.Activity.TheVariants.{Open};
ghost use Rattle.lu_component.specs.Component.{IsComponent, IsRegister};
ghost use Rattle.lu_machine.specs.Changes.{ChangesThread, IsAtWork, IsChange, IsEventOf, idle};
ghost use Rattle.lu_machine.specs.States.{State as AState, call_count, cell_of, current_instr, owner_of, progress, value_at, with_cell, with_owner, with_standing};
ghost use Rattle.lu_machine.specs.Steps.{IsEnabled, IsFeasible, OneStep, RunsOn, Step, is_at_local, more_local, picks_of};
ghost use Rattle.lu_machine.specs.Acts.{IsDoneInOpen, IsOpening, Opens};
ghost use Rattle.lu_machine.specs.Layout.{IsInCode, IsSound, IsSoundNext, IsStanding, StandsIn, ThreadStoodIn, WasIn};
ghost use Rattle.lu_machine.specs.Events.{IsEventInRange};
ghost use Rattle.lu_machine.specs.Ends.{HasStatus, IsFinished};
ghost use Rattle.lu_machine.specs.Positions.{CanStand, CanStandAt, at_position, standing_so};
ghost use Rattle.lu_machine.specs.Undoes.{CanTake, IsThere, LeadsBack, restored, with_shared, with_thread_before};
ghost use Rattle.lu_machine.specs.Starts.{CanRun, IsMaking, IsStart, Makes, MakesAll, empty_state};
ghost use Rattle.lu_machine.specs.Tasks.{IsAwaitable, task_at};
ghost use Rattle.lu_test.specs.declared.matrix.TheConstants.{MOST_CALLS_OF_THREAD, MOST_THREADS};

use crate::event::{Event, Status};
use crate::instructions::{Act, is_local};
use crate::position::Position;
use crate::program::{Agenda, Task, agendas, rows};
use crate::span::{Span, lay_out};
use crate::thread::{Activity, Change, Frame, OperationBefore, Thread, event_after};
use crate::undo::{Shared, Undo};
use lu_component::{Component, Instr};
use lu_test::{Matrix, Move, setup_alone};
use std::alloc::{AllocError, Global};
use std::marker::Model;

/// The most moves that a call of a setup takes after its first.
const MOST_MOVES_OF_CALL: u16 = 256;

/// The move of thread 0 with pick 0.
const FIRST_MOVE: Move = Move { thread: 0, pick: 0 };

/// A component and a matrix as they are run.
#[derive(Debug, Drop)]
pub struct Machine<'a> {
    component: &'a Component,
    matrix: &'a Matrix,
    spans: Vec<Span>,
    rows: Vec<[Task; 65]>,
    agendas: Vec<Agenda>,
    cells: Vec<u32>,
    locks: Vec<Option<u8>>,
    threads: Vec<Thread>,
}

impl<'a> Model for Machine<'a> {
    ghost use Rattle.lu_machine.specs.States.{State};
    ghost use Rattle.lu_machine.specs.Layout.{IsLaidOut};

    ghost Value = { State };

    ghost view = { λ m. record {
      component = m.component.now;
      matrix = m.matrix.now;
      cells = m.cells.items;
      locks = m.locks.items;
      threads = m.threads.items;
    } };

    ghost invariant = { λ m. IsLaidOut m.component.now m.matrix.now m.spans.items m.rows.items
        m.agendas.items m.cells.items m.locks.items m.threads.items };
}

impl<'a> Machine<'a> {
    /// The machine of the component and the matrix, at the start of a run: after the calls of the
    /// setup, which thread 0 makes alone. The matrix is asked to be one of the component
    /// ([`Matrix::of`]), and its setup to settle ([`settles`](crate::settles)).
    ///
    /// # Errors
    ///
    /// Memory was refused.
    pub fn start(
        alloc: Global,
        component: &'a Component,
        matrix: &'a Matrix,
    ) -> Result<Machine<'a>, AllocError>
        requires { CanRun component.now matrix.now }
        ensures starts { IfOk result (λ m. IsStart component.now matrix.now m) }
        ensures limits { IsComponent component.now × IsMatrix matrix.now }
    {
        let mut machine = Machine::empty(alloc, component, matrix)?;
        let alone = setup_alone(alloc, matrix)?;
        let mut setup = Machine::empty(alloc, component, &alone)?;
        setup.make_all();
        machine.cells = setup.cells;
        machine.locks = setup.locks;
        Ok(machine)
    }

    /// The machine before any call: the cells have their initial values, and locks are free.
    pub(crate) fn empty(
        alloc: Global,
        component: &'a Component,
        matrix: &'a Matrix,
    ) -> Result<Machine<'a>, AllocError>
        requires { IsOf matrix.now component.now }
        ensures empty { IfOk result (λ m. m ≡ empty_state component.now matrix.now) }
        ensures limits { IsComponent component.now × IsMatrix matrix.now }
    {
        let threads = usize::from(matrix.threads());
        let (spans, cells) = lay_out(alloc, component.arrays())?;
        let idle = Thread {
            done: 0,
            activity: Activity::Idle,
        };
        Ok(Machine {
            component,
            matrix,
            spans,
            rows: rows(alloc, component)?,
            agendas: agendas(alloc, matrix)?,
            cells,
            locks: vec![in alloc; None; component.locks().len()]?,
            threads: vec![in alloc; idle; threads]?,
        })
    }

    /// Thread 0 makes all its calls, one after the other, each pick 0: the number of the first that
    /// does not end within 256 moves after its call, if there is one. Asks for a machine before any
    /// call, of one thread.
    pub(crate) fn make_all(&mut self) -> Option<u8>
        requires { MakesAll self.old.component (calls_of self.old.matrix 0) 0 self.old }
        ensures { IsMaking self.old.component (calls_of self.old.matrix 0) result self.new }
    {
        for k in 0..self.matrix.calls(0) {
            if !self.make(k) {
                return Some(k);
            }
        }
        None
    }

    /// Thread 0 makes its next call, number `k`, and moves on, each pick 0: whether the call ends
    /// within 256 moves after it. Asks for a machine of one thread.
    fn make(&mut self, k: u8) -> bool
        requires stands { progress self.old ≡ (k, false) ∷ [] }
        requires left { k < call_count self.old 0 }
        ensures ends { result ≡ true → Makes self.old k self.new }
        ensures open_still { result ≡ false → (end : AState) → Makes self.old k end → ⊥ }
    {
        self.step(FIRST_MOVE);
        for _moved in 0..MOST_MOVES_OF_CALL {
            if !self.feasible(FIRST_MOVE) {
                return false;
            }
            self.step(FIRST_MOVE);
            if !self.is_open(0) {
                return true;
            }
        }
        false
    }

    /// Whether an operation of the thread is open.
    fn is_open(&self, t: u8) -> bool
        ensures { result ≡ option_map_or (λ p. p.1) (slice_get (progress self.now) t) false }
    {
        let Some(standing) = self.standing(t) else {
            return false;
        };
        matches!(standing.activity, Activity::Open(_))
    }

    /// The number of threads, 1 to 8.
    #[inline(always)]
    pub fn threads(&self) -> u8
        ensures value { result ≡ length self.now.threads }
        ensures few { length self.now.threads ≤ MOST_THREADS }
    {
        self.matrix.threads()
    }

    /// How many local instructions run with one move at most, 0 to 16.
    pub fn local(&self) -> u8
        ensures { result ≡ self.now.component.local }
    {
        self.component.local()
    }

    /// Where the thread stands: none where there is no such thread.
    #[inline(always)]
    pub fn standing(&self, thread: u8) -> Option<&Thread>
        ensures value { option_copied result ≡ slice_get self.now.threads thread }
        ensures stands { IfSome result (λ standing. IsStanding standing.now) }
        ensures in_code { IfSome result (λ standing. StandsIn self.now.component standing.now) }
        ensures few { length self.now.threads ≤ MOST_THREADS }
    {
        self.threads.get(usize::from(thread))
    }

    /// The instruction at the operation's place.
    #[tactic(auto, unfolding(crate::specs::States::instr_at))]
    #[inline(always)]
    pub fn instr(&self, frame: &Frame) -> Option<&Instr>
        ensures value { option_copied result ≡ current_instr self.now frame.now }
        ensures sound { IfSome result (λ instr. IsSound self.now frame.now instr.now) }
    {
        let op = self.component.operations().get(usize::from(frame.op))?;
        op.code.instrs().get(usize::from(frame.place))
    }

    /// The task at the operation's place. The operation is asked to be one of the component's, and
    /// its place one of its code or right after.
    #[inline(always)]
    fn task(&self, frame: &Frame) -> &Task
        requires op { frame.now.op < length self.now.component.operations }
        requires place { frame.now.place ≤ MOST_INSTRS }
        ensures value { result.now ≡ task_at self.now.component frame.now }
        ensures wait { IfSome result.now.wait (IsAwaitable self.now) }
        ensures sound { IsSoundNext self.now frame.now }
    {
        &self.rows[usize::from(frame.op)][usize::from(frame.place)]
    }

    /// Call `k` of the thread, as it is opened. It is asked to be there.
    #[inline(always)]
    fn opening(&self, thread: u8, k: u8) -> &Frame
        requires { k < call_count self.now thread }
        ensures opened { IsOpening self.now thread k result.now }
        ensures few { k < MOST_CALLS_OF_THREAD }
        ensures in_code { IsInCode self.now.component (Open result.now) }
    {
        &self.agendas[usize::from(thread)].frames[usize::from(k)]
    }

    /// The number of cell `index` of the array among all cells: none at or past the array's length.
    /// The array is asked to be one of the component's.
    #[inline(always)]
    pub fn cell(&self, array: u8, index: u32) -> Option<usize>
        requires { array < length self.now.component.arrays }
        ensures cell { result ≡ cell_of self.now.component array index }
        ensures within { IfSome result (λ p. p < length self.now.cells) }
    {
        let span = self.spans[usize::from(array)];
        let index = index as usize;
        if index < span.len {
            Some(span.first + index)
        } else {
            None
        }
    }

    /// The value of the cell of this number, which [`Machine::cell`] returns.
    #[inline(always)]
    pub fn value_at(&self, cell: usize) -> u32
        requires { cell < length self.now.cells }
        ensures { result ≡ value_at self.now cell }
    {
        self.cells[cell]
    }

    /// The value of each cell, those of one array after those of the other.
    pub fn cells(&self) -> &[u32]
        ensures { result.now ≡ self.now.cells }
    {
        &self.cells
    }

    /// Of each lock its owner, if it has one.
    pub fn locks(&self) -> &[Option<u8>]
        ensures { result.now ≡ self.now.locks }
    {
        &self.locks
    }

    /// The owner of the lock, if it has one. The lock is asked to be one of the component's.
    #[inline(always)]
    pub fn owner(&self, lock: u8) -> Option<u8>
        requires { lock < length self.now.component.locks }
        ensures { result ≡ owner_of self.now lock }
    {
        self.locks[usize::from(lock)]
    }

    /// Writes the cell of this number, and says what that overwrote.
    #[inline(always)]
    pub(crate) fn set_cell(&mut self, cell: usize, value: u32) -> Shared
        requires { cell < length self.old.cells }
        ensures cell { self.new ≡ with_cell self.old cell value }
        ensures back { with_shared self.new result ≡ self.old }
        ensures there { IsThere self.new result }
    {
        let overwritten = Shared::Cell {
            cell,
            value: self.cells[cell],
        };
        self.cells[cell] = value;
        overwritten
    }

    /// Gives the lock this owner, or none, and says what that overwrote.
    #[inline(always)]
    pub(crate) fn set_owner(&mut self, lock: u8, owner: Option<u8>) -> Shared
        requires { lock < length self.old.component.locks }
        ensures owner { self.new ≡ with_owner self.old lock owner }
        ensures back { with_shared self.new result ≡ self.old }
        ensures there { IsThere self.new result }
    {
        let overwritten = Shared::Owner {
            lock,
            owner: self.locks[usize::from(lock)],
        };
        self.locks[usize::from(lock)] = owner;
        overwritten
    }

    /// Writes this, and says what that overwrote.
    #[inline(always)]
    fn write(&mut self, shared: Shared) -> Shared
        requires { IsThere self.old shared }
        ensures shared { self.new ≡ with_shared self.old shared }
        ensures back { with_shared self.new result ≡ self.old }
        ensures there { IsThere self.new result }
    {
        match shared {
            Shared::Nothing => Shared::Nothing,
            Shared::Cell { cell, value } => self.set_cell(cell, value),
            Shared::Owner { lock, owner } => self.set_owner(lock, owner),
        }
    }

    #[inline(always)]
    fn set_thread(&mut self, thread: u8, standing: Thread)
        requires there { thread < length self.old.threads }
        requires stands { IsStanding standing }
        requires in_code { StandsIn self.old.component standing }
        ensures { self.new ≡ with_standing self.old thread standing }
    {
        self.threads[usize::from(thread)] = standing;
    }

    /// Changes the open operation of the thread, and says what that overwrote. With `WHOLE` true
    /// all registers are kept.
    #[inline(always)]
    fn change<const WHOLE: bool>(&mut self, thread: u8, change: Change) -> OperationBefore
        requires there { thread < length self.old.threads }
        requires sound { IsChange change }
        ensures changed { ChangesThread self.old thread change WHOLE self.new result }
        ensures was_in { ThreadStoodIn self.old thread result }
    {
        self.threads[usize::from(thread)].change::<WHOLE>(change)
    }

    /// Puts back where the thread stood before a move with this event, or none.
    #[inline(always)]
    fn put_back(&mut self, thread: u8, event: Option<Event>, was: OperationBefore)
        requires there { thread < length self.old.threads }
        requires register { IsRegister was.register }
        requires code { WasIn self.old.component was }
        requires event { IfSome event IsEventInRange }
        ensures { self.new ≡ with_thread_before self.old thread event was }
    {
        let whole = self.component.local() > 0;
        self.threads[usize::from(thread)].put_back(event, was, whole);
    }

    /// How many picks thread `t` has: 0 where there is no such thread, no call is left or the
    /// instruction is blocked; K at `pick rD K`; else 1.
    #[inline(always)]
    pub fn picks(&self, t: u8) -> u8
        ensures { result ≡ picks_of self.now t }
    {
        let Some(standing) = self.standing(t) else {
            return 0;
        };
        match &standing.activity {
            Activity::Idle => u8::from(standing.done < self.agendas[usize::from(t)].count),
            Activity::Open(frame) => self.task_picks(frame, self.task(frame)),
        }
    }

    /// Whether thread `t` is enabled: it is there, and has a pick.
    #[inline(always)]
    pub fn enabled(&self, t: u8) -> bool
        ensures { IsTrue result ↔ IsEnabled self.now t }
    {
        self.picks(t) > 0
    }

    /// Whether the move is feasible: its pick is one of the thread's.
    pub fn feasible(&self, next: Move) -> bool
        ensures { IsTrue result ↔ IsFeasible self.now next }
    {
        next.pick < self.picks(next.thread)
    }

    /// Whether thread `t` is idle and has made all its calls.
    #[inline(always)]
    fn is_finished(&self, t: u8) -> bool
        ensures { IsTrue result ↔ IsFinished self.now t }
    {
        let Some(standing) = self.standing(t) else {
            return true;
        };
        match &standing.activity {
            Activity::Idle => self.matrix.calls(t) <= standing.done,
            Activity::Open(_) => false,
        }
    }

    /// How the state stands.
    #[inline(always)]
    pub fn status(&self) -> Status
        ensures { HasStatus self.now result }
    {
        let mut complete = true;
        for t in 0..self.threads() {
            if self.enabled(t) {
                return Status::Running;
            }
            complete &= self.is_finished(t);
        }
        if complete {
            Status::Complete
        } else {
            Status::Stuck
        }
    }

    /// Makes the move, and returns its event, if it has one. The move is asked to be feasible
    /// ([`Machine::feasible`]).
    pub fn step(&mut self, next: Move) -> Option<Event>
        requires { IsFeasible self.old next }
        ensures step { Step self.old next self.new result }
        ensures range { IfSome result IsEventInRange }
    {
        self.apply(next).event()
    }

    /// Makes the move, and says how to take it back. The move is asked to be feasible
    /// ([`Machine::feasible`]).
    #[inline(always)]
    pub fn apply(&mut self, next: Move) -> Undo
        requires { IsFeasible self.old next }
        ensures step { Step self.old next self.new result.event }
        ensures range { IfSome result.event IsEventInRange }
        ensures back { restored result self.new ≡ self.old }
        ensures fits { CanTake self.new result }
    {
        self.apply_as::<true>(next)
    }

    /// Makes the move as [`Machine::apply`] does. With `RUNS_LOCAL` false the component is asked to
    /// have no local instructions run with a move: who makes many moves asks that once, and each of
    /// them is the faster.
    #[inline(always)]
    pub fn apply_as<const RUNS_LOCAL: bool>(&mut self, next: Move) -> Undo
        requires feasible { IsFeasible self.old next }
        requires one { RUNS_LOCAL ≡ false → self.old.component.local ≡ 0 }
        ensures step { Step self.old next self.new result.event }
        ensures range { IfSome result.event IsEventInRange }
        ensures back { restored result self.new ≡ self.old }
        ensures fits { CanTake self.new result }
    {
        if !RUNS_LOCAL {
            return self.one_step::<false>(next);
        }
        let more = self.more_local(next.thread);
        let undo = self.one_step::<true>(next);
        if more > 0 {
            self.run_on(next.thread, more);
        }
        undo
    }

    /// How many local instructions may follow the first step of a move of thread `t`.
    #[inline(always)]
    pub fn more_local(&self, t: u8) -> u8
        ensures { result ≡ more_local self.now t }
    {
        let local = self.component.local();
        if local == 0 {
            return 0;
        }
        local - u8::from(self.is_at_local(t))
    }

    /// Whether the next instruction of thread `t` is local: not where no operation of it is open.
    pub fn is_at_local(&self, t: u8) -> bool
        ensures { result ≡ is_at_local self.now t }
    {
        let Some(standing) = self.standing(t) else {
            return false;
        };
        match &standing.activity {
            Activity::Idle => false,
            Activity::Open(frame) => match self.instr(frame) {
                None => false,
                Some(instr) => is_local(instr),
            },
        }
    }

    /// Carries out the local instructions that come next in thread `t`, up to `most` of them.
    #[inline(never)]
    #[tactic(auto, using(crate::proofs::Running::local_feasible))]
    fn run_on(&mut self, t: u8, most: u8)
        ensures { RunsOn most self.old t self.new }
    {
        if most > 0 && self.is_at_local(t) {
            self.one_step::<false>(Move { thread: t, pick: 0 });
            self.run_on(t, most - 1);
        }
    }

    /// Opens the thread's next call or carries out its next instruction, and says how to take it
    /// back. With `WHOLE` true all registers are kept, as is needed where local instructions run
    /// with a move.
    #[inline(always)]
    fn one_step<const WHOLE: bool>(&mut self, next: Move) -> Undo
        requires { IsFeasible self.old next }
        ensures step { OneStep self.old next self.new result.event }
        ensures thread { result.thread ≡ next.thread }
        ensures range { IfSome result.event IsEventInRange }
        ensures back { LeadsBack WHOLE self.old result self.new }
        ensures fits { CanTake self.new result }
    {
        let standing = self.standing(next.thread).unwrap();
        let done = standing.done;
        match &standing.activity {
            Activity::Idle => self.open(next.thread, done),
            Activity::Open(frame) => {
                let task = self.task(frame);
                let act = self.act(next, frame, &task.instr);
                self.go_on::<WHOLE>(next.thread, done, act)
            }
        }
    }

    /// Opens the next call of an idle thread, which has made `done` of them.
    #[inline(always)]
    fn open(&mut self, thread: u8, done: u8) -> Undo
        requires few { thread < MOST_THREADS }
        requires stands { slice_get self.old.threads thread ≡ Some (idle done) }
        requires left { done < call_count self.old thread }
        ensures step { Opens self.old thread self.new result.event }
        ensures thread { result.thread ≡ thread }
        ensures range { IfSome result.event IsEventInRange }
        ensures back { restored result self.new ≡ self.old }
        ensures fits { CanTake self.new result }
    {
        let frame = *self.opening(thread, done);
        self.set_thread(
            thread,
            Thread {
                done,
                activity: Activity::Open(frame),
            },
        );
        Undo {
            thread,
            was: OperationBefore {
                op: frame.op,
                ..OperationBefore::NOTHING
            },
            overwritten: Shared::Nothing,
            event: Some(Event::Call { t: thread, k: done }),
        }
    }

    /// Carries out what an instruction does in the open operation of a thread, which is number
    /// `done`.
    #[inline(always)]
    fn go_on<const WHOLE: bool>(&mut self, thread: u8, done: u8, act: Act) -> Undo
        requires few { thread < MOST_THREADS }
        requires counted { done < MOST_CALLS_OF_THREAD }
        requires stands { IsAtWork self.old thread done }
        requires there { IsThere self.old act.shared }
        requires sound { IsChange act.change }
        ensures after { IsDoneInOpen self.old thread done act self.new }
        ensures thread { result.thread ≡ thread }
        ensures event { IsEventOf thread done act.change result.event }
        ensures range { IfSome result.event IsEventInRange }
        ensures back { LeadsBack WHOLE self.old result self.new }
        ensures fits { CanTake self.new result }
    {
        let overwritten = self.write(act.shared);
        let was = self.change::<WHOLE>(thread, act.change);
        Undo {
            thread,
            was,
            overwritten,
            event: event_after(thread, done, act.change),
        }
    }

    /// Takes back the move that was made last. The state is asked to have what is put back, as the
    /// one has that its `apply` left: the thread, and the cell or the lock.
    #[inline(always)]
    pub fn undo(&mut self, undo: Undo)
        requires { CanTake self.old undo }
        ensures { self.new ≡ restored undo self.old }
    {
        match undo.overwritten {
            Shared::Nothing => {}
            Shared::Cell { cell, value } => self.cells[cell] = value,
            Shared::Owner { lock, owner } => self.locks[usize::from(lock)] = owner,
        }
        self.put_back(undo.thread, undo.event, undo.was);
    }

    /// Where it stands, to be kept apart from it.
    ///
    /// # Errors
    ///
    /// Memory was refused.
    pub fn position(&self, alloc: Global) -> Result<Position, AllocError>
        ensures here { IfOk result (λ p. at_position self.now p ≡ self.now) }
        ensures stands { IfOk result (CanStandAt self.now.component self.now.matrix) }
    {
        Ok(Position {
            cells: Vec::from_slice(alloc, &self.cells)?,
            locks: Vec::from_slice(alloc, &self.locks)?,
            threads: Vec::from_slice(alloc, &self.threads)?,
        })
    }

    /// A second machine of the same component and matrix, which stands where this one does.
    ///
    /// # Errors
    ///
    /// Memory was refused.
    pub fn try_clone(&self, alloc: Global) -> Result<Machine<'a>, AllocError>
        ensures { IfOk result (λ copy. copy ≡ self.now) }
    {
        Ok(Machine {
            component: self.component,
            matrix: self.matrix,
            spans: Vec::from_slice(alloc, &self.spans)?,
            rows: Vec::from_slice(alloc, &self.rows)?,
            agendas: Vec::from_slice(alloc, &self.agendas)?,
            cells: Vec::from_slice(alloc, &self.cells)?,
            locks: Vec::from_slice(alloc, &self.locks)?,
            threads: Vec::from_slice(alloc, &self.threads)?,
        })
    }

    /// Stands where this says. A machine of the component and the matrix is asked to be able to, as
    /// it is where one of them stood ([`Machine::position`]).
    pub fn stand_at(&mut self, position: &Position)
        requires { CanStandAt self.old.component self.old.matrix position.now }
        ensures { self.new ≡ at_position self.old position.now }
    {
        self.stand_with(&position.cells, &position.locks, &position.threads);
    }

    /// Stands where the cells have these values, the locks have these owners, and the threads stand
    /// so. A machine of the component and the matrix is asked to be able to.
    pub fn stand_with(&mut self, cells: &[u32], locks: &[Option<u8>], threads: &[Thread])
        requires { CanStand self.old.component self.old.matrix cells.now locks.now threads.now }
        ensures { self.new ≡ standing_so self.old cells.now locks.now threads.now }
    {
        self.cells.copy_from_slice(cells);
        self.locks.copy_from_slice(locks);
        self.threads.copy_from_slice(threads);
    }

    /// The component that is run.
    pub fn component(&self) -> &Component
        ensures { result.now ≡ self.now.component }
    {
        self.component
    }

    /// The matrix whose calls are made.
    pub fn matrix(&self) -> &Matrix
        ensures { result.now ≡ self.now.matrix }
    {
        self.matrix
    }

    /// Makes the first step of a move alone, the local instructions after it left out: the thread
    /// opens its next call or carries out one instruction. Returns the event, if it has one. The
    /// move is asked to be feasible ([`Machine::feasible`]).
    pub fn step_once(&mut self, next: Move) -> Option<Event>
        requires { IsFeasible self.old next }
        ensures { OneStep self.old next self.new result }
    {
        self.one_step::<false>(next).event()
    }
}
