//! A node of the tree of schedules.

ghost use Rattle.std.specs.Prelude.{◌≡◌, false, [], IfOk, IsTrue, List};
ghost use Rattle.lu_machine.specs.declared.event.Event.{Event};
ghost use Rattle.lu_machine.specs.Ends.{IsEnded};
ghost use Rattle.lu_machine.specs.States.{progress};
ghost use Rattle.lu_machine.specs.Steps.{IsFeasible, Step};
ghost use Rattle.lu_machine.specs.Undoes.{CanTake, restored};
ghost use Rattle.lu_history.specs.Standing.{Agree};
ghost use Rattle.lu_witness.specs.Caches.{SameButEntries};
ghost use Rattle.lu_tree.specs.Walks.{IsBadEnd, IsGoodComplete, IsGoodEnd, IsLongerBy, IsTakenBack};

use lu_judge::Trail;
use lu_machine::{Machine, Status, Undo};
use lu_test::Move;
use lu_trie::SerialTree;
use lu_witness::{Cache, Verdict, Why};
use std::alloc::{AllocError, Global};

/// A machine, with the history of the path that led to its state.
#[derive(Drop)]
pub(crate) struct Node<'a, 't, T: SerialTree> {
    pub(crate) machine: Machine<'a>,
    pub(crate) trail: Trail<'t, T>,
}

impl<'a, 't, T: SerialTree> Node<'a, 't, T> {
    /// The start of a run, where the machine stands. Its histories are judged over the tree.
    pub(crate) fn start(
        alloc: Global,
        machine: Machine<'a>,
        tree: &'t T,
    ) -> Result<Node<'a, 't, T>, AllocError>
        ensures machine { IfOk result (λ node. node.machine ≡ machine.entry) }
        ensures history { IfOk result (λ node. node.trail.history ≡ []) }
        ensures tree { IfOk result (λ node. node.trail.tree ≡ tree.entry.now) }
    {
        let trail = Trail::new(alloc, tree)?;
        Ok(Node { machine, trail })
    }

    /// Makes the move here. With `RUNS_LOCAL` false no local instructions run with a move.
    #[inline(always)]
    pub(crate) fn enter<const RUNS_LOCAL: bool>(&mut self, next: Move) -> Undo
        requires feasible { IsFeasible self.old.machine next }
        requires one { RUNS_LOCAL ≡ false → self.old.machine.component.local ≡ 0 }
        requires agree { Agree (progress self.old.machine) self.old.trail.history }
        ensures step { Step self.old.machine next self.new.machine result.event }
        ensures history { IsLongerBy result.event self.old.trail.history self.new.trail.history }
        ensures tree { self.new.trail.tree ≡ self.old.trail.tree }
        ensures agree { Agree (progress self.new.machine) self.new.trail.history }
        ensures back { restored result self.new.machine ≡ self.old.machine }
        ensures one { RUNS_LOCAL ≡ false → self.new.machine.component.local ≡ 0 }
        ensures fits { CanTake self.new.machine result }
    {
        let undo = self.machine.apply_as::<RUNS_LOCAL>(next);
        match undo.event() {
            None => undo,
            Some(event) => {
                self.trail.push(event);
                undo
            }
        }
    }

    /// Takes back the move that was made last.
    #[inline(always)]
    pub(crate) fn leave(&mut self, undo: Undo)
        requires fits { CanTake self.old.machine undo }
        requires made { (h : List Event) × IsLongerBy undo.event h self.old.trail.history }
        ensures machine { self.new.machine ≡ restored undo self.old.machine }
        ensures history { IsTakenBack undo.event self.old.trail.history self.new.trail.history }
        ensures tree { self.new.trail.tree ≡ self.old.trail.tree }
    {
        if undo.event().is_some() {
            self.trail.pop();
        }
        self.machine.undo(undo);
    }

    /// Whether a schedule that ends here is found good. It is not where memory is refused.
    #[inline(always)]
    pub(crate) fn is_good(&mut self, cache: &mut Cache<'t, T>) -> bool
        requires agree { Agree (progress self.old.machine) self.old.trail.history }
        requires tree { cache.old.tree ≡ self.old.trail.tree }
        requires ended { IsEnded self.old.machine }
        ensures same { self.new ≡ self.old }
        ensures cache { SameButEntries cache.old cache.new }
        ensures good { IsTrue result → IsGoodEnd T.members self.old }
    {
        match self.trail.judge(cache) {
            Ok(Verdict::Good) => true,
            Ok(_) | Err(_) => false,
        }
    }

    /// Whether a schedule that ends here is complete and found good.
    pub(crate) fn ends_well(&mut self, cache: &mut Cache<'t, T>) -> bool
        requires agree { Agree (progress self.old.machine) self.old.trail.history }
        requires tree { cache.old.tree ≡ self.old.trail.tree }
        ensures same { self.new ≡ self.old }
        ensures cache { SameButEntries cache.old cache.new }
        ensures well { IsTrue result → IsGoodComplete T.members self.old }
    {
        match self.machine.status() {
            Status::Complete => self.is_good(cache),
            Status::Running | Status::Stuck => false,
        }
    }

    /// Why a schedule is bad that ends here and was not found good.
    ///
    /// # Errors
    ///
    /// `AllocError` where memory was refused.
    pub(crate) fn why_bad(&mut self, cache: &mut Cache<'t, T>) -> Result<Why, AllocError>
        requires agree { Agree (progress self.old.machine) self.old.trail.history }
        requires tree { cache.old.tree ≡ self.old.trail.tree }
        requires ended { IsEnded self.old.machine }
        ensures same { self.new ≡ self.old }
        ensures cache { SameButEntries cache.old cache.new }
        ensures bad { IfOk result (IsBadEnd T.members self.old) }
    {
        match self.trail.judge(cache)? {
            // It was not found good since memory was refused.
            Verdict::Good => Err(AllocError),
            Verdict::NoWitness => Ok(Why::Complete),
            Verdict::NoWitnessFor(thread) => Ok(Why::Stuck(thread)),
        }
    }
}
