//! The shortest beginning of a serial schedule that shows a history outside a specification.

ghost use Rattle.std.specs.Prelude.{◌≡◌, [], IfOk, OnOk};
ghost use Rattle.lu_machine.specs.Steps.{IsFeasible};
ghost use Rattle.lu_machine.specs.Tests.{IsStartOf};
ghost use Rattle.lu_witness.specs.Witnesses.{IsMember};
ghost use Rattle.lu_serial.specs.Whole.{made_calls};
ghost use Rattle.lu_refute.specs.Walks.{EndsOutside, IsBeforeAnyReturn, IsFurther, IsOutsideOf, IsShortestOf, IsStop};

use lu_history::{SerialOp, SerialOutcome};
use lu_machine::{Event, Machine, Test};
use lu_test::{Matrix, Move, Schedule, cut_to};
use lu_trie::Trie;
use std::alloc::{AllocError, Global};

/// A run along a serial schedule: where it stands, the operations that have returned, in order, and
/// how many calls each thread has made.
#[derive(Drop)]
pub(crate) struct Walk<'a> {
    pub(crate) machine: Machine<'a>,
    pub(crate) entries: Vec<SerialOp>,
    pub(crate) calls: Vec<u8>,
}

impl<'a> Walk<'a> {
    /// The walk before the first move.
    fn start(alloc: Global, test: Test<'a>) -> Result<Walk<'a>, AllocError>
        ensures start { IfOk result (λ walk. IsStartOf test.entry walk.machine) }
        ensures before { IfOk result IsBeforeAnyReturn }
    {
        Ok(Walk {
            machine: Machine::start(alloc, test.component, test.matrix)?,
            entries: Vec::new(alloc),
            calls: vec![in alloc; 0; usize::from(test.matrix.threads())]?,
        })
    }

    /// Makes the move.
    fn go_on(&mut self, next: Move) -> Result<(), AllocError>
        requires feasible { IsFeasible self.old.machine next }
        requires calls { self.old.calls.items ≡ made_calls self.old.machine }
        ensures { OnOk result (IsFurther self.old self.new next) }
    {
        match self.machine.step(next) {
            None => {}
            Some(Event::Call { t, k: _ }) => self.calls[usize::from(t)] += 1,
            Some(Event::Return { t, outcome, k: _ }) => self.entries.push(SerialOp {
                thread: t,
                outcome: SerialOutcome::from(outcome),
            })?,
        }
        Ok(())
    }

    /// Goes along a serial schedule whose history is no member of the set, until its entries are no
    /// member, or to its end. Returns the number of moves made.
    fn go_outside(&mut self, moves: &[Move], set: &Trie<Global>) -> Result<usize, AllocError>
        requires before { IsBeforeAnyReturn self.old }
        requires empty { IsMember set.now [] }
        requires outside { EndsOutside self.old.machine set.now moves.now }
        ensures { IfOk result (IsStop self.old.machine set.now moves.now self.new) }
    {
        for (index, next) in moves.iter().enumerate() {
            self.go_on(*next)?;
            if !set.contains(&self.entries) {
                return Ok(index + 1);
            }
        }
        Ok(moves.len())
    }
}

/// The shortest beginning of a serial schedule, whose history is no member of the set, that ends
/// with a whole entry and whose entries are no member: over the matrix cut to the calls made in it.
pub(crate) fn shortest(
    alloc: Global,
    test: Test<'_>,
    outside: &Schedule,
    set: &Trie<Global>,
) -> Result<(Matrix, Schedule), AllocError>
    requires empty { IsMember set.now [] }
    requires outside { IsOutsideOf test set.now outside.now }
    ensures { IfOk result (IsShortestOf test.entry set.now outside.now) }
{
    let mut walk = Walk::start(alloc, test)?;
    let moves = outside.moves();
    let count = walk.go_outside(moves, set)?;
    let smaller = cut_to(alloc, test.matrix, &walk.calls)?;
    Ok((
        smaller,
        Schedule::new(Vec::from_slice(alloc, &moves[..count])?),
    ))
}
