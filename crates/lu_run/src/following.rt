//! The monitor after a call, over the automaton as far as it is needed.

ghost use Rattle.std.specs.Prelude.{◌≡◌, ◌<◌, ◌≤◌, IfErr, IfOk, OnOk, false, slice_get};
ghost use Rattle.lu_machine.specs.declared.TheConstants.{MOST_MOVES};
ghost use Rattle.lu_linearization.specs.Monitors.{by_thread};
ghost use Rattle.lu_run.specs.Following.{AllKnown, AreAnswered, AreSeated, HasState, HasStates, IsKnownAt, question_at};
ghost use Rattle.lu_run.specs.Foreseeing.{IfCloses};
ghost use Rattle.lu_run.specs.Offending.{IsFollowFaultOf, LearnsBy};
ghost use Rattle.lu_run.specs.Tables.{AreCallsOf, IsTable};
ghost use Rattle.lu_run.specs.declared.following.FollowFault.TheVariants.{Memory};

use crate::automaton::{Foreseen, ThreadCall, question_of};
use crate::table::{Question, Table, learn};
use lu_component::Component;
use lu_history::SerialOutcome;
use lu_linearization::{Configuration, Monitor};
use lu_test::Call;
use std::alloc::{AllocError, Global};

/// The serial runs that are asked: what determines them.
#[derive(Clone, Copy)]
pub(crate) struct SerialRuns<'a> {
    pub(crate) alloc: Global,
    pub(crate) component: &'a Component,

    /// The different calls of the run.
    pub(crate) calls: &'a [Call],

    /// The number of moves that an operation may take after its call.
    pub(crate) bound: u16,
}

/// A run as far as it is followed.
#[derive(Drop)]
pub(crate) struct Follower {
    /// For each thread, its pending call.
    pub(crate) pending: [Option<ThreadCall>; 8],

    /// For each thread, what its pending call returns, if it returns in the events that are foreseen.
    pub(crate) returns: [Option<SerialOutcome>; 8],

    /// The configurations that fit these returns.
    pub(crate) monitor: Monitor,
}

/// Why a run is not followed.
#[derive(Clone, Copy, Debug, Drop)]
pub(crate) enum FollowFault {
    /// After some serial calls, this call takes more moves than the bound, or has two outcomes.
    Offends(ThreadCall),

    /// Out of memory.
    Memory,
}

impl From<AllocError> for FollowFault {
    ghost from_gives = { λ _ e. e ≡ Memory };

    fn from(_refused: AllocError) -> FollowFault {
        FollowFault::Memory
    }
}

/// Rounds in which all questions come up: after each round, one more operation may take effect, and
/// at most eight do.
const ROUNDS: u8 = 9;

/// What the thread's pending call answers in the configuration: the question, if the thread has a
/// pending call that has not taken effect.
pub(crate) fn question_at(
    pending: &[Option<ThreadCall>; 8],
    one: &Configuration,
    thread: usize,
) -> Option<Question>
    requires { thread < 8 }
    ensures { result ≡ question_at pending.now one.now thread }
{
    match pending[thread] {
        None => None,
        Some(call) => match one.effects[thread] {
            None => Some(question_of(one.state, call)),
            Some(_) => None,
        },
    }
}

/// Learns the answers to all questions in the configuration. Returns whether one was not known.
fn learn_at(
    runs: SerialRuns<'_>,
    table: &mut Table,
    pending: &[Option<ThreadCall>; 8],
    one: &Configuration,
) -> Result<bool, FollowFault>
    requires table { IsTable runs.component.now runs.calls.now table.old }
    requires calls { AreCallsOf runs.component.now runs.calls.now }
    requires seated { AreSeated runs.calls.now pending.now }
    requires state { HasState table.old one.now.state }
    requires few { runs.bound ≤ MOST_MOVES }
    ensures learns { OnOk result (LearnsBy runs.entry table.old table.new) }
    ensures known { OnOk result (IsKnownAt table.new pending.now one.now) }
    ensures same { IfOk result (λ new. new ≡ false → table.new ≡ table.old) }
    ensures offends { IfErr result (IsFollowFaultOf runs.entry table.old) }
{
    let mut new = false;
    for thread in 0..8 {
        match question_at(pending, one, thread) {
            None => {}
            Some(question) => {
                new |= learn(
                    runs.alloc,
                    runs.component,
                    runs.calls,
                    runs.bound,
                    table,
                    question,
                )?;
            }
        }
    }
    Ok(new)
}

/// Learns the answers to all questions in these configurations. Returns whether one was not known.
fn learn_all(
    runs: SerialRuns<'_>,
    table: &mut Table,
    pending: &[Option<ThreadCall>; 8],
    configurations: &[Configuration],
) -> Result<bool, FollowFault>
    requires table { IsTable runs.component.now runs.calls.now table.old }
    requires calls { AreCallsOf runs.component.now runs.calls.now }
    requires seated { AreSeated runs.calls.now pending.now }
    requires states { HasStates table.old configurations.now }
    requires few { runs.bound ≤ MOST_MOVES }
    ensures learns { OnOk result (LearnsBy runs.entry table.old table.new) }
    ensures known { OnOk result (AllKnown table.new pending.now configurations.now) }
    ensures same { IfOk result (λ new. new ≡ false → table.new ≡ table.old) }
    ensures offends { IfErr result (IsFollowFaultOf runs.entry table.old) }
{
    let mut new = false;
    for one in configurations {
        new |= learn_at(runs, table, pending, one)?;
    }
    Ok(new)
}

/// The monitor after the thread has made its pending call, where all its questions are known.
///
/// # Errors
///
/// After some serial calls, a call takes more moves than the bound, or has two outcomes; or out of
/// memory.
pub(crate) fn follow(
    runs: SerialRuns<'_>,
    table: &mut Table,
    follower: &Follower,
    thread: u8,
) -> Result<Monitor, FollowFault>
    requires table { IsTable runs.component.now runs.calls.now table.old }
    requires calls { AreCallsOf runs.component.now runs.calls.now }
    requires states { HasStates table.old follower.now.monitor }
    requires seated { AreSeated runs.calls.now follower.now.pending }
    requires thread { thread < 8 }
    requires few { runs.bound ≤ MOST_MOVES }
    ensures learns { OnOk result (LearnsBy runs.entry table.old table.new) }
    ensures closed { IfCloses table.new follower.now thread result }
    ensures known { IfOk result (AreAnswered table.new (by_thread follower.now.pending)) }
    ensures offends { IfErr result (IsFollowFaultOf runs.entry table.old) }
{
    let pending = &follower.pending;
    for _round in 0..ROUNDS {
        let foreseen = Foreseen {
            table: &*table,
            returns: &follower.returns,
        };
        let next = follower
            .monitor
            .call(runs.alloc, &foreseen, pending, thread)?;
        if !learn_all(runs, table, pending, next.configurations())? {
            return Ok(next);
        }
    }
    let foreseen = Foreseen {
        table: &*table,
        returns: &follower.returns,
    };
    Ok(
        follower
            .monitor
            .call(runs.alloc, &foreseen, pending, thread)?,
    )
}
