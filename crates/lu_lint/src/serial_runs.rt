//! What the serial runs of a test show.

ghost use Rattle.std.specs.Prelude.{◌≡◌, ◌≤◌, IfOk};
ghost use Rattle.std.specs.List.{list_any};
ghost use Rattle.std.specs.List.Sorted.{IsStrictlySortedBy};
ghost use Rattle.lu_report.specs.Limits.{most_moves};
ghost use Rattle.lu_machine.specs.Tests.{FromEachStartOf};
ghost use Rattle.lu_trie.specs.Members.{history_cmp};
ghost use Rattle.lu_serial.specs.Serial as serial;
ghost use Rattle.lu_serial_graph.specs.Graphs.{members_of};
ghost use Rattle.lu_text.specs.Results.{HasItems};
ghost use Rattle.lu_lint.specs.Runs as spec;
ghost use Rattle.lu_lint.specs.Runs.{CanPlay, HintsOfCut, ShownSerially, ShowsFromEachStart, ShowsHistory, history_hints, with_firsts, with_set};

use crate::remark::{Ending, Operations, SerialHint};
use lu_history::{SerialOp, SerialOutcome};
use lu_machine::{Event, Machine, Test};
use lu_serial_graph::{LearntGraph, SerialGraph, learn_graph};
use lu_test::Schedule;
use lu_trie::SerialTree;
use std::alloc::{AllocError, Global};

/// The number of operations of this thread.
pub fn operation_count(thread: u8, ops: &[SerialOp]) -> usize
    ensures { result ≡ spec.operation_count thread ops.now }
{
    ops.iter().filter(|op| op.thread == thread).count()
}

/// How an operation ends, where that is reported.
fn ending_of(outcome: SerialOutcome) -> Option<Ending>
    ensures { result ≡ spec.ending_of outcome }
{
    match outcome {
        SerialOutcome::Ret(_) => None,
        SerialOutcome::Trap => Some(Ending::Trap),
        SerialOutcome::Stuck => Some(Ending::Stuck),
    }
}

/// Whether two hints are of the same call, with the same ending.
fn are_alike(a: &SerialHint, b: &SerialHint) -> bool
    ensures { result ≡ spec.are_alike a.now b.now }
{
    a.thread == b.thread && a.call == b.call && a.ending == b.ending
}

fn have_like(found: &[SerialHint], hint: &SerialHint) -> bool
    ensures { result ≡ list_any (spec.are_alike hint.now) found.now }
{
    found.iter().any(|other| are_alike(hint, other))
}

/// That the next operation of the thread after these ends so.
fn hint_of(
    alloc: Global,
    before: &[SerialOp],
    thread: u8,
    ending: Ending,
) -> Result<SerialHint, AllocError>
    ensures { IfOk result (λ hint. hint ≡ spec.hint_of before.now thread ending) }
{
    Ok(SerialHint {
        thread,
        call: operation_count(thread, before),
        ending,
        before: Operations::new(Vec::from_slice(alloc, before)?),
    })
}

/// The hints with this one, unless there is one of its call and its ending.
fn with_hint(mut found: Vec<SerialHint>, hint: SerialHint) -> Result<Vec<SerialHint>, AllocError>
    ensures { HasItems result (spec.with_hint found.items hint) }
{
    if have_like(&found, &hint) {
        return Ok(found);
    }
    found.push(hint)?;
    Ok(found)
}

/// The hints with those of the operations of a history.
fn with_history(
    alloc: Global,
    mut found: Vec<SerialHint>,
    history: &[SerialOp],
) -> Result<Vec<SerialHint>, AllocError>
    ensures { HasItems result (with_firsts found.items (history_hints history.now)) }
{
    for (position, op) in history.iter().enumerate() {
        let Some(ending) = ending_of(op.outcome) else {
            continue;
        };
        let (before, _) = history.split_at(position);
        found = with_hint(found, hint_of(alloc, before, op.thread, ending)?)?;
    }
    Ok(found)
}

/// The hints with those of all histories that begin with the path, which leads to this place.
fn with_below<T: SerialTree>(
    alloc: Global,
    mut found: Vec<SerialHint>,
    tree: &T,
    place: T::Place,
    path: &mut Vec<SerialOp>,
) -> Result<Vec<SerialHint>, AllocError>
    requires { T.is_place tree.now place }
    ensures hints { HasItems result (with_set found.items path.old.items (T.below tree.now place)) }
    ensures path { IfOk result (λ next. path.new.items ≡ path.old.items) }
{
    if tree.ends(place) {
        found = with_history(alloc, found, path)?;
    }
    for i in 0..tree.kid_count(place) {
        let (op, below) = tree.kid(place, i);
        path.push(op)?;
        found = with_below(alloc, found, tree, below, path)?;
        path.pop();
    }
    Ok(found)
}

/// What the histories of a set show.
fn set_hints(alloc: Global, set: &SerialGraph<Global>) -> Result<Vec<SerialHint>, AllocError>
    ensures sorted { IsStrictlySortedBy history_cmp (members_of set.now) }
    ensures hints { HasItems result (spec.set_hints (members_of set.now)) }
{
    // For the proof: the count says that the members are in order.
    let _count = set.member_count();
    let tree = &set;
    let root = tree.root();
    with_below(alloc, Vec::new(alloc), tree, root, &mut Vec::new(alloc))
}

/// The history of a schedule, whose moves are asked to be feasible.
fn played(alloc: Global, test: Test<'_>, schedule: &Schedule) -> Result<Vec<Event>, AllocError>
    requires { FromEachStartOf test (CanPlay schedule.now) }
    ensures { ShowsFromEachStart result test.entry (ShowsHistory schedule.now) }
{
    let mut machine = Machine::start(alloc, test.component, test.matrix)?;
    let mut history = Vec::new(alloc);
    for next in schedule.moves() {
        if let Some(event) = machine.step(*next) {
            history.push(event)?;
        }
    }
    Ok(history)
}

/// The serial operations of a history.
fn entries_of(alloc: Global, history: &[Event]) -> Result<Vec<SerialOp>, AllocError>
    ensures { HasItems result (serial.entries_of history.now) }
{
    let mut entries = Vec::new(alloc);
    for event in history {
        match *event {
            Event::Call { .. } => {}
            Event::Return { t, outcome, .. } => entries.push(SerialOp {
                thread: t,
                outcome: SerialOutcome::from(outcome),
            })?,
        }
    }
    Ok(entries)
}

/// What a schedule that is cut shows, by its history: the call that stands last in it.
fn cut_hints(alloc: Global, history: &[Event]) -> Result<Vec<SerialHint>, AllocError>
    ensures { HasItems result (spec.cut_hints history.now) }
{
    let before = entries_of(alloc, history)?;
    match history.last() {
        Some(Event::Call { t, .. }) => {
            Ok(vec![in alloc; hint_of(alloc, &before, *t, Ending::Cut)?]?)
        }
        _ => Ok(Vec::new(alloc)),
    }
}

/// What the serial runs show where one is cut.
fn hints_of_cut(
    alloc: Global,
    test: Test<'_>,
    schedule: &Schedule,
) -> Result<Vec<SerialHint>, AllocError>
    requires { FromEachStartOf test (CanPlay schedule.now) }
    ensures { ShowsFromEachStart result test.entry (HintsOfCut schedule.now) }
{
    let history = played(alloc, test, schedule)?;
    cut_hints(alloc, &history)
}

/// What the serial runs show.
pub(crate) fn serial_hints(
    alloc: Global,
    test: Test<'_>,
    bound: u16,
) -> Result<Vec<SerialHint>, AllocError>
    requires some { 1 ≤ bound }
    requires few { bound ≤ most_moves }
    ensures { ShowsFromEachStart result test.entry (ShownSerially bound) }
{
    let learnt = learn_graph(alloc, alloc, test.component, test.matrix, bound)?;
    match learnt {
        LearntGraph::Set(set) => set_hints(alloc, &set),
        LearntGraph::Cut(schedule) => hints_of_cut(alloc, test, &schedule),
        LearntGraph::Conflict { .. } => Ok(Vec::new(alloc)),
    }
}
