//! What is kept of entries without marks, to find firm conflicts.

ghost use Rattle.std.specs.Prelude.{◌≡◌, ◌↔◌, ◌∷◌, ◌++◌, [], IsTrue, IfOk, OnOk};
ghost use Rattle.lu_spec.specs.FirmEnds.{AddsEnds, KeepsMore, Refuses, RefusesSome, as_kept, without_outcome};
ghost use Rattle.lu_spec.specs.MarkedEntries.{erased};

use crate::history_set::HistorySet;
use crate::marked_line::{MarkedOp, erased};
use lu_history::{SerialOp, SerialOutcome};
use std::alloc::{AllocError, Global};

/// The beginnings of listed histories that end with an entry without a mark.
#[derive(Drop)]
pub(crate) struct FirmEnds {
    /// These beginnings.
    pub ends: HistorySet,

    /// The same, each without the outcome of its last operation: `Stuck` stands in its place.
    pub asked: HistorySet,
}

/// Nothing is kept.
pub(crate) fn nothing_kept(alloc: Global) -> FirmEnds
    ensures ends { result.ends ≡ [] }
    ensures asked { result.asked ≡ [] }
{
    FirmEnds {
        ends: HistorySet::new(alloc),
        asked: HistorySet::new(alloc),
    }
}

/// The operation with `Stuck` in the place of its outcome.
fn without_outcome(op: SerialOp) -> SerialOp
    ensures { result ≡ without_outcome op }
{
    SerialOp {
        outcome: SerialOutcome::Stuck,
        ..op
    }
}

/// A history with one more operation.
fn followed_by(alloc: Global, begin: &[SerialOp], op: SerialOp) -> Result<Vec<SerialOp>, AllocError>
    ensures { IfOk result (λ longer. longer.items ≡ begin.now ++ op ∷ []) }
{
    let mut longer = Vec::with_capacity(alloc, begin.len() + 1)?;
    longer.extend_from_slice(begin)?;
    longer.push(op)?;
    Ok(longer)
}

/// The operation, with its outcome or without.
fn as_kept(op: SerialOp, outcome: bool) -> SerialOp
    ensures { result ≡ as_kept outcome op }
{
    if outcome { op } else { without_outcome(op) }
}

/// Adds the beginnings that end with an entry without a mark, with the outcomes of their last
/// operations or without.
fn add_ends(
    alloc: Global,
    set: &mut HistorySet,
    entries: &[MarkedOp],
    history: &[SerialOp],
    outcomes: bool,
) -> Result<(), AllocError>
    requires { history.now ≡ erased entries.now }
    ensures { OnOk result (AddsEnds (as_kept outcomes) set.old set.new entries.now) }
{
    for (i, entry) in entries.iter().enumerate() {
        if !entry.marked {
            let last = as_kept(entry.op, outcomes);
            let end = followed_by(alloc, &history[..i], last)?;
            set.insert(end)?;
        }
    }
    Ok(())
}

/// What is kept, with the entries of one more history.
pub(crate) fn keep_more(
    alloc: Global,
    mut kept: FirmEnds,
    entries: &[MarkedOp],
    history: &[SerialOp],
) -> Result<FirmEnds, AllocError>
    requires { history.now ≡ erased entries.now }
    ensures { IfOk result (λ next. KeepsMore kept next entries.now) }
{
    add_ends(alloc, &mut kept.ends, entries, history, true)?;
    add_ends(alloc, &mut kept.asked, entries, history, false)?;
    Ok(kept)
}

/// Whether the operation is kept after this beginning, with other outcomes alone.
fn refuses(
    alloc: Global,
    kept: &FirmEnds,
    begin: &[SerialOp],
    op: SerialOp,
) -> Result<bool, AllocError>
    ensures { IfOk result (λ b. IsTrue b ↔ Refuses kept.now begin.now op) }
{
    let asked = followed_by(alloc, begin, without_outcome(op))?;
    let end = followed_by(alloc, begin, op)?;
    Ok(kept.asked.contains(&asked) && !kept.ends.contains(&end))
}

/// Whether an entry without a mark is refused.
pub(crate) fn refuses_some(
    alloc: Global,
    kept: &FirmEnds,
    entries: &[MarkedOp],
    history: &[SerialOp],
) -> Result<bool, AllocError>
    requires of { history.now ≡ erased entries.now }
    ensures { IfOk result (λ b. IsTrue b ↔ RefusesSome kept.now entries.now) }
{
    for (i, entry) in entries.iter().enumerate() {
        if !entry.marked && refuses(alloc, kept, &history[..i], entry.op)? {
            return Ok(true);
        }
    }
    Ok(false)
}
