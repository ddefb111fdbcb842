//! Warnings of a component: they are found line by line as it is read, and hold where it has no
//! fault.

ghost use Rattle.std.specs.Prelude.{◌≡◌, ◌∷◌, [], false, Some, None, length, map, take, drop};
ghost use Rattle.std.specs.List.{list_any};
ghost use Rattle.lu_lang.specs.declared.draft.Statement.TheVariants.{Plain};
ghost use Rattle.lu_lang.specs.Grammar.{label_used};
ghost use Rattle.lu_text.specs.Results.{HasItems};
ghost use Rattle.lu_lint.specs.Warnings as spec;
ghost use Rattle.lu_lint.specs.Warnings.{FindsAlso};
ghost use Rattle.lu_text.specs.Lines.{texts};

use crate::remark::{Cause, Hint, Position, Remark, Said, line_before};
use crate::words::Wording;
use lu_component::{Arithmetic, Component, Instr};
use lu_lang::{ComponentDraft, Label, OpenOp, Statement};
use std::alloc::{AllocError, Global};

/// What an instruction may name.
#[derive(Clone, Copy, Drop)]
pub(crate) enum Declared {
    /// The array of this number, from 0.
    Array(usize),

    /// The lock of this number, from 0.
    Lock(usize),
}

/// A hint, which stands this many lines with words before a line.
#[derive(Clone, Copy, Drop)]
pub(crate) struct FoundHint {
    pub back: usize,
    pub hint: Hint,

    /// It does not hold where an instruction names this.
    pub unless_named: Option<Declared>,
}

/// A warning that a component may have, of which not all lines are read.
#[derive(Drop)]
pub(crate) struct PossibleWarning {
    /// The line that it stands on.
    line: usize,
    hint: Hint,

    /// It does not hold where an instruction of the component names this.
    unless_named: Option<Declared>,
    words: String,
}

fn names_array(array: usize, instr: &Instr) -> bool
    ensures { result ≡ spec.names_array array instr.now }
{
    match *instr {
        Instr::Load { array: named, .. } => usize::from(named) == array,
        Instr::Store { array: named, .. } => usize::from(named) == array,
        Instr::Cas { array: named, .. } => usize::from(named) == array,
        Instr::Await { array: named, .. } => usize::from(named) == array,
        Instr::AwaitNot { array: named, .. } => usize::from(named) == array,
        _ => false,
    }
}

fn names_lock(lock: usize, instr: &Instr) -> bool
    ensures { result ≡ spec.names_lock lock instr.now }
{
    match *instr {
        Instr::Lock(named) => usize::from(named) == lock,
        Instr::Unlock(named) => usize::from(named) == lock,
        _ => false,
    }
}

fn have_array(array: usize, code: &[Instr]) -> bool
    ensures { result ≡ list_any (spec.names_array array) code.now }
{
    code.iter().any(|instr| names_array(array, instr))
}

fn have_lock(lock: usize, code: &[Instr]) -> bool
    ensures { result ≡ list_any (spec.names_lock lock) code.now }
{
    code.iter().any(|instr| names_lock(lock, instr))
}

/// Whether an instruction names this array of the component.
fn is_array_named(component: &Component, array: usize) -> bool
    ensures { result ≡ spec.is_array_named component.now array }
{
    component
        .operations()
        .iter()
        .any(|op| have_array(array, op.code.instrs()))
}

/// Whether an instruction names this lock of the component.
fn is_lock_named(component: &Component, lock: usize) -> bool
    ensures { result ≡ spec.is_lock_named component.now lock }
{
    component
        .operations()
        .iter()
        .any(|op| have_lock(lock, op.code.instrs()))
}

/// The place of a label.
fn place_named(labels: &[Label], name: &[u8]) -> Option<usize>
    ensures { result ≡ spec.place_named labels.now name.now }
{
    labels
        .iter()
        .find(|label| label.name.is(name))
        .map(|label| usize::from(label.place))
}

/// Whether it is so at this place.
fn holds_at(row: &[bool], place: usize) -> bool
    ensures { result ≡ spec.holds_at row.now place }
{
    row.get(place).copied().unwrap_or(false)
}

/// Whether it is so at the place of this label.
fn holds_named(row: &[bool], op: &OpenOp, name: &[u8]) -> bool
    ensures { result ≡ spec.holds_where row.now (spec.place_named op.now.labels name.now) }
{
    place_named(&op.labels, name).is_some_and(|place| holds_at(row, place))
}

/// Whether it is so at the place after this one.
fn holds_after(row: &[bool], place: usize) -> bool
    ensures { result ≡ spec.holds_after row.now place }
{
    match row {
        [] => false,
        [_, rest @ ..] => holds_at(rest, place),
    }
}

/// Whether a return is reached from the statement at this place, where this row says from which
/// others.
fn returns_by(op: &OpenOp, row: &[bool], place: usize, statement: &Statement) -> bool
    ensures { result ≡ spec.returns_by op.now row.now place statement.now }
{
    match statement {
        Statement::Plain(Instr::Return(_)) => true,
        Statement::Plain(_) => holds_after(row, place),
        Statement::Jump(label) => holds_named(row, op, label.as_bytes()),
        Statement::JumpIfZero(_, label) => {
            holds_named(row, op, label.as_bytes()) || holds_after(row, place)
        }
    }
}

fn next_returns(alloc: Global, op: &OpenOp, row: &[bool]) -> Result<Vec<bool>, AllocError>
    ensures { HasItems result (spec.next_returns op.now row.now) }
{
    op.statements
        .iter()
        .enumerate()
        .map(|(place, statement)| returns_by(op, row, place, statement))
        .collect(alloc)
}

/// From which places a return is reached.
fn returns_from(alloc: Global, op: &OpenOp) -> Result<Vec<bool>, AllocError>
    ensures { HasItems result (spec.returns_within op.now (length op.now.statements)) }
{
    let mut row = vec![in alloc; false; op.statements.len()]?;
    for _round in 0..op.statements.len() {
        row = next_returns(alloc, op, &row)?;
    }
    Ok(row)
}

/// That no return is reached, on the operation's `op` line.
fn return_hints(alloc: Global, op: &OpenOp) -> Result<Vec<FoundHint>, AllocError>
    ensures { HasItems result (spec.return_hints op.now) }
{
    let row = returns_from(alloc, op)?;
    let mut hints = Vec::new(alloc);
    if !holds_at(&row, 0) {
        hints.push(FoundHint {
            back: op.statements.len() + 1,
            hint: Hint::NoReturn,
            unless_named: None,
        })?;
    }
    Ok(hints)
}

fn jumps_to_label(name: &[u8], statement: &Statement) -> bool
    ensures { result ≡ spec.jumps_to_label name.now (label_used statement.now) }
{
    match statement {
        Statement::Plain(_) => false,
        Statement::Jump(label) | Statement::JumpIfZero(_, label) => label.is(name),
    }
}

/// Whether no jump of the operation leads to the label.
fn is_unused(statements: &[Statement], label: &Label) -> bool
    ensures { result ≡ spec.is_unused statements.now label.now }
{
    !statements.iter().any(|statement| jumps_to_label(label.name.as_bytes(), statement))
}

/// The labels to which no jump of the operation leads.
fn label_hints(alloc: Global, op: &OpenOp) -> Result<Vec<FoundHint>, AllocError>
    ensures { HasItems result (spec.label_hints op.now) }
{
    let all = op.statements.len();
    op.labels
        .iter()
        .filter(|label| is_unused(&op.statements, label))
        .map(|label| FoundHint {
            back: all.saturating_sub(usize::from(label.place)),
            hint: Hint::UnusedLabel,
            unless_named: None,
        })
        .collect(alloc)
}

/// Whether an instruction reads a cell.
fn looks(statement: &Statement) -> bool
    ensures { result ≡ spec.looks statement.now }
{
    matches!(statement, Statement::Plain(Instr::Load { .. }))
}

/// Whether an instruction tries to change a cell.
fn tries(statement: &Statement) -> bool
    ensures { result ≡ spec.tries statement.now }
{
    matches!(statement, Statement::Plain(Instr::Cas { .. }))
}

/// Whether an instruction compares, sets a register, or says where to go on.
fn passes(statement: &Statement) -> bool
    ensures { result ≡ spec.passes statement.now }
{
    match statement {
        Statement::Plain(Instr::Compute { arithmetic, .. }) => {
            matches!(arithmetic, Arithmetic::Eq | Arithmetic::Lt)
        }
        Statement::Plain(Instr::Set { .. } | Instr::Return(_)) => true,
        Statement::Plain(_) => false,
        Statement::Jump(_) | Statement::JumpIfZero(_, _) => true,
    }
}

/// Whether these read cells, and do nothing else that another thread may see or that counts.
fn only_look(statements: &[Statement]) -> bool
    ensures { result ≡ spec.only_look statements.now }
{
    statements.iter().any(|statement| looks(statement))
        && statements
            .iter()
            .all(|statement| looks(statement) || passes(statement))
}

/// Whether these try to change cells, and do nothing else of the kind.
fn only_try(statements: &[Statement]) -> bool
    ensures { result ≡ spec.only_try statements.now }
{
    statements.iter().any(|statement| tries(statement))
        && statements
            .iter()
            .all(|statement| tries(statement) || passes(statement))
}

/// The instructions from a place on, this many of them.
fn between(statements: &[Statement], from: usize, count: usize) -> &[Statement]
    ensures { result.now ≡ take count (drop from statements.now) }
{
    let (_, rest) = statements.split_at(from.min(statements.len()));
    let (front, _) = rest.split_at(count.min(rest.len()));
    front
}

/// Whether the statement at place `place` jumps back to `target` over instructions that only look
/// at cells, or only try to change them.
fn spins_to(statements: &[Statement], place: usize, target: usize) -> bool
    ensures { result ≡ spec.spins_to statements.now place target }
{
    if target > place {
        return false;
    }
    let again = between(statements, target, place - target);
    only_look(again) || only_try(again)
}

/// Whether the statement at this place jumps back without waiting.
fn spins_at(op: &OpenOp, place: usize, statement: &Statement) -> bool
    ensures { result ≡ spec.spins_at op.now place (label_used statement.now) }
{
    match statement {
        Statement::Plain(_) => false,
        Statement::Jump(label) | Statement::JumpIfZero(_, label) => {
            place_named(&op.labels, label.as_bytes()).is_some_and(|target| spins_to(
                &op.statements,
                place,
                target,
            ))
        }
    }
}

/// The jumps back without waiting.
fn spin_hints(alloc: Global, op: &OpenOp) -> Result<Vec<FoundHint>, AllocError>
    ensures { HasItems result (spec.spin_hints op.now) }
{
    let all = op.statements.len();
    op.statements
        .iter()
        .enumerate()
        .filter(|(place, statement)| spins_at(op, *place, statement))
        .map(|(place, _)| FoundHint {
            back: all.saturating_sub(place),
            hint: Hint::Spin,
            unless_named: None,
        })
        .collect(alloc)
}

/// The hints at the `end` of an operation.
fn end_hints(alloc: Global, op: &OpenOp) -> Result<Vec<FoundHint>, AllocError>
    ensures { HasItems result (spec.end_hints op.now) }
{
    let mut labels = label_hints(alloc, op)?;
    let spins = spin_hints(alloc, op)?;
    labels.extend_from_slice(&spins)?;
    let mut hints = return_hints(alloc, op)?;
    hints.extend_from_slice(&labels)?;
    Ok(hints)
}

/// A hint at the declaration of this.
fn declared_hint(
    alloc: Global,
    hint: Hint,
    declared: Declared,
) -> Result<Vec<FoundHint>, AllocError>
    ensures { HasItems result (spec.declared_hint hint declared ∷ []) }
{
    let found = FoundHint {
        back: 0,
        hint,
        unless_named: Some(declared),
    };
    Ok(vec![in alloc; found]?)
}

/// The hints at a line that begins with this word.
fn state_hints(
    alloc: Global,
    draft: &ComponentDraft,
    word: &[u8],
) -> Result<Vec<FoundHint>, AllocError>
    ensures { HasItems result (spec.state_hints draft.now draft.now.begun word.now) }
{
    match &draft.begun {
        None if word == b"word".as_slice() => {
            declared_hint(
                alloc,
                Hint::UnnamedArray,
                Declared::Array(draft.arrays.len()),
            )
        }
        None if word == b"lock".as_slice() => {
            declared_hint(alloc, Hint::UnnamedLock, Declared::Lock(draft.locks.len()))
        }
        Some(op) if word == b"end".as_slice() => end_hints(alloc, op),
        _ => Ok(Vec::new(alloc)),
    }
}

/// The hints at a line of these words after this draft, where no line before it has a fault.
pub(crate) fn hints_while(
    alloc: Global,
    sound: bool,
    draft: &ComponentDraft,
    words: &[&[u8]],
) -> Result<Vec<FoundHint>, AllocError>
    ensures { HasItems result (spec.hints_while sound draft.now (texts words.now)) }
{
    match words.split_first() {
        Some((word, _)) if sound => state_hints(alloc, draft, word),
        _ => Ok(Vec::new(alloc)),
    }
}

/// The warnings with these, found at a line after this draft.
///
/// # Errors
///
/// There is no memory for the warnings.
pub(crate) fn with_found<W: Wording>(
    alloc: Global,
    wording: &W,
    mut warnings: Vec<PossibleWarning>,
    at: &Position,
    draft: &ComponentDraft,
    text: &[u8],
    hints: &[FoundHint],
) -> Result<Vec<PossibleWarning>, AllocError>
    ensures { FindsAlso result warnings (map (spec.found_at at.now) hints.now) }
{
    for found in hints {
        let words = wording.warning(alloc, draft, text, found.hint, found.back)?;
        warnings.push(PossibleWarning {
            line: line_before(&at.seen, at.line, found.back),
            hint: found.hint,
            unless_named: found.unless_named,
            words,
        })?;
    }
    Ok(warnings)
}

/// Whether a warning holds of the component that does not hold where an instruction names this.
fn holds(component: &Component, unless_named: Option<Declared>) -> bool
    ensures { result ≡ spec.holds component.now unless_named }
{
    match unless_named {
        None => true,
        Some(Declared::Array(array)) => !is_array_named(component, array),
        Some(Declared::Lock(lock)) => !is_lock_named(component, lock),
    }
}

/// The remark of a warning, where it holds of the component.
fn remark_if(component: &Component, warning: PossibleWarning) -> Option<Remark>
    ensures { result ≡ spec.remark_if component.now warning }
{
    if !holds(component, warning.unless_named) {
        return None;
    }
    let said = Said {
        line: warning.line,
        cause: Cause::Warning(warning.hint),
    };
    Some(Remark {
        said,
        words: warning.words,
    })
}

/// The remarks of those warnings that hold of the component.
///
/// # Errors
///
/// There is no memory for the remarks.
pub(crate) fn remarks_held(
    alloc: Global,
    component: &Component,
    warnings: Vec<PossibleWarning>,
) -> Result<Vec<Remark>, AllocError>
    ensures { HasItems result (spec.remarks_held component.now warnings.items) }
{
    warnings
        .into_iter()
        .filter_map(|warning| remark_if(component, warning))
        .collect(alloc)
}
