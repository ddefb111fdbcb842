//! The faults of a component's text.

ghost use Rattle.std.specs.Prelude.{◌≡◌, true, IfOk, Some, map};
ghost use Rattle.lu_lang.specs.Sound.{IsSoundDraft};
ghost use Rattle.lu_lint.specs.Bundle.{LintsComponentLines, component_read, component_said, held_of};
ghost use Rattle.lu_lint.specs.Component as spec;
ghost use Rattle.lu_lint.specs.Lint.{message_on};
ghost use Rattle.lu_lint.specs.Reading.{FindsAt, ReadsDraft, ReadsEnd, ReadsOn, ReadsRest};
ghost use Rattle.lu_lint.specs.Said.{SaysAlso, SaysAndReads, message_said};
ghost use Rattle.lu_lint.specs.Warnings.{without_words};
ghost use Rattle.lu_lint.specs.declared.remark.FaultKind.TheVariants as part;
ghost use Rattle.lu_text.specs.Lines.{texts};

use crate::remark::{
    Cause, FaultKind, Position, Remark, Said, line_before, line_below, with_remark, with_words,
};
use crate::warning::{PossibleWarning, hints_while, remarks_held, with_found};
use crate::words::Wording;
use lu_component::Component;
use lu_lang::{
    ComponentDraft, FaultyDraft, LangFaultKind, end_fault, left_backs, meant_line, mended,
    message_backs, open_backs, read_or_fault,
};
use lu_text::{lines_of, words_of};
use std::alloc::{AllocError, Global};

/// What is said of a fault of a component, whose message is shown on this line of it.
fn said(at: &Position, kind: LangFaultKind, line: usize) -> Said
    ensures { result ≡ message_said part.Component at.now.above
        (message_on at.now.line kind line) }
{
    Said {
        line: line_below(at.above, line),
        cause: Cause::Fault(FaultKind::Component(kind), at.line),
    }
}

/// The remarks with those on jumps to labels that are not there, which stand this many lines
/// before.
fn with_jumps<W: Wording>(
    alloc: Global,
    wording: &W,
    mut all: Vec<Remark>,
    at: &Position,
    draft: &ComponentDraft,
    kind: LangFaultKind,
    backs: &[usize],
) -> Result<Vec<Remark>, AllocError>
    ensures { SaysAlso result all (spec.jumps_said at.now kind backs.now) }
{
    for back in backs {
        let words = wording.missing_label(alloc, draft, *back)?;
        let line = line_before(&at.seen, at.line, *back);
        all = with_remark(all, said(at, kind, line), words)?;
    }
    Ok(all)
}

/// The remarks with those on a fault of this line, which was read as it was meant.
fn with_fault<W: Wording>(
    alloc: Global,
    wording: &W,
    all: Vec<Remark>,
    at: &Position,
    draft: &FaultyDraft,
    kind: LangFaultKind,
    text: &[u8],
) -> Result<Vec<Remark>, AllocError>
    ensures { SaysAlso result all (spec.line_said at.now draft.now text.now (Some kind)) }
{
    let backs = message_backs(alloc, &draft.draft, text, kind)?;
    if backs.is_empty() {
        let line = meant_line(alloc, draft, text)?;
        let meant = line.as_deref().unwrap_or(text);
        let words = wording.component_fault(alloc, &draft.draft, kind, meant)?;
        return with_remark(all, said(at, kind, at.line), words);
    }
    with_jumps(alloc, wording, all, at, &draft.draft, kind, &backs)
}

/// The remarks with those on the end of the text, where it has a fault: on that, and on jumps to
/// labels that are not there, of an operation that is open.
fn with_end<W: Wording>(
    alloc: Global,
    wording: &W,
    all: Vec<Remark>,
    at: &Position,
    draft: &FaultyDraft,
) -> Result<Vec<Remark>, AllocError>
    ensures { SaysAlso result all (spec.end_said at.now draft.now) }
{
    match end_fault(&draft.draft) {
        None => Ok(all),
        Some(kind) => {
            let words = wording.component_end(alloc, &draft.draft)?;
            let all = with_remark(all, said(at, kind, at.line), words)?;
            let backs = open_backs(alloc, &draft.draft)?;
            with_jumps(
                alloc,
                wording,
                all,
                at,
                &draft.draft,
                LangFaultKind::Name,
                &backs,
            )
        }
    }
}

/// What the text of a component is read as.
#[derive(Drop)]
pub(crate) enum ReadComponent {
    /// The component, where the text has no fault.
    Sound(Component),

    /// What the lines leave, each read as it was meant.
    Faulty(FaultyDraft),
}

/// What the text is read as, of which the lines leave this draft, and have no fault or some.
fn read_as(draft: FaultyDraft, sound: bool) -> ReadComponent
    requires { sound ≡ true → IsSoundDraft draft.draft }
    ensures { result ≡ spec.read_as draft sound }
{
    if !sound {
        return ReadComponent::Faulty(draft);
    }
    let FaultyDraft { draft, meant } = draft;
    match draft.finish() {
        Ok(component) => ReadComponent::Sound(component),
        Err((_, draft)) => ReadComponent::Faulty(FaultyDraft { draft, meant }),
    }
}

/// The remarks with those of these warnings that hold of the component, where it is read.
fn with_held(
    alloc: Global,
    mut all: Vec<Remark>,
    component: &ReadComponent,
    warnings: Vec<PossibleWarning>,
) -> Result<Vec<Remark>, AllocError>
    ensures { SaysAlso result all (held_of component.now (map without_words warnings.items)) }
{
    match component {
        ReadComponent::Faulty(_) => Ok(all),
        ReadComponent::Sound(component) => {
            let mut held = remarks_held(alloc, component, warnings)?;
            all.append(&mut held)?;
            Ok(all)
        }
    }
}

/// What the lines of a component leave that are read so far.
#[derive(Drop)]
struct Reading {
    /// The remarks on them, after those before.
    all: Vec<Remark>,

    /// What they declare.
    draft: FaultyDraft,

    /// Whether none of them has a fault.
    sound: bool,

    /// The warnings that are found, while that is so.
    warnings: Vec<PossibleWarning>,

    /// The lines with words.
    seen: Vec<usize>,
}

/// The remarks with those on this line after this draft, where it has a fault, and on the jumps to
/// labels that are not there which are reported beside it; the draft from which the lines after it
/// are read; and the line's fault. `lines` are those after it.
fn read_draft<W: Wording>(
    alloc: Global,
    wording: &W,
    all: Vec<Remark>,
    at: &Position,
    draft: FaultyDraft,
    text: &[u8],
    lines: &[&[u8]],
) -> Result<(Vec<Remark>, FaultyDraft, Option<LangFaultKind>), AllocError>
    ensures { ReadsDraft result all at.now draft text.now (texts lines.now) }
{
    let (draft, fault) = read_or_fault(alloc, draft, text)?;
    let Some(kind) = fault else {
        return Ok((all, draft, None));
    };
    let all = with_fault(alloc, wording, all, at, &draft, kind, text)?;
    let backs = left_backs(alloc, &draft.draft, text, lines, kind)?;
    let all = with_jumps(
        alloc,
        wording,
        all,
        at,
        &draft.draft,
        LangFaultKind::Name,
        &backs,
    )?;
    let draft = mended(alloc, draft, text, lines)?;
    Ok((all, draft, fault))
}

/// What is left, with the warnings found at a line of these words, of this number.
fn find_warnings<W: Wording>(
    alloc: Global,
    wording: &W,
    reading: Reading,
    line: usize,
    text: &[u8],
    words: &[&[u8]],
) -> Result<Reading, AllocError>
    ensures { IfOk result (λ next. FindsAt reading line (texts words.now) next) }
{
    let Reading {
        all,
        draft,
        sound,
        warnings,
        seen,
    } = reading;
    let at = Position {
        above: 0,
        line,
        seen,
    };
    let hints = hints_while(alloc, sound, &draft.draft, words)?;
    let warnings = with_found(alloc, wording, warnings, &at, &draft.draft, text, &hints)?;
    Ok(Reading {
        all,
        draft,
        sound,
        warnings,
        seen: at.seen,
    })
}

/// What is left after a line of these words, of this number, of which the warnings are found;
/// `lines` are those after it.
fn read_words<W: Wording>(
    alloc: Global,
    wording: &W,
    reading: Reading,
    line: usize,
    text: &[u8],
    words: &[&[u8]],
    lines: &[&[u8]],
) -> Result<Reading, AllocError>
    ensures { ReadsRest result reading line text.now (texts words.now) (texts lines.now) }
{
    let Reading {
        all,
        draft,
        mut sound,
        warnings,
        seen,
    } = reading;
    let at = Position {
        above: 0,
        line,
        seen,
    };
    let (all, draft, fault) = read_draft(alloc, wording, all, &at, draft, text, lines)?;
    sound &= fault.is_none();
    let seen = with_words(at.seen, line, words)?;
    Ok(Reading {
        all,
        draft,
        sound,
        warnings,
        seen,
    })
}

/// What is left after one line more, of this number; `lines` are those after it.
fn read_line<W: Wording>(
    alloc: Global,
    wording: &W,
    reading: Reading,
    line: usize,
    text: &[u8],
    lines: &[&[u8]],
) -> Result<Reading, AllocError>
    ensures { IfOk result (λ next. ReadsOn reading line text.now (texts lines.now) next) }
{
    let words = words_of(alloc, text)?;
    let reading = find_warnings(alloc, wording, reading, line, text, &words)?;
    read_words(alloc, wording, reading, line, text, &words, lines)
}

/// The remarks with those on the end of the lines, which is after all of them, and what the lines
/// are read as.
fn read_end<W: Wording>(
    alloc: Global,
    wording: &W,
    reading: Reading,
    end: usize,
) -> Result<(Vec<Remark>, ReadComponent), AllocError>
    requires { reading.sound ≡ true → IsSoundDraft reading.draft.draft }
    ensures { ReadsEnd result reading end (spec.read_as reading.draft reading.sound) }
{
    let Reading {
        all,
        draft,
        sound,
        warnings,
        seen,
    } = reading;
    let at = Position {
        above: 0,
        line: end,
        seen,
    };
    let all = with_end(alloc, wording, all, &at, &draft)?;
    let component = read_as(draft, sound);
    let all = with_held(alloc, all, &component, warnings)?;
    Ok((all, component))
}

/// The remarks with those on these lines of a component, each of which is read once, and what the
/// lines are read as.
fn read_lines<W: Wording>(
    alloc: Global,
    wording: &W,
    all: Vec<Remark>,
    lines: &[&[u8]],
) -> Result<(Vec<Remark>, ReadComponent), AllocError>
    ensures { LintsComponentLines result all (texts lines.now) }
{
    let mut reading = Reading {
        all,
        draft: FaultyDraft::new(alloc),
        sound: true,
        warnings: Vec::new(alloc),
        seen: Vec::new(alloc),
    };
    for (before, text) in lines.iter().enumerate() {
        let (_, after) = lines.split_at(before + 1);
        reading = read_line(alloc, wording, reading, before + 1, text, after)?;
    }
    read_end(alloc, wording, reading, lines.len() + 1)
}

/// The remarks with those on the text of a component, which begins the bundle, and what the text is
/// read as: one on every fault that does not only follow from another, in the order of their lines;
/// or, where it has none, each warning.
///
/// # Errors
///
/// There is no memory for the remarks.
pub(crate) fn with_component<W: Wording>(
    alloc: Global,
    wording: &W,
    all: Vec<Remark>,
    text: &[u8],
) -> Result<(Vec<Remark>, ReadComponent), AllocError>
    ensures { SaysAndReads result all (component_said text.now) (component_read text.now) }
{
    let lines = lines_of(alloc, text)?;
    read_lines(alloc, wording, all, &lines)
}
