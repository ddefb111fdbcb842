//! Warnings by runs of the setup and by the serial runs.

ghost use Rattle.std.specs.Prelude.{◌≡◌, ◌≤◌, ◌∷◌, [], IfOk, map};
ghost use Rattle.lu_report.specs.Limits.{most_moves};
ghost use Rattle.lu_test.specs.Matrix.{IsOf};
ghost use Rattle.lu_text.specs.Results.{HasItems};
ghost use Rattle.lu_lint.specs.Items.{Extends};
ghost use Rattle.lu_lint.specs.Runs as spec;
ghost use Rattle.lu_lint.specs.Runs.{AreTest, RunsSaid, Show};
ghost use Rattle.lu_lint.specs.declared.remark.RunHint.TheVariants.{Serial, TooManySteps};
ghost use Rattle.lu_lint.specs.Said.{SaysAlso, SaysSuch};

use crate::component::ReadComponent;
use crate::remark::{Cause, Remark, RunHint, Said, SerialHint, line_below, with_remark};
use crate::serial_runs::serial_hints;
use crate::setup_run::setup_hints;
use crate::step_count::has_many_steps;
use crate::words::Wording;
use lu_component::Component;
use lu_machine::{Test, settles};
use lu_test::Matrix;
use lu_text::{lines_of, words_of};
use std::alloc::{AllocError, Global};

/// The hints of the setup, and then those of the serial runs.
fn all_hints(mut setup: Vec<RunHint>, serial: Vec<SerialHint>) -> Result<Vec<RunHint>, AllocError>
    ensures { Extends result setup (map Serial serial.items) }
{
    for hint in serial {
        setup.push(RunHint::Serial(hint))?;
    }
    Ok(setup)
}

/// The hints of the setup, and then that the serial runs are not looked at.
fn with_unseen(mut setup: Vec<RunHint>) -> Result<Vec<RunHint>, AllocError>
    ensures { Extends result setup (TooManySteps ∷ []) }
{
    setup.push(RunHint::TooManySteps)?;
    Ok(setup)
}

/// What runs of a component and a matrix show: that the setup does not settle; or else the setup's own
/// run, and then the serial runs, or that these have too many steps.
fn hints_of(
    alloc: Global,
    component: &Component,
    matrix: &Matrix,
    bound: u16,
) -> Result<Vec<RunHint>, AllocError>
    requires of { IsOf matrix.now component.now }
    requires some { 1 ≤ bound }
    requires few { bound ≤ most_moves }
    ensures { IfOk result (λ hints. Show component.now matrix.now bound hints.items) }
{
    if let Some(call) = settles(alloc, component, matrix)? {
        return Ok(vec![in alloc; RunHint::SetupGoesOn(call)]?);
    }
    let test = Test { component, matrix };
    let setup = setup_hints(alloc, test)?;
    if has_many_steps(alloc, test, bound)? {
        return with_unseen(setup);
    }
    let serial = serial_hints(alloc, test, bound)?;
    all_hints(setup, serial)
}

/// The numbers with that of this line, where it begins with the word.
fn with_line(
    alloc: Global,
    mut found: Vec<usize>,
    word: &[u8],
    number: usize,
    line: &[u8],
) -> Result<Vec<usize>, AllocError>
    ensures { Extends result found (spec.line_if word.now number line.now) }
{
    let words = words_of(alloc, line)?;
    if words.first().is_some_and(|first| *first == word) {
        found.push(number)?;
    }
    Ok(found)
}

/// The numbers of the lines of a text that begin with this word.
fn lines_with(alloc: Global, word: &[u8], text: &[u8]) -> Result<Vec<usize>, AllocError>
    ensures { HasItems result (spec.lines_with word.now text.now) }
{
    let lines = lines_of(alloc, text)?;
    let mut found = Vec::new(alloc);
    for (before, line) in lines.iter().enumerate() {
        found = with_line(alloc, found, word, before + 1, line)?;
    }
    Ok(found)
}

/// The line of a hint, where these are the lines of the setup and of the threads.
fn hint_line(setup: &[usize], threads: &[usize], hint: &RunHint) -> usize
    ensures { result ≡ spec.hint_line setup.now threads.now hint.now }
{
    let line = match hint {
        RunHint::SetupGoesOn(_) | RunHint::SetupTraps(_) => setup.first(),
        RunHint::Serial(hint) => threads.get(usize::from(hint.thread)),
        RunHint::TooManySteps => threads.first(),
    };
    line.copied().unwrap_or(0)
}

/// What is said of a hint.
fn said_of_hint(above: usize, setup: &[usize], threads: &[usize], hint: RunHint) -> Said
    ensures { result ≡ spec.said_of_hint above setup.now threads.now hint }
{
    Said {
        line: line_below(above, hint_line(setup, threads, &hint)),
        cause: Cause::Run(hint),
    }
}

/// The runs that are made: of a component and a matrix of it.
#[derive(Clone, Copy)]
pub struct MatrixRuns<'a> {
    pub component: &'a Component,
    pub matrix: &'a Matrix,

    /// The most moves that an operation of a serial run may take after its call, 1 to 256.
    pub bound: u16,
}

/// The remarks with those of these hints.
fn with_hints<W: Wording>(
    alloc: Global,
    wording: &W,
    mut all: Vec<Remark>,
    runs: MatrixRuns<'_>,
    above: usize,
    text: &[u8],
    hints: Vec<RunHint>,
) -> Result<Vec<Remark>, AllocError>
    ensures { SaysAlso result all (spec.all_shown above text.now hints.items) }
{
    let setup = lines_with(alloc, b"setup", text)?;
    let threads = lines_with(alloc, b"thread", text)?;
    for hint in hints {
        let words = wording.run_warning(alloc, runs, &hint)?;
        all = with_remark(all, said_of_hint(above, &setup, &threads, hint), words)?;
    }
    Ok(all)
}

/// The remarks with those that runs show, where the component and the matrix of this text are read.
/// `serial`, 1 to 256, is the bound of serial runs.
pub(crate) fn with_runs<W: Wording>(
    alloc: Global,
    wording: &W,
    all: Vec<Remark>,
    component: &ReadComponent,
    matrix: &Option<Matrix>,
    serial: u16,
    above: usize,
    text: &[u8],
) -> Result<Vec<Remark>, AllocError>
    requires fits { AreTest component.now matrix.now }
    requires some { 1 ≤ serial }
    requires few { serial ≤ most_moves }
    ensures { SaysSuch result all (RunsSaid serial component.now matrix.now above text.now) }
{
    match (component, matrix) {
        (ReadComponent::Sound(component), Some(matrix)) => {
            let hints = hints_of(alloc, component, matrix, serial)?;
            let runs = MatrixRuns {
                component,
                matrix,
                bound: serial,
            };
            with_hints(alloc, wording, all, runs, above, text, hints)
        }
        _ => Ok(all),
    }
}
