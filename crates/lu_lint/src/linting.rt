//! What lint says of a bundle.

ghost use Rattle.std.specs.Prelude.{◌≡◌, ◌≤◌, IfOk, string_bytes};
ghost use Rattle.std.specs.List.Sorted.{IsNonDecreasingBy};
ghost use Rattle.lu_report.specs.Limits.{most_moves};
ghost use Rattle.lu_text.specs.Lines.{texts};
ghost use Rattle.lu_lint.specs.Bundle.{AfterComponent, BundleSaid, IsSaidOf, PartsSaid};
ghost use Rattle.lu_lint.specs.Messages.{remarks_text};
ghost use Rattle.lu_lint.specs.Said as said;
ghost use Rattle.lu_lint.specs.Said.{SaysSuch, said_of};

use crate::bundle::{above_next, with_separators};
use crate::component::{ReadComponent, with_component};
use crate::further::with_further;
use crate::matrix::with_matrix;
use crate::remark::Remark;
use crate::runs::with_runs;
use crate::words::Wording;
use crate::writing::write_remarks;
use lu_spec::Marks;
use lu_text::{kept_lines, meant_parts};
use std::alloc::{AllocError, Global};

/// How a bundle is linted.
#[derive(Clone, Copy, Debug, PartialEq, Eq)]
pub struct LintOptions {
    /// The maximum number of moves that an operation may take after its call in a serial run, 1 to
    /// 256.
    pub serial: u16,

    /// Whether the entries of a specification may have marks.
    pub marks: Marks,
}

/// What lint says of a bundle.
#[derive(Debug, Drop)]
pub struct Linted {
    /// Each thing that is said, in the order of the lines.
    pub remarks: Vec<Remark>,

    /// The same as a text, with a line for each remark.
    pub text: String,

    /// Whether one of them is a fault.
    pub faults: bool,
}

/// The remarks with those on the parts after a component: on a matrix, before which `above` lines
/// stand, on the parts after it, and by runs.
fn with_after<W: Wording>(
    alloc: Global,
    wording: &W,
    all: Vec<Remark>,
    options: LintOptions,
    component: &ReadComponent,
    above: usize,
    parts: &[&[u8]],
) -> Result<Vec<Remark>, AllocError>
    requires some { 1 ≤ options.serial }
    requires few { options.serial ≤ most_moves }
    ensures { SaysSuch result all (AfterComponent options component.now above (texts parts.now)) }
{
    let Some((text, others)) = parts.split_first() else {
        return Ok(all);
    };
    let (all, matrix) = with_matrix(alloc, wording, all, component, above, text)?;
    let after = above_next(alloc, above, text)?;
    let all = with_further(alloc, wording, all, &matrix, options.marks, after, others)?;
    with_runs(
        alloc,
        wording,
        all,
        component,
        &matrix,
        options.serial,
        above,
        text,
    )
}

/// The remarks with those on the parts of a bundle, of which each is read once.
fn with_parts<W: Wording>(
    alloc: Global,
    wording: &W,
    all: Vec<Remark>,
    options: LintOptions,
    parts: &[&[u8]],
) -> Result<Vec<Remark>, AllocError>
    requires some { 1 ≤ options.serial }
    requires few { options.serial ≤ most_moves }
    ensures { SaysSuch result all (PartsSaid options (texts parts.now)) }
{
    let Some((text, others)) = parts.split_first() else {
        return Ok(all);
    };
    let above = above_next(alloc, 0, text)?;
    let (all, component) = with_component(alloc, wording, all, text)?;
    with_after(alloc, wording, all, options, &component, above, others)
}

/// What is said of a bundle, in the order in which it is found.
fn remarks_on<W: Wording>(
    alloc: Global,
    wording: &W,
    bundle: &[u8],
    options: LintOptions,
) -> Result<Vec<Remark>, AllocError>
    requires some { 1 ≤ options.serial }
    requires few { options.serial ≤ most_moves }
    ensures { IfOk result (λ all. BundleSaid options bundle.now (said_of all.items)) }
{
    let lines = kept_lines(alloc, bundle)?;
    let parts = meant_parts(alloc, bundle)?;
    let all = with_separators(alloc, wording, Vec::new(alloc), &lines)?;
    with_parts(alloc, wording, all, options, &parts)
}

/// Whether one of the remarks is a fault.
pub fn have_fault(remarks: &[Remark]) -> bool
    ensures { result ≡ said.have_fault remarks.now }
{
    remarks.iter().any(|remark| remark.said.cause.is_fault())
}

/// Every fault of a bundle, in these words: of its component, of its matrix, of the parts after
/// these, and of the lines between its parts. After a component with faults the matrix is judged by
/// the signatures of the operations that its lines were to declare.
///
/// A third part is a specification where it begins with `lineup spec`, else a report where it
/// begins with `lineup`, else a recorded history where its first word is `call`, `return` or
/// `stuck`, and else a schedule. After a schedule or a report a specification may stand, and a
/// part after that is one too many; after a specification or a recorded history all parts are
/// recorded histories. Each fault of a schedule and of a report is reported, and, where the matrix
/// is read, each fault of a specification and the first of each recorded history. Of a part, the
/// one with the least line of the part is that for which its reader refuses the text
/// ([`agree`](crate::agree)).
///
/// A line that is nearly `---` parts too, so that what stands after it is not reported for it.
/// Where the component is read, its warnings are said too, which are no faults.
///
/// Where the matrix is read too, runs are made, and more warnings said: each call of the setup that
/// traps, or the first that does not end; and each call of a thread that traps or is stuck in a
/// serial run, by the least serial history in which it does (Burckhardt, Dern, Musuvathi and Tan,
/// 2010). An operation that takes more moves in a serial run than `options.serial` is said alone,
/// and where two serial histories conflict none of the threads' calls is. Where marks are refused,
/// an entry of a specification with the mark `?` is a fault.
///
/// # Errors
///
/// There is no memory for what is said.
pub fn lint<W: Wording>(
    alloc: Global,
    wording: &W,
    bundle: &[u8],
    options: LintOptions,
) -> Result<Linted, AllocError>
    requires some { 1 ≤ options.serial }
    requires few { options.serial ≤ most_moves }
    // What is said, and of which lines.
    ensures said { IfOk result (λ l. IsSaidOf options bundle.now (said_of l.remarks.items)) }
    // It is in the order of the lines.
    ensures ordered { IfOk result (λ l. IsNonDecreasingBy (λ r. r.said.line) l.remarks.items) }
    // The text says it, in the words of the remarks.
    ensures text { IfOk result (λ l. string_bytes l.text ≡ remarks_text l.remarks.items) }
    ensures faults { IfOk result (λ l. l.faults ≡ said.have_fault l.remarks.items) }
{
    let mut remarks = remarks_on(alloc, wording, bundle, options)?;
    remarks.sort_by_key(|remark| remark.said.line)?;
    let mut text = String::new(alloc);
    write_remarks(&mut text, &remarks)?;
    let faults = have_fault(&remarks);
    Ok(Linted {
        remarks,
        text,
        faults,
    })
}
