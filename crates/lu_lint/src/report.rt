//! The faults of a report's text.

ghost use Rattle.std.specs.Prelude.{◌≡◌};
ghost use Rattle.lu_lint.specs.Said.{SaysSuch};
ghost use Rattle.lu_lint.specs.Parts as spec;
ghost use Rattle.lu_lint.specs.Parts.{ReportSaid};

use crate::remark::{Cause, FaultKind, Remark, Said, line_below, line_of, with_remark};
use crate::words::Wording;
use lu_report::{ReportFaultKind, ReportLineFault, report_faults};
use lu_text::kept_lines;
use std::alloc::{AllocError, Global};

/// What is said of a fault of a report.
fn report_said(above: usize, fault: &ReportLineFault) -> Said
    ensures { result ≡ spec.report_said above fault.now }
{
    Said {
        line: line_below(above, fault.line),
        cause: Cause::Fault(FaultKind::Report(ReportFaultKind::Form), fault.line),
    }
}

/// The remarks with those on a report.
pub(crate) fn with_report<W: Wording>(
    alloc: Global,
    wording: &W,
    mut all: Vec<Remark>,
    above: usize,
    text: &[u8],
) -> Result<Vec<Remark>, AllocError>
    ensures { SaysSuch result all (ReportSaid above text.now) }
{
    let lines = kept_lines(alloc, text)?;
    let faults = report_faults(alloc, &lines)?;
    for fault in &faults {
        let words = wording.report_fault(alloc, fault, line_of(&lines, fault.line))?;
        all = with_remark(all, report_said(above, fault), words)?;
    }
    Ok(all)
}
