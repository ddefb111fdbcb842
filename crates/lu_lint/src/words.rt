//! The words of what is said, which stand in no contract: a crate above says them.

use crate::remark::{Hint, RunHint};
use crate::runs::MatrixRuns;
use lu_lang::{ComponentDraft, LangFaultKind};
use lu_recorded::RecordedFaultKind;
use lu_report::ReportLineFault;
use lu_spec::SpecLineFault;
use lu_test::{Matrix, MatrixDraft, MatrixFaultKind, ScheduleFault, Signature};
use std::alloc::{AllocError, Global};

/// The words for what lint says. Each fails where there is no memory for them.
pub trait Wording {
    /// For a fault of a component's line, as it was meant, after this draft.
    fn component_fault(
        &self,
        alloc: Global,
        draft: &ComponentDraft,
        kind: LangFaultKind,
        text: &[u8],
    ) -> Result<String, AllocError>;

    /// For a jump to a label that is not there, which this many instructions of the open operation
    /// follow with it.
    fn missing_label(
        &self,
        alloc: Global,
        draft: &ComponentDraft,
        back: usize,
    ) -> Result<String, AllocError>;

    /// For a fault at the end of a component, after this draft.
    fn component_end(&self, alloc: Global, draft: &ComponentDraft) -> Result<String, AllocError>;

    /// For a fault of a matrix's line, after this draft, by the signatures of the operations.
    fn matrix_fault(
        &self,
        alloc: Global,
        signatures: &[Signature<'_>],
        draft: &MatrixDraft,
        kind: MatrixFaultKind,
        text: &[u8],
    ) -> Result<String, AllocError>;

    /// For a fault at the end of a matrix.
    fn matrix_end(&self, alloc: Global) -> Result<String, AllocError>;

    /// For a text that has not the form of a schedule.
    fn schedule_form(&self, alloc: Global, text: &[u8]) -> Result<String, AllocError>;

    /// For a word of a schedule that is no move.
    fn schedule_move(
        &self,
        alloc: Global,
        kind: ScheduleFault,
        word: &[u8],
    ) -> Result<String, AllocError>;

    /// For a schedule of this many moves, which are too many.
    fn schedule_length(&self, alloc: Global, moves: usize) -> Result<String, AllocError>;

    /// For a fault of a report on this line, where there is one.
    fn report_fault(
        &self,
        alloc: Global,
        fault: &ReportLineFault,
        line: Option<&[u8]>,
    ) -> Result<String, AllocError>;

    /// For a fault on this line, where there is one, of a specification of this matrix: of a free
    /// one, or of one that lists its histories.
    fn specification_fault(
        &self,
        alloc: Global,
        matrix: &Matrix,
        free: bool,
        fault: &SpecLineFault,
        line: Option<&[u8]>,
    ) -> Result<String, AllocError>;

    /// For a fault on this line, where there is one, of a recorded history of this matrix.
    fn history_fault(
        &self,
        alloc: Global,
        matrix: &Matrix,
        kind: RecordedFaultKind,
        line: Option<&[u8]>,
    ) -> Result<String, AllocError>;

    /// For a line that is nearly `---`.
    fn separator(&self, alloc: Global, line: &[u8]) -> Result<String, AllocError>;

    /// For a part after the fourth.
    fn fifth_part(&self, alloc: Global) -> Result<String, AllocError>;

    /// For a warning that is found at a component's line after this draft, and stands this many
    /// lines with words before it.
    fn warning(
        &self,
        alloc: Global,
        draft: &ComponentDraft,
        text: &[u8],
        hint: Hint,
        back: usize,
    ) -> Result<String, AllocError>;

    /// For a warning that runs show.
    fn run_warning(
        &self,
        alloc: Global,
        runs: MatrixRuns<'_>,
        hint: &RunHint,
    ) -> Result<String, AllocError>;
}
