//! The words for what lint says.

use crate::bundle::{fifth_part_wording, separator_wording};
use crate::component::{component_wording, end_wording as component_end_wording, jump_wording};
use crate::history::recorded_wording;
use crate::matrix::{end_wording as matrix_end_wording, matrix_wording};
use crate::run::run_wording;
use crate::third::{
    length_wording, move_wording, report_wording, schedule_form_wording, specification_wording,
};
use crate::warning::warning_wording;
use lu_lang::{ComponentDraft, LangFaultKind};
use lu_lint::{Hint, MatrixRuns, RunHint, Wording};
use lu_recorded::RecordedFaultKind;
use lu_report::ReportLineFault;
use lu_spec::SpecLineFault;
use lu_test::{Matrix, MatrixDraft, MatrixFaultKind, ScheduleFault, Signature};
use std::alloc::{AllocError, Global};

/// Plain English, in ASCII.
#[derive(Clone, Copy)]
pub struct Words;

impl Wording for Words {
    fn component_fault(
        &self,
        alloc: Global,
        draft: &ComponentDraft,
        kind: LangFaultKind,
        text: &[u8],
    ) -> Result<String, AllocError> {
        component_wording(alloc, draft, kind, text)
    }

    fn missing_label(
        &self,
        alloc: Global,
        draft: &ComponentDraft,
        back: usize,
    ) -> Result<String, AllocError> {
        jump_wording(alloc, draft, back)
    }

    fn component_end(&self, alloc: Global, draft: &ComponentDraft) -> Result<String, AllocError> {
        component_end_wording(alloc, draft)
    }

    fn matrix_fault(
        &self,
        alloc: Global,
        signatures: &[Signature<'_>],
        draft: &MatrixDraft,
        kind: MatrixFaultKind,
        text: &[u8],
    ) -> Result<String, AllocError> {
        matrix_wording(alloc, signatures, draft, kind, text)
    }

    fn matrix_end(&self, alloc: Global) -> Result<String, AllocError> {
        matrix_end_wording(alloc)
    }

    fn schedule_form(&self, alloc: Global, text: &[u8]) -> Result<String, AllocError> {
        schedule_form_wording(alloc, text)
    }

    fn schedule_move(
        &self,
        alloc: Global,
        kind: ScheduleFault,
        word: &[u8],
    ) -> Result<String, AllocError> {
        move_wording(alloc, kind, word)
    }

    fn schedule_length(&self, alloc: Global, moves: usize) -> Result<String, AllocError> {
        length_wording(alloc, moves)
    }

    fn report_fault(
        &self,
        alloc: Global,
        fault: &ReportLineFault,
        line: Option<&[u8]>,
    ) -> Result<String, AllocError> {
        report_wording(alloc, fault, line)
    }

    fn specification_fault(
        &self,
        alloc: Global,
        matrix: &Matrix,
        free: bool,
        fault: &SpecLineFault,
        line: Option<&[u8]>,
    ) -> Result<String, AllocError> {
        specification_wording(alloc, matrix, free, fault, line)
    }

    fn history_fault(
        &self,
        alloc: Global,
        matrix: &Matrix,
        kind: RecordedFaultKind,
        line: Option<&[u8]>,
    ) -> Result<String, AllocError> {
        recorded_wording(alloc, matrix, kind, line)
    }

    fn separator(&self, alloc: Global, line: &[u8]) -> Result<String, AllocError> {
        separator_wording(alloc, line)
    }

    fn fifth_part(&self, alloc: Global) -> Result<String, AllocError> {
        fifth_part_wording(alloc)
    }

    fn warning(
        &self,
        alloc: Global,
        draft: &ComponentDraft,
        text: &[u8],
        hint: Hint,
        back: usize,
    ) -> Result<String, AllocError> {
        warning_wording(alloc, draft, text, hint, back)
    }

    fn run_warning(
        &self,
        alloc: Global,
        runs: MatrixRuns<'_>,
        hint: &RunHint,
    ) -> Result<String, AllocError> {
        run_wording(alloc, runs, hint)
    }
}
