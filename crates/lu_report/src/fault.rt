//! Why a text is no report.

ghost use Rattle.std.specs.Prelude.{◌≡◌};
ghost use Rattle.lu_report.specs.Codes.{report_code_of};

use lu_text::Fault;
use thiserror::Error;

/// What is wrong with a line of a report's text. Shown, it is the code of the refusal.
#[derive(Clone, Copy, Debug, Drop, PartialEq, Eq, Error)]
#[error("{}", self.code())]
pub enum ReportFaultKind {
    /// `E1`: no report with the same lines before it has this line there. A missing line counts as
    /// the number of lines plus one, and a last line without LF is at fault.
    Form,
}

impl ReportFaultKind {
    /// The code of the refusal: `E1`.
    pub fn code(self) -> &'static str
        ensures { result.now ≡ report_code_of self }
    {
        match self {
            ReportFaultKind::Form => "E1",
        }
    }
}

/// Why a text is no report: the first fault by line, or refused memory, which is shown as `memory`.
pub type ReportFault = Fault<ReportFaultKind>;
