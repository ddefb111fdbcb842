//! Laws of the texts of reports, for the crates above.

ghost use Rattle.lu_report.specs.Laws.{NoneListed, ListedAsRead};

/// [`crate::report_faults`] agrees with [`crate::read_report`]: it tells no fault exactly of a text
/// that spells a report, and of any other first one on the reader's line. The function does
/// nothing.
pub fn listed_as_read()
    ensures first { ListedAsRead }
    ensures none { NoneListed }
{}
