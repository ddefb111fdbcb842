//! What lint and the readers say of one text.

ghost use Rattle.lu_lint.specs.Laws.{ComponentAgrees, MatrixAgrees, ScheduleAgrees};
ghost use Rattle.lu_lint.specs.Least.{ReadersAreLeast};

/// Lint reports no fault of a text exactly where the reader reads it; else the first fault, by its
/// own line, is the reader's, with its kind and its line. So it is of what is said of a bundle, in
/// whatever order: of a part, the fault with the least line of the part is the reader's. Where more
/// than one has that line, they are the faults of a schedule, of which the first is the reader's;
/// or faults of a component, of which those of jumps to labels that are not there may stand beside
/// the reader's.
pub fn agree()
    ensures component { ComponentAgrees }
    ensures matrix { MatrixAgrees }
    ensures schedule { ScheduleAgrees }
    ensures least { ReadersAreLeast }
{}
