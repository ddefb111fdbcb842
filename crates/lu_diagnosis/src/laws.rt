//! Laws of what is said of two serial runs that differ.

ghost use Rattle.lu_diagnosis.specs.Laws.{ShownAreBoth};

/// The two runs that [`write_conflict`](crate::write_conflict) shows of a conflict of two histories
/// are the first operations of both: the same up to the one that differs. The function does nothing.
pub fn conflict_laws()
    ensures { ShownAreBoth }
{}
